// A rule image is loaded into lent stores.
#![tactic(auto)]

mod loading; // loading.rt: the writing pass

ghost use Rattle.std.specs.Prelude.{◌≡◌};
ghost use Rattle.model.specs.Programs.{Program, within_limits};
ghost use Rattle.model.specs.Loading.{room_for, load_of};
ghost use Rattle.image_judge.specs.Links.{SizesOf};
ghost use Rattle.model.specs.Stores.{stores_of as lent};

use image_judge::{Sizes, judge};
use layout::reads::room;
use model::{CONSTANT_LIMIT, Counts, NAME_LIMIT, Refusal};

// Whether a program of these sizes is within the limits.
pub fn within_limits(z: Sizes) -> bool
    ensures { (p : Program) → SizesOf p z → result ≡ within_limits p }
{
    (z.constants <= CONSTANT_LIMIT)
        & (z.structs <= NAME_LIMIT)
        & (z.functions <= NAME_LIMIT)
        & z.within
}

// Whether each store has room for its part of a program of these sizes.
pub fn has_room(
    z: Sizes,
    constants: &[u64],
    structs: &[u64],
    functions: &[u64],
    text: &[u8],
    main: &[u8],
    main_places: &[u32],
    other: &[u8],
    other_places: &[u32],
) -> bool
    ensures { (p : Program) → SizesOf p z → result ≡ room_for p (lent constants.now structs.now functions.now text.now main.now main_places.now other.now other_places.now) }
{
    (z.constants <= room(constants.len(), 2))
        & (z.structs <= room(structs.len(), 2))
        & (z.functions <= room(functions.len(), 2))
        & (z.text <= room(text.len(), 1))
        & (z.main <= room(main.len(), 1))
        & (z.main <= room(main_places.len(), 1))
        & (z.other <= room(other.len(), 1))
        & (z.other <= room(other_places.len(), 1))
}

// Loads an image: judged whole, then the limits, then the room, then written.
pub fn load(
    image: &[u8],
    constants: &mut [u64],
    structs: &mut [u64],
    functions: &mut [u64],
    text: &mut [u8],
    main: &mut [u8],
    main_places: &mut [u32],
    other: &mut [u8],
    other_places: &mut [u32],
) -> Result<Counts, Refusal>
    ensures { record { answer = result; stores = lent constants.new structs.new functions.new text.new main.new main_places.new other.new other_places.new } ≡ load_of image.now (lent constants.old structs.old functions.old text.old main.old main_places.old other.old other_places.old) }
{
    let z = judge(image)?;
    if !within_limits(z) {
        return Err(Refusal::OverLimit);
    }
    let fits = has_room(
        z,
        constants,
        structs,
        functions,
        text,
        main,
        main_places,
        other,
        other_places,
    );
    if !fits {
        return Err(Refusal::StoreFull);
    }
    loading::load_all(
        image,
        constants,
        structs,
        functions,
        text,
        main,
        main_places,
        other,
        other_places,
    );
    Ok(Counts {
        constants: z.constants,
        structs: z.structs,
        functions: z.functions,
        text: z.text,
        current: 0,
    })
}
