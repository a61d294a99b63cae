// Making a machine that has not run: all but its frame.
ghost use Rattle.std.specs.Prelude.{◌≡◌, false};
ghost use Rattle.model.specs.Runs.{root};
ghost use Rattle.model.specs.Stores.{Stores};
ghost use Rattle.model.specs.Machines.{load_machine_of, new_machine_of};
ghost use Rattle.layout.specs.Links.{names_lent};
ghost use Rattle.model.specs.Stores.{stores_of as lent};
ghost use Rattle.machine.specs.Links.{Makes};

use emission_functions::new;
use image_judge::judge;
use image_load::{load, within_limits};
use model::{Frame, Refusal, Vm};
use run_ends::{fresh_vm, root_frame};

// The first frame: main's, at position 0.
pub fn first_frame() -> Frame
    ensures { result ≡ root 0 }
{
    root_frame(0)
}

// What loading answers where there is no place for a frame: what is wrong with the image comes first.
pub fn no_place(image: &[u8]) -> Result<Vm, Refusal>
    ensures { (s : Stores) → Makes (load_machine_of false image.now s) 0 result s }
{
    let z = judge(image)?;
    if !within_limits(z) {
        return Err(Refusal::OverLimit);
    }
    Err(Refusal::StoreFull)
}

// Loads the program, unless a run is under way (`running`); `frames` is how many places the frame store has.
pub fn load_program(
    running: bool,
    image: &[u8],
    constants: &mut [u64],
    structs: &mut [u64],
    functions: &mut [u64],
    text: &mut [u8],
    main: &mut [u8],
    main_places: &mut [u32],
    other: &mut [u8],
    other_places: &mut [u32],
    frames: usize,
) -> Result<Vm, Refusal>
    ensures { Makes (load_machine_of running image.now (lent constants.old structs.old functions.old text.old main.old main_places.old other.old other_places.old)) frames result (lent constants.new structs.new functions.new text.new main.new main_places.new other.new other_places.new) }
{
    if running {
        return Err(Refusal::RunUnderWay);
    }
    if frames == 0 {
        return no_place(image);
    }
    let counts = load(
        image,
        constants,
        structs,
        functions,
        text,
        main,
        main_places,
        other,
        other_places,
    )?;
    Ok(fresh_vm(counts))
}

// Emits a new program, unless a run is under way (`running`); `frames` is how many places the frame store has.
pub fn new_program(
    running: bool,
    functions: &mut [u64],
    text: &mut [u8],
    frames: usize,
) -> Result<Vm, Refusal>
    ensures { (rest : Stores) → Makes (new_machine_of running (names_lent rest functions.old text.old)) frames result (names_lent rest functions.new text.new) }
{
    if running {
        return Err(Refusal::RunUnderWay);
    }
    if frames == 0 {
        return Err(Refusal::StoreFull);
    }
    let (counts, _) = new(functions, text)?;
    Ok(fresh_vm(counts))
}
