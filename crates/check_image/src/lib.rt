// A rule image is checked before it is installed: what keeps all six rules is loaded, anything else is refused and nothing is written.
#![tactic(auto)]

pub mod flaws; // flaws.rt: what breaks the rule of heights
mod passes; // passes.rt: the rules, one after the other

ghost use Rattle.std.specs.Prelude.{◌≡◌, ◌≤◌, length};
ghost use Rattle.model.specs.Stores.{stores_of as lent};
ghost use Rattle.model.specs.Emission.{written};
ghost use Rattle.image_codes.specs.Links.{Ready};
ghost use Rattle.check_rules.specs.Checks.{CheckAs};
ghost use Rattle.check_image.specs.Links.{RulesPost};

use crate::passes::keep_rules;
use check_rules::{Rejected, Rule};
use image_judge::{Sizes, judge};
use image_load::{has_room, load, within_limits};
use layout::reads::room;
use model::{Counts, Refusal};

// The heights put into their store, from its start on.
fn put_heights(greatest: &[u32], heights: &mut [u32])
    requires { length greatest.now ≤ length heights.old }
    ensures { heights.new ≡ written heights.old 0 greatest.now }
{
    heights[..greatest.len()].copy_from_slice(greatest);
}

// What the rules say of an image. If none is broken, the heights are put into their store. The two tables have a word for each function and each
// position that there can be.
fn judge_rules(image: &[u8], z: Sizes, heights: &mut [u32]) -> Result<(), (Rule, usize)>
    requires { (Ready image.now z) × (z.functions ≤ length heights.old) }
    ensures { RulesPost image.now heights.old result heights.new }
{
    let mut greatest = [0u32; 65536];
    let mut table = [0u32; 65536];
    keep_rules(image, z, &mut greatest, &mut table)?;
    let n = z.functions;
    put_heights(&greatest[..n], heights);
    Ok(())
}

// Checks an image: judged whole, then the heights' store, then the limits, then the room, then the rules. What passes is loaded.
pub fn check(
    image: &[u8],
    heights: &mut [u32],
    constants: &mut [u64],
    structs: &mut [u64],
    functions: &mut [u64],
    text: &mut [u8],
    main: &mut [u8],
    main_places: &mut [u32],
    other: &mut [u8],
    other_places: &mut [u32],
) -> Result<Counts, Rejected>
    ensures { CheckAs image.now heights.old (lent constants.old structs.old functions.old text.old main.old main_places.old other.old other_places.old) result heights.new (lent constants.new structs.new functions.new text.new main.new main_places.new other.new other_places.new) }
{
    let z = judge(image).map_err(|broken| Rejected::Refused(Refusal::from(broken)))?;
    if room(heights.len(), 1) < z.functions {
        return Err(Rejected::Refused(Refusal::ResultTooShort));
    }
    if !within_limits(z) {
        return Err(Rejected::Refused(Refusal::OverLimit));
    }
    let fits = has_room(
        z,
        constants,
        structs,
        functions,
        text,
        main,
        main_places,
        other,
        other_places,
    );
    if !fits {
        return Err(Rejected::Refused(Refusal::StoreFull));
    }
    if let Err((q, f)) = judge_rules(image, z, heights) {
        return Err(Rejected::Breaks(q, f));
    }
    load(
        image,
        constants,
        structs,
        functions,
        text,
        main,
        main_places,
        other,
        other_places,
    )
    .map_err(Rejected::Refused)
}
