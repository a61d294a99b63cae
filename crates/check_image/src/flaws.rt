// What breaks the rule of heights in a function of an image, for whoever is told that it does.
ghost use Rattle.std.specs.Prelude.{◌≡◌, ◌≤◌, ◌<◌, length};
ghost use Rattle.image_codes.specs.Links.{Ready};
ghost use Rattle.check_image.specs.Links.{TalliedPost};
ghost use Rattle.check_image.specs.Flaws.{AskedPost, FlawIn};

use crate::passes::{taken_with, tally_all};
use check_code::{jumps, whole};
use check_heights::{Flaw, flaw_in};
use image_codes::code_at;
use image_judge::{Sizes, judge};
use image_load::within_limits;

// The flaw of a code, by its function's entry of the tally. There are no heights to speak of where rule 1, 4 or 5 is broken.
fn flaw_of(main: bool, entry: u32, code: &[u8], table: &mut [u32]) -> Option<Flaw>
    requires { (length code.now ≤ 65535) × (length code.now < length table.old) × (entry < 65538) }
    ensures { AskedPost main entry code.now result }
{
    if entry == 1 {
        return None;
    }
    if !whole(code) {
        return None;
    }
    if !jumps(main, code, table) {
        return None;
    }
    flaw_in(main, taken_with(entry), code, table)
}

// The flaw of function f, if there is one of that number.
fn seek(image: &[u8], z: Sizes, f: usize, counts: &[u32], table: &mut [u32]) -> Option<Flaw>
    requires { (Ready image.now z) × (TalliedPost image.now counts.now) × (length counts.now ≡ 65536) × (65536 ≤ length table.old) }
    ensures { FlawIn image.now f result }
{
    let mut next = z.first;
    for g in 0..z.functions {
        let c = code_at(image, next, g == 0);
        let entry = counts[g];
        if g == f {
            let from = c.from;
            let end = from + c.size;
            return flaw_of(g == 0, entry, &image[from..end], table);
        }
        next = c.next;
    }
    None
}

// The same, with a tally and a table of its own.
fn flaw_alone(image: &[u8], z: Sizes, f: usize) -> Option<Flaw>
    requires { Ready image.now z }
    ensures { FlawIn image.now f result }
{
    let mut counts = [0u32; 65536];
    let mut table = [0u32; 65536];
    tally_all(image, z, &mut counts);
    seek(image, z, f, &counts, &mut table)
}

// What breaks rule 6 in function f of an image.
pub fn height_flaw(image: &[u8], f: usize) -> Option<Flaw>
    ensures { FlawIn image.now f result }
{
    let Ok(z) = judge(image) else {
        return None;
    };
    if !within_limits(z) {
        return None;
    }
    flaw_alone(image, z, f)
}
