// One function with its header, and all of them.
ghost use Rattle.layout.specs.Lent.{stores_in};
ghost use Rattle.std.specs.Prelude.{◌≡◌, ◌+◌, ◌*◌, ◌≤◌, ◌<◌, ◌^◌};
ghost use Rattle.model.specs.Stores.{part, function_in, program_in};
ghost use Rattle.listing.specs.Links.{Listing};
ghost use Rattle.notes.specs.Notes.{noted_listing};
ghost use Rattle.notes.specs.Links.{known_from};
ghost use Rattle.noted_listing.specs.Links.{noted_function, places_in};

use crate::lines::write_noted_lines;
use layout::lent::ProgramStores;
use layout::reads::{first, part, second, size_of, start_of};
use listing::{code_of, write_header};
use model::{Counts, Refusal};

// The places that a word names.
fn place_part(places: &[u32], w: u64) -> &[u32]
    ensures { result.now ≡ part places.now w }
{
    let from = start_of(w).min(places.len());
    let to = (from + size_of(w)).min(places.len());
    &places[from..to]
}

// The places of function i: main's and the others' have separate stores.
fn places_of<'a>(stores: &ProgramStores<'a>, i: usize) -> &'a [u32]
    ensures { result.now ≡ places_in stores.now.functions.now stores.now.main_places.now stores.now.other_places.now i }
{
    let word = second(stores.functions, i);
    if i == 0 {
        return place_part(stores.main_places, word);
    }
    place_part(stores.other_places, word)
}

// Function i: its header and its lines.
fn write_noted_function(
    i: usize,
    c: Counts,
    stores: &ProgramStores,
    out: &mut [u8],
    at: usize,
) -> Result<usize, Refusal>
    requires { at + 2 ^ 41 < 2 ^ 64 }
    ensures { Listing (2 ^ 41) (noted_function (known_from c stores.now) i (function_in (stores_in stores.now) i)) out.old at out.new result }
{
    let name = part(stores.text, first(stores.functions, i));
    let code = code_of(stores.functions, stores.main, stores.other, i);
    let places = places_of(stores, i);
    let next = write_header(i, name, out, at);
    write_noted_lines(code, places, c, stores, out, next)
}

// The functions in order, from the store's start on.
pub fn write_noted_all(c: Counts, stores: &ProgramStores, out: &mut [u8]) -> Result<usize, Refusal>
    requires { c.functions ≤ 65536 }
    ensures { Listing (65536 * 2 ^ 41) (noted_listing (program_in c (stores_in stores.now))) out.old 0 out.new result }
{
    let mut next = 0;
    for i in 0..c.functions {
        next = write_noted_function(i, c, stores, out, next)?;
    }
    Ok(next)
}
