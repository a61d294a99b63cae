// A line of the listing with notes: what its operands name, and its place.
#![tactic(auto)]

mod operands; // operands.rt: the notes of the operands

ghost use Rattle.std.specs.Prelude.{◌≡◌, ◌+◌, ◌≤◌, ◌<◌, ◌^◌, length, get_or};
ghost use Rattle.model.specs.Programs.{next_in};
ghost use Rattle.model.specs.Listings.{line_of};
ghost use Rattle.printing.specs.Links.{Put};
ghost use Rattle.notes.specs.Notes.{place_note, noted_line};
ghost use Rattle.notes.specs.Links.{known_from};

use crate::operands::note_operands;
use layout::lent::ProgramStores;
use listing::lines::write_line;
use model::Counts;
use printing::{put_byte, put_count};

// The place of the byte at i.
fn place_at(places: &[u32], i: usize) -> u32
    ensures { result ≡ get_or places.now i 0 }
{
    places.get(i).copied().unwrap_or(0)
}

// The place's note.
fn note_place(places: &[u32], i: usize, out: &mut [u8], at: usize) -> usize
    requires { at + 30 < 2 ^ 64 }
    ensures { Put 30 (place_note places.now i) out.old at out.new result }
{
    let place = place_at(places, i);
    put_count(b"  ; place ", place as usize, out, at)
}

// The listing's line, and where its newline stands.
fn put_listed(code: &[u8], i: usize, out: &mut [u8], at: usize) -> usize
    requires { (i < length code.now) × (next_in code.now i ≤ length code.now) × (at + 127 < 2 ^ 64) }
    ensures { Put 127 (line_of code.now i) out.old at out.new (result + 1) }
{
    let behind = write_line(code, i, out, at);
    behind - 1
}

// The line of the instruction at position i, which is all there: its notes are put over the newline.
pub fn write_noted_line(
    code: &[u8],
    places: &[u32],
    i: usize,
    c: Counts,
    stores: &ProgramStores,
    out: &mut [u8],
    at: usize,
) -> usize
    requires { (i < length code.now) × (next_in code.now i ≤ length code.now) × (length code.now < 2 ^ 32) × (at + 256 < 2 ^ 64) }
    ensures { Put 256 (noted_line (known_from c stores.now) code.now places.now i) out.old at out.new result }
{
    let newline = put_listed(code, i, out, at);
    let place = note_operands(code, i, c, stores, out, newline);
    let end = note_place(places, i, out, place);
    put_byte(b'\n', out, end)
}
