// The lines of one function's code, with notes.
ghost use Rattle.std.specs.Prelude.{◌+◌, ◌*◌, ◌<◌, ◌^◌, length};
ghost use Rattle.listing.specs.Links.{Listing};
ghost use Rattle.notes.specs.Notes.{noted_code};
ghost use Rattle.notes.specs.Links.{known_from};

use layout::lent::ProgramStores;
use model::{Counts, Decoded, Refusal};
use notes_lines::write_noted_line;
use opcode::{decode, operands};

// All lines of a code; 1 and 3 are refused as in the listing, with the lines before them put.
pub fn write_noted_lines(
    code: &[u8],
    places: &[u32],
    c: Counts,
    stores: &ProgramStores,
    out: &mut [u8],
    at: usize,
) -> Result<usize, Refusal>
    requires { (length code.now < 2 ^ 32) × (at + 256 * length code.now < 2 ^ 64) }
    ensures { Listing (256 * length code.now) (noted_code (known_from c stores.now) code.now places.now) out.old at out.new result }
{
    let mut i = 0;
    let mut next = at;
    // Each step is as long as its instruction, so this is no `for`.
    while i < code.len() {
        let b = code[i];
        if let Decoded::Unknown = decode(b) {
            return Err(Refusal::UnknownOpcode);
        }
        let n = operands(b);
        let left = (code.len() - i - 1) / 2;
        if left < n {
            return Err(Refusal::CodeEnds);
        }
        next = write_noted_line(code, places, i, c, stores, out, next);
        i = i + 1 + 2 * n;
    }
    Ok(next)
}
