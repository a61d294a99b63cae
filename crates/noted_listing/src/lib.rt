// The listing of a program with notes.
#![tactic(auto)]

mod lines; // lines.rt: the lines of one function's code
mod functions; // functions.rt: one function, and all of them

ghost use Rattle.std.specs.Prelude.{◌≡◌};
ghost use Rattle.notes.specs.Notes.{notes_of};
ghost use Rattle.layout.specs.Lent.{stores_in};

use crate::functions::write_noted_all;
use layout::lent::ProgramStores;
use layout::reads::room;
use model::{Counts, Refusal};
use program::order::stores_ok;

// The listing of a program with notes, into out, and how long it is. It is judged and measured first, with no room to write into, so that a
// refusal writes nothing.
pub fn list_with_notes(c: Counts, stores: &ProgramStores, out: &mut [u8]) -> Result<usize, Refusal>
    ensures { record { answer = result; out = out.new } ≡ notes_of c (stores_in stores.now) out.old }
{
    let ok = stores_ok(c, stores);
    if !ok {
        return Err(Refusal::NotInOrder);
    }
    let n = write_noted_all(c, stores, &mut out[..0])?;
    if room(out.len(), 1) < n {
        return Err(Refusal::ResultTooShort);
    }
    write_noted_all(c, stores, out)
}
