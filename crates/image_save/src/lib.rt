// A program is saved as a rule image.
#![tactic(auto)]

mod saving; // saving.rt: the image, piece by piece

ghost use Rattle.layout.specs.Lent.{stores_in};
ghost use Rattle.std.specs.Prelude.{◌≡◌};
ghost use Rattle.model.specs.Loading.{save_of};

use layout::lent::ProgramStores;
use layout::reads::room;
use model::{Counts, Refusal};
use program::order::stores_ok;

// Saves the program: good order first, then the size, then it is written.
pub fn save(c: Counts, stores: &ProgramStores, out: &mut [u8]) -> Result<usize, Refusal>
    ensures { record { answer = result; out = out.new } ≡ save_of c (stores_in stores.now) out.old }
{
    let ok = stores_ok(c, stores);
    if !ok {
        return Err(Refusal::NotInOrder);
    }
    let n = saving::put_image(&mut out[0..0], c, stores);
    if room(out.len(), 1) < n {
        return Err(Refusal::ResultTooShort);
    }
    saving::put_image(out, c, stores);
    Ok(n)
}
