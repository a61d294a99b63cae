// Searches by name: newest first for functions.
ghost use Rattle.std.specs.Prelude.{◌≡◌};
ghost use Rattle.model.specs.Programs.{newest_from};
ghost use Rattle.model.specs.Stores.{Stores};
ghost use Rattle.model.specs.Emission.{names_from, told_name};
ghost use Rattle.layout.specs.Links.{names_lent};

use layout::reads::{first, part, same_bytes};
use model::Refusal;

// The newest of n functions that has the name, from the newest down.
pub fn newest_function(
    n: usize,
    name: &[u8],
    functions: &[u64],
    text: &[u8],
) -> Result<usize, Refusal>
    ensures { (rest : Stores) → result ≡ told_name (newest_from 0 name.now (names_from n 0 (names_lent rest functions.now text.now))) }
{
    for i in (0..n).rev() {
        if same_bytes(name, part(text, first(functions, i))) {
            return Ok(i);
        }
    }
    Err(Refusal::NoFunction)
}
