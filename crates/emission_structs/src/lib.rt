// Emission of struct names, all different. `running`: a run is under way on the machine whose program this is, and the program stays as it is (25).
#![tactic(auto)]

ghost use Rattle.std.specs.Prelude.{◌≡◌};
ghost use Rattle.model.specs.Stores.{Stores};
ghost use Rattle.model.specs.Emission.{struct_order, struct_added, add_struct_of};
ghost use Rattle.laws_names.specs.Sorted.{Placed};
ghost use Rattle.layout.specs.Links.{Is, structs_lent};

use layout::ordered::{put_struct, spot, stands};
use layout::reads::{index, pack, room, second, text_room};
use layout::writes::put_bytes;
use model::{Counts, NAME_LIMIT, Refusal};
use program::order::{counts_ok, structs_ok, text_ok};

// Good order of what add_struct_info is lent.
pub fn struct_order(c: Counts, structs: &[u64], text: &[u8]) -> bool
    ensures { (rest : Stores) → result ≡ struct_order c (structs_lent rest structs.now text.now) }
{
    counts_ok(c) && text_ok(c, text) && structs_ok(c, structs, text)
}

// One struct name more, at its place in the order.
fn add_struct(
    c: Counts,
    at: usize,
    name: &[u8],
    structs: &mut [u64],
    text: &mut [u8],
) -> Result<(Counts, usize), Refusal>
    requires { Placed c.structs at name.now structs.old text.old }
    ensures { (rest : Stores) → Is (struct_added c name.now (structs_lent rest structs.old text.old)) result (structs_lent rest structs.new text.new) }
{
    let n = c.structs;
    if NAME_LIMIT <= n {
        return Err(Refusal::OverLimit);
    }
    if room(structs.len(), 2) <= n {
        return Err(Refusal::StoreFull);
    }
    let size = name.len();
    if !text_room(c, text, size) {
        return Err(Refusal::StoreFull);
    }
    let start = c.text;
    put_bytes(text, start, name);
    put_struct(structs, at, n, pack(start, size));
    Ok((
        Counts {
            structs: n + 1,
            text: start + size,
            ..c
        },
        n,
    ))
}

// The number of a known name, else of a new one.
pub fn add_struct_info(
    running: bool,
    c: Counts,
    name: &[u8],
    structs: &mut [u64],
    text: &mut [u8],
) -> Result<(Counts, usize), Refusal>
    ensures { (rest : Stores) → Is (add_struct_of running c name.now (structs_lent rest structs.old text.old)) result (structs_lent rest structs.new text.new) }
{
    let ok = struct_order(c, structs, text);
    if !ok {
        return Err(Refusal::NotInOrder);
    }
    if running {
        return Err(Refusal::RunUnderWay);
    }
    let n = c.structs;
    let at = spot(name, n, structs, text);
    if stands(name, at, n, structs, text) {
        return Ok((c, index(second(structs, at))));
    }
    add_struct(c, at, name, structs, text)
}
