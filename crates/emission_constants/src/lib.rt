// Emission of constants: one behind the other; a text is copied into the text store. `running`: a run is under way on the machine whose program this is,
// and the program stays as it is (25).
#![tactic(auto)]

ghost use Rattle.std.specs.Prelude.{◌≡◌, List, ℕ, ◌+◌, ◌*◌, ◌≤◌, length};
ghost use Rattle.model.specs.Stores.{Stores};
ghost use Rattle.model.specs.Emission.{constant_order, with_constant, with_text_constant, add_constant_of};
ghost use Rattle.layout.specs.Links.{Is, constants_lent};

use layout::reads::{pack, room, text_room};
use layout::writes::{put_bytes, put_words};
use model::{CONSTANT_LIMIT, Constant, Counts, Refusal};
use program::order::{constants_ok, counts_ok, text_ok};

// One constant more, of that kind and payload.
fn plain(
    c: Counts,
    kind: u64,
    payload: u64,
    constants: &mut [u64],
) -> Result<(Counts, usize), Refusal>
    requires { 2 * c.constants + 2 ≤ length constants.old }
    ensures { (rest : Stores) (t : List ℕ) → Is (with_constant c kind payload (constants_lent rest constants.old t)) result (constants_lent rest constants.new t) }
{
    let n = c.constants;
    put_words(constants, n, kind, payload);
    Ok((
        Counts {
            constants: n + 1,
            ..c
        },
        n,
    ))
}

// One constant more, a text, if there is room for it.
fn text_constant(
    c: Counts,
    kind: u64,
    lent: &[u8],
    constants: &mut [u64],
    text: &mut [u8],
) -> Result<(Counts, usize), Refusal>
    requires { 2 * c.constants + 2 ≤ length constants.old }
    ensures { (rest : Stores) → Is (with_text_constant c kind lent.now (constants_lent rest constants.old text.old)) result (constants_lent rest constants.new text.new) }
{
    let size = lent.len();
    if !text_room(c, text, size) {
        return Err(Refusal::StoreFull);
    }
    let at = c.text;
    let n = c.constants;
    put_bytes(text, at, lent);
    put_words(constants, n, kind, pack(at, size));
    Ok((
        Counts {
            constants: n + 1,
            text: at + size,
            ..c
        },
        n,
    ))
}

// Good order of what add_constant is lent.
pub fn constant_order(c: Counts, constants: &[u64], text: &[u8]) -> bool
    ensures { (rest : Stores) → result ≡ constant_order c (constants_lent rest constants.now text.now) }
{
    counts_ok(c) & text_ok(c, text) & constants_ok(c, constants)
}

// One constant more; its number.
pub fn add_constant(
    running: bool,
    c: Counts,
    constant: Constant,
    lent: &[u8],
    constants: &mut [u64],
    text: &mut [u8],
) -> Result<(Counts, usize), Refusal>
    ensures { (rest : Stores) → Is (add_constant_of running c constant lent.now (constants_lent rest constants.old text.old)) result (constants_lent rest constants.new text.new) }
{
    let ok = constant_order(c, constants, text);
    if !ok {
        return Err(Refusal::NotInOrder);
    }
    if running {
        return Err(Refusal::RunUnderWay);
    }
    let n = c.constants;
    if CONSTANT_LIMIT <= n {
        return Err(Refusal::OverLimit);
    }
    if room(constants.len(), 2) <= n {
        return Err(Refusal::StoreFull);
    }
    match constant {
        Constant::Scalar(w) => plain(c, 0, w, constants),
        Constant::Boolean(b) => plain(c, 1, u64::from(b), constants),
        Constant::String => text_constant(c, 2, lent, constants, text),
        Constant::FunctionReference => text_constant(c, 3, lent, constants, text),
    }
}
