// Emission of functions by their names. `running`: a run is under way on the machine whose program this is, and the program stays as it is (25).
#![tactic(auto)]

ghost use Rattle.std.specs.Prelude.{◌≡◌};
ghost use Rattle.model.specs.Stores.{Stores};
ghost use Rattle.model.specs.Emission.{new_of, function_order, begin_function_of, end_function_of, function_idx_of};
ghost use Rattle.layout.specs.Links.{Is, names_lent};

use layout::reads::{code_start, pack, room, text_room};
use layout::writes::{put_bytes, put_words};
use model::{Counts, NAME_LIMIT, Refusal};
use program::names::newest_function;
use program::order::{counts_ok, functions_ok, main_ok, text_ok};

// A new program: `<main>`, and nothing else.
pub fn new(functions: &mut [u64], text: &mut [u8]) -> Result<(Counts, usize), Refusal>
    ensures { (rest : Stores) → Is (new_of (names_lent rest functions.old text.old)) result (names_lent rest functions.new text.new) }
{
    let fits = (6 <= room(text.len(), 1)) & (1 <= room(functions.len(), 2));
    if !fits {
        return Err(Refusal::StoreFull);
    }
    put_bytes(text, 0, b"<main>");
    put_words(functions, 0, pack(0, 6), 0);
    let c = Counts {
        constants: 0,
        structs: 0,
        functions: 1,
        text: 6,
        current: 0,
    };
    Ok((c, 0))
}

// Emission goes on in main.
pub fn end_function(running: bool, c: Counts) -> Result<(Counts, usize), Refusal>
    ensures { result ≡ end_function_of running c }
{
    let ok = counts_ok(c);
    if !ok {
        return Err(Refusal::NotInOrder);
    }
    if running {
        return Err(Refusal::RunUnderWay);
    }
    Ok((Counts { current: 0, ..c }, 0))
}

// Good order of what the entries below are lent.
pub fn function_order(c: Counts, functions: &[u64], text: &[u8]) -> bool
    ensures { (rest : Stores) → result ≡ function_order c (names_lent rest functions.now text.now) }
{
    counts_ok(c) & text_ok(c, text) & functions_ok(c, functions) & main_ok(functions, text)
}

// A new function with no code, behind the others; it is then the current one.
pub fn begin_function(
    running: bool,
    c: Counts,
    name: &[u8],
    functions: &mut [u64],
    text: &mut [u8],
) -> Result<(Counts, usize), Refusal>
    ensures { (rest : Stores) → Is (begin_function_of running c name.now (names_lent rest functions.old text.old)) result (names_lent rest functions.new text.new) }
{
    let ok = function_order(c, functions, text);
    if !ok {
        return Err(Refusal::NotInOrder);
    }
    if running {
        return Err(Refusal::RunUnderWay);
    }
    let n = c.functions;
    if NAME_LIMIT <= n {
        return Err(Refusal::OverLimit);
    }
    if room(functions.len(), 2) <= n {
        return Err(Refusal::StoreFull);
    }
    let size = name.len();
    if !text_room(c, text, size) {
        return Err(Refusal::StoreFull);
    }
    let at = c.text;
    let behind = code_start(functions, n);
    put_bytes(text, at, name);
    put_words(functions, n, pack(at, size), pack(behind, 0));
    Ok((
        Counts {
            functions: n + 1,
            text: at + size,
            current: n,
            ..c
        },
        n,
    ))
}

// The number of the newest function of that name.
pub fn get_function_idx(
    c: Counts,
    name: &[u8],
    functions: &[u64],
    text: &[u8],
) -> Result<usize, Refusal>
    ensures { (rest : Stores) → result ≡ function_idx_of c name.now (names_lent rest functions.now text.now) }
{
    if !function_order(c, functions, text) {
        return Err(Refusal::NotInOrder);
    }
    newest_function(c.functions, name, functions, text)
}
