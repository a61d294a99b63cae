// Good order of a program's counts and stores: each check answers exactly what the model's definition says.
ghost use Rattle.std.specs.Prelude.{◌≡◌, ◌&&◌, List, ℕ, suc, ◌-◌, eqb, leb, ltb, length};
ghost use Rattle.model.specs.Basics.{every_from};
ghost use Rattle.model.specs.Values.{places};
ghost use Rattle.model.specs.Stores.{struct_word, order_word};
ghost use Rattle.model.specs.Programs.{before};
ghost use Rattle.model.specs.Orders.{counts_ok, text_ok, inside_text, constant_ok, constants_ok, name_in_order, structs_ok, function_ok, functions_ok, main_ok, inside_codes, program_ok};
ghost use Rattle.layout.specs.Lent.{stores_in};
ghost use Rattle.layout.specs.Links.{WholeIs};

use layout::lent::ProgramStores;
use layout::ordered::{before, in_order};
use layout::reads::{
    code_end, code_start, first, index, part, room, same_bytes, second, size_of, start_of,
};
use model::{CODE_LIMIT, CONSTANT_LIMIT, Counts, MOST_PLACES, NAME_LIMIT};

// Whether i is the last of n.
fn last_of(i: usize, n: usize) -> bool
    ensures { result ≡ eqb (suc i) n }
{
    n != 0 && i == n - 1
}

// Counts within limits; the current function main or the newest.
pub fn counts_ok(c: Counts) -> bool
    ensures { result ≡ counts_ok c }
{
    (c.constants <= CONSTANT_LIMIT)
        & (c.structs <= NAME_LIMIT)
        & (1 <= c.functions)
        & (c.functions <= NAME_LIMIT)
        & (c.text <= MOST_PLACES)
        & ((c.current == 0) | last_of(c.current, c.functions))
}

// The text that is taken lies in its store.
pub fn text_ok(c: Counts, text: &[u8]) -> bool
    ensures { result ≡ text_ok c text.now }
{
    c.text <= room(text.len(), 1)
}

// A name or a text lies inside the text that is taken.
pub fn inside_text(c: Counts, w: u64) -> bool
    ensures { result ≡ inside_text c w }
{
    start_of(w) + size_of(w) <= c.text
}

// A constant of one of the four kinds.
pub fn constant_ok(c: Counts, kind: u64, payload: u64) -> bool
    ensures { result ≡ constant_ok c kind payload }
{
    match kind {
        0 => true,
        1 => payload < 2,
        2 | 3 => inside_text(c, payload),
        _ => false,
    }
}

// The constants lie in their store, each of one of the four kinds.
pub fn constants_ok(c: Counts, constants: &[u64]) -> bool
    ensures { result ≡ constants_ok c constants.now }
{
    let n = c.constants;
    n <= room(constants.len(), 2)
        && (0..n).all(|i| constant_ok(c, first(constants, i), second(constants, i)))
}

// Struct i: its name inside the text, and a number of a struct in the order.
fn struct_inside(c: Counts, structs: &[u64], i: usize) -> bool
    ensures { result ≡ (inside_text c (struct_word structs.now i) && ltb (order_word structs.now i) c.structs) }
{
    inside_text(c, first(structs, i)) & (index(second(structs, i)) < c.structs)
}

// The struct names lie in their store and inside the text, and the numbers of their order are numbers of structs.
fn structs_inside(c: Counts, structs: &[u64]) -> bool
    ensures { result ≡ (leb c.structs (places 2 structs.now) && every_from c.structs 0 (λ i. inside_text c (struct_word structs.now i) && ltb (order_word structs.now i) c.structs)) }
{
    let n = c.structs;
    n <= room(structs.len(), 2) && (0..n).all(|i| struct_inside(c, structs, i))
}

// Whether each of n names in order is before the next.
fn ascend(n: usize, structs: &[u64], text: &[u8]) -> bool
    ensures { result ≡ every_from (n - 1) 0 (λ i. before (name_in_order structs.now text.now i) (name_in_order structs.now text.now (suc i))) }
{
    (0..n.saturating_sub(1)).all(|i| {
        before(
            part(text, in_order(structs, i)),
            part(text, in_order(structs, i + 1)),
        )
    })
}

// Struct names inside the text, all different: each is before the next in the order that the store tells.
pub fn structs_ok(c: Counts, structs: &[u64], text: &[u8]) -> bool
    ensures { result ≡ structs_ok c structs.now text.now }
{
    structs_inside(c, structs) && ascend(c.structs, structs, text)
}

// Function i: its name inside the text, its code behind the others and within its limit.
pub fn function_ok(c: Counts, functions: &[u64], i: usize) -> bool
    ensures { result ≡ function_ok c functions.now i }
{
    let code = second(functions, i);
    inside_text(c, first(functions, i))
        & (start_of(code) == code_start(functions, i))
        & (size_of(code) <= CODE_LIMIT)
        & (code_end(functions, i) <= MOST_PLACES)
}

// The functions lie in their store, each in order. (As `structs_inside`, of another order of each: one function of both would be no plainer than a line.)
pub fn functions_ok(c: Counts, functions: &[u64]) -> bool
    ensures { result ≡ functions_ok c functions.now }
{
    let n = c.functions;
    n <= room(functions.len(), 2) && (0..n).all(|i| function_ok(c, functions, i))
}

// Function 0 is `<main>`.
pub fn main_ok(functions: &[u64], text: &[u8]) -> bool
    ensures { result ≡ main_ok functions.now text.now }
{
    same_bytes(part(text, first(functions, 0)), b"<main>")
}

// The codes lie inside stores of these lengths, for main and for the others; it serves code and places alike.
pub fn inside_codes(c: Counts, functions: &[u64], main: usize, other: usize) -> bool
    ensures { (m o : List ℕ) → length m ≡ main → length o ≡ other → result ≡ inside_codes c functions.now m o }
{
    (code_end(functions, 0) <= room(main, 1))
        & (code_start(functions, c.functions) <= room(other, 1))
}

// A whole program, over code and place stores of these lengths.
pub fn program_ok(
    c: Counts,
    constants: &[u64],
    structs: &[u64],
    functions: &[u64],
    text: &[u8],
    main: usize,
    main_places: usize,
    other: usize,
    other_places: usize,
) -> bool
    ensures { WholeIs c constants.now structs.now functions.now text.now main main_places other other_places result }
{
    counts_ok(c)
        & text_ok(c, text)
        & constants_ok(c, constants)
        & structs_ok(c, structs, text)
        & functions_ok(c, functions)
        & main_ok(functions, text)
        & inside_codes(c, functions, main, other)
        & inside_codes(c, functions, main_places, other_places)
}

// A whole program in lent stores.
pub fn stores_ok(c: Counts, stores: &ProgramStores) -> bool
    ensures { result ≡ program_ok c (stores_in stores.now) }
{
    program_ok(
        c,
        stores.constants,
        stores.structs,
        stores.functions,
        stores.text,
        stores.main.len(),
        stores.main_places.len(),
        stores.other.len(),
        stores.other_places.len(),
    )
}
