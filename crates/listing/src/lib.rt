// The listing of a program: the `.CODE` part of disassemble.
#![tactic(auto)]

pub mod lines; // lines.rt: the lines of one function's code

ghost use Rattle.std.specs.Prelude.{◌≡◌, List, ℕ, ◌+◌, ◌*◌, ◌≤◌, ◌<◌, ◌^◌, length};
ghost use Rattle.model.specs.Listings.{header_line, code_lines, in_front, listing_of};
ghost use Rattle.model.specs.Stores.{Stores, function_in, program_in};
ghost use Rattle.model.specs.Loading.{list_order, list_of};
ghost use Rattle.listing.specs.Links.{Listing, lent};
ghost use Rattle.printing.specs.Links.{Put};

use crate::lines::write_lines;
use layout::reads::{first, part, room, second};
use model::{Counts, Refusal};
use printing::{put_text, write_decimal};
use program::order::{counts_ok, functions_ok, inside_codes, main_ok, text_ok};

// The line above a function's code.
pub fn write_header(i: usize, name: &[u8], out: &mut [u8], at: usize) -> usize
    requires { at + (32 + length name.now) < 2 ^ 64 }
    ensures { Put (32 + length name.now) (header_line i name.now) out.old at out.new result }
{
    let number = put_text(b".CODE ", out, at);
    let open = write_decimal(i, 0, out, number);
    let start = put_text(b" (", out, open);
    let close = put_text(name, out, start);
    put_text(b")\n", out, close)
}

// Function i: its header and its lines.
fn write_function(
    i: usize,
    name: &[u8],
    code: &[u8],
    out: &mut [u8],
    at: usize,
) -> Result<usize, Refusal>
    requires { at + (32 + length name.now + 64 * length code.now) < 2 ^ 64 }
    ensures { Listing (32 + length name.now + 64 * length code.now) (in_front (header_line i name.now) (code_lines code.now)) out.old at out.new result }
{
    let next = write_header(i, name, out, at);
    write_lines(code, out, next)
}

// The code of function i: main and the others have separate stores.
pub fn code_of<'a>(functions: &[u64], main: &'a [u8], other: &'a [u8], i: usize) -> &'a [u8]
    ensures { ((rest : Stores) (text : List ℕ) → result.now ≡ (function_in (lent rest functions.now text main.now other.now) i).code) × (length result.now < 2 ^ 32) }
{
    let word = second(functions, i);
    if i == 0 {
        return part(main, word);
    }
    part(other, word)
}

// The functions in order, from the store's start on.
fn write_all<'a>(
    c: Counts,
    functions: &[u64],
    text: &[u8],
    main: &'a [u8],
    other: &'a [u8],
    out: &mut [u8],
) -> Result<usize, Refusal>
    requires { c.functions ≤ 65536 }
    ensures { (rest : Stores) → Listing (65536 * 2 ^ 40) (listing_of (program_in c (lent rest functions.now text.now main.now other.now))) out.old 0 out.new result }
{
    let mut next = 0;
    for i in 0..c.functions {
        let name = part(text, first(functions, i));
        let code = code_of(functions, main, other, i);
        next = write_function(i, name, code, out, next)?;
    }
    Ok(next)
}

// Good order of what the listing is lent.
fn list_order(c: Counts, functions: &[u64], text: &[u8], main: &[u8], other: &[u8]) -> bool
    ensures { (rest : Stores) → result ≡ list_order c (lent rest functions.now text.now main.now other.now) }
{
    counts_ok(c)
        & text_ok(c, text)
        & functions_ok(c, functions)
        & main_ok(functions, text)
        & inside_codes(c, functions, main.len(), other.len())
}

// The listing of a program, into out, and how long it is. It is judged and measured first, with no room to write into, so that a refusal
// writes nothing.
pub fn disassemble<'a>(
    c: Counts,
    functions: &[u64],
    text: &[u8],
    main: &'a [u8],
    other: &'a [u8],
    out: &mut [u8],
) -> Result<usize, Refusal>
    ensures { (rest : Stores) → record { answer = result; out = out.new } ≡ list_of c (lent rest functions.now text.now main.now other.now) out.old }
{
    let ok = list_order(c, functions, text, main, other);
    if !ok {
        return Err(Refusal::NotInOrder);
    }
    let n = write_all(c, functions, text, main, other, &mut out[..0])?;
    if room(out.len(), 1) < n {
        return Err(Refusal::ResultTooShort);
    }
    write_all(c, functions, text, main, other, out)
}
