// Constants and names as a note shows them.
#![tactic(auto)]

ghost use Rattle.std.specs.Prelude.{◌≡◌, ◌++◌, ◌+◌, ◌<◌, ◌^◌, length};
ghost use Rattle.model.specs.Stores.{part, constant_in, constants_from, structs_from};
ghost use Rattle.printing.specs.Links.{Put};
ghost use Rattle.notes.specs.Notes.{shown_byte, shown_text, constant_text, constant_at, name_at};

use layout::reads::{first, part, second};
use printing::{put_byte, put_text, write_hex};

// A byte that is no plain letter is shown as a dot.
fn shown_byte(b: u8) -> u8
    ensures { result ≡ shown_byte b }
{
    if (32 <= b) & (b < 127) {
        return b;
    }
    b'.'
}

// A text: 24 bytes of it at most.
fn put_shown(text: &[u8], out: &mut [u8], at: usize) -> usize
    requires { at + 26 < 2 ^ 64 }
    ensures { Put 26 (shown_text text.now) out.old at out.new result }
{
    let n = text.len().min(24);
    let mut next = at;
    for b in &text[..n] {
        next = put_byte(shown_byte(*b), out, next);
    }
    if n < text.len() {
        return put_text(b"..", out, next);
    }
    next
}

// The text that a word names, behind what kind of text it is.
fn put_part(kind: &[u8], word: u64, text: &[u8], out: &mut [u8], at: usize) -> usize
    requires { at + (length kind.now + 26) < 2 ^ 64 }
    ensures { Put (length kind.now + 26) (kind.now ++ shown_text (part text.now word)) out.old at out.new result }
{
    let next = put_text(kind, out, at);
    put_shown(part(text, word), out, next)
}

// A constant, by its two words.
fn put_constant(kind: u64, payload: u64, text: &[u8], out: &mut [u8], at: usize) -> usize
    requires { at + 35 < 2 ^ 64 }
    ensures { Put 35 (constant_text (constant_in text.now kind payload)) out.old at out.new result }
{
    match kind {
        0 => {
            let next = put_text(b"scalar ", out, at);
            write_hex(16, payload, out, next)
        }
        1 if payload == 0 => put_text(b"false", out, at),
        1 => put_text(b"true", out, at),
        2 => put_part(b"string ", payload, text, out, at),
        _ => put_part(b"function ", payload, text, out, at),
    }
}

// Constant k of n.
pub fn put_constant_at(
    n: usize,
    constants: &[u64],
    text: &[u8],
    k: usize,
    out: &mut [u8],
    at: usize,
) -> usize
    requires { at + 35 < 2 ^ 64 }
    ensures { Put 35 (constant_at (constants_from n 0 constants.now text.now) k) out.old at out.new result }
{
    if k < n {
        let kind = first(constants, k);
        let payload = second(constants, k);
        return put_constant(kind, payload, text, out, at);
    }
    put_text(b"no constant", out, at)
}

// Name k of the n in a store, of functions or of structs.
pub fn put_name_at(
    none: &[u8],
    n: usize,
    names: &[u64],
    text: &[u8],
    k: usize,
    out: &mut [u8],
    at: usize,
) -> usize
    requires { at + (26 + length none.now) < 2 ^ 64 }
    ensures { Put (26 + length none.now) (name_at (structs_from n 0 names.now text.now) k none.now) out.old at out.new result }
{
    if k < n {
        let word = first(names, k);
        return put_shown(part(text, word), out, at);
    }
    put_text(none, out, at)
}
