// What is said of bytes that are no image: which item breaks a rule, and what is asked of it.
ghost use Rattle.std.specs.Prelude.{◌+◌, ◌<◌, ◌^◌};
ghost use Rattle.printing.specs.Links.{Put};
ghost use Rattle.image_items.specs.Parts.{part_at};
ghost use Rattle.check_report.specs.Details.{row_words, part_words};

use image_items::{Part, Row, part_at};
use printing::{put_count, put_text};

// A count.
fn put_row(w: Row, out: &mut [u8], at: usize) -> usize
    requires { at + 96 < 2 ^ 64 }
    ensures { Put 96 (row_words w) out.old at out.new result }
{
    match w {
        Row::Constants => put_text(b": the number of constants", out, at),
        Row::Structs => put_text(b": the number of struct names", out, at),
        Row::Functions => put_text(b": the number of functions, one at least", out, at),
    }
}

// An item.
fn put_part(x: Part, out: &mut [u8], at: usize) -> usize
    requires { at + 96 < 2 ^ 64 }
    ensures { Put 96 (part_words x) out.old at out.new result }
{
    match x {
        Part::Count(w) => put_row(w, out, at),
        Part::Kind(k) => put_count(b": the kind, 0 to 3, of constant ", k, out, at),
        Part::Value(k) => put_count(
            b": the value, whole, a boolean 0 or 1, of constant ",
            k,
            out,
            at,
        ),
        Part::Struct(k) => put_count(
            b": the name, a text that none before it is, of struct ",
            k,
            out,
            at,
        ),
        Part::Name(k) => put_count(
            b": the name, a text, <main> for function 0, of function ",
            k,
            out,
            at,
        ),
        Part::Length(k) => put_count(b": the code's length, of function ", k, out, at),
        Part::Code(k) => put_count(b": the code, as long as told, of function ", k, out, at),
        Part::Places(k) => put_count(
            b": the places, in runs for each byte of code, of function ",
            k,
            out,
            at,
        ),
        Part::Behind => put_text(b": bytes behind the last function", out, at),
        Part::Nowhere => at,
    }
}

// The item of an image that begins at offset o.
pub fn put_item(o: usize, image: &[u8], out: &mut [u8]) -> usize
    ensures { Put 96 (part_words (part_at image.now o)) out.old 0 out.new result }
{
    let x = part_at(image, o);
    put_part(x, out, 0)
}
