// A value as the runner prints it.
ghost use Rattle.std.specs.Prelude.{◌≡◌, ◌++◌, ◌+◌, ◌*◌, ◌≤◌, ◌<◌, ◌^◌, length};
ghost use Rattle.model.specs.Basics.{ascii};
ghost use Rattle.model.specs.Heap.{heap_of, head_in};
ghost use Rattle.model.specs.Listings.{decimal};
ghost use Rattle.model.specs.Reports.{value_text};
ghost use Rattle.printing.specs.Links.{Put};

use model::{Header, Value};
use printing::{put_count, put_text, write_hex};
use value::words;

// The header at cell p of the first `used`; where there is none, one of no elements.
fn header_at(cells: &[u64], used: usize, p: usize) -> Header
    requires { 2 * used ≤ length cells.now }
    ensures { result ≡ head_in (heap_of used cells.now) p }
{
    if p < used && words::is_header(cells, p) {
        return words::read_header(cells, p);
    }
    Header {
        count: 0,
        number: 0,
        depth: 0,
    }
}

// A struct: its number, and how many fields it has.
fn put_struct(h: Header, out: &mut [u8], at: usize) -> usize
    requires { at + 48 < 2 ^ 64 }
    ensures { Put 48 (ascii "struct " ++ decimal h.number ++ ascii " " ++ decimal h.count) out.old at out.new result }
{
    let next = put_count(b"struct ", h.number, out, at);
    put_count(b" ", h.count, out, next)
}

// The value v, whose cells are among the first `used`.
pub fn put_value(v: Value, cells: &[u64], used: usize, out: &mut [u8], at: usize) -> usize
    requires { (2 * used ≤ length cells.now) × (at + 64 < 2 ^ 64) }
    ensures { Put 64 (value_text (heap_of used cells.now) v) out.old at out.new result }
{
    match v {
        Value::Scalar(x) => {
            let next = put_text(b"scalar ", out, at);
            write_hex(16, words::to_word(x), out, next)
        }
        Value::Boolean(true) => put_text(b"true", out, at),
        Value::Boolean(false) => put_text(b"false", out, at),
        Value::String(_, n) => put_count(b"string ", n as usize, out, at),
        Value::FunctionReference(_, n) => put_count(b"function ", n as usize, out, at),
        Value::List(p) => {
            let h = header_at(cells, used, p as usize);
            put_count(b"list ", h.count, out, at)
        }
        Value::StructInstance(p) => {
            let h = header_at(cells, used, p as usize);
            put_struct(h, out, at)
        }
    }
}
