// What a host reads of a machine. Each entry judges what it reads, and costs the same whatever the stores hold.
#![tactic(auto)]

ghost use Rattle.std.specs.Prelude.{◌≡◌, ◌+◌, ◌*◌, ◌≤◌, length};
ghost use Rattle.model.specs.Readers.{last_result_of, value_shown, stack_value_of, block_header_of, element_of, text_bytes_of};
ghost use Rattle.readers.specs.Links.{block_at, text_put};

use cells::placed;
use layout::reads::room;
use layout::writes::put_bytes;
use model::{Header, Refusal, Value, Vm};
use program::order::text_ok;
use value::words;

// The last result.
pub fn last_result(m: Vm) -> Result<Value, Refusal>
    ensures { result ≡ last_result_of m }
{
    m.last.ok_or(Refusal::NoLastResult)
}

// The value at place i, where exactly a value's words stand.
fn value_at(s: &[u64], i: usize) -> Result<Value, Refusal>
    requires { 2 * i + 2 ≤ length s.now }
    ensures { result ≡ value_shown s.now i }
{
    if !words::exact_value(s[2 * i], s[2 * i + 1]) {
        return Err(Refusal::NotInOrder);
    }
    Ok(words::read_value(s, i))
}

// The value at i, from the bottom of the stack.
pub fn stack_value(m: Vm, i: usize, stack: &[u64]) -> Result<Value, Refusal>
    ensures { result ≡ stack_value_of m i stack.now }
{
    let taken = m.stack;
    if room(stack.len(), 2) < taken {
        return Err(Refusal::NotInOrder);
    }
    if taken <= i {
        return Err(Refusal::NoSuchPlace);
    }
    value_at(stack, i)
}

// Where the header of a list or struct is.
fn block_at(m: Vm, v: Value, cells: &[u64]) -> Result<usize, Refusal>
    ensures { result ≡ block_at m v cells.now }
{
    let used = m.cells;
    if room(cells.len(), 2) < used {
        return Err(Refusal::NotInOrder);
    }
    if !placed(v, m.program.text, cells, used) {
        return Err(Refusal::NotInOrder);
    }
    match v {
        Value::List(p) | Value::StructInstance(p) => Ok(p as usize),
        _ => Err(Refusal::WrongKind),
    }
}

// The header of a list or struct.
pub fn block_header(m: Vm, v: Value, cells: &[u64]) -> Result<Header, Refusal>
    ensures { result ≡ block_header_of m v cells.now }
{
    let at = block_at(m, v, cells)?;
    Ok(words::read_header(cells, at))
}

// Element i of a list, or field i of a struct.
pub fn element(m: Vm, v: Value, i: usize, cells: &[u64]) -> Result<Value, Refusal>
    ensures { result ≡ element_of m v i cells.now }
{
    let header = block_at(m, v, cells)?;
    let count = words::read_header(cells, header).count;
    if count <= i {
        return Err(Refusal::NoSuchPlace);
    }
    let at = header + 1 + i;
    let x = words::read_value(cells, at);
    if !placed(x, m.program.text, cells, header) {
        return Err(Refusal::NotInOrder);
    }
    value_at(cells, at)
}

// The n bytes of text from o on, into out.
fn put_text(m: Vm, o: u32, n: u32, text: &[u8], out: &mut [u8]) -> Result<usize, Refusal>
    requires { m.program.text ≤ length text.now }
    ensures { record { answer = result; out = out.new } ≡ text_put m text.now out.old o n }
{
    let from = o as usize;
    let size = n as usize;
    let to = from + size;
    if m.program.text < to {
        return Err(Refusal::NotInOrder);
    }
    if room(out.len(), 1) < size {
        return Err(Refusal::ResultTooShort);
    }
    put_bytes(out, 0, &text[from..to]);
    Ok(size)
}

// The bytes of a string or a function reference, into out, and how many they are.
pub fn text_bytes(m: Vm, v: Value, text: &[u8], out: &mut [u8]) -> Result<usize, Refusal>
    ensures { record { answer = result; out = out.new } ≡ text_bytes_of m v text.now out.old }
{
    if !text_ok(m.program, text) {
        return Err(Refusal::NotInOrder);
    }
    match v {
        Value::String(o, n) | Value::FunctionReference(o, n) => put_text(m, o, n, text, out),
        _ => Err(Refusal::WrongKind),
    }
}
