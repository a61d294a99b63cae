// A value, a header and the last result as two words, the kind and the payload; and the stores that hold two words to a place.
ghost use Rattle.std.specs.Prelude.{◌≡◌, ◌+◌, ◌*◌, ◌<◌, ◌≤◌, eqb, length};
ghost use Rattle.std.specs.Float.{binary64};
ghost use Rattle.std.specs.Float.Ieee.{to_bits, of_bits};
ghost use Rattle.model.specs.Values.{value_of, kind, kind_at, payload_at, value_at, put_words, exact_value};
ghost use Rattle.model.specs.Heap.{item, head, header_of, exact_cell};
ghost use Rattle.value.specs.Links.{PayloadOf, Written, last_in, last_kind, last_payload};

use layout::writes::put_words;
use model::{HALF, Header, Value};

// The bits of x; of any NaN 7FF8000000000000.
pub fn to_word(x: f64) -> u64
    ensures { result ≡ to_bits binary64 x }
{
    if x != x {
        return 0x7FF8_0000_0000_0000;
    }
    f64::to_bits(x)
}

// The float whose bits are b; of any NaN's bits the NaN.
pub fn of_word(b: u64) -> f64
    ensures { result ≡ of_bits binary64 b }
{
    if 0x7FF0_0000_0000_0000 < b % 0x8000_0000_0000_0000 {
        return 0.0 / 0.0;
    }
    f64::from_bits(b)
}

// What a kind and a payload stand for.
pub fn value_of(kind: u64, payload: u64) -> Value
    ensures { result ≡ value_of kind payload }
{
    let low = (payload % HALF) as u32;
    let high = (payload / HALF) as u32;
    match kind {
        0 => Value::Scalar(of_word(payload)),
        1 => Value::Boolean(payload != 0),
        2 => Value::String(low, high),
        3 => Value::FunctionReference(low, high),
        4 => Value::List(low),
        _ => Value::StructInstance(low),
    }
}

// The kind of v.
pub fn kind_of(v: Value) -> u64
    ensures { result ≡ kind v }
{
    match v {
        Value::Scalar(_) => 0,
        Value::Boolean(_) => 1,
        Value::String(_, _) => 2,
        Value::FunctionReference(_, _) => 3,
        Value::List(_) => 4,
        Value::StructInstance(_) => 5,
    }
}

// An offset and a length in one word.
fn pack(o: u32, n: u32) -> u64
    ensures { result ≡ o + 0x1_0000_0000 * n }
{
    o as u64 + HALF * (n as u64)
}

// The payload of v, and that v fits a store.
pub fn payload_of(v: Value) -> u64
    ensures { PayloadOf v result }
{
    match v {
        Value::Scalar(x) => to_word(x),
        Value::Boolean(x) => x as u64,
        Value::String(o, n) => pack(o, n),
        Value::FunctionReference(o, n) => pack(o, n),
        Value::List(p) => p as u64,
        Value::StructInstance(p) => p as u64,
    }
}

// The value at place i.
pub fn read_value(s: &[u64], i: usize) -> Value
    requires { 2 * i + 2 ≤ length s.now }
    ensures { result ≡ value_at s.now i }
{
    value_of(s[2 * i], s[2 * i + 1])
}

// Whether a header stands at place i.
pub fn is_header(s: &[u64], i: usize) -> bool
    requires { 2 * i + 2 ≤ length s.now }
    ensures { result ≡ eqb (kind_at s.now i) 6 }
{
    s[2 * i] == 6
}

// The header at place i.
pub fn read_header(s: &[u64], i: usize) -> Header
    requires { 2 * i + 2 ≤ length s.now }
    ensures { result ≡ header_of (payload_at s.now i) }
{
    let a = s[2 * i + 1];
    Header {
        count: (a % 0x1_0000) as usize,
        number: (a / 0x1_0000 % 0x1_0000) as usize,
        depth: (a / HALF) as usize,
    }
}

// Puts v at place i.
pub fn write_value(s: &mut [u64], i: usize, v: Value)
    requires { 2 * i + 2 ≤ length s.old }
    ensures { Written s.old i (item v) s.new }
{
    put_words(s, i, kind_of(v), payload_of(v));
}

// Puts the header h at place i.
pub fn write_header(s: &mut [u64], i: usize, h: Header)
    requires { (2 * i + 2 ≤ length s.old) × (h.count < 0x1_0000) × (h.number < 0x1_0000) × (h.depth < 0x1_0000) }
    ensures { Written s.old i (head h) s.new }
{
    let payload = h.count as u64 + 0x1_0000 * (h.number as u64) + HALF * (h.depth as u64);
    put_words(s, i, 6, payload);
}

// Whether a kind and a payload are exactly the words of a value.
pub fn exact_value(kind: u64, payload: u64) -> bool
    ensures { result ≡ exact_value kind payload }
{
    let v = value_of(kind, payload);
    if kind == kind_of(v) {
        payload == payload_of(v)
    } else {
        false
    }
}

// Whether place i holds a header, or exactly the words of a value.
pub fn exact_cell(s: &[u64], i: usize) -> bool
    requires { 2 * i + 2 ≤ length s.now }
    ensures { result ≡ exact_cell (kind_at s.now i) (payload_at s.now i) }
{
    if is_header(s, i) {
        return true;
    }
    exact_value(s[2 * i], s[2 * i + 1])
}

// The kind of the last result, 7 where there is none.
pub fn last_kind(last: Option<Value>) -> u64
    ensures { result ≡ last_kind last }
{
    match last {
        None => 7,
        Some(v) => kind_of(v),
    }
}

// And its payload: the two words stand for it.
pub fn last_payload(last: Option<Value>) -> u64
    ensures { (result ≡ last_payload last) × (last_in (last_kind last) result ≡ last) }
{
    match last {
        None => 0,
        Some(v) => payload_of(v),
    }
}

// The last result from its words.
pub fn last_in(kind: u64, payload: u64) -> Option<Value>
    ensures { result ≡ last_in kind payload }
{
    if kind == 7 {
        return None;
    }
    Some(value_of(kind, payload))
}
