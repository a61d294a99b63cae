// Lists and structs in a store of cells: building them, reading a field, equality, and the test of good order.
#![tactic(auto)]

ghost use Rattle.std.specs.Prelude.{◌≡◌, false, ◌&&◌, ◌+◌, ◌*◌, ◌<◌, ◌≤◌, length, get_or};
ghost use Rattle.model.specs.Values.{vals, text_at};
ghost use Rattle.model.specs.Heap.{heap_of, depth_in, deepest, field_of, whole_below, placed_below, block_ok, heap_ok, exact_cells};
ghost use Rattle.model.specs.Equality.{same_bytes, same_of};
ghost use Rattle.cells.specs.Links.{elements_of, Held, TopPre, CopyPost, BuildPost, FieldPre, as_option, verdict, EqualPre, Inside, Compared};

use layout::reads::{room, same_bytes};
use model::{DEPTH_LIMIT, Fault, Header, Value};
use value::words;

// Element i of the list, or field i of the struct, that the n values on top of a stack make.
fn element(list: bool, stack: &[u64], sp: usize, n: usize, i: usize) -> Value
    requires { (i < n) × (n ≤ sp) × (2 * sp ≤ length stack.now) }
    ensures { result ≡ get_or (elements_of list n (vals sp stack.now)) i (Value.Boolean false) }
{
    if list {
        words::read_value(stack, sp - n + i)
    } else {
        words::read_value(stack, sp - 1 - i)
    }
}

// How deep v is.
fn depth(v: Value, cells: &[u64], used: usize) -> usize
    requires { (2 * used ≤ length cells.now) × Held (heap_of used cells.now) used v }
    ensures { result ≡ depth_in (heap_of used cells.now) v }
{
    match v {
        Value::List(p) => {
            let h = words::read_header(cells, p as usize);
            h.depth
        }
        Value::StructInstance(p) => {
            let h = words::read_header(cells, p as usize);
            h.depth
        }
        _ => 0,
    }
}

// The depth of the deepest of the n values on top of a stack.
fn deepest_of(list: bool, stack: &[u64], sp: usize, n: usize, cells: &[u64], used: usize) -> usize
    requires { TopPre stack.now sp n cells.now used }
    ensures { result ≡ deepest (heap_of used cells.now) (elements_of list n (vals sp stack.now)) }
{
    let mut d = 0;
    for i in 0..n {
        let v = element(list, stack, sp, n, i);
        d = d.max(depth(v, cells, used));
    }
    d
}

// Copies the n values on top of a stack to the cells from place `from` on.
fn copy(list: bool, stack: &[u64], sp: usize, n: usize, cells: &mut [u64], from: usize)
    requires { (n ≤ sp) × (2 * sp ≤ length stack.now) × (2 * (from + n) ≤ length cells.old) }
    ensures { CopyPost (elements_of list n (vals sp stack.now)) from n cells.old cells.new }
{
    for i in 0..n {
        let v = element(list, stack, sp, n, i);
        words::write_value(cells, from + i, v);
    }
}

// Makes a list, or a struct with that number, of the n values on top of a stack: takes n + 1 cells, a header and the elements.
pub fn build(
    list: bool,
    stack: &[u64],
    sp: usize,
    n: usize,
    number: usize,
    cells: &mut [u64],
    used: usize,
) -> Result<usize, Fault>
    requires { TopPre stack.now sp n cells.old used × (number < 0x1_0000) }
    ensures { BuildPost list stack.now sp n number cells.old used result cells.new }
{
    let d = deepest_of(list, stack, sp, n, cells, used);
    if DEPTH_LIMIT <= d {
        return Err(Fault::TooDeep);
    }
    let all = room(cells.len(), 2);
    let end = used + n + 1;
    if all < end {
        return Err(Fault::CellsFull);
    }
    let h = Header {
        count: n,
        number,
        depth: d + 1,
    };
    words::write_header(cells, used, h);
    copy(list, stack, sp, n, cells, used + 1);
    Ok(end)
}

// Field a of the struct whose header is at p.
pub fn field(cells: &[u64], used: usize, p: usize, a: usize) -> Result<Value, Fault>
    requires { FieldPre cells.now used p }
    ensures { result ≡ field_of (heap_of used cells.now) p a }
{
    let h = words::read_header(cells, p);
    let count = h.count;
    if a < count {
        Ok(words::read_value(cells, p + 1 + a))
    } else {
        Err(Fault::OutOfRange)
    }
}

// Two values by themselves: said at once, or two lists or two structs, by their headers.
#[derive(Clone, Copy)]
pub enum Pair {
    Said(bool),
    Blocks(u32, u32),
}

// Whether the n bytes of text from o on are the m bytes from p on.
fn same_text(text: &[u8], o: u32, n: u32, p: u32, m: u32) -> bool
    requires { (o + n ≤ length text.now) × (p + m ≤ length text.now) }
    ensures { result ≡ same_bytes (text_at text.now o n) (text_at text.now p m) }
{
    let a = o as usize;
    let b = p as usize;
    let to = a + n as usize;
    let end = b + m as usize;
    same_bytes(&text[a..to], &text[b..end])
}

// Compares two values up to the elements that they hold.
fn compare(text: &[u8], a: Value, b: Value) -> Pair
    requires { Inside (length text.now) a × Inside (length text.now) b }
    ensures { Compared text.now a b result }
{
    match a {
        Value::Scalar(x) => match b {
            Value::Scalar(y) => Pair::Said(x == y),
            _ => Pair::Said(false),
        },
        Value::Boolean(x) => match b {
            Value::Boolean(y) => Pair::Said(x == y),
            _ => Pair::Said(false),
        },
        Value::String(o, n) => match b {
            Value::String(p, m) => Pair::Said(same_text(text, o, n, p, m)),
            _ => Pair::Said(false),
        },
        Value::FunctionReference(o, n) => match b {
            Value::FunctionReference(p, m) => Pair::Said(same_text(text, o, n, p, m)),
            _ => Pair::Said(false),
        },
        Value::List(p) => match b {
            Value::List(q) => Pair::Blocks(p, q),
            _ => Pair::Said(false),
        },
        Value::StructInstance(p) => match b {
            Value::StructInstance(q) => Pair::Blocks(p, q),
            _ => Pair::Said(false),
        },
    }
}

// Same or not, with the units left then; or that the units do not suffice. An Option of a pair would say the same, and take eight bytes more of the host's
// stack, in a frame that is rounded up to sixteen, for each of up to 64 comparisons that stand one in the other.
#[derive(Clone, Copy)]
pub enum Verdict {
    Done(bool, u64),
    Out,
}

// Equality of two values. Each pair of elements that is visited costs a unit, and it stops where they do not suffice.
fn weigh(text: &[u8], cells: &[u64], used: usize, a: Value, b: Value, left: u64) -> Verdict
    requires { EqualPre text.now cells.now used a b }
    ensures { as_option result ≡ verdict left (same_of text.now (heap_of used cells.now) a b) }
{
    match compare(text, a, b) {
        Pair::Said(x) => Verdict::Done(x, left),
        Pair::Blocks(p, q) => {
            let first = p as usize;
            let second = q as usize;
            let h = words::read_header(cells, first);
            let k = words::read_header(cells, second);
            let count = h.count;
            if count != k.count {
                return Verdict::Done(false, left);
            }
            if h.number != k.number {
                return Verdict::Done(false, left);
            }
            let mut rest = left;
            for i in 0..count {
                if rest == 0 {
                    return Verdict::Out;
                }
                let next = rest - 1;
                let x = words::read_value(cells, first + 1 + i);
                let y = words::read_value(cells, second + 1 + i);
                let Verdict::Done(alike, behind) = weigh(text, cells, used, x, y, next) else {
                    return Verdict::Out;
                };
                if !alike {
                    return Verdict::Done(false, behind);
                }
                rest = behind;
            }
            Verdict::Done(true, rest)
        }
    }
}

// Equality of two values, as `weigh` finds it: same or not, with the units left then, where they suffice.
pub fn equal(
    text: &[u8],
    cells: &[u64],
    used: usize,
    a: Value,
    b: Value,
    left: u64,
) -> Option<(bool, u64)>
    requires { EqualPre text.now cells.now used a b }
    ensures { result ≡ verdict left (same_of text.now (heap_of used cells.now) a b) }
{
    match weigh(text, cells, used, a, b, left) {
        Verdict::Done(alike, behind) => Some((alike, behind)),
        Verdict::Out => None,
    }
}

// Whether a header stands at p, and its elements with it in the store.
fn whole(cells: &[u64], used: usize, p: usize) -> bool
    requires { 2 * used ≤ length cells.now }
    ensures { result ≡ whole_below (heap_of used cells.now) p used }
{
    if used <= p {
        return false;
    }
    if !words::is_header(cells, p) {
        return false;
    }
    let h = words::read_header(cells, p);
    let count = h.count;
    count < used - p
}

// Whether v's text is inside the text, and its cells whole in the store.
pub fn placed(v: Value, texts: usize, cells: &[u64], used: usize) -> bool
    requires { 2 * used ≤ length cells.now }
    ensures { result ≡ placed_below texts (heap_of used cells.now) used v }
{
    match v {
        Value::String(o, n) => o as usize + n as usize <= texts,
        Value::FunctionReference(o, n) => o as usize + n as usize <= texts,
        Value::List(p) => {
            let at = p as usize;
            if !whole(cells, used, at) {
                return false;
            }
            let h = words::read_header(cells, at);
            h.number == 0
        }
        Value::StructInstance(p) => whole(cells, used, p as usize),
        _ => true,
    }
}

// Whether a block stands at p: whole, its elements placed below it, its depth right and at most 64.
fn block_ok(texts: usize, cells: &[u64], used: usize, p: usize) -> bool
    requires { (2 * used ≤ length cells.now) × (p < used) }
    ensures { result ≡ block_ok texts (heap_of used cells.now) p }
{
    if !whole(cells, used, p) {
        return false;
    }
    let h = words::read_header(cells, p);
    let count = h.count;
    let told = h.depth;
    let mut d = 0;
    for i in 0..count {
        let at = p + 1 + i;
        if words::is_header(cells, at) {
            return false;
        }
        let v = words::read_value(cells, at);
        if !placed(v, texts, cells, p) {
            return false;
        }
        d = d.max(depth(v, cells, p));
    }
    if DEPTH_LIMIT < told {
        return false;
    }
    if told <= d {
        return false;
    }
    told - d == 1
}

// Whether every cell that is taken holds exactly its words.
fn exact_cells(cells: &[u64], used: usize) -> bool
    requires { 2 * used ≤ length cells.now }
    ensures { result ≡ exact_cells used 0 cells.now }
{
    (0..used).all(|i| words::exact_cell(cells, i))
}

// Whether the cells are in good order: exact words, and blocks one behind the other.
pub fn good_cells(texts: usize, cells: &[u64], used: usize) -> bool
    requires { 2 * used ≤ length cells.now }
    ensures { result ≡ exact_cells used 0 cells.now && heap_ok texts (heap_of used cells.now) }
{
    if !exact_cells(cells, used) {
        return false;
    }
    let mut p = 0;
    // Each step is as long as its block, so this is no `for`.
    while p < used {
        if !block_ok(texts, cells, used, p) {
            return false;
        }
        let h = words::read_header(cells, p);
        let count = h.count;
        p = p + 1 + count;
    }
    true
}
