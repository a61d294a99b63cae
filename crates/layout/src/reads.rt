// What stands where in the stores. Reading past a store's end gives 0, and a part past it is cut short, so that nothing is required.
ghost use Rattle.std.specs.Prelude.{◌≡◌, List, ℕ, ◌≤◌, ◌<◌, ◌^◌, min, length, get_or};
ghost use Rattle.model.specs.Values.{places, kind_at, payload_at};
ghost use Rattle.model.specs.Equality.{same_bytes};
ghost use Rattle.model.specs.Stores.{Stores, start, size, pack, part, code_end};
ghost use Rattle.model.specs.Orders.{code_start};
ghost use Rattle.model.specs.Emission.{text_room};

use model::{Counts, HALF, MOST_PLACES};

// The smaller of two numbers. (The library says it by itself; proofs above cite this contract.)
pub fn lesser(a: usize, b: usize) -> usize
    ensures { result ≡ min a b }
{
    a.min(b)
}

// The places of a store of n words, w words to a place.
pub fn room(n: usize, w: usize) -> usize
    requires { 1 ≤ w }
    ensures { (s : List ℕ) → length s ≡ n → result ≡ places w s }
{
    lesser(n / w, MOST_PLACES)
}

// Whether n bytes of text more have room.
pub fn text_room(c: Counts, text: &[u8], n: usize) -> bool
    ensures { (s : Stores) → s.text ≡ text.now → result ≡ text_room c s n }
{
    let all = room(text.len(), 1);
    let taken = c.text;
    if all < taken {
        return false;
    }
    n <= all - taken
}

// Where the part that a word names starts.
pub fn start_of(w: u64) -> usize
    ensures { (result ≡ start w) × (result < 2 ^ 32) }
{
    (w % HALF) as usize
}

// How long that part is.
pub fn size_of(w: u64) -> usize
    ensures { (result ≡ size w) × (result < 2 ^ 32) }
{
    (w / HALF) as usize
}

// The word that names n bytes from o on.
pub fn pack(o: usize, n: usize) -> u64
    requires { (o < 2 ^ 32) × (n < 2 ^ 32) }
    ensures { result ≡ pack o n }
{
    o as u64 + HALF * (n as u64)
}

// A word as a number of a place.
pub fn index(w: u64) -> usize
    ensures { result ≡ w }
{
    w as usize
}

// The bytes that a word names.
pub fn part(text: &[u8], w: u64) -> &[u8]
    ensures { result.now ≡ part text.now w }
{
    let from = lesser(start_of(w), text.len());
    let to = lesser(from + size_of(w), text.len());
    &text[from..to]
}

// Whether the bytes are the same. (The library says it by itself; proofs above cite this contract.)
pub fn same_bytes(a: &[u8], b: &[u8]) -> bool
    ensures { result ≡ same_bytes a.now b.now }
{
    a == b
}

// The word at i.
pub fn word(s: &[u64], i: usize) -> u64
    ensures { result ≡ get_or s.now i 0 }
{
    if i < s.len() {
        return s[i];
    }
    0
}

// The first of the two words of place i: a constant's kind, a name.
pub fn first(s: &[u64], i: usize) -> u64
    ensures { result ≡ kind_at s.now i }
{
    if s.len() / 2 < i {
        return 0;
    }
    word(s, 2 * i)
}

// The second: a constant's payload, a struct's number in order, a function's code.
pub fn second(s: &[u64], i: usize) -> u64
    ensures { result ≡ payload_at s.now i }
{
    if s.len() / 2 < i {
        return 0;
    }
    word(s, 2 * i + 1)
}

// Where the code of function i ends in its store.
pub fn code_end(functions: &[u64], i: usize) -> usize
    ensures { result ≡ code_end functions.now i }
{
    let w = second(functions, i);
    start_of(w) + size_of(w)
}

// Where the code of function i is to start: behind the one before it, or at 0.
pub fn code_start(functions: &[u64], i: usize) -> usize
    ensures { result ≡ code_start functions.now i }
{
    if i < 2 {
        return 0;
    }
    code_end(functions, i - 1)
}
