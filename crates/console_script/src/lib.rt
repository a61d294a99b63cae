// A script's lines, their words, and the numbers and bytes that words say.
#![tactic(auto)]

pub mod stores; // stores.rt: how large each store is

ghost use Rattle.std.specs.Prelude.{◌≡◌, ◌*◌, ◌/◌, ◌≤◌, min, Some};
ghost use Rattle.console_script.specs.Words.{next_of, next_word, cut_of, first_line, next_line, line_of, words_from, word_of, digit_of, with_digit, number_of, alone_of, room_of, arg_of, args_of, broken, with_byte, whole, hex_of};

// A line: where it starts and ends, its number, and how many more there can be.
#[derive(Clone, Copy)]
pub struct Line {
    pub start: usize,
    pub end: usize,
    pub number: u64,
    pub left: usize,
}

// Where the byte b is next, or the end.
fn next_of(s: &[u8], b: u8, at: usize) -> usize
    ensures { result ≡ next_of s.now b at }
{
    for i in at..s.len() {
        if s[i] == b {
            return i;
        }
    }
    at.max(s.len())
}

// Where a byte that is not a blank is next, or the end.
fn next_word(s: &[u8], at: usize) -> usize
    ensures { result ≡ next_word s.now at }
{
    for i in at..s.len() {
        if s[i] != b' ' {
            return i;
        }
    }
    at.max(s.len())
}

// The bytes from one place to another; none where they are not all there.
#[tactic(auto, unfolding(crate::specs::Words::cut_of))]
pub fn cut(s: &[u8], from: usize, to: usize) -> &[u8]
    ensures { result.now ≡ cut_of s.now from to }
{
    s.get(from..to).unwrap_or(&[])
}

// The first n bytes of a space; none where it has fewer.
pub fn front(space: &stores::Space, n: usize) -> &[u8]
    ensures { result.now ≡ cut_of space.now 0 n }
{
    cut(space, 0, n)
}

#[tactic(auto, unfolding(crate::specs::Words::first_line))]
pub fn first_line(script: &[u8]) -> Line
    ensures { result ≡ first_line script.now }
{
    Line {
        start: 0,
        end: next_of(script, b'\n', 0),
        number: 1,
        left: script.len(),
    }
}

// The line behind l. There are no more lines than bytes.
#[tactic(auto, unfolding(crate::specs::Words::next_line))]
pub fn next_line(l: Line, script: &[u8]) -> Option<Line>
    ensures { result ≡ next_line script.now l }
{
    if l.left == 0 || script.len() <= l.end {
        return None;
    }
    let start = l.end + 1;
    if script.len() <= start {
        return None;
    }
    Some(Line {
        start,
        end: next_of(script, b'\n', start),
        number: l.number % 0x1_0000_0000 + 1,
        left: l.left - 1,
    })
}

#[tactic(auto, unfolding(crate::specs::Words::line_of))]
pub fn bytes_of(script: &[u8], l: Line) -> &[u8]
    ensures { result.now ≡ line_of script.now l }
{
    cut(script, l.start, l.end)
}

// The line from its word k on.
pub fn words_from(line: &[u8], k: usize) -> &[u8]
    ensures { result.now ≡ words_from line.now k }
{
    let mut at = next_word(line, 0);
    for _ in 0..k {
        at = next_word(line, next_of(line, b' ', at));
    }
    cut(line, at, line.len())
}

// Word k of a line; none where it has fewer.
#[tactic(auto, unfolding(crate::specs::Words::word_of))]
pub fn word(line: &[u8], k: usize) -> &[u8]
    ensures { result.now ≡ word_of line.now k }
{
    let rest = words_from(line, k);
    cut(rest, 0, next_of(rest, b' ', 0))
}

// What a digit of up to base 16 stands for.
#[tactic(auto, unfolding(crate::specs::Words::digit_of))]
fn digit(b: u8) -> Option<u8>
    ensures { result ≡ digit_of b }
{
    match b {
        b'0'..=b'9' => Some(b - b'0'),
        b'A'..=b'F' => Some(b - b'A' + 10),
        _ => None,
    }
}

// The number n in a base with a digit more, where that is a digit of the base and the number is one of 64 bits.
#[tactic(auto, unfolding(crate::specs::Words::with_digit))]
fn with_digit(base: u64, n: u64, b: u8) -> Option<u64>
    ensures { result ≡ with_digit base (Some n) b }
{
    let d = digit(b)? as u64;
    if base <= d {
        return None;
    }
    n.checked_mul(base)?.checked_add(d)
}

// A word of at least one digit.
#[tactic(auto, unfolding(crate::specs::Words::number_of, crate::specs::Words::along))]
fn number(base: u64, w: &[u8]) -> Option<u64>
    ensures { result ≡ number_of base w.now }
{
    if w.is_empty() {
        return None;
    }
    let mut n = 0;
    for b in w {
        n = with_digit(base, n, *b)?;
    }
    Some(n)
}

// A word in decimal.
pub fn decimal(w: &[u8]) -> Option<u64>
    ensures { result ≡ number_of 10 w.now }
{
    number(10, w)
}

// A word in hex.
pub fn hex(w: &[u8]) -> Option<u64>
    ensures { result ≡ number_of 16 w.now }
{
    number(16, w)
}

// Words that are one number in decimal.
#[tactic(auto, unfolding(crate::specs::Words::alone_of))]
fn decimal_alone(words: &[u8]) -> Option<u64>
    ensures { result ≡ alone_of words.now }
{
    if !words_from(words, 1).is_empty() {
        return None;
    }
    decimal(word(words, 0))
}

// The numbers that a command of up to five numbers says.
#[derive(Clone, Copy)]
pub struct Args {
    pub a: u64,
    pub b: u64,
    pub c: u64,
    pub d: u64,
    pub e: u64,
}

// The most that each number may be.
#[derive(Clone, Copy)]
pub struct Most {
    pub a: u64,
    pub b: u64,
    pub c: u64,
    pub d: u64,
    pub e: u64,
}

// The number that word k of the words before end says, at most so much; 0 from there on.
#[tactic(auto, unfolding(crate::specs::Words::arg_of))]
fn arg(line: &[u8], k: usize, end: usize, most: u64) -> Option<u64>
    ensures { result ≡ arg_of line.now k end most }
{
    if end <= k {
        return Some(0);
    }
    let n = decimal(word(line, k))?;
    if most < n {
        return None;
    }
    Some(n)
}

// The numbers of the words from k on, before end, where the line then ends.
#[tactic(auto, unfolding(crate::specs::Words::args_of))]
pub fn read_args(line: &[u8], k: usize, end: usize, most: Most) -> Option<Args>
    ensures { result ≡ args_of line.now k end most }
{
    if 100 < k {
        return None;
    }
    let a = arg(line, k, end, most.a)?;
    let b = arg(line, k + 1, end, most.b)?;
    let c = arg(line, k + 2, end, most.c)?;
    let d = arg(line, k + 3, end, most.d)?;
    let e = arg(line, k + 4, end, most.e)?;
    if !word(line, end).is_empty() {
        return None;
    }
    Some(Args { a, b, c, d, e })
}

// Of any store so many places count: the room that is lent where a line says none.
pub fn whole() -> usize
    ensures { result ≡ 4294967295 }
{
    0xFFFF_FFFF
}

// So many bytes of n, at most all.
pub fn at_most(room: usize, n: usize) -> usize
    ensures { (result ≡ min room n) × (result ≤ n) }
{
    room.min(n)
}

// The words of so many places of two words each, at most n.
pub fn two_each(room: usize, n: usize) -> usize
    ensures { (result ≡ 2 * min room (n / 2)) × (result ≤ n) }
{
    2 * room.min(n / 2)
}

// The same of three words each.
pub fn three_each(room: usize, n: usize) -> usize
    ensures { (result ≡ 3 * min room (n / 3)) × (result ≤ n) }
{
    3 * room.min(n / 3)
}

// The room that word k says, the last of the line; that of a whole store where there is no such word.
#[tactic(auto, unfolding(crate::specs::Words::room_of))]
pub fn read_room(line: &[u8], k: usize) -> Option<usize>
    ensures { result ≡ room_of line.now k }
{
    let rest = words_from(line, k);
    if rest.is_empty() {
        return Some(whole());
    }
    let n = decimal_alone(rest)?;
    Some(n as usize)
}

// Bytes in hex as they are read: how many there are, the digit that waits for its second, and whether all is well. A flag beside them, and no Option of
// them: behind a bad letter reading goes on, and what it then leaves in the store is promised too.
#[derive(Clone, Copy)]
pub struct Bytes {
    pub size: usize,
    pub high: Option<u8>,
    pub good: bool,
}

// A bad letter, or a byte that has no room.
#[tactic(auto, unfolding(crate::specs::Words::broken))]
fn broken(h: Bytes) -> Bytes
    ensures { result ≡ broken h }
{
    Bytes { good: false, ..h }
}

// One character more, into out.
#[tactic(auto, unfolding(crate::specs::Words::with_byte, crate::specs::Words::with_digit_of, crate::specs::Words::with_low))]
fn with_byte(h: Bytes, b: u8, out: &mut [u8]) -> Bytes
    ensures { record { read = result; out = out.new } ≡ with_byte (record { read = h; out = out.old }) b }
{
    if b == b' ' {
        return h;
    }
    let Some(low) = digit(b) else {
        return broken(h);
    };
    let Some(high) = h.high else {
        return Bytes {
            high: Some(low),
            ..h
        };
    };
    let size = h.size;
    if out.len() <= size {
        return broken(h);
    }
    out[size] = high.wrapping_mul(16).wrapping_add(low);
    Bytes {
        size: size + 1,
        high: None,
        good: h.good,
    }
}

// How many bytes were read, where all was good and no digit is left over.
#[tactic(auto, unfolding(crate::specs::Words::whole))]
fn all_read(h: Bytes) -> Option<usize>
    ensures { result ≡ whole h }
{
    if !h.good || h.high.is_some() {
        return None;
    }
    Some(h.size)
}

// The bytes that words say in hex, two digits to a byte, blanks between where one likes: how many they are.
pub fn read_bytes(words: &[u8], out: &mut [u8]) -> Option<usize>
    ensures { record { size = result; out = out.new } ≡ hex_of words.now out.old }
{
    let mut h = Bytes {
        size: 0,
        high: None,
        good: true,
    };
    for b in words {
        h = with_byte(h, *b, out);
    }
    all_read(h)
}
