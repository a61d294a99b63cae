// Bytes, texts and numbers put into a lent store, each from place at on. What falls past the store's end is not written; the answer is the
// place behind all the same.
#![tactic(auto)]

ghost use Rattle.std.specs.Prelude.{◌≡◌, [], ◌∷◌, ◌++◌, ◌+◌, ◌<◌, ◌^◌, length};
ghost use Rattle.model.specs.Basics.{ascii};
ghost use Rattle.model.specs.Listings.{decimal, digits_or_more};
ghost use Rattle.model.specs.Reports.{hex_digit, hex_for};
ghost use Rattle.printing.specs.Links.{Put};

// One byte.
pub fn put_byte(b: u8, out: &mut [u8], at: usize) -> usize
    requires { at + 1 < 2 ^ 64 }
    ensures { Put 1 (b ∷ []) out.old at out.new result }
{
    if at < out.len() {
        out[at] = b;
    }
    at + 1
}

// A text, byte by byte.
pub fn put_text(text: &[u8], out: &mut [u8], at: usize) -> usize
    requires { at + length text.now < 2 ^ 64 }
    ensures { Put (length text.now) text.now out.old at out.new result }
{
    let mut next = at;
    for b in text {
        next = put_byte(*b, out, next);
    }
    next
}

// The number n in decimal, with zeros in front up to as many digits as like has.
pub fn write_decimal(n: usize, like: usize, out: &mut [u8], at: usize) -> usize
    requires { at + 20 < 2 ^ 64 }
    ensures { Put 20 (digits_or_more (length (decimal like)) n) out.old at out.new result }
{
    if (n < 10) & (like < 10) {
        return put_byte(48 + n as u8, out, at);
    }
    let next = write_decimal(n / 10, like / 10, out, at);
    put_byte(48 + (n % 10) as u8, out, next)
}

// A digit below 16, as a capital.
fn hex_digit(d: u64) -> u8
    requires { d < 16 }
    ensures { result ≡ hex_digit d }
{
    if d < 10 {
        return 48 + d as u8;
    }
    55 + d as u8
}

// The n lowest hex digits of w.
pub fn write_hex(n: usize, w: u64, out: &mut [u8], at: usize) -> usize
    requires { at + n < 2 ^ 64 }
    ensures { Put n (hex_for n w) out.old at out.new result }
{
    if n == 0 {
        return at;
    }
    let next = write_hex(n - 1, w / 16, out, at);
    put_byte(hex_digit(w % 16), out, next)
}

// A text, and a number behind it.
pub fn put_count(name: &[u8], n: usize, out: &mut [u8], at: usize) -> usize
    requires { at + (length name.now + 20) < 2 ^ 64 }
    ensures { Put (length name.now + 20) (name.now ++ decimal n) out.old at out.new result }
{
    let next = put_text(name, out, at);
    write_decimal(n, 0, out, next)
}

// A line: a text and a number.
pub fn put_line(name: &[u8], n: usize, out: &mut [u8], at: usize) -> usize
    requires { at + (length name.now + 21) < 2 ^ 64 }
    ensures { Put (length name.now + 21) (name.now ++ decimal n ++ ascii "\n") out.old at out.new result }
{
    let next = put_count(name, n, out, at);
    put_byte(b'\n', out, next)
}
