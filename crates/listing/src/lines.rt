// The lines of one function's code.
ghost use Rattle.std.specs.Prelude.{◌≡◌, ◌+◌, ◌*◌, ◌≤◌, ◌<◌, ◌^◌, length};
ghost use Rattle.model.specs.Opcodes.{operands, opcode_at};
ghost use Rattle.model.specs.Programs.{word_at, opcode_in, next_in};
ghost use Rattle.model.specs.Listings.{padded_to, operands_from, line_of, code_lines};
ghost use Rattle.listing.specs.Links.{Listing};
ghost use Rattle.printing.specs.Links.{Put};

use model::{Decoded, Refusal};
use opcode::{decode, name_byte, name_len, operands};
use printing::{put_byte, put_text, write_decimal};

// An opcode's name, padded with spaces to 13.
fn write_name(b: u8, out: &mut [u8], at: usize) -> usize
    requires { at + 19 < 2 ^ 64 }
    ensures { Put 19 (padded_to 13 (opcode_at b).name) out.old at out.new result }
{
    let mut next = at;
    for i in 0..name_len(b).max(13) {
        next = put_byte(name_byte(b, i), out, next);
    }
    next
}

// The operand at i, low byte first.
fn operand(code: &[u8], i: usize) -> usize
    requires { i + 2 ≤ length code.now }
    ensures { result ≡ word_at code.now i }
{
    usize::from(u16::from_le_bytes([code[i], code[i + 1]]))
}

// The n operands from position i on, with a space between.
fn write_operands(code: &[u8], i: usize, n: usize, out: &mut [u8], at: usize) -> usize
    requires { (i + 2 * n ≤ length code.now) × (at + 21 * n < 2 ^ 64) }
    ensures { Put (21 * n) (operands_from n code.now i) out.old at out.new result }
{
    if n == 0 {
        return at;
    }
    let space = write_decimal(operand(code, i), 0, out, at);
    if n == 1 {
        return space;
    }
    let next = put_byte(b' ', out, space);
    write_operands(code, i + 2, n - 1, out, next)
}

// The line of the instruction at position i, which is all there.
pub fn write_line(code: &[u8], i: usize, out: &mut [u8], at: usize) -> usize
    requires { (i < length code.now) × (next_in code.now i ≤ length code.now) × (at + (64 + 21 * operands (opcode_in code.now i)) < 2 ^ 64) }
    ensures { Put (64 + 21 * operands (opcode_in code.now i)) (line_of code.now i) out.old at out.new result }
{
    let b = code[i];
    let offset = put_text(b"  ", out, at);
    let space = write_decimal(i, 1000, out, offset);
    let name = put_byte(b' ', out, space);
    let gap = write_name(b, out, name);
    let start = put_byte(b' ', out, gap);
    let end = write_operands(code, i + 1, operands(b), out, start);
    put_byte(b'\n', out, end)
}

// All lines of a code; an unknown opcode is refused 1, and one whose operands are cut short 3, as met first, with the lines before it put.
pub fn write_lines(code: &[u8], out: &mut [u8], at: usize) -> Result<usize, Refusal>
    requires { at + 64 * length code.now < 2 ^ 64 }
    ensures { Listing (64 * length code.now) (code_lines code.now) out.old at out.new result }
{
    let mut i = 0;
    let mut next = at;
    // Each step is as long as its instruction, so this is no `for`.
    while i < code.len() {
        let b = code[i];
        if let Decoded::Unknown = decode(b) {
            return Err(Refusal::UnknownOpcode);
        }
        let n = operands(b);
        let left = (code.len() - i - 1) / 2;
        if left < n {
            return Err(Refusal::CodeEnds);
        }
        next = write_line(code, i, out, next);
        i = i + 1 + 2 * n;
    }
    Ok(next)
}
