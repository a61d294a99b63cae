// The notes of an instruction's operands.
ghost use Rattle.std.specs.Prelude.{◌≡◌, ◌++◌, suc, ◌+◌, ◌≤◌, ◌<◌, ◌^◌, length, get_or};
ghost use Rattle.model.specs.Basics.{ascii};
ghost use Rattle.model.specs.Opcodes.{operands, opcode_at};
ghost use Rattle.model.specs.Programs.{word_at, behind, opcode_in, next_in};
ghost use Rattle.model.specs.Listings.{digits_or_more};
ghost use Rattle.model.specs.Stores.{constants_from, structs_from};
ghost use Rattle.printing.specs.Links.{Put};
ghost use Rattle.notes.specs.Notes.{constant_at, name_at, note, operand_note, operand_notes};
ghost use Rattle.notes.specs.Links.{known_from};

use layout::lent::ProgramStores;
use model::{Counts, Names};
use notes::{put_constant_at, put_name_at};
use opcode::{first_names, operands, second_names};
use printing::{put_text, write_decimal};

// Constant k of n.
fn note_constant(
    n: usize,
    constants: &[u64],
    text: &[u8],
    k: usize,
    out: &mut [u8],
    at: usize,
) -> usize
    requires { at + 39 < 2 ^ 64 }
    ensures { Put 39 (note (constant_at (constants_from n 0 constants.now text.now) k)) out.old at out.new result }
{
    let next = put_text(b"  ; ", out, at);
    put_constant_at(n, constants, text, k, out, next)
}

// Name k of n.
fn note_name(
    none: &[u8],
    n: usize,
    names: &[u64],
    text: &[u8],
    k: usize,
    out: &mut [u8],
    at: usize,
) -> usize
    requires { at + (30 + length none.now) < 2 ^ 64 }
    ensures { Put (30 + length none.now) (note (name_at (structs_from n 0 names.now text.now) k none.now)) out.old at out.new result }
{
    let next = put_text(b"  ; ", out, at);
    put_name_at(none, n, names, text, k, out, next)
}

// Where a jump goes.
fn note_target(target: usize, out: &mut [u8], at: usize) -> usize
    requires { at + 27 < 2 ^ 64 }
    ensures { Put 27 (note (ascii "to " ++ digits_or_more 4 target)) out.old at out.new result }
{
    let next = put_text(b"  ; to ", out, at);
    write_decimal(target, 1000, out, next)
}

// The operand k of an instruction that ends at position end.
fn note_operand(
    names: Names,
    k: usize,
    end: usize,
    c: Counts,
    stores: &ProgramStores,
    out: &mut [u8],
    at: usize,
) -> usize
    requires { (end + k < 2 ^ 64) × (at + 48 < 2 ^ 64) }
    ensures { Put 48 (operand_note (known_from c stores.now) end names k) out.old at out.new result }
{
    match names {
        Names::Constant => note_constant(c.constants, stores.constants, stores.text, k, out, at),
        Names::Function => note_name(
            b"no function",
            c.functions,
            stores.functions,
            stores.text,
            k,
            out,
            at,
        ),
        Names::Struct => note_name(
            b"no struct",
            c.structs,
            stores.structs,
            stores.text,
            k,
            out,
            at,
        ),
        Names::Offset => note_target(end + k, out, at),
        Names::Slot | Names::Field | Names::Count | Names::Nothing => at,
    }
}

// The byte at i; past the code's end there is 0.
fn byte_at(code: &[u8], i: usize) -> u8
    ensures { result ≡ get_or code.now i 0 }
{
    code.get(i).copied().unwrap_or(0)
}

// The operand at i, low byte first.
fn word_at(code: &[u8], i: usize) -> usize
    requires { i + 1 < 2 ^ 64 }
    ensures { (result ≡ word_at code.now i) × (result < 65536) }
{
    usize::from(u16::from_le_bytes([byte_at(code, i), byte_at(code, i + 1)]))
}

// The position behind the instruction whose opcode b stands at i.
fn end_of(b: u8, i: usize) -> usize
    requires { i < 2 ^ 32 }
    ensures { (result ≡ behind i (operands (opcode_at b))) × (result ≤ i + 7) }
{
    i + 1 + 2 * operands(b)
}

// All operands of the instruction at position i: a third one names nothing, and one that is not there neither.
pub fn note_operands(
    code: &[u8],
    i: usize,
    c: Counts,
    stores: &ProgramStores,
    out: &mut [u8],
    at: usize,
) -> usize
    requires { (i < length code.now) × (length code.now < 2 ^ 32) × (at + 96 < 2 ^ 64) }
    ensures { Put 96 (operand_notes (known_from c stores.now) (next_in code.now i) (opcode_in code.now i).names code.now (suc i)) out.old at out.new result }
{
    let b = code[i];
    let end = end_of(b, i);
    let k = word_at(code, i + 1);
    let next = note_operand(first_names(b), k, end, c, stores, out, at);
    let l = word_at(code, i + 3);
    note_operand(second_names(b), l, end, c, stores, out, next)
}
