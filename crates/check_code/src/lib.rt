// The check of a rule before it is installed: rules 1 to 5, over one function's code. Each is a pass over its instructions.
#![tactic(auto)]

ghost use Rattle.std.specs.Prelude.{◌≡◌, ◌||◌, [], ◌∷◌, ◌+◌, ◌≤◌, ◌<◌, ◌^◌, eqb, length, get_or};
ghost use Rattle.model.specs.Opcodes.{opcode_at};
ghost use Rattle.model.specs.Programs.{word_at, next_in, stands};
ghost use Rattle.check_rules.specs.Rules.{first_at, second_at, is_carried, whole_at, call_at, jump_if_false, jump, lands, jump_at, every};
ghost use Rattle.check_code.specs.Tallies.{entered};
ghost use Rattle.check_code.specs.Links.{Ranges, NumbersOne, NumbersAll, Cleared, Marked, Enters};

use model::{Decoded, Names};
use opcode::{decode, first_names, operands, second_names};

// The opcodes that a rule names.
const JUMP_IF_FALSE: u8 = 26;

const JUMP: u8 = 27;

const CALL: u8 = 28;

const CALL_CALLABLE: u8 = 31;

// ---- an instruction

// The byte at i, or 0 past the end.
fn byte_at(code: &[u8], i: usize) -> u8
    ensures { result ≡ get_or code.now i 0 }
{
    if i < code.len() {
        return code[i];
    }
    0
}

// The operand at i, low byte first.
fn word_at(code: &[u8], i: usize) -> usize
    requires { i + 1 < 2 ^ 64 }
    ensures { (result ≡ word_at code.now i) × (result < 0x1_0000) }
{
    let low = byte_at(code, i);
    let high = byte_at(code, i + 1);
    low as usize + 256 * (high as usize)
}

// The first operand of the instruction at i.
pub fn first_at(code: &[u8], i: usize) -> usize
    requires { i < length code.now }
    ensures { (result ≡ first_at code.now i) × (result < 0x1_0000) }
{
    word_at(code, i + 1)
}

// Its second operand.
pub fn second_at(code: &[u8], i: usize) -> usize
    requires { i < length code.now }
    ensures { (result ≡ second_at code.now i) × (result < 0x1_0000) }
{
    word_at(code, i + 1 + 2)
}

// The position behind the instruction at i, which may lie past the end.
pub fn next_at(code: &[u8], i: usize) -> usize
    requires { i < length code.now }
    ensures { (result ≡ next_in code.now i) × (result ≤ i + 7) }
{
    let b = code[i];
    let n = operands(b);
    i + 1 + 2 * n
}

// ---- 1 whole carried instructions

// Is it carried?
fn is_carried(b: u8) -> bool
    ensures { result ≡ is_carried (opcode_at b).what }
{
    match decode(b) {
        Decoded::Carried(_) => true,
        Decoded::NotCarried => false,
        Decoded::Unknown => false,
    }
}

// Is the instruction at i carried, and all there?
pub fn whole_at(code: &[u8], i: usize) -> bool
    requires { i < length code.now }
    ensures { result ≡ whole_at code.now i }
{
    let b = code[i];
    if is_carried(b) {
        return next_at(code, i) <= code.len();
    }
    false
}

// Is the code a row of whole carried instructions?
pub fn whole(code: &[u8]) -> bool
    ensures { result ≡ every (whole_at code.now) (stands code.now) }
{
    let mut i = 0;
    // Each step is as long as its instruction, so this is no `for`.
    while i < code.len() {
        if whole_at(code, i) {
            i = next_at(code, i);
        } else {
            return false;
        }
    }
    true
}

// ---- 2 numbers in range

// Is the number x of a thing of this kind below how many there are?
fn in_range(kind: Names, x: usize, constants: usize, structs: usize, functions: usize) -> bool
    ensures { Ranges constants structs functions kind x result }
{
    match kind {
        Names::Constant => x < constants,
        Names::Struct => x < structs,
        Names::Function => x < functions,
        _ => true,
    }
}

// Are the numbers that the instruction at i names in range?
pub fn numbers_at(code: &[u8], i: usize, constants: usize, structs: usize, functions: usize) -> bool
    requires { i < length code.now }
    ensures { NumbersOne constants structs functions code.now i result }
{
    let b = code[i];
    let first = first_at(code, i);
    let kind = first_names(b);
    if in_range(kind, first, constants, structs, functions) {
        let second = second_at(code, i);
        let other = second_names(b);
        return in_range(other, second, constants, structs, functions);
    }
    false
}

// Are the constant, struct and function numbers of the code in range?
pub fn numbers(code: &[u8], constants: usize, structs: usize, functions: usize) -> bool
    ensures { NumbersAll constants structs functions code.now result }
{
    let mut i = 0;
    // Each step is as long as its instruction, so this is no `for`.
    while i < code.len() {
        if numbers_at(code, i, constants, structs, functions) {
            i = next_at(code, i);
        } else {
            return false;
        }
    }
    true
}

// ---- 3 no CallCallable and no Call of function 0

// Is the instruction at i neither CallCallable nor a Call of function 0?
pub fn call_at(code: &[u8], i: usize) -> bool
    requires { i < length code.now }
    ensures { result ≡ call_at code.now i }
{
    let b = code[i];
    if b == CALL_CALLABLE {
        return false;
    }
    if b == CALL {
        return first_at(code, i) != 0;
    }
    true
}

// Is the code without CallCallable, and without a Call of function 0?
pub fn calls(code: &[u8]) -> bool
    ensures { result ≡ every (call_at code.now) (stands code.now) }
{
    let mut i = 0;
    // Each step is as long as its instruction, so this is no `for`.
    while i < code.len() {
        if call_at(code, i) {
            i = next_at(code, i);
        } else {
            return false;
        }
    }
    true
}

// ---- 4 every Call of one function passes the same count

// An entry of the tally after a Call that passes so many.
fn entry(v: u32, count: u32) -> u32
    requires { count < 0x1_0000 }
    ensures { result ≡ entered v count }
{
    let told = count + 2;
    if v == 0 {
        return told;
    }
    if v == told {
        return told;
    }
    let differ = 1;
    differ
}

// Enters the instruction at i, if it is a Call.
fn tally_at(code: &[u8], i: usize, counts: &mut [u32])
    requires { (i < length code.now) × (0x1_0000 ≤ length counts.old) }
    ensures { Enters code.now (i ∷ []) counts.old counts.new }
{
    let b = code[i];
    if b == CALL {
        let f = first_at(code, i);
        let count = second_at(code, i) as u32;
        let v = counts[f];
        counts[f] = entry(v, count);
    }
}

// Enters the Calls of the code into the tally.
pub fn tally(code: &[u8], counts: &mut [u32])
    requires { 0x1_0000 ≤ length counts.old }
    ensures { Enters code.now (stands code.now) counts.old counts.new }
{
    let mut i = 0;
    // Each step is as long as its instruction, so this is no `for`.
    while i < code.len() {
        tally_at(code, i, counts);
        i = next_at(code, i);
    }
}

// ---- 5 jumps land

// Clears the first n places of marks, or of a tally.
pub fn clear(n: usize, marks: &mut [u32])
    requires { n ≤ length marks.old }
    ensures { Cleared n marks.new }
{
    marks[..n].fill(0);
}

// Marks where the instructions begin, and no other position of the code.
pub fn mark(code: &[u8], marks: &mut [u32])
    requires { length code.now ≤ length marks.old }
    ensures { Marked code.now marks.new }
{
    let n = code.len();
    clear(n, marks);
    let mut i = 0;
    // Each step is as long as its instruction, so this is no `for`.
    while i < code.len() {
        marks[i] = 1;
        i = next_at(code, i);
    }
}

// Does a jump to j land?
fn lands(main: bool, code: &[u8], j: usize, marks: &[u32]) -> bool
    requires { (length code.now ≤ length marks.now) × (Marked code.now marks.now) }
    ensures { result ≡ lands main code.now j }
{
    let end = code.len();
    if j < end {
        return marks[j] == 1;
    }
    if main {
        return j == end;
    }
    false
}

// Is it one of the two jumps?
fn is_jump(b: u8) -> bool
    ensures { result ≡ (eqb b jump_if_false || eqb b jump) }
{
    if b == JUMP_IF_FALSE {
        return true;
    }
    b == JUMP
}

// Does the instruction at i land, if it is a jump?
pub fn jump_at(main: bool, code: &[u8], i: usize, marks: &[u32]) -> bool
    requires { (i < length code.now) × (length code.now ≤ length marks.now) × (Marked code.now marks.now) }
    ensures { result ≡ jump_at main code.now i }
{
    let b = code[i];
    if is_jump(b) {
        let next = next_at(code, i);
        let offset = first_at(code, i);
        return lands(main, code, next + offset, marks);
    }
    true
}

// Do the jumps of the code land on an instruction, or in main also on its end? The marks are the caller's, to be written over.
pub fn jumps(main: bool, code: &[u8], marks: &mut [u32]) -> bool
    requires { length code.now ≤ length marks.old }
    ensures { result ≡ every (jump_at main code.now) (stands code.now) }
{
    mark(code, marks);
    let mut i = 0;
    // Each step is as long as its instruction, so this is no `for`.
    while i < code.len() {
        if jump_at(main, code, i, marks) {
            i = next_at(code, i);
        } else {
            return false;
        }
    }
    true
}
