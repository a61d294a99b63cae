// The opcodes: what a byte is, how many operands follow it, and its name.
#![tactic(auto)]

ghost use Rattle.std.specs.Prelude.{◌≡◌, ◌≤◌, ◌<◌, length, get_or};
ghost use Rattle.model.specs.Opcodes.{operands, as_count, popped, opcode_at};
ghost use Rattle.model.specs.declared.Names.TheVariants.{Nothing};

use model::{Arith, Decoded, Names, Op, Order};

// What an opcode byte is.
#[tactic(auto, unfolding(model::specs::Basics::ascii, model::specs::Opcodes::opcodes, model::specs::Opcodes::opcode_at))]
pub fn decode(b: u8) -> Decoded
    ensures { result ≡ (opcode_at b).what }
{
    match b {
        0 => Decoded::Carried(Op::LoadConstant),
        3 => Decoded::Carried(Op::GetLocal),
        4 => Decoded::Carried(Op::GetUpvalue),
        5 => Decoded::Carried(Op::GetLastResult),
        6 => Decoded::Carried(Op::Negate),
        8 => Decoded::Carried(Op::Arithmetic(Arith::Add)),
        9 => Decoded::Carried(Op::Arithmetic(Arith::Subtract)),
        10 => Decoded::Carried(Op::Arithmetic(Arith::Multiply)),
        11 => Decoded::Carried(Op::Arithmetic(Arith::Divide)),
        14 => Decoded::Carried(Op::Ordering(Order::LessThan)),
        15 => Decoded::Carried(Op::Ordering(Order::GreaterThan)),
        16 => Decoded::Carried(Op::Ordering(Order::LessOrEqual)),
        17 => Decoded::Carried(Op::Ordering(Order::GreatorOrEqual)),
        18 => Decoded::Carried(Op::Equal),
        19 => Decoded::Carried(Op::NotEqual),
        20 => Decoded::Carried(Op::LogicalAnd),
        21 => Decoded::Carried(Op::LogicalOr),
        22 => Decoded::Carried(Op::LogicalNeg),
        26 => Decoded::Carried(Op::JumpIfFalse),
        27 => Decoded::Carried(Op::Jump),
        28 => Decoded::Carried(Op::Call),
        31 => Decoded::Carried(Op::CallCallable),
        34 => Decoded::Carried(Op::BuildStructInstance),
        35 => Decoded::Carried(Op::AccessStructField),
        36 => Decoded::Carried(Op::BuildList),
        37 => Decoded::Carried(Op::Return),
        1..=2 | 7 | 12..=13 | 23..=25 | 29..=30 | 32..=33 => Decoded::NotCarried,
        38..=255 => Decoded::Unknown,
    }
}

// How many operands follow an opcode.
#[tactic(auto, unfolding(model::specs::Basics::ascii, model::specs::Opcodes::opcodes, model::specs::Opcodes::opcode_at, model::specs::Opcodes::operands))]
pub fn operands(b: u8) -> usize
    ensures { result ≡ operands (opcode_at b) }
{
    match b {
        0..=1 | 3..=4 | 7 | 26..=27 | 32..=33 | 35..=36 => 1,
        2 | 28 | 31 | 34 => 2,
        29..=30 => 3,
        _ => 0,
    }
}

// What an opcode's first operand names; Nothing where it has none.
#[tactic(auto, unfolding(model::specs::Basics::ascii, model::specs::Opcodes::opcodes, model::specs::Opcodes::opcode_at))]
pub fn first_names(b: u8) -> Names
    ensures { result ≡ get_or (opcode_at b).names 0 Nothing }
{
    match b {
        0 => Names::Constant,
        3 | 4 => Names::Slot,
        26 | 27 => Names::Offset,
        28 => Names::Function,
        31 | 36 => Names::Count,
        34 => Names::Struct,
        35 => Names::Field,
        _ => Names::Nothing,
    }
}

// What its second operand names.
#[tactic(auto, unfolding(model::specs::Basics::ascii, model::specs::Opcodes::opcodes, model::specs::Opcodes::opcode_at))]
pub fn second_names(b: u8) -> Names
    ensures { result ≡ get_or (opcode_at b).names 1 Nothing }
{
    match b {
        28 | 34 => Names::Count,
        _ => Names::Nothing,
    }
}

// How many values an opcode pops, beside those that an operand counts.
#[tactic(auto, unfolding(model::specs::Basics::ascii, model::specs::Opcodes::opcodes, model::specs::Opcodes::opcode_at))]
pub fn pops(b: u8) -> usize
    ensures { (result ≡ (opcode_at b).pops) × (result ≤ 2) }
{
    match b {
        8..=11 | 14..=21 => 2,
        6 | 22 | 26 | 31 | 35 | 37 => 1,
        _ => 0,
    }
}

// How many values an opcode pushes.
#[tactic(auto, unfolding(model::specs::Basics::ascii, model::specs::Opcodes::opcodes, model::specs::Opcodes::opcode_at))]
pub fn pushes(b: u8) -> usize
    ensures { (result ≡ (opcode_at b).pushes) × (result ≤ 1) }
{
    match b {
        0 | 3..=6 | 8..=11 | 14..=22 | 28 | 31 | 34..=36 => 1,
        _ => 0,
    }
}

// An operand as a count of values.
#[tactic(auto, unfolding(model::specs::Opcodes::as_count))]
fn as_count(kind: Names, x: usize) -> usize
    ensures { (result ≡ as_count kind x) × (result ≤ x) }
{
    match kind {
        Names::Count => x,
        _ => 0,
    }
}

// All that an instruction with these operands pops.
pub fn popped(b: u8, first: usize, second: usize) -> usize
    requires { (first < 65536) × (second < 65536) }
    ensures { (result ≡ popped (opcode_at b) first second) × (result < 131076) }
{
    pops(b) + as_count(first_names(b), first) + as_count(second_names(b), second)
}

// The names of the opcodes, from number 0 on, each with spaces up to 19 letters.
const NAMES: [u8; 722] = *b"\
    LoadConstant       \
    ApplyPrefix        \
    SetUnitConstant    \
    GetLocal           \
    GetUpvalue         \
    GetLastResult      \
    Negate             \
    Factorial          \
    Add                \
    Subtract           \
    Multiply           \
    Divide             \
    Power              \
    ConvertTo          \
    LessThan           \
    GreaterThan        \
    LessOrEqual        \
    GreatorOrEqual     \
    Equal              \
    NotEqual           \
    LogicalAnd         \
    LogicalOr          \
    LogicalNeg         \
    AddDateTime        \
    SubDateTime        \
    DiffDateTime       \
    JumpIfFalse        \
    Jump               \
    Call               \
    FFICallFunction    \
    FFICallProcedure   \
    CallCallable       \
    PrintString        \
    JoinString         \
    BuildStructInstance\
    AccessStructField  \
    BuildList          \
    Return             ";

// The letter at place i of an opcode's name; a space past its end. An unknown opcode has no name.
pub fn name_byte(b: u8, i: usize) -> u8
    ensures { result ≡ get_or (opcode_at b).name i 32 }
{
    let number = usize::from(b);
    if 38 <= number || 19 <= i {
        return b' ';
    }
    NAMES[19 * number + i]
}

// How many letters an opcode's name has: it ends at the first space.
pub fn name_len(b: u8) -> usize
    ensures { result ≡ length (opcode_at b).name }
{
    for i in 0..19 {
        if name_byte(b, i) == b' ' {
            return i;
        }
    }
    19
}
