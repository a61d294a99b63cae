// The machine's types, and the numbers that a host is told. What they mean is in specs/, and the crates above work with them.
#![tactic(auto)]

ghost use Rattle.std.specs.Prelude.{◌≡◌};
ghost use Rattle.model.specs.Answers.{refusal_number, answer_number};

// ---- [limits]

// "Code of one function: 65,535 bytes. Constants: 65,535. Functions and struct names: 65,536 each."
pub const CODE_LIMIT: usize = 65535;

pub const CONSTANT_LIMIT: usize = 65535;

pub const NAME_LIMIT: usize = 65536;

// "Positions at most 131,070."
pub const POSITION_LIMIT: usize = 131070;

// "Depth: .. at most 64."
pub const DEPTH_LIMIT: usize = 64;

// "Of any store 4,294,967,295 places count."
pub const MOST_PLACES: usize = 0xFFFF_FFFF;

// A word that names a part of a store: where it starts, and this times how long it is.
pub const HALF: u64 = 0x1_0000_0000;

// The four arithmetic opcodes, and the four orderings: families that share a rule.
#[derive(Clone, Copy)]
pub enum Arith {
    Add,
    Subtract,
    Multiply,
    Divide,
}

#[derive(Clone, Copy)]
pub enum Order {
    LessThan,
    GreaterThan,
    LessOrEqual,
    GreatorOrEqual,
}

// The carried opcodes.
#[derive(Clone, Copy)]
pub enum Op {
    LoadConstant,
    GetLocal,
    GetUpvalue,
    GetLastResult,
    Negate,
    Arithmetic(Arith),
    Ordering(Order),
    Equal,
    NotEqual,
    LogicalAnd,
    LogicalOr,
    LogicalNeg,
    JumpIfFalse,
    Jump,
    Call,
    CallCallable,
    BuildStructInstance,
    AccessStructField,
    BuildList,
    Return,
}

// What an operand names. An offset leads a jump on; Nothing is an operand that the machine reads and does not use, or one of an opcode that is
// not carried.
#[derive(Clone, Copy)]
pub enum Names {
    Constant,
    Slot,
    Function,
    Struct,
    Field,
    Count,
    Offset,
    Nothing,
}

// What an opcode byte is: carried, known but not carried, or unknown.
#[derive(Clone, Copy)]
pub enum Decoded {
    Carried(Op),
    NotCarried,
    Unknown,
}

// A value. A string and a function reference name the offset and the length of their text, a list and a struct their header's cell.
#[derive(Clone, Copy)]
pub enum Value {
    Scalar(f64),
    Boolean(bool),
    String(u32, u32),
    FunctionReference(u32, u32),
    List(u32),
    StructInstance(u32),
}

// The first cell of a list or a struct: how many elements follow, the struct's number (0 of a list), and the depth.
#[derive(Clone, Copy)]
pub struct Header {
    pub count: usize,
    pub number: usize,
    pub depth: usize,
}

// Why a step faults. WrongKind holds the popped value. Units that do not reach are no fault of a step: it pauses the run.
#[derive(Clone, Copy)]
pub enum Fault {
    UnknownOpcode,
    NotCarried,
    CodeEnds,
    TooFewValues,
    WrongKind(Value),
    OutOfRange,
    NoLastResult,
    ZeroDivisor,
    NotFinite,
    StackFull,
    FramesFull,
    CellsFull,
    TooDeep,
    NoFunction,
}

// Why an entry refuses. The number of each is told by `refusal_number`; BrokenImage holds the offset of the first item that breaks a rule.
#[derive(Clone, Copy)]
pub enum Refusal {
    UnknownOpcode,
    CodeEnds,
    WrongKind,
    NoSuchPlace,
    NoLastResult,
    NoFunction,
    PlaceOutsideCode,
    ResultTooShort,
    NoRunUnderWay,
    NotInOrder,
    BrokenImage(usize),
    StoreFull,
    OverLimit,
    PatchOutsideCode,
    RunUnderWay,
}

impl Refusal {
    // The number that a host is told.
    pub fn number(self) -> u8
        ensures { result ≡ refusal_number self }
    {
        match self {
            Refusal::UnknownOpcode => 1,
            Refusal::CodeEnds => 3,
            Refusal::WrongKind => 5,
            Refusal::NoSuchPlace => 6,
            Refusal::NoLastResult => 7,
            Refusal::NoFunction => 14,
            Refusal::PlaceOutsideCode => 16,
            Refusal::ResultTooShort => 17,
            Refusal::NoRunUnderWay => 18,
            Refusal::NotInOrder => 19,
            Refusal::BrokenImage(_) => 20,
            Refusal::StoreFull => 21,
            Refusal::OverLimit => 22,
            Refusal::PatchOutsideCode => 23,
            Refusal::RunUnderWay => 25,
        }
    }
}

// The number that an answer comes back as, 0 where it is no refusal.
pub fn answer_number<T: Copy>(answer: Result<T, Refusal>) -> u8
    ensures { result ≡ answer_number answer }
{
    match answer {
        Ok(_) => 0,
        Err(why) => why.number(),
    }
}

// A call frame; `entered` is how many units the run had spent when the frame was entered, the Call's own included. Its layout is C's, so that a host
// in C can lend frames.
#[repr(C)]
#[derive(Clone, Copy)]
pub struct Frame {
    pub function: usize,
    pub position: usize,
    pub base: usize,
    pub entered: u64,
}

// A constant as it is emitted. A string's or a reference's text is lent beside it. A scalar keeps its 64 bits.
#[derive(Clone, Copy)]
pub enum Constant {
    Scalar(u64),
    Boolean(bool),
    String,
    FunctionReference,
}

// How much of each program store is taken, and the function that is being emitted: function 0, main, or the newest.
#[derive(Clone, Copy)]
pub struct Counts {
    pub constants: usize,
    pub structs: usize,
    pub functions: usize,
    pub text: usize,
    pub current: usize,
}

// A run between its parts, if one is under way (`on`): the units that it was given in all and those that it has spent, the root Returns that it has
// completed, how many cells were taken at the last of them, or at its start, and how many values stand in the copy of its starting stack. All zeros if
// none is. `on` stays a flag, and the run no Option: a host may hand in a run that is not under way and not all zeros, and every call refuses it 19
// (`idle`, `part_order`).
#[derive(Clone, Copy)]
pub struct Run {
    pub on: bool,
    pub given: u64,
    pub spent: u64,
    pub returns: u64,
    pub mark: usize,
    pub saved: usize,
}

// A machine between calls: how much of each store is taken, the last result, the run that is under way, and whether it is strict: then arithmetic whose
// operands are finite and whose result is not is a fault.
#[derive(Clone, Copy)]
pub struct Vm {
    pub program: Counts,
    pub stack: usize,
    pub frames: usize,
    pub cells: usize,
    pub last: Option<Value>,
    pub run: Run,
    pub strict: bool,
}

// What a run did: the units that it spent, and how many root Returns it completed. 0 returns: nothing has counted.
#[derive(Clone, Copy)]
pub struct Tally {
    pub spent: u64,
    pub returns: u64,
}

// Where a part of a run halts, with the machine as it then is. The run is over, and this is what it did: a value, or "continue", or a fault's number
// and the length of its backtrace. Or it is paused, and under way in the machine.
#[derive(Clone, Copy)]
pub enum Halt {
    Value(Vm, Value, Tally),
    Continue(Vm, Tally),
    Fault(Vm, u8, Tally, usize),
    Paused(Vm),
}
