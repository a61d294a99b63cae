// A step, and the steps inside one function: the run goes from call to return through `exec`.
#![tactic(auto)]

ghost use Rattle.std.specs.Prelude.{◌≡◌, true, false, ◌+◌, ◌*◌, ◌≤◌, ◌<◌, length, get_or};
ghost use Rattle.model.specs.Programs.{word_at};
ghost use Rattle.model.specs.Steps.{World, exec_of, step_of};
ghost use Rattle.run_arms.specs.Links.{Around, Blocks, BlockPost};
ghost use Rattle.run_steps.specs.Links.{Lent, Ready, CountedPost, ExecPost};

use model::{Decoded, Fault, Op};
use run_arms::{Answer, Completed, Fixed, Going, frames, pushes};
use run_scalars::{logic, scalars};
use value::words;

// What the steps inside one function come to: the end of its code, a call, a return to the caller, or a fault; or the machine before an instruction
// that its units do not pay for.
#[derive(Clone, Copy)]
pub enum Event {
    Over(Going),
    Call(Going, usize, usize),
    Back(Going),
    Stopped(Going, Fault),
    Paused(Going),
}

// The byte at i; 0 past the code.
fn byte_at(code: &[u8], i: usize) -> u8
    ensures { result ≡ get_or code.now i 0 }
{
    if i < code.len() {
        return code[i];
    }
    0
}

// The word of two bytes, low byte first.
fn word(low: u8, high: u8) -> usize
    ensures { (result ≡ low + 256 * high) × (result < 0x1_0000) }
{
    low as usize + 256 * (high as usize)
}

// The two words at a place of the code.
#[derive(Clone, Copy)]
struct Operands {
    a: usize,
    b: usize,
}

// The operands at i. Mostly both are there, and one test tells so.
fn operands_at(code: &[u8], i: usize) -> Operands
    requires { i < 0x1_0000_0000 }
    ensures { ((result.a ≡ word_at code.now i) × (result.b ≡ word_at code.now (i + 2))) × ((result.a < 0x1_0000) × (result.b < 0x1_0000)) }
{
    if i + 4 <= code.len() {
        let a = word(code[i], code[i + 1]);
        let b = word(code[i + 2], code[i + 3]);
        return Operands { a, b };
    }
    let a = word(byte_at(code, i), byte_at(code, i + 1));
    let b = word(byte_at(code, i + 2), byte_at(code, i + 3));
    Operands { a, b }
}

// Which of the two equalities an instruction is.
fn is_not_equal(o: Op) -> bool
    ensures { (o ≡ Op.Equal → result ≡ false) × (o ≡ Op.NotEqual → result ≡ true) }
{
    match o {
        Op::NotEqual => true,
        _ => false,
    }
}

// An instruction whose opcode and operands have been read.
fn execute(
    o: Op,
    a: usize,
    b: usize,
    k: Fixed,
    g: Going,
    constants: &[u64],
    functions: &[u64],
    text: &[u8],
    stack: &mut [u64],
    cells: &mut [u64],
) -> Answer
    requires { ((w : World) × Lent w k constants.now functions.now text.now cells.old) × (Blocks (length text.now) k g stack.old cells.old × ((g.position < 0x1_0000_0000) × (g.base ≤ k.slots) × (a < 0x1_0000) × (b < 0x1_0000))) }
    ensures { (w : World) → Lent w k constants.now functions.now text.now cells.old → BlockPost (exec_of w o a b) k g stack.old cells.old result stack.new cells.new }
{
    match o {
        Op::LoadConstant => pushes::load_constant(k, g, a, constants, stack),
        Op::GetLocal => {
            let base = g.base;
            pushes::get_slot(k, g, base + a, stack)
        }
        Op::GetUpvalue => pushes::get_slot(k, g, a, stack),
        Op::GetLastResult => pushes::get_last_result(k, g, stack),
        Op::Negate => scalars::negate(k, g, stack),
        Op::Arithmetic(which) => scalars::arithmetic(k, g, which, stack),
        Op::Ordering(which) => scalars::ordering(k, g, which, stack),
        Op::Equal | Op::NotEqual => {
            let not = is_not_equal(o);
            run_blocks::equal(k, g, not, text, cells, stack)
        }
        Op::LogicalAnd => logic::logical(k, g, true, stack),
        Op::LogicalOr => logic::logical(k, g, false, stack),
        Op::LogicalNeg => logic::logical_neg(k, g, stack),
        Op::JumpIfFalse => logic::jump_if_false(k, g, a, stack),
        Op::Jump => logic::jump(k, g, a, stack),
        Op::Call => frames::call(k, g, a, b, stack),
        Op::CallCallable => frames::call_callable(k, g, a, functions, text, stack),
        Op::BuildStructInstance => run_blocks::build_struct(k, g, a, b, cells, stack),
        Op::AccessStructField => run_blocks::access_struct_field(k, g, a, cells, stack),
        Op::BuildList => run_blocks::build_list(k, g, a, cells, stack),
        Op::Return => frames::go_back(k, g, stack),
    }
}

// One step, where the position is inside the code.
fn step(
    k: Fixed,
    g: Going,
    code: &[u8],
    constants: &[u64],
    functions: &[u64],
    text: &[u8],
    stack: &mut [u64],
    cells: &mut [u64],
) -> Answer
    requires { ((w : World) × (a : Around) × Ready w a k g code.now constants.now functions.now text.now stack.old cells.old) × (g.position < length code.now) }
    ensures { (w : World) (a : Around) → Ready w a k g code.now constants.now functions.now text.now stack.old cells.old → BlockPost (step_of w) k g stack.old cells.old result stack.new cells.new }
{
    let spent = g.spent;
    if k.given <= spent {
        return Answer::Short(g);
    }
    let position = g.position;
    let opcode = code[position];
    let next = position + 1;
    let paid = spent + 1;
    let fetched = Going {
        position: next,
        spent: paid,
        ..g
    };
    match opcode::decode(opcode) {
        Decoded::Unknown => Answer::Stopped(fetched, Fault::UnknownOpcode),
        Decoded::NotCarried => Answer::Stopped(fetched, Fault::NotCarried),
        Decoded::Carried(o) => {
            let behind = next + 2 * opcode::operands(opcode);
            if code.len() < behind {
                return Answer::Stopped(fetched, Fault::CodeEnds);
            }
            let operands = operands_at(code, next);
            let read = Going {
                position: behind,
                ..fetched
            };
            execute(
                o, operands.a, operands.b, k, read, constants, functions, text, stack, cells,
            )
        }
    }
}

// A completed root Return has counted: its value is the last result, and a fault goes back to here. It has spent a unit, as each before it had.
fn counted(done: Completed) -> Going
    requires { done.going.returns < done.going.spent }
    ensures { CountedPost done result }
{
    let v = done.value;
    let next = done.going;
    let kind = words::kind_of(v);
    let payload = words::payload_of(v);
    let returns = next.returns + 1;
    Going {
        kind,
        payload,
        mark: next.used,
        returns,
        ..next
    }
}

// The steps inside the current function.
pub fn exec(
    k: Fixed,
    start: Going,
    code: &[u8],
    constants: &[u64],
    functions: &[u64],
    text: &[u8],
    stack: &mut [u64],
    cells: &mut [u64],
) -> Event
    requires { (w : World) × (a : Around) × Ready w a k start code.now constants.now functions.now text.now stack.old cells.old }
    ensures { (w : World) (a : Around) → Ready w a k start code.now constants.now functions.now text.now stack.old cells.old → ExecPost w a k start stack.old cells.old result stack.new cells.new }
{
    let mut g = start;
    // What an instruction does says where the next one stands, so this is no `for`.
    while g.position < code.len() {
        match step(k, g, code, constants, functions, text, stack, cells) {
            Answer::Went(next) => {
                g = next;
            }
            Answer::Returned(done) => {
                g = counted(done);
            }
            Answer::Call(next, i, base) => {
                return Event::Call(next, i, base);
            }
            Answer::Back(next) => {
                return Event::Back(next);
            }
            Answer::Stopped(next, fault) => {
                return Event::Stopped(next, fault);
            }
            Answer::Short(unpaid) => {
                return Event::Paused(g);
            }
        }
    }
    Event::Over(g)
}
