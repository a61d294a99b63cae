// Booleans, and the jumps.
ghost use Rattle.std.specs.Prelude.{◌≡◌, ◌<◌};
ghost use Rattle.model.specs.Steps.{logic_step, not_step, jump_step, jump_if_false_step};
ghost use Rattle.run_arms.specs.Links.{Within, ArmPost, connective};

use model::{Fault, Value};
use run_arms::{Answer, Fixed, Going};
use value::{pops, words};

// x and y, or x or y.
fn joined(and: bool, x: bool, y: bool) -> bool
    ensures { result ≡ connective and x y }
{
    if and {
        if x { y } else { false }
    } else {
        if x { true } else { y }
    }
}

// LogicalAnd, LogicalOr: both operands are popped in any case.
pub fn logical(k: Fixed, g: Going, and: bool, stack: &mut [u64]) -> Answer
    requires { Within k g stack.old }
    ensures { ArmPost (logic_step (connective and)) k g stack.old result stack.new }
{
    let sp = g.sp;
    match pops::two_booleans(stack, sp) {
        Err(f) => Answer::Stopped(g, f),
        Ok((x, y)) => {
            let count = sp - 1;
            words::write_value(stack, count - 1, Value::Boolean(joined(and, x, y)));
            Answer::Went(Going { sp: count, ..g })
        }
    }
}

// LogicalNeg.
pub fn logical_neg(k: Fixed, g: Going, stack: &mut [u64]) -> Answer
    requires { Within k g stack.old }
    ensures { ArmPost not_step k g stack.old result stack.new }
{
    let sp = g.sp;
    let Ok(v) = pops::pop(stack, sp) else {
        return Answer::Stopped(g, Fault::TooFewValues);
    };
    let Value::Boolean(x) = v else {
        return Answer::Stopped(g, Fault::WrongKind(v));
    };
    words::write_value(stack, sp - 1, Value::Boolean(!x));
    Answer::Went(g)
}

// Jump a.
pub fn jump(k: Fixed, g: Going, a: usize, stack: &[u64]) -> Answer
    requires { (Within k g stack.now) × ((g.position < 0x1_0000_0000) × (a < 0x1_0000_0000)) }
    ensures { ArmPost (jump_step a) k g stack.now result stack.now }
{
    let position = g.position + a;
    Answer::Went(Going { position, ..g })
}

// JumpIfFalse a: the boolean is popped either way.
pub fn jump_if_false(k: Fixed, g: Going, a: usize, stack: &[u64]) -> Answer
    requires { (Within k g stack.now) × ((g.position < 0x1_0000_0000) × (a < 0x1_0000_0000)) }
    ensures { ArmPost (jump_if_false_step a) k g stack.now result stack.now }
{
    let sp = g.sp;
    let Ok(v) = pops::pop(stack, sp) else {
        return Answer::Stopped(g, Fault::TooFewValues);
    };
    let Value::Boolean(x) = v else {
        return Answer::Stopped(g, Fault::WrongKind(v));
    };
    let count = sp - 1;
    if x {
        return Answer::Went(Going { sp: count, ..g });
    }
    let position = g.position + a;
    Answer::Went(Going {
        sp: count,
        position,
        ..g
    })
}
