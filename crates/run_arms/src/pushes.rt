// Pushes: a constant, a slot of the stack, the last result.
ghost use Rattle.std.specs.Prelude.{◌≡◌, ◌*◌, ◌≤◌, length};
ghost use Rattle.model.specs.Values.{values_from};
ghost use Rattle.model.specs.Steps.{World, pushing, load_step, slot_step, last_step};
ghost use Rattle.run_arms.specs.Links.{Within, Suits, ArmPost};

use crate::{Answer, Fixed, Going};
use model::{Fault, Value};
use value::words;

// v on top of the stack, if there is room.
pub fn push(k: Fixed, g: Going, v: Value, stack: &mut [u64]) -> Answer
    requires { Within k g stack.old }
    ensures { (w : World) → Suits k w → ArmPost (pushing w v) k g stack.old result stack.new }
{
    let sp = g.sp;
    if k.slots <= sp {
        return Answer::Stopped(g, Fault::StackFull);
    }
    let count = sp + 1;
    words::write_value(stack, sp, v);
    Answer::Went(Going { sp: count, ..g })
}

// LoadConstant a.
pub fn load_constant(k: Fixed, g: Going, a: usize, constants: &[u64], stack: &mut [u64]) -> Answer
    requires { (Within k g stack.old) × (2 * k.constants ≤ length constants.now) }
    ensures { (w : World) → Suits k w → w.constants ≡ values_from k.constants 0 constants.now → ArmPost (load_step w a) k g stack.old result stack.new }
{
    if k.constants <= a {
        return Answer::Stopped(g, Fault::OutOfRange);
    }
    let v = words::read_value(constants, a);
    push(k, g, v, stack)
}

// GetLocal and GetUpvalue: the value in slot i, counted from the bottom of the stack.
pub fn get_slot(k: Fixed, g: Going, i: usize, stack: &mut [u64]) -> Answer
    requires { Within k g stack.old }
    ensures { (w : World) → Suits k w → ArmPost (slot_step w i) k g stack.old result stack.new }
{
    if g.sp <= i {
        return Answer::Stopped(g, Fault::OutOfRange);
    }
    let v = words::read_value(stack, i);
    push(k, g, v, stack)
}

// GetLastResult.
pub fn get_last_result(k: Fixed, g: Going, stack: &mut [u64]) -> Answer
    requires { Within k g stack.old }
    ensures { (w : World) → Suits k w → ArmPost (last_step w) k g stack.old result stack.new }
{
    let kind = g.kind;
    if kind == 7 {
        return Answer::Stopped(g, Fault::NoLastResult);
    }
    let v = words::value_of(kind, g.payload);
    push(k, g, v, stack)
}
