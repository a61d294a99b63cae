// Arithmetic and orderings: scalars popped, the right operand first, and one value pushed where they were.
ghost use Rattle.model.specs.Steps.{World, negate_step, arithmetic_step, ordering_step};
ghost use Rattle.run_arms.specs.Links.{Within, Suits, ArmPost};

use model::{Arith, Fault, Order, Value};
use run_arms::{Answer, Fixed, Going};
use value::{pops, scalars, words};

// Negate.
pub fn negate(k: Fixed, g: Going, stack: &mut [u64]) -> Answer
    requires { Within k g stack.old }
    ensures { ArmPost negate_step k g stack.old result stack.new }
{
    let sp = g.sp;
    let Ok(v) = pops::pop(stack, sp) else {
        return Answer::Stopped(g, Fault::TooFewValues);
    };
    let Value::Scalar(x) = v else {
        return Answer::Stopped(g, Fault::WrongKind(v));
    };
    words::write_value(stack, sp - 1, Value::Scalar(scalars::negate(x)));
    Answer::Went(g)
}

// Add, Subtract, Multiply, Divide.
pub fn arithmetic(k: Fixed, g: Going, which: Arith, stack: &mut [u64]) -> Answer
    requires { Within k g stack.old }
    ensures { (w : World) → Suits k w → ArmPost (arithmetic_step w which) k g stack.old result stack.new }
{
    let sp = g.sp;
    match pops::two_scalars(stack, sp) {
        Err(f) => Answer::Stopped(g, f),
        Ok((x, y)) => {
            if scalars::zero_divisor(which, y) {
                return Answer::Stopped(g, Fault::ZeroDivisor);
            }
            let result = scalars::arithmetic(which, x, y);
            if scalars::strict_fault(k.strict, x, y, result) {
                return Answer::Stopped(g, Fault::NotFinite);
            }
            let count = sp - 1;
            words::write_value(stack, count - 1, Value::Scalar(result));
            Answer::Went(Going { sp: count, ..g })
        }
    }
}

// LessThan, GreaterThan, LessOrEqual, GreatorOrEqual.
pub fn ordering(k: Fixed, g: Going, which: Order, stack: &mut [u64]) -> Answer
    requires { Within k g stack.old }
    ensures { ArmPost (ordering_step which) k g stack.old result stack.new }
{
    let sp = g.sp;
    match pops::two_scalars(stack, sp) {
        Err(f) => Answer::Stopped(g, f),
        Ok((x, y)) => {
            let count = sp - 1;
            words::write_value(
                stack,
                count - 1,
                Value::Boolean(scalars::ordering(which, x, y)),
            );
            Answer::Went(Going { sp: count, ..g })
        }
    }
}
