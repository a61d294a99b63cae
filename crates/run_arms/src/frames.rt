// Calls and returns, as far as the stack goes: the frames themselves are the run's.
ghost use Rattle.std.specs.Prelude.{◌≤◌};
ghost use Rattle.model.specs.Values.{vals};
ghost use Rattle.model.specs.Stores.{Stores};
ghost use Rattle.model.specs.Steps.{World, enter, call_step, call_callable_step, return_step};
ghost use Rattle.run_arms.specs.Links.{Within, Suits, Named, ArmPost};
ghost use Rattle.layout.specs.Links.{names_lent};

use crate::{Answer, Completed, Fixed, Going};
use layout::reads::{lesser, pack, part};
use model::{Fault, Value};
use program::names::newest_function;
use value::{pops, words};

// The function entered with n of the first sp values of the stack as its arguments.
fn enters(k: Fixed, g: Going, i: usize, n: usize, sp: usize, stack: &[u64]) -> Answer
    requires { (Within k g stack.now) × (sp ≤ g.sp) }
    ensures { (w : World) → Suits k w → ArmPost (enter w i n (vals sp stack.now)) k g stack.now result stack.now }
{
    if sp < n {
        return Answer::Stopped(g, Fault::TooFewValues);
    }
    let count = g.callers + 1;
    if k.frames <= count {
        return Answer::Stopped(g, Fault::FramesFull);
    }
    let base = sp - n;
    Answer::Call(Going { sp, ..g }, i, base)
}

// Call i n.
pub fn call(k: Fixed, g: Going, i: usize, n: usize, stack: &[u64]) -> Answer
    requires { Within k g stack.now }
    ensures { (w : World) → Suits k w → ArmPost (call_step w i n) k g stack.now result stack.now }
{
    if k.functions <= i {
        return Answer::Stopped(g, Fault::OutOfRange);
    }
    let sp = g.sp;
    enters(k, g, i, n, sp, stack)
}

// CallCallable n: the newest function that has the popped reference's name.
pub fn call_callable(
    k: Fixed,
    g: Going,
    n: usize,
    functions: &[u64],
    text: &[u8],
    stack: &[u64],
) -> Answer
    requires { Within k g stack.now }
    ensures { (w : World) (rest : Stores) → Suits k w → Named k (names_lent rest functions.now text.now) w → ArmPost (call_callable_step w n) k g stack.now result stack.now }
{
    let sp = g.sp;
    let Ok(v) = pops::pop(stack, sp) else {
        return Answer::Stopped(g, Fault::TooFewValues);
    };
    let Value::FunctionReference(o, m) = v else {
        return Answer::Stopped(g, Fault::WrongKind(v));
    };
    let name = part(text, pack(o as usize, m as usize));
    let Ok(i) = newest_function(k.functions, name, functions, text) else {
        return Answer::Stopped(g, Fault::NoFunction);
    };
    let below = sp - 1;
    enters(k, g, i, n, below, stack)
}

// Return: with one frame the value is the run's to take; otherwise it stands where the callee's frame began, or lower if the stack is shorter.
pub fn go_back(k: Fixed, g: Going, stack: &mut [u64]) -> Answer
    requires { Within k g stack.old }
    ensures { ArmPost return_step k g stack.old result stack.new }
{
    let sp = g.sp;
    let Ok(v) = pops::pop(stack, sp) else {
        return Answer::Stopped(g, Fault::TooFewValues);
    };
    let below = sp - 1;
    if g.callers == 0 {
        let going = Going { sp: below, ..g };
        return Answer::Returned(Completed { going, value: v });
    }
    let at = lesser(g.base, below);
    let count = at + 1;
    words::write_value(stack, at, v);
    Answer::Back(Going { sp: count, ..g })
}
