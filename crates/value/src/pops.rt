// Operands from the top of a stack of sp values: too few values is judged before the kind, and the right operand before the left.
ghost use Rattle.std.specs.Prelude.{◌≡◌, ◌*◌, ◌≤◌, length};
ghost use Rattle.model.specs.Values.{vals};
ghost use Rattle.value.specs.Links.{booleans_of, pop_of, scalars_of};

use crate::words;
use model::{Fault, Value};

// The value on top.
pub fn pop(stack: &[u64], sp: usize) -> Result<Value, Fault>
    requires { 2 * sp ≤ length stack.now }
    ensures { result ≡ pop_of (vals sp stack.now) }
{
    if sp == 0 {
        return Err(Fault::TooFewValues);
    }
    Ok(words::read_value(stack, sp - 1))
}

// The two scalars on top. It and its twin below stay two functions: a trait with a law for what each takes from a value would be longer than both, and hide
// the `let .. else` that the arms are read for.
pub fn two_scalars(stack: &[u64], sp: usize) -> Result<(f64, f64), Fault>
    requires { 2 * sp ≤ length stack.now }
    ensures { result ≡ scalars_of (vals sp stack.now) }
{
    let Ok(right) = pop(stack, sp) else {
        return Err(Fault::TooFewValues);
    };
    let Value::Scalar(y) = right else {
        return Err(Fault::WrongKind(right));
    };
    let Ok(left) = pop(stack, sp - 1) else {
        return Err(Fault::TooFewValues);
    };
    let Value::Scalar(x) = left else {
        return Err(Fault::WrongKind(left));
    };
    Ok((x, y))
}

// The two booleans on top. A trait of what is popped would have this instance and that of `two_scalars` alone, and laws longer than both bodies: no plainer.
pub fn two_booleans(stack: &[u64], sp: usize) -> Result<(bool, bool), Fault>
    requires { 2 * sp ≤ length stack.now }
    ensures { result ≡ booleans_of (vals sp stack.now) }
{
    let Ok(right) = pop(stack, sp) else {
        return Err(Fault::TooFewValues);
    };
    let Value::Boolean(q) = right else {
        return Err(Fault::WrongKind(right));
    };
    let Ok(left) = pop(stack, sp - 1) else {
        return Err(Fault::TooFewValues);
    };
    let Value::Boolean(p) = left else {
        return Err(Fault::WrongKind(left));
    };
    Ok((p, q))
}
