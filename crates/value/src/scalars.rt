// The arithmetic and the orderings of scalars: one binary64 operation each, rounded once.
ghost use Rattle.std.specs.Prelude.{◌≡◌, not, ◌&&◌};
ghost use Rattle.std.specs.Float.Ieee as Ieee;
ghost use Rattle.model.specs.Scalars.{arith_of, finite, zero_divisor, order_of};

use model::{Arith, Order};

// The result of the operation, of whichever the machine asks.
pub fn arithmetic(which: Arith, x: f64, y: f64) -> f64
    ensures { result ≡ arith_of which x y }
{
    match which {
        Arith::Add => x + y,
        Arith::Subtract => x - y,
        Arith::Multiply => x * y,
        Arith::Divide => x / y,
    }
}

// Whether x is neither infinite nor a NaN.
fn is_finite(x: f64) -> bool
    ensures { result ≡ finite x }
{
    let infinity = f64::from_bits(0x7FF0_0000_0000_0000);
    if x < infinity {
        return -infinity < x;
    }
    false
}

// Whether finite operands x and y gave a result that is not finite.
fn escaped(x: f64, y: f64, res: f64) -> bool
    ensures { result ≡ finite x && finite y && not (finite res) }
{
    let first = is_finite(x);
    let second = is_finite(y);
    let third = is_finite(res);
    first & second & !third
}

// Whether a strict machine faults by the result of an operation on x and y; one that is not strict never does.
pub fn strict_fault(strict: bool, x: f64, y: f64, res: f64) -> bool
    ensures { result ≡ strict && (finite x && finite y && not (finite res)) }
{
    if strict {
        return escaped(x, y, res);
    }
    false
}

// Whether the operation is a division by zero, of either sign.
pub fn zero_divisor(which: Arith, y: f64) -> bool
    ensures { result ≡ zero_divisor which y }
{
    match which {
        Arith::Divide => y == 0.0,
        _ => false,
    }
}

// Whether the ordering holds; with a NaN none does.
pub fn ordering(which: Order, x: f64, y: f64) -> bool
    ensures { result ≡ order_of which x y }
{
    match which {
        Order::LessThan => x < y,
        Order::GreaterThan => x > y,
        Order::LessOrEqual => x <= y,
        Order::GreatorOrEqual => x >= y,
    }
}

// The scalar with its sign changed.
pub fn negate(x: f64) -> f64
    ensures { result ≡ Ieee.neg x }
{
    -x
}
