// Equality, lists and structs.
#![tactic(auto)]

ghost use Rattle.std.specs.Prelude.{◌≡◌, List, ℕ, ◌≤◌, ◌<◌, length};
ghost use Rattle.model.specs.Values.{places};
ghost use Rattle.model.specs.Heap.{list_elements};
ghost use Rattle.model.specs.Steps.{World, equal_step, build_step, struct_step, field_step};
ghost use Rattle.cells.specs.Links.{elements_of, BuildPost};
ghost use Rattle.run_arms.specs.Links.{Within, Suits, Blocks, BlockPost, verdict_by, built_by};

use model::{Fault, Value};
use run_arms::{Answer, Fixed, Going, pushes};
use value::{pops, words};

// The value of Equal from the verdict, or of NotEqual.
fn told(not: bool, same: bool) -> bool
    ensures { result ≡ verdict_by not same }
{
    same != not
}

// Equal, and NotEqual where `not` is true.
pub fn equal(k: Fixed, g: Going, not: bool, text: &[u8], cells: &[u64], stack: &mut [u64]) -> Answer
    requires { Blocks (length text.now) k g stack.old cells.now }
    ensures { (w : World) → w.text ≡ text.now → BlockPost (equal_step (verdict_by not) w) k g stack.old cells.now result stack.new cells.now }
{
    let sp = g.sp;
    let Ok(y) = pops::pop(stack, sp) else {
        return Answer::Stopped(g, Fault::TooFewValues);
    };
    let count = sp - 1;
    let Ok(x) = pops::pop(stack, count) else {
        return Answer::Stopped(g, Fault::TooFewValues);
    };
    let units = k.given - g.spent;
    let Some((same, left)) = cells::equal(text, cells, g.used, x, y, units) else {
        return Answer::Short(g);
    };
    let v = told(not, same);
    words::write_value(stack, count - 1, Value::Boolean(v));
    let spent = k.given - left;
    Answer::Went(Going {
        sp: count,
        spent,
        ..g
    })
}

// The list or struct whose header is at p.
fn named(list: bool, p: u32) -> Value
    ensures { result ≡ built_by list p }
{
    if list {
        Value::List(p)
    } else {
        Value::StructInstance(p)
    }
}

// The list or struct whose cells are written, in place of the n values on top that it was built of; or the fault.
fn replace(
    list: bool,
    n: usize,
    built: Result<usize, Fault>,
    k: Fixed,
    g: Going,
    stack: &mut [u64],
) -> Answer
    requires { (Within k g stack.old) × ((n ≤ g.sp) × (g.used < 0x1_0000_0000)) }
    ensures { (w : World) (t number : ℕ) (x y : List ℕ) → Suits k w → w.cell_room ≡ places 2 x → Blocks t k g stack.old x → BuildPost list stack.old g.sp n number x g.used built y → BlockPost (build_step w (built_by list) (elements_of list) number n) k g stack.old x result stack.new y }
{
    match built {
        Err(f) => Answer::Stopped(g, f),
        Ok(u) => {
            let sp = g.sp - n;
            let popped = Going { sp, used: u, ..g };
            let v = named(list, g.used as u32);
            pushes::push(k, popped, v, stack)
        }
    }
}

// BuildList n: n values popped, the new value pushed.
pub fn build_list(k: Fixed, g: Going, n: usize, cells: &mut [u64], stack: &mut [u64]) -> Answer
    requires { ((t : ℕ) × Blocks t k g stack.old cells.old) × (n < 0x1_0000) }
    ensures { (w : World) → Suits k w → w.cell_room ≡ places 2 cells.old → BlockPost (build_step w Value.List list_elements 0 n) k g stack.old cells.old result stack.new cells.new }
{
    let sp = g.sp;
    if sp < n {
        return Answer::Stopped(g, Fault::TooFewValues);
    }
    let built = cells::build(true, stack, sp, n, 0, cells, g.used);
    replace(true, n, built, k, g, stack)
}

// BuildStructInstance number n.
pub fn build_struct(
    k: Fixed,
    g: Going,
    number: usize,
    n: usize,
    cells: &mut [u64],
    stack: &mut [u64],
) -> Answer
    requires { ((t : ℕ) × Blocks t k g stack.old cells.old) × ((n < 0x1_0000) × (number < 0x1_0000)) }
    ensures { (w : World) → Suits k w → w.cell_room ≡ places 2 cells.old → BlockPost (struct_step w number n) k g stack.old cells.old result stack.new cells.new }
{
    if k.structs <= number {
        return Answer::Stopped(g, Fault::OutOfRange);
    }
    let sp = g.sp;
    if sp < n {
        return Answer::Stopped(g, Fault::TooFewValues);
    }
    let built = cells::build(false, stack, sp, n, number, cells, g.used);
    replace(false, n, built, k, g, stack)
}

// AccessStructField a.
pub fn access_struct_field(k: Fixed, g: Going, a: usize, cells: &[u64], stack: &mut [u64]) -> Answer
    requires { (t : ℕ) × Blocks t k g stack.old cells.now }
    ensures { BlockPost (field_step a) k g stack.old cells.now result stack.new cells.now }
{
    let sp = g.sp;
    let Ok(v) = pops::pop(stack, sp) else {
        return Answer::Stopped(g, Fault::TooFewValues);
    };
    let Value::StructInstance(p) = v else {
        return Answer::Stopped(g, Fault::WrongKind(v));
    };
    match cells::field(cells, g.used, p as usize, a) {
        Err(f) => Answer::Stopped(g, f),
        Ok(x) => {
            words::write_value(stack, sp - 1, x);
            Answer::Went(Going { sp, ..g })
        }
    }
}
