// Good order of the frames that the host lends.
ghost use Rattle.std.specs.Prelude.{◌≡◌, ◌+◌, ◌*◌, ◌<◌, ◌≤◌, length};
ghost use Rattle.model.specs.Stores.{size, code_word};
ghost use Rattle.frames.specs.Links.{frame_good, entered_good, caller_good, place_good, frames_good};

use layout::reads::{second, size_of};
use model::{Frame, MOST_PLACES, POSITION_LIMIT};

// How long the code of function i is.
pub fn code_length(functions: &[u64], i: usize) -> usize
    ensures { result ≡ size (code_word functions.now i) }
{
    size_of(second(functions, i))
}

fn frame_ok(count: usize, slots: usize, f: Frame) -> bool
    ensures { result ≡ frame_good count slots f }
{
    if f.function >= count {
        return false;
    }
    if f.base > slots {
        return false;
    }
    f.position <= POSITION_LIMIT
}

// How the frame f at place i was entered; its caller, if it has one, was at `caller` units.
fn entered_ok(i: usize, caller: u64, f: Frame) -> bool
    ensures { result ≡ entered_good i caller f }
{
    if i != 0 {
        return caller <= f.entered;
    }
    if f.function != 0 {
        return false;
    }
    f.base == 0
}

fn caller_ok(functions: &[u64], n: usize, i: usize, f: Frame) -> bool
    requires { (2 * f.function + 1 < length functions.now) × (i < n) }
    ensures { result ≡ caller_good functions.now n i f }
{
    if i + 1 >= n {
        return true;
    }
    let function = f.function;
    let length = code_length(functions, function);
    if f.position < 1 {
        return false;
    }
    f.position <= length
}

// The frame f at place i of n, behind a caller that was entered at `caller` units.
fn place_ok(
    functions: &[u64],
    count: usize,
    slots: usize,
    n: usize,
    i: usize,
    caller: u64,
    f: Frame,
) -> bool
    requires { (2 * count ≤ length functions.now) × (i < n) }
    ensures { result ≡ place_good functions.now count slots n i caller f }
{
    frame_ok(count, slots, f) && entered_ok(i, caller, f) && caller_ok(functions, n, i, f)
}

// Whether the n first frames are in good order over `count` functions and a stack store of `slots` places.
pub fn frames_ok(functions: &[u64], count: usize, slots: usize, n: usize, frames: &[Frame]) -> bool
    requires { 2 * count ≤ length functions.now }
    ensures { result ≡ frames_good functions.now count slots n frames.now }
{
    if n < 1 || n > frames.len() || n > MOST_PLACES {
        return false;
    }
    let mut caller = 0;
    for i in 0..n {
        let f = frames[i];
        if !place_ok(functions, count, slots, n, i, caller, f) {
            return false;
        }
        caller = f.entered;
    }
    true
}
