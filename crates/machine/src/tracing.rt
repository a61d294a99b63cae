// The backtrace of a machine's frames: judging what it is lent, and writing. Of the stack its room is looked at alone: bases lie within it.
ghost use Rattle.std.specs.Prelude.{◌≡◌, ◌&&◌, List, ℕ, length, if◌then◌else◌};
ghost use Rattle.model.specs.Machines.{trace_order};
ghost use Rattle.run_ends.specs.Links.{program_lent};
ghost use Rattle.machine.specs.Links.{trace_program, trace_refusal, Traceable, trace_into};

use frames::backtrace::{trace, traceable};
use frames::order::frames_ok;
use frames::read_frame;
use layout::reads::room;
use model::{Frame, Refusal, Vm};
use program::order::{counts_ok, functions_ok, inside_codes, main_ok, text_ok};
use run_ends::innermost_at;

// Good order of the program that a backtrace is lent.
fn trace_program(
    m: Vm,
    functions: &[u64],
    text: &[u8],
    main: &[u8],
    main_places: &[u32],
    other: &[u8],
    other_places: &[u32],
) -> bool
    ensures { (structs constants : List ℕ) → result ≡ trace_program m.program (program_lent structs constants functions.now text.now main.now main_places.now other.now other_places.now) }
{
    let c = m.program;
    counts_ok(c)
        & text_ok(c, text)
        & functions_ok(c, functions)
        & main_ok(functions, text)
        & inside_codes(c, functions, main.len(), other.len())
        & inside_codes(c, functions, main_places.len(), other_places.len())
}

// The functions that count: none of a program that is not in good order.
pub fn counted(good: bool, m: Vm) -> usize
    ensures { result ≡ (if good then m.program.functions else 0) }
{
    if good {
        return m.program.functions;
    }
    0
}

pub fn both(a: bool, b: bool) -> bool
    ensures { result ≡ (a && b) }
{
    a & b
}

// Good order of all that a backtrace is lent.
pub fn trace_order(
    m: Vm,
    functions: &[u64],
    text: &[u8],
    main: &[u8],
    main_places: &[u32],
    other: &[u8],
    other_places: &[u32],
    stack: &[u64],
    frames: &[Frame],
) -> bool
    ensures { (structs constants : List ℕ) → result ≡ trace_order m (program_lent structs constants functions.now text.now main.now main_places.now other.now other_places.now) stack.now frames.now }
{
    let n = m.frames;
    let good = trace_program(m, functions, text, main, main_places, other, other_places);
    let count = counted(good, m);
    let slots = room(stack.len(), 2);
    let fine = frames_ok(functions, count, slots, n, frames);
    let all = both(good, fine);
    all
}

// Whether there may be a backtrace of n frames in a store of this length.
pub fn may_trace(good: bool, n: usize, size: usize) -> Result<(), Refusal>
    ensures { (out : List ℕ) → length out ≡ size → result ≡ trace_refusal good n out }
{
    if !good {
        return Err(Refusal::NotInOrder);
    }
    if room(size, 3) < n {
        return Err(Refusal::ResultTooShort);
    }
    Ok(())
}

// The backtrace of n frames, or 16.
pub fn put_trace(
    n: usize,
    functions: &[u64],
    main_places: &[u32],
    other_places: &[u32],
    frames: &[Frame],
    out: &mut [u64],
) -> Result<usize, Refusal>
    requires { Traceable functions.now main_places.now other_places.now n frames.now (length out.old) }
    ensures { record { answer = result; out = out.new } ≡ trace_into functions.now main_places.now other_places.now n frames.now out.old }
{
    let callers = innermost_at(n);
    let inner = read_frame(frames, callers);
    let fine = traceable(functions, inner, callers, frames);
    if fine {
        trace(
            functions,
            main_places,
            other_places,
            inner,
            callers,
            frames,
            out,
        );
        return Ok(n);
    }
    Err(Refusal::PlaceOutsideCode)
}
