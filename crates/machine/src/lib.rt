// A machine over lent stores: the public entries.
#![tactic(auto)]

pub mod running; // running.rt: a run's judging, its going on, its end, and recovery
pub mod starting; // starting.rt: making a machine, all but its frame
pub mod tracing; // tracing.rt: judging and writing a backtrace

ghost use Rattle.layout.specs.Lent.{stores_in};
ghost use Rattle.std.specs.Prelude.{◌≡◌, List, ℕ};
ghost use Rattle.model.specs.Machines.{backtrace_in, begins, continues, abandons, RunPost, set_strict, load_machine_of, new_machine_of};
ghost use Rattle.model.specs.Stores.{Stores};
ghost use Rattle.layout.specs.Links.{names_lent};
ghost use Rattle.model.specs.Stores.{stores_of as lent};
ghost use Rattle.run_ends.specs.Links.{program_lent};
ghost use Rattle.machine.specs.Links.{run_lent};

use crate::running::{current, go, order, stop};
use crate::starting::{first_frame, load_program, new_program};
use crate::tracing::{may_trace, put_trace, trace_order};
use frames::{push_frame, unenter};
use layout::lent::ProgramStores;
use model::{Frame, Halt, Refusal, Vm};
use run_ends::{
    abandoned, begun, copy_front, cut_frame, may_abandon, may_begin, may_continue, set_to,
};

// A run is begun: the stack is copied, and the numbers of units at which its frames were entered are set to 0. It writes no backtrace, so its promise is
// of any store for one.
pub fn begin(
    m: Vm,
    stores: &ProgramStores,
    stack: &[u64],
    cells: &[u64],
    frames: &mut [Frame],
    copy: &mut [u64],
) -> Result<Halt, Refusal>
    ensures { (backtrace : List ℕ) → RunPost begins m (stores_in stores.now) (run_lent stack.now cells.now frames.old copy.old backtrace) result (run_lent stack.now cells.now frames.new copy.new backtrace) }
{
    let good = order(m, stores, stack, cells, frames, copy);
    may_begin(good, m, stack.len(), copy.len())?;
    stores.code_is_bytes();
    copy_front(m.stack, stack, copy);
    unenter(frames, m.frames);
    let f = current(m, frames);
    Ok(begun(m, f, stores.functions))
}

// The run that is under way goes on, with `units` more.
pub fn continue_run(
    m: Vm,
    units: u64,
    stores: &ProgramStores,
    stack: &mut [u64],
    cells: &mut [u64],
    frames: &mut [Frame],
    copy: &[u64],
    backtrace: &mut [u64],
) -> Result<Halt, Refusal>
    ensures { RunPost (continues units) m (stores_in stores.now) (run_lent stack.old cells.old frames.old copy.now backtrace.old) result (run_lent stack.new cells.new frames.new copy.now backtrace.new) }
{
    let good = order(m, stores, stack, cells, frames, copy);
    may_continue(good, m, units, frames.len(), backtrace.len())?;
    Ok(go(m, units, stores, stack, cells, frames, copy, backtrace))
}

// The run that is under way is abandoned: fault 13.
pub fn abandon(
    m: Vm,
    stores: &ProgramStores,
    stack: &mut [u64],
    cells: &[u64],
    frames: &mut [Frame],
    copy: &[u64],
    backtrace: &mut [u64],
) -> Result<Halt, Refusal>
    ensures { RunPost abandons m (stores_in stores.now) (run_lent stack.old cells.now frames.old copy.now backtrace.old) result (run_lent stack.new cells.now frames.new copy.now backtrace.new) }
{
    let good = order(m, stores, stack, cells, frames, copy);
    may_abandon(good, m, frames.len(), backtrace.len())?;
    stores.code_is_bytes();
    let f = current(m, frames);
    let cut = cut_frame(m, f);
    let g = abandoned(m, cut);
    Ok(stop(m, g, cut, 13, stores, stack, frames, copy, backtrace))
}

// Whether the machine is strict from now on.
pub fn set_strict(
    m: Vm,
    strict: bool,
    stores: &ProgramStores,
    stack: &[u64],
    cells: &[u64],
    frames: &[Frame],
    copy: &[u64],
) -> Result<Vm, Refusal>
    ensures { (backtrace : List ℕ) → result ≡ set_strict strict m (stores_in stores.now) (run_lent stack.now cells.now frames.now copy.now backtrace) }
{
    let good = order(m, stores, stack, cells, frames, copy);
    set_to(good, m, strict)
}

// The backtrace of a machine's frames, into out, and how many entries it has.
pub fn backtrace(
    m: Vm,
    functions: &[u64],
    text: &[u8],
    main: &[u8],
    main_places: &[u32],
    other: &[u8],
    other_places: &[u32],
    stack: &[u64],
    frames: &[Frame],
    out: &mut [u64],
) -> Result<usize, Refusal>
    ensures { (structs constants : List ℕ) → record { answer = result; out = out.new } ≡ backtrace_in m (program_lent structs constants functions.now text.now main.now main_places.now other.now other_places.now) stack.now frames.now out.old }
{
    let good = trace_order(
        m,
        functions,
        text,
        main,
        main_places,
        other,
        other_places,
        stack,
        frames,
    );
    may_trace(good, m.frames, out.len())?;
    put_trace(m.frames, functions, main_places, other_places, frames, out)
}

// A machine over a new program, unless one with a run under way (`running`) stands there.
pub fn new(
    running: bool,
    functions: &mut [u64],
    text: &mut [u8],
    frames: &mut [Frame],
) -> Result<Vm, Refusal>
    ensures { (rest : Stores) → record { answer = result; stores = names_lent rest functions.new text.new; frames = frames.new } ≡ new_machine_of running (names_lent rest functions.old text.old) frames.old }
{
    let made = new_program(running, functions, text, frames.len())?;
    push_frame(frames, 0, first_frame());
    Ok(made)
}

// A machine over the program of an image, unless one with a run under way (`running`) stands there.
pub fn load(
    running: bool,
    image: &[u8],
    constants: &mut [u64],
    structs: &mut [u64],
    functions: &mut [u64],
    text: &mut [u8],
    main: &mut [u8],
    main_places: &mut [u32],
    other: &mut [u8],
    other_places: &mut [u32],
    frames: &mut [Frame],
) -> Result<Vm, Refusal>
    ensures { record { answer = result; stores = lent constants.new structs.new functions.new text.new main.new main_places.new other.new other_places.new; frames = frames.new } ≡ load_machine_of running image.now (lent constants.old structs.old functions.old text.old main.old main_places.old other.old other_places.old) frames.old }
{
    let made = load_program(
        running,
        image,
        constants,
        structs,
        functions,
        text,
        main,
        main_places,
        other,
        other_places,
        frames.len(),
    )?;
    push_frame(frames, 0, first_frame());
    Ok(made)
}
