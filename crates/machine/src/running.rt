// A run in parts, over lent stores: its judging, its going on, its end, and what it leaves where a fault stops it.
ghost use Rattle.layout.specs.Lent.{stores_in};
ghost use Rattle.std.specs.Prelude.{◌≡◌, Ok, List, ◌∷◌, ℕ, ◌-◌, ◌*◌, ◌<◌, ◌≤◌, ◌^◌, length, get_or, set, take};
ghost use Rattle.model.specs.Runs.{root};
ghost use Rattle.model.specs.Stores.{size, code_word};
ghost use Rattle.model.specs.Emission.{written};
ghost use Rattle.model.specs.Machines.{run_order, continues, RunPost};
ghost use Rattle.frames.specs.Links.{no_frame, callers_of, trace_words, TraceFits};
ghost use Rattle.run_ends.specs.Links.{Answerable, faulted_with, settled_with};
ghost use Rattle.machine.specs.Links.{run_lent, Granted};

use crate::tracing::{both, counted};
use frames::backtrace::trace;
use frames::order::frames_ok;
use frames::{push_frame, read_frame};
use layout::lent::ProgramStores;
use layout::reads::room;
use model::{Frame, Halt, Vm};
use run_arms::Going;
use run_ends::{
    all_given, copy_front, faulted, fixed, innermost_at, judge, part_ok, resumed, root_at, settled,
};
use run_loop::{Turn, fault_number, frame_of, stands_paused, turns};

// The frame that the machine is in: the innermost.
pub fn current(m: Vm, frames: &[Frame]) -> Frame
    requires { m.frames - 1 < length frames.now }
    ensures { result ≡ get_or frames.now (m.frames - 1) no_frame }
{
    read_frame(frames, innermost_at(m.frames))
}

// The good order that every call of a run judges: the machine's, its frames', and that of the run under way.
pub fn order(
    m: Vm,
    stores: &ProgramStores,
    stack: &[u64],
    cells: &[u64],
    frames: &[Frame],
    copy: &[u64],
) -> bool
    ensures { (backtrace : List ℕ) → result ≡ run_order m (stores_in stores.now) (run_lent stack.now cells.now frames.now copy.now backtrace) }
{
    let good = judge(m, stores, stack, cells);
    let count = counted(good, m);
    let slots = room(stack.len(), 2);
    let fine = frames_ok(stores.functions, count, slots, m.frames, frames);
    let held = both(good, fine);
    if held {
        let f = current(m, frames);
        return part_ok(m, f, slots, stores.functions, cells, copy);
    }
    held
}

// The end of a part that no fault stops: the innermost frame f goes back to its store.
fn finish(m: Vm, given: u64, g: Going, f: Frame, is_paused: bool, frames: &mut [Frame]) -> Halt
    requires { (g.callers < 2 ^ 32) × (g.callers < length frames.old) × Answerable g }
    ensures { (result ≡ settled_with m given g is_paused) × (frames.new ≡ set frames.old g.callers f) }
{
    push_frame(frames, g.callers, f);
    settled(m, given, g, is_paused)
}

// Recovery: the starting stack of n values, and one frame at the end of main.
fn recover(n: usize, functions: &[u64], stack: &mut [u64], frames: &mut [Frame], copy: &[u64])
    requires { (2 * n ≤ length copy.now) × (2 * n ≤ length stack.old) × (0 < length frames.old) }
    ensures { (stack.new ≡ written stack.old 0 (take (2 * n) copy.now)) × (frames.new ≡ set frames.old 0 (root (size (code_word functions.now 0)))) }
{
    copy_front(n, copy, stack);
    push_frame(frames, 0, root_at(functions));
}

// The end of a run that a fault stops, or that is abandoned, in the frame f: its backtrace, then recovery.
pub fn stop(
    m: Vm,
    g: Going,
    f: Frame,
    fault: u8,
    stores: &ProgramStores,
    stack: &mut [u64],
    frames: &mut [Frame],
    copy: &[u64],
    backtrace: &mut [u64],
) -> Halt
    requires { (g.callers < 2 ^ 32) × TraceFits stores.now.functions.now stores.now.main_places.now stores.now.other_places.now f g.callers frames.old (length backtrace.old) × (2 * m.run.saved ≤ length copy.now) × (2 * m.run.saved ≤ length stack.old) × (0 < length frames.old) }
    ensures { (result ≡ faulted_with m g fault) × (backtrace.new ≡ written backtrace.old 0 (trace_words stores.now.functions.now stores.now.main_places.now stores.now.other_places.now (f ∷ callers_of g.callers frames.old))) × (stack.new ≡ written stack.old 0 (take (2 * m.run.saved) copy.now)) × (frames.new ≡ set frames.old 0 (root (size (code_word stores.now.functions.now 0)))) }
{
    trace(
        stores.functions,
        stores.main_places,
        stores.other_places,
        f,
        g.callers,
        frames,
        backtrace,
    );
    recover(m.run.saved, stores.functions, stack, frames, copy);
    faulted(m, g, fault)
}

// A run goes on, in good order and with stores that are long enough. It is lent the struct names too, which it does not read, so that what it promises is
// of the whole program.
pub fn go(
    m: Vm,
    units: u64,
    stores: &ProgramStores,
    stack: &mut [u64],
    cells: &mut [u64],
    frames: &mut [Frame],
    copy: &[u64],
    backtrace: &mut [u64],
) -> Halt
    requires { Granted (continues units) m (stores_in stores.now) (run_lent stack.old cells.old frames.old copy.now backtrace.old) }
    ensures { RunPost (continues units) m (stores_in stores.now) (run_lent stack.old cells.old frames.old copy.now backtrace.old) (Ok result) (run_lent stack.new cells.new frames.new copy.now backtrace.new) }
{
    stores.code_is_bytes();
    let given = all_given(m, units);
    let k = fixed(m, given, stack.len(), frames.len());
    let f = current(m, frames);
    let begun = resumed(m, f);
    let c = turns(
        k,
        begun,
        f.entered,
        m.program.text,
        stores.constants,
        stores.functions,
        stores.text,
        stores.main,
        stores.other,
        stack,
        cells,
        frames,
    );
    let g = c.going;
    let at = frame_of(g, c.entered);
    if let Turn::Stopped(fault) = c.turn {
        let number = fault_number(fault);
        return stop(m, g, at, number, stores, stack, frames, copy, backtrace);
    }
    finish(m, given, g, at, stands_paused(c.turn), frames)
}
