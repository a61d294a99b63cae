// The two ends of a part of a run, without its loop: judging and copying before it, what it leaves and answers behind it.
#![tactic(auto)]

ghost use Rattle.layout.specs.Lent.{stores_in};
ghost use Rattle.std.specs.Prelude.{◌≡◌, ◌&&◌, ◌||◌, ◌+◌, ◌-◌, ◌*◌, ◌≤◌, ◌<◌, ◌^◌, eqb, length, take};
ghost use Rattle.model.specs.Answers.{answer_number};
ghost use Rattle.model.specs.Values.{kind_at, payload_at, value_at, exact_value};
ghost use Rattle.model.specs.Heap.{heap_of, placed_below};
ghost use Rattle.model.specs.Emission.{written};
ghost use Rattle.model.specs.Stores.{Stores, size, code_word};
ghost use Rattle.model.specs.Orders.{cells_ok, stack_ok, last_ok};
ghost use Rattle.model.specs.Runs.{root};
ghost use Rattle.model.specs.Machines.{Lent, some_last, idle, run_order, copy_short, trace_short, begins, continues, abandons, run_answer, no_run, fresh, refusal_of};
ghost use Rattle.run_ends.specs.Links.{set_by, program_lent, values_ok, rest_order, counts_by, part_by, FixedPost, Begun, cut_frame, vm_with, tally_of, Answerable, ended_with, faulted_with, paused_with, settled_with, begun_with};

use cells::{good_cells, placed};
use layout::lent::ProgramStores;
use layout::reads::{first, lesser, room, second, size_of};
use model::{Counts, Frame, Halt, MOST_PLACES, Refusal, Run, Tally, Value, Vm};
use program::order::stores_ok;
use run_arms::{Fixed, Going};
use value::words::{exact_value, last_in, last_kind, last_payload, value_of};

// ---- a machine that has not run, and judging

// No run is under way.
fn no_run() -> Run
    ensures { result ≡ no_run }
{
    Run {
        on: false,
        given: 0,
        spent: 0,
        returns: 0,
        mark: 0,
        saved: 0,
    }
}

// A machine that has not run: an empty stack, no last result, one frame.
pub fn fresh_vm(c: Counts) -> Vm
    ensures { result ≡ fresh c }
{
    Vm {
        program: c,
        stack: 0,
        frames: 1,
        cells: 0,
        last: None,
        run: no_run(),
        strict: false,
    }
}

// The taken cells: within their store, in exact words, blocks one behind the other.
fn cells_ok(texts: usize, used: usize, cells: &[u64]) -> bool
    ensures { result ≡ cells_ok texts used cells.now }
{
    if room(cells.len(), 2) < used {
        return false;
    }
    good_cells(texts, cells, used)
}

// The value in slot i of the stack: in exact words, and placed in the cells.
fn slot_ok(texts: usize, used: usize, cells: &[u64], stack: &[u64], i: usize) -> bool
    requires { 2 * used ≤ length cells.now }
    ensures { result ≡ exact_value (kind_at stack.now i) (payload_at stack.now i) && placed_below texts (heap_of used cells.now) (length (heap_of used cells.now)) (value_at stack.now i) }
{
    let kind = first(stack, i);
    let payload = second(stack, i);
    let v = value_of(kind, payload);
    exact_value(kind, payload) & placed(v, texts, cells, used)
}

// The stack: within its store, every value as it must be.
fn stack_ok(texts: usize, used: usize, cells: &[u64], n: usize, stack: &[u64]) -> bool
    requires { 2 * used ≤ length cells.now }
    ensures { result ≡ stack_ok texts (heap_of used cells.now) n stack.now }
{
    n <= room(stack.len(), 2) && (0..n).all(|i| slot_ok(texts, used, cells, stack, i))
}

// The last result, if there is one: placed in the cells.
fn last_ok(texts: usize, used: usize, cells: &[u64], last: Option<Value>) -> bool
    requires { 2 * used ≤ length cells.now }
    ensures { result ≡ last_ok texts (heap_of used cells.now) last }
{
    match last {
        None => true,
        Some(v) => placed(v, texts, cells, used),
    }
}

// Cells, a stack of n values over them, and a last result.
fn values_ok(
    texts: usize,
    used: usize,
    cells: &[u64],
    n: usize,
    stack: &[u64],
    last: Option<Value>,
) -> bool
    ensures { result ≡ values_ok texts used cells.now n stack.now last }
{
    let exact = cells_ok(texts, used, cells);
    if !exact {
        return false;
    }
    let good = stack_ok(texts, used, cells, n, stack);
    let stands = last_ok(texts, used, cells, last);
    good & stands
}

// The good order that a run judges, but for the frames and the run that is under way.
pub fn judge(m: Vm, stores: &ProgramStores, stack: &[u64], cells: &[u64]) -> bool
    ensures { result ≡ rest_order m (stores_in stores.now) stack.now cells.now }
{
    let c = m.program;
    stores_ok(c, stores) && values_ok(c.text, m.cells, cells, m.stack, stack, m.last)
}

// A machine with no run under way has one form of it.
fn is_idle(r: Run) -> bool
    ensures { result ≡ idle r }
{
    (r.given == 0) & (r.spent == 0) & (r.returns == 0) & (r.mark == 0) & (r.saved == 0)
}

// Whether there is a last result.
fn some_last(last: Option<Value>) -> bool
    ensures { result ≡ some_last last }
{
    last.is_some()
}

// The counts of a run under way: no more units spent than given, a unit and a last result for each root Return, a mark within the cells, a copy within the
// stack's places.
fn counts_ok(r: Run, last: Option<Value>, cells: usize, slots: usize) -> bool
    ensures { result ≡ counts_by r last cells slots }
{
    let some = some_last(last);
    let answered = (r.returns == 0) | some;
    (r.spent <= r.given)
        & (r.returns <= r.spent)
        & answered
        & (r.mark <= cells)
        & (r.saved <= slots)
}

// The good order of the run that is under way, if one is, in the frame f: its counts, what abandoning it would leave, that the frame was entered at no
// more units than are spent, and that it stands before an instruction. The stack has this many places.
pub fn part_ok(
    m: Vm,
    f: Frame,
    slots: usize,
    functions: &[u64],
    cells: &[u64],
    copy: &[u64],
) -> bool
    ensures { result ≡ part_by m f slots functions.now cells.now copy.now }
{
    let run = m.run;
    let on = run.on;
    if on {
        let last = m.last;
        let counts = counts_ok(run, last, m.cells, slots);
        if !counts {
            return false;
        }
        let kept = values_ok(m.program.text, run.mark, cells, run.saved, copy, last);
        let end = size_of(second(functions, f.function));
        return kept & (f.entered <= run.spent) & (f.position < end);
    }
    is_idle(run)
}

// ---- why a call of a run is refused; good is whether all is in good order, and the stores are judged by their lengths

// Whether the copy store is shorter than the stack store.
fn copy_short(stack: usize, copy: usize) -> bool
    ensures { (l : Lent) → length l.stack ≡ stack → length l.copy ≡ copy → result ≡ copy_short l }
{
    room(copy, 2) < room(stack, 2)
}

// Whether the backtrace store is shorter than the frame store.
fn trace_short(frames: usize, backtrace: usize) -> bool
    ensures { (l : Lent) → length l.frames ≡ frames → length l.backtrace ≡ backtrace → result ≡ trace_short l }
{
    room(backtrace, 3) < lesser(frames, MOST_PLACES)
}

// Beginning: a run may not be under way.
pub fn may_begin(good: bool, m: Vm, stack: usize, copy: usize) -> Result<(), Refusal>
    ensures { (s : Stores) (l : Lent) → good ≡ run_order m s l → length l.stack ≡ stack → length l.copy ≡ copy → answer_number result ≡ refusal_of (run_answer begins m s l) }
{
    if !good {
        return Err(Refusal::NotInOrder);
    }
    if m.run.on {
        return Err(Refusal::RunUnderWay);
    }
    if copy_short(stack, copy) {
        return Err(Refusal::ResultTooShort);
    }
    Ok(())
}

// Abandoning: a run must be under way.
pub fn may_abandon(good: bool, m: Vm, frames: usize, backtrace: usize) -> Result<(), Refusal>
    ensures { (s : Stores) (l : Lent) → good ≡ run_order m s l → length l.frames ≡ frames → length l.backtrace ≡ backtrace → answer_number result ≡ refusal_of (run_answer abandons m s l) }
{
    if !good {
        return Err(Refusal::NotInOrder);
    }
    if !m.run.on {
        return Err(Refusal::NoRunUnderWay);
    }
    if trace_short(frames, backtrace) {
        return Err(Refusal::ResultTooShort);
    }
    Ok(())
}

// Continuing: as for abandoning, and the units given in all may not pass 64 bits.
pub fn may_continue(
    good: bool,
    m: Vm,
    units: u64,
    frames: usize,
    backtrace: usize,
) -> Result<(), Refusal>
    ensures { (s : Stores) (l : Lent) → good ≡ run_order m s l → length l.frames ≡ frames → length l.backtrace ≡ backtrace → answer_number result ≡ refusal_of (run_answer (continues units) m s l) }
{
    may_abandon(good, m, frames, backtrace)?;
    let most = u64::MAX - m.run.given;
    if most < units {
        return Err(Refusal::OverLimit);
    }
    Ok(())
}

// The machine with this setting, where its order is good and no run is under way.
pub fn set_to(good: bool, m: Vm, strict: bool) -> Result<Vm, Refusal>
    ensures { result ≡ set_by good m strict }
{
    if !good {
        return Err(Refusal::NotInOrder);
    }
    let running = m.run.on;
    if running {
        return Err(Refusal::RunUnderWay);
    }
    Ok(Vm { strict, ..m })
}

// ---- copying, and the loop's start

// The first n values of one store at the front of another: the starting stack is kept, and put back. (As `put_bytes` of layout, a loop: no memmove.)
pub fn copy_front(n: usize, from: &[u64], to: &mut [u64])
    requires { (2 * n ≤ length from.now) × (2 * n ≤ length to.old) }
    ensures { to.new ≡ written to.old 0 (take (2 * n) from.now) }
{
    for i in 0..2 * n {
        to[i] = from[i];
    }
}

// What no step changes, in a run that was given this many units in all; stack and frames are the lengths of their stores.
pub fn fixed(m: Vm, given: u64, stack: usize, frames: usize) -> Fixed
    ensures { FixedPost m given stack frames result }
{
    let c = m.program;
    Fixed {
        constants: c.constants,
        structs: c.structs,
        functions: c.functions,
        slots: room(stack, 2),
        frames: lesser(frames, MOST_PLACES),
        given,
        strict: m.strict,
    }
}

// Where the innermost of n frames stands in their store.
pub fn innermost_at(n: usize) -> usize
    ensures { result ≡ n - 1 }
{
    n.saturating_sub(1)
}

// The machine where its run goes on, in the frame f and with this many units spent.
fn going(m: Vm, f: Frame, spent: u64) -> Going
    ensures { Begun m f spent result }
{
    let last = m.last;
    let run = m.run;
    Going {
        sp: m.stack,
        function: f.function,
        position: f.position,
        base: f.base,
        callers: innermost_at(m.frames),
        used: m.cells,
        spent,
        kind: last_kind(last),
        payload: last_payload(last),
        mark: run.mark,
        returns: run.returns,
    }
}

// A run that goes on: what it has spent stays spent.
pub fn resumed(m: Vm, f: Frame) -> Going
    ensures { Begun m f m.run.spent result }
{
    let run = m.run;
    going(m, f, run.spent)
}

// The units that the run was given in all, with these.
pub fn all_given(m: Vm, units: u64) -> u64
    requires { m.run.given + units < 2 ^ 64 }
    ensures { result ≡ m.run.given + units }
{
    m.run.given + units
}

// Where a run is cut that is abandoned: before an instruction that was not fetched; but a comparison that units are left for was, and lacks units for its
// pairs.
pub fn cut_frame(m: Vm, f: Frame) -> Frame
    requires { f.position ≤ 131070 }
    ensures { result ≡ cut_frame m f }
{
    let run = m.run;
    if run.given <= run.spent {
        return f;
    }
    let behind = f.position + 1;
    Frame {
        position: behind,
        ..f
    }
}

// A run that is abandoned in the frame f: all the units that it was given count as spent.
pub fn abandoned(m: Vm, f: Frame) -> Going
    ensures { Begun m f m.run.given result }
{
    let run = m.run;
    going(m, f, run.given)
}

// ---- what a part leaves and answers

// A machine over the same program, of the same setting, with no run under way, with these counts and this last result.
fn vm_with(m: Vm, stack: usize, frames: usize, cells: usize, last: Option<Value>) -> Vm
    ensures { result ≡ vm_with m stack frames cells last }
{
    let c = m.program;
    let run = no_run();
    let strict = m.strict;
    Vm {
        program: c,
        stack,
        frames,
        cells,
        last,
        run,
        strict,
    }
}

// A beginning, in the frame f: a run at its end is over at once, and any other is under way and paused before its first instruction.
pub fn begun(m: Vm, f: Frame, functions: &[u64]) -> Halt
    ensures { result ≡ begun_with m f functions.now }
{
    let end = size_of(second(functions, f.function));
    if end <= f.position {
        let last = m.last;
        let left = vm_with(m, m.stack, m.frames, m.cells, last);
        let did = Tally {
            spent: 0,
            returns: 0,
        };
        return Halt::Continue(left, did);
    }
    let run = Run {
        on: true,
        given: 0,
        spent: 0,
        returns: 0,
        mark: m.cells,
        saved: m.stack,
    };
    Halt::Paused(Vm { run, ..m })
}

// What a run did: how many units it spent, and the root Returns that it completed.
fn tally(g: Going) -> Tally
    ensures { result ≡ tally_of g }
{
    Tally {
        spent: g.spent,
        returns: g.returns,
    }
}

// What a run answers that has ended: the value of its last root Return, or "continue".
fn ended(m: Vm, g: Going) -> Halt
    requires { (g.callers < 2 ^ 32) × Answerable g }
    ensures { result ≡ ended_with m g }
{
    let last = last_in(g.kind, g.payload);
    let left = vm_with(m, g.sp, g.callers + 1, g.used, last);
    let did = tally(g);
    let returns = g.returns;
    if returns == 0 {
        return Halt::Continue(left, did);
    }
    let v = value_of(g.kind, g.payload);
    Halt::Value(left, v, did)
}

// What a run answers that is paused, of the units it was given in all: it is under way, as far as it has come.
fn paused(m: Vm, given: u64, g: Going) -> Halt
    requires { g.callers < 2 ^ 32 }
    ensures { result ≡ paused_with m given g }
{
    let c = m.program;
    let last = last_in(g.kind, g.payload);
    let frames = g.callers + 1;
    let spent = g.spent;
    let run = Run {
        on: true,
        given,
        spent,
        returns: g.returns,
        mark: g.mark,
        saved: m.run.saved,
    };
    Halt::Paused(Vm {
        program: c,
        stack: g.sp,
        frames,
        cells: g.used,
        last,
        run,
        strict: m.strict,
    })
}

// What a run answers that no fault has stopped: it has ended, or it is paused.
pub fn settled(m: Vm, given: u64, g: Going, is_paused: bool) -> Halt
    requires { (g.callers < 2 ^ 32) × Answerable g }
    ensures { result ≡ settled_with m given g is_paused }
{
    if is_paused {
        paused(m, given, g)
    } else {
        ended(m, g)
    }
}

// What a run answers that has faulted: the stack of the start, one frame, and the mark's cells and last result.
pub fn faulted(m: Vm, g: Going, fault: u8) -> Halt
    requires { g.callers < 2 ^ 32 }
    ensures { result ≡ faulted_with m g fault }
{
    let last = last_in(g.kind, g.payload);
    let left = vm_with(m, m.run.saved, 1, g.mark, last);
    let did = tally(g);
    let traced = g.callers + 1;
    Halt::Fault(left, fault, did, traced)
}

// The one frame that recovery and loading leave: main's, at this position; it was entered when no unit was spent.
pub fn root_frame(position: usize) -> Frame
    ensures { result ≡ root position }
{
    Frame {
        function: 0,
        position,
        base: 0,
        entered: 0,
    }
}

// The frame that a fault leaves: main's, at the end of its code.
pub fn root_at(functions: &[u64]) -> Frame
    ensures { result ≡ root (size (code_word functions.now 0)) }
{
    let end = size_of(second(functions, 0));
    root_frame(end)
}
