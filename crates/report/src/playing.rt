// One run, by the three calls of a run, on call frames of its own.
ghost use Rattle.std.specs.Prelude.{◌≡◌};
ghost use Rattle.layout.specs.Lent.{stores_in};
ghost use Rattle.machine.specs.Links.{run_lent};
ghost use Rattle.report.specs.Links.{is_paused, paused_in, OneRun, PlayPost};

use layout::lent::ProgramStores;
use machine::{abandon, begin, continue_run};
use model::{Frame, Halt, Refusal, Vm};

// Whether a call has left a run paused.
#[tactic(auto, unfolding(crate::specs::Links::is_paused))]
fn is_paused(r: Result<Halt, Refusal>) -> bool
    ensures { result ≡ is_paused r }
{
    match r {
        Ok(Halt::Paused(_)) => true,
        _ => false,
    }
}

// The machine in which it is paused; m, which was called, where it is not.
#[tactic(auto, unfolding(crate::specs::Links::paused_in))]
fn paused_in(m: Vm, r: Result<Halt, Refusal>) -> Vm
    ensures { result ≡ paused_in m r }
{
    match r {
        Ok(Halt::Paused(k)) => k,
        _ => m,
    }
}

// It is begun, continued with `units`, and abandoned where it is paused.
fn one_run(
    m: Vm,
    units: u64,
    stores: &ProgramStores,
    stack: &mut [u64],
    cells: &mut [u64],
    frames: &mut [Frame],
    copy: &mut [u64],
    backtrace: &mut [u64],
) -> Result<Halt, Refusal>
    ensures { OneRun m units (stores_in stores.now) (run_lent stack.old cells.old frames.old copy.old backtrace.old) result (run_lent stack.new cells.new frames.new copy.new backtrace.new) }
{
    let begun = begin(m, stores, stack, cells, frames, copy);
    let paused = is_paused(begun);
    if paused {
        let k = paused_in(m, begun);
        let part = continue_run(k, units, stores, stack, cells, frames, copy, backtrace);
        let again = is_paused(part);
        if again {
            let last = paused_in(k, part);
            return abandon(last, stores, stack, cells, frames, copy, backtrace);
        }
        return part;
    }
    begun
}

// One run with `units` of a machine that has one frame: function 0, base 0, position 0.
pub fn play(
    m: Vm,
    units: u64,
    stores: &ProgramStores,
    stack: &mut [u64],
    cells: &mut [u64],
    copy: &mut [u64],
    backtrace: &mut [u64],
) -> Result<Halt, Refusal>
    ensures { PlayPost m units (stores_in stores.now) (λ frames. run_lent stack.old cells.old frames copy.old backtrace.old) result (λ frames. run_lent stack.new cells.new frames copy.new backtrace.new) }
{
    let first = Frame {
        function: 0,
        position: 0,
        base: 0,
        entered: 0,
    };
    let mut frames = [first; 256];
    one_run(m, units, stores, stack, cells, &mut frames, copy, backtrace)
}
