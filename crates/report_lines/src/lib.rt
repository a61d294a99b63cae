// What the runner prints of a run, and a refusal, as bytes in a lent store.
#![tactic(auto)]

mod values; // values.rt: a value's line
mod runs; // runs.rt: a run's lines

ghost use Rattle.std.specs.Prelude.{◌≡◌, List, ℕ};
ghost use Rattle.model.specs.declared.Frame.{Frame};
ghost use Rattle.model.specs.Answers.{refusal_number};
ghost use Rattle.model.specs.Machines.{answer_in};
ghost use Rattle.model.specs.Reports.{refused_line};
ghost use Rattle.report_lines.specs.Links.{Shows, answer_lines, printed};

use crate::runs::{put_refused, put_report};
use layout::reads::room;
use model::{Halt, Refusal};

// A refusal. It is measured first, with no room to write into.
pub fn print_refused(why: Refusal, out: &mut [u8]) -> usize
    ensures { record { count = result; out = out.new } ≡ printed (refused_line (refusal_number why)) out.old }
{
    let len = put_refused(why, &mut out[..0]);
    if room(out.len(), 1) < len {
        return 0;
    }
    put_refused(why, out)
}

// What a run answered, with the stores as it left them. Likewise measured first.
pub fn print_report(
    r: Result<Halt, Refusal>,
    cells: &[u64],
    backtrace: &[u64],
    out: &mut [u8],
) -> usize
    requires { Shows r cells.now backtrace.now }
    ensures { (stack : List ℕ) (frames : List Frame) (copy : List ℕ) → record { count = result; out = out.new } ≡ printed (answer_lines (answer_in (record { stack = stack; cells = cells.now; frames = frames; copy = copy; backtrace = backtrace.now }) r)) out.old }
{
    let len = put_report(r, cells, backtrace, &mut out[..0]);
    if room(out.len(), 1) < len {
        return 0;
    }
    put_report(r, cells, backtrace, out)
}
