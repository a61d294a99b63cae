// A run as the runner prints it.
ghost use Rattle.std.specs.Prelude.{List, ◌++◌, ℕ, ◌+◌, ◌*◌, ◌≤◌, ◌<◌, ◌^◌, length};
ghost use Rattle.model.specs.declared.Frame.{Frame};
ghost use Rattle.model.specs.Answers.{refusal_number};
ghost use Rattle.model.specs.Basics.{ascii};
ghost use Rattle.model.specs.Heap.{heap_of};
ghost use Rattle.model.specs.Listings.{decimal};
ghost use Rattle.model.specs.Machines.{entries_in, answer_in};
ghost use Rattle.model.specs.Reports.{value_text, entry_lines, refused_line};
ghost use Rattle.report_lines.specs.Links.{Shows, answer_lines};
ghost use Rattle.printing.specs.Links.{Put};

use crate::values::put_value;
use model::{Halt, Refusal, Value};
use printing::{put_byte, put_count, put_line, put_text};

// The units spent, and how many values are on the stack.
fn put_spent(units: u64, stack: usize, out: &mut [u8], at: usize) -> usize
    requires { at + 54 < 2 ^ 64 }
    ensures { Put 54 (ascii "spent " ++ decimal units ++ ascii "\nstack " ++ decimal stack ++ ascii "\n") out.old at out.new result }
{
    let next = put_line(b"spent ", units as usize, out, at);
    put_line(b"stack ", stack, out, next)
}

// An entry of a backtrace: the function, the place, and the units at which the frame was entered.
fn put_entry(function: u64, place: u64, entered: u64, out: &mut [u8], at: usize) -> usize
    requires { at + 66 < 2 ^ 64 }
    ensures { Put 66 (ascii "at " ++ decimal function ++ ascii " " ++ decimal place ++ ascii " " ++ decimal entered ++ ascii "\n") out.old at out.new result }
{
    let behind = put_count(b"at ", function as usize, out, at);
    let next = put_count(b" ", place as usize, out, behind);
    put_line(b" ", entered as usize, out, next)
}

// The first n entries of a backtrace.
fn put_entries(n: usize, backtrace: &[u64], out: &mut [u8], at: usize) -> usize
    requires { (3 * n ≤ length backtrace.now) × (at + 66 * n < 2 ^ 64) }
    ensures { Put (66 * n) (entry_lines (entries_in n 0 backtrace.now)) out.old at out.new result }
{
    let mut next = at;
    for i in 0..n {
        let j = 3 * i;
        next = put_entry(backtrace[j], backtrace[j + 1], backtrace[j + 2], out, next);
    }
    next
}

// A refusal.
pub fn put_refused(why: Refusal, out: &mut [u8]) -> usize
    ensures { Put 29 (refused_line (refusal_number why)) out.old 0 out.new result }
{
    put_line(b"refused ", usize::from(why.number()), out, 0)
}

// A value's line.
fn put_answer(v: Value, cells: &[u64], used: usize, out: &mut [u8]) -> usize
    requires { 2 * used ≤ length cells.now }
    ensures { Put 71 (ascii "value " ++ value_text (heap_of used cells.now) v ++ ascii "\n") out.old 0 out.new result }
{
    let value = put_text(b"value ", out, 0);
    let end = put_value(v, cells, used, out, value);
    put_byte(b'\n', out, end)
}

// What a run answered, with the stores as it left them. A run that is paused has no lines yet.
pub fn put_report(
    r: Result<Halt, Refusal>,
    cells: &[u64],
    backtrace: &[u64],
    out: &mut [u8],
) -> usize
    requires { Shows r cells.now backtrace.now }
    ensures { (stack : List ℕ) (frames : List Frame) (copy : List ℕ) → Put (128 + 22 * length backtrace.now) (answer_lines (answer_in (record { stack = stack; cells = cells.now; frames = frames; copy = copy; backtrace = backtrace.now }) r)) out.old 0 out.new result }
{
    match r {
        Ok(Halt::Value(m, v, did)) => {
            let next = put_answer(v, cells, m.cells, out);
            put_spent(did.spent, m.stack, out, next)
        }
        Ok(Halt::Continue(m, did)) => {
            let next = put_text(b"continue\n", out, 0);
            put_spent(did.spent, m.stack, out, next)
        }
        Ok(Halt::Fault(m, k, did, j)) => {
            let spent = put_line(b"fault ", k as usize, out, 0);
            let next = put_spent(did.spent, m.stack, out, spent);
            put_entries(j, backtrace, out, next)
        }
        Ok(Halt::Paused(_)) => 0,
        Err(why) => put_refused(why, out),
    }
}
