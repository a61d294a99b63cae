// What is printed: a line for each answer.
ghost use Rattle.std.specs.Prelude.{◌≡◌};
ghost use Rattle.console.specs.Said.{header_in, so_far, after_run, after_started, after_emitted, after_set, after_answer};

use console_emission::Emitted;
use console_frames::Answer;
use console_script::{front, stores};
use model::{Frame, Halt, Header, Refusal, Tally, Value, Vm};
use value::words;

pub fn say(rt: &impl Print, text: &[u8]) {
    let _ = rt.write_all(text);
}

pub fn say_number(rt: &impl Print, n: u64) {
    let _ = print!(rt; "{n}");
}

fn say_digit(rt: &impl Print, d: u64) {
    let n = d % 16;
    if n < 10 {
        say(rt, &[(48 + n) as u8]);
        return;
    }
    say(rt, &[(55 + n) as u8]);
}

// The digits of w from that of unit, a power of 16, on.
fn say_hex(rt: &impl Print, w: u64, unit: u64) {
    let mut u = unit;
    // From a high digit to the lowest, by sixteenths, so this is no `for`.
    while u > 0 {
        say_digit(rt, w / u);
        u /= 16;
    }
}

pub fn say_word(rt: &impl Print, w: u64) {
    say_hex(rt, w, 0x1000_0000_0000_0000);
}

pub fn say_byte(rt: &impl Print, b: u8) {
    say_hex(rt, b as u64, 16);
}

// Bytes in hex, and the end of the line.
pub fn say_bytes(rt: &impl Print, s: &[u8]) {
    for b in s {
        say_byte(rt, *b);
    }
    say(rt, b"\n");
}

// A text, and a number behind it.
pub fn say_count(rt: &impl Print, text: &[u8], n: usize) {
    say(rt, text);
    say_number(rt, n as u64);
}

// A line that is not understood.
pub fn say_unknown(rt: &impl Print, number: u64) {
    say(rt, b"? ");
    say_number(rt, number);
    say(rt, b"\n");
}

// A refusal.
pub fn say_refused(rt: &impl Print, e: Refusal) {
    say(rt, b"refused ");
    say_number(rt, e.number() as u64);
    say(rt, b"\n");
}

// The header at cell p; one of no elements where there is no such cell.
#[tactic(auto, unfolding(crate::specs::Said::header_in))]
fn header_at(cells: &[u64], p: usize) -> Header
    ensures { result ≡ header_in cells.now p }
{
    if p < cells.len() / 2 {
        return words::read_header(cells, p);
    }
    Header {
        count: 0,
        number: 0,
        depth: 0,
    }
}

pub fn say_value(rt: &impl Print, v: Value, cells: &[u64]) {
    match v {
        Value::Scalar(x) => {
            say(rt, b"scalar ");
            say_word(rt, words::to_word(x));
        }
        Value::Boolean(b) => {
            if b {
                say(rt, b"true");
            } else {
                say(rt, b"false");
            }
        }
        Value::String(_, n) => say_count(rt, b"string ", n as usize),
        Value::FunctionReference(_, n) => say_count(rt, b"function ", n as usize),
        Value::List(p) => {
            let h = header_at(cells, p as usize);
            say_count(rt, b"list ", h.count);
        }
        Value::StructInstance(p) => {
            let h = header_at(cells, p as usize);
            say_count(rt, b"struct ", h.number);
            say_count(rt, b" ", h.count);
        }
    }
}

// What a run leaves besides its answer.
fn say_left(rt: &impl Print, m: Vm, did: Tally) {
    say(rt, b", spent ");
    say_number(rt, did.spent);
    say(rt, b", returns ");
    say_number(rt, did.returns);
    say_count(rt, b", stack ", m.stack);
    say_count(rt, b", frames ", m.frames);
    say(rt, b"\n");
}

// Entry i of a backtrace.
fn say_entry(rt: &impl Print, i: usize, trace: &[u64]) {
    if i < trace.len() / 3 {
        let at = 3 * i;
        say_count(rt, b"at ", trace[at] as usize);
        say_count(rt, b" ", trace[at + 1] as usize);
        say_count(rt, b" ", trace[at + 2] as usize);
        say(rt, b"\n");
    }
}

fn say_entries(rt: &impl Print, n: usize, trace: &[u64]) {
    for i in 0..n {
        say_entry(rt, i, trace);
    }
}

// What a run that is under way has done so far.
#[tactic(auto, unfolding(crate::specs::Said::so_far))]
fn so_far(m: Vm) -> Tally
    ensures { result ≡ so_far m }
{
    let run = m.run;
    Tally {
        spent: run.spent,
        returns: run.returns,
    }
}

// What a call of a run answers; the machine is then as it says, or as it was.
#[tactic(auto, unfolding(crate::specs::Said::after_run))]
fn say_run(rt: &impl Print, m: Vm, r: Result<Halt, Refusal>, cells: &[u64], trace: &[u64]) -> Vm
    ensures { result ≡ after_run m r }
{
    match r {
        Ok(Halt::Value(left, v, did)) => {
            say(rt, b"value ");
            say_value(rt, v, cells);
            say_left(rt, left, did);
            left
        }
        Ok(Halt::Continue(left, did)) => {
            say(rt, b"continue");
            say_left(rt, left, did);
            left
        }
        Ok(Halt::Fault(left, n, did, entries)) => {
            say(rt, b"fault ");
            say_number(rt, n as u64);
            say_left(rt, left, did);
            say_entries(rt, entries, trace);
            left
        }
        Ok(Halt::Paused(left)) => {
            say(rt, b"paused");
            say_left(rt, left, so_far(left));
            left
        }
        Err(e) => {
            say_refused(rt, e);
            m
        }
    }
}

// A machine that is made, or the one that was.
#[tactic(auto, unfolding(crate::specs::Said::after_started))]
fn say_started(rt: &impl Print, m: Vm, s: Result<Vm, Refusal>) -> Vm
    ensures { result ≡ after_started m s }
{
    match s {
        Ok(made) => {
            say(rt, b"done\n");
            made
        }
        Err(Refusal::BrokenImage(at)) => {
            say_count(rt, b"broken ", at);
            say(rt, b"\n");
            m
        }
        Err(e) => {
            say_refused(rt, e);
            m
        }
    }
}

// A machine with another setting, or the one that was.
#[tactic(auto, unfolding(crate::specs::Said::after_set))]
fn say_set(rt: &impl Print, m: Vm, x: Result<Vm, Refusal>) -> Vm
    ensures { result ≡ after_set m x }
{
    match x {
        Ok(set) => {
            say(rt, b"done\n");
            set
        }
        Err(e) => {
            say_refused(rt, e);
            m
        }
    }
}

// What emission answers.
#[tactic(auto, unfolding(crate::specs::Said::after_emitted, console_damage::specs::Damage::with_program))]
pub fn say_emitted(rt: &impl Print, m: Vm, e: Emitted, number: u64) -> Vm
    ensures { result ≡ after_emitted m e }
{
    match e {
        None => {
            say_unknown(rt, number);
            m
        }
        Some(Ok((c, n))) => {
            say_count(rt, b"done ", n);
            say(rt, b"\n");
            Vm { program: c, ..m }
        }
        Some(Err(e)) => {
            say_refused(rt, e);
            m
        }
    }
}

// What an entry that only looks answers.
pub fn say_told(rt: &impl Print, t: Result<usize, Refusal>) {
    match t {
        Ok(n) => {
            say_count(rt, b"number ", n);
            say(rt, b"\n");
        }
        Err(e) => say_refused(rt, e),
    }
}

// What a reader answers: a value,
pub fn say_shown(rt: &impl Print, s: Result<Value, Refusal>, cells: &[u64]) {
    match s {
        Ok(v) => {
            say(rt, b"shown ");
            say_value(rt, v, cells);
            say(rt, b"\n");
        }
        Err(e) => say_refused(rt, e),
    }
}

// a header,
pub fn say_headed(rt: &impl Print, h: Result<Header, Refusal>) {
    match h {
        Ok(h) => {
            say_count(rt, b"header ", h.count);
            say_count(rt, b" ", h.number);
            say_count(rt, b" ", h.depth);
            say(rt, b"\n");
        }
        Err(e) => say_refused(rt, e),
    }
}

// or the bytes of a text, which lie at the front of space.
pub fn say_text(rt: &impl Print, t: Result<usize, Refusal>, space: &stores::Space) {
    match t {
        Ok(n) => {
            say_count(rt, b"text ", n);
            say(rt, b" ");
            say_bytes(rt, front(space, n));
        }
        Err(e) => say_refused(rt, e),
    }
}

// A backtrace, or its refusal; the machine is as it was.
fn say_trace(rt: &impl Print, m: Vm, t: Result<usize, Refusal>, trace: &[u64]) -> Vm
    ensures { result ≡ m }
{
    match t {
        Ok(n) => say_entries(rt, n, trace),
        Err(e) => say_refused(rt, e),
    }
    m
}

pub fn say_frame(rt: &impl Print, f: Frame) {
    say_count(rt, b"frame ", f.function);
    say_count(rt, b" ", f.position);
    say_count(rt, b" ", f.base);
    say_count(rt, b" ", f.entered as usize);
    say(rt, b"\n");
}

pub fn say_sum(rt: &impl Print, h: u64) {
    say(rt, b"sum ");
    say_word(rt, h);
    say(rt, b"\n");
}

// What a call over frames answers; the machine as it then is.
#[tactic(auto, unfolding(crate::specs::Said::after_answer))]
pub fn say_answer(rt: &impl Print, m: Vm, a: Answer, cells: &[u64], trace: &[u64]) -> Vm
    ensures { result ≡ after_answer m a }
{
    match a {
        Answer::Made(s) => say_started(rt, m, s),
        Answer::Ran(r) => say_run(rt, m, r, cells, trace),
        Answer::Traced(t) => say_trace(rt, m, t, trace),
        Answer::Set(x) => say_set(rt, m, x),
    }
}
