// Where a function's code breaks a rule of the check.
#![tactic(auto)]

ghost use Rattle.std.specs.Prelude.{◌≡◌, ◌≤◌, ◌<◌, length};
ghost use Rattle.check_code.specs.Links.{Marked};
ghost use Rattle.check_places.specs.Places.{KeepsOne, PlacePost};
ghost use Rattle.check_places.specs.Calls.{calls_other, call_in};

use check_code::{call_at, first_at, jump_at, mark, next_at, numbers_at, second_at, whole_at};
use check_rules::Rule;
use model::Counts;

// Does the instruction at i keep the rule? Rules 4 and 6 are not broken by an instruction alone.
fn keeps_at(q: Rule, main: bool, code: &[u8], i: usize, c: Counts, marks: &[u32]) -> bool
    requires { (i < length code.now) × (length code.now ≤ length marks.now) × (Marked code.now marks.now) }
    ensures { KeepsOne c.constants c.structs c.functions q main code.now i result }
{
    match q {
        Rule::Instructions => whole_at(code, i),
        Rule::Numbers => numbers_at(code, i, c.constants, c.structs, c.functions),
        Rule::Calls => call_at(code, i),
        Rule::Counts => true,
        Rule::Jumps => jump_at(main, code, i, marks),
        Rule::Heights => true,
    }
}

// Where the first instruction stands that breaks the rule, or the code's length. The marks are the caller's, to be written over.
pub fn first_place(q: Rule, main: bool, code: &[u8], c: Counts, marks: &mut [u32]) -> usize
    requires { length code.now ≤ length marks.old }
    ensures { PlacePost c.constants c.structs c.functions q main code.now result }
{
    mark(code, marks);
    let mut i = 0;
    // Each step is as long as its instruction, so this is no `for`.
    while i < code.len() {
        if keeps_at(q, main, code, i, c, marks) {
            i = next_at(code, i);
        } else {
            return i;
        }
    }
    code.len()
}

// ---- rule 4: a Call, and where one stands

// The function that it stands in, where it stands there, and how many arguments it passes.
#[derive(Clone, Copy)]
pub struct CallSite {
    pub function: usize,
    pub position: usize,
    pub count: usize,
}

// The opcode of a Call.
const CALL: u8 = 28;

// Is the instruction at i a Call of f that passes something other than k? Any Call of f will do where `any` says so.
fn calls_other(f: usize, any: bool, k: usize, code: &[u8], i: usize) -> bool
    requires { i < length code.now }
    ensures { result ≡ calls_other f any k code.now i }
{
    let b = code[i];
    if b == CALL {
        let g = first_at(code, i);
        let n = second_at(code, i);
        return (g == f) & (any | (n != k));
    }
    false
}

// Where the first such Call stands, or the code's length.
pub fn first_call(f: usize, any: bool, k: usize, code: &[u8]) -> usize
    ensures { result ≡ call_in f any k code.now }
{
    let mut at = 0;
    // Each step is as long as its instruction, so this is no `for`.
    while at < code.len() {
        if calls_other(f, any, k, code, at) {
            return at;
        }
        at = next_at(code, at);
    }
    code.len()
}
