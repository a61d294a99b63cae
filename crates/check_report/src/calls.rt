// What is said of a function that is called with different numbers of arguments: two Calls of it.
ghost use Rattle.std.specs.Prelude.{◌+◌, ◌<◌, ◌^◌};
ghost use Rattle.printing.specs.Links.{Put};
ghost use Rattle.check_report.specs.Details.{called_words};
ghost use Rattle.check_report.specs.Links.{CalledPost, CountsPost};

use check_code::second_at;
use check_places::{CallSite, first_call};
use check_rules::{Rule, rule_number};
use listing::code_of;
use model::Counts;
use printing::put_count;

// The first Call of f in n functions that passes something other than k; any Call of f will do where `any` says so.
fn first_called<'a>(
    f: usize,
    any: bool,
    k: usize,
    n: usize,
    functions: &[u64],
    main: &'a [u8],
    other: &'a [u8],
) -> Option<CallSite>
    ensures { CalledPost f any k n functions.now main.now other.now result }
{
    for g in 0..n {
        let code = code_of(functions, main, other, g);
        let i = first_call(f, any, k, code);
        if i < code.len() {
            let count = second_at(code, i);
            return Some(CallSite {
                function: g,
                position: i,
                count,
            });
        }
    }
    None
}

// A Call.
fn put_called(x: Option<CallSite>, out: &mut [u8], at: usize) -> usize
    requires { at + 84 < 2 ^ 64 }
    ensures { Put 84 (called_words x) out.old at out.new result }
{
    match x {
        Some(call) => {
            let count = put_count(b", with ", call.count, out, at);
            let function = put_count(b" by function ", call.function, out, count);
            put_count(b" at ", call.position, out, function)
        }
        None => at,
    }
}

// Of rule 4 the first Call of function f, and the first that passes another count.
pub fn put_counts<'a>(
    q: Rule,
    f: usize,
    c: Counts,
    functions: &[u64],
    main: &'a [u8],
    other: &'a [u8],
    out: &mut [u8],
    at: usize,
) -> usize
    requires { at + 168 < 2 ^ 64 }
    ensures { CountsPost c functions.now main.now other.now q f out.old at out.new result }
{
    if rule_number(q) == 4 {
        let n = c.functions;
        let first = first_called(f, true, 0, n, functions, main, other);
        let taken = first.map_or(0, |call| call.count);
        let second = first_called(f, false, taken, n, functions, main, other);
        let next = put_called(first, out, at);
        return put_called(second, out, next);
    }
    at
}
