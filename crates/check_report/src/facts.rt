// What the check answered, as lines that a program can read.
ghost use Rattle.std.specs.Prelude.{◌+◌, ◌*◌, ◌≤◌, ◌<◌, ◌^◌, length};
ghost use Rattle.printing.specs.Links.{Put};
ghost use Rattle.check_report.specs.Texts.{height_line, height_lines, breach_line, refused_facts, facts_text};
ghost use Rattle.check_report.specs.Links.{Tellable};

use check_rules::{Rejected, Rule, rule_number};
use model::{Counts, Refusal};
use printing::{put_count, put_line, put_text};

// The greatest height of function f.
fn put_height(f: usize, height: u32, out: &mut [u8], at: usize) -> usize
    requires { at + 64 < 2 ^ 64 }
    ensures { Put 64 (height_line f height) out.old at out.new result }
{
    let next = put_count(b"height ", f, out, at);
    put_line(b" ", height as usize, out, next)
}

// The greatest heights of the first n functions.
fn put_heights(n: usize, heights: &[u32], out: &mut [u8], at: usize) -> usize
    requires { (n ≤ length heights.now) × (at + 64 * n < 2 ^ 64) }
    ensures { Put (64 * n) (height_lines n 0 heights.now) out.old at out.new result }
{
    let mut next = at;
    for f in 0..n {
        next = put_height(f, heights[f], out, next);
    }
    next
}

// Which rule is broken, and by which function.
fn put_breach(q: Rule, f: usize, out: &mut [u8]) -> usize
    ensures { Put 67 (breach_line q f) out.old 0 out.new result }
{
    let number = rule_number(q);
    let next = put_count(b"refused 40 rule ", number, out, 0);
    put_line(b" function ", f, out, next)
}

// Why the check refused an image before its rules were looked at.
fn put_refused(why: Refusal, out: &mut [u8]) -> usize
    ensures { Put 96 (refused_facts why) out.old 0 out.new result }
{
    match why {
        Refusal::BrokenImage(i) => put_line(b"refused 20 at ", i, out, 0),
        _ => put_line(b"refused ", usize::from(why.number()), out, 0),
    }
}

// What the check answered, with the heights as it left them.
pub fn put_facts(answer: Result<Counts, Rejected>, heights: &[u32], out: &mut [u8]) -> usize
    requires { Tellable answer heights.now }
    ensures { Put (96 + 64 * length heights.now) (facts_text answer heights.now) out.old 0 out.new result }
{
    match answer {
        Ok(c) => {
            let next = put_text(b"passed\n", out, 0);
            put_heights(c.functions, heights, out, next)
        }
        Err(Rejected::Refused(why)) => put_refused(why, out),
        Err(Rejected::Breaks(q, f)) => put_breach(q, f, out),
    }
}
