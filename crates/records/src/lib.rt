// A record of the oracle: lengths of four bytes each, and behind them parts of these lengths. Records are read from standard input, each is
// judged, and those that differ are counted.
#![tactic(auto)]

ghost use Rattle.std.specs.Prelude.{◌≡◌, ◌+◌, ◌≤◌, length};
ghost use Rattle.records.specs.Reading.{size_at, HeadRead, came_of, PartsRead};
ghost use Rattle.records.specs.Counting.{Counted, Ended};

use std::io;
use streams::read_full;

// Why there is no record to go on with: there is none; or the input ends inside it, or it is longer than any record of an image that is read.
#[derive(Clone, Copy)]
pub enum Stop {
    Over,
    Cut,
}

// How many records were judged, and how many of them differ.
#[derive(Clone, Copy)]
pub struct Tally {
    pub cases: u64,
    pub differences: u64,
}

// The length at i: four bytes, low byte first.
pub fn size_at(head: &[u8], i: usize) -> usize
    requires { i + 4 ≤ length head.now }
    ensures value { result ≡ size_at head.now i }
    ensures upper_bound { result ≤ 4294967295 }
{
    u32::from_le_bytes([head[i], head[i + 1], head[i + 2], head[i + 3]]) as usize
}

// What it means that `had` bytes came of lengths that take n.
fn came(had: usize, n: usize) -> Result<(), Stop>
    ensures { result ≡ came_of had n }
{
    if had == 0 {
        return Err(Stop::Over);
    }
    if had < n {
        return Err(Stop::Cut);
    }
    Ok(())
}

// Reads a record's lengths.
pub fn read_head(rt: &impl io::Input, head: &mut [u8]) -> Result<(), Stop>
    ensures { HeadRead head.new result }
{
    let n = head.len();
    came(read_full(&mut rt.reader(), head), n)
}

// Reads a record's parts, which take n bytes, to the front of body.
pub fn read_parts(rt: &impl io::Input, body: &mut [u8], n: usize) -> Result<(), Stop>
    ensures { PartsRead n body.old body.new result }
{
    if body.len() < n {
        return Err(Stop::Cut);
    }
    if read_full(&mut rt.reader(), &mut body[..n]) < n {
        return Err(Stop::Cut);
    }
    Ok(())
}

// Says that a record ends too early.
fn say_cut(rt: &impl Print) {
    let _ = println!(rt; "a record is cut short");
}

// Says how many records were read and how many of them differ.
pub fn say_total(rt: &impl Print, all: Tally) {
    let _ = println!(rt; "{} cases, {} differences", all.cases, all.differences);
}

// Counts the records that `next` reads and judges, each by its number, until there is none to go on with: next answers whether a record agrees.
pub fn count<F: FnMut(u64) -> Result<bool, Stop>>(rt: &impl Print, mut next: F) -> Tally
    requires { F.IsAlwaysCallable next }
    ensures counted { (last : F) × Counted F.FnMut next result last }
    ensures ended { Ended F.FnMut next result }
{
    let mut all = Tally {
        cases: 0,
        differences: 0,
    };
    // no for: the input says where it ends
    while all.cases < u64::MAX {
        match next(all.cases) {
            Ok(agrees) => {
                all.cases += 1;
                all.differences += u64::from(!agrees);
            }
            Err(stop) => {
                if let Stop::Cut = stop {
                    say_cut(rt);
                }
                return all;
            }
        }
    }
    all
}
