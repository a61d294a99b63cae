// Rule 6 of the check, for one function: each position that a path reaches has one height above the frame's base, and it suffices there.
// A table has a word for each position of the code: 0 where no path is known to come, else the height and one more.
#![tactic(auto)]

ghost use Rattle.std.specs.Prelude.{◌≡◌, true, suc, ◌≤◌, ◌<◌, length, get_or};
ghost use Rattle.check_rules.specs.Rules.{suffices, leads_on, is_jump, target_at};
ghost use Rattle.check_heights.specs.Answer.{HeightsPre, HeightsPost, FlawPost};
ghost use Rattle.check_heights.specs.Links.{Whole, popped_at, height_limit, AfterPre, AfterPost};
ghost use Rattle.check_heights.specs.Links.{SendPre, SendPost, EnterPre, EnterPost, VisitPre, VisitPost, TurnPre, TurnPost, prepared, ScanPre, ScanPost, finished, PassPost};

use check_code::{first_at, next_at, second_at};
use opcode::{popped, pushes};

// What breaks the rule: an instruction at a position that is reached with a height that does not suffice; a position that is reached with two heights; or
// the end of a function other than main, reached with a height.
#[derive(Clone, Copy)]
pub enum Flaw {
    Lacks(usize, u32),
    Differs(usize, u32, u32),
    Ends(u32),
}

// The opcodes that the rule names.
const GET_LOCAL: u8 = 3;

const JUMP_IF_FALSE: u8 = 26;

const JUMP: u8 = 27;

const RETURN: u8 = 37;

// All that the instruction at i pops.
fn popped_at(code: &[u8], i: usize) -> usize
    requires { Whole code.now i }
    ensures { result ≡ popped_at code.now i }
{
    let b = code[i];
    let first = first_at(code, i);
    let second = second_at(code, i);
    popped(b, first, second)
}

// Whether height h is enough for the instruction at i: for all that it pops, and for the slot that it reads.
fn suffices(code: &[u8], i: usize, h: u32) -> bool
    requires { Whole code.now i }
    ensures { result ≡ suffices code.now i h }
{
    let b = code[i];
    let takes = popped_at(code, i);
    let slot = first_at(code, i);
    let high = h as usize;
    (takes <= high) & ((b != GET_LOCAL) | (slot < high))
}

// The height behind the instruction at i.
fn height_after(code: &[u8], i: usize, h: u32) -> u32
    requires { AfterPre code.now i h }
    ensures { AfterPost code.now i h result }
{
    let b = code[i];
    let takes = popped_at(code, i);
    let gives = pushes(b);
    let left = h as usize - takes + gives;
    left as u32
}

// Whether the instruction at i leads on to the next one. A Return does in main alone.
fn leads_on(main: bool, code: &[u8], i: usize) -> bool
    requires { i < length code.now }
    ensures { result ≡ leads_on main code.now i }
{
    let b = code[i];
    (b != JUMP) & (main | (b != RETURN))
}

// Whether it jumps.
fn is_jump(code: &[u8], i: usize) -> bool
    requires { i < length code.now }
    ensures { result ≡ is_jump code.now i }
{
    let b = code[i];
    (b == JUMP_IF_FALSE) | (b == JUMP)
}

// Where it jumps to.
fn target_at(code: &[u8], i: usize) -> usize
    requires { Whole code.now i }
    ensures { result ≡ target_at code.now i }
{
    let next = next_at(code, i);
    let offset = first_at(code, i);
    next + offset
}

// Height g is put at position j, unless another is known there.
fn put(j: usize, g: u32, table: &mut [u32]) -> Result<(), Flaw>
    requires { (j < length table.old) × (g ≤ suc height_limit) }
    ensures { SendPost true j g table.old result table.new }
{
    let held = table[j];
    if held == 0 {
        table[j] = g + 1;
        return Ok(());
    }
    if held == g + 1 {
        return Ok(());
    }
    Err(Flaw::Differs(j, held - 1, g))
}

// The same, if go.
fn send(go: bool, j: usize, g: u32, table: &mut [u32]) -> Result<(), Flaw>
    requires { SendPre go j g table.old }
    ensures { SendPost go j g table.old result table.new }
{
    if go {
        return put(j, g, table);
    }
    Ok(())
}

// Height g is put wherever the instruction at i goes, unless another is known at one of these positions.
fn enter(main: bool, code: &[u8], i: usize, g: u32, table: &mut [u32]) -> Result<(), Flaw>
    requires { EnterPre code.now i g table.old }
    ensures { EnterPost main code.now i g table.old result table.new }
{
    let on = leads_on(main, code, i);
    let next = next_at(code, i);
    send(on, next, g, table)?;
    let jumps = is_jump(code, i);
    let target = target_at(code, i);
    send(jumps, target, g, table)
}

// The instruction at i, reached with height h, which may not be enough, or bring a second height to a position.
fn visit(main: bool, code: &[u8], i: usize, h: u32, table: &mut [u32]) -> Result<(), Flaw>
    requires { VisitPre code.now i h table.old }
    ensures { VisitPost main code.now i h table.old result table.new }
{
    let enough = suffices(code, i, h);
    if enough {
        let g = height_after(code, i, h);
        return enter(main, code, i, g, table);
    }
    Err(Flaw::Lacks(i, h))
}

// Position i: it is visited if a path has come to it. The greatest height so far is top.
fn turn(main: bool, code: &[u8], i: usize, top: u32, table: &mut [u32]) -> Result<u32, Flaw>
    requires { TurnPre code.now i table.old }
    ensures { TurnPost main code.now i top table.old result table.new }
{
    let known = table[i];
    if known == 0 {
        return Ok(top);
    }
    let h = known - 1;
    visit(main, code, i, h, table)?;
    Ok(top.max(h))
}

// The positions in order. Paths lead forwards alone, so that at its turn all heights of a position are known.
fn scan(main: bool, count: u32, code: &[u8], table: &mut [u32]) -> Result<u32, Flaw>
    requires { ScanPre main count code.now table.old }
    ensures { ScanPost main count code.now result table.new }
{
    let mut top = count;
    for i in 0..code.len() {
        top = turn(main, code, i, top, table)?;
    }
    Ok(top)
}

// The table in which only the start is known, with the count of arguments.
fn prepare(count: u32, table: &mut [u32])
    requires { (count < 65536) × (0 < length table.old) }
    ensures { table.new ≡ prepared count (length table.old) }
{
    table.fill(0);
    table[0] = count + 1;
}

// The end, at position n: a path may come to it in main alone.
fn finish(main: bool, top: u32, n: usize, table: &[u32]) -> Result<u32, Flaw>
    requires { n < length table.now }
    ensures { result ≡ finished main top (get_or table.now n 0) }
{
    let last = table[n];
    if last == 0 {
        return Ok(top);
    }
    if main {
        return Ok(top.max(last - 1));
    }
    Err(Flaw::Ends(last - 1))
}

// The pass over a table of which every word is cleared.
fn pass(main: bool, count: u32, code: &[u8], table: &mut [u32]) -> Result<u32, Flaw>
    requires { HeightsPre main count code.now table.old }
    ensures { PassPost main count code.now result }
{
    prepare(count, table);
    let top = scan(main, count, code, table)?;
    finish(main, top, code.len(), table)
}

// The greatest height of a function whose code is whole and whose jumps land, if each reached position has one height that suffices there.
// Of the table only the words of the code's positions are written, so the cost goes by the code.
pub fn heights(main: bool, count: u32, code: &[u8], table: &mut [u32]) -> Option<u32>
    requires { HeightsPre main count code.now table.old }
    ensures { HeightsPost main count code.now result }
{
    let n = code.len() + 1;
    pass(main, count, code, &mut table[..n]).ok()
}

// What breaks the rule in such a function, if anything does: `heights` and this are the two sides of one pass.
pub fn flaw_in(main: bool, count: u32, code: &[u8], table: &mut [u32]) -> Option<Flaw>
    requires { HeightsPre main count code.now table.old }
    ensures { FlawPost main count code.now result }
{
    let n = code.len() + 1;
    pass(main, count, code, &mut table[..n]).err()
}
