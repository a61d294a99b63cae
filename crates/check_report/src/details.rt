// What is said of the function that breaks a rule: its name, and the first instruction that breaks it, or what its heights came upon.
ghost use Rattle.std.specs.Prelude.{◌++◌, ◌+◌, ◌≤◌, ◌<◌, ◌^◌, length, Err};
ghost use Rattle.model.specs.Basics.{ascii};
ghost use Rattle.model.specs.Listings.{decimal};
ghost use Rattle.printing.specs.Links.{Put};
ghost use Rattle.check_rules.specs.declared.Rejected.TheVariants as no;
ghost use Rattle.check_report.specs.Details.{operand_words, found_words, want_words, lacks_words, flaw_words, item_words};
ghost use Rattle.check_report.specs.Links.{FunctionPost, LoadedPost, FlawAsked, Said};

use crate::calls::put_counts;
use crate::items::put_item;
use check_code::{first_at, second_at};
use check_heights::Flaw;
use check_image::flaws::height_flaw;
use check_places::first_place;
use check_rules::{Rejected, Rule, rule_number};
use image_load::load;
use listing::code_of;
use model::{Counts, Refusal};
use notes::put_name_at;
use opcode::popped;
use printing::{put_count, put_text};

// The operand of the instruction at i; behind rule 1 alone it is there.
fn put_operand(q: Rule, code: &[u8], i: usize, out: &mut [u8], at: usize) -> usize
    requires { (i < length code.now) × (at + 30 < 2 ^ 64) }
    ensures { Put 30 (operand_words q code.now i) out.old at out.new result }
{
    if rule_number(q) == 1 {
        return at;
    }
    let n = first_at(code, i);
    put_count(b", operand ", n, out, at)
}

// The instruction at i, if there is one.
fn put_found(q: Rule, code: &[u8], i: usize, out: &mut [u8], at: usize) -> usize
    requires { at + 81 < 2 ^ 64 }
    ensures { Put 81 (found_words q code.now i) out.old at out.new result }
{
    if i < code.len() {
        let b = usize::from(code[i]);
        let place = put_count(b" at ", i, out, at);
        let byte = put_count(b", byte ", b, out, place);
        return put_operand(q, code, i, out, byte);
    }
    at
}

// The opcode whose first operand is a slot.
const GET_LOCAL: u8 = 3;

// What the instruction at i asks of a height.
fn put_want(code: &[u8], i: usize, out: &mut [u8], at: usize) -> usize
    requires { (i < length code.now) × (at + 27 < 2 ^ 64) }
    ensures { Put 27 (want_words code.now i) out.old at out.new result }
{
    let b = code[i];
    let first = first_at(code, i);
    if b == GET_LOCAL {
        return put_count(b", slot ", first, out, at);
    }
    let second = second_at(code, i);
    let takes = popped(b, first, second);
    put_count(b", pops ", takes, out, at)
}

// The instruction at i, reached with height h.
fn put_lacks(code: &[u8], i: usize, h: u32, out: &mut [u8], at: usize) -> usize
    requires { at + 80 < 2 ^ 64 }
    ensures { Put 80 (lacks_words code.now i h) out.old at out.new result }
{
    if i < code.len() {
        let place = put_count(b" at ", i, out, at);
        let height = put_count(b", height ", h as usize, out, place);
        return put_want(code, i, out, height);
    }
    at
}

// Position i, reached with two heights.
fn put_differs(i: usize, h: u32, k: u32, out: &mut [u8], at: usize) -> usize
    requires { at + 80 < 2 ^ 64 }
    ensures { Put 80 (ascii " at " ++ decimal i ++ ascii ", heights " ++ decimal h ++ ascii " and " ++ decimal k) out.old at out.new result }
{
    let place = put_count(b" at ", i, out, at);
    let first = put_count(b", heights ", h as usize, out, place);
    put_count(b" and ", k as usize, out, first)
}

// The end, at position n, reached with height h.
fn put_ends(n: usize, h: u32, out: &mut [u8], at: usize) -> usize
    requires { at + 80 < 2 ^ 64 }
    ensures { Put 80 (ascii " at " ++ decimal n ++ ascii ", the end, height " ++ decimal h) out.old at out.new result }
{
    let place = put_count(b" at ", n, out, at);
    put_count(b", the end, height ", h as usize, out, place)
}

// What the heights came upon.
fn put_flaw(x: Option<Flaw>, code: &[u8], out: &mut [u8], at: usize) -> usize
    requires { at + 80 < 2 ^ 64 }
    ensures { Put 80 (flaw_words x code.now) out.old at out.new result }
{
    match x {
        None => at,
        Some(Flaw::Lacks(i, h)) => put_lacks(code, i, h, out, at),
        Some(Flaw::Differs(i, h, k)) => put_differs(i, h, k, out, at),
        Some(Flaw::Ends(h)) => put_ends(code.len(), h, out, at),
    }
}

// Where a code breaks the rule: the instruction at i, if there is one, or what the heights came upon.
fn put_place(q: Rule, i: usize, x: Option<Flaw>, code: &[u8], out: &mut [u8], at: usize) -> usize
    requires { at + 161 < 2 ^ 64 }
    ensures { Put 161 (found_words q code.now i ++ flaw_words x code.now) out.old at out.new result }
{
    let found = put_found(q, code, i, out, at);
    put_flaw(x, code, out, found)
}

// Function f of a program: its name, where it breaks the rule, and of rule 4 the Calls that do.
fn put_function<'a>(
    q: Rule,
    f: usize,
    x: Option<Flaw>,
    c: Counts,
    functions: &[u64],
    text: &[u8],
    main: &'a [u8],
    other: &'a [u8],
    marks: &mut [u32],
    out: &mut [u8],
) -> usize
    requires { (length main.now ≤ length marks.old) × (length other.now ≤ length marks.old) }
    ensures { FunctionPost c functions.now text.now main.now other.now q f x out.old out.new result }
{
    if f < c.functions {
        let open = put_text(b" (", out, 0);
        let name = put_name_at(b"", c.functions, functions, text, f, out, open);
        let close = put_text(b")", out, name);
        let code = code_of(functions, main, other, f);
        let i = first_place(q, f == 0, code, c, marks);
        let place = put_place(q, i, x, code, out, close);
        return put_counts(q, f, c, functions, main, other, out, place);
    }
    0
}

// The function of what was loaded.
fn put_loaded<'a>(
    loaded: Result<Counts, Refusal>,
    q: Rule,
    f: usize,
    x: Option<Flaw>,
    functions: &[u64],
    text: &[u8],
    main: &'a [u8],
    other: &'a [u8],
    marks: &mut [u32],
    out: &mut [u8],
) -> usize
    requires { (length main.now ≤ length marks.old) × (length other.now ≤ length marks.old) }
    ensures { LoadedPost loaded functions.now text.now main.now other.now q f x out.old out.new result }
{
    match loaded {
        Ok(c) => put_function(q, f, x, c, functions, text, main, other, marks, out),
        Err(_) => 0,
    }
}

// What is asked of the heights: of rule 6 what breaks it.
fn flaw_for(q: Rule, f: usize, image: &[u8]) -> Option<Flaw>
    ensures { FlawAsked image.now (Err (no.Breaks q f)) result }
{
    match q {
        Rule::Heights => height_flaw(image, f),
        _ => None,
    }
}

// The function that breaks a rule. The image is loaded for it, in stores of its own: the check that refused it has written none.
fn put_breaking(q: Rule, f: usize, image: &[u8], out: &mut [u8]) -> usize
    ensures { Said image.now (Err (no.Breaks q f)) out.old out.new result }
{
    let mut constants = [0u64; 512];
    let mut structs = [0u64; 512];
    let mut functions = [0u64; 512];
    let mut text = [0u8; 16384];
    let mut main = [0u8; 8192];
    let mut main_places = [0u32; 8192];
    let mut other = [0u8; 8192];
    let mut other_places = [0u32; 8192];
    let mut marks = [0u32; 8192];
    let x = flaw_for(q, f, image);
    let loaded = load(
        image,
        &mut constants,
        &mut structs,
        &mut functions,
        &mut text,
        &mut main,
        &mut main_places,
        &mut other,
        &mut other_places,
    );
    put_loaded(
        loaded, q, f, x, &functions, &text, &main, &other, &mut marks, out,
    )
}

// Of bytes that are no image, the item that breaks a rule.
fn put_refused(why: Refusal, image: &[u8], out: &mut [u8]) -> usize
    ensures { Put 96 (item_words image.now why) out.old 0 out.new result }
{
    let Refusal::BrokenImage(o) = why else {
        return 0;
    };
    put_item(o, image, out)
}

// What is said besides: of bytes that are no image the item that breaks a rule, and of a function that breaks one where it does.
pub fn put_details(answer: Result<Counts, Rejected>, image: &[u8], out: &mut [u8]) -> usize
    ensures { Said image.now answer out.old out.new result }
{
    match answer {
        Ok(_) => 0,
        Err(Rejected::Refused(why)) => put_refused(why, image, out),
        Err(Rejected::Breaks(q, f)) => put_breaking(q, f, image, out),
    }
}
