// The rules of the check, one after the other, each over all functions of an image that was judged.
ghost use Rattle.std.specs.Prelude.{◌≡◌, ◌-◌, ◌≤◌, ◌<◌, suc, Ok, length, replicate};
ghost use Rattle.image_codes.specs.Links.{Ready};
ghost use Rattle.check_rules.specs.Rules.{rule_number};
ghost use Rattle.check_image.specs.Links.{MayBeAsked, AnswersFor, TalliedPost, CountsPost, Measurable, MeasuredPost, BelowPost, LinksPost, FindingPost};

use check_code::{calls, jumps, numbers, tally, whole};
use check_heights::heights;
use check_rules::Rule;
use image_codes::code_at;
use image_judge::Sizes;

// One rule, where those before it are kept: `keeps` tells whether a function keeps it, by whether it is main, its code and marks to write over. The
// lowest function that breaks it is told.
fn keep_rule<F: Fn(bool, &[u8], &mut [u32]) -> bool>(
    rule: Rule,
    keeps: F,
    image: &[u8],
    z: Sizes,
    marks: &mut [u32],
) -> Result<(), (Rule, usize)>
    requires ready { Ready image.now z }
    requires earlier { BelowPost (rule_number rule) image.now (Ok tt) }
    requires room { 65536 ≤ length marks.old }
    requires callable { MayBeAsked (F.pre keeps) }
    requires meaning { AnswersFor rule z (F.post keeps) }
    ensures { BelowPost (suc (rule_number rule)) image.now result }
{
    let mut next = z.first;
    for f in 0..z.functions {
        let c = code_at(image, next, f == 0);
        let from = c.from;
        let end = from + c.size;
        if !keeps(f == 0, &image[from..end], marks) {
            return Err((rule, f));
        }
        next = c.next;
    }
    Ok(())
}

// All Calls entered into the tally.
pub fn tally_all(image: &[u8], z: Sizes, counts: &mut [u32])
    requires { (Ready image.now z) × (counts.old ≡ replicate 65536 0) }
    ensures { TalliedPost image.now counts.new }
{
    let mut next = z.first;
    for f in 0..z.functions {
        let c = code_at(image, next, f == 0);
        let from = c.from;
        let end = from + c.size;
        tally(&image[from..end], counts);
        next = c.next;
    }
}

// The lowest function whose Calls pass different counts, or how many functions there are.
fn lowest_count(n: usize, counts: &[u32]) -> usize
    requires { n ≤ length counts.now }
    ensures { CountsPost n counts.now result }
{
    counts[..n].iter().position(|c| *c == 1).unwrap_or(n)
}

// How many arguments a function is taken with, by its entry of the tally.
pub fn taken_with(entry: u32) -> u32
    ensures { result ≡ entry - 2 }
{
    if entry < 2 {
        return 0;
    }
    entry - 2
}

// Each function's greatest height in the place of its entry of the tally; the lowest function that breaks the rule of heights, or how many
// functions there are.
fn measure(image: &[u8], z: Sizes, counts: &mut [u32], table: &mut [u32]) -> usize
    requires { (Measurable image.now z counts.old) × (65536 ≤ length table.old) }
    ensures { MeasuredPost image.now counts.new result }
{
    let mut next = z.first;
    for f in 0..z.functions {
        let c = code_at(image, next, f == 0);
        let from = c.from;
        let end = from + c.size;
        let count = taken_with(counts[f]);
        let Some(m) = heights(f == 0, count, &image[from..end], table) else {
            return f;
        };
        counts[f] = m;
        next = c.next;
    }
    z.functions
}

// Rules 1 to 3, each of which an instruction keeps or breaks by itself.
fn keep_code(image: &[u8], z: Sizes, table: &mut [u32]) -> Result<(), (Rule, usize)>
    requires { (Ready image.now z) × (65536 ≤ length table.old) }
    ensures { BelowPost 4 image.now result }
{
    keep_rule(
        Rule::Instructions,
        |_, code, _| whole(code),
        image,
        z,
        table,
    )?;
    keep_rule(
        Rule::Numbers,
        |_, code, _| numbers(code, z.constants, z.structs, z.functions),
        image,
        z,
        table,
    )?;
    keep_rule(Rule::Calls, |_, code, _| calls(code), image, z, table)
}

// Rules 4 and 5, where those before them are kept. The tally is left in `counts`.
fn keep_links(
    image: &[u8],
    z: Sizes,
    counts: &mut [u32],
    table: &mut [u32],
) -> Result<(), (Rule, usize)>
    requires { (Ready image.now z) × (BelowPost 4 image.now (Ok tt)) × (counts.old ≡ replicate 65536 0) × (65536 ≤ length table.old) }
    ensures { LinksPost image.now z result counts.new }
{
    tally_all(image, z, counts);
    let differing = lowest_count(z.functions, counts);
    if differing < z.functions {
        return Err((Rule::Counts, differing));
    }
    keep_rule(Rule::Jumps, jumps, image, z, table)
}

// Rule 6, where those before it are kept. The greatest heights are left in the place of the tally.
fn keep_heights(
    image: &[u8],
    z: Sizes,
    counts: &mut [u32],
    table: &mut [u32],
) -> Result<(), (Rule, usize)>
    requires { (LinksPost image.now z (Ok tt) counts.old) × (65536 ≤ length table.old) }
    ensures { FindingPost image.now result counts.new }
{
    let uneven = measure(image, z, counts, table);
    if uneven < z.functions {
        return Err((Rule::Heights, uneven));
    }
    Ok(())
}

// All rules. The first that is broken is told; if there is none, the greatest heights are left in `greatest`.
pub fn keep_rules(
    image: &[u8],
    z: Sizes,
    greatest: &mut [u32],
    table: &mut [u32],
) -> Result<(), (Rule, usize)>
    requires { (Ready image.now z) × (greatest.old ≡ replicate 65536 0) × (65536 ≤ length table.old) }
    ensures { FindingPost image.now result greatest.new }
{
    keep_code(image, z, table)?;
    keep_links(image, z, greatest, table)?;
    keep_heights(image, z, greatest, table)
}
