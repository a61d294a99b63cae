// What the checker prints, as bytes in a lent store: the facts for a program to read, and behind a refusal a line in plain words.
#![tactic(auto)]

mod calls; // calls.rt: two Calls of one function
mod details; // details.rt: the item or the function that breaks a rule
mod items; // items.rt: the item that breaks a rule of the image
mod facts; // facts.rt: the lines of facts
mod words; // words.rt: the line in plain words

ghost use Rattle.std.specs.Prelude.{◌≡◌, ◌+◌, ◌*◌, ◌≤◌, length};
ghost use Rattle.report_lines.specs.Links.{printed};
ghost use Rattle.printing.specs.Links.{Put};
ghost use Rattle.check_report.specs.Texts.{checked_text};
ghost use Rattle.check_report.specs.Links.{Tellable, Answers, Checks, Facts};

use crate::details::put_details;
use crate::facts::put_facts;
use crate::words::put_words;
use check_image::check;
use check_rules::Rejected;
use layout::reads::room;
use model::{Counts, Refusal};

// The facts, and the words behind them.
fn put_checked(
    answer: Result<Counts, Rejected>,
    said: &[u8],
    heights: &[u32],
    out: &mut [u8],
) -> usize
    requires { (Tellable answer heights.now) × (length said.now ≤ 384) }
    ensures { Put (608 + 64 * length heights.now) (checked_text answer said.now heights.now) out.old 0 out.new result }
{
    let next = put_facts(answer, heights, out);
    put_words(answer, said, out, next)
}

// An answer's text. It is measured first, with no room to write into.
fn print_checked(
    answer: Result<Counts, Rejected>,
    said: &[u8],
    heights: &[u32],
    out: &mut [u8],
) -> usize
    requires { (Tellable answer heights.now) × (length said.now ≤ 384) }
    ensures { record { count = result; out = out.new } ≡ printed (checked_text answer said.now heights.now) out.old }
{
    let none = 0;
    let len = put_checked(answer, said, heights, &mut out[..none]);
    if room(out.len(), 1) < len {
        return 0;
    }
    put_checked(answer, said, heights, out)
}

// An image of at most 16,384 bytes, checked in stores of its own.
fn check_alone(image: &[u8], heights: &mut [u32]) -> Result<Counts, Rejected>
    ensures { Answers image.now heights.old result heights.new }
{
    if 16384 < image.len() {
        return Err(Rejected::Refused(Refusal::OverLimit));
    }
    let mut constants = [0u64; 512];
    let mut structs = [0u64; 512];
    let mut functions = [0u64; 512];
    let mut text = [0u8; 16384];
    let mut main = [0u8; 8192];
    let mut main_places = [0u32; 8192];
    let mut other = [0u8; 8192];
    let mut other_places = [0u32; 8192];
    check(
        image,
        heights,
        &mut constants,
        &mut structs,
        &mut functions,
        &mut text,
        &mut main,
        &mut main_places,
        &mut other,
        &mut other_places,
    )
}

// The checker, with a place for the heights of 256 functions.
pub fn check_image(image: &[u8], out: &mut [u8]) -> usize
    ensures { Checks image.now out.old result out.new }
{
    let mut heights = [0u32; 256];
    let answer = check_alone(image, &mut heights);
    let mut said = [0u8; 384];
    let n = put_details(answer, image, &mut said);
    print_checked(answer, &said[..n], &heights, out)
}

// The facts alone, as far as there is room.
pub fn check_facts(image: &[u8], out: &mut [u8]) -> usize
    ensures { Facts image.now out.old result out.new }
{
    let mut heights = [0u32; 256];
    let answer = check_alone(image, &mut heights);
    put_facts(answer, &heights, out)
}
