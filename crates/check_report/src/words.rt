// What the check answered, for people: a refusal's reason in one line.
ghost use Rattle.std.specs.Prelude.{◌+◌, ◌<◌, ◌^◌, length};
ghost use Rattle.printing.specs.Links.{Put};
ghost use Rattle.check_report.specs.Texts.{broken_words, refused_words, rule_words, breach_words, words_text};

use check_rules::{Rejected, Rule};
use model::{Counts, Refusal};
use printing::{put_count, put_text};

// Why an image was refused before its rules were looked at.
fn put_refused_words(why: Refusal, said: &[u8], out: &mut [u8], at: usize) -> usize
    requires { at + (128 + length said.now) < 2 ^ 64 }
    ensures { Put (128 + length said.now) (refused_words why said.now) out.old at out.new result }
{
    match why {
        Refusal::BrokenImage(i) => put_broken_words(i, said, out, at),
        Refusal::ResultTooShort => put_text(b"the image has more than 256 functions\n", out, at),
        Refusal::StoreFull => put_text(
            b"the image has more than the programs' stores hold; a host with larger stores may pass it\n",
            out,
            at,
        ),
        _ => put_text(
            b"the image is longer than 16,384 bytes, or has more than the limits allow\n",
            out,
            at,
        ),
    }
}

// How a rule is broken.
fn put_rule(q: Rule, out: &mut [u8], at: usize) -> usize
    requires { at + 96 < 2 ^ 64 }
    ensures { Put 96 (rule_words q) out.old at out.new result }
{
    match q {
        Rule::Instructions => put_text(b"not a row of whole carried instructions\n", out, at),
        Rule::Numbers => put_text(
            b"a constant, struct or function number is out of range\n",
            out,
            at,
        ),
        Rule::Calls => put_text(b"a CallCallable, or a Call of main\n", out, at),
        Rule::Counts => put_text(b"is called with different numbers of arguments\n", out, at),
        Rule::Jumps => put_text(b"a jump that does not land on an instruction\n", out, at),
        Rule::Heights => put_text(
            b"no one height at each place that is reached, too few values, or the end is passed\n",
            out,
            at,
        ),
    }
}

// Why the bytes are no image, and what is said of the item besides.
fn put_broken_words(i: usize, said: &[u8], out: &mut [u8], at: usize) -> usize
    requires { at + (128 + length said.now) < 2 ^ 64 }
    ensures { Put (128 + length said.now) (broken_words i said.now) out.old at out.new result }
{
    let item = put_count(
        b"the bytes are no rule image: the item at offset ",
        i,
        out,
        at,
    );
    let next = put_text(b" breaks a rule", out, item);
    let end = put_text(said, out, next);
    put_text(b"\n", out, end)
}

// Which function breaks a rule, what is said of it besides, and how.
fn put_breach_words(q: Rule, f: usize, said: &[u8], out: &mut [u8], at: usize) -> usize
    requires { at + (128 + length said.now) < 2 ^ 64 }
    ensures { Put (128 + length said.now) (breach_words q f said.now) out.old at out.new result }
{
    let number = put_count(b"function ", f, out, at);
    let next = put_text(said, out, number);
    let rule = put_text(b": ", out, next);
    put_rule(q, out, rule)
}

// A refusal in plain words; of what passed there is nothing to say.
pub fn put_words(answer: Result<Counts, Rejected>, said: &[u8], out: &mut [u8], at: usize) -> usize
    requires { at + (128 + length said.now) < 2 ^ 64 }
    ensures { Put (128 + length said.now) (words_text answer said.now) out.old at out.new result }
{
    match answer {
        Ok(_) => at,
        Err(Rejected::Refused(why)) => put_refused_words(why, said, out, at),
        Err(Rejected::Breaks(q, f)) => put_breach_words(q, f, said, out, at),
    }
}
