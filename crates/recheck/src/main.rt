// Reads the oracle's records of checked images from standard input, up to its end, and says where the check answers something else.
#![tactic(auto)]

ghost use Rattle.std.specs.Prelude.{◌≡◌, ◌≤◌, length};
ghost use Rattle.records.specs.Reading.{RecordRead};
ghost use Rattle.recheck.specs.Parts.{ends_of, bytes_of, Agrees, AgreesAt, Judged};

use check_report::check_facts;
use layout::reads::same_bytes;
use records::{Stop, count, read_head, read_parts, say_total, size_at};
use std::io;

// Where each of a record's two parts ends: the text stands behind the image.
// What a record has is this program's own, so these names do not stand in `records`.
#[derive(Clone, Copy)]
struct Ends {
    image: usize,
    text: usize,
}

// The two lengths in front of a record.
fn ends_of(h: [u8; 8]) -> Ends
    ensures value { result ≡ ends_of h }
    ensures image_le_text { result.image ≤ result.text }
{
    let image = size_at(&h, 0);
    let text = image + size_at(&h, 4);
    Ends { image, text }
}

// Whether these are the facts of an image's check, which always fit.
fn agrees(image: &[u8], want: &[u8]) -> bool
    ensures { Agrees image.now want.now result }
{
    let mut out = [0u8; 16480];
    let n = check_facts(image, &mut out);
    same_bytes(&out[..n], want)
}

// Says that record `at` differs.
fn say(rt: &impl Print, at: u64) {
    let _ = println!(rt; "record {at}: the check differs");
}

// Whether the parts of record `at` agree; it is said where they do not.
fn judged(rt: &impl Print, at: u64, body: &[u8], e: Ends) -> bool
    requires { (e.image ≤ e.text) × (e.text ≤ length body.now) }
    ensures { AgreesAt e body.now result }
{
    let same = agrees(&body[..e.image], &body[e.image..e.text]);
    if !same {
        say(rt, at);
    }
    same
}

// Reads record `at`, the two lengths into head and its parts into body, and judges it: whether it agrees.
fn next(
    rt: &(impl io::Input + Print),
    at: u64,
    head: &mut [u8; 8],
    body: &mut [u8; 65536],
) -> Result<bool, Stop>
    ensures { RecordRead bytes_of Judged head.new body.old body.new result }
{
    read_head(rt, head)?;
    let e = ends_of(*head);
    read_parts(rt, body, e.text)?;
    Ok(judged(rt, at, body, e))
}

fn main(rt: HostRuntime) {
    let mut head = [0u8; 8];
    let mut body = [0u8; 65536];
    let all = count(&rt, |at| next(&rt, at, &mut head, &mut body));
    say_total(&rt, all);
}
