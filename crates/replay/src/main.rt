// Reads the oracle's records from standard input, up to its end, and says where the port answers something else.
#![tactic(auto)]

ghost use Rattle.std.specs.Prelude.{◌≡◌, ◌≤◌, length};
ghost use Rattle.records.specs.Reading.{RecordRead};
ghost use Rattle.replay.specs.Parts.{ends_of, bytes_of, wanted, agreed, Judged};

use records::{Stop, count, read_head, read_parts, say_total, size_at};
use replay_judge::Verdict;
use std::io;

// Where each of a record's four parts ends: they stand one behind the other.
// What a record has is this program's own, so these names do not stand in `records`.
#[derive(Clone, Copy)]
struct Ends {
    image: usize,
    loading: usize,
    running: usize,
    listing: usize,
}

// The four lengths in front of a record.
fn ends_of(h: [u8; 16]) -> Ends
    ensures value { result ≡ ends_of h }
    ensures image_le_loading { (result.image ≤ result.loading) × (result.loading ≤ result.running) × (result.running ≤ result.listing) }
{
    let image = size_at(&h, 0);
    let loading = image + size_at(&h, 4);
    let running = loading + size_at(&h, 8);
    let listing = running + size_at(&h, 12);
    Ends {
        image,
        loading,
        running,
        listing,
    }
}

// The verdict on a record's parts.
#[tactic(auto, unfolding(crate::specs::Parts::wanted))]
fn judged(body: &[u8], e: Ends) -> Verdict
    requires { (e.image ≤ e.loading) × (e.loading ≤ e.running) × (e.running ≤ e.listing) × (e.listing ≤ length body.now) }
    ensures { result ≡ wanted body.now e }
{
    replay_judge::judge(
        &body[..e.image],
        &body[e.image..e.loading],
        &body[e.loading..e.running],
        &body[e.running..e.listing],
    )
}

// Says that a record differs.
fn say(rt: &impl Print, at: u64, what: &str) {
    let _ = println!(rt; "record {at}: {what} differs");
}

// Says what differs in record `at`, and answers whether nothing does.
#[tactic(auto, unfolding(crate::specs::Parts::agreed))]
fn report(rt: &impl Print, at: u64, v: Verdict) -> bool
    ensures { result ≡ agreed v }
{
    if !v.loading {
        say(rt, at, "loading");
    }
    if !v.saving {
        say(rt, at, "saving");
    }
    if !v.running {
        say(rt, at, "running");
    }
    if !v.listing {
        say(rt, at, "listing");
    }
    v.loading && v.saving && v.running && v.listing
}

// Reads record `at`, the four lengths into head and its parts into body, and judges it: whether it agrees.
fn next(
    rt: &(impl io::Input + Print),
    at: u64,
    head: &mut [u8; 16],
    body: &mut [u8; 524288],
) -> Result<bool, Stop>
    ensures { RecordRead bytes_of Judged head.new body.old body.new result }
{
    read_head(rt, head)?;
    let e = ends_of(*head);
    read_parts(rt, body, e.listing)?;
    Ok(report(rt, at, judged(body, e)))
}

fn main(rt: HostRuntime) {
    let mut head = [0u8; 16];
    let mut body = [0u8; 524288];
    let all = count(&rt, |at| next(&rt, at, &mut head, &mut body));
    say_total(&rt, all);
}
