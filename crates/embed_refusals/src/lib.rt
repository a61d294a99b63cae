// Why what crosses to a host in C is refused, and how that is ordered with the entry's own refusals.
#![tactic(auto)]

ghost use Rattle.std.specs.Prelude.{◌≡◌, eqb, if◌then◌else◌};
ghost use Rattle.embed_words.specs.Coding.{last_exact, record_ok, slices_refusal, value_refusal, under_way, out_refusal, at_entry, at_listing, crossed};

use layout::reads::word;
use model::Vm;
use value::words::exact_value;

// Whether the words of a last result are exact.
#[tactic(auto, unfolding(embed_words::specs::Coding::last_exact))]
fn last_exact(kind: u64, payload: u64) -> bool
    ensures { result ≡ last_exact kind payload }
{
    if kind == 7 {
        return payload == 0;
    }
    exact_value(kind, payload)
}

// Whether the words are a machine's record.
#[tactic(auto, unfolding(embed_words::specs::Coding::record_ok))]
pub fn record_ok(vm: &[u64]) -> bool
    ensures { result ≡ record_ok vm.now }
{
    17 <= vm.len() && last_exact(word(vm, 8), word(vm, 9)) && word(vm, 10) <= 1 && word(vm, 16) <= 1
}

// 19: no machine's record; 17: fewer than n words for the answer; or 0.
#[tactic(auto, unfolding(embed_words::specs::Coding::slices_refusal))]
pub fn slices_refusal(vm: &[u64], n: usize, answer: &[u64]) -> u32
    ensures { result ≡ slices_refusal vm.now n answer.now }
{
    if !record_ok(vm) {
        return 19;
    }
    if n <= answer.len() {
        return 0;
    }
    17
}

// The same where a value is handed in too: 19 where the words are not exactly a value's.
#[tactic(auto, unfolding(embed_words::specs::Coding::value_refusal))]
pub fn value_refusal(vm: &[u64], kind: u64, payload: u64, n: usize, answer: &[u64]) -> u32
    ensures { result ≡ value_refusal vm.now kind payload n answer.now }
{
    if exact_value(kind, payload) {
        return slices_refusal(vm, n, answer);
    }
    19
}

// Whether a machine with a run under way stands where a record is to be written.
#[tactic(auto, unfolding(embed_words::specs::Coding::under_way))]
fn under_way(vm: &[u64]) -> bool
    ensures { result ≡ under_way vm.now }
{
    17 <= vm.len() && word(vm, 10) == 1
}

// The same where the record is only written: 25 comes first.
#[tactic(auto, unfolding(embed_words::specs::Coding::out_refusal))]
pub fn out_refusal(vm: &[u64], n: usize, answer: &[u64]) -> u32
    ensures { result ≡ out_refusal vm.now n answer.now }
{
    if under_way(vm) {
        return 25;
    }
    if 17 <= vm.len() && n <= answer.len() {
        return 0;
    }
    17
}

// ---- their order with the entry's own

// The numbers of an entry itself that come before a short answer (17).
pub fn at_entry() -> [u8; 3]
    ensures { result ≡ at_entry }
{
    [19, 18, 25]
}

// The same of the listing.
pub fn at_listing() -> [u8; 3]
    ensures { result ≡ at_listing }
{
    [19, 1, 3]
}

// Why an entry is refused, which itself answers this number: a short answer gives way to one of `firsts`.
#[tactic(auto, unfolding(embed_words::specs::Coding::crossed))]
pub fn crossed(firsts: &[u8], why: u32, own: u8) -> u32
    ensures { result ≡ crossed firsts.now why own }
{
    if why == 17 && firsts.contains(&own) {
        return u32::from(own);
    }
    why
}

// The same where the entry's own judge has been asked: what comes behind good order is `behind`, or 0.
fn crossed_behind(why: u32, good: bool, behind: u8) -> u32
    ensures { result ≡ crossed at_entry why (if good then behind else 19) }
{
    let own = if good { behind } else { 19 };
    crossed(&at_entry(), why, own)
}

// Nothing that comes before a short answer.
pub fn crossed_order(why: u32, good: bool) -> u32
    ensures { result ≡ crossed at_entry why (if good then 0 else 19) }
{
    crossed_behind(why, good, 0)
}

// 25 of an entry that has no place while a run is under way.
pub fn crossed_running(why: u32, m: Vm, good: bool) -> u32
    ensures { result ≡ crossed at_entry why (if good then (if m.run.on then 25 else 0) else 19) }
{
    let running = if m.run.on { 25 } else { 0 };
    crossed_behind(why, good, running)
}

// 18 of an entry that has no place where none is. (Two numbers, each of the flag in one sense: handing both in would hide which is which.)
pub fn crossed_idle(why: u32, m: Vm, good: bool) -> u32
    ensures { result ≡ crossed at_entry why (if good then (if m.run.on then 0 else 18) else 19) }
{
    let idle = if m.run.on { 0 } else { 18 };
    crossed_behind(why, good, idle)
}

// How much of a result store the entry is lent: nothing where it is refused, so that it writes nothing.
pub fn lent_room(why: u32, size: usize) -> usize
    ensures { result ≡ (if eqb why 0 then size else 0) }
{
    if why == 0 {
        return size;
    }
    0
}
