// The entries' answers as words in lent slices: what an entry tells a host in C.
#![tactic(auto)]

ghost use Rattle.std.specs.Prelude.{◌≡◌, List, [], ◌∷◌, ℕ, Result, Option, None, set};
ghost use Rattle.model.specs.Answers.{refusal_number};
ghost use Rattle.model.specs.Basics.{written};
ghost use Rattle.model.specs.Values.{kind, payload};
ghost use Rattle.model.specs.declared.Refusal.{Refusal};
ghost use Rattle.embed_words.specs.Coding.{Coded, at_entry, at_listing, broken_at, run_told, started_told, changed_told, unmade_told, emitted_coded, told_coded, shown_coded, headed_coded, through};
ghost use Rattle.embed_answers.specs.Telling.{words_told, words_coded, told_is, shown_is, headed_is};

use embed_refusals::{at_entry, at_listing, crossed};
use embed_words::{put, put_counts, put_vm};
use model::{Counts, Halt, Header, Refusal, Tally, Value, Vm, answer_number};
use value::words::{kind_of, payload_of};

// Why an entry refuses, as a host is told it: by a number; and, of an image that breaks a rule (20), by the offset.
pub trait Refuses: Copy {
    ghost number_of: { Self → ℕ };

    ghost offset_of: { Self → Option ℕ };

    fn told_number(self) -> u8
        ensures { result ≡ number_of self };

    fn told_offset(self) -> Option<usize>
        ensures { result ≡ offset_of self };
}

// An entry's own refusal.
impl Refuses for Refusal {
    ghost number_of = { refusal_number };

    ghost offset_of = { broken_at };

    fn told_number(self) -> u8 {
        self.number()
    }

    fn told_offset(self) -> Option<usize> {
        match self {
            Refusal::BrokenImage(i) => Some(i),
            _ => None,
        }
    }
}

// Any number by itself.
impl Refuses for u8 {
    ghost number_of = { λ n. n };

    ghost offset_of = { λ n. None };

    fn told_number(self) -> u8 {
        self
    }

    fn told_offset(self) -> Option<usize> {
        None
    }
}

// The number that a host is told, whatever it is.
fn number_told<E: Refuses>(e: E) -> u32
    ensures { result ≡ E.number_of e }
{
    u32::from(e.told_number())
}

// What a part of a run came to, what the run did, and two words more.
#[tactic(auto, unfolding(model::specs::Basics::written))]
fn put_run(answer: &mut [u64], outcome: u64, did: Tally, a: u64, b: u64)
    ensures { answer.new ≡ written answer.old 0 (outcome ∷ did.spent ∷ did.returns ∷ a ∷ b ∷ []) }
{
    put(answer, 0, outcome);
    put(answer, 1, did.spent);
    put(answer, 2, did.returns);
    put(answer, 3, a);
    put(answer, 4, b);
}

// What a part of a run answers.
#[tactic(auto, unfolding(embed_words::specs::Coding::run_told, embed_words::specs::Coding::run_words))]
pub fn tell_run<E: Refuses>(res: Result<Halt, E>, vm: &mut [u64], answer: &mut [u64]) -> u32
    ensures { record { number = result; vm = vm.new; answer = answer.new } ≡ run_told E.number_of res vm.old answer.old }
{
    match res {
        Ok(Halt::Value(m, v, did)) => {
            put_vm(m, vm);
            put_run(answer, 1, did, kind_of(v), payload_of(v));
            0
        }
        Ok(Halt::Continue(m, did)) => {
            put_vm(m, vm);
            put_run(answer, 2, did, 0, 0);
            0
        }
        Ok(Halt::Fault(m, k, did, j)) => {
            put_vm(m, vm);
            put_run(answer, 3, did, u64::from(k), j as u64);
            0
        }
        Ok(Halt::Paused(m)) => {
            let did = Tally {
                spent: m.run.spent,
                returns: m.run.returns,
            };
            put_vm(m, vm);
            put_run(answer, 4, did, 0, 0);
            0
        }
        Err(e) => number_told(e),
    }
}

// Of an image that breaks a rule: the offset, where the answer has a word.
#[tactic(auto, unfolding(model::specs::Basics::written))]
fn tell_broken(i: usize, answer: &mut [u64]) -> u32
    ensures { (result ≡ 20) × (answer.new ≡ set answer.old 0 i) }
{
    put(answer, 0, i as u64);
    20
}

// What making a machine answers.
#[tactic(auto, unfolding(embed_words::specs::Coding::started_told, model::specs::Basics::written))]
pub fn tell_started<E: Refuses>(res: Result<Vm, E>, vm: &mut [u64], answer: &mut [u64]) -> u32
    ensures { record { number = result; vm = vm.new; answer = answer.new } ≡ started_told E.number_of E.offset_of res vm.old answer.old }
{
    match res {
        Ok(m) => {
            put_vm(m, vm);
            0
        }
        Err(e) => match e.told_offset() {
            Some(i) => tell_broken(i, answer),
            None => number_told(e),
        },
    }
}

// The same where the record refuses: a broken image comes before a record or an answer that is too short. vm is any record.
#[tactic(auto, unfolding(embed_words::specs::Coding::unmade_told, model::specs::Basics::written))]
pub fn tell_unmade<E: Refuses>(why: u32, res: Result<Vm, E>, answer: &mut [u64]) -> u32
    ensures { (w : List ℕ) → record { number = result; vm = w; answer = answer.new } ≡ unmade_told E.offset_of why res w answer.old }
{
    match res {
        Ok(_) => why,
        Err(e) => match e.told_offset() {
            Some(offset) if why == 17 => tell_broken(offset, answer),
            _ => why,
        },
    }
}

// What changing the setting answers. It tells nothing besides: the answer is any.
#[tactic(auto, unfolding(embed_words::specs::Coding::changed_told))]
pub fn tell_changed<E: Refuses>(res: Result<Vm, E>, vm: &mut [u64]) -> u32
    ensures { (a : List ℕ) → record { number = result; vm = vm.new; answer = a } ≡ changed_told E.number_of res vm.old a }
{
    match res {
        Ok(m) => {
            put_vm(m, vm);
            0
        }
        Err(e) => number_told(e),
    }
}

// What an emission entry answers.
#[tactic(auto, unfolding(embed_words::specs::Coding::emitted_coded, model::specs::Basics::written))]
pub fn tell_emitted(
    res: Result<(Counts, usize), Refusal>,
    vm: &mut [u64],
    answer: &mut [u64],
) -> u32
    ensures { record { number = result; vm = vm.new; answer = answer.new } ≡ emitted_coded res vm.old answer.old }
{
    match res {
        Ok((c, n)) => {
            put_counts(c, vm);
            put(answer, 0, n as u64);
            0
        }
        Err(e) => u32::from(e.number()),
    }
}

// What an entry answers that tells only words, and writes nothing of the record. The entries above stay apart: each writes its own part of the record,
// and a machine is told in two ways (made, and changed), so that nothing but the line of a refusal would be shared.
pub trait Telling: Copy {
    ghost words: { Self → List ℕ };

    ghost coded: { Result Self Refusal → List ℕ → List ℕ → Coded };

    fn put_words(self, answer: &mut [u64])
        ensures { answer.new ≡ written answer.old 0 (words self) };

    ghost coded_is: { (x : Result Self Refusal) (w a : List ℕ) → coded x w a ≡ words_coded words x w a };
}

// A number.
impl Telling for usize {
    ghost words = { λ n. n ∷ [] };

    ghost coded = { told_coded };

    #[tactic(auto, unfolding(model::specs::Basics::written))]
    fn put_words(self, answer: &mut [u64]) {
        put(answer, 0, self as u64);
    }

    ghost coded_is = { told_is };
}

// A value as its kind and its payload.
impl Telling for Value {
    ghost words = { λ v. kind v ∷ payload v ∷ [] };

    ghost coded = { shown_coded };

    #[tactic(auto, unfolding(model::specs::Basics::written))]
    fn put_words(self, answer: &mut [u64]) {
        put(answer, 0, kind_of(self));
        put(answer, 1, payload_of(self));
    }

    ghost coded_is = { shown_is };
}

// A header.
impl Telling for Header {
    ghost words = { λ x. x.count ∷ x.number ∷ x.depth ∷ [] };

    ghost coded = { headed_coded };

    #[tactic(auto, unfolding(model::specs::Basics::written))]
    fn put_words(self, answer: &mut [u64]) {
        put(answer, 0, self.count as u64);
        put(answer, 1, self.number as u64);
        put(answer, 2, self.depth as u64);
    }

    ghost coded_is = { headed_is };
}

// What such an entry answers; vm is any record.
pub fn tell<T: Telling, E: Refuses>(res: Result<T, E>, answer: &mut [u64]) -> u32
    ensures { (w : List ℕ) → record { number = result; vm = w; answer = answer.new } ≡ words_told T.words E.number_of res w answer.old }
{
    match res {
        Ok(told) => {
            told.put_words(answer);
            0
        }
        Err(e) => number_told(e),
    }
}

// The same, unless what crosses is refused: `firsts` are the numbers of the entry itself that come before a short answer.
#[tactic(auto, unfolding(embed_words::specs::Coding::through))]
fn answer_by<T: Telling>(
    firsts: &[u8],
    why: u32,
    res: Result<T, Refusal>,
    answer: &mut [u64],
) -> u32
    ensures { (w : List ℕ) → record { number = result; vm = w; answer = answer.new }
        ≡ through firsts.now why w answer.old (T.coded res w answer.old) }
{
    if why == 0 {
        return tell(res, answer);
    }
    crossed(firsts, why, answer_number(res))
}

pub fn answer_told<T: Telling>(why: u32, res: Result<T, Refusal>, answer: &mut [u64]) -> u32
    ensures { (w : List ℕ) → record { number = result; vm = w; answer = answer.new }
        ≡ through at_entry why w answer.old (T.coded res w answer.old) }
{
    answer_by(&at_entry(), why, res, answer)
}

// The same of the listing.
pub fn answer_listed(why: u32, res: Result<usize, Refusal>, answer: &mut [u64]) -> u32
    ensures { (w : List ℕ) → record { number = result; vm = w; answer = answer.new }
        ≡ through at_listing why w answer.old (told_coded res w answer.old) }
{
    answer_by(&at_listing(), why, res, answer)
}
