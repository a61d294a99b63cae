// What the check of an image answers, as words in lent slices: what crosses to a host in C.
#![tactic(auto)]

ghost use Rattle.std.specs.Prelude.{◌≡◌, [], ◌∷◌, ℕ, Result, Err, eqb, if◌then◌else◌};
ghost use Rattle.model.specs.Basics.{written};
ghost use Rattle.check_rules.specs.Rules.{rule_number};
ghost use Rattle.check_rules.specs.declared.Rule.{Rule};
ghost use Rattle.check_words.specs.Words.{breach_in, checked_told};

use check_rules::{Rejected, Rule, rule_number};
use embed_answers::{Refuses, tell_started};
use embed_words::put;
use model::{Counts, Refusal};
use run_ends::fresh_vm;

// The broken rule and the function that breaks it.
#[tactic(auto, unfolding(model::specs::Basics::written))]
fn put_breach(q: Rule, f: usize, answer: &mut [u64])
    ensures { answer.new ≡ written answer.old 0 (rule_number q ∷ f ∷ []) }
{
    put(answer, 0, rule_number(q) as u64);
    put(answer, 1, f as u64);
}

// Why an image is not loaded, as a host is told it: a rule that is broken, and by which function, or another refusal.
pub trait Rejects: Copy {
    type Other: Refuses;

    ghost breach_of: { Self → Result (Rule × ℕ) Self.Other };

    fn breach(self) -> Result<(Rule, usize), Self::Other>
        ensures { result ≡ breach_of self };
}

// What the check itself says.
impl Rejects for Rejected {
    type Other = Refusal;

    ghost breach_of = { breach_in };

    fn breach(self) -> Result<(Rule, usize), Refusal> {
        match self {
            Rejected::Refused(why) => Err(why),
            Rejected::Breaks(q, f) => Ok((q, f)),
        }
    }
}

// Any number by itself.
impl Rejects for u8 {
    type Other = u8;

    ghost breach_of = { λ n. Err n };

    fn breach(self) -> Result<(Rule, usize), u8> {
        Err(self)
    }
}

// What the check answers: a fresh machine's record where it passed, or why it did not.
#[tactic(auto, unfolding(crate::specs::Words::checked_told, crate::specs::Words::rejected_told, embed_words::specs::Coding::started_told))]
pub fn tell_checked<R: Rejects>(
    checked: Result<Counts, R>,
    vm: &mut [u64],
    answer: &mut [u64],
) -> u32
    ensures { record { number = result; vm = vm.new; answer = answer.new }
        ≡ checked_told R.breach_of R.Other.number_of R.Other.offset_of checked vm.old answer.old }
{
    match checked {
        Ok(c) => {
            let m = fresh_vm(c);
            tell_started::<Refusal>(Ok(m), vm, answer)
        }
        Err(r) => match r.breach() {
            Ok((q, f)) => {
                put_breach(q, f, answer);
                40
            }
            Err(why) => tell_started(Err(why), vm, answer),
        },
    }
}

// How much of the functions' store the check is lent: nothing where no frame has a place, so that 21 is refused.
pub fn lent_functions(frames: usize, size: usize) -> usize
    ensures { result ≡ (if eqb frames 0 then 0 else size) }
{
    if frames == 0 {
        return 0;
    }
    size
}
