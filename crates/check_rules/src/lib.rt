// What a rule is checked for before it is installed: definitions, and laws of them.
#![tactic(auto)]

ghost use Rattle.std.specs.Prelude.{◌≡◌};
ghost use Rattle.check_rules.specs.Rules.{rule_number};

use model::Refusal;

// The six rules, in their order.
#[derive(Clone, Copy)]
pub enum Rule {
    Instructions,
    Numbers,
    Calls,
    Counts,
    Jumps,
    Heights,
}

// A rule's number, 1 to 6.
pub fn rule_number(q: Rule) -> usize
    ensures { result ≡ rule_number q }
{
    match q {
        Rule::Instructions => 1,
        Rule::Numbers => 2,
        Rule::Calls => 3,
        Rule::Counts => 4,
        Rule::Jumps => 5,
        Rule::Heights => 6,
    }
}

// Why the check does not load an image: Refused is refusal 20, 17, 22 or 21, in that order, Breaks is refusal 40 with the first broken rule and the
// lowest function that breaks it.
#[derive(Clone, Copy)]
pub enum Rejected {
    Refused(Refusal),
    Breaks(Rule, usize),
}
