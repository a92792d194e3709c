// What every call shares: a refusal, alone or with a value that it carries, and the one table of rules.
#![tactic(auto)]

pub mod refusals;

ghost use Rattle.std.specs.Prelude.{◌≡◌};
ghost use Rattle.answer.specs.Carried.{carries_none};

use refusals::Rule;

// The rule that is broken, and the place.
#[derive(Clone, Copy, PartialEq, Eq)]
pub struct Refusal {
    pub rule: Rule,
    pub place: usize,
}

// A refusal, and one value that it carries.
#[derive(Clone, Copy, PartialEq, Eq)]
pub struct Carrying {
    pub rule: Rule,
    pub place: usize,
    pub value: usize,
}

impl Rule {
    // A refusal by it, at a place.
    pub fn at(self, place: usize) -> Refusal
        ensures { result ≡ record { rule = self; place = place } }
    {
        Refusal { rule: self, place }
    }
}

// A rule that is about no place has the place 0.
impl From<Rule> for Refusal {
    ghost from_gives = { λ r x. x ≡ record { rule = r; place = 0 } };

    fn from(rule: Rule) -> Refusal {
        rule.at(0)
    }
}

// A refusal that carries nothing has the value 0.
impl From<Refusal> for Carrying {
    ghost from_gives = { λ r c. c ≡ carries_none r };

    fn from(refusal: Refusal) -> Carrying {
        Carrying {
            rule: refusal.rule,
            place: refusal.place,
            value: 0,
        }
    }
}
