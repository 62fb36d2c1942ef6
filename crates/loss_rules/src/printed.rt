//! What the checker's answer is printed as.

ghost use Rattle.std.specs.Prelude.{◌≡◌};
ghost use Rattle.loss_rules.specs.Breaks.{rule_number};

use crate::answer::{Answer, Place, Rule};
use std::fmt;

impl Rule {
    // Its number, in the order in which the rules are looked at.
    fn number(&self) -> u8
        ensures { result ≡ rule_number self.now }
    {
        match self {
            Rule::AddressesAreDistinct => 1,
            Rule::ServersAreSources => 2,
            Rule::ClientsAreLabelled => 3,
            Rule::LabelsAreMatched => 4,
            Rule::ReachesCover => 5,
            Rule::ReachedMatchesKeep => 6,
            Rule::RelabelsAreLabelled => 7,
            Rule::ForwardsAreLabelled => 8,
            Rule::PathsAreDistinct => 9,
            Rule::NoRelabelCycle => 10,
        }
    }
}

// `K1` to `K10`.
impl fmt::Display for Rule {
    ghost use Rattle.std.specs.Prelude.{Some};
    ghost use Rattle.loss_rules.specs.Printed.{rule_code};

    ghost output = { λ rule. Some (rule_code rule) };

    fn fmt<W: fmt::Write>(&self, f: &mut fmt::Formatter<W>) -> fmt::Result {
        write!(f, "K{}", self.number())
    }
}

// As `plan line 3`, or `relay 1 line 5`.
impl fmt::Display for Place {
    ghost use Rattle.std.specs.Prelude.{Some};
    ghost use Rattle.loss_rules.specs.Printed.{place_text};

    ghost output = { λ place. Some (place_text place) };

    fn fmt<W: fmt::Write>(&self, f: &mut fmt::Formatter<W>) -> fmt::Result {
        match self {
            Place::Plan { line } => write!(f, "plan line {line}"),
            Place::Conf { relay, line } => write!(f, "relay {relay} line {line}"),
        }
    }
}

// As `yes`, or `no K5 plan line 3`.
impl fmt::Display for Answer {
    ghost use Rattle.std.specs.Prelude.{Some};
    ghost use Rattle.loss_rules.specs.Printed.{answer_text};

    ghost output = { λ answer. Some (answer_text answer) };

    fn fmt<W: fmt::Write>(&self, f: &mut fmt::Formatter<W>) -> fmt::Result {
        match self {
            Answer::Yes => f.write_str("yes"),
            Answer::No { rule, place } => write!(f, "no {rule} {place}"),
        }
    }
}
