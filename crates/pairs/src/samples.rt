// The rows of sample runs over three facts, told by their definition, and what they show of it.

ghost use Rattle.std.specs.Prelude.{◌≡◌};
ghost use Rattle.listing.specs.declared.Target.TheVariants.{Node};
ghost use Rattle.pairs.specs.Samples.{just_one_rows, both_rows, turned_rows, JustOne, BothFacts, Turned};

use crate::Pair;
use listing::Target;

// The node of a fact's one record.
fn fact(level: u16) -> Target
    ensures { result ≡ Node level 0 }
{
    Target::Node { level, number: 0 }
}

// A pair by its two sides.
fn pair(left: Target, right: Target) -> Pair
    ensures { result ≡ record { left = left; right = right } }
{
    Pair { left, right }
}

// One function a sample carries its statement, since each statement is another.

/// The rows of "just one of the facts 0 and 1", made of the two facts: with too few rows or too small a queue their making
/// ends in the faults told.
pub fn just_one() -> [Pair; 3]
    ensures { JustOne result }
{
    let rows = [
        pair(fact(0), fact(1)),
        pair(Target::False, fact(1)),
        pair(Target::True, fact(1)),
    ];
    shows_just_one(&rows);
    rows
}

// Carries the sample's statement.
fn shows_just_one(rows: &[Pair])
    requires { rows.now ≡ just_one_rows }
    ensures { JustOne rows.now }
{}

/// The rows of "both of the facts 0 and 2".
pub fn both_facts() -> [Pair; 2]
    ensures { BothFacts result }
{
    let rows = [pair(fact(0), fact(2)), pair(Target::True, fact(2))];
    shows_both_facts(&rows);
    rows
}

// Carries the sample's statement.
fn shows_both_facts(rows: &[Pair])
    requires { rows.now ≡ both_rows }
    ensures { BothFacts rows.now }
{}

/// The row of "just one of the facts 0 and 1" with fact 1 fixed to 1: fact 0 turned.
pub fn turned() -> [Pair; 1]
    ensures { Turned result }
{
    let rows = [pair(fact(0), Target::True)];
    shows_turned(&rows);
    rows
}

// Carries the sample's statement.
fn shows_turned(rows: &[Pair])
    requires { rows.now ≡ turned_rows }
    ensures { Turned rows.now }
{}
