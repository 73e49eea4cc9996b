// A rule of a listing that is broken, and where.

ghost use Rattle.std.specs.Prelude.{◌≡◌};
ghost use Rattle.rows.specs.Faults.{rule_number};

/// The rules of a listing, R1 to R5.
#[derive(Clone, Copy, PartialEq, Eq)]
pub enum Rule {
    Root,
    Level,
    Number,
    Target,
    Aim,
}

/// A broken rule, and the place of the record that breaks it: 0 for the first rule, which is of the root.
#[derive(Clone, Copy, PartialEq, Eq)]
pub struct Break {
    pub rule: Rule,
    pub place: u32,
}

impl From<Rule> for u32 {
    ghost from_gives = { λ rule k. k ≡ rule_number rule };

    /// The rule's number, 1 to 5.
    fn from(rule: Rule) -> u32 {
        match rule {
            Rule::Root => 1,
            Rule::Level => 2,
            Rule::Number => 3,
            Rule::Target => 4,
            Rule::Aim => 5,
        }
    }
}
