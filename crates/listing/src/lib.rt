// Targets, records and listings of levelled decision diagrams, and the theory of their normal form.
// Everything above cites the definitions in specs/: Settings, Listing, Meaning.
// A listing is n, a root and a list of records; here the records lie in the caller's slice.

#![tactic(auto)]

ghost use Rattle.std.specs.Prelude.{◌≡◌, Decides, Some};
ghost use Rattle.listing.specs.Listing.{node, names, child, is_true, depth, terminal, Before, Rises, RecordBefore};
ghost use Rattle.listing.specs.Meaning.{ToldApart};
ghost use Rattle.listing.specs.Words.{words};

pub mod comparing;
pub mod reports;
pub mod samples;
pub mod settings;
pub mod walking;

use std::fmt;

/// Where an arc, or a root, leads: a node, named by its level and its number on that level, or a terminal.
/// The derived order is the order of targets: nodes by level, then number; False after every node; True after False.
#[derive(Clone, Copy, Default, PartialEq, Eq, PartialOrd, Ord)]
pub enum Target {
    Node { level: u16, number: u32 },
    #[default]
    False,
    True,
}

/// A node's own level and number, and its two targets: `low` where its fact is 0, `high` where it is 1.
/// The derived order is by level, number, low, high.
#[derive(Clone, Copy, Default, PartialEq, Eq, PartialOrd, Ord)]
pub struct Record {
    pub level: u16,
    pub number: u32,
    pub low: Target,
    pub high: Target,
}

/// A listing that stands in the first places of some space: its root, and how many records it has.
// A count, and not the part of the space that is filled, which would keep the space lent.
#[derive(Clone, Copy)]
pub struct Stored {
    pub root: Target,
    pub count: usize,
}

impl Target {
    /// Whether this target comes before the other: nodes by level and number, then False, then True.
    pub fn precedes(self, other: Target) -> bool
        ensures { Decides result (Before self other) }
    {
        self < other
    }

    /// Whether the two are the same target. In a normal listing that tells whether they have the same
    /// value at every setting.
    pub fn same(self, other: Target) -> bool
        ensures same { Decides result (self ≡ other) }
        ensures apart { ToldApart self other result }
    {
        told_apart(self, other, self == other)
    }

    /// Whether this target is the record's node.
    pub fn names(self, r: Record) -> bool
        ensures { result ≡ names self r }
    {
        self == r.node()
    }

    /// Whether this target is the terminal True.
    pub fn is_true(self) -> bool
        ensures { result ≡ is_true self }
    {
        self == Target::True
    }

    /// The level that this target lies on over n facts: a node's own, and n for a terminal.
    pub fn depth(self, n: u16) -> u16
        ensures { result ≡ depth n self }
    {
        match self {
            Target::Node { level, .. } => level,
            Target::False | Target::True => n,
        }
    }
}

impl From<bool> for Target {
    ghost from_gives = { λ bit t. t ≡ terminal bit };

    /// The terminal that stands for a bit.
    fn from(bit: bool) -> Target {
        if bit { Target::True } else { Target::False }
    }
}

impl fmt::Display for Target {
    ghost output = { λ t. Some (words t) };

    /// A node by its level and number, or a terminal's name.
    fn fmt<W: fmt::Write>(&self, f: &mut fmt::Formatter<W>) -> fmt::Result {
        match self {
            Target::Node { level, number } => write!(f, "level {level}, number {number}"),
            Target::False => f.write_str("False"),
            Target::True => f.write_str("True"),
        }
    }
}

impl Record {
    /// The node that this record describes.
    pub fn node(self) -> Target
        ensures { result ≡ node self }
    {
        Target::Node {
            level: self.level,
            number: self.number,
        }
    }

    /// The target where this record's fact is 0 (false) or 1 (true).
    pub fn child(self, fact: bool) -> Target
        ensures { result ≡ child fact self }
    {
        if fact { self.high } else { self.low }
    }

    /// Whether the two records are the same.
    pub fn same(self, other: Record) -> bool
        ensures { Decides result (self ≡ other) }
    {
        other == self
    }

    /// Whether this record comes before the other by level, number, low, high.
    pub fn precedes(self, other: Record) -> bool
        ensures { Decides result (RecordBefore self other) }
    {
        other > self
    }

    /// Whether the other record comes after this one by low, then by high.
    pub fn rises(self, other: Record) -> bool
        ensures { Decides result (Rises self other) }
    {
        (self.low, self.high) < (other.low, other.high)
    }
}

// Carries the theorem that a normal listing has one target a value: `same` tells whether t and u are the same.
fn told_apart(t: Target, u: Target, same: bool) -> bool
    requires { Decides same (t ≡ u) }
    ensures same { result ≡ same }
    ensures apart { ToldApart t u result }
{
    same
}
