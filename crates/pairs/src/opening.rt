// Levels of pairs, and which pairs are open.

ghost use Rattle.std.specs.Prelude.{◌≡◌, min, false};
ghost use Rattle.listing.specs.Listing.{depth};
ghost use Rattle.pairs.specs.Pairs.{answer, put, verdict, changes, opens, Told};
ghost use Rattle.pairs.specs.Keys.{key_of};

use crate::keys::PairKey;
use crate::{Pair, operators};
use listing::Target;

// The terminal's bit, and `bit` put for a node.
fn put_for(bit: bool, target: Target) -> bool
    ensures { result ≡ put bit target }
{
    match target {
        Target::Node { .. } => bit,
        Target::False => false,
        Target::True => true,
    }
}

// An operator is told by its number, as `answer` takes it.
impl Pair {
    /// The pair's key over n facts: its level is the lesser of its two, terminals lying on level n.
    pub fn key(self, n: u16) -> PairKey
        ensures { result ≡ key_of n self }
    {
        self.leveled(n, self.left.depth(n).min(self.right.depth(n)))
    }

    // The lesser level, as the pair's.
    fn leveled(self, n: u16, lesser: u16) -> PairKey
        requires { lesser ≡ min (depth n self.left) (depth n self.right) }
        ensures { result ≡ key_of n self }
    {
        PairKey {
            level: lesser,
            pair: self,
        }
    }

    // The operator's answer with one bit put for a node on the left, another for one on the right.
    fn put(self, operator: u8, left: bool, right: bool) -> bool
        ensures { result ≡ answer operator (put left self.left) (put right self.right) }
    {
        operators::answer(
            operator,
            put_for(left, self.left),
            put_for(right, self.right),
        )
    }

    /// A closed pair's answer.
    pub fn verdict(self, operator: u8) -> bool
        ensures { result ≡ verdict operator self }
    {
        self.judged(operator, self.put(operator, false, false))
    }

    // The answer with zeros put, as the pair's.
    fn judged(self, operator: u8, zeros: bool) -> bool
        requires { zeros ≡ answer operator (put false self.left) (put false self.right) }
        ensures { result ≡ verdict operator self }
    {
        zeros
    }

    /// Whether the pair is open: whether the operator's answer changes with the terminals put for the pair's nodes.
    pub fn is_open(self, operator: u8) -> bool
        ensures opens { result ≡ opens operator self }
        ensures told { Told operator self }
    {
        let zeros = self.verdict(operator);
        let changed = zeros != self.put(operator, false, true)
            || zeros != self.put(operator, true, false)
            || zeros != self.put(operator, true, true);
        self.told(operator, changed)
    }

    // Whether some way of putting terminals changes the answer: so the pair is open; carries what that means.
    fn told(self, operator: u8, changed: bool) -> bool
        requires { changed ≡ changes operator self }
        ensures opens { result ≡ opens operator self }
        ensures told { Told operator self }
    {
        changed
    }
}
