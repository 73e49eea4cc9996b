// Both operands of a run: its root pair, and a pair's children.

ghost use Rattle.std.specs.Prelude.{◌≡◌, ℕ, ◌^◌, ◌<◌, length};
ghost use Rattle.listing.specs.Listing.{Numbered};
ghost use Rattle.pairs.specs.Pairs.{kid, start, pair_level};
ghost use Rattle.sweep.specs.Reading.{Starts, Fixes, Held, Ready, Reached};
ghost use Rattle.sweep.specs.Requests.{Kids};
ghost use Rattle.sweep.specs.Running.{run_of};

use crate::reading::{Operand, level_start};
use crate::requests::{Child, Children};
use listing::Target;
use pairs::Pair;
use pairs::keys::PairKey;
use source::Source;

/// The two operands of a run.
#[derive(Drop)]
pub struct Operands<'a, L, R> {
    pub left: Operand<'a, L>,
    pub right: Operand<'a, R>,
}

/// Where the records of a pair's level start, on each side.
#[derive(Clone, Copy)]
pub struct Cursor {
    pub left: usize,
    pub right: usize,
}

// What each asks of the sides is no ghost field of theirs: there it would stand truncated, since a listing by the rules can be shown
// in more than one way, and the run needs what it says.
impl<'a, L: Source, R: Source> Operands<'a, L, R> {
    /// The root pair; `left` and `right` are the sides' roots.
    pub fn start(&self) -> Pair
        requires left { Held (L.Source.facts self.now.left.source.now) (L.Source.top self.now.left.source.now) (L.Source.listed self.now.left.source.now) (L.Source.top self.now.left.source.now) }
        requires right { Held (R.Source.facts self.now.right.source.now) (R.Source.top self.now.right.source.now) (R.Source.listed self.now.right.source.now) (R.Source.top self.now.right.source.now) }
        requires fixes_left { Fixes (L.Source.listed self.now.left.source.now) self.now.left.fixed self.now.left.fixed_start }
        requires fixes_right { Fixes (R.Source.listed self.now.right.source.now) self.now.right.fixed self.now.right.fixed_start }
        ensures { (o : ℕ) → result ≡ start (run_of (L.Source.facts self.now.left.source.now) (L.Source.top self.now.left.source.now) (L.Source.listed self.now.left.source.now) (R.Source.top self.now.right.source.now) (R.Source.listed self.now.right.source.now) (record { operator = o; left = self.now.left.fixed; right = self.now.right.fixed })) }
    {
        Pair {
            left: self.left.settled(self.left.source.root()),
            right: self.right.settled(self.right.source.root()),
        }
    }

    /// The cursor, moved on to a level.
    pub fn advance(&self, cursor: Cursor, level: u16) -> Cursor
        requires left { Numbered (L.Source.listed self.now.left.source.now) }
        requires right { Numbered (R.Source.listed self.now.right.source.now) }
        requires reached_left { Reached (L.Source.listed self.now.left.source.now) level cursor.left }
        requires reached_right { Reached (R.Source.listed self.now.right.source.now) level cursor.right }
        ensures left { Starts (L.Source.listed self.now.left.source.now) level result.left }
        ensures right { Starts (R.Source.listed self.now.right.source.now) level result.right }
        ensures reached_left { Reached (L.Source.listed self.now.left.source.now) level result.left }
        ensures reached_right { Reached (R.Source.listed self.now.right.source.now) level result.right }
    {
        Cursor {
            left: level_start(self.left.source, cursor.left, level),
            right: level_start(self.right.source, cursor.right, level),
        }
    }

    // A pair's child at a bit.
    fn child(&self, cursor: Cursor, key: PairKey, high: bool) -> Pair
        requires left { Ready (L.Source.facts self.now.left.source.now) (L.Source.top self.now.left.source.now) (L.Source.listed self.now.left.source.now) self.now.left.fixed self.now.left.fixed_start cursor.left key.level key.pair.left }
        requires right { Ready (R.Source.facts self.now.right.source.now) (R.Source.top self.now.right.source.now) (R.Source.listed self.now.right.source.now) self.now.right.fixed self.now.right.fixed_start cursor.right key.level key.pair.right }
        requires level { key.level ≡ pair_level (L.Source.facts self.now.left.source.now) key.pair }
        ensures { (o : ℕ) → result ≡ kid (run_of (L.Source.facts self.now.left.source.now) (L.Source.top self.now.left.source.now) (L.Source.listed self.now.left.source.now) (R.Source.top self.now.right.source.now) (R.Source.listed self.now.right.source.now) (record { operator = o; left = self.now.left.fixed; right = self.now.right.fixed })) high key.pair }
    {
        Pair {
            left: self.left.moved(cursor.left, key.level, high, key.pair.left),
            right: self
                .right
                .moved(cursor.right, key.level, high, key.pair.right),
        }
    }

    /// A pair's two children.
    pub fn children(&self, cursor: Cursor, operator: u8, key: PairKey) -> Children
        requires left { Ready (L.Source.facts self.now.left.source.now) (L.Source.top self.now.left.source.now) (L.Source.listed self.now.left.source.now) self.now.left.fixed self.now.left.fixed_start cursor.left key.level key.pair.left }
        requires right { Ready (R.Source.facts self.now.right.source.now) (R.Source.top self.now.right.source.now) (R.Source.listed self.now.right.source.now) self.now.right.fixed self.now.right.fixed_start cursor.right key.level key.pair.right }
        requires level { key.level ≡ pair_level (L.Source.facts self.now.left.source.now) key.pair }
        ensures { Kids (run_of (L.Source.facts self.now.left.source.now) (L.Source.top self.now.left.source.now) (L.Source.listed self.now.left.source.now) (R.Source.top self.now.right.source.now) (R.Source.listed self.now.right.source.now) (record { operator = operator; left = self.now.left.fixed; right = self.now.right.fixed })) key.pair result.low result.high }
    {
        Children {
            low: Child::of(operator, self.child(cursor, key, false)),
            high: Child::of(operator, self.child(cursor, key, true)),
        }
    }
}
