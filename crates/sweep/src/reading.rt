// Reading one operand of a run. The pairs of a run come in order, so their levels only rise: each side keeps the
// place where the records of the pair's level start, and a node's record stands as many places behind as its number says.

ghost use Rattle.std.specs.Prelude.{◌≡◌, ◌^◌, ◌<◌, ◌≤◌, length};
ghost use Rattle.listing.specs.Listing.{Numbered};
ghost use Rattle.pairs.specs.Pairs.{on, leads, fixing, move};
ghost use Rattle.sweep.specs.Reading.{Passed, Starts, Fixes, StartsFor, side_of, Held, Ready};

use listing::Target;
use pairs::Fixed;
use source::Source;
use source::walking::records_from;

/// One operand of a run: its source, perhaps a fixed fact, and where the records of that level start.
#[derive(Drop)]
pub struct Operand<'a, S> {
    pub source: &'a S,
    pub fixed: Option<Fixed>,
    // Beside the fact, and not in one Option with it: each clause would have to part the two again.
    pub fixed_start: usize,
}

/// Where the records of a level start, looking from a place on that lies behind no such record.
pub fn level_start<S: Source>(source: &S, from: usize, level: u16) -> usize
    requires numbered { Numbered (S.listed source.now) }
    requires passed { Passed (S.listed source.now) level from }
    requires within { from ≤ length (S.listed source.now) }
    ensures starts { Starts (S.listed source.now) level result }
    ensures within { result ≤ length (S.listed source.now) }
    ensures few { length (S.listed source.now) < 2 ^ 64 }
{
    match records_from(source, from).position(|r| r.level >= level) {
        Some(steps) => from + steps,
        None => source.count(),
    }
}

/// Where the records of a fixed fact's level start.
pub fn fixed_start<S: Source>(source: &S, fixed: Option<Fixed>) -> usize
    requires { Numbered (S.listed source.now) }
    ensures fixes { Fixes (S.listed source.now) fixed result }
    ensures few { length (S.listed source.now) < 2 ^ 64 }
{
    // Where no fact is fixed any place will do.
    level_start(source, 0, fixed.map_or(0, |fact| fact.level))
}

// Whether a target is a node on a level.
fn is_on(at: u16, target: Target) -> bool
    ensures { result ≡ on at target }
{
    matches!(target, Target::Node { level, .. } if level == at)
}

impl<'a, S: Source> Operand<'a, S> {
    // Where a node leads at a bit; its level's records start at `start`.
    fn lead(&self, start: usize, high: bool, target: Target) -> Target
        requires held { Held (S.facts self.now.source.now) (S.top self.now.source.now) (S.listed self.now.source.now) target }
        requires starts { StartsFor (S.listed self.now.source.now) target start }
        ensures { result ≡ leads (S.listed self.now.source.now) high target }
    {
        match target {
            Target::Node { number, .. } => match self.source.record(start + number as usize) {
                Some(r) => r.child(high),
                None => target,
            },
            Target::False => target,
            Target::True => target,
        }
    }

    /// A node on the fixed level is replaced by its fixed child.
    pub fn settled(&self, target: Target) -> Target
        requires held { Held (S.facts self.now.source.now) (S.top self.now.source.now) (S.listed self.now.source.now) target }
        requires fixes { Fixes (S.listed self.now.source.now) self.now.fixed self.now.fixed_start }
        ensures { result ≡ fixing (S.listed self.now.source.now) self.now.fixed target }
    {
        match self.fixed {
            Some(fact) if is_on(fact.level, target) => {
                self.lead(self.fixed_start, fact.bit, target)
            }
            _ => target,
        }
    }

    /// A side that is on a level, whose records start at `start`, moves to its child at a bit, the fixed fact heeded; any
    /// other side stays.
    pub fn moved(&self, start: usize, level: u16, high: bool, target: Target) -> Target
        requires { Ready (S.facts self.now.source.now) (S.top self.now.source.now) (S.listed self.now.source.now) self.now.fixed self.now.fixed_start start level target }
        ensures { result ≡ move (side_of (S.top self.now.source.now) (S.listed self.now.source.now) self.now.fixed) level high target }
    {
        if is_on(level, target) {
            self.settled(self.lead(start, high, target))
        } else {
            target
        }
    }
}
