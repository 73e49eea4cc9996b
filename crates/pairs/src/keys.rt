// The keys by which a queue orders the pairs of a run.

use crate::Pair;

/// A pair with its level, as a queue orders it: the derived order is by level, then left target, then right target.
#[derive(Clone, Copy, PartialEq, Eq, PartialOrd, Ord)]
pub struct PairKey {
    pub level: u16,
    pub pair: Pair,
}
