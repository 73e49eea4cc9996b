// The pairs of a product run: two targets, one of each side, their order, and which of them are open.
// The definitions are in specs/: Pairs (operator, children, open pairs, order), Rows (rows, cuts, how a run comes out),
// Records (rows read as records, and their value). Sweeps over queues are built on them in the crate above.

#![tactic(auto)]

pub mod keys;
pub mod opening;
pub mod operators;
pub mod samples;

use listing::Target;

/// Two targets, one of each side. The derived order is by left, then right.
#[derive(Clone, Copy, PartialEq, Eq, PartialOrd, Ord)]
pub struct Pair {
    pub left: Target,
    pub right: Target,
}

/// A fixed fact: a level, and what the fact there is set to.
#[derive(Clone, Copy, PartialEq, Eq)]
pub struct Fixed {
    pub level: u16,
    pub bit: bool,
}
