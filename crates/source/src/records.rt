// A source over records in the caller's slice.

use crate::Source;
use listing::{Record, Target};

/// A listing whose records the caller lends. Each question takes constant time.
#[derive(Clone, Copy)]
pub struct Records<'a> {
    pub n: u16,
    pub root: Target,
    pub records: &'a [Record],
}

impl<'a> Source for Records<'a> {
    ghost facts = { λ s. s.n };

    ghost top = { λ s. s.root };

    ghost listed = { λ s. s.records.now };

    fn n(&self) -> u16 {
        self.n
    }

    fn root(&self) -> Target {
        self.root
    }

    fn count(&self) -> usize {
        self.records.len()
    }

    fn record(&self, place: usize) -> Option<Record> {
        self.records.get(place).copied()
    }
}
