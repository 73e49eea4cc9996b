// A reference to a source is a source.

use crate::Source;
use listing::{Record, Target};

impl<S: Source> Source for &S {
    ghost facts = { λ s. S.Source.facts s.now };

    ghost top = { λ s. S.Source.top s.now };

    ghost listed = { λ s. S.Source.listed s.now };

    fn n(&self) -> u16 {
        S::n(*self)
    }

    fn root(&self) -> Target {
        S::root(*self)
    }

    fn count(&self) -> usize {
        S::count(*self)
    }

    fn record(&self, place: usize) -> Option<Record> {
        S::record(*self, place)
    }
}
