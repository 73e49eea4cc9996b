// A source's records one after another, for loops and chains.

ghost use Rattle.std.specs.Prelude.{◌≡◌, ◌^◌, ◌<◌, length, drop};
ghost use Rattle.std.specs.Iterator.{YieldsFirst, item_count};
ghost use Rattle.source.specs.Walking.{left, FirstFrom};

use crate::Source;
use listing::Record;
use std::ops::Range;

/// The records that a source has left to tell, from the first.
#[derive(Drop)]
pub struct Walk<'a, S> {
    source: &'a S,
    places: Range<usize>,
}

/// The records of a source from a place on. Each costs one question.
pub fn records_from<'a, S: Source>(source: &'a S, place: usize) -> Walk<'a, S>
    ensures left { left S.listed result ≡ drop place (S.listed source.now) }
    ensures few { length (S.listed source.now) < 2 ^ 64 }
{
    Walk {
        source,
        places: place..source.count(),
    }
}

/// All records of a source, by their places from 0. Each costs one question.
pub fn each_record<'a, S: Source>(source: &'a S) -> Walk<'a, S>
    ensures left { left S.listed result ≡ S.listed source.now }
    ensures few { length (S.listed source.now) < 2 ^ 64 }
{
    records_from(source, 0)
}

// The record at a place, as the first of those from there to `end`.
fn first_left<S: Source>(source: &S, place: usize, end: usize) -> Option<Record>
    requires { place < end }
    ensures { FirstFrom (S.listed source.now) place end result }
{
    source.record(place)
}

impl<'a, S: Source> Iterator for Walk<'a, S> {
    type Item = Record;

    ghost next_gives = { YieldsFirst (left S.listed) };

    ghost remaining = { item_count (left S.listed) };

    fn next(&mut self) -> Option<Record> {
        let place = self.places.next()?;
        first_left(self.source, place, self.places.end)
    }
}
