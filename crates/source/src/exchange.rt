// A source laid over any source: it shows the listing below with False and True exchanged.

ghost use Rattle.std.specs.Prelude.{◌≡◌, map, length};
ghost use Rattle.std.specs.List.{slice_get};
ghost use Rattle.source.specs.Exchange.{exchanged, exchanged_record, Negates};

use crate::Source;
use listing::{Record, Target};

/// The listing of the source below, with False and True exchanged at the root and in every record.
/// It costs nothing beyond the source below.
#[derive(Drop)]
pub struct Exchanged<S> {
    pub below: S,
}

/// The target with False and True exchanged.
pub fn swapped(t: Target) -> Target
    ensures { result ≡ exchanged t }
{
    match t {
        Target::Node { level, number } => Target::Node { level, number },
        Target::False => Target::True,
        Target::True => Target::False,
    }
}

fn swapped_record(r: Record) -> Record
    ensures { result ≡ exchanged_record r }
{
    Record {
        low: swapped(r.low),
        high: swapped(r.high),
        ..r
    }
}

impl<S: Source> Source for Exchanged<S> {
    ghost facts = { λ s. S.Source.facts s.below };

    ghost top = { λ s. exchanged (S.Source.top s.below) };

    ghost listed = { λ s. map exchanged_record (S.Source.listed s.below) };

    fn n(&self) -> u16 {
        self.below.n()
    }

    fn root(&self) -> Target {
        swapped(self.below.root())
    }

    fn count(&self) -> usize {
        self.below.count()
    }

    fn record(&self, place: usize) -> Option<Record> {
        self.below.record(place).map(swapped_record)
    }
}

/// What a source tells: n, root, N and the record at a place.
#[derive(Clone, Copy)]
pub struct Told {
    pub n: u16,
    pub root: Target,
    pub count: usize,
    pub placed: Option<Record>,
}

/// What the exchange of the exchange of a source tells. It is what the source itself tells. Of a listing by the
/// rules, a single exchange is a listing by the rules too, and its value is the other one at every setting.
pub fn exchanged_twice<S: Source>(source: &S, place: usize) -> Told
    ensures n { result.n ≡ S.facts source.now }
    ensures root { result.root ≡ S.top source.now }
    ensures count { result.count ≡ length (S.listed source.now) }
    ensures placed { result.placed ≡ slice_get (S.listed source.now) place }
    ensures negates { Negates (S.facts source.now) (S.top source.now) (S.listed source.now) }
{
    let twice = Exchanged {
        below: Exchanged { below: source },
    };
    restored(
        source,
        place,
        Told {
            n: twice.n(),
            root: twice.root(),
            count: twice.count(),
            placed: twice.record(place),
        },
    )
}

// Carries the theorems of the exchange: `told` is what the exchange of the exchange tells.
fn restored<S: Source>(source: &S, place: usize, told: Told) -> Told
    requires n { told.n ≡ S.facts source.now }
    requires root { told.root ≡ exchanged (exchanged (S.top source.now)) }
    requires count { told.count ≡ length (map exchanged_record (map exchanged_record (S.listed source.now))) }
    requires placed { told.placed ≡ slice_get (map exchanged_record (map exchanged_record (S.listed source.now))) place }
    ensures n { result.n ≡ S.facts source.now }
    ensures root { result.root ≡ S.top source.now }
    ensures count { result.count ≡ length (S.listed source.now) }
    ensures placed { result.placed ≡ slice_get (S.listed source.now) place }
    ensures negates { Negates (S.facts source.now) (S.top source.now) (S.listed source.now) }
{
    told
}
