// Rows filled from a source, each record read once, with the second rule tried on the way.

ghost use Rattle.std.specs.Prelude.{◌≡◌, ◌<◌, map, length, IfSome, MatchOption};
ghost use Rattle.listing.specs.Listing.{Levelled};
ghost use Rattle.rows.specs.Rows.{entry_of, row_of};
ghost use Rattle.rows.specs.Breaks.{First, TooHigh};

use crate::row::Row;
use source::Source;
use source::walking::each_record;

// Fills the rows with the source's records, one each, up to the first whose level is not below n: its place is told, and no
// record behind it is read.
pub fn fill<S: Source>(source: &S, rows: &mut [Row]) -> Option<usize>
    requires { length rows.old ≡ length (S.listed source.now) }
    ensures breaks { MatchOption result (Levelled (S.facts source.now) (S.listed source.now) × (map entry_of rows.new ≡ S.listed source.now) × (map row_of (map entry_of rows.new) ≡ rows.new)) (First (TooHigh (S.facts source.now) (S.listed source.now))) }
    ensures below { IfSome result (λ p. p < length (S.listed source.now)) }
{
    let n = source.n();
    // By places: of what is written through `iter_mut` in a `zip` the library tells nothing.
    for (place, r) in each_record(source).enumerate() {
        if r.level >= n {
            return Some(place);
        }
        rows[place] = Row::from(r);
    }
    None
}
