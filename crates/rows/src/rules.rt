// The first rule of a listing, over a source, and the third, over the rows that hold its records, in one pass to the first
// place that breaks it. The second is tried while the rows are filled.

ghost use Rattle.std.specs.Prelude.{◌≡◌, ℕ, ◌+◌, ◌-◌, ◌<◌, ◌≤◌, map, length, IfSome, Decides, MatchOption, slice_index_or};
ghost use Rattle.listing.specs.Listing.{Rooted, Next, Numbered};
ghost use Rattle.rows.specs.Rows.{no_row, entry_of};
ghost use Rattle.rows.specs.Breaks.{First, Misnumbered};

use crate::row::Row;
use listing::Target;
use source::Source;

// Whether the root keeps the first rule.
pub fn is_rooted<S: Source>(source: &S) -> bool
    ensures { Decides result (Rooted (S.top source.now) (S.listed source.now)) }
{
    match source.record(0) {
        None => matches!(source.root(), Target::False | Target::True),
        Some(first) => source.root().names(first),
    }
}

// Whether r may come behind p: the next number on p's level, or number 0 on a higher level.
fn is_next(p: Row, r: Row) -> bool
    ensures { Decides result (Next (entry_of p) (entry_of r)) }
{
    if r.level == p.level {
        return r.number > p.number && r.number - p.number == 1;
    }
    r.level > p.level && r.number == 0
}

// The first place but 0 whose row may not come behind the one before it.
fn step_break(rows: &[Row]) -> Option<usize>
    ensures { MatchOption result ((k : ℕ) → k + 1 < length rows.now → Next (entry_of (slice_index_or rows.now k no_row)) (entry_of (slice_index_or rows.now (k + 1) no_row))) (λ p. (0 < p) × (p < length rows.now) × (Next (entry_of (slice_index_or rows.now (p - 1) no_row)) (entry_of (slice_index_or rows.now p no_row)) → ⊥) × ((k : ℕ) → k + 1 < p → Next (entry_of (slice_index_or rows.now k no_row)) (entry_of (slice_index_or rows.now (k + 1) no_row)))) }
{
    rows.array_windows::<2>()
        .position(|[p, r]| !is_next(*p, *r))
        .map(|p| p + 1)
}

// The first place whose record has another number than its predecessor asks.
pub fn number_break(rows: &[Row]) -> Option<usize>
    ensures breaks { MatchOption result (Numbered (map entry_of rows.now)) (First (Misnumbered (map entry_of rows.now))) }
    ensures below { IfSome result (λ p. p < length rows.now) }
{
    if rows.first().is_some_and(|r| r.number != 0) {
        return Some(0);
    }
    step_break(rows)
}
