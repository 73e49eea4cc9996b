// The fifth rule, on rows whose arcs name places: every row but the first is named by an arc.

ghost use Rattle.std.specs.Prelude.{◌≡◌, ℕ, ◌<◌, true, false, map, length, MatchOption, slice_index_or};
ghost use Rattle.rows.specs.Rows.{no_row, Inside, AllInside};
ghost use Rattle.rows.specs.Marks.{bare, marked, Marks, Unnamed, AllNamed};
ghost use Rattle.rows.specs.Breaks.{First};

use crate::row::Row;
use listing::Target;

// Marks the row that a target names.
fn mark(rows: &mut [Row], t: Target)
    requires { Inside (length rows.old) t }
    ensures { rows.new ≡ marked t rows.old }
{
    if let Target::Node { number, .. } = t {
        rows[number as usize].first = true;
    }
}

// Marks each row that an arc names. No row is marked before.
fn mark_targets(rows: &mut [Row])
    requires inside { AllInside (length rows.old) rows.old }
    requires bare { map bare rows.old ≡ rows.old }
    ensures bare { map bare rows.new ≡ rows.old }
    ensures marks { Marks rows.old (length rows.old) rows.new }
{
    // By index: the rows that are marked are others than the one whose arcs are read.
    for place in 0..rows.len() {
        let row = rows[place];
        mark(rows, row.low);
        mark(rows, row.high);
    }
}

// The first place but 0 whose row is not marked.
fn first_unmarked(rows: &[Row]) -> Option<usize>
    ensures { MatchOption result ((k : ℕ) → 0 < k → k < length rows.now → (slice_index_or rows.now k no_row).first ≡ true) (λ p. (0 < p) × (p < length rows.now) × ((slice_index_or rows.now p no_row).first ≡ false) × ((k : ℕ) → 0 < k → k < p → (slice_index_or rows.now k no_row).first ≡ true)) }
{
    rows.iter().skip(1).position(|r| !r.first).map(|p| p + 1)
}

// The first place but 0 that no arc names. Nothing but marks is changed.
pub fn aim_break(rows: &mut [Row]) -> Option<usize>
    requires inside { AllInside (length rows.old) rows.old }
    requires bare { map bare rows.old ≡ rows.old }
    ensures bare { map bare rows.new ≡ rows.old }
    ensures aims { MatchOption result (AllNamed rows.old) (First (Unnamed rows.old)) }
{
    mark_targets(rows);
    first_unmarked(rows)
}
