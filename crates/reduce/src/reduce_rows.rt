// Reduction of rows whose arcs name places, from the deepest level up; the first of their kind come to the front.
// It is for the crates above, which prove that their rows are numbered by their places. That rows are few, so that places are
// numbers, is asked of each function: a struct that says so would be taken apart wherever a part of the rows is passed on.

ghost use Rattle.std.specs.Prelude.{◌≡◌, ℕ, ◌^◌, ◌<◌, ◌≤◌, map, length, take};
ghost use Rattle.listing.specs.declared.Target.{Target};
ghost use Rattle.rows.specs.Rows.{given, entry_of};
ghost use Rattle.reduce.specs.Passes.{kept};
ghost use Rattle.reduce.specs.Reduction.{Rowing};
ghost use Rattle.reduce.specs.Contract.{Normalizes};

use crate::settle::settle_level;
use crate::starts::level_start;
use listing::{Stored, Target};
use rows::row::Row;

// Reduces rows that are named by their places to the normal listing, and returns its root.
// Its records are those of the rows marked as the first of their kind.
fn reduce(rows: &mut [Row]) -> Target
    requires some { 0 < length rows.old }
    requires small { length rows.old < 2 ^ 32 }
    requires rows { (n : ℕ) × (root : Target) × Rowing n root (given 0 rows.old) }
    ensures { (n : ℕ) (root : Target) → Rowing n root (given 0 rows.old) → Normalizes n root (given 0 rows.old) result (kept rows.new) }
{
    // By index, from the end: settling a level reads rows of deeper ones.
    let mut b = rows.len();
    while b > 0 {
        let a = level_start(rows, b);
        settle_level(rows, a, b);
        b = a;
    }
    rows[0].image
}

// Brings the rows that are the first of their kind to the front, in their order, and counts them.
fn compact(rows: &mut [Row]) -> usize
    ensures count { result ≤ length rows.old }
    ensures records { map entry_of (take result rows.new) ≡ kept rows.old }
{
    let mut count: usize = 0;
    let n = rows.len();
    // By index: rows move forward in the same slice.
    for k in 0..n {
        let r = rows[k];
        if r.first {
            rows[count] = r;
            count += 1;
        }
    }
    count
}

/// Reduces rows that are named by their places to the normal listing, which stands in the first rows after.
/// It is public only for a crate above that made the rows: it asks that they are some, few enough for their numbers, and
/// by the rules with places for numbers, which that crate proves. What the other rows hold after is left free.
/// Costs O(N log N), from the sort of each level.
pub fn normalize(rows: &mut [Row]) -> Stored
    requires some { 0 < length rows.old }
    requires small { length rows.old < 2 ^ 32 }
    requires rows { (n : ℕ) × (root : Target) × Rowing n root (given 0 rows.old) }
    ensures count { result.count ≤ length rows.old }
    ensures normal { (n : ℕ) (root : Target) → Rowing n root (given 0 rows.old) → Normalizes n root (given 0 rows.old) result.root (map entry_of (take result.count rows.new)) }
{
    let root = reduce(rows);
    let count = compact(rows);
    Stored { root, count }
}
