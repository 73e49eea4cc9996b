// The places of nodes: where rows hold records in order, a node is found by halving. The fourth rule, which puts places
// in the arcs.

ghost use Rattle.std.specs.Prelude.{◌≡◌, ◌^◌, ◌<◌, map, length, IfSome, MatchOption};
ghost use Rattle.listing.specs.declared.Target.TheVariants.{Node};
ghost use Rattle.listing.specs.Listing.{Within, Numbered, Targeted};
ghost use Rattle.rows.specs.Rows.{entry_of, row_of};
ghost use Rattle.rows.specs.Breaks.{First, Mistargeted};
ghost use Rattle.rows.specs.Placing.{placing, placed_arcs, placed_row, AtPlace, KeptTarget, KeptTargets};

use crate::row::Row;
use listing::{Record, Target};

// The place of a node's row. By level and number, and no target: for a terminal nothing of the kind holds.
fn find(rows: &[Row], level: u16, number: u32) -> Option<usize>
    requires { Numbered (map entry_of rows.now) }
    ensures { MatchOption result (Within (map entry_of rows.now) (Node level number) → ⊥) (AtPlace (map entry_of rows.now) (Node level number)) }
{
    rows.binary_search_by_key(&Target::Node { level, number }, |r| Record::from(*r).node())
        .ok()
}

// That rows are few, in order, and hold records alone is asked of each: a struct that says so would have to borrow the rows that
// are written, and be taken apart wherever a part of them is passed on.

// A target with its place for its number, absent where it is neither a terminal nor a node of the rows above the level.
fn placed(rows: &[Row], level: u16, t: Target) -> Option<Target>
    requires numbered { Numbered (map entry_of rows.now) }
    requires few { length rows.now < 2 ^ 32 }
    ensures { MatchOption result (KeptTarget (map entry_of rows.now) level t → ⊥) (λ u. KeptTarget (map entry_of rows.now) level t × (u ≡ placing (map entry_of rows.now) t)) }
{
    let Target::Node { level: own, number } = t else {
        return Some(t);
    };
    if own <= level {
        return None;
    }
    let place = find(rows, own, number)?;
    Some(Target::Node {
        level: own,
        number: place as u32,
    })
}

// A row with places in its arcs, absent where an arc breaks the fourth rule.
fn placed_in(rows: &[Row], row: Row) -> Option<Row>
    requires numbered { Numbered (map entry_of rows.now) }
    requires few { length rows.now < 2 ^ 32 }
    ensures { MatchOption result (KeptTargets (map entry_of rows.now) (entry_of row) → ⊥) (λ r. KeptTargets (map entry_of rows.now) (entry_of row) × (r ≡ placed_arcs (map entry_of rows.now) row)) }
{
    let low = placed(rows, row.level, row.low)?;
    let high = placed(rows, row.level, row.high)?;
    Some(Row { low, high, ..row })
}

// Puts places in the arcs of rows that hold records; the first place whose record breaks the fourth rule ends it.
pub fn target_break(rows: &mut [Row]) -> Option<usize>
    requires numbered { Numbered (map entry_of rows.old) }
    requires few { length rows.old < 2 ^ 32 }
    requires held { map row_of (map entry_of rows.old) ≡ rows.old }
    ensures breaks { MatchOption result (Targeted (map entry_of rows.old) × (rows.new ≡ map (placed_row (map entry_of rows.old)) (map entry_of rows.old))) (First (Mistargeted (map entry_of rows.old))) }
    ensures below { IfSome result (λ p. p < length rows.old) }
{
    // By index: nodes are searched in the rows that are written.
    for place in 0..rows.len() {
        let Some(row) = placed_in(rows, rows[place]) else {
            return Some(place);
        };
        rows[place] = row;
    }
    None
}
