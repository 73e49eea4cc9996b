ghost use Rattle.std.specs.Prelude.{◌≡◌};
ghost use Rattle.rows.specs.Rows.{entry_of, row_of};

use listing::{Record, Target};

/// A work row: a record in the making, its arcs, and what the passes over a level note of it.
/// Rows are equal, and ordered, by their arcs alone: by low, then by high. The default is the row of zeros.
// Arcs may name rows by their places: rows lie in the caller's slice, and the library has no heap.
// While a level is settled: all fields but `image` belong to the row that stands here after the sort;
// `image` belongs to the row that stood here at entry.
#[derive(Clone, Copy, Default)]
#[derive_where(PartialEq, Eq, PartialOrd, Ord)]
pub struct Row {
    pub low: Target,
    pub high: Target,
    #[derive_where(skip(EqHashOrd))]
    pub level: u16,
    #[derive_where(skip(EqHashOrd))]
    pub number: u32,
    #[derive_where(skip(EqHashOrd))]
    pub own: u32,
    #[derive_where(skip(EqHashOrd))]
    pub first: bool,
    #[derive_where(skip(EqHashOrd))]
    pub image: Target,
}

impl From<Record> for Row {
    ghost from_gives = { λ r row. row ≡ row_of r };

    /// The row that holds a record.
    fn from(r: Record) -> Row {
        Row {
            low: r.low,
            high: r.high,
            level: r.level,
            number: r.number,
            ..Row::default()
        }
    }
}

impl From<Row> for Record {
    ghost from_gives = { λ row r. r ≡ entry_of row };

    /// The record that a row describes.
    fn from(row: Row) -> Record {
        Record {
            level: row.level,
            number: row.number,
            low: row.low,
            high: row.high,
        }
    }
}
