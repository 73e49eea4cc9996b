// The core of loading: a source is checked and made normal in the caller's rows, and its normal records are
// written into the caller's record space.

ghost use Rattle.std.specs.Prelude.{◌≡◌, ◌^◌, ◌<◌, ◌≤◌, ◌++◌, map, length, take, drop, replicate, MatchResult};
ghost use Rattle.listing.specs.Listing.{Listing};
ghost use Rattle.reduce.specs.declared.faults.LoadFault.TheVariants as fault;
ghost use Rattle.rows.specs.Rows.{zero_row, given, entry_of};
ghost use Rattle.rows.specs.Placing.{place_records};
ghost use Rattle.reduce.specs.Loading.{Fitting, Works, Loads};

use crate::faults::LoadFault;
use crate::reduce_rows::normalize;
use listing::{Record, Stored};
use rows::checking::check_rules;
use rows::row::Row;
use source::Source;

/// The most records that a source may have to be loaded.
pub const MOST_RECORDS: usize = 65_535;

// Makes the rows, which hold the source's listing with places for numbers, normal.
fn reduce_placed<S: Source>(source: &S, rows: &mut [Row]) -> Stored
    requires few { length rows.old < 2 ^ 32 }
    requires listing { Listing (S.facts source.now) (S.top source.now) (S.listed source.now) }
    requires placed { given 0 rows.old ≡ place_records (S.listed source.now) 0 (S.listed source.now) }
    ensures count { result.count ≤ length rows.new }
    ensures fitting { Fitting (S.facts source.now) (S.top source.now) (S.listed source.now) result.root (map entry_of (take result.count rows.new)) }
{
    if rows.is_empty() {
        return Stored {
            root: source.root(),
            count: 0,
        };
    }
    normalize(rows)
}

// Writes the records of rows in front of the record space, if there is room for them.
fn copy_out(rows: &[Row], records: &mut [Record]) -> Result<(), LoadFault>
    ensures { MatchResult result (λ _. (length rows.now ≤ length records.old) × (records.new ≡ map entry_of rows.now ++ drop (length rows.now) records.old)) (λ f. (f ≡ fault.Space) × (length records.old < length rows.now) × (records.new ≡ records.old)) }
{
    if rows.len() > records.len() {
        return Err(LoadFault::Space);
    }
    // By places: of what is written through `iter_mut` in a `zip` the library tells nothing.
    for (place, row) in rows.iter().enumerate() {
        records[place] = Record::from(*row);
    }
    Ok(())
}

// Checks the source's rules and makes its listing normal, in one row a record, and writes the normal records.
fn load_rows<S: Source>(
    source: &S,
    rows: &mut [Row],
    records: &mut [Record],
) -> Result<Stored, LoadFault>
    requires few { length (S.listed source.now) < 2 ^ 32 }
    requires each { length rows.old ≡ length (S.listed source.now) }
    ensures { Works (S.facts source.now) (S.top source.now) (S.listed source.now) records.old records.new result }
{
    check_rules(source, rows)?;
    let reduced = reduce_placed(source, rows);
    copy_out(&rows[..reduced.count], records)?;
    Ok(reduced)
}

/// Loads a source for n facts: checks it, and writes its normal listing's records in front of the caller's record
/// space, with the rows as work space. Faults, in this order: another n; over 65,535 records; no row for a record; a
/// rule broken; no room for the normal records. The first three touch nothing. After every other outcome the rows
/// taken, one a record, are zeros, and the other rows are as they were; a fault changes no record.
// Two spaces, and no struct of both: a caller would make it for this one call.
pub fn load<S: Source>(
    n: u16,
    source: &S,
    rows: &mut [Row],
    records: &mut [Record],
) -> Result<Stored, LoadFault>
    ensures { Loads n (S.facts source.now) (S.top source.now) (S.listed source.now) (record { rows = rows.old; rows_after = rows.new; records = records.old; records_after = records.new }) result }
{
    if source.n() != n {
        return Err(LoadFault::Facts);
    }
    let count = source.count();
    if count > MOST_RECORDS {
        return Err(LoadFault::Records);
    }
    if count > rows.len() {
        return Err(LoadFault::Row {
            number: rows.len() as u32,
        });
    }
    let taken = &mut rows[..count];
    let loaded = load_rows(source, taken, records);
    taken.fill(Row::default());
    loaded
}
