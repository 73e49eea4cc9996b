// From a text's bytes to its normal text's bytes.

ghost use Rattle.std.specs.Prelude.{◌≡◌, ◌+◌, ◌*◌, ◌<◌, ◌≤◌, length, take, Err, MatchResult};
ghost use Rattle.text_writing.specs.Writing.{Wrote, OpensAgain};
ghost use Rattle.normalizing.specs.Texts.{Normalized, Printed, Answered};

use crate::faults::NormalFault;
use listing::reports::Report;
use listing::settings::facts_allowed;
use listing::{Record, Stored};
use reduce::loading::load;
use rows::row::Row;
use source::Source;
use source::records::Records;
use text::opening::{HEADER, LINE, Text};
use text_writing::faults::WriteFault;
use text_writing::reporting::write_report;
use text_writing::writing::write;

/// The most records that an input may have.
pub const MOST_RECORDS: usize = 515;

/// The most bytes that an input may have: a header and 515 records.
pub const MOST_BYTES: usize = HEADER + LINE * MOST_RECORDS;

/// Makes a text normal: writes the text of the normal listing of the input's value to the output's front, and tells
/// its length. Faults, in this order: an input over 15,986 bytes; opening's; n outside 1 to 512; loading's; an
/// output too short. A fault leaves the output as it was. The rows and the records are work space, one of each for a
/// record of the input.
// Spaces one by one: a struct of them would be made for one call. It answers the length, and not the part that is filled, which
// would keep the output lent; so does `normal_bytes`.
pub fn normal_text(
    input: &[u8],
    rows: &mut [Row],
    records: &mut [Record],
    output: &mut [u8],
) -> Result<usize, NormalFault>
    ensures { Normalized input.now (record { rows = rows.old; rows_after = rows.new; records = records.old; records_after = records.new }) output.old output.new result }
{
    if input.len() > MOST_BYTES {
        return Err(NormalFault::Input);
    }
    let text = Text::open(input)?;
    let n = text.n();
    if !facts_allowed(n) {
        return Err(NormalFault::Facts);
    }
    let loaded = load(n, &text, rows, records)?;
    let len = write_front(n, loaded, records, output)?;
    Ok(len)
}

/// The bytes that the program `normal` puts out for an input, and their number: the normal text, or the line of the
/// fault, its number, place and detail in columns of 6. An output too short for that line is told and left alone.
pub fn normal_bytes(
    input: &[u8],
    rows: &mut [Row],
    records: &mut [Record],
    output: &mut [u8],
) -> Result<usize, WriteFault>
    ensures { Answered input.now (record { rows = rows.old; rows_after = rows.new; records = records.old; records_after = records.new }) output.old output.new result }
{
    match normal_text(input, rows, records, output) {
        Ok(len) => Ok(len),
        Err(fault) => print_fault(fault, output),
    }
}

// Writes the line of a fault, if there is room for it.
fn print_fault(fault: NormalFault, output: &mut [u8]) -> Result<usize, WriteFault>
    ensures { Printed (Err fault) output.old output.new result }
{
    write_report(Report::from(fault), output)
}

// Writes the text of the listing whose records stand in front.
fn write_front(
    n: u16,
    loaded: Stored,
    records: &[Record],
    output: &mut [u8],
) -> Result<usize, WriteFault>
    requires { loaded.count ≤ length records.now }
    ensures { MatchResult result (λ len. Wrote n loaded.root (take loaded.count records.now) output.old output.new len × OpensAgain n loaded.root (take loaded.count records.now) (take len output.new)) (λ _. (length output.old < 21 + 31 * loaded.count) × (output.new ≡ output.old)) }
{
    let count = loaded.count;
    write(
        &Records {
            n,
            root: loaded.root,
            records: &records[..count],
        },
        output,
    )
}
