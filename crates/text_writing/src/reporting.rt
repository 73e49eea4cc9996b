// Writing what is told of a fault: its number, place and detail in three columns of 6 and a line feed.

ghost use Rattle.std.specs.Prelude.{◌≡◌, ◌<◌, length, MatchResult};
ghost use Rattle.text_writing.specs.Writing.{padded, report_line, Reported};

use crate::faults::WriteFault;
use crate::writing::put_number;
use listing::reports::Report;

/// How many bytes the line of a fault has, its line feed included.
pub const REPORT: usize = 19;

// Fills a column of 6.
fn put_column(column: &mut [u8], value: u32)
    requires { length column.old ≡ 6 }
    ensures { column.new ≡ padded 6 value }
{
    put_number(column, value as usize);
}

// Fills a fault's line.
#[tactic(auto, using(crate::proofs::Written::report_made))]
fn put_report(out: &mut [u8], report: Report)
    requires { length out.old ≡ 19 }
    ensures { out.new ≡ report_line report }
{
    put_column(&mut out[0..6], report.number);
    put_column(&mut out[6..12], report.place);
    put_column(&mut out[12..18], report.detail);
    out[18] = b'\n';
}

/// Writes a fault's line to the buffer's front, and tells its length, 19; the bytes behind it stay as they are. Where
/// the buffer is shorter, it says so and writes nothing.
// It answers the length, and not the part that is filled, which would keep the buffer lent.
pub fn write_report(report: Report, buffer: &mut [u8]) -> Result<usize, WriteFault>
    ensures { MatchResult result (λ len. Reported report buffer.old buffer.new len) (λ _. (length buffer.old < 19) × (buffer.new ≡ buffer.old)) }
{
    if buffer.len() < REPORT {
        return Err(WriteFault::Short);
    }
    put_report(&mut buffer[0..REPORT], report);
    Ok(REPORT)
}
