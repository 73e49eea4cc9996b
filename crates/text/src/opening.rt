// Opening a text: its columns and its length are checked, in the order of specs/Layout; the text that comes of
// it borrows the bytes and reads each record from them when asked.

ghost use Rattle.std.specs.Prelude.{◌≡◌, ◌+◌, ◌-◌, ◌*◌, ◌/◌, ◌%◌, ◌<◌, ◌≤◌, cond, ◌==◌, length, take, drop, Some, None, MatchResult};
ghost use Rattle.std.specs.Simd.{first_chunks};
ghost use Rattle.text.specs.Layout.{width, line_fault, at_line, target_of, record_of, lines_fault, facts_of, root_of, text_fault, Finds};
ghost use Rattle.text.specs.declared.faults.TextFault.TheVariants.{Length};

use crate::columns::{level_in, number_in, value_in};
use crate::faults::TextFault;
use listing::{Record, Target};
use source::Source;

/// How many bytes the header line has, its line feed included.
pub const HEADER: usize = 21;

/// How many bytes a record's line has, its line feed included.
pub const LINE: usize = 31;

/// A text that was opened: it borrows the caller's bytes, in which there is no fault, and copies nothing but n and
/// the root.
#[derive(Clone, Copy)]
pub struct Text<'a> {
    bytes: &'a [u8],
    n: u16,
    root: Target,
    ghost faultless: { text_fault bytes.now ≡ None },
    ghost n_read: { n ≡ facts_of bytes.now },
    ghost root_read: { root ≡ root_of bytes.now },
}

// How wide the column at place k of a line is, from 0.
fn width_of(k: u32) -> usize
    ensures width { result ≡ width k }
    ensures next { 10 * (k / 2) + 4 * (k % 2) + result ≡ 10 * ((k + 1) / 2) + 4 * ((k + 1) % 2) }
    ensures narrow { result ≤ 6 }
{
    if k % 2 == 0 { 4 } else { 6 }
}

// The first fault of a line: columns count from 1, and the line feed comes last.
fn check_line(bytes: &[u8], line: u32, columns: u32) -> Result<(), TextFault>
    requires within { 5 * columns < length bytes.now }
    requires few { columns ≤ 6 }
    requires even { columns % 2 ≡ 0 }
    ensures { Finds (at_line (line_fault columns 0 bytes.now) line None) result }
{
    let mut rest = bytes;
    // By number: a column's number gives its width, and is told where it is malformed.
    for k in 0..columns {
        let (column, behind) = rest.split_at(width_of(k));
        number_in(column).ok_or(TextFault::Column {
            line,
            column: k + 1,
        })?;
        rest = behind;
    }
    if rest[0] == b'\n' {
        Ok(())
    } else {
        Err(TextFault::Column {
            line,
            column: columns + 1,
        })
    }
}

// The first fault behind a header that names `count` records: the length has to fit, then each line is tested.
fn check_lines(bytes: &[u8], count: u32) -> Result<(), TextFault>
    requires { count < 1000000 }
    ensures { Finds (cond (length bytes.now == 31 * count) (lines_fault count 1 bytes.now) (Some Length)) result }
{
    if bytes.len() != LINE * count as usize {
        return Err(TextFault::Length);
    }
    let (lines, _) = bytes.as_chunks::<LINE>();
    for (i, line) in lines.iter().enumerate() {
        check_line(line, i as u32 + 1, 6)?;
    }
    Ok(())
}

// The first fault of a header, which is line 0.
fn check_header(header: &[u8; HEADER]) -> Result<(), TextFault>
    ensures { Finds (at_line (line_fault 4 0 header.now) 0 None) result }
{
    check_line(header, 0, 4)
}

// The header of a text without a fault, or the first fault.
fn checked(bytes: &[u8]) -> Result<&[u8; HEADER], TextFault>
    ensures { MatchResult result (λ header. (text_fault bytes.now ≡ None) × (header.now ≡ take 21 bytes.now)) (λ f. text_fault bytes.now ≡ Some f) }
{
    let Some((header, lines)) = bytes.split_first_chunk::<HEADER>() else {
        return Err(TextFault::Length);
    };
    check_header(header)?;
    check_lines(lines, value_in(&header[4..10]))?;
    Ok(header)
}

// The target that a level and a number stand for: on level n, 0 is False and 1 is True.
fn target_of(n: u16, level: u16, number: u32) -> Target
    ensures { result ≡ target_of n level number }
{
    match number {
        0 if level == n => Target::False,
        1 if level == n => Target::True,
        _ => Target::Node { level, number },
    }
}

// The record on a line. Columns are cut where they stand: a function of a target's two was tried, and what it says of its part
// then takes lemmas to say of the line.
fn record_of(n: u16, line: &[u8; LINE]) -> Record
    ensures { result ≡ record_of n line.now }
{
    Record {
        level: level_in(&line[0..4]),
        number: value_in(&line[4..10]),
        low: target_of(n, level_in(&line[10..14]), value_in(&line[14..20])),
        high: target_of(n, level_in(&line[20..24]), value_in(&line[24..30])),
    }
}

impl<'a> Text<'a> {
    ghost use Rattle.std.specs.List.{slice_get};
    ghost use Rattle.text.specs.Opened.{listed_of, Opened};

    /// Opens a text, or tells its first fault: under 21 bytes; then the header's columns; then the length,
    /// 21 + 31 × N; then the columns of each line. Where it opens, every column of every line is well formed,
    /// and n, root and records are those that the bytes spell. One pass over the bytes.
    pub fn open(bytes: &'a [u8]) -> Result<Text<'a>, TextFault>
        ensures { MatchResult result (λ t. Opened bytes.now t) (λ f. text_fault bytes.now ≡ Some f) }
    {
        let header = checked(bytes)?;
        Ok(Text::behind(header, bytes))
    }

    // The text of bytes without a fault, of which `header` is the header.
    fn behind(header: &[u8; HEADER], bytes: &'a [u8]) -> Text<'a>
        requires front { header.now ≡ take 21 bytes.now }
        requires faultless { text_fault bytes.now ≡ None }
        ensures { Opened bytes.now result }
    {
        let n = level_in(&header[0..4]);
        let root = target_of(n, level_in(&header[10..14]), value_in(&header[14..20]));
        Text { bytes, n, root }
    }

    // The records' lines.
    fn lines(&self) -> &'a [[u8; LINE]]
        ensures chunks { result.now ≡ first_chunks 31 ((length self.now.bytes.now - 21) / 31) (drop 21 self.now.bytes.now) }
        ensures count { length result.now ≡ length (listed_of self.now) }
    {
        self.bytes[HEADER..].as_chunks::<LINE>().0
    }

    // The record on the line at a place.
    fn record_at(&self, place: usize) -> Option<Record>
        ensures { result ≡ slice_get (listed_of self.now) place }
    {
        let line = self.lines().get(place)?;
        Some(record_of(self.n, line))
    }
}

impl<'a> Source for Text<'a> {
    ghost use Rattle.text.specs.Opened.{listed_of};

    ghost facts = { λ s. s.n };

    ghost top = { λ s. s.root };

    ghost listed = { λ s. listed_of s };

    fn n(&self) -> u16 {
        self.n
    }

    fn root(&self) -> Target {
        self.root
    }

    fn count(&self) -> usize {
        self.lines().len()
    }

    fn record(&self, place: usize) -> Option<Record> {
        self.record_at(place)
    }
}
