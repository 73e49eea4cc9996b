// Writing a text: any source's listing, into the caller's buffer, in columns as specs/Writing has them. Each number
// is written from its last digit on, so a text costs one division by ten a byte, and nothing is allocated.

ghost use Rattle.std.specs.Prelude.{◌≡◌, ◌+◌, ◌*◌, ◌<◌, ◌≤◌, length, take, IfOk, MatchOption, MatchResult};
ghost use Rattle.std.specs.List.{flat_map};
ghost use Rattle.text_writing.specs.Writing.{lead, padded, pair, number_of, aim, header, line, Wrote, OpensAgain};

use crate::faults::WriteFault;
use listing::{Record, Target};
use source::Source;
use source::walking::each_record;
use text::opening::{HEADER, LINE};

// The last digit of what is left of a number, or a blank where nothing is left.
fn lead(rest: usize) -> u8
    ensures { result ≡ lead rest }
{
    if rest == 0 {
        b' '
    } else {
        b'0' + (rest % 10) as u8
    }
}

// Fills a column with a number.
pub(crate) fn put_number(column: &mut [u8], value: usize)
    requires { 0 < length column.old }
    ensures { column.new ≡ padded (length column.old) value }
{
    let last = column.len() - 1;
    column[last] = b'0' + (value % 10) as u8;
    let mut rest = value / 10;
    // By places: of what is written through `iter_mut().rev()` the library tells nothing.
    for i in (0..last).rev() {
        column[i] = lead(rest);
        rest /= 10;
    }
}

// Fills two columns, 4 and 6 wide.
#[tactic(auto, using(crate::proofs::Written::pair_made), unfolding(crate::specs::Writing::pair))]
fn put_pair(columns: &mut [u8], first: usize, second: usize)
    requires { length columns.old ≡ 10 }
    ensures { columns.new ≡ pair first second }
{
    put_number(&mut columns[0..4], first);
    put_number(&mut columns[4..10], second);
}

// The number that a target is written by.
fn number_of(target: Target) -> u32
    ensures { result ≡ number_of target }
{
    match target {
        Target::Node { number, .. } => number,
        Target::False => 0,
        Target::True => 1,
    }
}

// Fills a target's two columns.
fn put_target(columns: &mut [u8], n: u16, target: Target)
    requires { length columns.old ≡ 10 }
    ensures { columns.new ≡ aim n target }
{
    put_pair(
        columns,
        target.depth(n) as usize,
        number_of(target) as usize,
    );
}

// Fills the header line of the text of a listing of `count` records.
#[tactic(auto, using(crate::proofs::Written::head_made), unfolding(crate::specs::Writing::header))]
fn put_heading(out: &mut [u8], n: u16, count: usize, root: Target)
    requires { length out.old ≡ 21 }
    ensures { out.new ≡ header n count root }
{
    put_pair(&mut out[0..10], n as usize, count);
    put_target(&mut out[10..20], n, root);
    out[20] = b'\n';
}

// Fills the header line of a source's text.
fn put_header<S: Source>(source: &S, out: &mut [u8])
    requires { length out.old ≡ 21 }
    ensures { out.new ≡ header (S.facts source.now) (length (S.listed source.now)) (S.top source.now) }
{
    put_heading(out, source.n(), source.count(), source.root());
}

// Fills a record's line.
#[tactic(auto, using(crate::proofs::Written::line_made), unfolding(crate::specs::Writing::columns))]
fn put_line(out: &mut [u8], n: u16, r: Record)
    requires { length out.old ≡ 31 }
    ensures { out.new ≡ line n r }
{
    put_pair(&mut out[0..10], r.level as usize, r.number as usize);
    put_target(&mut out[10..20], n, r.low);
    put_target(&mut out[20..30], n, r.high);
    out[30] = b'\n';
}

// Fills the lines behind the header, one for each record.
fn put_lines<S: Source>(source: &S, out: &mut [u8])
    requires { length out.old ≡ 31 * length (S.listed source.now) }
    ensures { out.new ≡ flat_map (line (S.facts source.now)) (S.listed source.now) }
{
    let n = source.n();
    // By places: of what is written through `chunks_exact_mut` or `as_chunks_mut` the library tells nothing.
    for (place, r) in each_record(source).enumerate() {
        let at = LINE * place;
        put_line(&mut out[at..at + LINE], n, r);
    }
}

// Writes the whole text, `len` bytes long, and carries the theorem that it tells the listing again.
fn put_text<S: Source>(source: &S, out: &mut [u8], len: usize)
    requires size { len ≡ 21 + 31 * length (S.listed source.now) }
    requires within { len ≤ length out.old }
    ensures wrote { Wrote (S.facts source.now) (S.top source.now) (S.listed source.now) out.old out.new len }
    ensures again { OpensAgain (S.facts source.now) (S.top source.now) (S.listed source.now) (take len out.new) }
{
    put_header(source, &mut out[0..HEADER]);
    put_lines(source, &mut out[HEADER..len]);
}

// How many bytes the text of `count` records has, absent where `room` bytes do not hold it.
fn text_len(count: usize, room: usize) -> Option<usize>
    ensures { MatchOption result (room < 21 + 31 * count) (λ len. (len ≡ 21 + 31 * count) × (len ≤ room)) }
{
    let len = LINE.checked_mul(count)?.checked_add(HEADER)?;
    if len <= room { Some(len) } else { None }
}

/// Writes the text of a source's listing to the buffer's front, and tells its length, 21 + 31 × N; the bytes behind
/// it stay as they are. Where the buffer is shorter, it says so and writes nothing. Whatever listing by the rules the
/// source tells, with at most 9,999 facts and 999,999 records, opening the text tells it again. One pass over the
/// records and the bytes.
// It answers the length, and not the part that is filled, which would keep the buffer lent.
pub fn write<S: Source>(source: &S, buffer: &mut [u8]) -> Result<usize, WriteFault>
    ensures wrote { MatchResult result (λ len. Wrote (S.facts source.now) (S.top source.now) (S.listed source.now) buffer.old buffer.new len) (λ _. (length buffer.old < 21 + 31 * length (S.listed source.now)) × (buffer.new ≡ buffer.old)) }
    ensures again { IfOk result (λ len. OpensAgain (S.facts source.now) (S.top source.now) (S.listed source.now) (take len buffer.new)) }
{
    let len = text_len(source.count(), buffer.len()).ok_or(WriteFault::Short)?;
    put_text(source, buffer, len);
    Ok(len)
}
