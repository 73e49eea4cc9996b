// The column reader: a column is the bytes of one number, which stands at their right end after blanks.

ghost use Rattle.std.specs.Prelude.{◌≡◌, ◌^◌, ◌<◌, ◌≤◌, ◌==◌, not, length, position, MatchOption, Some};
ghost use Rattle.std.specs.Option.{unwrap_or};
ghost use Rattle.text.specs.Columns.{digits, numeral};

// The number that the digits of `text` make.
fn digits_of(text: &[u8]) -> Option<u32>
    requires { length text.now ≤ 9 }
    ensures value { result ≡ digits 0 text.now }
    ensures below { MatchOption result (0 < 10 ^ length text.now) (λ v. v < 10 ^ length text.now) }
{
    let mut value: u32 = 0;
    for b in text {
        if !b.is_ascii_digit() {
            return None;
        }
        value = value * 10 + (*b - b'0') as u32;
    }
    Some(value)
}

// Where the blanks of a column end.
fn behind_blanks(column: &[u8]) -> Option<usize>
    ensures { result ≡ position (λ b. not (b == 32)) column.now }
{
    column.iter().position(|b| *b != b' ')
}

// The number in a column whose blanks end at `first`.
fn number_from(column: &[u8], first: usize) -> Option<u32>
    requires narrow { length column.now ≤ 9 }
    requires first { Some first ≡ position (λ b. not (b == 32)) column.now }
    ensures value { result ≡ numeral column.now }
    ensures below { MatchOption result (0 < 10 ^ length column.now) (λ v. v < 10 ^ length column.now) }
{
    let text = &column[first..];
    if text[0] != b'0' {
        digits_of(text)
    } else if text.len() == 1 {
        Some(0)
    } else {
        None
    }
}

// The number in a column, absent where the bytes are not blanks and then a decimal number without needless zeros.
#[tactic(auto, using(crate::proofs::Numbers::blank_all, crate::proofs::Numbers::below_absent))]
pub fn number_in(column: &[u8]) -> Option<u32>
    requires narrow { length column.now ≤ 9 }
    ensures value { result ≡ numeral column.now }
    ensures below { MatchOption result (0 < 10 ^ length column.now) (λ v. v < 10 ^ length column.now) }
{
    let first = behind_blanks(column)?;
    number_from(column, first)
}

// The number in a column, or 0 where it is malformed: what a text says is told of all bytes, and its first fault apart.
pub fn value_in(column: &[u8]) -> u32
    requires narrow { length column.now ≤ 9 }
    ensures value { result ≡ unwrap_or (numeral column.now) 0 }
    ensures below { result < 10 ^ length column.now }
{
    number_in(column).unwrap_or(0)
}

// The same in a column of a level.
pub fn level_in(column: &[u8]) -> u16
    requires narrow { length column.now ≤ 4 }
    ensures { result ≡ unwrap_or (numeral column.now) 0 }
{
    value_in(column) as u16
}
