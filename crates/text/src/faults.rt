// What is wrong with a text.

ghost use Rattle.std.specs.Prelude.{◌≡◌, Some};
ghost use Rattle.text.specs.Faults.{told, words};

use listing::reports::Report;
use std::fmt;

/// Why a text is not opened.
#[derive(Clone, Copy, PartialEq, Eq)]
pub enum TextFault {
    /// The text is shorter than a header, or its length does not fit the number of records that the header names.
    Length,
    /// A column is not blanks and then a decimal number without needless zeros, or a line does not end in a
    /// line feed. The header is line 0; columns count from 1, the line feed being the last.
    Column { line: u32, column: u32 },
}

impl From<TextFault> for Report {
    ghost from_gives = { λ fault report. report ≡ told fault };

    /// The fault's number, place and detail.
    fn from(fault: TextFault) -> Report {
        match fault {
            TextFault::Length => Report {
                number: 3,
                ..Report::default()
            },
            TextFault::Column { line, column } => Report {
                number: 4,
                place: line,
                detail: column,
            },
        }
    }
}

impl fmt::Display for TextFault {
    ghost output = { λ fault. Some (words fault) };

    fn fmt<W: fmt::Write>(&self, f: &mut fmt::Formatter<W>) -> fmt::Result {
        f.write_str(match self {
            TextFault::Length => "the text's length is wrong",
            TextFault::Column { .. } => "a column is malformed",
        })
    }
}
