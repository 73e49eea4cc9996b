// What stops the writing of a text.

ghost use Rattle.std.specs.Prelude.{◌≡◌};
ghost use Rattle.text_writing.specs.Faults.{told_write};

use listing::reports::Report;

/// Why a text is not written.
#[derive(Clone, Copy, PartialEq, Eq)]
pub enum WriteFault {
    /// The buffer is shorter than the text.
    Short,
}

impl From<WriteFault> for Report {
    ghost from_gives = { λ fault report. report ≡ told_write fault };

    /// The fault's number, place and detail.
    fn from(fault: WriteFault) -> Report {
        match fault {
            WriteFault::Short => Report {
                number: 18,
                ..Report::default()
            },
        }
    }
}
