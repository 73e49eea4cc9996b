// What keeps a text from being made normal.

ghost use Rattle.std.specs.Prelude.{◌≡◌};
ghost use Rattle.normalizing.specs.declared.faults.NormalFault.TheVariants.{Text, Load, Write};
ghost use Rattle.normalizing.specs.Faults.{told};

use listing::reports::Report;
use reduce::faults::LoadFault;
use text::faults::TextFault;
use text_writing::faults::WriteFault;

/// Why a text is not made normal.
#[derive(Clone, Copy, PartialEq, Eq)]
pub enum NormalFault {
    /// The input is longer than 15,986 bytes.
    Input,
    /// The text does not open.
    Text(TextFault),
    /// n is outside 1 to 512.
    Facts,
    /// The listing is not loaded.
    Load(LoadFault),
    /// The output is too short for the normal text.
    Write(WriteFault),
}

// The next three are written out: a derive gives `From` no contract.

impl From<TextFault> for NormalFault {
    ghost from_gives = { λ x y. y ≡ Text x };

    fn from(value: TextFault) -> NormalFault {
        NormalFault::Text(value)
    }
}

impl From<LoadFault> for NormalFault {
    ghost from_gives = { λ x y. y ≡ Load x };

    fn from(value: LoadFault) -> NormalFault {
        NormalFault::Load(value)
    }
}

impl From<WriteFault> for NormalFault {
    ghost from_gives = { λ x y. y ≡ Write x };

    fn from(value: WriteFault) -> NormalFault {
        NormalFault::Write(value)
    }
}

impl From<NormalFault> for Report {
    ghost from_gives = { λ fault report. report ≡ told fault };

    /// The fault's number, place and detail.
    fn from(fault: NormalFault) -> Report {
        match fault {
            NormalFault::Input => Report {
                number: 19,
                ..Report::default()
            },
            NormalFault::Text(below) => Report::from(below),
            NormalFault::Facts => Report {
                number: 1,
                ..Report::default()
            },
            NormalFault::Load(below) => Report::from(below),
            NormalFault::Write(below) => Report::from(below),
        }
    }
}
