// What keeps a source from being loaded.

ghost use Rattle.std.specs.Prelude.{◌≡◌};
ghost use Rattle.reduce.specs.declared.faults.LoadFault.TheVariants.{Rule as OfRule};
ghost use Rattle.reduce.specs.Faults.{told};

use listing::reports::Report;
use rows::faults::Break;

/// Why a source is not loaded.
#[derive(Clone, Copy, PartialEq, Eq)]
pub enum LoadFault {
    /// The source's n is another.
    Facts,
    /// The source has over 65,535 records.
    Records,
    /// There is no row for the record of this number.
    Row { number: u32 },
    /// The source's listing breaks a rule.
    Rule(Break),
    /// The normal listing does not fit the record space.
    Space,
}

// Written out: a derive gives `From` no contract.
impl From<Break> for LoadFault {
    ghost from_gives = { λ x y. y ≡ OfRule x };

    fn from(value: Break) -> LoadFault {
        LoadFault::Rule(value)
    }
}

impl From<LoadFault> for Report {
    ghost from_gives = { λ fault r. r ≡ told fault };

    /// The fault's number, place and detail.
    fn from(fault: LoadFault) -> Report {
        match fault {
            LoadFault::Facts => Report {
                number: 10,
                ..Report::default()
            },
            LoadFault::Records => Report {
                number: 11,
                ..Report::default()
            },
            LoadFault::Row { number } => Report {
                number: 13,
                place: number,
                ..Report::default()
            },
            LoadFault::Rule(b) => Report {
                number: 12,
                place: b.place,
                detail: u32::from(b.rule),
            },
            LoadFault::Space => Report {
                number: 15,
                ..Report::default()
            },
        }
    }
}
