// What ends a run early.

ghost use Rattle.std.specs.Prelude.{◌≡◌};
ghost use Rattle.sweep.specs.declared.faults.RunFault.TheVariants.{Full as OfFull};
ghost use Rattle.sweep.specs.Faults.{told};

use listing::reports::Report;
use pairs::keys::PairKey;
use queue::Refused;

/// Which arc of which row waits in the queue.
#[derive(Clone, Copy)]
pub struct Request {
    pub row: u32,
    pub high: bool,
}

/// Why a run ended early.
#[derive(Clone, Copy)]
pub enum RunFault {
    /// There is no row of this number.
    Row { number: u32 },
    /// The queue is full: it refused an arc, whose request tells its row.
    Full(Refused<PairKey, Request>),
}

// Written out: a derive gives `From` no contract.
impl From<Refused<PairKey, Request>> for RunFault {
    ghost from_gives = { λ x y. y ≡ OfFull x };

    fn from(value: Refused<PairKey, Request>) -> RunFault {
        RunFault::Full(value)
    }
}

impl From<RunFault> for Report {
    ghost from_gives = { λ fault report. report ≡ told fault };

    /// The fault's number, place and detail: 13 with the row's number, 14 with the row whose arc was refused.
    fn from(fault: RunFault) -> Report {
        match fault {
            RunFault::Row { number } => Report {
                number: 13,
                place: number,
                ..Report::default()
            },
            RunFault::Full(refused) => Report {
                number: 14,
                place: refused.element.carried.row,
                ..Report::default()
            },
        }
    }
}
