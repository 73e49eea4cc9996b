// Sources: whatever can tell a listing's n, root and records.
// A source's meaning is n, a root and a list of records; nothing says yet that they keep the rules of a listing.

#![tactic(auto)]

ghost use Rattle.std.specs.Prelude.{◌≡◌, ℕ, List, length};
ghost use Rattle.std.specs.List.{slice_get};
ghost use Rattle.listing.specs.declared.Target.{Target};
ghost use Rattle.listing.specs.declared.Record.{Record};

use listing::{Record, Target};

pub mod counting;
pub mod exchange;
pub mod records;
pub mod references;
pub mod walking;

/// Tells a listing. Asking changes nothing.
pub trait Source {
    // Three members, and no record of them: the definitions speak of a listing's parts, which listings in slices have too.

    // the number of facts
    ghost facts: { Self → ℕ };

    // the root
    ghost top: { Self → Target };

    // the records, by their places from 0
    ghost listed: { Self → List Record };

    /// The number of facts, n.
    fn n(&self) -> u16
        ensures { result ≡ facts self.now };

    /// The root.
    fn root(&self) -> Target
        ensures { result ≡ top self.now };

    /// The number of records, N.
    fn count(&self) -> usize
        ensures { result ≡ length (listed self.now) };

    /// The record at a place, absent exactly where the place is N or more.
    fn record(&self, place: usize) -> Option<Record>
        ensures { result ≡ slice_get (listed self.now) place };
}
