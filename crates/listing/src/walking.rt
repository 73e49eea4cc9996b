// The value of a listing in the caller's slice.

ghost use Rattle.std.specs.Prelude.{◌≡◌, map};
ghost use Rattle.listing.specs.Settings.{bit, fact};
ghost use Rattle.listing.specs.Listing.{value};
ghost use Rattle.listing.specs.Meaning.{OnlyValue};

use crate::{Record, Target};

/// What a setting, one byte a fact, gives the fact of a level: only 1 says that it holds.
pub fn fact_of(setting: &[u8], level: u16) -> bool
    ensures { result ≡ fact (map bit setting.now) level }
{
    setting.get(level as usize) == Some(&1)
}

/// The value of `root` at a setting, one byte a fact: from the root, take low where the node's fact is 0,
/// else high, to a terminal. On a listing by the rules this is the only assignment of values to targets
/// that obeys the laws of a value. One pass over the records.
pub fn value_at(records: &[Record], root: Target, setting: &[u8]) -> bool
    ensures value { result ≡ value records.now (map bit setting.now) root }
    ensures only { OnlyValue root records.now (map bit setting.now) }
{
    walk_from(root, records, setting)
}

// Whether the walk from `start` ends in True; carries the theorem that nothing else obeys the laws of a value.
fn walk_from(start: Target, records: &[Record], setting: &[u8]) -> bool
    ensures value { result ≡ value records.now (map bit setting.now) start }
    ensures only { OnlyValue start records.now (map bit setting.now) }
{
    let mut target = start;
    for r in records {
        if target.names(*r) {
            target = r.child(fact_of(setting, r.level));
        }
    }
    target.is_true()
}
