// Small listings that show what the definitions mean.

ghost use Rattle.std.specs.Prelude.{◌≡◌, true, false};
ghost use Rattle.listing.specs.declared.Target.TheVariants.{Node, False, True};
ghost use Rattle.listing.specs.Listing.{Tested, Sorted};
ghost use Rattle.listing.specs.Tests.{same_target, within, tested, sorted, is_listing, is_normal, agrees};
ghost use Rattle.listing.specs.Samples.{Stands, Confused};

use crate::{Record, Target};

/// The normal listing, over three facts, of "just one of the facts 0 and 1 holds".
pub fn exclusive_or() -> [Record; 3]
    ensures { Stands 3 (Node 0 0) result }
{
    let records = [
        Record {
            level: 0,
            number: 0,
            low: Target::Node {
                level: 1,
                number: 0,
            },
            high: Target::Node {
                level: 1,
                number: 1,
            },
        },
        Record {
            level: 1,
            number: 0,
            low: Target::False,
            high: Target::True,
        },
        Record {
            level: 1,
            number: 1,
            low: Target::True,
            high: Target::False,
        },
    ];
    stands(
        3,
        Target::Node {
            level: 0,
            number: 0,
        },
        &records,
    );
    records
}

/// A listing whose records rise on each level, with a record that does not test its fact:
/// its node and True have one value.
pub fn idle_test() -> [Record; 1]
    ensures sorted { Sorted result }
    ensures confused { Confused 1 (Node 0 0) result (Node 0 0) True }
{
    let arc = Target::True;
    let records = [Record {
        level: 0,
        number: 0,
        low: arc,
        high: arc,
    }];
    let root = Target::Node {
        level: 0,
        number: 0,
    };
    rises(&records);
    confuses(1, root, &records, root, Target::True);
    records
}

/// A listing whose records all test their facts, with two equal records on one level:
/// their nodes have one value.
pub fn twin_records() -> [Record; 3]
    ensures tested { Tested result }
    ensures confused { Confused 2 (Node 0 0) result (Node 1 0) (Node 1 1) }
{
    let records = [
        Record {
            level: 0,
            number: 0,
            low: Target::Node {
                level: 1,
                number: 0,
            },
            high: Target::Node {
                level: 1,
                number: 1,
            },
        },
        Record {
            level: 1,
            number: 0,
            low: Target::False,
            high: Target::True,
        },
        Record {
            level: 1,
            number: 1,
            low: Target::False,
            high: Target::True,
        },
    ];
    tests_facts(&records);
    confuses(
        2,
        records[0].node(),
        &records,
        records[1].node(),
        records[2].node(),
    );
    records
}

// These carry the theorems that the tests decide the rules, the halves of the normal form, and agreement at all
// settings: what is computed of a listing at the call is then known of it.

fn stands(n: u16, root: Target, records: &[Record])
    requires listing { is_listing n root records.now ≡ true }
    requires normal { is_normal records.now ≡ true }
    ensures { Stands n root records.now }
{}

fn rises(records: &[Record])
    requires { sorted records.now ≡ true }
    ensures { Sorted records.now }
{}

fn tests_facts(records: &[Record])
    requires { tested records.now ≡ true }
    ensures { Tested records.now }
{}

fn confuses(n: u16, root: Target, records: &[Record], t: Target, u: Target)
    requires listing { is_listing n root records.now ≡ true }
    requires first { within records.now t ≡ true }
    requires second { within records.now u ≡ true }
    requires alike { agrees n records.now t records.now u ≡ true }
    requires differ { same_target t u ≡ false }
    ensures { Confused n root records.now t u }
{}
