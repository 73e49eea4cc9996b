// Texts made normal: what comes out for a table of inputs.

use listing::{Record, Target};
use normalizing::texts::{MOST_BYTES, MOST_RECORDS, normal_bytes};
use rows::row::Row;
use source::records::Records;
use text_writing::writing::write;

// Whether the bytes that come out for an input are those wanted.
fn gives(input: &[u8], wanted: &[u8]) -> bool {
    let mut rows = [Row::default(); MOST_RECORDS];
    let mut records = [Record::default(); MOST_RECORDS];
    let mut output = [0u8; MOST_BYTES];
    match normal_bytes(input, &mut rows, &mut records, &mut output) {
        Ok(len) => output.get(..len) == Some(wanted),
        Err(_) => false,
    }
}

#[test]
fn records_are_merged(rt: HostRuntime) {
    assert!(rt;
        gives(
            b"   2     3   0     0\n   0     0   1     0   1     1\n   1     0   2     0   2     1\n   1     1   2     0   2     1\n",
            b"   2     1   1     0\n   1     0   2     0   2     1\n",
        )
    );
    assert!(rt;
        gives(
            b"   3     5   0     0\n   0     0   1     0   1     1\n   1     0   2     0   2     1\n   1     1   2     1   2     0\n   2     0   3     0   3     1\n   2     1   3     0   3     1\n",
            b"   3     1   2     0\n   2     0   3     0   3     1\n",
        ),
        "idle tests and twins on every level"
    );
}

#[test]
fn normal_texts_come_back(rt: HostRuntime) {
    let xor =
        b"   3     3   0     0\n   0     0   1     0   1     1\n   1     0   3     0   3     1\n   1     1   3     1   3     0\n";
    assert!(rt; gives(xor, xor));
    let constant = b" 512     0 512     1\n";
    assert!(rt; gives(constant, constant));
}

#[test]
fn broken_rules_are_told(rt: HostRuntime) {
    assert!(rt; gives(b"   2     0   0     0\n", b"    12     0     1\n"));
    assert!(rt;
        gives(
            b"   2     1   1     0\n   0     0   2     0   2     1\n",
            b"    12     0     1\n",
        )
    );
    assert!(rt;
        gives(
            b"   2     2   0     0\n   0     0   2     1   3     0\n   3     0   2     0   2     1\n",
            b"    12     1     2\n",
        )
    );
    assert!(rt;
        gives(
            b"   2     2   0     0\n   0     0   2     1   1     1\n   1     1   2     0   2     1\n",
            b"    12     1     3\n",
        )
    );
    assert!(rt;
        gives(
            b"   2     1   0     0\n   0     0   1     0   2     1\n",
            b"    12     0     4\n",
        )
    );
    assert!(rt;
        gives(
            b"   2     2   0     0\n   0     0   2     0   2     1\n   1     0   2     0   2     1\n",
            b"    12     1     5\n",
        )
    );
    assert!(rt;
        gives(
            b"   2     3   0     0\n   0     0   1     0   1     0\n   1     0   2     0   2     1\n   1     1   2     0   2     1\n",
            b"    12     2     5\n",
        )
    );
    assert!(rt;
        gives(
            b"   2     2   0     0\n   0     0   1     5   3     0\n   3     0   2     0   2     1\n",
            b"    12     1     2\n",
        ),
        "of two broken rules the lower is told"
    );
}

#[test]
fn other_faults_are_told(rt: HostRuntime) {
    assert!(rt; gives(b"", b"     3     0     0\n"));
    assert!(rt; gives(b"  03     0   2     0\n", b"     4     0     1\n"));
    assert!(rt; gives(b"   0     0   0     0\n", b"     1     0     0\n"));
    assert!(rt; gives(b" 513     0 513     0\n", b"     1     0     0\n"));
}

// A node by its level and its number there.
fn node(level: u16, number: u32) -> Target {
    Target::Node { level, number }
}

// The record at a place of a normal listing over 512 facts with 515 records: two on the levels 1 to 3.
fn chained(place: u16) -> Record {
    match place {
        0 => pair(0, node(1, 1), node(1, 0)),
        1 => pair(1, node(2, 1), node(2, 0)),
        3 => pair(2, node(3, 1), node(3, 0)),
        5 => pair(3, Target::False, node(4, 0)),
        2 | 4 | 6 => Record {
            level: place / 2,
            number: 1,
            low: Target::True,
            high: Target::False,
        },
        514 => pair(511, Target::False, Target::True),
        _ => pair(
            place.saturating_sub(3),
            Target::False,
            node(place.saturating_sub(2), 0),
        ),
    }
}

fn pair(level: u16, low: Target, high: Target) -> Record {
    Record {
        level,
        number: 0,
        low,
        high,
    }
}

fn chain(records: &mut [Record]) {
    for (r, place) in records.iter_mut().zip(0..=u16::MAX) {
        *r = chained(place);
    }
}

#[test]
fn the_longest_input_passes(rt: HostRuntime) {
    let mut records = [Record::default(); MOST_RECORDS];
    chain(&mut records);
    let listing = Records {
        n: 512,
        root: node(0, 0),
        records: &records,
    };
    let mut longest = [b' '; 15_986];
    assert!(rt; write(&listing, &mut longest) == Ok(15_986));
    assert!(rt; gives(&longest, &longest), "515 records");
    assert!(rt;
        gives(&[b' '; 15_987], b"    19     0     0\n"),
        "one byte more"
    );
}
