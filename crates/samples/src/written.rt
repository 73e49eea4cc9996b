// Writing texts: the bytes of a listing, the room that it takes, and that it opens again.

use listing::reports::Report;
use listing::samples::exclusive_or;
use listing::{Record, Target};
use source::Source;
use source::records::Records;
use text::opening::Text;
use text_writing::writing::write;

// A listing over three facts whose root is the node of its first record.
fn over_three_facts(records: &[Record]) -> Records<'_> {
    Records {
        n: 3,
        root: Target::Node {
            level: 0,
            number: 0,
        },
        records,
    }
}

#[test]
fn a_listing_is_written(rt: HostRuntime) {
    let records = exclusive_or();
    let source = over_three_facts(&records);
    let mut buffer = [b'x'; 116];
    assert!(rt; write(&source, &mut buffer) == Ok(114));
    assert!(rt;
        buffer
            == *b"   3     3   0     0\n   0     0   1     0   1     1\n   1     0   3     0   3     1\n   1     1   3     1   3     0\nxx"
    );
}

#[test]
fn a_short_buffer_is_left_alone(rt: HostRuntime) {
    let records = exclusive_or();
    let source = over_three_facts(&records);
    let mut buffer = [b'x'; 113];
    let Err(fault) = write(&source, &mut buffer) else {
        panic!(rt; "the buffer is short");
    };
    assert!(rt; Report::from(fault).number == 18);
    assert!(rt; buffer == [b'x'; 113]);
}

#[test]
fn columns_are_filled(rt: HostRuntime) {
    let source = Records {
        n: 9999,
        root: Target::True,
        records: &[],
    };
    let mut buffer = [b'x'; 21];
    assert!(rt; write(&source, &mut buffer) == Ok(21));
    assert!(rt; buffer == *b"9999     09999     1\n");
}

#[test]
fn what_is_written_opens_again(rt: HostRuntime) {
    let records = exclusive_or();
    let source = over_three_facts(&records);
    let mut buffer = [0; 114];
    assert!(rt; write(&source, &mut buffer) == Ok(114));
    let Ok(text) = Text::open(&buffer) else {
        panic!(rt; "what is written opens");
    };
    assert!(rt; text.n() == 3);
    assert!(rt; text.root() == source.root());
    assert!(rt; text.record(1) == source.record(1));
    assert!(rt; text.count() == 3);
}
