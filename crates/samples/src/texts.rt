// Opening texts: what is refused, with its place, and what the rest tells.

use listing::reports::Report;
use listing::{Record, Target};
use source::Source;
use text::opening::Text;

// The number, place and detail of a text's fault; none where it opens.
fn fault(bytes: &[u8]) -> Option<Report> {
    Text::open(bytes).err().map(Report::from)
}

fn report(number: u32, place: u32, detail: u32) -> Option<Report> {
    Some(Report {
        number,
        place,
        detail,
    })
}

#[test]
fn a_record_is_read(rt: HostRuntime) {
    let Ok(text) = Text::open(b"   3     1   2     0\n   2     0   3     0   3     1\n") else {
        panic!(rt; "the text has no fault");
    };
    assert!(rt; text.n() == 3);
    assert!(rt; text.count() == 1);
    assert!(rt;
        text.root()
            == Target::Node {
                level: 2,
                number: 0,
            }
    );
    assert!(rt;
        text.record(0)
            == Some(Record {
                level: 2,
                number: 0,
                low: Target::False,
                high: Target::True,
            })
    );
    assert!(rt; text.record(1) == None);
}

#[test]
fn lengths_are_tested(rt: HostRuntime) {
    assert!(rt; fault(b"") == report(3, 0, 0));
    assert!(rt;
        fault(b"   3     0   3     0") == report(3, 0, 0),
        "20 bytes"
    );
    assert!(rt; fault(b"   3     0   3     0\n") == None, "21 bytes");
    assert!(rt;
        fault(b"   3     1   2     0\n") == report(3, 0, 0),
        "a record is missing"
    );
    assert!(rt;
        fault(b"   3     0   3     0\n   2     0   3     0   3     1\n") == report(3, 0, 0),
        "a record too many"
    );
}

#[test]
fn columns_are_tested(rt: HostRuntime) {
    assert!(rt;
        fault(b"  03     1   2     0\n") == report(4, 0, 1),
        "a needless zero"
    );
    assert!(rt; fault(b"   3     0   2   x 0\n") == report(4, 0, 4));
    assert!(rt;
        fault(b"   3     0   2     0 ") == report(4, 0, 5),
        "no line feed"
    );
    assert!(rt;
        fault(b"   3         2     0\n") == report(4, 0, 2),
        "a blank column"
    );
    assert!(rt;
        fault(b"   3     1   2     0\n   2     0   3   0 0   3     1\n") == report(4, 1, 4)
    );
    assert!(rt;
        fault(b"   3     1   2     0\n   2     0   3     0   3     1 ") == report(4, 1, 7),
        "no line feed"
    );
    assert!(rt;
        fault(
            b"   3     2   2     0\n   2     0   3     0   3     1\n   2     1   3     0   3    -1\n",
        ) == report(4, 2, 6)
    );
}

#[test]
fn terminals_are_roots(rt: HostRuntime) {
    let Ok(text) = Text::open(b"   7     0   7     0\n") else {
        panic!(rt; "the text has no fault");
    };
    assert!(rt; text.root() == Target::False);
    let Ok(text) = Text::open(b"9999     09999     1\n") else {
        panic!(rt; "the text has no fault");
    };
    assert!(rt; text.n() == 9999);
    assert!(rt; text.root() == Target::True);
    assert!(rt; text.record(0) == None);
}
