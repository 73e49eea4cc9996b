// The run itself: rows are opened in the order of their pairs; the arcs of each wait in the queue until their pair comes.

ghost use Rattle.std.specs.Prelude.{◌≡◌, ◌^◌, ◌<◌, [], length, OnOk};
ghost use Rattle.listing.specs.Listing.{Listing};
ghost use Rattle.sweep.specs.Running.{run_of, Swept};

use crate::faults::{Request, RunFault};
use crate::operands::{Cursor, Operands};
use crate::reading::{Operand, fixed_start};
use crate::requests::{drafted, next_pair, put_arcs};
use listing::{Stored, Target};
use pairs::Fixed;
use pairs::keys::PairKey;
use queue::Queue;
use rows::row::Row;
use source::Source;

/// What a run does with its two sides: its operator, 0 to 15, and for each side perhaps one fixed fact.
// The operator's number, as `answer` takes it.
#[derive(Clone, Copy)]
pub struct Task {
    pub operator: u8,
    pub left: Option<Fixed>,
    pub right: Option<Fixed>,
}

// Opens the rows of a run, in the order of their pairs, until one does not fit or none is left. Where a fault comes, the rows opened
// and the queue are left as they are then.
fn open_rows<L: Source, R: Source, Q: Queue<PairKey, Request>>(
    left: &L,
    right: &R,
    task: Task,
    rows: &mut [Row],
    queue: &mut Q,
) -> Result<Stored, RunFault>
    requires left { Listing (L.Source.facts left.now) (L.Source.top left.now) (L.Source.listed left.now) }
    requires right { Listing (R.Source.facts right.now) (R.Source.top right.now) (R.Source.listed right.now) }
    requires facts { R.Source.facts right.now ≡ L.Source.facts left.now }
    requires few { length rows.old < 2 ^ 32 }
    requires empty { Q.Queue.waiting queue.old ≡ [] }
    ensures room { Q.Queue.room queue.new ≡ Q.Queue.room queue.old }
    ensures swept { Swept (run_of (L.Source.facts left.now) (L.Source.top left.now) (L.Source.listed left.now) (R.Source.top right.now) (R.Source.listed right.now) task) (length rows.old) (Q.Queue.room queue.old) rows.old rows.new result }
    ensures empty { OnOk result (Q.Queue.waiting queue.new ≡ []) }
{
    let n = left.n();
    let operands = Operands {
        left: Operand {
            source: left,
            fixed: task.left,
            fixed_start: fixed_start(left, task.left),
        },
        right: Operand {
            source: right,
            fixed: task.right,
            fixed_start: fixed_start(right, task.right),
        },
    };
    let mut key = operands.start().key(n);
    if !key.pair.is_open(task.operator) {
        return Ok(Stored {
            root: Target::from(key.pair.verdict(task.operator)),
            count: 0,
        });
    }
    let root = Target::Node {
        level: key.level,
        number: 0,
    };
    let mut cursor = Cursor { left: 0, right: 0 };
    // By number: a turn writes this row, and points arcs in others at the next one.
    for row in 0..rows.len() {
        cursor = operands.advance(cursor, key.level);
        let children = operands.children(cursor, task.operator, key);
        rows[row] = drafted(key.level, children);
        put_arcs(queue, n, row as u32, children)?;
        match next_pair(queue, rows, row as u32 + 1) {
            None => {
                return Ok(Stored {
                    root,
                    count: row + 1,
                });
            }
            Some(pair) => key = pair.key(n),
        }
    }
    Err(RunFault::Row {
        number: rows.len() as u32,
    })
}
