// The arcs of rows: put into the queue as requests, taken again, and pointed at rows.

ghost use Rattle.std.specs.Prelude.{◌≡◌, ◌<◌, length};
ghost use Rattle.std.specs.List.{AllByRecursion};
ghost use Rattle.queue.specs.Rank.{UpTo};
ghost use Rattle.sweep.specs.Requests.{PutArc, PutArcs, child_of, draft, point, Pointed, NextPair};

use crate::faults::{Request, RunFault};
use listing::Target;
use pairs::Pair;
use pairs::keys::PairKey;
use queue::Queue;
use rows::row::Row;

/// A row's child: an open pair, or a closed pair's answer.
#[derive(Clone, Copy)]
pub enum Child {
    Open(Pair),
    Closed(bool),
}

/// A row's two children.
#[derive(Clone, Copy)]
pub struct Children {
    pub low: Child,
    pub high: Child,
}

impl Child {
    /// What a pair is as a child under an operator.
    pub fn of(operator: u8, pair: Pair) -> Child
        ensures { result ≡ child_of operator pair }
    {
        if pair.is_open(operator) {
            Child::Open(pair)
        } else {
            Child::Closed(pair.verdict(operator))
        }
    }

    // What an arc is until it is pointed at a row: a closed child's terminal, else False.
    fn draft(self) -> Target
        ensures { result ≡ draft self }
    {
        match self {
            Child::Open(_) => Target::False,
            Child::Closed(bit) => Target::from(bit),
        }
    }
}

// Puts the request of a row's arc, if the child is open.
fn put_arc<Q: Queue<PairKey, Request>>(
    queue: &mut Q,
    n: u16,
    request: Request,
    child: Child,
) -> Result<(), RunFault>
    ensures room { Q.Queue.room queue.new ≡ Q.Queue.room queue.old }
    ensures put { PutArc (Q.Queue.room queue.old) n request.row request.high child (Q.Queue.waiting queue.old) (Q.Queue.waiting queue.new) result }
{
    if let Child::Open(pair) = child {
        queue.put(pair.key(n), request)?;
    }
    Ok(())
}

/// Puts the requests of a row's arcs to open children, low first.
pub fn put_arcs<Q: Queue<PairKey, Request>>(
    queue: &mut Q,
    n: u16,
    row: u32,
    children: Children,
) -> Result<(), RunFault>
    ensures room { Q.Queue.room queue.new ≡ Q.Queue.room queue.old }
    ensures put { PutArcs (Q.Queue.room queue.old) n row children.low children.high (Q.Queue.waiting queue.old) (Q.Queue.waiting queue.new) result }
{
    put_arc(queue, n, Request { row, high: false }, children.low)?;
    put_arc(queue, n, Request { row, high: true }, children.high)
}

/// A row as it is opened: its level, and its arcs until they are pointed at rows.
pub fn drafted(level: u16, children: Children) -> Row
    ensures level { result.level ≡ level }
    ensures low { result.low ≡ draft children.low }
    ensures high { result.high ≡ draft children.high }
{
    Row {
        low: children.low.draft(),
        high: children.high.draft(),
        level,
        ..Row::default()
    }
}

// A row with one arc set.
fn pointing(old: Row, high: bool, target: Target) -> Row
    ensures { result ≡ point target high old }
{
    if high {
        Row {
            high: target,
            ..old
        }
    } else {
        Row { low: target, ..old }
    }
}

// Takes all that wait for the key, which none waits before, and sets their arcs to the target.
fn point_all<K: Ord + Copy, Q: Queue<K, Request>>(
    queue: &mut Q,
    key: K,
    rows: &mut [Row],
    target: Target,
)
    requires least { AllByRecursion (λ y. UpTo K.cmp key y.key) (Q.Queue.waiting queue.old) }
    requires within { AllByRecursion (λ y. y.carried.row < length rows.old) (Q.Queue.waiting queue.old) }
    ensures room { Q.Queue.room queue.new ≡ Q.Queue.room queue.old }
    ensures pointed { Pointed K.cmp key target (Q.Queue.waiting queue.old) (Q.Queue.waiting queue.new) rows.old rows.new }
{
    while let Some(e) = queue.look() {
        if e.key.cmp(&key).is_ne() {
            break;
        }
        let _ = queue.take();
        let at = e.carried.row as usize;
        rows[at] = pointing(rows[at], e.carried.high, target);
    }
}

/// The next pair, whose waiting arcs are all taken and pointed at the row of number `row`; absent where nothing waits.
pub fn next_pair<Q: Queue<PairKey, Request>>(
    queue: &mut Q,
    rows: &mut [Row],
    row: u32,
) -> Option<Pair>
    requires within { AllByRecursion (λ y. y.carried.row < length rows.old) (Q.Queue.waiting queue.old) }
    ensures room { Q.Queue.room queue.new ≡ Q.Queue.room queue.old }
    ensures next { NextPair row (Q.Queue.waiting queue.old) (Q.Queue.waiting queue.new) rows.old rows.new result }
{
    let e = queue.look()?;
    let target = Target::Node {
        level: e.key.level,
        number: row,
    };
    point_all(queue, e.key, rows, target);
    Some(e.key.pair)
}
