// Priority queues over the caller's memory: elements, ordered by their keys, and one interface, `Queue`. Each queue that
// has it is a crate of its own; what those in a slice share is in `arranged`.
// A queue's meaning is the bag of waiting elements, a fixed capacity, and the next element, one of the least.
// Nothing here allocates; a sweep that is written over `Queue` works with every one of them.

#![tactic(auto)]

ghost use Rattle.std.specs.Prelude.{◌≡◌, ℕ, ◌-◌, ◌^◌, ◌≤◌, min, List, [], length, Option, OnErr, ◌==◌};
ghost use Rattle.std.specs.Ordering.{is_gt};
ghost use Rattle.queue.specs.Waiting.{element, Least, Put, Taken};
ghost use Rattle.queue.specs.declared.Element.{Element};

pub mod arranged;

/// A key and what it carries. Elements are ordered by their keys alone, so two may tie.
#[derive_where(PartialEq, Eq, PartialOrd, Ord; K)]
#[derive(Clone, Copy, Default)]
pub struct Element<K, V> {
    pub key: K,
    #[derive_where(skip(EqHashOrd))]
    pub carried: V,
}

/// An element that a full queue hands back, whole.
#[derive(Clone, Copy)]
pub struct Refused<K, V> {
    pub element: Element<K, V>,
}

impl<K: Ord + Copy, V: Copy> Element<K, V> {
    /// Whether this element comes after the other one, which it does where its key is the greater.
    /// Costs one comparison of keys.
    pub fn is_after(&self, other: &Element<K, V>) -> bool
        ensures { result ≡ is_gt (K.cmp self.now.key other.now.key) }
    {
        self > other
    }
}

/// A queue of elements with a fixed capacity, of which the next is one of the least.
/// Left free are the choice among tied elements and what a queue leaves in its space.
pub trait Queue<K: Ord + Copy, V: Copy> {
    /// The bag of waiting elements, as a list in some order.
    ghost waiting: { Self → List (Element K V) };

    /// The capacity: how many may wait at once.
    ghost room: { Self → ℕ };

    /// The next element, where one waits.
    ghost next: { Self → Option (Element K V) };

    /// No more wait than the capacity.
    ghost fits: { (s : Self) → length (waiting s) ≤ room s };

    /// Adds an element, exactly where fewer wait than the capacity.
    /// Else it is handed back, and the whole queue is as it was.
    fn put(&mut self, key: K, carried: V) -> Result<(), Refused<K, V>>
        ensures room { room self.new ≡ room self.old }
        ensures same { OnErr result (self.new ≡ self.old) }
        ensures put { Put (waiting self.old) (room self.old) (element key carried) (waiting self.new) result };

    /// Shows the next element, which is absent exactly where nothing waits.
    fn look(&self) -> Option<Element<K, V>>
        ensures next { result ≡ next self.now }
        ensures least { Least K.cmp (waiting self.now) result };

    /// Hands out the next element and takes only it from the bag.
    /// It is absent exactly where nothing waits, and nothing waits then afterwards.
    fn take(&mut self) -> Option<Element<K, V>>
        ensures room { room self.new ≡ room self.old }
        ensures next { result ≡ next self.old }
        ensures least { Least K.cmp (waiting self.old) result }
        ensures taken { Taken (waiting self.old) (waiting self.new) result };

    /// Whether nothing waits.
    fn is_empty(&self) -> bool
        ensures { result ≡ (length (waiting self.now) == 0) };

    /// The capacity, or the largest `usize` where the capacity is larger still.
    fn capacity(&self) -> usize
        ensures { result ≡ min (room self.now) (2 ^ 64 - 1) };
}

/// Takes out all that waits. Costs one `take` for each, and one more.
pub fn drain<K: Ord + Copy, V: Copy, Q: Queue<K, V>>(queue: &mut Q)
    ensures room { Q.Queue.room queue.new ≡ Q.Queue.room queue.old }
    ensures empty { Q.Queue.waiting queue.new ≡ [] }
{
    while let Some(_) = queue.take() {}
}
