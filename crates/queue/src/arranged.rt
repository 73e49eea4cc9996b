// One queue in the caller's slice, for every arrangement of the elements that wait in its front.

#![tactic(auto)]

ghost use Rattle.std.specs.Prelude.{◌≡◌, ◌+◌, ◌-◌, ◌<◌, ◌≤◌, List, [], ◌∷◌, length, take, Option};
ghost use Rattle.std.specs.List.Sorted.{IsPermutation};
ghost use Rattle.queue.specs.Waiting.{element, Least, Taken};
ghost use Rattle.queue.specs.Fits.{held_fits};
ghost use Rattle.queue.specs.declared.Element.{Element};

use crate::{Element, Queue, Refused};
use std::marker::PhantomData;

/// How elements lie in a slice, so that the next is at hand.
pub trait Arrangement<K: Ord + Copy, V: Copy> {
    /// The order in which they lie.
    ghost ordered: { List (Element K V) → Type 0 };

    /// That they do is one fact, however it was shown.
    ghost single: { (xs : List (Element K V)) → IsProp (ordered xs) };

    /// The next of elements in order.
    ghost next: { List (Element K V) → Option (Element K V) };

    /// Puts an element among the others, which are in order; the last place is free.
    // It is handed over, and not written there first: what was just written would be read back.
    fn insert(elements: &mut [Element<K, V>], key: K, carried: V)
        requires some { 0 < length elements.old }
        requires ordered { ordered (take (length elements.old - 1) elements.old) }
        ensures ordered { ordered elements.new }
        ensures joins { IsPermutation (element key carried ∷ take (length elements.old - 1) elements.old) elements.new };

    /// Shows the next of elements in order.
    fn first(elements: &[Element<K, V>]) -> Option<Element<K, V>>
        requires { ordered elements.now }
        ensures { result ≡ next elements.now };

    /// Takes the next out of elements in order. The others lie in order before the last place, which is free.
    fn remove(elements: &mut [Element<K, V>]) -> Option<Element<K, V>>
        requires { ordered elements.old }
        ensures ordered { ordered (take (length elements.old - 1) elements.new) }
        ensures next { result ≡ next elements.old }
        ensures taken { Taken elements.old (take (length elements.old - 1) elements.new) result };

    /// No elements are in order.
    ghost none: { ordered [] };

    /// The next of elements in order is one of the least.
    ghost least: { (xs : List (Element K V)) → ordered xs → Least K.cmp xs (next xs) };
}

/// A queue in the caller's slice, whose length is its capacity.
#[derive(Drop)]
pub struct Arranged<'a, K: Ord + Copy, V: Copy, A: Arrangement<K, V>> {
    // A length beside the slice, since the slice is the caller's: the library has no heap.
    slots: &'a mut [Element<K, V>],
    held: usize,
    arrangement: PhantomData<A>,
    ghost within: { held ≤ length slots.now },
    ghost ordered: { A.ordered (take held slots.now) } by { A.single (take held slots.now) },
}

impl<'a, K: Ord + Copy, V: Copy, A: Arrangement<K, V>> Arranged<'a, K, V, A> {
    /// A queue in which nothing waits. Costs O(1), and what the slice holds does not matter.
    pub fn new(slots: &'a mut [Element<K, V>]) -> Arranged<'a, K, V, A>
        ensures empty { result.held ≡ 0 }
        ensures slots { result.slots.now ≡ slots.old }
    {
        Arranged {
            slots,
            held: 0,
            arrangement: PhantomData,
        }
    }
}

// The next two work on the slice and its length, and not on the queue, whose order is broken in between, nor on a part cut at the call:
// of a part of a slice behind a field a proof knows the length alone.

// Puts an element among the first `held`, which are in order; one slot more is in order then.
fn join<K: Ord + Copy, V: Copy, A: Arrangement<K, V>>(
    slots: &mut [Element<K, V>],
    held: usize,
    key: K,
    carried: V,
)
    requires free { held < length slots.old }
    requires ordered { A.ordered (take held slots.old) }
    ensures ordered { A.ordered (take (held + 1) slots.new) }
    ensures joins { IsPermutation (element key carried ∷ take held slots.old) (take (held + 1) slots.new) }
{
    A::insert(&mut slots[..=held], key, carried);
}

// Takes the next out of the first `held`, which are in order; one slot fewer is in order then.
fn part<K: Ord + Copy, V: Copy, A: Arrangement<K, V>>(
    slots: &mut [Element<K, V>],
    held: usize,
) -> Option<Element<K, V>>
    requires within { held ≤ length slots.old }
    requires ordered { A.ordered (take held slots.old) }
    ensures ordered { A.ordered (take (held - 1) slots.new) }
    ensures next { result ≡ A.next (take held slots.old) }
    ensures taken { Taken (take held slots.old) (take (held - 1) slots.new) result }
{
    A::remove(&mut slots[..held])
}

impl<'a, K: Ord + Copy, V: Copy, A: Arrangement<K, V>> Queue<K, V> for Arranged<'a, K, V, A> {
    ghost waiting = { λ s. take s.held s.slots.now };

    ghost room = { λ s. length s.slots.now };

    ghost next = { λ s. A.next (take s.held s.slots.now) };

    ghost fits = { λ s. held_fits s.held s.slots.now s.within };

    /// Costs what the arrangement's `insert` costs.
    fn put(&mut self, key: K, carried: V) -> Result<(), Refused<K, V>> {
        if self.held == self.slots.len() {
            return Err(Refused {
                element: Element { key, carried },
            });
        }
        let held = self.held;
        join::<K, V, A>(self.slots, held, key, carried);
        self.held = held + 1;
        Ok(())
    }

    /// Costs what the arrangement's `first` costs.
    fn look(&self) -> Option<Element<K, V>> {
        A::first(&self.slots[..self.held])
    }

    /// Costs what the arrangement's `remove` costs.
    fn take(&mut self) -> Option<Element<K, V>> {
        let held = self.held;
        let next = part::<K, V, A>(self.slots, held);
        self.held = held.saturating_sub(1);
        next
    }

    /// Costs O(1).
    fn is_empty(&self) -> bool {
        self.held == 0
    }

    /// Costs O(1).
    fn capacity(&self) -> usize {
        self.slots.len()
    }
}
