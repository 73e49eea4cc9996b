// A slot in front of a queue: it holds one element, which comes after none that waits below, and adds one to the capacity.
// So what is put as the least and taken before a lesser one comes never goes below. A front slot is a queue: slots stack.

#![tactic(auto)]

ghost use Rattle.std.specs.Prelude.{◌≡◌, ◌+◌, if◌then◌else◌, None};
ghost use Rattle.std.specs.Ordering.{is_lt};
ghost use Rattle.queue_front.specs.Front.{front, foremost, Fronts, fronts_single, front_fits};

use queue::{Element, Queue, Refused};

/// A queue that holds one element itself and the queue below.
#[derive(Drop)]
pub struct FrontSlot<K: Ord + Copy, V: Copy, Q: Queue<K, V>> {
    slot: Option<Element<K, V>>,
    below: Q,
    ghost fronts: { Fronts K.cmp slot (Q.Queue.waiting below) } by { fronts_single K.cmp slot (Q.Queue.waiting below) },
}

impl<K: Ord + Copy, V: Copy, Q: Queue<K, V>> FrontSlot<K, V, Q> {
    /// An empty slot in front of a queue, in which any number may wait. Costs O(1).
    pub fn new(below: Q) -> FrontSlot<K, V, Q>
        ensures slot { result.slot ≡ None }
        ensures below { result.below ≡ below }
    {
        FrontSlot { slot: None, below }
    }
}

// Which of the two goes to the front, and which behind: the one that is there stays in front, where the other does not
// come before it.
fn ordered<K: Ord + Copy, V: Copy>(
    there: Element<K, V>,
    other: Element<K, V>,
) -> (Element<K, V>, Element<K, V>)
    ensures front { result.0 ≡ (if is_lt (K.cmp other.key there.key) then other else there) }
    ensures behind { result.1 ≡ (if is_lt (K.cmp other.key there.key) then there else other) }
{
    if other < there {
        (other, there)
    } else {
        (there, other)
    }
}

impl<K: Ord + Copy, V: Copy, Q: Queue<K, V>> Queue<K, V> for FrontSlot<K, V, Q> {
    ghost waiting = { λ s. front s.slot (Q.Queue.waiting s.below) };

    ghost room = { λ s. Q.Queue.room s.below + 1 };

    ghost next = { λ s. foremost s.slot (Q.Queue.next s.below) };

    ghost fits = { λ s. front_fits s.slot (Q.Queue.waiting s.below) (Q.Queue.room s.below) (Q.Queue.fits s.below) };

    /// Costs at most a look, a take and a put below.
    fn put(&mut self, key: K, carried: V) -> Result<(), Refused<K, V>> {
        let element = Element { key, carried };
        match self.slot {
            Some(first) => {
                let (front, behind) = ordered(first, element);
                match self.below.put(behind.key, behind.carried) {
                    Ok(()) => {
                        self.slot = Some(front);
                        Ok(())
                    }
                    Err(_) => Err(Refused { element }),
                }
            }
            None => match self.below.look() {
                Some(next) => {
                    if element.is_after(&next) {
                        self.slot = self.below.take();
                        self.below.put(key, carried)
                    } else {
                        self.slot = Some(element);
                        Ok(())
                    }
                }
                None => {
                    self.slot = Some(element);
                    Ok(())
                }
            },
        }
    }

    /// Costs at most a look below.
    fn look(&self) -> Option<Element<K, V>> {
        self.slot.or_else(|| self.below.look())
    }

    /// Costs O(1) where the slot is full, else a take below.
    fn take(&mut self) -> Option<Element<K, V>> {
        // no `or_else`: nothing is known of what its closure leaves below
        match self.slot.take() {
            Some(first) => Some(first),
            None => self.below.take(),
        }
    }

    /// Costs at most as much as below.
    fn is_empty(&self) -> bool {
        self.slot.is_none() && self.below.is_empty()
    }

    /// Costs as much as below.
    fn capacity(&self) -> usize {
        self.below.capacity().saturating_add(1)
    }
}
