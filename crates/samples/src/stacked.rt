// A front slot over a front slot over a heap: elements come back in order, and one too many is handed back.

use queue::{Element, Queue};
use queue_front::FrontSlot;
use queue_heap::BinaryHeap;

#[test]
fn a_stack_of_queues_keeps_order(rt: HostRuntime) {
    let mut slots = [Element::default(); 2];
    let mut queue = FrontSlot::new(FrontSlot::new(BinaryHeap::new(&mut slots)));
    assert!(rt; queue.capacity() == 4);
    assert!(rt; queue.put(7, 1).is_ok());
    assert!(rt; queue.put(3, 2).is_ok());
    assert!(rt; queue.put(9, 3).is_ok());
    assert!(rt; queue.put(3, 4).is_ok());
    let Err(refused) = queue.put(5, 5) else {
        panic!(rt; "the queue is full");
    };
    assert!(rt; refused.element.key == 5 && refused.element.carried == 5);
    assert!(rt; key_of(queue.take()) == Some(3));
    assert!(rt; key_of(queue.look()) == Some(3));
    assert!(rt; key_of(queue.take()) == Some(3));
    assert!(rt; key_of(queue.take()) == Some(7));
    assert!(rt; key_of(queue.take()) == Some(9));
    assert!(rt; queue.is_empty());
    assert!(rt; queue.take().is_none());
}

// The key of an answer, where there is one.
fn key_of(answer: Option<Element<u64, u8>>) -> Option<u64> {
    answer.map(|element| element.key)
}
