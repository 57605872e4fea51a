use fo_base::Memory;
use fo_buffers::Buffers;
use fo_facts::Facts;
use fo_linking::Worklist;
use fo_order::Order;
use fo_rooms::{Rooms, Wants, grow, rooms_for};
use fo_takeout::Walk;
use fo_unlink::Queue;
use std::alloc::Global;
use std::test::Fail;

fn has_room(
    alloc: Global,
    buffers: &mut Buffers,
    order: &mut Order,
    queue: &mut Queue,
    walk: &mut Walk,
    links: &mut Worklist,
) -> Result<bool, Memory> {
    let rooms = Rooms {
        held: 5,
        turns: 10,
        removals: 5,
        linked: 3,
    };
    grow(alloc, buffers, order, queue, walk, links, &rooms)?;
    let lists = links.room() == 3 && queue.room() == 5;
    Ok(lists && buffers.room() == 5 && order.room() == 10)
}

fn with_walk(
    alloc: Global,
    buffers: &mut Buffers,
    order: &mut Order,
    queue: &mut Queue,
) -> Result<bool, Memory> {
    let mut walk = Walk::new(alloc);
    let mut links = Worklist::new(alloc);
    has_room(alloc, buffers, order, queue, &mut walk, &mut links)
}

fn with_queue(alloc: Global, buffers: &mut Buffers, order: &mut Order) -> Result<bool, Memory> {
    let mut queue = Queue::new(alloc, 0)?;
    with_walk(alloc, buffers, order, &mut queue)
}

fn with_order(alloc: Global, buffers: &mut Buffers) -> Result<bool, Memory> {
    let mut order = Order::new(alloc, 16)?;
    with_queue(alloc, buffers, &mut order)
}

fn with_buffers(alloc: Global) -> Result<bool, Memory> {
    let mut buffers = Buffers::new(alloc)?;
    with_order(alloc, &mut buffers)
}

#[test]
fn ample(rt: HostRuntime) -> Result<(), Fail> {
    let grown = with_buffers(rt.alloc())?;
    assert!(rt; grown);
    Ok(())
}

/// One block was made and one slot waits: room for two blocks, three pins and a removal beside them.
fn is_enough(facts: &mut Facts) -> bool {
    if facts.len() != 16 {
        return false;
    }
    facts.give(5, None, 1);
    let wants = Wants {
        blocks: 2,
        pins: 3,
        removals: 1,
    };
    match rooms_for(facts, 1, &wants) {
        Some(r) => r.held == 5 && r.turns == 10 && r.removals == 5 && r.linked == 3,
        None => false,
    }
}

#[test]
fn sums(rt: HostRuntime) -> Result<(), Fail> {
    let mut facts = Facts::new(rt.alloc(), 16)?;
    assert!(rt; is_enough(&mut facts));
    Ok(())
}
