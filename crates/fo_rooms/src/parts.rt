//! Each part makes its room.
ghost use Rattle.std.specs.Prelude.{◌≡◌, ◌≤◌, OnOk};
ghost use Rattle.fo_rooms.specs.Grown.{GrownHeld, GrownTurns, GrownQueue, GrownWalk, HasRooms};

use crate::rooms::Rooms;
use fo_base::Memory;
use fo_linking::{Buffers, Worklist};
use fo_order::Order;
use fo_takeout::Walk;
use fo_unlink::Queue;
use std::alloc::Global;

// Room for buffers and turns.
fn grow_held(
    alloc: Global,
    buffers: &mut Buffers,
    order: &mut Order,
    held: usize,
    turns: usize,
) -> Result<(), Memory>
    ensures ok { OnOk result ((held ≤ buffers.new.room) × (turns ≤ order.new.room)) }
    ensures buffers { GrownHeld buffers.old buffers.new }
    ensures order { GrownTurns order.old order.new }
{
    buffers.reserve(alloc, held)?;
    order.reserve(turns)?;
    Ok(())
}

// Room for removals, and for the pairs by which they are found.
fn grow_queue(queue: &mut Queue, walk: &mut Walk, removals: u32) -> Result<(), Memory>
    ensures ok { OnOk result ((removals ≤ queue.new.room) × (removals ≤ walk.new.room)) }
    ensures queue { GrownQueue queue.old queue.new }
    ensures walk { GrownWalk walk.old walk.new }
{
    queue.reserve(removals)?;
    walk.reserve(removals)?;
    Ok(())
}

/// Makes room for so much. This alone may want memory, and then some parts may have more room than they had.
pub fn grow(
    alloc: Global,
    buffers: &mut Buffers,
    order: &mut Order,
    queue: &mut Queue,
    walk: &mut Walk,
    links: &mut Worklist,
    rooms: &Rooms,
) -> Result<(), Memory>
    ensures ok { OnOk result (HasRooms rooms.now buffers.new order.new queue.new walk.new links.new) }
    ensures buffers { GrownHeld buffers.old buffers.new }
    ensures order { GrownTurns order.old order.new }
    ensures queue { GrownQueue queue.old queue.new }
    ensures walk { GrownWalk walk.old walk.new }
    ensures links { links.old ≤ links.new }
{
    grow_held(alloc, buffers, order, rooms.held, rooms.turns)?;
    grow_queue(queue, walk, rooms.removals)?;
    links.reserve(rooms.linked)?;
    Ok(())
}
