//! A block is closed.
ghost use Rattle.std.specs.Prelude.{◌≡◌, ◌+◌, ◌≤◌, ℕ, [], OnOk, OnErr};
ghost use Rattle.std.specs.List.{filter};
ghost use Rattle.std.specs.Vec.{vec_len, vec_capacity};
ghost use Rattle.fo_disk.specs.Disk.{Content as Holds};
ghost use Rattle.fo_mind.specs.MindParts.{parts};
ghost use Rattle.fo_mind.specs.Turning.{HasTurn};
ghost use Rattle.fo_order.specs.Turns.{IsQuiet};
ghost use Rattle.fo_closing.specs.Closed.{Closed, MayClose, is_apart, with_turn};

use fo_base::Memory;
use fo_image::label_place;
use fo_mind::Mind;
use fo_waits::Wait;

/// Makes room for one turn more. This may want memory, and then nothing changes.
pub fn keep_turn(mind: &mut Mind) -> Result<(), Memory>
    ensures ok { OnOk result (HasTurn (parts mind.new [] 0)) }
    ensures kept { OnOk result ((disk : Holds) (faults : ℕ) → parts mind.new disk faults ≡ record (parts mind.old disk faults) { turns = record mind.old.order { room = mind.old.order.room + 1 } }) }
    ensures err { OnErr result ((disk : Holds) (faults : ℕ) → parts mind.new disk faults ≡ parts mind.old disk faults) }
    ensures queue { mind.new.queue ≡ mind.old.queue }
{
    let Some(room) = mind.order.room().checked_add(1) else {
        return Err(Memory);
    };
    mind.order.reserve(room)
}

// The waits but those of a block, and for entries of it.
fn drop_waits(waits: &mut Vec<Wait>, at: u32)
    ensures items { waits.new.items ≡ filter (is_apart at) waits.old.items }
    ensures len { vec_len waits.new ≤ vec_len waits.old }
    ensures capacity { vec_capacity waits.new ≡ vec_capacity waits.old }
{
    waits.retain(|w| w.at != at && w.on != at);
}

/// Closes a block at this epoch. The block of its label takes a turn, for which there is room.
pub fn close(mind: &mut Mind, at: u32, epoch: u32)
    requires may { MayClose (parts mind.old [] 0) at epoch }
    requires turn { HasTurn (parts mind.old [] 0) }
    ensures closed { (disk : Holds) (faults : ℕ) → Closed at epoch (parts mind.old disk faults) (parts mind.new disk faults) }
    ensures queue { mind.new.queue ≡ mind.old.queue }
{
    mind.labels.close(at, epoch);
    mind.buffers.forget(at);
    mind.order.change(label_place(at).0, 0);
    drop_waits(&mut mind.waits, at);
}

/// Closes a block at this epoch, where all is quiet, so that no room is wanted: the turn of the block of its label is the one that an
/// order has beside its room.
pub fn close_first(mind: &mut Mind, at: u32, epoch: u32)
    requires may { MayClose (parts mind.old [] 0) at epoch }
    requires quiet { IsQuiet mind.old.order }
    ensures closed { (disk : Holds) (faults : ℕ) → Closed at epoch (with_turn (parts mind.old disk faults)) (parts mind.new disk faults) }
    ensures queue { mind.new.queue ≡ mind.old.queue }
{
    mind.labels.close(at, epoch);
    mind.buffers.forget(at);
    mind.order.change_first(label_place(at).0, 0);
    drop_waits(&mut mind.waits, at);
}
