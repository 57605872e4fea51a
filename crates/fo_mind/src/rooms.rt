//! Room is made, so that the calls of one request want no memory.
ghost use Rattle.std.specs.Prelude.{◌≡◌, ◌+◌, ◌*◌, ◌<◌, ◌≤◌, ℕ, true, false, Ok, OnOk, OnErr, IfOk};
ghost use Rattle.std.specs.Vec.{vec_len, vec_capacity};
ghost use Rattle.fo_disk.specs.Disk.{Content as Holds};
ghost use Rattle.fo_labels.specs.Region.{usable_count};
ghost use Rattle.fo_rooms.specs.Grown.{HasRooms};
ghost use Rattle.fo_mind.specs.MindParts.{parts};
ghost use Rattle.fo_mind.specs.Roomed.{Grown, Roomed};

use crate::mind::Mind;
use fo_base::Memory;
use fo_rooms::{Rooms, Wants, grow, rooms_for};
use fo_waits::grow_lists;

impl Mind {
    // Room for waits and for slots that wait.
    fn make_lists(&mut self, removals: u32) -> Result<(), Memory>
        ensures ok { OnOk result ((vec_len self.new.waits + 102 * removals ≤ vec_capacity self.new.waits) × (vec_len self.new.clears + removals ≤ vec_capacity self.new.clears)) }
        ensures same { (disk : Holds) (faults : ℕ) → parts self.new disk faults ≡ parts self.old disk faults }
    {
        grow_lists(&mut self.waits, &mut self.clears, removals)
    }

    // Room in the other parts.
    fn make_parts(&mut self, rooms: &Rooms) -> Result<(), Memory>
        ensures ok { OnOk result (HasRooms rooms.now self.new.buffers self.new.order self.new.queue self.new.walk self.new.links) }
        ensures grown { (disk : Holds) (faults : ℕ) → Grown (parts self.old disk faults) (parts self.new disk faults) }
        ensures lists { (self.new.waits ≡ self.old.waits) × (self.new.clears ≡ self.old.clears) }
    {
        grow(
            self.alloc,
            &mut self.buffers,
            &mut self.order,
            &mut self.queue,
            &mut self.walk,
            &mut self.links,
            rooms,
        )
    }

    // Room in all parts, for so many more blocks, pins, and removals and waits.
    fn enlarge(&mut self, wants: &Wants) -> Result<(), Memory>
        requires usable { wants.now.blocks ≤ usable_count self.old.one.low self.old.labels }
        ensures ok { OnOk result ((disk : Holds) (faults : ℕ) → Roomed wants.now.blocks wants.now.pins wants.now.removals (parts self.old disk faults) (parts self.new disk faults)) }
        ensures err { OnErr result ((disk : Holds) (faults : ℕ) → Grown (parts self.old disk faults) (parts self.new disk faults)) }
    {
        let Some(rooms) = rooms_for(&self.facts, self.clears.len(), wants) else {
            return Err(Memory);
        };
        let Ok(()) = self.make_lists(rooms.removals) else {
            return Err(Memory);
        };
        let Ok(()) = self.make_parts(&rooms) else {
            return Err(Memory);
        };
        self.spare = wants.blocks;
        self.pins = wants.pins;
        self.room = wants.removals;
        Ok(())
    }

    /// Makes room for so many blocks, pins, and removals and waits; false where fewer blocks are usable. This may want memory, and then
    /// some parts may have more room than they had.
    pub fn make_room(&mut self, blocks: u32, pins: u32, removals: u32) -> Result<bool, Memory>
        ensures few { usable_count self.old.one.low self.old.labels < blocks → (result ≡ Ok false) × ((disk : Holds) (faults : ℕ) → parts self.new disk faults ≡ parts self.old disk faults) }
        ensures made { blocks ≤ usable_count self.old.one.low self.old.labels → OnOk result ((disk : Holds) (faults : ℕ) → Roomed blocks pins removals (parts self.old disk faults) (parts self.new disk faults)) }
        ensures is { blocks ≤ usable_count self.old.one.low self.old.labels → IfOk result (λ made. made ≡ true) }
        ensures err { OnErr result ((disk : Holds) (faults : ℕ) → Grown (parts self.old disk faults) (parts self.new disk faults)) }
    {
        if self.labels.usable(self.one.low) < blocks {
            return Ok(false);
        }
        let wants = Wants {
            blocks,
            pins,
            removals,
        };
        let Ok(()) = self.enlarge(&wants) else {
            return Err(Memory);
        };
        Ok(true)
    }
}
