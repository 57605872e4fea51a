//! An arena whose device is handed out for a while.
ghost use Rattle.std.specs.Prelude.{◌≡◌};

use crate::arena::Arena;
use crate::shelf::Shelf;
use fo_disk::Disk;
use std::alloc::Global;

/// An arena without its device.
#[derive(Drop)]
pub struct PausedArena {
    pub(crate) alloc: Global,
    pub(crate) shelf: Shelf,
}

impl<A: Disk> Arena<A> {
    /// Hands the device out, and keeps what is in memory.
    pub fn pause(self) -> (A, PausedArena)
        ensures device { result.0 ≡ self.device }
        ensures shelf { result.1.shelf ≡ self.shelf }
        ensures size { A.size result.0 ≡ result.1.shelf.blocks }
    {
        let paused = PausedArena {
            alloc: self.alloc,
            shelf: self.shelf,
        };
        (self.device, paused)
    }
}

impl PausedArena {
    /// The arena as it was, on the device that was handed out, whose versions are as they were.
    pub fn resume<A: Disk>(self, device: A) -> Arena<A>
        requires size { A.size device ≡ self.shelf.blocks }
        ensures device { result.device ≡ device }
        ensures shelf { result.shelf ≡ self.shelf }
    {
        Arena {
            alloc: self.alloc,
            device,
            shelf: self.shelf,
        }
    }
}
