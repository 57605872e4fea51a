//! A device with its buffers.
ghost use Rattle.fo_cells.specs.Kept.{AreKept};

use crate::buffers::Buffers;
use fo_disk::{Disk, Failed};

/// A device with the buffers of its blocks. At every moment the invariant holds over both, where the device tells what it holds.
#[derive(Drop)]
pub struct Buffered<D: Disk> {
    pub(crate) main: D,
    pub(crate) buffers: Buffers,
    ghost kept: { AreKept buffers.all.items (D.state main).unsure (D.state main).holds },
}

impl<D: Disk> Buffered<D> {
    ghost use Rattle.std.specs.Prelude.{◌≡◌, ◌<◌, true, length, map, slice_index_or, []};
    ghost use Rattle.fo_disk.specs.of_base.Cause.{HasCause};
    ghost use Rattle.fo_crash.specs.Steps.{AddsNothing};
    ghost use Rattle.fo_cells.specs.Known.{Images};
    ghost use Rattle.fo_cells.specs.Device.{MayWrite, known};
    ghost use Rattle.fo_cells.specs.Buffers.{mind_of, bytes_in};
    ghost use Rattle.fo_cells.specs.Kept.{bare};

    /// The device, with what it holds.
    pub fn close(self) -> D
        ensures device { result ≡ self.main }
    {
        self.main
    }

    /// Writes a block with what memory has. No image is added, whatever the device answers.
    pub fn flush(&mut self, at: u32) -> Result<(), Failed>
        requires block { at < D.size self.old.main }
        requires within { at < length self.old.buffers.all.items }
        requires may { 0 < length (D.state self.old.main).holds → MayWrite (mind_of bare self.old.buffers.all.items) (D.state self.old.main).holds at (slice_index_or (map bytes_in self.old.buffers.all.items) at []) true }
        ensures adds { 0 < length (D.state self.old.main).holds → AddsNothing (Images (known (mind_of bare self.old.buffers.all.items) (D.state self.old.main).holds)) (Images (known (mind_of bare self.new.buffers.all.items) (D.state self.new.main).holds)) }
        ensures cause { HasCause (D.faults self.old.main) (D.faults self.new.main) result }
    {
        self.buffers.flush(&mut self.main, at)
    }
}
