//! Writing buffers.
ghost use Rattle.std.specs.Prelude.{◌≡◌, ◌<◌, Bool, true, false, length, is_err, not, slice_index_or, map, [], Ok, IfOk};
ghost use Rattle.std.specs.List.{list_all};
ghost use Rattle.fo_disk.specs.of_base.Cause.{HasCause};
ghost use Rattle.fo_cells.specs.Device.{Mind, MayWrite, MayWriteOver, Stepped};
ghost use Rattle.fo_cells.specs.Buffers.{mind_of, note, bytes_in, is_newborn};

use crate::buffers::Buffers;
use crate::device::write_block;
use fo_disk::{Disk, Failed};

impl Buffers {
    // whether a block was settled whole since it was given out
    fn is_grown(&self, at: u32) -> bool
        ensures { result ≡ not (is_newborn self.now.all.items at) }
    {
        match self.all.get(at as usize) {
            Some(buffer) => !buffer.newborn,
            None => true,
        }
    }

    /// Whether all these blocks were settled whole since they were given out.
    pub fn are_grown(&self, targets: &[u32]) -> bool
        ensures { result ≡ list_all (λ t. not (is_newborn self.now.all.items t)) targets.now }
    {
        targets.iter().all(|target| self.is_grown(*target))
    }

    /// Writes a block with what memory has. It is clean where the device answers Ok.
    pub fn flush<D: Disk>(&mut self, disk: &mut D, at: u32) -> Result<(), Failed>
        requires block { at < D.size disk.old }
        requires within { at < length self.old.all.items }
        ensures step { (rest : Mind) → at < length (D.state disk.old).holds → MayWrite (mind_of rest self.old.all.items) (D.state disk.old).holds at (slice_index_or (map bytes_in self.old.all.items) at []) true → Stepped (mind_of rest self.old.all.items) (mind_of (note at (not (is_err result)) rest) self.new.all.items) (D.state disk.old).unsure (D.state disk.new).unsure (D.state disk.old).holds (D.state disk.new).holds }
        ensures held { length (D.state disk.new).holds ≡ length (D.state disk.old).holds }
        ensures size { D.size disk.new ≡ D.size disk.old }
        ensures cause { HasCause (D.faults disk.old) (D.faults disk.new) result }
    {
        let buffer = &mut self.all[at as usize];
        let wrote = write_block(disk, at, &buffer.bytes);
        let ok = wrote.is_ok();
        buffer.complete = ok;
        buffer.dirty = !ok;
        wrote
    }

    /// Writes a block, where all blocks that its slots lead to were settled whole since they were given out; else it answers false,
    /// and does nothing.
    pub fn flush_ready<D: Disk>(
        &mut self,
        disk: &mut D,
        at: u32,
        targets: &[u32],
    ) -> Result<bool, Failed>
        requires block { at < D.size disk.old }
        requires within { at < length self.old.all.items }
        ensures step { (rest : Mind) → (result ≡ Ok false → ⊥) → at < length (D.state disk.old).holds → MayWriteOver (mind_of rest self.old.all.items) (D.state disk.old).holds at (slice_index_or (map bytes_in self.old.all.items) at []) targets.now → Stepped (mind_of rest self.old.all.items) (mind_of (note at (not (is_err result)) rest) self.new.all.items) (D.state disk.old).unsure (D.state disk.new).unsure (D.state disk.old).holds (D.state disk.new).holds }
        ensures nothing { result ≡ Ok false → (self.new.all.items ≡ self.old.all.items) × ((D.state disk.new).holds ≡ (D.state disk.old).holds) }
        ensures ready { IfOk result (λ written. written ≡ list_all (λ t. not (is_newborn self.old.all.items t)) targets.now) }
        ensures cause { HasCause (D.faults disk.old) (D.faults disk.new) result }
    {
        if !self.are_grown(targets) {
            return Ok(false);
        }
        self.flush(disk, at)?;
        Ok(true)
    }
}
