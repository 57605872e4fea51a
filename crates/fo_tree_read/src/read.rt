//! Bytes are read, leaf by leaf.
ghost use Rattle.std.specs.Prelude.{◌≡◌, ◌⊎◌, ◌+◌, ◌-◌, ◌*◌, ◌/◌, ◌<◌, ◌≤◌, ℕ, length, min, take, drop, slice_index, IfOk, OnOk, IfErr, false};
ghost use Rattle.fo_looks.specs.of_ports.State.{Looks};
ghost use Rattle.fo_looks.specs.of_ports.Sources.{Finds, AreLocal};
ghost use Rattle.fo_tree_read.specs.Tree.{Hangs, address, byte, bytes, Refused, Names};
ghost use Rattle.fo_tree_read.specs.Reading.{most, Prepared, IsLocal};

use crate::copy::LEAF;
use crate::tree::Tree;
use fo_looks::{BlockError, Blocks};

impl Tree {
    /// Copies the bytes from the offset on to the front of the slice, as many as there are and fit, and says how many. Where it is
    /// refused the front of the slice may have been changed. Of a source of entries nothing is said of the bytes given; nor
    /// of a leaf under a score where the device tells nothing.
    pub fn read<B: Blocks>(
        &self,
        on: &mut B,
        offset: u64,
        into: &mut [u8],
    ) -> Result<usize, BlockError>
        requires hangs { Hangs (B.state on.old) self.now }
        ensures count { IfOk result (λ n. n ≡ min (length into.old) (self.now.size - offset)) }
        ensures given { IfOk result (λ n. self.now.dir ≡ false → Finds (B.state on.old).tells (most self.now.depth (length into.old)) (B.state on.old).pins_left (Prepared (B.state on.old) self.now offset (length into.old)) → (B.state on.old).tells ⊎ AreLocal (address (B.state on.new) self.now) self.now.size offset (length into.old) → take n into.new ≡ take (length into.old) (drop offset (bytes (B.state on.new) self.now))) }
        ensures behind { IfOk result (λ n. drop n into.new ≡ drop n into.old) }
        ensures pins { (B.state on.old).pins_left ≤ (B.state on.new).pins_left + most self.now.depth (length into.old) }
        ensures looks { Looks (B.state on.old) (B.state on.new) }
        ensures keeps { B.keeps on.old on.new }
        ensures cause { IfErr result (Refused (B.state on.old) (B.state on.new) (Names (B.state on.old) self.now)) }
    {
        let left = self.size.saturating_sub(offset);
        if left == 0 {
            return Ok(0);
        }
        let count = (left as usize).min(into.len());
        self.copy_out(on, offset, &mut into[..count])?;
        Ok(count)
    }

    /// Copies bytes below the end.
    fn copy_out<B: Blocks>(
        &self,
        on: &mut B,
        offset: u64,
        into: &mut [u8],
    ) -> Result<(), BlockError>
        requires hangs { Hangs (B.state on.old) self.now }
        requires within { offset + length into.old ≤ self.now.size }
        ensures given { OnOk result (self.now.dir ≡ false → Finds (B.state on.old).tells (most self.now.depth (length into.old)) (B.state on.old).pins_left (Prepared (B.state on.old) self.now offset (length into.old)) → (i : ℕ) → i < length into.old → (B.state on.old).tells ⊎ IsLocal (B.state on.new) self.now ((offset + i) / 8192) → slice_index into.new i ≡ byte (B.state on.new) self.now (offset + i)) }
        ensures pins { (B.state on.old).pins_left ≤ (B.state on.new).pins_left + most self.now.depth (length into.old) }
        ensures looks { Looks (B.state on.old) (B.state on.new) }
        ensures keeps { B.keeps on.old on.new }
        ensures cause { IfErr result (Refused (B.state on.old) (B.state on.new) (Names (B.state on.old) self.now)) }
    {
        let mut done = 0;
        while done < into.len() {
            let place = offset + done as u64;
            let count = ((LEAF - place % LEAF) as usize).min(into.len() - done);
            self.copy_part(on, place, &mut into[done..done + count])?;
            done += count;
        }
        Ok(())
    }
}
