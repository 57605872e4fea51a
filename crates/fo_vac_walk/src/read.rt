//! Bytes of sources.
ghost use Rattle.std.specs.Prelude.{◌≡◌, ◌+◌, ◌-◌, ◌%◌, ◌^◌, ◌<◌, ◌≤◌, ℕ, length, min, take, drop, slice_index, IfOk, MatchResult};
ghost use Rattle.fo_crash.specs.Images.{Link};
ghost use Rattle.fo_good.specs.Reading.{source_in};
ghost use Rattle.fo_vac_open.specs.Tree.{no_image};
ghost use Rattle.fo_vac_walk.specs.Walk.{Holding, IsTold, IsSourceOf, blocks_of, byte_of, Spoils, HasWalkCauses};

use crate::error::WalkError;
use crate::source::Source;
use fo_disk::{BLOCK, Disk};
use std::alloc::Global;
use venti_store::Arena;

/// How many bytes a leaf has.
const LEAF: u64 = BLOCK as u64;

/// Copies bytes of a block.
fn copy_from(block: &[u8], from: usize, into: &mut [u8])
    requires { from + length into.old ≤ length block.now }
    ensures { (i : ℕ) → i < length into.old → slice_index into.new i ≡ slice_index block.now (from + i) }
{
    into.copy_from_slice(&block[from..from + into.len()]);
}

impl Source {
    /// Copies bytes of one leaf.
    fn copy_part<A: Disk>(
        &self,
        alloc: Global,
        arena: &mut Arena<A>,
        place: u64,
        into: &mut [u8],
    ) -> Result<(), WalkError>
        requires { place % 8192 + length into.old ≤ 8192 }
        ensures held { (h : Holding) (w : Link) → IsTold h arena.old.shelf (A.state arena.old.device) → IsSourceOf w self.now.entry
            → MatchResult result (λ _. (i : ℕ) → i < length into.old → slice_index into.new i ≡ byte_of h w (place + i)) (Spoils h w self.now.holder) }
        ensures shelf { arena.new.shelf ≡ arena.old.shelf }
        ensures kept { A.state arena.new.device ≡ A.state arena.old.device }
        ensures cause { HasWalkCauses (A.faults arena.old.device) (A.faults arena.new.device) result }
    {
        let mut block = [0; BLOCK];
        let _ = self.leaf(alloc, arena, place / LEAF, &mut block)?;
        copy_from(&block, (place % LEAF) as usize, into);
        Ok(())
    }

    /// Copies bytes below the end.
    fn copy_out<A: Disk>(
        &self,
        alloc: Global,
        arena: &mut Arena<A>,
        offset: u64,
        into: &mut [u8],
    ) -> Result<(), WalkError>
        requires within { offset + length into.old ≤ self.now.entry.size }
        requires fits { offset + length into.old < 2 ^ 64 }
        ensures held { (h : Holding) (w : Link) → IsTold h arena.old.shelf (A.state arena.old.device) → IsSourceOf w self.now.entry
            → MatchResult result (λ _. (i : ℕ) → i < length into.old → slice_index into.new i ≡ byte_of h w (offset + i)) (Spoils h w self.now.holder) }
        ensures shelf { arena.new.shelf ≡ arena.old.shelf }
        ensures kept { A.state arena.new.device ≡ A.state arena.old.device }
        ensures cause { HasWalkCauses (A.faults arena.old.device) (A.faults arena.new.device) result }
    {
        let mut done = 0;
        while done < into.len() {
            let place = offset + done as u64;
            let count = ((LEAF - place % LEAF) as usize).min(into.len() - done);
            self.copy_part(alloc, arena, place, &mut into[done..done + count])?;
            done += count;
        }
        Ok(())
    }

    /// Copies the bytes from the offset on to the front of the slice, as many as there are and fit, and says how many. Where it is
    /// refused the front of the slice may have been changed.
    pub fn read<A: Disk>(
        &self,
        alloc: Global,
        arena: &mut Arena<A>,
        offset: u64,
        into: &mut [u8],
    ) -> Result<usize, WalkError>
        ensures count { IfOk result (λ n. n ≡ min (length into.old) (self.now.entry.size - offset)) }
        ensures held { (h : Holding) (w : Link) → IsTold h arena.old.shelf (A.state arena.old.device) → IsSourceOf w self.now.entry
            → MatchResult result (λ n. take n into.new ≡ take (length into.old) (drop offset (source_in (blocks_of h) no_image w))) (Spoils h w self.now.holder) }
        ensures behind { IfOk result (λ n. drop n into.new ≡ drop n into.old) }
        ensures shelf { arena.new.shelf ≡ arena.old.shelf }
        ensures kept { A.state arena.new.device ≡ A.state arena.old.device }
        ensures cause { HasWalkCauses (A.faults arena.old.device) (A.faults arena.new.device) result }
    {
        let left = self.entry.size.saturating_sub(offset);
        if left == 0 {
            return Ok(0);
        }
        let count = (left as usize).min(into.len());
        self.copy_out(alloc, arena, offset, &mut into[..count])?;
        Ok(count)
    }
}
