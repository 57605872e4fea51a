//! The calls of a disk in memory that never fails.
ghost use Rattle.std.specs.Prelude.{◌≡◌, ◌<◌, ◌∷◌, List, length, replicate, IfOk};
ghost use Rattle.std.proofs.Common.{inr};
ghost use Rattle.fo_disk.specs.Disk.{settled};
ghost use Rattle.fo_disk.specs.Memory.{bytes_of};
ghost use Rattle.fo_disk.specs.Sure.{sure_holds, sure_state, sure_content, sure_bytes, has_flags};

use crate::disk::count_call;
use crate::memory::Version;
use crate::sure::SureDisk;
use crate::{BLOCK, Disk, Failed};
use fo_base::Memory;
use std::alloc::Global;

impl SureDisk {
    /// A disk of zeros.
    pub fn new(alloc: Global, blocks: u32) -> Result<SureDisk, Memory>
        ensures size { IfOk result (λ d. length d.blocks.items ≡ blocks) }
        ensures holds { IfOk result (λ d. sure_holds d ≡ settled (replicate blocks (replicate 8192 0))) }
        ensures calls { IfOk result (λ d. d.calls ≡ 0) }
    {
        let mut all = Vec::new(alloc);
        for _ in 0..blocks {
            let zeros: [u8; BLOCK] = [0; BLOCK];
            all.push(Version::copy_of(alloc, &zeros)?)?;
        }
        Ok(SureDisk {
            blocks: all,
            calls: 0,
        })
    }
}

impl Disk for SureDisk {
    ghost state = { sure_state };

    ghost size = { λ d. length d.blocks.items };

    ghost calls = { λ d. d.calls };

    ghost faults = { λ d. 0 };

    ghost is_content = { λ d. inr (sure_content d) };

    ghost are_bytes = { sure_bytes };

    ghost is_newest = { λ d. record { newest = tt } };

    ghost has_flags = { has_flags };

    fn blocks(&mut self) -> Result<u64, Failed> {
        count_call(&mut self.calls);
        Ok(self.blocks.len() as u64)
    }

    fn read(&mut self, at: u32, into: &mut [u8]) -> Result<(), Failed> {
        count_call(&mut self.calls);
        let version = &self.blocks[at as usize];
        into.copy_from_slice(&version.bytes);
        Ok(())
    }

    fn write(&mut self, at: u32, from: &[u8]) -> Result<(), Failed> {
        count_call(&mut self.calls);
        let version = &mut self.blocks[at as usize];
        version.fill(from);
        Ok(())
    }

    fn sync(&mut self) -> Result<(), Failed> {
        count_call(&mut self.calls);
        Ok(())
    }
}

impl Version {
    fn fill(&mut self, from: &[u8])
        requires { length from.now ≡ 8192 }
        ensures { bytes_of self.new ≡ from.now }
    {
        self.bytes.as_mut_slice().copy_from_slice(from);
    }
}
