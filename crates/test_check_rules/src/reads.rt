//! How often each block of the main device is read.
ghost use Rattle.std.proofs.Common.{inr, refl};
ghost use Rattle.fo_disk.specs.MemoryLaws as law;

use crate::made::sound;
use crate::wide::wide;
use fo_check_image::check;
use fo_disk::{Disk, Failed, MemDisk};
use std::alloc::Global;
use std::test::Fail;

/// A disk in memory that counts how often each of its first 64 blocks is read.
#[derive(Drop)]
struct Counting {
    disk: MemDisk,
    reads: [u8; 64],
}

impl Disk for Counting {
    ghost state = { λ d. ⟦<MemDisk as Disk>⟧.state d.disk };

    ghost size = { λ d. ⟦<MemDisk as Disk>⟧.size d.disk };

    ghost calls = { λ d. ⟦<MemDisk as Disk>⟧.calls d.disk };

    ghost faults = { λ d. ⟦<MemDisk as Disk>⟧.faults d.disk };

    ghost is_content = { λ d. inr (law.is_content d.disk) };

    ghost are_bytes = { λ d. law.are_bytes d.disk };

    ghost is_newest = { λ d. record { newest = (refl, law.is_content d.disk) } };

    ghost has_flags = { λ d. law.has_flags d.disk };

    fn blocks(&mut self) -> Result<u64, Failed> {
        self.disk.blocks()
    }

    fn read(&mut self, at: u32, into: &mut [u8]) -> Result<(), Failed> {
        if at < 64 {
            let count = &mut self.reads[at as usize];
            *count = count.saturating_add(1);
        }
        self.disk.read(at, into)
    }

    fn write(&mut self, at: u32, from: &[u8]) -> Result<(), Failed> {
        self.disk.write(at, from)
    }

    fn sync(&mut self) -> Result<(), Failed> {
        self.disk.sync()
    }
}

/// How often a check reads each of the first blocks.
fn reads(alloc: Global, disk: MemDisk, arena: &mut MemDisk) -> [u8; 64] {
    let mut main = Counting {
        disk,
        reads: [0; 64],
    };
    let _ = check(alloc, &mut main, arena);
    main.reads
}

/// Each block of the tree is read once, but the bytes of files (blocks 7 to 9 and 12) never; the header and the super block once; and the
/// block of labels once for the label of the active root, and once for all.
#[test]
fn each_once(rt: HostRuntime) -> Result<(), Fail> {
    let alloc = rt.alloc();
    let (main, mut arena) = sound(alloc)?;
    let found = reads(alloc, main, &mut arena);
    assert!(rt; found[..13] == [1, 1, 2, 1, 1, 1, 1, 0, 0, 0, 1, 1, 0]);
    assert!(rt; found[13..].iter().all(|n| *n == 0));
    let (main, mut arena) = wide(alloc)?;
    let found = reads(alloc, main, &mut arena);
    assert!(rt; found[..11] == [1, 1, 2, 1, 1, 1, 1, 1, 1, 1, 1]);
    assert!(rt; found[11..].iter().all(|n| *n == 0));
    Ok(())
}
