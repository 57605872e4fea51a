//! Formatted disks in memory.
ghost use Rattle.std.specs.Prelude.{◌≡◌, true, length, IfOk};
ghost use Rattle.fo_disk.specs.Disk.{IsQuiet};
ghost use Rattle.fo_disk.specs.Memory.{holds_of};

use crate::stored::Failure;
use fo_base::Memory;
use fo_check_image::{Report, check};
use fo_disk::{Disk, MemDisk};
use fo_format::format;
use std::alloc::Global;

/// Both devices, of which each block of the main one has one version.
#[derive(Drop)]
pub struct Disks {
    pub main: MemDisk,
    pub arena: MemDisk,
    ghost quiet: { IsQuiet (holds_of main) },
}

/// Whether each of so many blocks has one version.
fn is_quiet(disk: &MemDisk, blocks: u32) -> bool
    requires { length (holds_of disk.now) ≡ blocks }
    ensures { result ≡ true → IsQuiet (holds_of disk.now) }
{
    for at in 0..blocks {
        if disk.versions(at) != 1 {
            return false;
        }
    }
    true
}

/// How many blocks a disk has, up to 2^20.
fn count(disk: &mut MemDisk) -> Result<u32, Memory>
    ensures { IfOk result (λ n. length (holds_of disk.new) ≡ n) }
{
    match disk.blocks() {
        Ok(blocks) if blocks <= 1 << 20 => Ok(blocks as u32),
        _ => Err(Memory),
    }
}

/// These disks, where each block of the main one has one version.
pub fn quiet(main: MemDisk, arena: MemDisk) -> Result<Disks, Failure> {
    let mut main = main;
    let Ok(blocks) = count(&mut main) else {
        return Err(Failure::Memory);
    };
    if !is_quiet(&main, blocks) {
        return Err(Failure::Versions);
    }
    Ok(Disks { main, arena })
}

/// Disks of 128 and 16 blocks that were formatted at this moment.
pub fn formatted(alloc: Global, made: u32) -> Result<Disks, Failure> {
    let mut main = MemDisk::new(alloc, 128, Vec::new(alloc))?;
    let mut arena = MemDisk::new(alloc, 16, Vec::new(alloc))?;
    if format(alloc, &mut main, &mut arena, made).is_err() {
        return Err(Failure::Format);
    }
    quiet(main, arena)
}

/// What the check finds of these disks.
pub fn report(alloc: Global, disks: &mut Disks) -> Result<Report, Failure> {
    match check(alloc, &mut disks.main, &mut disks.arena) {
        Ok(report) => Ok(report),
        Err(_) => Err(Failure::Check),
    }
}
