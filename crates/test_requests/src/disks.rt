//! Files over formatted disks in memory.
ghost use Rattle.std.specs.Prelude.{◌≡◌, ◌<◌, ◌≤◌, true, length, IfOk, IfSome, OnOk};
ghost use Rattle.fo_disk.specs.Disk.{IsQuiet, IsSure};
ghost use Rattle.fo_disk.specs.Memory.{holds_of, state_of};
ghost use Rattle.test_requests.specs.Picks.{Picks};

use fo_base::Memory;
use fo_check_image::check;
use fo_devices::Devices;
use fo_disk::{Disk, Failed, MemDisk};
use fo_files::Files;
use fo_format::format;
use fo_opening::open;
use std::alloc::Global;
use venti_store::Arena;

/// Files over a cache on a disk in memory, with an arena on another.
pub type On = Files<Devices<MemDisk, MemDisk>>;

/// The main device, with one version of each block, and the arena's.
#[derive(Drop)]
pub struct Disks {
    pub main: MemDisk,
    pub arena: MemDisk,
    ghost quiet: { IsQuiet (holds_of main) },
}

/// What a run left: the main device of 64 blocks, and the arena's of 16, with all versions that a crash may leave.
#[derive(Drop)]
pub struct Left {
    pub main: MemDisk,
    pub arena: MemDisk,
    ghost count: { length main.cells.items ≡ 64 },
    ghost places: { length arena.cells.items ≡ 16 },
}

/// A disk of so many blocks of zeros.
fn zeros(alloc: Global, blocks: u32, fails: Vec<u64>) -> Result<MemDisk, Memory>
    ensures quiet { IfOk result (λ m. IsQuiet (holds_of m)) }
    ensures count { IfOk result (λ m. length m.cells.items ≡ blocks) }
{
    MemDisk::new(alloc, blocks, fails)
}

/// Formats two disks.
fn made(alloc: Global, main: &mut MemDisk, arena: &mut MemDisk) -> bool
    requires quiet { IsQuiet (holds_of main.old) × IsQuiet (holds_of arena.old) }
    requires count { (length main.old.cells.items ≡ 64) × (length arena.old.cells.items ≡ 16) }
    ensures quiet { result ≡ true → IsQuiet (holds_of main.new) }
{
    format(alloc, main, arena, 7).is_ok()
}

/// Disks that were formatted, of which the main one fails at these calls. Formatting makes the first six, and opening the next four.
pub fn formatted(alloc: Global, fails: Vec<u64>) -> Result<Disks, Memory> {
    let mut main = zeros(alloc, 64, fails)?;
    let mut arena = zeros(alloc, 16, Vec::new(alloc))?;
    if !made(alloc, &mut main, &mut arena) {
        return Err(Memory);
    }
    Ok(Disks { main, arena })
}

/// The files on these disks.
pub fn opened(alloc: Global, disks: Disks) -> Option<On> {
    let Disks { main, arena } = disks;
    match (open(alloc, main), Arena::open(alloc, arena)) {
        (Ok(cache), Ok(arena)) => Some(Files::new(alloc, Devices::new(cache, arena), false)),
        _ => None,
    }
}

/// Whether a disk answers that it has so many blocks.
fn says(disk: &mut MemDisk, blocks: u64) -> bool
    ensures { result ≡ true → length disk.new.cells.items ≡ blocks }
{
    match disk.blocks() {
        Ok(found) => found == blocks,
        Err(_) => false,
    }
}

/// Whether a disk has so many blocks. It is asked twice, as the first call may be the one that fails.
fn has_blocks(disk: &mut MemDisk, blocks: u64) -> bool
    ensures { result ≡ true → length disk.new.cells.items ≡ blocks }
{
    says(disk, blocks) || says(disk, blocks)
}

/// Copies a block of a disk to another.
fn copy_block(from: &mut MemDisk, to: &mut MemDisk, at: u32) -> Result<(), Failed>
    requires at { at < 64 }
    requires count { (length from.old.cells.items ≡ 64) × (length to.old.cells.items ≡ 64) }
    requires sure { IsSure (state_of to.old) }
    ensures count { (length from.new.cells.items ≡ 64) × (length to.new.cells.items ≡ 64) }
    ensures sure { OnOk result (IsSure (state_of to.new)) }
{
    let mut block = [0; 8192];
    from.read(at, &mut block)?;
    to.write(at, &block)
}

/// Copies all blocks of a disk to another, and settles them.
fn copy_all(from: &mut MemDisk, to: &mut MemDisk) -> Result<(), Failed>
    requires count { (length from.old.cells.items ≡ 64) × (length to.old.cells.items ≡ 64) }
    requires sure { IsSure (state_of to.old) }
    ensures quiet { OnOk result (IsQuiet (holds_of to.new)) }
{
    for at in 0..64 {
        copy_block(from, to, at)?;
    }
    to.sync()
}

/// A copy of a disk of 64 blocks that fails at this call, counted from 0 once it is made: that takes 65 calls of it.
fn copy_that_fails(alloc: Global, disk: &mut MemDisk, call: u64) -> Option<MemDisk>
    requires { length disk.old.cells.items ≡ 64 }
    ensures { IfSome result (λ m. IsQuiet (holds_of m)) }
{
    let fails = vec![in alloc; call.saturating_add(65)].ok()?;
    let mut copy = zeros(alloc, 64, fails).ok()?;
    copy_all(disk, &mut copy).ok()?;
    Some(copy)
}

/// The same disks, of which the main one fails at this call, counted from 0. None where it hasn't 64 blocks.
pub fn that_fail(alloc: Global, disks: Disks, call: u64) -> Option<Disks> {
    let Disks { mut main, arena } = disks;
    if !has_blocks(&mut main, 64) {
        return None;
    }
    let main = copy_that_fails(alloc, &mut main, call)?;
    Some(Disks { main, arena })
}

/// What these files leave where they end now.
pub fn closed(files: On) -> Option<Left> {
    let (mut main, mut arena) = files.into_blocks().close();
    if has_blocks(&mut main, 64) && has_blocks(&mut arena, 16) {
        Some(Left { main, arena })
    } else {
        None
    }
}

/// Picks the newest version of a block.
fn pick_newest(disk: &MemDisk, picks: &mut [u32], at: u32)
    requires old { Picks picks.old (holds_of disk.now) }
    requires at { at < length disk.now.cells.items }
    ensures new { Picks picks.new (holds_of disk.now) }
{
    picks[at as usize] = disk.versions(at) - 1;
}

/// The disk with the oldest version of each block, but of those in this range the newest.
fn picked(disk: &MemDisk, from: u32, to: u32) -> Result<MemDisk, Memory>
    requires count { length disk.now.cells.items ≡ 64 }
    requires range { to ≤ 64 }
    ensures quiet { IfOk result (λ m. IsQuiet (holds_of m)) }
{
    let mut picks = [0; 64];
    for at in from..to {
        pick_newest(disk, &mut picks, at);
    }
    disk.image(&picks)
}

/// Picks the version of a block that a number says, and gives what is left of the number for the other blocks.
fn pick_by(disk: &MemDisk, picks: &mut [u32], at: u32, number: u32) -> u32
    requires old { Picks picks.old (holds_of disk.now) }
    requires at { at < length disk.now.cells.items }
    ensures new { Picks picks.new (holds_of disk.now) }
{
    let versions = disk.versions(at);
    picks[at as usize] = number % versions;
    number / versions
}

/// The disk with the versions that a number says: the choices are counted, those of the first blocks fastest.
fn picked_by(disk: &MemDisk, number: u32) -> Result<MemDisk, Memory>
    requires count { length disk.now.cells.items ≡ 64 }
    ensures quiet { IfOk result (λ m. IsQuiet (holds_of m)) }
{
    let mut picks = [0; 64];
    let mut left = number;
    for at in 0..64 {
        left = pick_by(disk, &mut picks, at, left);
    }
    disk.image(&picks)
}

/// The arena's device as it is, with one version of each block.
fn copied(arena: &MemDisk) -> Result<MemDisk, Memory>
    requires { length arena.now.cells.items ≡ 16 }
{
    arena.image(&[0; 16])
}

impl Left {
    ghost use Rattle.std.specs.Prelude.{◌<◌, ◌≤◌};

    /// How many versions a block of main has.
    pub fn versions(&self, at: u32) -> u32
        requires { at < 64 }
    {
        self.main.versions(at)
    }

    /// How many choices of a version of each block there are, of all blocks of main.
    pub fn choices(&self) -> u32 {
        let mut choices: u32 = 1;
        for at in 0..64 {
            choices = choices.saturating_mul(self.versions(at));
        }
        choices
    }

    /// The disks as a crash may leave them: of all choices of a version of each block the one with this number.
    pub fn choice(&self, number: u32) -> Result<Disks, Memory> {
        let main = picked_by(&self.main, number)?;
        let arena = copied(&self.arena)?;
        Ok(Disks { main, arena })
    }

    /// The disks as a crash may leave them, with the oldest version of each block, but of those in this range the newest.
    pub fn image(&self, from: u32, to: u32) -> Result<Disks, Memory>
        requires { to ≤ 64 }
    {
        let main = picked(&self.main, from, to)?;
        let arena = copied(&self.arena)?;
        Ok(Disks { main, arena })
    }
}

/// How many blocks of these disks are used and how many leaked, where the check finds them sound.
pub fn checked(alloc: Global, disks: &mut Disks) -> Option<(u32, u32)> {
    match check(alloc, &mut disks.main, &mut disks.arena) {
        Ok(report) => Some((report.used, report.leaked)),
        Err(_) => None,
    }
}
