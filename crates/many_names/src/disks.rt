//! Files over formatted disks in memory.
ghost use Rattle.std.specs.Prelude.{◌≡◌, ◌<◌, true, length, replicate, IfOk};
ghost use Rattle.fo_disk.specs.Disk.{IsQuiet};
ghost use Rattle.fo_disk.specs.Memory.{holds_of};

use fo_base::Memory;
use fo_devices::Devices;
use fo_disk::{Disk, MemDisk};
use fo_files::Files;
use fo_format::format;
use fo_opening::open;
use std::alloc::Global;
use venti_store::Arena;

/// Files over a cache on a disk in memory, with an arena on another.
pub type On = Files<Devices<MemDisk, MemDisk>>;

/// The main device, with one version of each block, and the arena's.
#[derive(Drop)]
pub struct Disks {
    main: MemDisk,
    arena: MemDisk,
    ghost quiet: { IsQuiet (holds_of main) },
}

/// What a run left: the main device of so many blocks, with all versions that a crash may leave, and the arena's of 16.
#[derive(Drop)]
pub struct Left {
    main: MemDisk,
    arena: MemDisk,
    blocks: u32,
    ghost count: { length main.cells.items ≡ blocks },
    ghost places: { length arena.cells.items ≡ 16 },
}

/// A disk of so many blocks of zeros.
fn zeros(alloc: Global, blocks: u32, fails: Vec<u64>) -> Result<MemDisk, Memory>
    ensures quiet { IfOk result (λ m. IsQuiet (holds_of m)) }
    ensures count { IfOk result (λ m. length m.cells.items ≡ blocks) }
{
    MemDisk::new(alloc, blocks, fails)
}

/// Formats two disks.
fn made(alloc: Global, main: &mut MemDisk, arena: &mut MemDisk, blocks: u32) -> bool
    requires quiet { IsQuiet (holds_of main.old) × IsQuiet (holds_of arena.old) }
    requires count { (length main.old.cells.items ≡ blocks) × (length arena.old.cells.items ≡ 16) }
    requires some { 0 < blocks }
    ensures quiet { result ≡ true → IsQuiet (holds_of main.new) }
{
    format(alloc, main, arena, 7).is_ok()
}

/// Disks that were formatted, of which the main one has so many blocks and fails at these calls, counted from 0.
pub fn formatted(alloc: Global, blocks: u32, fails: Vec<u64>) -> Result<Disks, Memory>
    requires { 0 < blocks }
{
    let mut main = zeros(alloc, blocks, fails)?;
    let mut arena = zeros(alloc, 16, Vec::new(alloc))?;
    if !made(alloc, &mut main, &mut arena, blocks) {
        return Err(Memory);
    }
    Ok(Disks { main, arena })
}

/// The files on these disks.
pub fn opened(alloc: Global, disks: Disks) -> Option<On> {
    let Disks { main, arena } = disks;
    match (open(alloc, main), Arena::open(alloc, arena)) {
        (Ok(cache), Ok(arena)) => Some(Files::new(alloc, Devices::new(cache, arena), false)),
        _ => None,
    }
}

/// Whether a disk answers that it has so many blocks.
fn says(disk: &mut MemDisk, blocks: u32) -> bool
    ensures { result ≡ true → length disk.new.cells.items ≡ blocks }
{
    match disk.blocks() {
        Ok(found) => found == u64::from(blocks),
        Err(_) => false,
    }
}

/// Whether a disk has so many blocks. It is asked twice, as the first call may be the one that fails.
fn has_blocks(disk: &mut MemDisk, blocks: u32) -> bool
    ensures { result ≡ true → length disk.new.cells.items ≡ blocks }
{
    says(disk, blocks) || says(disk, blocks)
}

/// What files on a main device of so many blocks leave where they end now.
pub fn closed(files: On, blocks: u32) -> Option<Left> {
    let (mut main, mut arena) = files.into_blocks().close();
    if has_blocks(&mut main, blocks) && has_blocks(&mut arena, 16) {
        Some(Left {
            main,
            arena,
            blocks,
        })
    } else {
        None
    }
}

/// The disk with the picked versions, which are the oldest that a crash may leave.
fn picked(disk: &MemDisk, picks: &[u32], blocks: u32) -> Result<MemDisk, Memory>
    requires picks { picks.now ≡ replicate blocks 0 }
    requires count { length disk.now.cells.items ≡ blocks }
    ensures quiet { IfOk result (λ m. IsQuiet (holds_of m)) }
{
    disk.image(picks)
}

/// The disk with the oldest version of each block that a crash may leave.
fn oldest(alloc: Global, disk: &MemDisk, blocks: u32) -> Result<MemDisk, Memory>
    requires { length disk.now.cells.items ≡ blocks }
    ensures quiet { IfOk result (λ m. IsQuiet (holds_of m)) }
{
    let picks = vec![in alloc; 0; blocks as usize]?;
    picked(disk, picks.as_slice(), blocks)
}

impl Left {
    /// How many calls of the main device were made.
    pub fn calls(&self) -> u64 {
        self.main.calls()
    }

    /// The disks with the oldest version of each block that a crash may leave.
    pub fn image(&self, alloc: Global) -> Result<Disks, Memory> {
        let main = oldest(alloc, &self.main, self.blocks)?;
        let arena = oldest(alloc, &self.arena, 16)?;
        Ok(Disks { main, arena })
    }
}
