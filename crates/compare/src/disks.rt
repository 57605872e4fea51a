//! Files over formatted disks in memory.
ghost use Rattle.std.specs.Prelude.{◌≡◌, ◌+◌, ◌<◌, ◌≤◌, ◌^◌, true, length, IfOk, IfSome, OnOk};
ghost use Rattle.fo_disk.specs.Disk.{IsQuiet};
ghost use Rattle.fo_disk.specs.Memory.{holds_of};
ghost use Rattle.compare.specs.Picks.{Picks};

use fo_base::Memory;
use fo_buffers::Block;
use fo_devices::Devices;
use fo_disk::{Disk, MemDisk};
use fo_files::Files;
use fo_format::format;
use fo_opening::{finish, open};
use fo_world::FileOps;
use std::alloc::Global;
use test_random::Random;
use venti_store::Arena;

/// A cache over a disk in memory, with an arena on another.
pub type On = Devices<MemDisk, MemDisk>;

/// A disk of so many blocks of zeros.
fn zeros(alloc: Global, blocks: u32, fails: Vec<u64>) -> Result<MemDisk, Memory>
    ensures quiet { IfOk result (λ m. IsQuiet (holds_of m)) }
    ensures count { IfOk result (λ m. length m.cells.items ≡ blocks) }
{
    MemDisk::new(alloc, blocks, fails)
}

/// Formats two disks.
fn formats(alloc: Global, main: &mut MemDisk, arena: &mut MemDisk, blocks: u32) -> bool
    requires quiet { IsQuiet (holds_of main.old) × IsQuiet (holds_of arena.old) }
    requires count { (length main.old.cells.items ≡ blocks) × (length arena.old.cells.items ≡ 16) }
    requires some { 0 < blocks }
    ensures quiet { result ≡ true → IsQuiet (holds_of main.new) }
{
    format(alloc, main, arena, 7).is_ok()
}

/// Files over these disks.
fn over(alloc: Global, main: MemDisk, arena: MemDisk) -> Option<Files<On>>
    requires { IsQuiet (holds_of main) }
{
    match (open(alloc, main), Arena::open(alloc, arena)) {
        (Ok(cache), Ok(arena)) => Some(Files::new(alloc, Devices::new(cache, arena), false)),
        _ => None,
    }
}

/// The numbers of the calls that fail: none of the first forty, and one in so many of the next.
fn failing(alloc: Global, random: &mut Random, times: u32) -> Result<Vec<u64>, Memory>
    requires { (0 < times) × (times < 2 ^ 20) }
{
    let mut calls = Vec::new(alloc);
    let mut at: u64 = 40;
    for _ in 0..800 {
        at = at.saturating_add(1 + u64::from(random.below(2 * times)));
        calls.push(at)?;
    }
    Ok(calls)
}

/// Files over a fresh disk of so many blocks, which fails at these calls.
fn formatted(alloc: Global, blocks: u32, fails: Vec<u64>) -> Result<Option<Files<On>>, Memory>
    requires { 0 < blocks }
{
    let mut main = zeros(alloc, blocks, fails)?;
    let mut arena = zeros(alloc, 16, Vec::new(alloc))?;
    if !formats(alloc, &mut main, &mut arena, blocks) {
        return Ok(None);
    }
    Ok(over(alloc, main, arena))
}

/// Files over a fresh disk of 96 to 600 blocks, of which one call in 3 to 40 fails.
pub fn fresh(alloc: Global, random: &mut Random) -> Result<Option<Files<On>>, Memory> {
    let times = 3 + random.below(38);
    let fails = failing(alloc, random, times)?;
    let blocks = 96 + random.below(505);
    formatted(alloc, blocks, fails)
}

/// Settles all.
fn settle_all(files: &mut Files<On>) -> bool {
    files.sync().is_ok()
}

/// Settles all, and writes the next file number.
fn finish_all(alloc: Global, on: &mut On) -> bool {
    match Block::new(alloc) {
        Ok(spare) => finish(&mut on.cache, spare).is_ok(),
        Err(_) => false,
    }
}

/// Settles all, and where it is asked for writes the next file number.
pub fn settle(alloc: Global, files: &mut Files<On>, ending: bool) -> bool {
    if ending {
        finish_all(alloc, &mut files.on)
    } else {
        settle_all(files)
    }
}

/// How many blocks a disk has, if it answers.
fn count_once(main: &mut MemDisk) -> Option<u32>
    ensures { IfSome result (λ n. length main.new.cells.items ≡ n) }
{
    let Ok(blocks) = main.blocks() else {
        return None;
    };
    if 1 << 20 < blocks {
        return None;
    }
    Some(blocks as u32)
}

/// How many blocks a disk has. It is asked again where it fails.
fn count(main: &mut MemDisk) -> Option<u32>
    ensures { IfSome result (λ n. length main.new.cells.items ≡ n) }
{
    for _ in 0..100 {
        if let Some(blocks) = count_once(main) {
            return Some(blocks);
        }
    }
    None
}

/// One version more is picked.
fn pick(main: &MemDisk, picks: &mut Vec<u32>, at: u32, random: &mut Random) -> Result<(), Memory>
    requires at { length picks.old.items ≡ at }
    requires block { at < length main.now.cells.items }
    requires picks { Picks picks.old.items (holds_of main.now) }
    ensures picks { OnOk result (Picks picks.new.items (holds_of main.now)) }
    ensures count { OnOk result (length picks.new.items ≡ at + 1) }
{
    let versions = main.versions(at);
    let version = random.below(versions);
    picks.push(version)?;
    Ok(())
}

/// A version of each block is picked.
#[tactic(auto, using(crate::proofs::Quieting::no_picks))]
fn pick_all(
    alloc: Global,
    main: &MemDisk,
    blocks: u32,
    random: &mut Random,
) -> Result<Vec<u32>, Memory>
    requires { length main.now.cells.items ≡ blocks }
    ensures picks { IfOk result (λ v. Picks v.items (holds_of main.now)) }
    ensures count { IfOk result (λ v. length v.items ≡ blocks) }
{
    let mut picks = Vec::new(alloc);
    for at in 0..blocks {
        pick(main, &mut picks, at, random)?;
    }
    Ok(picks)
}

/// The picked versions of a disk.
fn picked(main: &MemDisk, picks: &[u32]) -> Result<MemDisk, Memory>
    requires picks { Picks picks.now (holds_of main.now) }
    requires count { length picks.now ≡ length main.now.cells.items }
    ensures quiet { IfOk result (λ m. IsQuiet (holds_of m)) }
{
    main.image(picks)
}

/// What a power cut may leave of a disk.
fn image(alloc: Global, main: &MemDisk, blocks: u32, random: &mut Random) -> Result<MemDisk, Memory>
    requires { length main.now.cells.items ≡ blocks }
    ensures quiet { IfOk result (λ m. IsQuiet (holds_of m)) }
{
    let picks = pick_all(alloc, main, blocks, random)?;
    picked(main, picks.as_slice())
}

/// Files over what a power cut may leave of the disks.
fn over_image(
    alloc: Global,
    main: &mut MemDisk,
    arena: MemDisk,
    random: &mut Random,
) -> Result<Option<Files<On>>, Memory> {
    let Some(blocks) = count(main) else {
        return Ok(None);
    };
    let left = image(alloc, main, blocks, random)?;
    Ok(over(alloc, left, arena))
}

/// The files, opened again after a power cut.
pub fn again(
    alloc: Global,
    files: Files<On>,
    random: &mut Random,
) -> Result<Option<Files<On>>, Memory> {
    let (mut main, arena) = files.into_blocks().close();
    over_image(alloc, &mut main, arena, random)
}
