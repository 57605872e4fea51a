//! Disks in memory for whole runs, and the runs over them.
ghost use Rattle.std.specs.Prelude.{◌≡◌, ◌<◌, true, length, IfOk};
ghost use Rattle.fo_disk.specs.Disk.{IsQuiet};
ghost use Rattle.fo_disk.specs.Memory.{holds_of};

use fo_base::Memory;
use fo_disk::{Disk, MemDisk};
use fo_links::{Clock, MemSink, MemSource, SetClock};
use fo_tools::{ToolEnd, flfmt};
use fo_top::{Done, Why, run};
use std::alloc::{AllocError, Global};
use std::test::Fail;

/// What a run gives back.
pub type Ran = Done<MemDisk, MemDisk, MemSource, MemSink>;

/// Both devices, of which each block of the main one has one version.
#[derive(Drop)]
pub struct Disks {
    pub main: MemDisk,
    pub arena: MemDisk,
    ghost quiet: { IsQuiet (holds_of main) },
}

/// Whether each of so many blocks has one version.
fn is_quiet(disk: &MemDisk, blocks: u32) -> bool
    requires { length (holds_of disk.now) ≡ blocks }
    ensures { result ≡ true → IsQuiet (holds_of disk.now) }
{
    for at in 0..blocks {
        if disk.versions(at) != 1 {
            return false;
        }
    }
    true
}

/// How many blocks a disk has, up to 2^20.
fn count(disk: &mut MemDisk) -> Result<u32, Memory>
    ensures { IfOk result (λ n. length (holds_of disk.new) ≡ n) }
{
    match disk.blocks() {
        Ok(blocks) if blocks <= 1 << 20 => Ok(blocks as u32),
        _ => Err(Memory),
    }
}

/// These disks, where the main one is quiet.
pub fn quiet(main: MemDisk, arena: MemDisk) -> Result<Disks, Memory> {
    let mut main = main;
    let blocks = count(&mut main)?;
    if !is_quiet(&main, blocks) {
        return Err(Memory);
    }
    Ok(Disks { main, arena })
}

/// Disks of zeros of so many blocks, of which the main one fails at these calls.
pub fn zeros(alloc: Global, main: u32, arena: u32, fails: Vec<u64>) -> Result<Disks, Fail> {
    let main = MemDisk::new(alloc, main, fails)?;
    let arena = MemDisk::new(alloc, arena, Vec::new(alloc))?;
    Ok(quiet(main, arena)?)
}

/// Disks of 64 and 16 blocks that were formatted at the moment 0, of which the main one fails at these calls. Until then it has nine.
pub fn formatted(alloc: Global, fails: Vec<u64>) -> Result<Disks, Fail> {
    let Disks {
        mut main,
        mut arena,
    } = zeros(alloc, 64, 16, fails)?;
    let mut out = MemSink::new(Vec::new(alloc));
    if flfmt(alloc, &mut main, &mut arena, &mut out, 0) != ToolEnd::Ended {
        return Err(Fail::new("not formatted"));
    }
    Ok(quiet(main, arena)?)
}

fn words(alloc: Global, name: &str) -> Result<Vec<String>, AllocError> {
    let mut words = Vec::new(alloc);
    for word in [name, "main", "arena"] {
        words.push(String::from_str(alloc, word)?)?;
    }
    Ok(words)
}

/// Runs a command over these disks, this input, which comes at most `step` bytes at a time, and this clock.
pub fn ran_at<C: Clock + Drop>(
    alloc: Global,
    name: &str,
    disks: Disks,
    input: Vec<u8>,
    step: usize,
    clock: C,
) -> Result<Ran, Fail>
    requires { 0 < step }
{
    let words = words(alloc, name)?;
    let Disks { main, arena } = disks;
    Ok(run(
        alloc,
        words.as_slice(),
        main,
        arena,
        MemSource::new(input, step, Vec::new(alloc)),
        MemSink::new(Vec::new(alloc)),
        clock,
    ))
}

/// Runs a command over these disks and this input, at the moment 7.
pub fn ran(alloc: Global, name: &str, disks: Disks, input: Vec<u8>) -> Result<Ran, Fail> {
    ran_at(alloc, name, disks, input, 9, SetClock::new(7))
}

/// The disks of a run that ended so and printed or said just this.
pub fn after(done: Ran, why: Why, output: &[u8]) -> Result<Disks, Fail> {
    let Done {
        why: ended,
        main,
        arena,
        out,
        ..
    } = done;
    if ended != why {
        return Err(Fail::new("the run ended otherwise"));
    }
    if out.bytes() != output {
        return Err(Fail::new("the run said something else"));
    }
    Ok(quiet(main, arena)?)
}
