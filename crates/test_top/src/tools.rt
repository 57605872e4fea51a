//! The tools over devices in memory.

use fo_disk::{BLOCK, Disk, MemDisk};
use fo_links::MemSink;
use fo_tools::{ToolEnd, flchk, flfmt};
use std::alloc::Global;
use std::test::Fail;

const FORMATTED: &[u8] = b"formatted 64 blocks 61 data\n";

const FORMATTED_AND_SOUND: &[u8] =
    b"formatted 64 blocks 61 data\nsound 64 blocks 1 used 0 leaked 0 snapshots\n";

/// No call has this number.
const NEVER: u64 = u64::MAX;

/// A main device, an arena of 16 blocks and an output.
#[derive(Drop)]
struct Edges {
    main: MemDisk,
    arena: MemDisk,
    out: MemSink,
}

impl Edges {
    /// New ones, each of which fails at the call with its number, counted from 0.
    fn failing(alloc: Global, main: u64, arena: u64, out: u64) -> Result<Edges, Fail> {
        Ok(Edges {
            main: MemDisk::new(alloc, 64, vec![in alloc; main]?)?,
            arena: MemDisk::new(alloc, 16, vec![in alloc; arena]?)?,
            out: MemSink::new(vec![in alloc; out]?),
        })
    }

    fn format(&mut self, alloc: Global) -> ToolEnd {
        flfmt(alloc, &mut self.main, &mut self.arena, &mut self.out, 7)
    }

    fn check(&mut self, alloc: Global) -> ToolEnd {
        flchk(alloc, &mut self.main, &mut self.arena, &mut self.out)
    }
}

/// Gives a block these bytes.
fn fill(disk: &mut MemDisk, at: u32, bytes: &[u8; BLOCK]) -> Result<(), Fail> {
    if u64::from(at) < disk.blocks()? {
        disk.write(at, bytes)?;
        disk.sync()?;
    }
    Ok(())
}

/// The bytes of a block.
fn block_of(disk: &mut MemDisk, at: u32) -> Result<[u8; BLOCK], Fail> {
    let mut block = [0; BLOCK];
    if u64::from(at) < disk.blocks()? {
        disk.read(at, &mut block)?;
    }
    Ok(block)
}

/// What is printed of new devices.
#[test]
fn ample(rt: HostRuntime) -> Result<(), Fail> {
    let alloc = rt.alloc();
    let mut edges = Edges::failing(alloc, NEVER, NEVER, NEVER)?;
    assert!(rt; edges.format(alloc) == ToolEnd::Ended);
    assert!(rt; edges.out.bytes() == FORMATTED);
    assert!(rt; edges.check(alloc) == ToolEnd::Ended);
    assert!(rt; edges.out.bytes() == FORMATTED_AND_SOUND);
    Ok(())
}

/// Nothing is printed of an image that is broken, and of an arena that is none.
#[test]
fn broken(rt: HostRuntime) -> Result<(), Fail> {
    let alloc = rt.alloc();
    let mut edges = Edges::failing(alloc, NEVER, NEVER, NEVER)?;
    assert!(rt; edges.format(alloc) == ToolEnd::Ended);

    let super_block = block_of(&mut edges.main, 1)?;
    fill(&mut edges.main, 1, &[0; BLOCK])?;
    assert!(rt; edges.check(alloc) == ToolEnd::NotFossil);
    fill(&mut edges.main, 1, &super_block)?;

    let mut labels = block_of(&mut edges.main, 2)?;
    assert!(rt; labels[47] == 1);
    labels[47] = 2;
    fill(&mut edges.main, 2, &labels)?;
    assert!(rt; edges.check(alloc) == ToolEnd::Unsound { rule: 2, block: 3 });
    labels[47] = 1;
    fill(&mut edges.main, 2, &labels)?;

    fill(&mut edges.arena, 0, &[0; BLOCK])?;
    assert!(rt; edges.check(alloc) == ToolEnd::NotArena);
    assert!(rt; edges.out.bytes() == FORMATTED);
    Ok(())
}

/// Each call of `flfmt` fails in turn: there are 7 of the main device, 3 of the arena and one of the output. Nothing fails after it.
#[test]
fn format_faults(rt: HostRuntime) -> Result<(), Fail> {
    let alloc = rt.alloc();
    for (main, arena, out, end) in [
        (0, NEVER, NEVER, ToolEnd::MainRead),
        (1, NEVER, NEVER, ToolEnd::MainRead),
        (2, NEVER, NEVER, ToolEnd::MainWrite),
        (3, NEVER, NEVER, ToolEnd::MainWrite),
        (4, NEVER, NEVER, ToolEnd::MainWrite),
        (5, NEVER, NEVER, ToolEnd::MainWrite),
        (6, NEVER, NEVER, ToolEnd::MainWrite),
        (NEVER, 0, NEVER, ToolEnd::ArenaRead),
        (NEVER, 1, NEVER, ToolEnd::ArenaWrite),
        (NEVER, 2, NEVER, ToolEnd::ArenaWrite),
        (NEVER, NEVER, 0, ToolEnd::Output),
        (7, 3, 1, ToolEnd::Ended),
    ] {
        let mut edges = Edges::failing(alloc, main, arena, out)?;
        assert!(rt; edges.format(alloc) == end);
        let printed = match end {
            ToolEnd::Ended => FORMATTED,
            ToolEnd::Output => b"formatted 64 b",
            _ => b"",
        };
        assert!(rt; edges.out.bytes() == printed);
    }
    Ok(())
}
