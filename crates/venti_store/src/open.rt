//! The opening of an arena: its head and the lines of its used places are read, each block of the index once.
ghost use Rattle.std.specs.Prelude.{◌≡◌, ◌+◌, ◌*◌, ◌/◌, ◌^◌, ◌<◌, ◌≤◌, ℕ, List, [], length, min, OnOk, IfOk, IfErr, MatchResult};
ghost use Rattle.fo_base.specs.Cause.{HasCause};
ghost use Rattle.fo_disk.specs.Disk.{Block};
ghost use Rattle.fo_image.specs.Place.{arena_places};
ghost use Rattle.fo_sound.specs.Device.{Shows};
ghost use Rattle.fo_sound.specs.Image.{block_of};
ghost use Rattle.venti_store.specs.Held.{IsIndexed};
ghost use Rattle.venti_store.specs.Arena.{lines_of};
ghost use Rattle.venti_store.specs.Opening.{ReadLines, OpenRefuses, UsedIs, HeadRefuses, TakesLine, LineRefuses, LinesRefuse, IsNoFault, HasOpenCauses};

use crate::error::ArenaWhy;
use crate::index::Index;
use crate::recent::Recent;
use crate::shelf::Shelf;
use fo_base::LINES;
use fo_disk::{BLOCK, Disk, Failed};
use fo_image::{arena_places, read_arena_head, read_arena_line};
use std::alloc::Global;

/// The number of blocks, which is in range.
fn count<A: Disk>(device: &mut A) -> Result<u32, ArenaWhy>
    ensures size { IfOk result (λ n. (A.size device.new ≡ n) × (16 ≤ n) × (n ≤ 2 ^ 20)) }
    ensures shown { (vault : List Block) → Shows (A.state device.old).holds vault → MatchResult result (λ n. length vault ≡ n) (OpenRefuses vault) }
    ensures calls { A.calls device.new ≤ A.calls device.old + 1 }
    ensures kept { A.state device.new ≡ A.state device.old }
    ensures cause { HasOpenCauses (A.faults device.old) (A.faults device.new) result }
{
    let Ok(blocks) = device.blocks() else {
        return Err(ArenaWhy::ArenaRead);
    };
    if blocks < 16 || 1 << 20 < blocks {
        return Err(ArenaWhy::NotArena);
    }
    Ok(blocks as u32)
}

/// The bytes of a block.
fn read<A: Disk>(device: &mut A, at: u32, into: &mut [u8]) -> Result<(), Failed>
    requires block { at < A.size device.old }
    requires length { length into.old ≡ 8192 }
    ensures shown { (vault : List Block) → Shows (A.state device.old).holds vault → OnOk result (into.new ≡ block_of vault at) }
    ensures size { A.size device.new ≡ A.size device.old }
    ensures calls { A.calls device.new ≤ A.calls device.old + 1 }
    ensures kept { A.state device.new ≡ A.state device.old }
    ensures cause { HasCause (A.faults device.old) (A.faults device.new) result }
{
    device.read(at, into)
}

/// How many places are used, as the head says.
fn read_head<A: Disk>(device: &mut A, blocks: u32) -> Result<u32, ArenaWhy>
    requires size { A.size device.old ≡ blocks }
    requires least { 16 ≤ blocks }
    ensures shown { (vault : List Block) → length vault ≡ blocks → Shows (A.state device.old).holds vault → MatchResult result (UsedIs vault) (HeadRefuses vault) }
    ensures places { IfOk result (λ used. used ≤ arena_places blocks) }
    ensures calls { A.calls device.new ≤ A.calls device.old + 1 }
    ensures size { A.size device.new ≡ A.size device.old }
    ensures kept { A.state device.new ≡ A.state device.old }
    ensures cause { HasOpenCauses (A.faults device.old) (A.faults device.new) result }
{
    let mut block = [0; BLOCK];
    let Ok(()) = read(device, 0, &mut block) else {
        return Err(ArenaWhy::ArenaRead);
    };
    let Ok(head) = read_arena_head(&block) else {
        return Err(ArenaWhy::NotArena);
    };
    if head.blocks != blocks || arena_places(blocks) < head.used {
        return Err(ArenaWhy::NotArena);
    }
    Ok(head.used)
}

/// Adds the line that these bytes spell, at the next place.
fn add_line(index: &mut Index, bytes: &[u8]) -> Result<(), ArenaWhy>
    requires length { length bytes.now ≡ 24 }
    requires few { length index.old.lines.items < 2 ^ 20 }
    ensures { MatchResult result (λ _. TakesLine bytes.now index.old.lines.items index.new.lines.items) (LineRefuses bytes.now index.old.lines.items) }
{
    let Ok(line) = read_arena_line(bytes) else {
        return Err(ArenaWhy::NotArena);
    };
    if index.place(&line.score, line.kind).is_some() {
        return Err(ArenaWhy::NotArena);
    }
    let Ok(()) = index.add(line) else {
        return Err(ArenaWhy::Memory);
    };
    Ok(())
}

/// Adds the lines of a group of places, of which so many are used in all.
fn add_group(index: &mut Index, block: &[u8], group: u32, used: u32) -> Result<(), ArenaWhy>
    requires length { length block.now ≡ 8192 }
    requires most { used ≤ 2 ^ 20 }
    requires some { 341 * group < used }
    requires count { length index.old.lines.items ≡ 341 * group }
    ensures lines { (vault : List Block) → block.now ≡ block_of vault (1 + 342 * group) → ReadLines (341 * group) index.old.lines.items vault
        → MatchResult result (λ _. ReadLines (min used (341 * (group + 1))) index.new.lines.items vault) (LinesRefuse used vault) }
    ensures count { OnOk result (length index.new.lines.items ≡ min used (341 * (group + 1))) }
    ensures cause { IfErr result IsNoFault }
{
    for n in 0..LINES.min(used - LINES * group) as usize {
        add_line(index, &block[24 * n..24 * n + 24])?;
    }
    Ok(())
}

/// The index of an arena with so many used places.
fn read_index<A: Disk>(alloc: Global, device: &mut A, used: u32) -> Result<Index, ArenaWhy>
    requires most { A.size device.old ≤ 2 ^ 20 }
    requires places { used ≤ arena_places (A.size device.old) }
    ensures lines { (vault : List Block) → Shows (A.state device.old).holds vault → MatchResult result (λ i. ReadLines used i.lines.items vault) (LinesRefuse used vault) }
    ensures count { IfOk result (λ i. length i.lines.items ≡ used) }
    ensures calls { A.calls device.new ≤ A.calls device.old + (used + 340) / 341 }
    ensures size { A.size device.new ≡ A.size device.old }
    ensures kept { A.state device.new ≡ A.state device.old }
    ensures cause { HasOpenCauses (A.faults device.old) (A.faults device.new) result }
{
    let mut index = Index::new(alloc);
    let mut block = [0; BLOCK];
    for group in 0..used.div_ceil(LINES) {
        let Ok(()) = read(device, 1 + (LINES + 1) * group, &mut block) else {
            return Err(ArenaWhy::ArenaRead);
        };
        add_group(&mut index, &block, group, used)?;
    }
    Ok(index)
}

/// What is in memory once the arena is open.
pub(crate) fn read_shelf<A: Disk>(alloc: Global, device: &mut A) -> Result<Shelf, ArenaWhy>
    ensures answer { (vault : List Block) → Shows (A.state device.old).holds vault → MatchResult result (λ s. IsIndexed (length (lines_of s)) (lines_of s) vault) (OpenRefuses vault) }
    ensures size { IfOk result (λ s. A.size device.new ≡ s.blocks) }
    ensures none { IfOk result (λ s. (s.pending.items ≡ []) × (s.recent.blocks.items ≡ [])) }
    ensures calls { MatchResult result (λ s. A.calls device.new ≤ A.calls device.old + 2 + (length (lines_of s) + 340) / 341)
        (λ _. A.calls device.new ≤ A.calls device.old + 2 + (arena_places (A.size device.new) + 340) / 341) }
    ensures kept { A.state device.new ≡ A.state device.old }
    ensures cause { HasOpenCauses (A.faults device.old) (A.faults device.new) result }
{
    let blocks = count(device)?;
    let used = read_head(device, blocks)?;
    let index = read_index(alloc, device, used)?;
    let Ok(recent) = Recent::new(alloc) else {
        return Err(ArenaWhy::Memory);
    };
    Ok(Shelf {
        blocks,
        index,
        pending: Vec::new(alloc),
        recent,
    })
}
