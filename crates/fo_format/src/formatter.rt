//! The format of two devices.
ghost use Rattle.std.specs.Prelude.{◌≡◌, ℕ, ◌^◌, ◌<◌, ◌≤◌, false, List, length, OnOk, IfOk, IfErr, MatchResult};
ghost use Rattle.fo_base.specs.Cause.{HasCause};
ghost use Rattle.fo_disk.specs.Disk.{Block, latest, IsSure, IsQuiet};
ghost use Rattle.fo_disk.specs.declared.disk.DiskFault.TheVariants.{Write};
ghost use Rattle.fo_image.specs.Record.{RootHolds};
ghost use Rattle.fo_sound.specs.Sizes.{HasSizes};
ghost use Rattle.fo_sound.specs.Device.{Shows};
ghost use Rattle.fo_sound.specs.Fresh.{fresh_root};
ghost use Rattle.fo_format.specs.Formatted.{MakesFresh, MakesEmpty, Unsettled, RefusesSizes, Refuses, HasCauses, KnowsSizes, AsksSizes, IsOfSizes, IsLater, Formats, wrote_main, wrote_arena};

use crate::calls::{count, sync, write};
use crate::error::FormatError;
use crate::labels::write_labels;
use fo_disk::{BLOCK, Disk, DiskFault};
use fo_image::{
    ArenaHead, Header, RootBlock, first_data, write_arena_head, write_header, write_root,
    write_super,
};
use fo_sound::{fresh_root, fresh_super};
use std::alloc::Global;

/// The numbers of blocks of the main device and of the arena.
fn sizes<D: Disk, A: Disk>(main: &mut D, arena: &mut A) -> Result<(u32, u32), FormatError>
    ensures answer { (image vault : List Block) → Shows (D.state main.old).holds image → Shows (A.state arena.old).holds vault
        → MatchResult result (λ n. HasSizes image vault × (length image ≡ n.0) × (length vault ≡ n.1)) (RefusesSizes image vault) }
    ensures found { IfOk result (λ n. (D.size main.new ≡ n.0) × (A.size arena.new ≡ n.1) × (64 ≤ n.0) × (n.0 ≤ 2 ^ 20) × (16 ≤ n.1) × (n.1 ≤ 2 ^ 20)) }
    ensures sizes { KnowsSizes (D.size main.new) (A.size arena.new) result }
    ensures asked { AsksSizes (D.size main.new) (D.calls main.old) (D.calls main.new) (A.calls arena.old) (A.calls arena.new) result }
    ensures only { IfErr result IsOfSizes }
    ensures fixed { 0 < D.size main.old → D.size main.new ≡ D.size main.old }
    ensures arena_fixed { 0 < A.size arena.old → A.size arena.new ≡ A.size arena.old }
    ensures main { D.state main.new ≡ D.state main.old }
    ensures arena { A.state arena.new ≡ A.state arena.old }
    ensures causes { HasCauses (D.faults main.old) (D.faults main.new) (A.faults arena.old) (A.faults arena.new) result }
{
    let blocks = match count(main) {
        Ok(blocks) => blocks,
        Err(fault) => return Err(FormatError::Main(fault)),
    };
    if blocks < 64 || 1 << 20 < blocks {
        return Err(FormatError::Size);
    }
    let arena_blocks = match count(arena) {
        Ok(blocks) => blocks,
        Err(fault) => return Err(FormatError::Arena(fault)),
    };
    if arena_blocks < 16 || 1 << 20 < arena_blocks {
        return Err(FormatError::Size);
    }
    Ok((blocks as u32, arena_blocks as u32))
}

/// Makes an arena of so many blocks empty.
fn write_arena<A: Disk>(arena: &mut A, blocks: u32) -> Result<(), DiskFault>
    requires size { A.size arena.old ≡ blocks }
    requires least { 16 ≤ blocks }
    ensures made { length (latest (A.state arena.old).holds) ≡ blocks
        → let made = MakesEmpty (latest (A.state arena.old).holds) (latest (A.state arena.new).holds) in MatchResult result (λ _. made) (Unsettled made) }
    ensures size { A.size arena.new ≡ A.size arena.old }
    ensures quiet { OnOk result (IsSure (A.state arena.old) → IsQuiet (A.state arena.new).holds) }
    ensures cause { HasCause (A.faults arena.old) (A.faults arena.new) result }
    ensures fault { IfErr result IsLater }
{
    let mut block = [0; BLOCK];
    write_arena_head(&ArenaHead { blocks, used: 0 }, &mut block);
    write(arena, 0, &block)?;
    sync(arena)
}

/// Writes the root block, the label table, the super block and the header of a main device of so many blocks.
fn write_image<D: Disk>(main: &mut D, blocks: u32, root: &RootBlock) -> Result<(), DiskFault>
    requires size { D.size main.old ≡ blocks }
    requires least { 64 ≤ blocks }
    requires most { blocks ≤ 2 ^ 20 }
    requires root { RootHolds root.now }
    ensures made { OnOk result ((time : ℕ) → root.now ≡ fresh_root time → length (latest (D.state main.old).holds) ≡ blocks
        → MakesFresh time (latest (D.state main.old).holds) (latest (D.state main.new).holds)) }
    ensures sure { OnOk result (IsSure (D.state main.old) → IsSure (D.state main.new)) }
    ensures size { D.size main.new ≡ D.size main.old }
    ensures cause { HasCause (D.faults main.old) (D.faults main.new) result }
    ensures fault { IfErr result (λ e. e ≡ Write) }
{
    let mut block = [0; BLOCK];
    write_root(root, &mut block);
    write(main, first_data(blocks), &block)?;
    write_labels(main, blocks)?;
    write_super(&fresh_super(blocks), &mut block);
    write(main, 1, &block)?;
    write_header(&Header { blocks }, &mut block);
    write(main, 0, &block)?;
    Ok(())
}

/// Makes the image of an empty file system with this root block on a main device of so many blocks.
fn write_main<D: Disk>(main: &mut D, blocks: u32, root: &RootBlock) -> Result<(), DiskFault>
    requires size { D.size main.old ≡ blocks }
    requires least { 64 ≤ blocks }
    requires most { blocks ≤ 2 ^ 20 }
    requires root { RootHolds root.now }
    ensures made { (time : ℕ) → root.now ≡ fresh_root time → length (latest (D.state main.old).holds) ≡ blocks
        → let made = MakesFresh time (latest (D.state main.old).holds) (latest (D.state main.new).holds) in MatchResult result (λ _. made) (Unsettled made) }
    ensures size { D.size main.new ≡ D.size main.old }
    ensures quiet { OnOk result (IsSure (D.state main.old) → IsQuiet (D.state main.new).holds) }
    ensures cause { HasCause (D.faults main.old) (D.faults main.new) result }
    ensures fault { IfErr result IsLater }
{
    write_image(main, blocks, root)?;
    sync(main)
}

/// Makes the image of an empty file system of this moment on the main device, and an empty arena on the other, whatever they
/// hold (flfmt, fossil(4)).
///
/// It writes the head of the arena and settles it, and then the root block, the label table, the super block and the header of
/// the main device. All else stays as it is. `Size`, want of memory and blocks that could not be counted leave both devices as
/// they were, and where the main device fails the arena is empty. What a device holds where a write of it failed, or where the
/// program stops in this call, may be anything.
pub fn format<D: Disk, A: Disk>(
    alloc: Global,
    main: &mut D,
    arena: &mut A,
    time: u32,
) -> Result<(), FormatError>
    // Quiet devices that tell what they hold are quiet again, and hold the fresh image and an empty arena.
    ensures formats { (image vault : List Block) → Shows (D.state main.old).holds image → Shows (A.state arena.old).holds vault
        → MatchResult result (λ _. Formats time image vault (D.state main.new).holds (A.state arena.new).holds) (Refuses time image vault (D.state main.new).holds (A.state arena.new).holds) }

    // Over any devices: `Size` is answered exactly where a number of blocks that was found is out of range, and a number that is
    // known stays.
    ensures sizes { KnowsSizes (D.size main.new) (A.size arena.new) result }
    ensures asked { AsksSizes (D.size main.new) (D.calls main.old) (D.calls main.new) (A.calls arena.old) (A.calls arena.new) result }
    ensures fixed { 0 < D.size main.old → D.size main.new ≡ D.size main.old }
    ensures arena_fixed { 0 < A.size arena.old → A.size arena.new ≡ A.size arena.old }

    // Where nothing was written, nothing changed.
    ensures main { IfErr result (λ e. wrote_main e ≡ false → D.state main.new ≡ D.state main.old) }
    ensures arena { IfErr result (λ e. wrote_arena e ≡ false → A.state arena.new ≡ A.state arena.old) }

    ensures causes { HasCauses (D.faults main.old) (D.faults main.new) (A.faults arena.old) (A.faults arena.new) result }
{
    let (blocks, arena_blocks) = sizes(main, arena)?;
    let Ok(root) = fresh_root(alloc, time) else {
        return Err(FormatError::Memory);
    };
    if let Err(fault) = write_arena(arena, arena_blocks) {
        return Err(FormatError::Arena(fault));
    }
    match write_main(main, blocks, &root) {
        Ok(()) => Ok(()),
        Err(fault) => Err(FormatError::Main(fault)),
    }
}
