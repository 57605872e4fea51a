//! The check of the images of two devices.
ghost use Rattle.std.specs.Prelude.{◌≡◌, ℕ, ◌+◌, ◌*◌, ◌^◌, ◌<◌, ◌≤◌, List, length, IfOk, IfErr};
ghost use Rattle.fo_base.specs.Cause.{Counted};
ghost use Rattle.fo_disk.specs.Disk.{Block};
ghost use Rattle.fo_sound.specs.Image.{block_of};
ghost use Rattle.fo_sound.specs.Sound.{IsFormatted, HasActiveRoot};
ghost use Rattle.fo_sound.specs.Sizes.{HasSizes, IsArena, IsMainSize};
ghost use Rattle.fo_check.specs.Answer.{Finds, Opens, Refuses, KnowsSizes, AsksSizes};
ghost use Rattle.fo_sound.specs.Device.{Shows};
ghost use Rattle.fo_check.specs.Device.{HasCauses};
ghost use Rattle.fo_check.specs.Stage.{RefusesSizes, RefusesStart, RefusesArena, RefusesActive, IsNoSize};

use crate::error::CheckError;
use crate::opening::Opening;
use crate::reads::{count, has_root_label, read_arena, read_main};
use crate::rules::{has_epochs, is_data_block, is_header, judge, root_of, unsound};
use fo_disk::{BLOCK, Disk, DiskFault};
use fo_image::{RootBlock, Super, arena_places, read_arena_head, read_super};
use std::alloc::Global;

/// The numbers of blocks of the main device and of the arena.
fn sizes<D: Disk, A: Disk>(main: &mut D, arena: &mut A) -> Result<(u32, u32), CheckError>
    ensures answer { (image vault : List Block) → Shows (D.state main.old).holds image → Shows (A.state arena.old).holds vault
        → Finds (λ n. HasSizes image vault × (length image ≡ n.0) × (length vault ≡ n.1)) (RefusesSizes image vault) result }
    ensures found { IfOk result (λ n. (D.size main.new ≡ n.0) × (A.size arena.new ≡ n.1) × (64 ≤ n.0) × (n.0 ≤ 2 ^ 20) × (16 ≤ n.1) × (n.1 ≤ 2 ^ 20)) }
    ensures sizes { KnowsSizes (D.size main.new) (A.size arena.new) result }
    ensures asked { AsksSizes (D.size main.new) (D.calls main.old) (D.calls main.new) (A.calls arena.old) (A.calls arena.new) result }
    ensures main_fixed { 0 < D.size main.old → D.size main.new ≡ D.size main.old }
    ensures arena_fixed { 0 < A.size arena.old → A.size arena.new ≡ A.size arena.old }
    ensures main { D.state main.new ≡ D.state main.old }
    ensures arena { A.state arena.new ≡ A.state arena.old }
    ensures reads { (D.calls main.new ≤ D.calls main.old + 1) × (A.calls arena.new ≤ A.calls arena.old + 1) }
    ensures causes { HasCauses (D.faults main.old) (D.faults main.new) (A.faults arena.old) (A.faults arena.new) result }
{
    let blocks = match count(main) {
        Ok(blocks) => blocks,
        Err(_) => return Err(CheckError::Main(DiskFault::Read)),
    };
    if blocks < 64 || 1 << 20 < blocks {
        return Err(CheckError::Size);
    }
    let arena_blocks = match count(arena) {
        Ok(blocks) => blocks,
        Err(_) => return Err(CheckError::Arena(DiskFault::Read)),
    };
    if arena_blocks < 16 || 1 << 20 < arena_blocks {
        return Err(CheckError::Size);
    }
    Ok((blocks as u32, arena_blocks as u32))
}

/// The super block of a main device with a header.
fn start<D: Disk>(main: &mut D, blocks: u32) -> Result<Super, CheckError>
    requires size { D.size main.old ≡ blocks }
    requires least { 64 ≤ blocks }
    ensures answer { (image : List Block) → length image ≡ blocks → Shows (D.state main.old).holds image → Finds (IsFormatted image) (RefusesStart image) result }
    ensures no_size { IfErr result IsNoSize }
    ensures size { D.size main.new ≡ D.size main.old }
    ensures main { D.state main.new ≡ D.state main.old }
    ensures reads { D.calls main.new ≤ D.calls main.old + 2 }
    ensures causes { HasCauses (D.faults main.old) (D.faults main.new) 0 0 result }
{
    let mut block = [0; BLOCK];
    read_main(main, 0, &mut block)?;
    if !is_header(&block, blocks) {
        return Err(unsound(1, 0));
    }
    read_main(main, 1, &mut block)?;
    match read_super(&block) {
        Ok(s) => Ok(s),
        Err(_) => Err(unsound(1, 1)),
    }
}

/// Refuses what is no arena, and one in which something is used.
fn open_arena<A: Disk>(arena: &mut A, blocks: u32) -> Result<(), CheckError>
    requires size { A.size arena.old ≡ blocks }
    requires least { 16 ≤ blocks }
    ensures answer { (vault : List Block) → length vault ≡ blocks → Shows (A.state arena.old).holds vault → Finds (λ _. IsArena vault 0) (RefusesArena vault) result }
    ensures no_size { IfErr result IsNoSize }
    ensures size { A.size arena.new ≡ A.size arena.old }
    ensures arena { A.state arena.new ≡ A.state arena.old }
    ensures calls { Counted (A.calls arena.old) (A.calls arena.new) }
    ensures causes { HasCauses 0 0 (A.faults arena.old) (A.faults arena.new) result }
{
    let mut block = [0; BLOCK];
    read_arena(arena, 0, &mut block)?;
    let head = match read_arena_head(&block) {
        Ok(head) => head,
        Err(_) => return Err(CheckError::NotArena),
    };
    if head.blocks != blocks || arena_places(blocks) < head.used {
        return Err(CheckError::NotArena);
    }
    if 0 < head.used {
        return Err(CheckError::NotBuilt);
    }
    Ok(())
}

/// The active root.
fn active_root<D: Disk>(
    alloc: Global,
    main: &mut D,
    blocks: u32,
    s: &Super,
) -> Result<RootBlock, CheckError>
    requires size { D.size main.old ≡ blocks }
    requires most { blocks ≤ 2 ^ 20 }
    ensures answer { (image : List Block) → length image ≡ blocks → Shows (D.state main.old).holds image
        → Finds (HasActiveRoot image s.now) (RefusesActive image s.now) result }
    ensures no_size { IfErr result IsNoSize }
    ensures size { D.size main.new ≡ D.size main.old }
    ensures main { D.state main.new ≡ D.state main.old }
    ensures reads { D.calls main.new ≤ D.calls main.old + 2 }
    ensures causes { HasCauses (D.faults main.old) (D.faults main.new) 0 0 result }
{
    if !has_epochs(s) || !is_data_block(blocks, s.active) {
        return Err(unsound(2, 1));
    }
    let labelled = has_root_label(main, blocks, s)?;
    if !labelled {
        return Err(unsound(2, s.active));
    }
    let mut block = [0; BLOCK];
    read_main(main, s.active, &mut block)?;
    let root = root_of(alloc, s, &block)?;
    Ok(root)
}

/// Looks at the images of the main device and of the arena as far as their trees: the sizes, S1, the arena, S2, what is not built,
/// and S3. Nothing is written.
///
/// The first of these is answered: `Size` of main and then of the arena; rule 1; `NotArena`; `NotBuilt` for an arena in
/// which something is used; rule 2; `NotBuilt` for a root before the active one from the low epoch on, or for archives; rule 3. A
/// device's fault or want of memory comes where it is met.
pub fn open_images<D: Disk, A: Disk>(
    alloc: Global,
    main: &mut D,
    arena: &mut A,
) -> Result<Opening, CheckError>
    // Over quiet devices that tell what they hold: what was found is so and no more could be, and each refusal has its reason.
    ensures answer { (image vault : List Block) → Shows (D.state main.old).holds image → Shows (A.state arena.old).holds vault
        → Finds (Opens image vault) (Refuses image vault) result }

    // Over any devices: what was found has the number of blocks of the main device, which is in range.
    ensures found { IfOk result (λ o. (D.size main.new ≡ o.blocks) × IsMainSize o.blocks) }

    // `Size` is answered exactly where a number of blocks that was found is out of range, and a number that is known stays.
    ensures sizes { KnowsSizes (D.size main.new) (A.size arena.new) result }
    ensures asked { AsksSizes (D.size main.new) (D.calls main.old) (D.calls main.new) (A.calls arena.old) (A.calls arena.new) result }
    ensures main_fixed { 0 < D.size main.old → D.size main.new ≡ D.size main.old }
    ensures arena_fixed { 0 < A.size arena.old → A.size arena.new ≡ A.size arena.old }

    // Nothing is written.
    ensures main { D.state main.new ≡ D.state main.old }
    ensures arena { A.state arena.new ≡ A.state arena.old }

    // Over any devices: at most five calls of main and two of the arena.
    ensures reads { (D.calls main.new ≤ D.calls main.old + 5) × (A.calls arena.new ≤ A.calls arena.old + 2) }

    ensures causes { HasCauses (D.faults main.old) (D.faults main.new) (A.faults arena.old) (A.faults arena.new) result }
{
    let (blocks, arena_blocks) = sizes(main, arena)?;
    let s = start(main, blocks)?;
    open_arena(arena, arena_blocks)?;
    let root = active_root(alloc, main, blocks, &s)?;
    judge(&s, &root)?;
    Ok(Opening { blocks, s, root })
}
