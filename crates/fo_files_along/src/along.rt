//! The way to a file is made ready.
ghost use Rattle.std.specs.Prelude.{◌≡◌, ◌≢◌, ◌⊎◌, ◌+◌, ◌*◌, ◌<◌, ◌≤◌, ℕ, true, false, List, length, IfOk, IfErr, OnErr, MatchOption};
ghost use Rattle.fo_base.specs.Cause.{Rose};
ghost use Rattle.fo_ports.specs.Causes.{Caused};
ghost use Rattle.fo_ports.specs.State.{Looks};
ghost use Rattle.fo_files_plan.specs.of_files_at.Way.{IsWay};
ghost use Rattle.fo_files_plan.specs.of_files_at.Held.{FileHolds};
ghost use Rattle.fo_files_dir.specs.Dir.{IsDirAt, IsFileAt};
ghost use Rattle.fo_files_record.specs.Leaf.{IsEntriesAt};
ghost use Rattle.fo_files_record.specs.Own.{IsRootAt};
ghost use Rattle.fo_files_plan.specs.Owned.{AreOwned};
ghost use Rattle.fo_files_along.specs.Along.{IsApart, OwnsWay, IsStepOf, IsAboveOf, GoesAlong, GoesToDir, HasPairIn};
ghost use Rattle.fo_ports.specs.Sources.{Dirties};
ghost use Rattle.fo_files_plan.specs.of_files_way.Owns.{IsIn};

use fo_files_dir::{DirAt, FileAt};
use fo_files_plan::files_at::Way;
use fo_files_plan::{dir_at, file_at, own_way, plan_along};
use fo_ports::{BlockError, Blocks};
use std::alloc::Global;

/// Where the pair of a file below the root directory stands, that of its directory, and that of the directory above that one: None where that one is
/// the root directory.
#[derive(Clone, Copy, Debug)]
pub struct Stand {
    pub dir: DirAt,
    pub file: FileAt,
    pub above: Option<DirAt>,
}

/// Where the pair of a directory stands, and that of the directory above it: None where it is the root directory.
#[derive(Clone, Copy, Debug)]
pub struct DirStand {
    pub dir: DirAt,
    pub above: Option<DirAt>,
}

/// Plans and owns a way, and gives its blocks: the root block, and a leaf of entries for each directory on it. Where it is refused all was only looked
/// at.
fn own_blocks<B: Blocks>(alloc: Global, on: &mut B, way: &Way) -> Result<Vec<u32>, BlockError>
    requires silent { (B.state on.old).tells → ⊥ }
    requires way { (root : ℕ) × ((trail : List ℕ) × IsWay (B.state on.old) root trail way.now) }
    requires pins { 20 * length way.now.steps.items + 1 ≤ (B.state on.old).pins_left }
    requires spare { 5 * length way.now.steps.items ≤ (B.state on.old).spare }
    ensures blocks { IfOk result (λ at. AreOwned (B.state on.new) at.items × (length at.items ≡ length way.now.steps.items + 1)) }
    ensures owned { IfOk result (λ at. (c : B) × ((root : ℕ) (trail : List ℕ) → IsWay (B.state on.old) root trail way.now → Looks (B.state on.old) (B.state c) × OwnsWay (B.state c) (B.state on.new) root trail way.now at.items)) }
    ensures nothing { OnErr result (Looks (B.state on.old) (B.state on.new)) }
    ensures spare { (B.state on.old).spare ≤ (B.state on.new).spare + 5 * length way.now.steps.items }
    ensures usable { (B.state on.old).usable + (B.state on.new).spare ≤ (B.state on.new).usable + (B.state on.old).spare }
    ensures pins { (B.state on.old).pins_left ≤ (B.state on.new).pins_left + (20 * length way.now.steps.items + 1) }
    ensures room { (B.state on.new).room ≡ (B.state on.old).room }
    ensures cause { IfErr result (Caused ⊥ (λ b. (B.state on.old).is_block b ⊎ (b ≡ 1)) (Rose (B.state on.old).faults (B.state on.new).faults) (Rose (B.state on.old).arena_faults (B.state on.new).arena_faults)) }
    ensures dirties { IfOk result (λ at. Dirties (10 * length way.now.steps.items + 1) (IsIn at.items) (B.state on.old) (B.state on.new)) }
    ensures keeps { B.keeps on.old on.new }
{
    let plan = match plan_along(alloc, on, way) {
        Ok(plan) => plan,
        Err(why) => return Err(why),
    };
    Ok(own_way(plan, on))
}

/// Where the pair of the directory of step `k` stands, on a way that was owned.
fn step_at<B: Blocks>(on: &B, at: &Vec<u32>, way: &Way, k: usize) -> DirAt
    requires owned { AreOwned (B.state on.now) at.now.items }
    requires way { (root : ℕ) × ((trail : List ℕ) × IsWay (B.state on.now) root trail way.now) }
    requires within { (k < length way.now.steps.items) × (length at.now.items ≡ length way.now.steps.items + 1) }
    ensures holds { IsDirAt (B.state on.now) result }
    ensures is { IsStepOf at.now.items way.now.steps.items k result }
{
    dir_at(on, at, k, &way.steps[k].dir)
}

/// Where the pair of the directory above file `k` of such a way stands; None above the root directory.
fn above_at<B: Blocks>(on: &B, at: &Vec<u32>, way: &Way, k: usize) -> Option<DirAt>
    requires owned { AreOwned (B.state on.now) at.now.items }
    requires way { (root : ℕ) × ((trail : List ℕ) × IsWay (B.state on.now) root trail way.now) }
    requires within { (k ≤ length way.now.steps.items) × (length at.now.items ≡ length way.now.steps.items + 1) }
    ensures holds { MatchOption result (k ≡ 0) (λ a. IsDirAt (B.state on.now) a) }
    ensures is { IsAboveOf at.now.items way.now.steps.items k result }
{
    if k == 0 {
        return None;
    }
    Some(step_at(on, at, way, k - 1))
}

/// Plans and owns the way to a file below the root directory, and says where its pair stands, its directory's, and that of the directory above that.
/// Where it is refused all was only looked at.
pub fn own_along<B: Blocks>(alloc: Global, on: &mut B, way: &Way) -> Result<Stand, BlockError>
    requires silent { (B.state on.old).tells → ⊥ }
    requires way { (root : ℕ) × ((trail : List ℕ) × IsWay (B.state on.old) root trail way.now) }
    requires some { 0 < length way.now.steps.items }
    requires pins { 20 * length way.now.steps.items + 1 ≤ (B.state on.old).pins_left }
    requires spare { 5 * length way.now.steps.items ≤ (B.state on.old).spare }
    ensures dir { IfOk result (λ at. IsDirAt (B.state on.new) at.dir) }
    ensures file { IfOk result (λ at. IsFileAt (B.state on.new) at.file) }
    ensures entries { IfOk result (λ at. IsEntriesAt (B.state on.new) at.file.at) }
    ensures above { IfOk result (λ at. MatchOption at.above (IsRootAt (B.state on.new) at.dir.at) (λ a. IsDirAt (B.state on.new) a × IsEntriesAt (B.state on.new) at.dir.at × (a.number ≢ at.dir.number))) }
    ensures owned { IfOk result (λ at. (c : B) × ((root : ℕ) (trail : List ℕ) → IsWay (B.state on.old) root trail way.now → Looks (B.state on.old) (B.state c) × GoesAlong (B.state c) (B.state on.new) root trail way.now at.dir at.file at.above)) }
    ensures nothing { OnErr result (Looks (B.state on.old) (B.state on.new)) }
    ensures spare { (B.state on.old).spare ≤ (B.state on.new).spare + 5 * length way.now.steps.items }
    ensures usable { (B.state on.old).usable + (B.state on.new).spare ≤ (B.state on.new).usable + (B.state on.old).spare }
    ensures pins { (B.state on.old).pins_left ≤ (B.state on.new).pins_left + (20 * length way.now.steps.items + 1) }
    ensures room { (B.state on.new).room ≡ (B.state on.old).room }
    ensures cause { IfErr result (Caused ⊥ (λ b. (B.state on.old).is_block b ⊎ (b ≡ 1)) (Rose (B.state on.old).faults (B.state on.new).faults) (Rose (B.state on.old).arena_faults (B.state on.new).arena_faults)) }
    ensures dirties { IfOk result (λ at. Dirties (10 * length way.now.steps.items + 1) (λ b. (b ≡ at.file.at) ⊎ HasPairIn at.dir at.above b) (B.state on.old) (B.state on.new)) }
    ensures keeps { B.keeps on.old on.new }
{
    let blocks = match own_blocks(alloc, on, way) {
        Ok(blocks) => blocks,
        Err(why) => return Err(why),
    };
    let last = way.steps.len() - 1;
    let dir = step_at(on, &blocks, way, last);
    let file = file_at(on, &blocks, last + 1, &way.file);
    let above = above_at(on, &blocks, way, last);
    Ok(Stand { dir, file, above })
}

/// Whether a directory has the number of the one above it.
fn is_looped(way: &Way) -> bool
    ensures { result ≡ false → IsApart way.now }
{
    let depth = way.steps.len();
    if depth == 0 {
        return false;
    }
    way.steps[depth - 1].dir.named.number == way.file.named.number
}

/// The same for a directory, which may be the root: then its pair stands in the root block. The block with a directory's pair is damaged where the
/// directory has the number of the one above it.
pub fn own_dir_along<B: Blocks>(
    alloc: Global,
    on: &mut B,
    way: &Way,
) -> Result<DirStand, BlockError>
    requires silent { (B.state on.old).tells → ⊥ }
    requires way { (root : ℕ) × ((trail : List ℕ) × IsWay (B.state on.old) root trail way.now) }
    requires dir { way.now.file.dir ≡ true }
    requires short { length way.now.steps.items ≤ 65 }
    requires pins { 20 * length way.now.steps.items + 1 ≤ (B.state on.old).pins_left }
    requires spare { 5 * length way.now.steps.items ≤ (B.state on.old).spare }
    ensures dir { IfOk result (λ at. IsDirAt (B.state on.new) at.dir) }
    ensures above { IfOk result (λ at. MatchOption at.above (IsRootAt (B.state on.new) at.dir.at) (λ a. IsDirAt (B.state on.new) a × IsEntriesAt (B.state on.new) at.dir.at × (a.number ≢ at.dir.number))) }
    ensures owned { IfOk result (λ at. (c : B) × ((root : ℕ) (trail : List ℕ) → IsWay (B.state on.old) root trail way.now → Looks (B.state on.old) (B.state c) × GoesToDir (B.state c) (B.state on.new) root trail way.now at.dir at.above)) }
    ensures nothing { OnErr result (Looks (B.state on.old) (B.state on.new)) }
    ensures spare { (B.state on.old).spare ≤ (B.state on.new).spare + 5 * length way.now.steps.items }
    ensures usable { (B.state on.old).usable + (B.state on.new).spare ≤ (B.state on.new).usable + (B.state on.old).spare }
    ensures pins { (B.state on.old).pins_left ≤ (B.state on.new).pins_left + (20 * length way.now.steps.items + 1) }
    ensures room { (B.state on.new).room ≡ (B.state on.old).room }
    ensures cause { IfErr result (Caused ⊥ (λ b. (B.state on.old).is_block b ⊎ (b ≡ 1)) (Rose (B.state on.old).faults (B.state on.new).faults) (Rose (B.state on.old).arena_faults (B.state on.new).arena_faults)) }
    ensures dirties { IfOk result (λ at. Dirties (10 * length way.now.steps.items + 1) (HasPairIn at.dir at.above) (B.state on.old) (B.state on.new)) }
    ensures keeps { B.keeps on.old on.new }
{
    if is_looped(way) {
        return Err(BlockError::Damaged(way.file.leaf));
    }
    let blocks = match own_blocks(alloc, on, way) {
        Ok(blocks) => blocks,
        Err(why) => return Err(why),
    };
    let depth = way.steps.len();
    let dir = dir_at(on, &blocks, depth, &way.file);
    let above = above_at(on, &blocks, way, depth);
    Ok(DirStand { dir, above })
}
