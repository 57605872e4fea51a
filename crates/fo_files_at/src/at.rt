//! The file at a place.
ghost use Rattle.std.specs.Prelude.{◌≡◌, ◌+◌, ◌-◌, ◌*◌, ◌<◌, ◌≤◌, ◌++◌, ℕ, List, [], ◌∷◌, length, take, slice_index, true, IfOk, IfErr, IfSome};
ghost use Rattle.fo_base.specs.Cause.{Rose};
ghost use Rattle.fo_ports.specs.declared.error.BlockError.TheVariants.{Memory};
ghost use Rattle.fo_ports.specs.Causes.{Caused};
ghost use Rattle.fo_ports.specs.State.{Looks};
ghost use Rattle.fo_dir_read.specs.Names.{leaf_count};
ghost use Rattle.fo_files_at.specs.Held.{FileHolds};
ghost use Rattle.fo_files_at.specs.Way.{IsWay};

use crate::file::{File, RECORDS_BELOW, below, records_of};
use crate::root::root_file;
use fo_dir_list::numbered;
use fo_ports::{BlockError, Blocks};
use std::alloc::Global;

/// The most numbers that a trail to a file has: directories lie at depths up to 64.
const MOST: usize = 65;

/// A directory on the way to a file, and the leaf of its records that has the record of the next.
#[derive(Debug, Drop)]
pub struct Step {
    pub dir: File,
    pub leaf: u32,
}

/// A file that was found, with the directories on the way to it, the root first.
#[derive(Debug, Drop)]
pub struct Way {
    pub steps: Vec<Step>,
    pub file: File,
}

impl Way {
    /// The way to the root directory.
    fn at_root(alloc: Global, file: File) -> Way
        ensures { (result.file ≡ file) × (result.steps.items ≡ []) }
    {
        Way {
            steps: Vec::new(alloc),
            file,
        }
    }

    /// One step more, to the next file. Refused: want of memory.
    fn onto(self, leaf: u32, next: File) -> Result<Way, BlockError>
        ensures is { IfOk result (λ w. (w.file ≡ next) × (w.steps.items ≡ self.steps.items ++ record { dir = self.file; leaf = leaf } ∷ [])) }
        ensures memory { IfErr result (λ e. e ≡ Memory) }
    {
        let Way { mut steps, file } = self;
        match steps.push(Step { dir: file, leaf }) {
            Ok(()) => Ok(Way { steps, file: next }),
            Err(_) => Err(BlockError::Memory),
        }
    }

    /// The way to the directory that has the file, or to the root directory itself.
    pub fn above<B: Blocks>(self, on: &B) -> Way
        ensures way { (root : ℕ) (trail : List ℕ) → IsWay (B.state on.now) root trail self → IsWay (B.state on.now) root (take (length trail - 1) trail) result }
    {
        let _ = on;
        let Way { mut steps, file } = self;
        match steps.pop() {
            Some(step) => Way::to(steps, step),
            None => Way { steps, file },
        }
    }

    /// The way to the directory of the next step.
    fn to(steps: Vec<Step>, next: Step) -> Way
        ensures { (result.file ≡ next.dir) × (result.steps.items ≡ steps.items) }
    {
        let Step { dir, leaf } = next;
        let _ = leaf;
        Way { steps, file: dir }
    }
}

/// The file with this number in a directory, and the leaf that has its record.
pub fn one_down<B: Blocks>(
    alloc: Global,
    on: &mut B,
    dir: &File,
    number: u32,
) -> Result<Option<(u32, File)>, BlockError>
    requires holds { FileHolds (B.state on.old) dir.now }
    requires high { 40 ≤ dir.now.rank }
    requires silent { (B.state on.old).tells → ⊥ }
    ensures holds { IfOk result (λ found. IfSome found (λ f. FileHolds (B.state on.new) f.1)) }
    ensures rank { IfOk result (λ found. IfSome found (λ f. f.1.rank + 32 ≡ dir.now.rank)) }
    ensures number { IfOk result (λ found. IfSome found (λ f. f.1.named.number ≡ number)) }
    ensures leaf { IfOk result (λ found. IfSome found (λ f. (f.0 < leaf_count dir.now.second.size) × (dir.now.dir ≡ true))) }
    ensures looks { Looks (B.state on.old) (B.state on.new) × B.keeps on.old on.new }
    ensures cause { IfErr result (Caused ⊥ (λ b. (B.state on.old).is_block b) (Rose (B.state on.old).faults (B.state on.new).faults) ⊥) }
{
    if !dir.dir {
        return Ok(None);
    }
    let mut records = match records_of(alloc, on, dir) {
        Ok(records) => records,
        Err(why) => return Err(why),
    };
    let found = match numbered(alloc, &mut records, on, dir.rank - RECORDS_BELOW, number) {
        Ok(Some(found)) => found,
        Ok(None) => return Ok(None),
        Err(why) => return Err(why),
    };
    match below(alloc, on, dir, found.record) {
        Ok(file) => Ok(Some((found.leaf, file))),
        Err(why) => Err(why),
    }
}

/// The file at the end of a trail of file numbers, with the way to it; None where the trail leads nowhere.
pub fn at_place<B: Blocks>(
    alloc: Global,
    on: &mut B,
    root: u32,
    trail: &[u32],
) -> Result<Option<Way>, BlockError>
    requires block { (B.state on.old).is_block root }
    requires silent { (B.state on.old).tells → ⊥ }
    ensures way { IfOk result (λ way. IfSome way (IsWay (B.state on.new) root trail.now)) }
    ensures short { IfOk result (λ way. IfSome way (λ w. length trail.now ≤ 65)) }
    ensures looks { Looks (B.state on.old) (B.state on.new) × B.keeps on.old on.new }
    ensures cause { IfErr result (Caused ⊥ (λ b. (B.state on.old).is_block b) (Rose (B.state on.old).faults (B.state on.new).faults) ⊥) }
{
    if MOST < trail.len() {
        return Ok(None);
    }
    let start = match root_file(alloc, on, root) {
        Ok(file) => Way::at_root(alloc, file),
        Err(why) => return Err(why),
    };
    go_down(alloc, on, root, trail, start)
}

/// Goes down a trail from the root directory.
fn go_down<B: Blocks>(
    alloc: Global,
    on: &mut B,
    root: u32,
    trail: &[u32],
    start: Way,
) -> Result<Option<Way>, BlockError>
    requires silent { (B.state on.old).tells → ⊥ }
    requires short { length trail.now ≤ 65 }
    requires start { IsWay (B.state on.old) root [] start }
    ensures way { IfOk result (λ way. IfSome way (IsWay (B.state on.new) root trail.now)) }
    ensures looks { Looks (B.state on.old) (B.state on.new) × B.keeps on.old on.new }
    ensures cause { IfErr result (Caused ⊥ (λ b. (B.state on.old).is_block b) (Rose (B.state on.old).faults (B.state on.new).faults) ⊥) }
{
    let _ = root;
    let mut way = start;
    for i in 0..trail.len() {
        way = match step_down(alloc, on, way, trail[i]) {
            Ok(Some(next)) => next,
            Ok(None) => return Ok(None),
            Err(why) => return Err(why),
        };
    }
    Ok(Some(way))
}

/// One step down a way.
fn step_down<B: Blocks>(
    alloc: Global,
    on: &mut B,
    way: Way,
    number: u32,
) -> Result<Option<Way>, BlockError>
    requires silent { (B.state on.old).tells → ⊥ }
    requires holds { FileHolds (B.state on.old) way.file }
    requires high { 40 ≤ way.file.rank }
    ensures way { IfOk result (λ next. IfSome next (λ w. (root : ℕ) (trail : List ℕ) → IsWay (B.state on.old) root trail way → IsWay (B.state on.new) root (trail ++ number ∷ []) w)) }
    ensures looks { Looks (B.state on.old) (B.state on.new) × B.keeps on.old on.new }
    ensures cause { IfErr result (Caused ⊥ (λ b. (B.state on.old).is_block b) (Rose (B.state on.old).faults (B.state on.new).faults) ⊥) }
{
    match one_down(alloc, on, &way.file, number) {
        Ok(Some((leaf, next))) => match way.onto(leaf, next) {
            Ok(way) => Ok(Some(way)),
            Err(why) => Err(why),
        },
        Ok(None) => Ok(None),
        Err(why) => Err(why),
    }
}
