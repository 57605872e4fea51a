//! A whole way is planned.
ghost use Rattle.std.specs.Prelude.{◌≡◌, ◌⊎◌, ◌+◌, ◌*◌, ◌≤◌, ◌++◌, ℕ, List, [], ◌∷◌, length, slice_index, IfOk, IfErr};
ghost use Rattle.fo_base.specs.Cause.{Rose};
ghost use Rattle.fo_ports.specs.Causes.{Caused};
ghost use Rattle.fo_ports.specs.State.{Looks};
ghost use Rattle.fo_files_way.specs.of_files_at.declared.at.Step.{Step};
ghost use Rattle.fo_files_way.specs.of_files_at.Way.{IsWay, IsStep, first_of};
ghost use Rattle.fo_files_plan.specs.Along.{IsAlong};

use fo_files_way::files_at::{File, Step, Way};
use fo_files_way::{Plan, add_entries};
use fo_ports::{BlockError, Blocks};
use std::alloc::Global;

/// The file to which steps to a file go first.
fn first_file<'a>(steps: &'a [Step], file: &'a File) -> &'a File
    ensures { result.now ≡ first_of steps.now file.now }
{
    match steps {
        [step, ..] => &step.dir,
        [] => file,
    }
}

/// Plans the way to a file: from its root block, and for each directory on the way the leaf of its entries that has the pair of the next
/// file. Damaged is a block that has an entry, where this is another than is wanted, waits to be cleared, or is of a source that the plan
/// has; and a root block that isn't the current one.
pub fn plan_along<B: Blocks>(alloc: Global, on: &mut B, way: &Way) -> Result<Plan, BlockError>
    requires silent { (B.state on.old).tells → ⊥ }
    requires way { (root : ℕ) × ((trail : List ℕ) × IsWay (B.state on.old) root trail way.now) }
    requires pins { 20 * length way.now.steps.items + 1 ≤ (B.state on.old).pins_left }
    ensures along { IfOk result (IsAlong (B.state on.new) way.now.steps.items way.now.file) }
    ensures trail { IfOk result (λ p. (root : ℕ) (trail : List ℕ) → IsWay (B.state on.old) root trail way.now → (length p.at.items ≡ length trail + 1) × (slice_index p.at.items 0 ≡ root)) }
    ensures pins { (B.state on.old).pins_left ≤ (B.state on.new).pins_left + (20 * length way.now.steps.items + 1) }
    ensures looks { Looks (B.state on.old) (B.state on.new) × B.keeps on.old on.new }
    ensures cause { IfErr result (Caused ⊥ (λ b. (B.state on.old).is_block b ⊎ (b ≡ 1)) (Rose (B.state on.old).faults (B.state on.new).faults) (Rose (B.state on.old).arena_faults (B.state on.new).arena_faults)) }
{
    let root = first_file(way.steps.as_slice(), &way.file).leaf;
    match Plan::at_root(alloc, on, root) {
        Ok(start) => add_steps(alloc, on, start, way),
        Err(why) => Err(why),
    }
}

/// Puts a leaf into a plan for each step of a way.
fn add_steps<B: Blocks>(
    alloc: Global,
    on: &mut B,
    start: Plan,
    way: &Way,
) -> Result<Plan, BlockError>
    requires silent { (B.state on.old).tells → ⊥ }
    requires way { (root : ℕ) × ((trail : List ℕ) × IsWay (B.state on.old) root trail way.now) }
    requires start { IsAlong (B.state on.old) [] (first_of way.now.steps.items way.now.file) start }
    requires pins { 20 * length way.now.steps.items ≤ (B.state on.old).pins_left }
    ensures along { IfOk result (IsAlong (B.state on.new) way.now.steps.items way.now.file) }
    ensures pins { (B.state on.old).pins_left ≤ (B.state on.new).pins_left + 20 * length way.now.steps.items }
    ensures looks { Looks (B.state on.old) (B.state on.new) × B.keeps on.old on.new }
    ensures cause { IfErr result (Caused ⊥ (λ b. (B.state on.old).is_block b ⊎ (b ≡ 1)) (Rose (B.state on.old).faults (B.state on.new).faults) (Rose (B.state on.old).arena_faults (B.state on.new).arena_faults)) }
{
    let mut plan = start;
    for k in 0..way.steps.len() {
        let next = first_file(&way.steps.as_slice()[k + 1..], &way.file);
        plan = match add_step(alloc, on, plan, &way.steps[k], next) {
            Ok(longer) => longer,
            Err(why) => return Err(why),
        };
    }
    Ok(plan)
}

/// Puts the leaf of a directory's entries that has the pair of the next file behind the others.
fn add_step<B: Blocks>(
    alloc: Global,
    on: &mut B,
    plan: Plan,
    step: &Step,
    next: &File,
) -> Result<Plan, BlockError>
    requires silent { (B.state on.old).tells → ⊥ }
    requires plan { (done : List Step) × IsAlong (B.state on.old) done step.now.dir plan }
    requires step { (rank : ℕ) × IsStep (B.state on.old) rank step.now }
    requires pins { 20 ≤ (B.state on.old).pins_left }
    ensures along { IfOk result (λ p. (done : List Step) → IsAlong (B.state on.old) done step.now.dir plan → IsAlong (B.state on.new) (done ++ step.now ∷ []) next.now p) }
    ensures pins { (B.state on.old).pins_left ≤ (B.state on.new).pins_left + 20 }
    ensures looks { Looks (B.state on.old) (B.state on.new) × B.keeps on.old on.new }
    ensures cause { IfErr result (Caused ⊥ (λ b. (B.state on.old).is_block b ⊎ (b ≡ 1)) (Rose (B.state on.old).faults (B.state on.new).faults) (Rose (B.state on.old).arena_faults (B.state on.new).arena_faults)) }
{
    add_entries(alloc, on, plan, &step.dir, next.named.slot)
}
