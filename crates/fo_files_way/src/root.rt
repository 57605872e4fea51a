//! A plan begins with the root block.
ghost use Rattle.std.specs.Prelude.{◌≡◌, ◌⊎◌, ◌+◌, ◌≤◌, ℕ, [], ◌∷◌, true, IfOk, IfErr};
ghost use Rattle.fo_base.specs.Cause.{Rose};
ghost use Rattle.fo_image.specs.declared.types.State.TheVariants.{Live};
ghost use Rattle.fo_image.specs.declared.types.Kind.TheVariants.{Root};
ghost use Rattle.fo_ports.specs.declared.error.BlockError.TheVariants.{Memory};
ghost use Rattle.fo_ports.specs.Causes.{Caused};
ghost use Rattle.fo_ports.specs.State.{Looks};
ghost use Rattle.fo_files_way.specs.Plan.{MayOwnAll, AreBlocks};

use crate::plan::Plan;
use fo_base::BLOCK;
use fo_files_at::ROOT_PLACE;
use fo_image::{Kind, Label, State};
use fo_ports::{BlockError, Blocks};
use std::alloc::Global;
use std::collections::VecDeque;

/// Whether a label is that of a live block of the current epoch.
fn is_current(label: Label, high: u32) -> bool
    ensures { result ≡ true → (label.state ≡ Live) × (label.epoch ≡ high) }
{
    match label.state {
        State::Live => label.epoch == high,
        _ => false,
    }
}

impl Plan {
    /// A plan of one block and no level. Refused: want of memory.
    fn of_block(alloc: Global, at: u32, tag: u32) -> Result<Plan, BlockError>
        ensures is { IfOk result (λ p. (p.at.items ≡ at ∷ []) × (p.tags.items ≡ tag ∷ []) × (p.levels.items ≡ [])) }
        ensures memory { IfErr result (λ e. e ≡ Memory) }
    {
        let mut blocks = Vec::new(alloc);
        if blocks.push(at).is_err() {
            return Err(BlockError::Memory);
        }
        let mut tags = Vec::new(alloc);
        match tags.push(tag) {
            Ok(()) => Ok(Plan {
                levels: VecDeque::new(alloc),
                at: blocks,
                tags,
            }),
            Err(_) => Err(BlockError::Memory),
        }
    }

    /// The plan of no level, below this root block. Damaged is a root block whose label is not that of the current one.
    pub fn at_root<B: Blocks>(alloc: Global, on: &mut B, root: u32) -> Result<Plan, BlockError>
        requires silent { (B.state on.old).tells → ⊥ }
        requires block { (B.state on.old).is_block root }
        requires pins { 1 ≤ (B.state on.old).pins_left }
        ensures may { IfOk result (λ p. MayOwnAll (B.state on.new) 0 p.at.items p.tags.items p.levels.items) }
        ensures blocks { IfOk result (λ p. AreBlocks (B.state on.new) p.at.items) }
        ensures is { IfOk result (λ p. (p.at.items ≡ root ∷ []) × (p.levels.items ≡ [])) }
        ensures kind { IfOk result (λ p. ((B.state on.new).label root).kind ≡ Root) }
        ensures pins { (B.state on.old).pins_left ≤ (B.state on.new).pins_left + 1 }
        ensures looks { Looks (B.state on.old) (B.state on.new) × B.keeps on.old on.new }
        ensures cause { IfErr result (Caused ⊥ (λ b. (B.state on.old).is_block b ⊎ (b ≡ 1)) (Rose (B.state on.old).faults (B.state on.new).faults) (Rose (B.state on.old).arena_faults (B.state on.new).arena_faults)) }
    {
        let mut block = [0; BLOCK];
        match on.get(root, Kind::Root, ROOT_PLACE, &mut block) {
            Ok(()) => {}
            Err(why) => return Err(why),
        }
        let label = on.label(root);
        if !is_current(label, on.high()) {
            return Err(BlockError::Damaged(root));
        }
        Plan::of_block(alloc, root, label.tag)
    }
}
