//! A directory's own record is made ready.
ghost use Rattle.std.specs.Prelude.{◌≡◌, ◌⊎◌, ◌+◌, ◌≤◌, ℕ, IfOk, IfErr, OnErr, ◌∷◌, [], ◌*◌};
ghost use Rattle.fo_base.specs.Cause.{Rose};
ghost use Rattle.fo_ports.specs.Causes.{Caused};
ghost use Rattle.fo_files_dir.specs.declared.dir.DirAt.{DirAt};
ghost use Rattle.fo_files_dir.specs.declared.dir.FileAt.{FileAt};
ghost use Rattle.fo_files_dir.specs.Dir.{IsDirAt, IsFileAt};
ghost use Rattle.fo_files_record.specs.Leaf.{IsEntriesAt};
ghost use Rattle.fo_files_own.specs.Own.{AltersOwn, HasReady, IsBlockOf, IsOwnAt, LeavesOwn, MayOwn, MayPutOwn, StepsTo, blocks_for, pins_for, removals_for, block_of};
ghost use Rattle.fo_ports.specs.Sources.{AddsDirty};

use crate::at::{OwnAt, ReadyOwn};
use crate::leaf::ready_below;
use crate::root::ready_root;
use fo_image::Record;
use fo_ports::{BlockError, Blocks};
use std::alloc::Global;

/// Makes the block with a directory's own record ready for this one, of the same name, and the bytes that it will have. Damaged is a root block that
/// spells none, and what `ready_record` of `fo_files_ready` finds so: the block with the entries of the directory above where it has others, a leaf
/// without a record of the name, and a leaf for it that has one or has no room. Where it is refused each record stays, in its bytes, though this one
/// may have moved to another leaf.
pub fn ready_own<B: Blocks>(
    alloc: Global,
    on: &mut B,
    at: OwnAt,
    named: &Record,
) -> Result<ReadyOwn, BlockError>
    requires silent { (B.state on.old).tells → ⊥ }
    requires at { IsOwnAt (B.state on.old) at }
    requires spelled { MayOwn at named.now }
    requires pins { pins_for at ≤ (B.state on.old).pins_left }
    requires spare { blocks_for at ≤ (B.state on.old).spare }
    requires room { removals_for at ≤ (B.state on.old).room }
    ensures ready { IfOk result (λ r. MayPutOwn (B.state on.new) r × IsBlockOf (B.state on.new) at r × HasReady (B.state on.new) at named.now r) }
    ensures steps { IfOk result (λ r. StepsTo B B.state on.old on.new at named.now.name r.at) }
    ensures stays { AltersOwn B B.state B.keeps on.old on.new at }
    ensures left { OnErr result (LeavesOwn B B.state on.old on.new at named.now.name) }
    ensures at { IsOwnAt (B.state on.new) at }
    ensures dirs { (d : DirAt) → IsDirAt (B.state on.old) d → IsDirAt (B.state on.new) d }
    ensures files { (f : FileAt) → IsFileAt (B.state on.old) f → IsFileAt (B.state on.new) f }
    ensures entries { (e : ℕ) → IsEntriesAt (B.state on.old) e → IsEntriesAt (B.state on.new) e }
    ensures spare { (B.state on.old).spare ≤ (B.state on.new).spare + blocks_for at }
    ensures pins { (B.state on.old).pins_left ≤ (B.state on.new).pins_left + pins_for at }
    ensures room { (B.state on.old).room ≤ (B.state on.new).room + removals_for at }
    ensures cause { IfErr result (Caused ⊥ (λ b. (B.state on.old).is_block b ⊎ (b ≡ 1)) (Rose (B.state on.old).faults (B.state on.new).faults) (Rose (B.state on.old).arena_faults (B.state on.new).arena_faults)) }
    ensures dirties { IfOk result (λ r. AddsDirty (2 * blocks_for at) (block_of at ∷ []) r.at (B.state on.old) (B.state on.new)) }
    ensures dirties_refused { OnErr result (AddsDirty (2 * blocks_for at) (block_of at ∷ []) (block_of at) (B.state on.old) (B.state on.new)) }
    ensures keeps { B.keeps on.old on.new }
{
    match at {
        OwnAt::Root(root) => ready_root(alloc, on, root, named),
        OwnAt::Below(below) => ready_below(alloc, on, below, named),
    }
}
