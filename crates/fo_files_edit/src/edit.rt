//! A file that was found is changed, but for its name.
ghost use Rattle.std.specs.Prelude.{◌≡◌, ◌⊎◌, ◌+◌, ◌*◌, ◌^◌, ◌<◌, ◌≤◌, ℕ, length, IfSome, IfErr, OnOk, OnErr};
ghost use Rattle.fo_base.specs.Cause.{Rose};
ghost use Rattle.fo_ports.specs.Causes.{Caused};
ghost use Rattle.fo_files_into.specs.of_files_at.Way.{IsWay};
ghost use Rattle.fo_files_edit.specs.Edit.{EditsFile, IsLeft};
ghost use Rattle.fo_ports.specs.Sources.{Dirties};
ghost use Rattle.fo_ports.specs.State.{none};

use crate::found::Found;
use fo_files_into::change_into;
use fo_files_into::files_along::own_along;
use fo_ports::{BlockError, Blocks};
use std::alloc::Global;

/// Owns the way to a file below the root directory that was found, gives the file the length that is given, where one is, and puts its new record in
/// the place of the one that it has.
pub(crate) fn edit_along<B: Blocks>(
    alloc: Global,
    on: &mut B,
    root: u32,
    trail: &[u32],
    found: &Found,
    given: Option<u64>,
) -> Result<(), BlockError>
    requires silent { (B.state on.old).tells → ⊥ }
    requires way { IsWay (B.state on.old) root trail.now found.now.way }
    requires some { 0 < length trail.now }
    requires within { IfSome given (λ n. n ≤ 2 ^ 40) }
    requires blocks { 5 * length trail.now + 22 ≤ (B.state on.old).spare }
    requires pins { 20 * length trail.now + 76 ≤ (B.state on.old).pins_left }
    requires room { 4910 ≤ (B.state on.old).room }
    ensures edits { OnOk result (EditsFile B B.state on.old on.new root trail.now found.now.way found.now.name given) }
    ensures left { OnErr result (IsLeft B B.state on.old on.new root trail.now found.now.way found.now.name given) }
    ensures taken { (B.state on.old).usable + (B.state on.new).spare ≤ (B.state on.new).usable + (B.state on.old).spare }
    ensures spare { (B.state on.old).spare ≤ (B.state on.new).spare + (5 * length trail.now + 22) }
    ensures cause { IfErr result (Caused ⊥ (λ b. (B.state on.old).is_block b ⊎ (b ≡ 1)) (Rose (B.state on.old).faults (B.state on.new).faults) (Rose (B.state on.old).arena_faults (B.state on.new).arena_faults)) }
    ensures dirties { Dirties (10 * length trail.now + 45) none (B.state on.old) (B.state on.new) }
    ensures keeps { B.keeps on.old on.new }
{
    let _ = root;
    let _ = trail;
    let stand = match own_along(alloc, on, &found.way) {
        Ok(stand) => stand,
        Err(why) => return Err(why),
    };
    let steps = &found.way.steps;
    let leaf = steps[steps.len() - 1].leaf;
    let named = &found.way.file.named;
    let name = found.name.as_slice();
    match change_into(alloc, on, stand, leaf, found.spare, name, named, given) {
        Ok(()) => Ok(()),
        Err(why) => Err(why),
    }
}
