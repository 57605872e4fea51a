//! Room for a request.
ghost use Rattle.std.specs.Prelude.{◌≡◌, ◌⊎◌, ◌≤◌, ℕ, IfErr, OnOk};
ghost use Rattle.fo_ports.specs.State.{Looks, Rests};
ghost use Rattle.fo_world.specs.Answers.{Refuses, HadRoom};
ghost use Rattle.fo_files_look.specs.Told.{faults_of};
ghost use Rattle.fo_files_along.specs.Along.{HasRoom, IsBlocks};

use fo_files_look::file_error;
use fo_ports::Blocks;
use fo_world::FileError;

/// Reserves so many blocks, pins, and removals or waits; all pins end. Full is answered only where, with all settled, fewer blocks are usable.
pub fn reserve_room<B: Blocks>(
    on: &mut B,
    blocks: u32,
    pins: u32,
    removals: u32,
) -> Result<(), FileError>
    requires silent { (B.state on.old).tells → ⊥ }
    ensures room { OnOk result ((blocks ≤ (B.state on.new).spare) × (pins ≤ (B.state on.new).pins_left) × (removals ≤ (B.state on.new).room)) }
    ensures rests { Rests (B.state on.old) (B.state on.new) }
    ensures refused { IfErr result IsBlocks }
    ensures had { HadRoom (HasRoom (B.state on.old)) blocks result }
    ensures usable { (B.state on.old).usable ≤ (B.state on.new).usable }
    ensures cause { Refuses (faults_of (B.state on.old)) (faults_of (B.state on.new)) ⊥ (HasRoom (B.state on.new)) blocks result }
    ensures keeps { B.keeps on.old on.new }
{
    match on.reserve(blocks, pins, removals) {
        Ok(()) => Ok(()),
        Err(why) => Err(file_error(why)),
    }
}
