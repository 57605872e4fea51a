//! What a write needs is reserved.
ghost use Rattle.std.specs.Prelude.{◌≡◌, ◌⊎◌, ◌+◌, ◌-◌, ◌*◌, ◌/◌, ◌^◌, ◌<◌, ◌≤◌, ℕ, IfSome, IfErr, OnOk, []};
ghost use Rattle.fo_ports.specs.State.{Looks, Rests};
ghost use Rattle.fo_world.specs.Answers.{Refuses};
ghost use Rattle.fo_world.specs.Step.{need};
ghost use Rattle.fo_files_into.specs.of_files_look.Told.{faults_of};
ghost use Rattle.fo_files_into.specs.of_files_along.Along.{HasRoom, IsBlocks};
ghost use Rattle.fo_ports.specs.Sources.{DirtiesIn};

use fo_files_into::files_along::reserve_room;
use fo_ports::Blocks;
use fo_world::FileError;

/// Addresses are below this.
const MOST: u64 = 1 << 32;

/// How many blocks and pins a write needs.
#[derive(Clone, Copy, Debug)]
struct Sizes {
    blocks: u32,
    pins: u32,
}

/// What a write of `n` bytes needs, to a file below so many directories; None where that is more than a device has.
fn sizes_for(steps: usize, n: u64) -> Option<Sizes>
    requires some { (0 < steps) × (steps ≤ 65) }
    requires within { n ≤ 2 ^ 40 }
    ensures blocks { IfSome result (λ s. s.blocks ≡ need (steps - 1) n) }
    ensures pins { IfSome result (λ s. s.pins ≡ 20 * steps + n / 8192 + n / 2 ^ 21 + 91) }
{
    let leaves = n / 8192 + n / (1 << 21);
    // the way 5 blocks a directory, the record's leaf 11, the data the leaves and 19: 5 * steps + 30, at most the need
    let blocks = 6 * (steps as u64 - 1) + 40 + leaves;
    // the plan 20 pins a directory and 1, the record's leaf 60, the data the leaves and 30
    let pins = 20 * steps as u64 + leaves + 91;
    if MOST <= blocks || MOST <= pins {
        return None;
    }
    Some(Sizes {
        blocks: blocks as u32,
        pins: pins as u32,
    })
}

/// How many removals and waits a write may take: 1,636 to trim the records and one to move one, and 1,637 for the data.
const REMOVALS: u32 = 1637 + 1637;

/// Reserves what a write of `n` bytes needs, to a file below so many directories. Want of memory is answered where that is more than a device has.
pub(crate) fn reserve_for<B: Blocks>(on: &mut B, steps: usize, n: u64) -> Result<(), FileError>
    requires silent { (B.state on.old).tells → ⊥ }
    requires some { (0 < steps) × (steps ≤ 65) }
    requires within { n ≤ 2 ^ 40 }
    ensures room { OnOk result ((need (steps - 1) n ≤ (B.state on.new).spare) × (20 * steps + n / 8192 + n / 2 ^ 21 + 91 ≤ (B.state on.new).pins_left) × (3274 ≤ (B.state on.new).room)) }
    ensures granted { OnOk result (Rests (B.state on.old) (B.state on.new)) }
    ensures rests { Looks (B.state on.old) (B.state on.new) ⊎ Rests (B.state on.old) (B.state on.new) }
    ensures refused { IfErr result IsBlocks }
    ensures usable { (B.state on.old).usable ≤ (B.state on.new).usable }
    ensures cause { Refuses (faults_of (B.state on.old)) (faults_of (B.state on.new)) ⊥ (HasRoom (B.state on.new)) (need (steps - 1) n) result }
    ensures dirties { DirtiesIn [] (B.state on.old) (B.state on.new) }
    ensures keeps { B.keeps on.old on.new }
{
    let Some(sizes) = sizes_for(steps, n) else {
        return Err(FileError::Memory);
    };
    match reserve_room(on, sizes.blocks, sizes.pins, REMOVALS) {
        Ok(()) => Ok(()),
        Err(why) => Err(why),
    }
}
