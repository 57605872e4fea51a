//! A byte of a block is changed over any blocks, whether their device tells what it holds or not.
ghost use Rattle.std.specs.Prelude.{◌≡◌, ◌≢◌, ◌%◌, ◌<◌, ℕ, OnOk, IfErr, IfOk, true};
ghost use Rattle.fo_base.specs.Cause.{Rose};
ghost use Rattle.fo_ports.specs.Causes.{Caused};
ghost use Rattle.fo_ports.specs.State.{IsUnlinked};
ghost use Rattle.test_blocks.specs.Change.{StandsOnce, StandsSo, IsHad, IsApartFromAll};

use fo_image::Kind;
use fo_ports::{BlockError, Blocks};

/// Pins a block of data that holds no records.
fn pin<B: Blocks>(blocks: &mut B, at: u32, rank: u32) -> Result<(), BlockError>
    requires block { (B.state blocks.old).is_block at }
    requires none { (B.state blocks.old).tells → IsApartFromAll (B.state blocks.old) }
    requires stands { StandsOnce (B.state blocks.old) at rank }
    ensures had { OnOk result (IsHad (B.state blocks.new) at) }
    ensures none { (B.state blocks.new).tells → IsApartFromAll (B.state blocks.new) }
    ensures stands { OnOk result (StandsSo (B.state blocks.new) at rank) }
    ensures cause { IfErr result (Caused ⊥ (λ b. (B.state blocks.old).tells → ⊥) (Rose (B.state blocks.old).faults (B.state blocks.new).faults) ⊥) }
    ensures keeps { B.keeps blocks.old blocks.new }
{
    if let Err(e) = blocks.reserve(0, 1, 0) {
        return Err(e);
    }
    let mut block = [0; 8192];
    if let Err(e) = blocks.get(at, Kind::Data(0), rank, &mut block) {
        return Err(e);
    }
    Ok(())
}

/// Puts a byte into a pinned block, and settles.
fn put<B: Blocks>(blocks: &mut B, at: u32, rank: u32, from: u32, byte: u8) -> Result<(), BlockError>
    requires had { IsHad (B.state blocks.old) at }
    requires current { ((B.state blocks.old).label at).epoch ≡ (B.state blocks.old).high }
    requires none { (B.state blocks.old).tells → IsApartFromAll (B.state blocks.old) }
    requires stands { StandsSo (B.state blocks.old) at rank }
    requires plain { rank % 32 ≢ 16 }
    requires within { from < 8192 }
    ensures clean { OnOk result ((b : ℕ) → (B.state blocks.new).dirty b → (B.state blocks.new).newborn b × ((B.state blocks.new).tells → IsUnlinked (B.state blocks.new) b)) }
    ensures cause { IfErr result (Caused ⊥ (λ b. ⊥) (Rose (B.state blocks.old).faults (B.state blocks.new).faults) ⊥) }
    ensures keeps { B.keeps blocks.old blocks.new }
{
    blocks.put_bytes(at, from, &[byte]);
    blocks.settle()?;
    Ok(())
}

/// Puts a byte into a block of data of the current epoch that holds no records, and settles; or answers that it is of an older one,
/// and changes nothing.
pub fn put_byte<B: Blocks>(
    blocks: &mut B,
    at: u32,
    rank: u32,
    from: u32,
    byte: u8,
) -> Result<bool, BlockError>
    requires block { (B.state blocks.old).is_block at }
    requires none { (B.state blocks.old).tells → IsApartFromAll (B.state blocks.old) }
    requires stands { StandsOnce (B.state blocks.old) at rank }
    requires plain { rank % 32 ≢ 16 }
    requires within { from < 8192 }
    ensures clean { IfOk result (λ done. done ≡ true → (b : ℕ) → (B.state blocks.new).dirty b → (B.state blocks.new).newborn b × ((B.state blocks.new).tells → IsUnlinked (B.state blocks.new) b)) }
    ensures cause { IfErr result (Caused ⊥ (λ b. (B.state blocks.old).tells → ⊥) (Rose (B.state blocks.old).faults (B.state blocks.new).faults) ⊥) }
    ensures keeps { B.keeps blocks.old blocks.new }
{
    if let Err(e) = pin(blocks, at, rank) {
        return Err(e);
    }
    if blocks.label(at).epoch != blocks.high() {
        return Ok(false);
    }
    if let Err(e) = put(blocks, at, rank, from, byte) {
        return Err(e);
    }
    Ok(true)
}
