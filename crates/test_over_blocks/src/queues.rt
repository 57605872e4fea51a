//! What is queued, and what is to be closed.
ghost use Rattle.std.specs.Prelude.{◌≡◌, ◌+◌, ◌-◌, ◌<◌, ◌≤◌, ℕ, length, IfOk};
ghost use Rattle.fo_ports_plain.specs.Meaning.{state_of};
ghost use Rattle.fo_ports_plain.specs.Parts.{parts};
ghost use Rattle.test_blocks.specs.SilentParts.{parts as silent};
ghost use Rattle.test_over_blocks.specs.Queues.{HasBelow, HasOldRoot};

use fo_crash::Slot;
use fo_image::{Kind, Pointer};
use fo_ports::{BlockError, Blocks};
use fo_ports_plain::PlainBlocks;
use std::alloc::Global;
use std::test::Fail;
use test_blocks::CarelessBlocks;

/// Over blocks that tell nothing a new block of pointers leads to a new leaf.
fn hung<B: Blocks>(on: &mut B) -> u32
    requires spare { 2 ≤ (B.state on.old).spare }
    requires untold { (b : B) → (B.state b).tells → ⊥ }
    ensures below { HasBelow (B.state on.new) result }
    ensures room { (B.state on.new).room ≡ (B.state on.old).room }
{
    let at = on.new_block(Kind::Data(1), 9, 33);
    let below = on.new_block(Kind::Data(0), 9, 32);
    on.put_slot(at, 0, Slot::Pointer(Pointer::Local(below)));
    at
}

/// A slot that led to a block leads to none: a removal is queued.
fn put_out<B: Blocks>(on: &mut B, at: u32)
    requires below { HasBelow (B.state on.old) at }
    requires room { 0 < (B.state on.old).room }
    requires untold { (b : B) → (B.state b).tells → ⊥ }
    ensures queued { 0 < (B.state on.new).queued }
    ensures keeps { B.keeps on.old on.new }
{
    on.put_slot(at, 0, Slot::Pointer(Pointer::Nil));
}

/// A slot that led to a block is cleared at once: a removal is queued.
fn clear_out<B: Blocks>(on: &mut B, at: u32)
    requires below { HasBelow (B.state on.old) at }
    requires room { 0 < (B.state on.old).room }
    requires untold { (b : B) → (B.state b).tells → ⊥ }
    ensures queued { 0 < (B.state on.new).queued }
    ensures keeps { B.keeps on.old on.new }
{
    on.remove_slot(at, 0, None);
}

/// Blocks that tell nothing, with room for two blocks and a removal.
fn careless(alloc: Global) -> Result<CarelessBlocks, BlockError>
    ensures { IfOk result (λ on. (2 ≤ (silent on).count - length (silent on).blocks) × (0 < (silent on).room)) }
{
    let mut on = CarelessBlocks::new(alloc, 5)?;
    on.reserve(2, 0, 1)?;
    Ok(on)
}

/// Where a removal is queued no lack of blocks is said to be full.
#[test]
fn put(rt: HostRuntime) -> Result<(), Fail> {
    let mut on = careless(rt.alloc())?;
    let at = hung(&mut on);
    put_out(&mut on, at);
    assert_eq!(rt; on.reserve(9, 0, 0), Err(BlockError::Memory));
    Ok(())
}

/// So it is after a removal.
#[test]
fn removed(rt: HostRuntime) -> Result<(), Fail> {
    let mut on = careless(rt.alloc())?;
    let at = hung(&mut on);
    clear_out(&mut on, at);
    assert_eq!(rt; on.reserve(9, 0, 0), Err(BlockError::Memory));
    Ok(())
}

/// A device in memory whose root block of address 2 is of the epoch before, and is kept no more.
fn begun(alloc: Global) -> Result<PlainBlocks, BlockError>
    ensures { IfOk result (λ on. HasOldRoot (state_of (parts on)) 2) }
{
    let mut on = PlainBlocks::new(alloc, 1)?;
    on.reserve(1, 0, 1)?;
    on.begin_epoch();
    on.forget_root(2);
    Ok(on)
}

/// A root block is retired: it is to be closed, and a removal is queued.
fn retired<B: Blocks>(on: &mut B, at: u32)
    requires old { HasOldRoot (B.state on.old) at }
    ensures covered { (B.state on.old).tells → (B.state on.new).covered at }
    ensures queued { 0 < (B.state on.new).queued }
    ensures none { (y x : ℕ) → (B.state on.new).instead y x → ⊥ }
    ensures keeps { B.keeps on.old on.new }
{
    let high = on.high();
    on.retire(at, high, 1);
}

/// In memory, too, no lack of blocks is said to be full once a root block is retired.
#[test]
fn retires(rt: HostRuntime) -> Result<(), Fail> {
    let mut on = begun(rt.alloc())?;
    retired(&mut on, 2);
    assert_eq!(rt; on.reserve(9, 0, 0), Err(BlockError::Memory));
    Ok(())
}
