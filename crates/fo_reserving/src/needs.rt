//! What a request needs is reserved.
ghost use Rattle.std.specs.Prelude.{◌≡◌, ◌⊎◌, ◌↔◌, ◌+◌, ◌<◌, ◌≤◌, ℕ, [], true, false, length, count_by, IsTrue, OnOk, IfOk, IfErr};
ghost use Rattle.fo_base.specs.Cause.{Rose};
ghost use Rattle.fo_order.specs.Flags.{is_dirty};
ghost use Rattle.fo_labels.specs.Region.{usable_count};
ghost use Rattle.fo_ports.specs.Causes.{Caused};
ghost use Rattle.fo_ports.specs.declared.error.BlockError.TheVariants.{Memory as Wanting};
ghost use Rattle.fo_ports.specs.State.{Rests};
ghost use Rattle.fo_closing.specs.of_mind.MindParts.{parts};
ghost use Rattle.fo_closing.specs.of_mind.Parts.{CacheKeeps, IsPinned, state_of};
ghost use Rattle.fo_closing.specs.Rest.{AtRest};
ghost use Rattle.fo_reserving.specs.Steps.{AreFew, ClosesAtRest, GivesAll, IsStuck, Reserves};

use crate::closing::close_until_usable;
use crate::pins::{give_up_all, unpin_all};
use crate::rest::{come_to_rest, settle_down};
use fo_base::Memory;
use fo_disk::Disk;
use fo_order::Order;
use fo_ports::BlockError;
use fo_settling::Cache;

/// How many blocks may be to be written or settled before a request settles them first.
const MOST: usize = 4096;

/// How many blocks are closed beyond what a request needs, since all is settled for it.
const BATCH: u32 = 256;

// Whether more blocks are to be written or settled.
fn are_many(order: &Order) -> bool
    ensures { IsTrue result ↔ (4096 < count_by is_dirty order.now.flags + length order.now.written) }
{
    order.dirty_len() > MOST || order.written().len() > MOST - order.dirty_len()
}

// Settles all where much is to be written or settled.
fn settle_many<D: Disk>(cache: &mut Cache<D>) -> Result<(), BlockError>
    requires none { (b : ℕ) → IsPinned (parts cache.old.mind [] 0).held b → ⊥ }
    ensures none { OnOk result ((b : ℕ) → IsPinned (parts cache.new.mind [] 0).held b → ⊥) }
    ensures few { OnOk result (AreFew (parts cache.new.mind [] 0).turns (parts cache.new.mind [] 0).region.first) }
    ensures leaves { Reserves (parts cache.old.mind (D.state cache.old.main).holds (D.faults cache.old.main)) (parts cache.new.mind (D.state cache.new.main).holds (D.faults cache.new.main)) }
    ensures size { D.size cache.new.main ≡ D.size cache.old.main }
    ensures cause { IfErr result (Caused ⊥ (λ b. ⊥) (Rose (D.faults cache.old.main) (D.faults cache.new.main)) ⊥) }
    ensures later { D.faults cache.old.main ≤ D.faults cache.new.main }
{
    if !are_many(&cache.mind.order) {
        return Ok(());
    }
    come_to_rest(cache)
}

// Makes room, and answers whether enough blocks are usable.
fn make<D: Disk>(
    cache: &mut Cache<D>,
    blocks: u32,
    pins: u32,
    removals: u32,
) -> Result<bool, Memory>
    requires none { (b : ℕ) → IsPinned (parts cache.old.mind [] 0).held b → ⊥ }
    ensures made { IfOk result (λ b. b ≡ true → (blocks ≤ (parts cache.new.mind [] 0).spare) × (pins ≤ (parts cache.new.mind [] 0).pins) × (removals ≤ (parts cache.new.mind [] 0).room)) }
    ensures few { IfOk result (λ b. b ≡ false → (usable_count (parts cache.old.mind [] 0).one.low (parts cache.old.mind [] 0).region < blocks) × (parts cache.new.mind [] 0 ≡ parts cache.old.mind [] 0)) }
    ensures none { (b : ℕ) → IsPinned (parts cache.new.mind [] 0).held b → ⊥ }
    ensures few_stay { AreFew (parts cache.old.mind [] 0).turns (parts cache.old.mind [] 0).region.first → AreFew (parts cache.new.mind [] 0).turns (parts cache.new.mind [] 0).region.first }
    ensures leaves { Reserves (parts cache.old.mind (D.state cache.old.main).holds (D.faults cache.old.main)) (parts cache.new.mind (D.state cache.new.main).holds (D.faults cache.new.main)) }
    ensures device { cache.new.main ≡ cache.old.main }
{
    cache.make_room(blocks, pins, removals)
}

// Makes room once more, where all that could be closed was, after a settling; else too few blocks are usable.
fn make_last<D: Disk>(
    cache: &mut Cache<D>,
    blocks: u32,
    pins: u32,
    removals: u32,
) -> Result<(), BlockError>
    requires closed { ((parts cache.old.mind [] 0).removals ≡ []) × ((parts cache.old.mind [] 0).clears ≡ []) }
    ensures room { OnOk result ((blocks ≤ (parts cache.new.mind [] 0).spare) × (pins ≤ (parts cache.new.mind [] 0).pins) × (removals ≤ (parts cache.new.mind [] 0).room)) }
    ensures none { OnOk result ((b : ℕ) → IsPinned (parts cache.new.mind [] 0).held b → ⊥) }
    ensures few { OnOk result (AreFew (parts cache.new.mind [] 0).turns (parts cache.new.mind [] 0).region.first) }
    ensures leaves { Reserves (parts cache.old.mind (D.state cache.old.main).holds (D.faults cache.old.main)) (parts cache.new.mind (D.state cache.new.main).holds (D.faults cache.new.main)) }
    ensures size { D.size cache.new.main ≡ D.size cache.old.main }
    ensures cause { IfErr result (Caused (IsStuck (parts cache.new.mind (D.state cache.new.main).holds (D.faults cache.new.main)) blocks) (λ b. ⊥) (Rose (D.faults cache.old.main) (D.faults cache.new.main)) ⊥) }
    ensures later { D.faults cache.old.main ≤ D.faults cache.new.main }
{
    if let Err(e) = settle_down(cache) {
        return Err(e);
    }
    let Ok(made) = make(cache, blocks, pins, removals) else {
        return Err(BlockError::Memory);
    };
    if made {
        return Ok(());
    }
    Err(BlockError::Full)
}

// Settles all, and closes blocks until enough are usable, and some more, so that the next requests need no settling.
fn close_more<D: Disk>(cache: &mut Cache<D>, blocks: u32) -> Result<(), BlockError>
    ensures over { OnOk result ((blocks ≤ usable_count (parts cache.new.mind [] 0).one.low (parts cache.new.mind [] 0).region) ⊎ ((parts cache.new.mind [] 0).removals ≡ [])) }
    ensures rest { OnOk result (AtRest (parts cache.new.mind [] 0)) }
    ensures leaves { Reserves (parts cache.old.mind (D.state cache.old.main).holds (D.faults cache.old.main)) (parts cache.new.mind (D.state cache.new.main).holds (D.faults cache.new.main)) }
    ensures size { D.size cache.new.main ≡ D.size cache.old.main }
    ensures cause { IfErr result (Caused ⊥ (λ b. ⊥) (Rose (D.faults cache.old.main) (D.faults cache.new.main)) ⊥) }
    ensures later { D.faults cache.old.main ≤ D.faults cache.new.main }
{
    come_to_rest(cache)?;
    close_until_usable(cache, blocks.saturating_add(BATCH))
}

// Makes room where too few blocks are usable, after a settling and closing.
fn make_more<D: Disk>(
    cache: &mut Cache<D>,
    blocks: u32,
    pins: u32,
    removals: u32,
) -> Result<(), BlockError>
    ensures room { OnOk result ((blocks ≤ (parts cache.new.mind [] 0).spare) × (pins ≤ (parts cache.new.mind [] 0).pins) × (removals ≤ (parts cache.new.mind [] 0).room)) }
    ensures none { OnOk result ((b : ℕ) → IsPinned (parts cache.new.mind [] 0).held b → ⊥) }
    ensures few { OnOk result (AreFew (parts cache.new.mind [] 0).turns (parts cache.new.mind [] 0).region.first) }
    ensures leaves { Reserves (parts cache.old.mind (D.state cache.old.main).holds (D.faults cache.old.main)) (parts cache.new.mind (D.state cache.new.main).holds (D.faults cache.new.main)) }
    ensures size { D.size cache.new.main ≡ D.size cache.old.main }
    ensures cause { IfErr result (Caused (IsStuck (parts cache.new.mind (D.state cache.new.main).holds (D.faults cache.new.main)) blocks) (λ b. ⊥) (Rose (D.faults cache.old.main) (D.faults cache.new.main)) ⊥) }
    ensures later { D.faults cache.old.main ≤ D.faults cache.new.main }
{
    if let Err(e) = close_more(cache, blocks) {
        return Err(e);
    }
    let Ok(made) = make(cache, blocks, pins, removals) else {
        return Err(BlockError::Memory);
    };
    if made {
        return Ok(());
    }
    make_last(cache, blocks, pins, removals)
}

// Makes room, at once or after a settling and closing.
fn make_now<D: Disk>(
    cache: &mut Cache<D>,
    blocks: u32,
    pins: u32,
    removals: u32,
) -> Result<(), BlockError>
    ensures room { OnOk result ((blocks ≤ (parts cache.new.mind [] 0).spare) × (pins ≤ (parts cache.new.mind [] 0).pins) × (removals ≤ (parts cache.new.mind [] 0).room)) }
    ensures none { OnOk result ((b : ℕ) → IsPinned (parts cache.new.mind [] 0).held b → ⊥) }
    ensures few { OnOk result (AreFew (parts cache.new.mind [] 0).turns (parts cache.new.mind [] 0).region.first) }
    ensures leaves { Reserves (parts cache.old.mind (D.state cache.old.main).holds (D.faults cache.old.main)) (parts cache.new.mind (D.state cache.new.main).holds (D.faults cache.new.main)) }
    ensures size { D.size cache.new.main ≡ D.size cache.old.main }
    ensures cause { IfErr result (Caused (IsStuck (parts cache.new.mind (D.state cache.new.main).holds (D.faults cache.new.main)) blocks) (λ b. ⊥) (Rose (D.faults cache.old.main) (D.faults cache.new.main)) ⊥) }
    ensures later { D.faults cache.old.main ≤ D.faults cache.new.main }
{
    unpin_all(cache);
    if let Err(e) = settle_many(cache) {
        return Err(e);
    }
    let Ok(made) = make(cache, blocks, pins, removals) else {
        return Err(BlockError::Memory);
    };
    if made {
        return Ok(());
    }
    make_more(cache, blocks, pins, removals)
}

// Gives all up, settles all, and makes room then.
fn make_rested<D: Disk>(
    cache: &mut Cache<D>,
    blocks: u32,
    pins: u32,
    removals: u32,
) -> Result<(), BlockError>
    ensures room { OnOk result ((blocks ≤ (parts cache.new.mind [] 0).spare) × (pins ≤ (parts cache.new.mind [] 0).pins) × (removals ≤ (parts cache.new.mind [] 0).room)) }
    ensures none { OnOk result ((b : ℕ) → IsPinned (parts cache.new.mind [] 0).held b → ⊥) }
    ensures few { OnOk result (AreFew (parts cache.new.mind [] 0).turns (parts cache.new.mind [] 0).region.first) }
    ensures leaves { Reserves (parts cache.old.mind (D.state cache.old.main).holds (D.faults cache.old.main)) (parts cache.new.mind (D.state cache.new.main).holds (D.faults cache.new.main)) }
    ensures size { D.size cache.new.main ≡ D.size cache.old.main }
    ensures cause { IfErr result (Caused (IsStuck (parts cache.new.mind (D.state cache.new.main).holds (D.faults cache.new.main)) blocks) (λ b. ⊥) (Rose (D.faults cache.old.main) (D.faults cache.new.main)) ⊥) }
    ensures later { D.faults cache.old.main ≤ D.faults cache.new.main }
{
    give_up_all(cache);
    if let Err(e) = come_to_rest(cache) {
        return Err(e);
    }
    make_now(cache, blocks, pins, removals)
}

// Makes room once more, where memory was wanting: first all is given up that may be. Where memory is wanting still, so it is then.
fn make_again<D: Disk>(
    cache: &mut Cache<D>,
    blocks: u32,
    pins: u32,
    removals: u32,
) -> Result<(), BlockError>
    ensures room { OnOk result ((blocks ≤ (parts cache.new.mind [] 0).spare) × (pins ≤ (parts cache.new.mind [] 0).pins) × (removals ≤ (parts cache.new.mind [] 0).room)) }
    ensures none { OnOk result ((b : ℕ) → IsPinned (parts cache.new.mind [] 0).held b → ⊥) }
    ensures few { OnOk result (AreFew (parts cache.new.mind [] 0).turns (parts cache.new.mind [] 0).region.first) }
    ensures wanting { IfErr result (λ e. e ≡ Wanting → GivesAll (parts cache.new.mind [] 0)) }
    ensures leaves { Reserves (parts cache.old.mind (D.state cache.old.main).holds (D.faults cache.old.main)) (parts cache.new.mind (D.state cache.new.main).holds (D.faults cache.new.main)) }
    ensures size { D.size cache.new.main ≡ D.size cache.old.main }
    ensures cause { IfErr result (Caused (IsStuck (parts cache.new.mind (D.state cache.new.main).holds (D.faults cache.new.main)) blocks) (λ b. ⊥) (Rose (D.faults cache.old.main) (D.faults cache.new.main)) ⊥) }
    ensures later { D.faults cache.old.main ≤ D.faults cache.new.main }
{
    match make_rested(cache, blocks, pins, removals) {
        Ok(()) => Ok(()),
        Err(BlockError::Memory) => {
            give_up_all(cache);
            Err(BlockError::Memory)
        }
        Err(e) => Err(e),
    }
}

// Makes room, and once more where memory was wanting.
fn make_whole<D: Disk>(
    cache: &mut Cache<D>,
    blocks: u32,
    pins: u32,
    removals: u32,
) -> Result<(), BlockError>
    ensures room { OnOk result ((blocks ≤ (parts cache.new.mind [] 0).spare) × (pins ≤ (parts cache.new.mind [] 0).pins) × (removals ≤ (parts cache.new.mind [] 0).room)) }
    ensures none { OnOk result ((b : ℕ) → IsPinned (parts cache.new.mind [] 0).held b → ⊥) }
    ensures few { OnOk result (AreFew (parts cache.new.mind [] 0).turns (parts cache.new.mind [] 0).region.first) }
    ensures wanting { IfErr result (λ e. e ≡ Wanting → GivesAll (parts cache.new.mind [] 0)) }
    ensures leaves { Reserves (parts cache.old.mind (D.state cache.old.main).holds (D.faults cache.old.main)) (parts cache.new.mind (D.state cache.new.main).holds (D.faults cache.new.main)) }
    ensures size { D.size cache.new.main ≡ D.size cache.old.main }
    ensures cause { IfErr result (Caused (IsStuck (parts cache.new.mind (D.state cache.new.main).holds (D.faults cache.new.main)) blocks) (λ b. ⊥) (Rose (D.faults cache.old.main) (D.faults cache.new.main)) ⊥) }
    ensures later { D.faults cache.old.main ≤ D.faults cache.new.main }
{
    match make_now(cache, blocks, pins, removals) {
        Ok(()) => Ok(()),
        Err(BlockError::Memory) => make_again(cache, blocks, pins, removals),
        Err(e) => Err(e),
    }
}

/// Reserves so many blocks, pins, and removals and waits for one request. All pins end. Where too few blocks are usable, all is settled,
/// and blocks that left the tree are closed. All is settled, too, where more than 4,096 blocks are to be written or settled. Where memory is
/// wanting, all that may be given up is, all is settled, and it is tried once more.
pub fn reserve<D: Disk>(
    cache: &mut Cache<D>,
    blocks: u32,
    pins: u32,
    removals: u32,
) -> Result<(), BlockError>
    ensures room { OnOk result ((blocks ≤ (state_of (parts cache.new.mind (D.state cache.new.main).holds (D.faults cache.new.main))).spare) × (pins ≤ (state_of (parts cache.new.mind (D.state cache.new.main).holds (D.faults cache.new.main))).pins_left) × (removals ≤ (state_of (parts cache.new.mind (D.state cache.new.main).holds (D.faults cache.new.main))).room)) }
    ensures none { OnOk result ((b : ℕ) → (state_of (parts cache.new.mind (D.state cache.new.main).holds (D.faults cache.new.main))).pinned b → ⊥) }
    ensures few { OnOk result (AreFew (parts cache.new.mind [] 0).turns (parts cache.new.mind [] 0).region.first) }
    ensures closes { ClosesAtRest (parts cache.old.mind (D.state cache.old.main).holds (D.faults cache.old.main)) (parts cache.new.mind (D.state cache.new.main).holds (D.faults cache.new.main)) }
    ensures wanting { IfErr result (λ e. e ≡ Wanting → GivesAll (parts cache.new.mind [] 0)) }
    ensures rests { Rests (state_of (parts cache.old.mind (D.state cache.old.main).holds (D.faults cache.old.main))) (state_of (parts cache.new.mind (D.state cache.new.main).holds (D.faults cache.new.main))) }
    ensures keeps { CacheKeeps (parts cache.old.mind (D.state cache.old.main).holds (D.faults cache.old.main)) (parts cache.new.mind (D.state cache.new.main).holds (D.faults cache.new.main)) }
    ensures size { D.size cache.new.main ≡ D.size cache.old.main }
    ensures cause { IfErr result (Caused (IsStuck (parts cache.new.mind (D.state cache.new.main).holds (D.faults cache.new.main)) blocks) (λ b. ⊥) (Rose (D.faults cache.old.main) (D.faults cache.new.main)) ⊥) }
    ensures later { D.faults cache.old.main ≤ D.faults cache.new.main }
{
    make_whole(cache, blocks, pins, removals)
}
