//! A new top over a source.
ghost use Rattle.std.specs.Prelude.{◌≡◌, ◌-◌, ◌<◌, ◌≤◌, ℕ, length, IfOk};
ghost use Rattle.test_clients.specs.Found.{HasSource, short};

use fo_crash::{Place, Slot};
use fo_image::{Entry, Kind, Pointer};
use fo_ports::{BlockError, Blocks};
use fo_ports_clients::raise_top;
use std::alloc::Global;
use std::test::Fail;
use test_blocks::CarelessBlocks;

/// An entry of a source of one leaf, which hangs from it.
fn short(leaf: u32) -> Entry
    ensures { result ≡ short leaf }
{
    Entry {
        generation: 3,
        active: true,
        dir: false,
        depth: 0,
        tag: 40,
        size: 100,
        top: Pointer::Local(leaf),
    }
}

/// Over blocks that tell nothing entry 0 of a new leaf of entries leads to a new leaf of data.
fn hung<B: Blocks>(on: &mut B) -> (u32, u32)
    requires spare { 3 ≤ (B.state on.old).spare }
    requires untold { (b : B) → (B.state b).tells → ⊥ }
    ensures source { HasSource (B.state on.new) result.0 result.1 }
    ensures spare { 0 < (B.state on.new).spare }
{
    let at = on.new_block(Kind::Dir(0), 32, 2088);
    let leaf = on.new_block(Kind::Data(0), 40, 2080);
    on.put_slot(at, 0, Slot::Entry(short(leaf)));
    (at, leaf)
}

/// Raises a new top over the source; the new top, its entry, and where the new top leads.
fn topped<B: Blocks>(on: &mut B, at: u32, leaf: u32) -> (u32, Slot, Slot)
    requires source { HasSource (B.state on.old) at leaf }
    requires spare { 0 < (B.state on.old).spare }
    requires untold { (b : B) → (B.state b).tells → ⊥ }
{
    let place = Place {
        kind: Kind::Dir(0),
        tag: 32,
        index: 0,
        rank: 2088,
    };
    let top = raise_top(on, at, place, 0, leaf, 10000);
    (top, on.slot(at, 0), on.slot(top, 0))
}

/// Blocks that tell nothing, with room for three blocks.
fn careless(alloc: Global) -> Result<CarelessBlocks, BlockError>
    ensures { IfOk result (λ on. 3 ≤ on.count - length on.blocks.items) }
{
    let mut on = CarelessBlocks::new(alloc, 6)?;
    on.reserve(3, 0, 0)?;
    Ok(on)
}

/// A source of one leaf that is to have 10000 bytes has one level more: the entry leads to the new top, and that to the leaf.
#[test]
fn raised(rt: HostRuntime) -> Result<(), Fail> {
    let mut on = careless(rt.alloc())?;
    let (at, leaf) = hung(&mut on);
    let (top, entry, down) = topped(&mut on, at, leaf);
    let mut longer = short(top);
    longer.depth = 1;
    longer.size = 10000;
    assert_eq!(rt; entry, Slot::Entry(longer));
    assert_eq!(rt; down, Slot::Pointer(Pointer::Local(leaf)));
    Ok(())
}
