//! Bytes of a tree of an older epoch.
ghost use Rattle.std.specs.Prelude.{◌≡◌, ◌+◌, ◌-◌, ◌^◌, ◌<◌, ◌≤◌, ℕ, length};
ghost use Rattle.test_blocks.specs.Silent.{state_of};
ghost use Rattle.test_blocks.specs.SilentParts.{parts};
ghost use Rattle.test_clients.specs.Found.{HasRoot, HasTree, two_leaves};

use fo_crash::Slot;
use fo_image::{Entry, Kind, Pointer};
use fo_ports::{BlockError, Blocks};
use fo_ports_clients::write_byte;
use std::alloc::Global;
use std::test::Fail;
use test_blocks::CarelessBlocks;

/// An entry of a source of two leaves, below this top.
fn two_leaves(top: u32) -> Entry
    ensures { result ≡ two_leaves top }
{
    Entry {
        generation: 1,
        active: true,
        dir: false,
        depth: 1,
        tag: 40,
        size: 16384,
        top: Pointer::Local(top),
    }
}

/// Over blocks that tell nothing a source of two leaves hangs from the root block, of which the second is there: its top, and that leaf.
fn tree<B: Blocks>(on: &mut B) -> (u32, u32)
    requires spare { 2 ≤ (B.state on.old).spare }
    requires root { HasRoot (B.state on.old) }
    requires untold { (b : B) → (B.state b).tells → ⊥ }
    ensures tree { HasTree (B.state on.new) result.0 result.1 (B.state on.new).high }
    ensures spare { (B.state on.new).spare + 2 ≡ (B.state on.old).spare }
    ensures keeps { B.keeps on.old on.new }
{
    let root = on.root();
    let top = on.new_block(Kind::Data(1), 40, 2113);
    let leaf = on.new_block(Kind::Data(0), 40, 2112);
    on.put_slot(root, 0, Slot::Entry(two_leaves(top)));
    on.put_slot(top, 1, Slot::Pointer(Pointer::Local(leaf)));
    (top, leaf)
}

/// An epoch begins: the tree below the root block is older now.
fn aged(on: &mut CarelessBlocks, top: u32, leaf: u32)
    requires tree { HasTree (state_of (parts on.old)) top leaf on.old.high }
    requires epoch { on.old.high < 2 ^ 31 - 1 }
    ensures tree { HasTree (state_of (parts on.new)) top leaf on.old.high }
    ensures high { on.new.high ≡ on.old.high + 1 }
    ensures spare { on.new.count - length on.new.blocks.items ≡ on.old.count - length on.old.blocks.items }
{
    on.begin_epoch();
}

/// Byte 100 of the second leaf is written, which is of this older epoch; the new leaf.
fn written<B: Blocks>(on: &mut B, top: u32, leaf: u32, epoch: u32) -> u32
    requires spare { 2 ≤ (B.state on.old).spare }
    requires tree { HasTree (B.state on.old) top leaf epoch }
    requires older { epoch < (B.state on.old).high }
    requires untold { (b : B) → (B.state b).tells → ⊥ }
    ensures block { (B.state on.new).is_block result }
    ensures still { (B.state on.new).is_block leaf }
{
    write_byte(on, top, 1, leaf, 100, 7)
}

/// Byte 100 of two leaves of data.
fn bytes_of<B: Blocks>(on: &mut B, first: u32, second: u32) -> Result<(u8, u8), BlockError>
    requires first { (B.state on.old).is_block first }
    requires second { (B.state on.old).is_block second }
    requires untold { (b : B) → (B.state b).tells → ⊥ }
{
    let mut block = [0; 8192];
    on.get(first, Kind::Data(0), 2112, &mut block)?;
    let byte = block[100];
    on.get(second, Kind::Data(0), 2112, &mut block)?;
    Ok((byte, block[100]))
}

/// A byte is written into a leaf of an older tree: that byte of the new leaf, and of the old one.
fn rewritten(alloc: Global) -> Result<(u8, u8), BlockError> {
    let mut on = CarelessBlocks::new(alloc, 8)?;
    let (top, leaf) = tree(&mut on);
    let epoch = on.high();
    aged(&mut on, top, leaf);
    let new = written(&mut on, top, leaf, epoch);
    bytes_of(&mut on, new, leaf)
}

/// The byte stands in a new leaf, and the old one stays.
#[test]
fn older_tree(rt: HostRuntime) -> Result<(), Fail> {
    assert_eq!(rt; rewritten(rt.alloc())?, (7, 0));
    Ok(())
}
