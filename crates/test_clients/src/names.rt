//! Names and their entries.
ghost use Rattle.std.specs.Prelude.{◌≡◌, ◌-◌, ◌<◌, ◌≤◌, ℕ, true, false, length, IfOk};
ghost use Rattle.fo_image.specs.declared.types.Pointer.TheVariants.{Nil};
ghost use Rattle.fo_ports_clients.specs.Leaf.{MayAddName};
ghost use Rattle.test_clients.specs.Found.{IsFound};

use fo_crash::Slot;
use fo_image::{Entry, Kind, Pointer};
use fo_ports::{BlockError, Blocks};
use fo_ports_clients::{add_name, add_name_if_sealed, remove_name};
use fo_ports_plain::PlainBlocks;
use std::alloc::Global;
use std::test::Fail;
use test_blocks::CarelessBlocks;

/// An entry of a file without data.
fn file() -> Entry
    ensures { result ≡ record { generation = 3; active = true; dir = false; depth = 0; tag = 40; size = 0; top = Nil } }
{
    Entry {
        generation: 3,
        active: true,
        dir: false,
        depth: 0,
        tag: 40,
        size: 0,
        top: Pointer::Nil,
    }
}

/// A new leaf of entries and a new leaf of names, to which name 6 may be added.
fn leaves<B: Blocks>(on: &mut B, file: Entry) -> (u32, u32)
    requires spare { 2 ≤ (B.state on.old).spare }
    requires room { 0 < (B.state on.old).room }
    requires file { file ≡ record { generation = 3; active = true; dir = false; depth = 0; tag = 40; size = 0; top = Nil } }
    ensures may { MayAddName (B.state on.new) result.1 result.0 6 file 3 }
    ensures leaf { IsFound (B.state on.new) result.1 2112 }
    ensures room { (B.state on.new).room ≡ (B.state on.old).room }
{
    let entries = on.new_block(Kind::Dir(0), 32, 2088);
    let leaf = on.new_block(Kind::Data(0), 33, 2112);
    (entries, leaf)
}

/// A name is added to new leaves, over blocks of which all are sealed where the device tells; the leaf of names, and the entry.
fn added<B: Blocks>(on: &mut B, file: Entry) -> (u32, Slot)
    requires spare { 2 ≤ (B.state on.old).spare }
    requires room { 0 < (B.state on.old).room }
    requires file { file ≡ record { generation = 3; active = true; dir = false; depth = 0; tag = 40; size = 0; top = Nil } }
    requires sealed { (b : B) (at : ℕ) → (B.state b).tells → (B.state b).sealed at }
    ensures leaf { IsFound (B.state on.new) result.0 2112 }
{
    let (entries, leaf) = leaves(on, file);
    add_name(on, leaf, entries, 6, file, 3);
    (leaf, on.slot(entries, 6))
}

/// Over blocks that tell nothing a name is added to new leaves and taken out again; the leaf of names, and the entry.
fn removed<B: Blocks>(on: &mut B, file: Entry) -> (u32, Slot)
    requires spare { 2 ≤ (B.state on.old).spare }
    requires room { 2 ≤ (B.state on.old).room }
    requires file { file ≡ record { generation = 3; active = true; dir = false; depth = 0; tag = 40; size = 0; top = Nil } }
    requires untold { (b : B) → (B.state b).tells → ⊥ }
    ensures leaf { IsFound (B.state on.new) result.0 2112 }
{
    let (entries, leaf) = leaves(on, file);
    add_name(on, leaf, entries, 6, file, 3);
    remove_name(on, leaf, entries, 6);
    (leaf, on.slot(entries, 6))
}

/// Whether a name is added to new leaves.
fn added_if_sealed<B: Blocks>(on: &mut B, file: Entry) -> bool
    requires spare { 2 ≤ (B.state on.old).spare }
    requires room { 0 < (B.state on.old).room }
    requires file { file ≡ record { generation = 3; active = true; dir = false; depth = 0; tag = 40; size = 0; top = Nil } }
{
    let (entries, leaf) = leaves(on, file);
    add_name_if_sealed(on, leaf, entries, 6, file, 3)
}

/// Bytes 6 and 7 of a leaf of names.
fn names_of<B: Blocks>(on: &mut B, leaf: u32) -> Result<(u8, u8), BlockError>
    requires { IsFound (B.state on.old) leaf 2112 }
{
    let mut block = [0; 8192];
    on.get(leaf, Kind::Data(0), 2112, &mut block)?;
    Ok((block[6], block[7]))
}

/// Blocks in memory, with room for two blocks and a wait.
fn plain(alloc: Global) -> Result<PlainBlocks, BlockError>
    ensures { IfOk result (λ on. (2 ≤ on.spare) × (0 < on.room)) }
{
    let mut on = PlainBlocks::new(alloc, 2)?;
    on.reserve(2, 1, 1)?;
    Ok(on)
}

/// Blocks that tell nothing, with room for two blocks and two removals and waits.
fn careless(alloc: Global) -> Result<CarelessBlocks, BlockError>
    ensures { IfOk result (λ on. (2 ≤ on.count - length on.blocks.items) × (2 ≤ on.room)) }
{
    let mut on = CarelessBlocks::new(alloc, 5)?;
    on.reserve(2, 1, 2)?;
    Ok(on)
}

/// A name is added with its entry, with ample memory.
#[test]
fn ample(rt: HostRuntime) -> Result<(), Fail> {
    let mut on = plain(rt.alloc())?;
    let (leaf, entry) = added(&mut on, file());
    assert_eq!(rt; entry, Slot::Entry(file()));
    assert_eq!(rt; names_of(&mut on, leaf)?, (3, 0));
    Ok(())
}

/// Over blocks that tell nothing, too.
#[test]
fn silent(rt: HostRuntime) -> Result<(), Fail> {
    let mut on = careless(rt.alloc())?;
    let (leaf, entry) = added(&mut on, file());
    assert_eq!(rt; entry, Slot::Entry(file()));
    assert_eq!(rt; names_of(&mut on, leaf)?, (3, 0));
    Ok(())
}

/// In memory all is sealed always.
#[test]
fn sealed(rt: HostRuntime) -> Result<(), Fail> {
    let mut on = plain(rt.alloc())?;
    assert!(rt; added_if_sealed(&mut on, file()));
    Ok(())
}

/// So it is over blocks that tell nothing and are never written.
#[test]
fn sealed_unwritten(rt: HostRuntime) -> Result<(), Fail> {
    let mut on = careless(rt.alloc())?;
    assert!(rt; added_if_sealed(&mut on, file()));
    Ok(())
}

/// A name that is taken out clears its entry.
#[test]
fn gone(rt: HostRuntime) -> Result<(), Fail> {
    let mut on = careless(rt.alloc())?;
    let (leaf, entry) = removed(&mut on, file());
    assert_eq!(rt; entry, Slot::Entry(file()).cleared());
    assert_eq!(rt; names_of(&mut on, leaf)?, (0, 0));
    Ok(())
}
