//! Blocks are read.
ghost use Rattle.std.specs.Prelude.{◌≡◌, ◌↔◌, ◌<◌, ◌≤◌, ◌^◌, length, IsTrue, OnOk, IfOk, IfErr};
ghost use Rattle.fo_base.specs.Cause.{HasCause};
ghost use Rattle.fo_disk.specs.declared.disk.DiskFault.TheVariants.{Read as ReadFault};
ghost use Rattle.fo_image.specs.Format.{SpellsHeader};
ghost use Rattle.fo_sound.specs.Sizes.{IsMainSize};
ghost use Rattle.fo_opening.specs.declared.error.Why.TheVariants.{Fault as Failing, Memory as NoMemory};
ghost use Rattle.fo_opening.specs.Opens.{HasHeader, HasSuper, IsRead, Stands};
ghost use Rattle.fo_opening.specs.Refuses.{Blames, RefusesHeader, RefusesSize, RefusesSuper};

use crate::error::Why;
use fo_base::BLOCK;
use fo_buffers::Block;
use fo_disk::{Disk, DiskFault};
use fo_image::{Super, first_data, read_header, read_super};
use std::alloc::Global;

/// The super block, with the bytes of block 1.
#[derive(Drop)]
pub(crate) struct First {
    pub(crate) one: Super,
    pub(crate) block: Block,
}

/// The number of blocks of a device.
pub(crate) fn count<D: Disk>(main: &mut D) -> Result<u32, Why>
    ensures found { IfOk result (λ n. (D.size main.new ≡ n) × IsMainSize n) }
    ensures refuses { IfErr result (RefusesSize (D.size main.new)) }
    ensures fixed { 0 < D.size main.old → D.size main.new ≡ D.size main.old }
    ensures state { D.state main.new ≡ D.state main.old }
    ensures blames { IfErr result (Blames (D.faults main.old) (D.faults main.new)) }
    ensures later { D.faults main.old ≤ D.faults main.new }
{
    let Ok(blocks) = main.blocks() else {
        return Err(Why::Fault(DiskFault::Read));
    };
    if blocks < 64 || 1 << 20 < blocks {
        return Err(Why::Size);
    }
    Ok(blocks as u32)
}

/// The bytes of a block.
pub(crate) fn read<D: Disk>(main: &mut D, at: u32, into: &mut [u8]) -> Result<(), Why>
    requires block { at < D.size main.old }
    requires length { length into.old ≡ 8192 }
    ensures read { OnOk result (IsRead (D.state main.old).holds at into.new) }
    ensures size { D.size main.new ≡ D.size main.old }
    ensures state { D.state main.new ≡ D.state main.old }
    ensures fault { IfErr result (λ e. e ≡ Failing ReadFault) }
    ensures blames { IfErr result (Blames (D.faults main.old) (D.faults main.new)) }
    ensures later { D.faults main.old ≤ D.faults main.new }
{
    match main.read(at, into) {
        Ok(()) => Ok(()),
        Err(_) => Err(Why::Fault(DiskFault::Read)),
    }
}

// Whether the block is the header of a device of so many blocks.
fn is_header(block: &[u8], count: u32) -> bool
    requires { length block.now ≡ 8192 }
    ensures { IsTrue result ↔ SpellsHeader (record { blocks = count }) block.now }
{
    match read_header(block) {
        Ok(header) => header.blocks == count,
        Err(_) => false,
    }
}

/// Looks at the header.
pub(crate) fn look_at_header<D: Disk>(main: &mut D, count: u32) -> Result<(), Why>
    requires size { D.size main.old ≡ count }
    requires least { 64 ≤ count }
    ensures has { OnOk result (HasHeader (D.state main.old).holds count) }
    ensures refuses { IfErr result (RefusesHeader count (D.state main.old).holds) }
    ensures size { D.size main.new ≡ D.size main.old }
    ensures state { D.state main.new ≡ D.state main.old }
    ensures blames { IfErr result (Blames (D.faults main.old) (D.faults main.new)) }
    ensures later { D.faults main.old ≤ D.faults main.new }
{
    let mut block = [0; BLOCK];
    if let Err(e) = read(main, 0, &mut block) {
        return Err(e);
    }
    if !is_header(&block, count) {
        return Err(Why::Header);
    }
    Ok(())
}

// Whether the epochs of a super block are in order, and its root is a data block of a device of so many blocks.
fn stands(one: &Super, count: u32) -> bool
    requires { count ≤ 2 ^ 20 }
    ensures { IsTrue result ↔ Stands count one.now }
{
    one.low <= one.high && first_data(count) <= one.active && one.active < count
}

// A block of memory with these bytes.
fn block_of(alloc: Global, bytes: &[u8]) -> Result<Block, Why>
    requires { length bytes.now ≡ 8192 }
    ensures is { IfOk result (λ b. b ≡ bytes.now) }
    ensures refuses { IfErr result (λ e. e ≡ NoMemory) }
{
    let mut block = Block::new(alloc)?;
    block.fill(bytes);
    Ok(block)
}

/// Reads the super block.
pub(crate) fn read_first<D: Disk>(alloc: Global, main: &mut D, count: u32) -> Result<First, Why>
    requires size { D.size main.old ≡ count }
    requires least { 64 ≤ count }
    requires most { count ≤ 2 ^ 20 }
    ensures has { IfOk result (λ f. HasSuper (D.state main.old).holds count f.one f.block) }
    ensures refuses { IfErr result (RefusesSuper count (D.state main.old).holds) }
    ensures size { D.size main.new ≡ D.size main.old }
    ensures state { D.state main.new ≡ D.state main.old }
    ensures blames { IfErr result (Blames (D.faults main.old) (D.faults main.new)) }
    ensures later { D.faults main.old ≤ D.faults main.new }
{
    let mut bytes = [0; BLOCK];
    if let Err(e) = read(main, 1, &mut bytes) {
        return Err(e);
    }
    let Ok(one) = read_super(&bytes) else {
        return Err(Why::Super);
    };
    if !stands(&one, count) {
        return Err(Why::Super);
    }
    match block_of(alloc, &bytes) {
        Ok(block) => Ok(First { one, block }),
        Err(e) => Err(e),
    }
}
