//! Looks at blocks that are new, over blocks in memory.
ghost use Rattle.std.specs.Prelude.{◌<◌, IfOk};
ghost use Rattle.fo_ports_plain.specs.Meaning.{state_of};
ghost use Rattle.fo_ports_plain.specs.Parts.{parts};

use fo_arch_form::Stored;
use fo_arch_walk::{look_data, look_entries, look_pointers};
use fo_image::Kind;
use fo_ports::{BlockError, Blocks};
use fo_ports_plain::PlainBlocks;
use fo_vacput::EMPTY;
use std::alloc::Global;
use std::test::Fail;

/// Whether nothing is missing of a new block of pointers, and its form begins with the score of the empty block.
fn pointers<B: Blocks>(on: &mut B, done: &Stored) -> Result<bool, BlockError>
    requires { 0 < (B.state on.old).spare }
{
    let at = on.new_block(Kind::Data(1), 40, 2113);
    let mut form = [0; 8192];
    let missing = look_pointers(on, done, at, Kind::Data(1), 2113, &mut form)?;
    Ok(missing.is_none() && &form[0..20] == EMPTY.0.as_slice())
}

/// Whether nothing is missing of a new leaf of entries, and its form begins with zeros.
fn entries<B: Blocks>(on: &mut B, done: &Stored) -> Result<bool, BlockError>
    requires { 0 < (B.state on.old).spare }
{
    let at = on.new_block(Kind::Dir(0), 32, 2088);
    let mut form = [1; 8192];
    let missing = look_entries(on, done, at, 2088, &mut form)?;
    Ok(missing.is_none() && &form[0..40] == [0; 40].as_slice())
}

/// Whether a new leaf of data is its own form.
fn data<B: Blocks>(on: &mut B) -> Result<bool, BlockError>
    requires { 0 < (B.state on.old).spare }
{
    let at = on.new_block(Kind::Data(0), 40, 2112);
    let mut form = [1; 8192];
    look_data(on, at, 2112, &mut form)?;
    Ok(form == [0; 8192])
}

/// Blocks in memory, of which one may be made.
fn device(alloc: Global) -> Result<PlainBlocks, BlockError>
    ensures { IfOk result (λ on. 0 < (state_of (parts on)).spare) }
{
    let mut on = PlainBlocks::new(alloc, 1)?;
    on.reserve(1, 1, 0)?;
    Ok(on)
}

/// Blocks of each kind but a root block are looked at, with ample memory.
#[test]
fn ample(rt: HostRuntime) -> Result<(), Fail> {
    let alloc = rt.alloc();
    let done = Stored::new(alloc);
    assert!(rt; pointers(&mut device(alloc)?, &done)?);
    assert!(rt; entries(&mut device(alloc)?, &done)?);
    assert!(rt; data(&mut device(alloc)?)?);
    Ok(())
}
