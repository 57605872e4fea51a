//! A new device in memory, and an empty root directory on it.
ghost use Rattle.std.specs.Prelude.{IfOk};
ghost use Rattle.fo_ports_plain.specs.Meaning.{state_of};
ghost use Rattle.fo_ports_plain.specs.Parts.{parts};
ghost use Rattle.test_names.specs.Root.{HasBlocks, IsInMemory, NoneComes};

use crate::parts::Part;
use crate::root::begin;
use fo_base::Memory;
use fo_ports::{BlockError, Blocks};
use fo_ports_plain::PlainBlocks;
use std::alloc::Global;

/// How many blocks may be made.
const BLOCKS: u32 = 1000;

/// A new device.
pub fn device(alloc: Global) -> Result<PlainBlocks, Memory>
    ensures blocks { IfOk result (λ on. HasBlocks 1003 (state_of (parts on))) }
    ensures none { IfOk result (λ on. NoneComes (state_of (parts on))) }
{
    PlainBlocks::new(alloc, BLOCKS)
}

/// Puts the entries of the sources of an empty root directory. Whether there was none.
pub fn begin_root<B: Blocks>(on: &mut B) -> Result<bool, BlockError>
    requires memory { (b : B) → IsInMemory (B.state b) }
    requires none { NoneComes (B.state on.old) }
    ensures none { NoneComes (B.state on.new) }
    ensures keeps { B.keeps on.old on.new }
{
    if !begin(on, Part::Entries)? {
        return Ok(false);
    }
    begin(on, Part::Records)
}
