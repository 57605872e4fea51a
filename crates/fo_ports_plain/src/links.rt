//! A slot that is put, in a list of blocks.
ghost use Rattle.std.specs.Prelude.{◌≡◌, ◌≢◌, ◌<◌, ℕ, List, length};
ghost use Rattle.fo_ports_plain.specs.declared.block.PlainBlock.{PlainBlock};
ghost use Rattle.fo_ports_plain.specs.Plain.{block_at, Updates};
ghost use Rattle.fo_ports_plain.specs.Moves.{PutsLink};

use crate::block::PlainBlock;
use crate::home::Home;
use fo_crash::Slot;

/// Puts one block in place of another.
pub(crate) fn set_block(blocks: &mut Vec<PlainBlock>, at: u32, block: PlainBlock)
    requires { at < length blocks.old.items }
    ensures { Updates at block blocks.old.items blocks.new.items }
{
    blocks[at as usize] = block;
}

/// The source of this number hangs here from now on.
pub(crate) fn hang(blocks: &mut Vec<PlainBlock>, source: u32, home: Home)
    requires { source < length blocks.old.items }
    ensures { Updates source (record (block_at blocks.old.items source) { home = home }) blocks.old.items blocks.new.items }
{
    let block = blocks[source as usize].with_home(home);
    set_block(blocks, source, block);
}

/// What comes of a put slot: the index of the block below and its source; and the source and origin of the block that it is put into.
#[derive(Clone, Copy)]
pub(crate) struct Joint {
    pub(crate) index: u64,
    pub(crate) under: u32,
    pub(crate) source: u32,
    pub(crate) origin: u32,
}

impl Joint {
    /// The block that is put into is of the source of the one below, and comes in the place of this block.
    pub(crate) fn raised(self, origin: u32) -> Joint
        ensures { result ≡ record self { source = self.under; origin = origin } }
    {
        let mut joint = self;
        joint.source = self.under;
        joint.origin = origin;
        joint
    }

    /// The block below is of the source of the one that is put into.
    pub(crate) fn inside(self) -> Joint
        ensures { result ≡ record self { under = self.source } }
    {
        let mut joint = self;
        joint.under = self.source;
        joint
    }
}

/// Puts a slot that leads to a block.
pub(crate) fn put_link(
    blocks: &mut Vec<PlainBlock>,
    at: u32,
    i: u32,
    slot: Slot,
    below: u32,
    joint: Joint,
)
    requires blocks { (at < length blocks.old.items) × (below < length blocks.old.items) × (at ≢ below) }
    requires slot { i < 409 }
    ensures { PutsLink at i below slot joint.index joint.under joint.source joint.origin blocks.old.items blocks.new.items }
{
    let child = blocks[below as usize].joined(joint.index, joint.under);
    set_block(blocks, below, child);
    let block = blocks[at as usize]
        .of_source(joint.source, joint.origin)
        .with_slot(i, slot);
    set_block(blocks, at, block);
}
