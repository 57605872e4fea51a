//! The list of blocks that are linked and not looked at yet.
ghost use Rattle.std.specs.Prelude.{◌≡◌, ◌≤◌, max, OnOk, OnErr};
ghost use Rattle.fo_linking.specs.Joined.{AreGood, IsReady, JoinsBelow};

use crate::linking::link_tree;
use fo_base::Memory;
use fo_buffers::Buffers;
use fo_facts::Facts;
use fo_image::Pointer;
use fo_labels::Labels;
use fo_order::Order;
use std::alloc::Global;
use std::marker::Model;

/// Room for the blocks that are linked with one put and not looked at yet. Between calls none is listed.
#[derive(Drop)]
pub struct Worklist {
    list: Vec<u32>,
    room: usize,
}

impl Model for Worklist {
    ghost use Rattle.std.specs.Prelude.{ℕ};
    ghost use Rattle.fo_linking.specs.Roomy.{IsRoomy};

    ghost Value = { ℕ };

    ghost view = { λ a. a.room };

    ghost invariant = { IsRoomy };
}

impl Worklist {
    /// No room.
    pub fn new(alloc: Global) -> Worklist
        ensures { result ≡ 0 }
    {
        Worklist {
            list: Vec::new(alloc),
            room: 0,
        }
    }

    /// For how many blocks there is room.
    pub fn room(&self) -> usize
        ensures { result ≡ self.now }
    {
        self.room
    }

    /// Makes room for so many blocks. This alone may want memory, and then nothing changes.
    pub fn reserve(&mut self, room: usize) -> Result<(), Memory>
        ensures ok { OnOk result (self.new ≡ max self.old room) }
        ensures err { OnErr result (self.new ≡ self.old) }
    {
        let room = self.room.max(room);
        self.list.reserve(room)?;
        self.room = room;
        Ok(())
    }

    /// A slot of a block in the tree leads there now: that block is linked, with all that hangs from it by blocks that were made.
    pub fn link(
        &mut self,
        buffers: &Buffers,
        labels: &Labels,
        order: &mut Order,
        facts: &mut Facts,
        to: Pointer,
    )
        requires good { AreGood labels.now buffers.now }
        requires ready { IsReady facts.old order.old self.old }
        ensures joins { JoinsBelow buffers.now labels.now to facts.old facts.new order.old order.new }
        ensures same { self.new ≡ self.old }
    {
        link_tree(buffers, labels, order, facts, &mut self.list, to);
    }
}
