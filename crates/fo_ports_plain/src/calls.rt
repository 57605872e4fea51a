//! The calls on blocks in memory.
use crate::block::blank_block;
use crate::held::copy_held;
use crate::plain::PlainBlocks;
use crate::spell::spell_slots;
use fo_crash::{Place, Slot};
use fo_image::{Kind, Label, Pointer, Score, State};
use fo_ports::{BlockError, Blocks};

impl Blocks for PlainBlocks {
    ghost use Rattle.fo_ports_plain.specs.Meaning.{state_of, PlainKeeps};
    ghost use Rattle.fo_ports_plain.specs.Parts.{parts};

    ghost state = { λ s. state_of (parts s) };

    ghost keeps = { λ s t. PlainKeeps (parts s) (parts t) };

    ghost settles = { λ s t. Unit {0} };

    fn get(&mut self, at: u32, kind: Kind, rank: u32, into: &mut [u8]) -> Result<(), BlockError> {
        let _ = rank;
        if self.made <= at {
            return Err(BlockError::Damaged(at));
        }
        let block = &self.blocks[at as usize];
        into.copy_from_slice(&block.bytes);
        spell_slots(kind, &block.slots, into);
        Ok(())
    }

    fn pin(&mut self, at: u32, kind: Kind, rank: u32) -> Result<(), BlockError> {
        let _ = (kind, rank);
        if self.made <= at {
            return Err(BlockError::Damaged(at));
        }
        Ok(())
    }

    fn lend(&self, at: u32, kind: Kind, rank: u32) -> Option<&[u8]> {
        let _ = (at, kind, rank);
        None
    }

    fn slot(&self, at: u32, i: u32) -> Slot {
        let block = &self.blocks[at as usize];
        block.slots[i as usize]
    }

    fn label(&self, at: u32) -> Label {
        let live = 1 < at && at < self.made;
        let block = &self.blocks[at as usize];
        Label {
            state: if live { State::Live } else { State::Free },
            kind: block.place.kind,
            tag: block.place.tag,
            epoch: if live { block.epoch } else { 0 },
            closing: if live { u32::MAX } else { 0 },
        }
    }

    fn high(&self) -> u32 {
        self.high
    }

    fn root(&self) -> u32 {
        self.root
    }

    fn is_clearing(&self, at: u32, i: u32) -> bool {
        let _ = (at, i);
        false
    }

    fn number(&mut self) -> Result<Option<u32>, BlockError> {
        if self.next < 1 << 30 {
            Ok(Some(self.next))
        } else {
            Ok(None)
        }
    }

    fn number_taken(&mut self) {
        self.next += 1;
    }

    fn new_block(&mut self, kind: Kind, tag: u32, rank: u32) -> u32 {
        let place = Place {
            kind,
            tag,
            index: 0,
            rank,
        };
        self.make(blank_block(place, self.high, self.made))
    }

    fn copy(&mut self, at: u32) -> u32 {
        let block = self.blocks[at as usize].copied(at, self.high);
        self.make(block)
    }

    fn put_bytes(&mut self, at: u32, from: u32, bytes: &[u8]) {
        self.set_bytes(at, from, bytes);
    }

    fn put_slot(&mut self, at: u32, i: u32, slot: Slot) {
        self.room -= self.cost(at, i, &slot, self.room);
        self.take_out(at, i, &slot);
        match slot.target() {
            Pointer::Local(below) => self.link(at, i, slot, below),
            _ => self.set_slot(at, i, slot),
        }
    }

    fn remove_slot(&mut self, at: u32, i: u32, after: Option<u32>) {
        let _ = after;
        self.room -= 1;
        let slot = self.slot(at, i).cleared();
        self.take_out(at, i, &slot);
        self.end_waits(at, i);
        self.set_slot(at, i, slot);
    }

    fn wait_for(&mut self, at: u32, on: u32) {
        self.add_wait(at, on);
    }

    fn retire(&mut self, at: u32, epoch: u32, after: u32) {
        let _ = (epoch, after);
        self.room -= 1;
        self.close_alone(at);
    }

    /// No block is closed, so blocks that were taken out of the tree stay in use: where there are any, it is for want of memory that
    /// no more can be made.
    fn reserve(&mut self, blocks: u32, pins: u32, removals: u32) -> Result<(), BlockError> {
        let _ = pins;
        if (self.blocks.len() as u32) - self.made < blocks {
            return Err(if self.queued == 0 {
                BlockError::Full
            } else {
                BlockError::Memory
            });
        }
        self.make_room(removals)?;
        if self.spare < blocks {
            self.spare = blocks;
        }
        Ok(())
    }

    fn sealed(&self, at: u32) -> bool {
        let _ = at;
        true
    }

    fn is_sure(&self, at: u32) -> bool {
        let _ = at;
        true
    }

    fn settle(&mut self) -> Result<(), BlockError> {
        self.waits.clear();
        self.pass();
        Ok(())
    }

    fn fetch(&mut self, score: &Score, kind: u8, into: &mut [u8]) -> Result<(), BlockError> {
        if copy_held(&self.held, score, kind, into) {
            Ok(())
        } else {
            Err(BlockError::Damaged(1))
        }
    }

    ghost use Rattle.fo_ports_plain.specs.Laws as law;

    ghost present = { λ b. law.present (parts b) };

    ghost shown = { λ b. law.shown (parts b) };

    ghost told = { λ b. law.told (parts b) };

    ghost active = { λ b. law.active (parts b) };

    ghost root_named = { λ b. law.root_named (parts b) b.sound };

    ghost root_is = { λ b. law.root_is (parts b) b.sound b.spared };

    ghost root_linked = { λ b h. absurd h };

    ghost one_place = { λ b. law.one_place (parts b) };

    ghost super_stands = { λ b. law.super_stands (parts b) b.three b.sound };

    ghost top_stands = { λ b. law.top_stands (parts b) b.sound };

    ghost placed = { λ b. law.placed (parts b) b.sound };

    ghost ranked = { λ b. law.ranked (parts b) b.sound };

    ghost few = { λ b. law.few (parts b) b.sound };

    ghost formed = { λ b. law.formed (parts b) b.formed };

    ghost one_spot = { λ b. law.one_spot (parts b) b.sound };

    ghost labelled = { λ b. law.labelled (parts b) b.spared };

    ghost standing = { λ b. law.standing (parts b) };

    ghost within = { λ b. law.within (parts b) b.spared b.sound };

    ghost small = { λ b. law.small (parts b) b.few };

    ghost spelled = { λ b. law.spelled (parts b) b.sound };

    ghost live = { λ b. law.live (parts b) b.three b.sound };

    ghost falls = { λ b. law.falls (parts b) b.three b.sound };

    ghost old_is_sure = { λ b. law.old_is_sure (parts b) };

    ghost sure = { λ b. law.sure (parts b) };

    ghost in_place = { λ b at is doomed r image same. law.in_place (parts b) at is ⊥ image r same };

    ghost super_known = { λ b. law.super_known (parts b) };

    ghost one_doubt = { λ b. law.one_doubt (parts b) };

    ghost limited = { λ b. law.limited (parts b) b.numbered };

    ghost waits_in_use = { λ b. law.waits_in_use (parts b) b.waiting };

    ghost waits_within = { λ b. law.waits_within (parts b) b.waiting };

    ghost clears_entries = { λ b at j h. law.clears_entries (parts b) at j h _ };

    ghost clears_used = { λ b. law.clears_used (parts b) };

    ghost covers_told = { λ b at h. tt };

    ghost none_queued = { λ b. law.none_queued (parts b) b.queue };

    ghost one_stays = { λ b. law.one_stays (parts b) };

    ghost enough = { λ b. law.enough (parts b) b.spared };

    ghost apart_hangs = { λ b. law.apart_hangs (parts b) b.three b.sound };

    ghost instead_of = { λ b. law.instead_of (parts b) };

    ghost keeps_at_once = { λ a. law.keeps_at_once (parts a) };

    ghost keeps_joins = { λ a b c. law.keeps_joins (parts a) (parts b) (parts c) };

    ghost keeps_all = { λ a b. law.keeps_all (parts a) (parts b) };
}
