//! The calls on blocks that tell nothing.
use crate::silent::{CarelessBlocks, blank_block, cost, no_bytes};
use fo_crash::Slot;
use fo_image::{Kind, Label, Score, State};
use fo_ports::{BlockError, Blocks};

impl Blocks for CarelessBlocks {
    ghost use Rattle.test_blocks.specs.Silent.{state_of, SilentKeeps};
    ghost use Rattle.test_blocks.specs.SilentParts.{parts};

    ghost state = { λ s. state_of (parts s) };

    ghost keeps = { λ s t. SilentKeeps (parts s) (parts t) };

    ghost settles = { λ s t. Unit {0} };

    fn get(&mut self, at: u32, kind: Kind, rank: u32, into: &mut [u8]) -> Result<(), BlockError> {
        if self.copy_into(at, kind, rank, into) {
            return Ok(());
        }
        Err(BlockError::Damaged(at))
    }

    fn pin(&mut self, at: u32, kind: Kind, rank: u32) -> Result<(), BlockError> {
        let _ = rank;
        if self.has_kind(at, kind) {
            return Ok(());
        }
        Err(BlockError::Damaged(at))
    }

    fn lend(&self, at: u32, kind: Kind, rank: u32) -> Option<&[u8]> {
        let _ = (at, kind, rank);
        None
    }

    fn slot(&self, at: u32, i: u32) -> Slot {
        self.slot_in(at, i)
    }

    fn label(&self, at: u32) -> Label {
        if (at as usize) < self.blocks.len() {
            let block = &self.blocks[at as usize];
            return block.label;
        }
        Label {
            state: State::Free,
            kind: Kind::Data(0),
            tag: 0,
            epoch: 0,
            closing: 0,
        }
    }

    fn high(&self) -> u32 {
        self.high
    }

    fn root(&self) -> u32 {
        2
    }

    fn is_clearing(&self, at: u32, i: u32) -> bool {
        let _ = (at, i);
        false
    }

    fn number(&mut self) -> Result<Option<u32>, BlockError> {
        if self.next < 1 << 30 {
            Ok(Some(self.next))
        } else {
            Ok(None)
        }
    }

    fn number_taken(&mut self) {
        self.next += 1;
    }

    fn new_block(&mut self, kind: Kind, tag: u32, rank: u32) -> u32 {
        let _ = rank;
        self.make(blank_block(kind, tag, self.high))
    }

    fn copy(&mut self, at: u32) -> u32 {
        let block = self.copy_of(at);
        self.make(block)
    }

    fn put_bytes(&mut self, at: u32, from: u32, bytes: &[u8]) {
        self.set_bytes(at, from, bytes);
    }

    fn put_slot(&mut self, at: u32, i: u32, slot: Slot) {
        let was = self.slot_in(at, i);
        let removals = cost(&was, &slot, self.room);
        self.link(at, i, &slot);
        self.take_room(removals);
    }

    fn remove_slot(&mut self, at: u32, i: u32, after: Option<u32>) {
        let _ = after;
        let slot = self.slot_in(at, i).cleared();
        self.end_waits(at, i);
        self.link(at, i, &slot);
        self.take_room(1);
    }

    fn wait_for(&mut self, at: u32, on: u32) {
        self.add_wait(at, on);
    }

    fn retire(&mut self, at: u32, epoch: u32, after: u32) {
        let _ = (at, epoch, after);
        self.take_room(1);
    }

    /// What is queued is never done, so it is for want of memory that no more can be made where there is any.
    fn reserve(&mut self, blocks: u32, pins: u32, removals: u32) -> Result<(), BlockError> {
        let _ = pins;
        if self.count - (self.blocks.len() as u32) < blocks {
            return Err(if self.queued == 0 {
                BlockError::Full
            } else {
                BlockError::Memory
            });
        }
        self.make_room(removals)
    }

    fn sealed(&self, at: u32) -> bool {
        let _ = at;
        true
    }

    fn is_sure(&self, at: u32) -> bool {
        let _ = at;
        false
    }

    fn settle(&mut self) -> Result<(), BlockError> {
        Ok(())
    }

    fn fetch(&mut self, _: &Score, _: u8, into: &mut [u8]) -> Result<(), BlockError> {
        self.lacks = !self.lacks;
        if !self.lacks {
            return Err(BlockError::Damaged(1));
        }
        into.copy_from_slice(&no_bytes());
        Ok(())
    }

    ghost use Rattle.test_blocks.specs.SilentLaws as law;

    ghost present = { λ b t. absurd t };

    ghost shown = { λ b image h. absurd h };

    ghost told = { λ b image h. absurd h };

    ghost active = { λ b. law.active (parts b) };

    ghost root_named = { λ b t. absurd t };

    ghost root_is = { λ b. law.root_is (parts b) b.begun b.few };

    ghost root_linked = { λ b h. h };

    ghost one_place = { λ b. law.one_place (parts b) };

    ghost super_stands = { λ b t. absurd t };

    ghost top_stands = { λ b t told. absurd told };

    ghost placed = { λ b image h. absurd h };

    ghost ranked = { λ b image h. absurd h };

    ghost few = { λ b image h. absurd h };

    ghost formed = { λ b image t at p h. absurd h };

    ghost one_spot = { λ b. law.one_spot (parts b) };

    ghost labelled = { λ b at p told. absurd told };

    ghost standing = { λ b at p told. absurd told };

    ghost within = { λ b. law.within (parts b) b.sound };

    ghost small = { λ b. law.small (parts b) b.small };

    ghost spelled = { λ b. law.spelled (parts b) b.sound };

    ghost live = { λ b at told. absurd told };

    ghost falls = { λ b t at i below told. absurd told };

    ghost old_is_sure = { λ b t at _ _ _ _. law.is_sure (parts b) at };

    ghost sure = { λ b at _. law.is_sure (parts b) at };

    ghost in_place = { λ b at sealed doomed r image h. absurd h };

    ghost super_known = { λ b. law.super_known (parts b) };

    ghost one_doubt = { λ b c d h. absurd h };

    ghost limited = { λ b image h. absurd h };

    ghost waits_in_use = { λ b. law.waits_in_use (parts b) b.waiting };

    ghost waits_within = { λ b. law.waits_within (parts b) b.sound b.waiting };

    ghost clears_entries = { λ b at j h. absurd h };

    ghost clears_used = { λ b t. absurd t };

    ghost covers_told = { λ b at h. h };

    ghost none_queued = { λ b at q h. h };

    ghost one_stays = { λ b h. h };

    ghost enough = { λ b. law.enough (parts b) };

    ghost apart_hangs = { λ b image t at a h. absurd h };

    ghost instead_of = { λ b y x z t. absurd t };

    ghost keeps_at_once = { λ a. law.keeps_at_once (parts a) };

    ghost keeps_joins = { λ a b c. law.keeps_joins (parts a) (parts b) (parts c) };

    ghost keeps_all = { λ a b. law.keeps_all (parts a) (parts b) };
}
