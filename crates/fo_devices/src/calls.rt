//! The calls on blocks over devices.
use crate::devices::Devices;
use crate::fetch::fetch_block;
use fo_crash::Slot;
use fo_disk::Disk;
use fo_image::{Kind, Label, Score};
use fo_ports::{BlockError, Blocks};
use fo_reserving::{is_sure, reserve};
use fo_settling::settle;

impl<D: Disk, A: Disk> Blocks for Devices<D, A> {
    ghost use Rattle.std.specs.Prelude.{◌≡◌, ◌≤◌, ℕ, List, [], Some, None, length, MatchResult, OnOk, OnErr, IfErr};
    ghost use Rattle.fo_base.specs.Cause.{Rose};
    ghost use Rattle.fo_crash.specs.Images.{SameImage};
    ghost use Rattle.fo_crash.specs.Steps.{AddsNothing};
    ghost use Rattle.fo_order.specs.Turns.{IsQuiet};
    ghost use Rattle.fo_ports.specs.Causes.{Caused, IsFull};
    ghost use Rattle.fo_ports.specs.State.{AddsNoWait, Calm, Rests, none};
    ghost use Rattle.fo_ports.specs.declared.error.BlockError.TheVariants.{Full, Memory};
    ghost use Rattle.fo_reserving.specs.of_closing.Rest.{AtRest};
    ghost use Rattle.fo_settling.specs.Costs.{Costs};
    ghost use Rattle.fo_reserving.specs.Steps.{AreFew, ClosesAtRest, GivesAll};
    ghost use Rattle.venti_store.specs.Arena.{Keeps, lines_of};
    ghost use Rattle.fo_devices.specs.Fetched.{FetchLacks, FetchRefuses, Fetched, FetchedHeld};
    ghost use Rattle.fo_settling.specs.of_mind.MindParts.{parts};
    ghost use Rattle.fo_devices.specs.Seen.{DevicesKeep, seen, state_of_devices};

    ghost state = { λ s. state_of_devices (seen (parts s.cache.mind (D.state s.cache.main).holds (D.faults s.cache.main)) (D.size s.cache.main) s.arena.shelf (A.state s.arena.device) (A.faults s.arena.device)) };

    ghost keeps = { λ s t. DevicesKeep
        (seen (parts s.cache.mind (D.state s.cache.main).holds (D.faults s.cache.main)) (D.size s.cache.main) s.arena.shelf (A.state s.arena.device) (A.faults s.arena.device))
        (seen (parts t.cache.mind (D.state t.cache.main).holds (D.faults t.cache.main)) (D.size t.cache.main) t.arena.shelf (A.state t.arena.device) (A.faults t.arena.device)) };

    ghost settles = { λ s t. Costs (D.state s.cache.main) (D.state t.cache.main) (D.calls s.cache.main) (D.calls t.cache.main) (parts s.cache.mind [] 0) };

    fn get(&mut self, at: u32, kind: Kind, rank: u32, into: &mut [u8]) -> Result<(), BlockError> {
        self.cache.get(at, kind, rank, into)
    }

    fn pin(&mut self, at: u32, kind: Kind, rank: u32) -> Result<(), BlockError> {
        self.cache.pin(at, kind, rank)
    }

    fn lend(&self, at: u32, kind: Kind, rank: u32) -> Option<&[u8]> {
        self.cache.mind.lend(at, kind, rank)
    }

    fn slot(&self, at: u32, i: u32) -> Slot {
        self.cache.mind.slot(at, i)
    }

    fn label(&self, at: u32) -> Label {
        self.cache.mind.label(at)
    }

    fn high(&self) -> u32 {
        self.cache.mind.high()
    }

    fn root(&self) -> u32 {
        self.cache.mind.root()
    }

    fn is_clearing(&self, at: u32, i: u32) -> bool {
        self.cache.mind.is_clearing(at, i)
    }

    fn number(&mut self) -> Result<Option<u32>, BlockError> {
        self.cache.number()
    }

    fn number_taken(&mut self) {
        self.cache.number_taken();
    }

    fn new_block(&mut self, kind: Kind, tag: u32, rank: u32) -> u32 {
        self.cache.new_block(kind, tag, rank)
    }

    fn copy(&mut self, at: u32) -> u32 {
        self.cache.copy(at)
    }

    fn put_bytes(&mut self, at: u32, from: u32, bytes: &[u8]) {
        self.cache.put_bytes(at, from, bytes);
    }

    fn put_slot(&mut self, at: u32, i: u32, slot: Slot) {
        self.cache.put_slot(at, i, slot);
    }

    fn remove_slot(&mut self, at: u32, i: u32, after: Option<u32>) {
        self.cache.remove_slot(at, i, after);
    }

    fn wait_for(&mut self, at: u32, on: u32) {
        self.cache.wait_for(at, on);
    }

    fn retire(&mut self, at: u32, epoch: u32, after: u32) {
        self.cache.retire(at, epoch, after);
    }

    /// As the trait says, and which blocks are closed, what `Full` leaves, how much is left to be written, and what is given up where
    /// memory is wanting (`fo_reserving`).
    fn reserve(&mut self, blocks: u32, pins: u32, removals: u32) -> Result<(), BlockError>
        ensures room { OnOk result ((blocks ≤ (state_of_devices (seen (parts self.new.cache.mind (D.state self.new.cache.main).holds (D.faults self.new.cache.main)) (D.size self.new.cache.main) self.new.arena.shelf (A.state self.new.arena.device) (A.faults self.new.arena.device))).spare) × (pins ≤ (state_of_devices (seen (parts self.new.cache.mind (D.state self.new.cache.main).holds (D.faults self.new.cache.main)) (D.size self.new.cache.main) self.new.arena.shelf (A.state self.new.arena.device) (A.faults self.new.arena.device))).pins_left) × (removals ≤ (state_of_devices (seen (parts self.new.cache.mind (D.state self.new.cache.main).holds (D.faults self.new.cache.main)) (D.size self.new.cache.main) self.new.arena.shelf (A.state self.new.arena.device) (A.faults self.new.arena.device))).room)) }
        ensures rests { Rests (state_of_devices (seen (parts self.old.cache.mind (D.state self.old.cache.main).holds (D.faults self.old.cache.main)) (D.size self.old.cache.main) self.old.arena.shelf (A.state self.old.arena.device) (A.faults self.old.arena.device))) (state_of_devices (seen (parts self.new.cache.mind (D.state self.new.cache.main).holds (D.faults self.new.cache.main)) (D.size self.new.cache.main) self.new.arena.shelf (A.state self.new.arena.device) (A.faults self.new.arena.device))) }
        ensures cause { IfErr result (Caused (IsFull (state_of_devices (seen (parts self.new.cache.mind (D.state self.new.cache.main).holds (D.faults self.new.cache.main)) (D.size self.new.cache.main) self.new.arena.shelf (A.state self.new.arena.device) (A.faults self.new.arena.device))) blocks) (λ b. ⊥) (Rose (state_of_devices (seen (parts self.old.cache.mind (D.state self.old.cache.main).holds (D.faults self.old.cache.main)) (D.size self.old.cache.main) self.old.arena.shelf (A.state self.old.arena.device) (A.faults self.old.arena.device))).faults (state_of_devices (seen (parts self.new.cache.mind (D.state self.new.cache.main).holds (D.faults self.new.cache.main)) (D.size self.new.cache.main) self.new.arena.shelf (A.state self.new.arena.device) (A.faults self.new.arena.device))).faults) ⊥) }
        ensures keeps { DevicesKeep (seen (parts self.old.cache.mind (D.state self.old.cache.main).holds (D.faults self.old.cache.main)) (D.size self.old.cache.main) self.old.arena.shelf (A.state self.old.arena.device) (A.faults self.old.arena.device)) (seen (parts self.new.cache.mind (D.state self.new.cache.main).holds (D.faults self.new.cache.main)) (D.size self.new.cache.main) self.new.arena.shelf (A.state self.new.arena.device) (A.faults self.new.arena.device)) }
        ensures closes { ClosesAtRest (parts self.old.cache.mind (D.state self.old.cache.main).holds (D.faults self.old.cache.main)) (parts self.new.cache.mind (D.state self.new.cache.main).holds (D.faults self.new.cache.main)) }
        ensures full { IfErr result (λ e. e ≡ Full → IsQuiet (parts self.new.cache.mind (D.state self.new.cache.main).holds (D.faults self.new.cache.main)).turns × AtRest (parts self.new.cache.mind (D.state self.new.cache.main).holds (D.faults self.new.cache.main))) }
        ensures few { OnOk result (AreFew (parts self.new.cache.mind [] 0).turns (parts self.new.cache.mind [] 0).region.first) }
        ensures wanting { IfErr result (λ e. e ≡ Memory → GivesAll (parts self.new.cache.mind (D.state self.new.cache.main).holds (D.faults self.new.cache.main))) }
    {
        reserve(&mut self.cache, blocks, pins, removals)
    }

    fn sealed(&self, at: u32) -> bool {
        self.cache.mind.is_sealed(at)
    }

    fn is_sure(&self, at: u32) -> bool {
        is_sure(&self.cache.mind, at)
    }

    fn settle(&mut self) -> Result<(), BlockError> {
        settle(&mut self.cache)
    }

    /// As the trait says, and just what the arena holds (`fetch_block`).
    fn fetch(&mut self, score: &Score, kind: u8, into: &mut [u8]) -> Result<(), BlockError>
        requires length { length into.old ≡ 8192 }
        ensures found { OnOk result (Fetched (lines_of self.old.arena.shelf) score.now.0 kind into.new) }
        ensures refused { IfErr result (FetchRefuses (lines_of self.old.arena.shelf) score.now.0 kind) }
        ensures held { (stored : List (List ℕ)) (synced : ℕ) → Keeps self.old.arena.shelf stored synced (A.state self.old.arena.device)
            → MatchResult result (λ _. FetchedHeld (lines_of self.old.arena.shelf) stored score.now.0 kind into.new) (FetchLacks (lines_of self.old.arena.shelf) stored score.now.0 kind) }
        ensures bytes { OnOk result ((state_of_devices (seen (parts self.old.cache.mind (D.state self.old.cache.main).holds (D.faults self.old.cache.main)) (D.size self.old.cache.main) self.old.arena.shelf (A.state self.old.arena.device) (A.faults self.old.arena.device))).tells → (state_of_devices (seen (parts self.old.cache.mind (D.state self.old.cache.main).holds (D.faults self.old.cache.main)) (D.size self.old.cache.main) self.old.arena.shelf (A.state self.old.arena.device) (A.faults self.old.arena.device))).held score.now kind ≡ Some into.new) }
        ensures nothing { OnErr result (into.new ≡ into.old) }
        ensures now { SameImage (state_of_devices (seen (parts self.new.cache.mind (D.state self.new.cache.main).holds (D.faults self.new.cache.main)) (D.size self.new.cache.main) self.new.arena.shelf (A.state self.new.arena.device) (A.faults self.new.arena.device))).now (state_of_devices (seen (parts self.old.cache.mind (D.state self.old.cache.main).holds (D.faults self.old.cache.main)) (D.size self.old.cache.main) self.old.arena.shelf (A.state self.old.arena.device) (A.faults self.old.arena.device))).now }
        ensures images { AddsNothing (state_of_devices (seen (parts self.old.cache.mind (D.state self.old.cache.main).holds (D.faults self.old.cache.main)) (D.size self.old.cache.main) self.old.arena.shelf (A.state self.old.arena.device) (A.faults self.old.arena.device))).may_leave (state_of_devices (seen (parts self.new.cache.mind (D.state self.new.cache.main).holds (D.faults self.new.cache.main)) (D.size self.new.cache.main) self.new.arena.shelf (A.state self.new.arena.device) (A.faults self.new.arena.device))).may_leave }
        ensures holds { (state_of_devices (seen (parts self.new.cache.mind (D.state self.new.cache.main).holds (D.faults self.new.cache.main)) (D.size self.new.cache.main) self.new.arena.shelf (A.state self.new.arena.device) (A.faults self.new.arena.device))).holds ≡ (state_of_devices (seen (parts self.old.cache.mind (D.state self.old.cache.main).holds (D.faults self.old.cache.main)) (D.size self.old.cache.main) self.old.arena.shelf (A.state self.old.arena.device) (A.faults self.old.arena.device))).holds }
        ensures calm { Calm none 0 (state_of_devices (seen (parts self.old.cache.mind (D.state self.old.cache.main).holds (D.faults self.old.cache.main)) (D.size self.old.cache.main) self.old.arena.shelf (A.state self.old.arena.device) (A.faults self.old.arena.device))) (state_of_devices (seen (parts self.new.cache.mind (D.state self.new.cache.main).holds (D.faults self.new.cache.main)) (D.size self.new.cache.main) self.new.arena.shelf (A.state self.new.arena.device) (A.faults self.new.arena.device))) }
        ensures no_wait { AddsNoWait none (state_of_devices (seen (parts self.old.cache.mind (D.state self.old.cache.main).holds (D.faults self.old.cache.main)) (D.size self.old.cache.main) self.old.arena.shelf (A.state self.old.arena.device) (A.faults self.old.arena.device))) (state_of_devices (seen (parts self.new.cache.mind (D.state self.new.cache.main).holds (D.faults self.new.cache.main)) (D.size self.new.cache.main) self.new.arena.shelf (A.state self.new.arena.device) (A.faults self.new.arena.device))) }
        ensures cause { IfErr result (Caused ⊥ (λ b. (b ≡ 1) × ((state_of_devices (seen (parts self.old.cache.mind (D.state self.old.cache.main).holds (D.faults self.old.cache.main)) (D.size self.old.cache.main) self.old.arena.shelf (A.state self.old.arena.device) (A.faults self.old.arena.device))).tells → (state_of_devices (seen (parts self.old.cache.mind (D.state self.old.cache.main).holds (D.faults self.old.cache.main)) (D.size self.old.cache.main) self.old.arena.shelf (A.state self.old.arena.device) (A.faults self.old.arena.device))).held score.now kind ≡ None)) ⊥ (Rose (A.faults self.old.arena.device) (A.faults self.new.arena.device))) }
        ensures keeps { DevicesKeep (seen (parts self.old.cache.mind (D.state self.old.cache.main).holds (D.faults self.old.cache.main)) (D.size self.old.cache.main) self.old.arena.shelf (A.state self.old.arena.device) (A.faults self.old.arena.device)) (seen (parts self.new.cache.mind (D.state self.new.cache.main).holds (D.faults self.new.cache.main)) (D.size self.new.cache.main) self.new.arena.shelf (A.state self.new.arena.device) (A.faults self.new.arena.device)) }
    {
        fetch_block(self.cache.mind.alloc, &mut self.arena, score, kind, into)
    }

    ghost use Rattle.fo_settling.specs.of_mind.Laws as mind;
    ghost use Rattle.fo_devices.specs.Laws as law;

    ghost present = { λ b t. absurd t };

    ghost shown = { λ b image h. absurd h };

    ghost told = { λ b image h. absurd h };

    ghost active = { λ b. (law.lawful b.cache.mind (D.state b.cache.main).holds (D.faults b.cache.main)).active };

    ghost root_named = { λ b t. absurd t };

    ghost root_is = { λ b. ((law.lawful b.cache.mind (D.state b.cache.main).holds (D.faults b.cache.main)).root_is, λ t. absurd t) };

    ghost root_linked = { λ b. (law.lawful b.cache.mind (D.state b.cache.main).holds (D.faults b.cache.main)).root_linked };

    ghost one_place = { λ b. mind.one_place (parts b.cache.mind (D.state b.cache.main).holds (D.faults b.cache.main)) };

    ghost super_stands = { λ b t. absurd t };

    ghost top_stands = { λ b t told. absurd told };

    ghost placed = { λ b image h. absurd h };

    ghost ranked = { λ b image h. absurd h };

    ghost few = { λ b image h. absurd h };

    ghost formed = { λ b image t at p h. absurd h };

    ghost one_spot = { λ b. mind.one_spot (parts b.cache.mind (D.state b.cache.main).holds (D.faults b.cache.main)) };

    ghost labelled = { λ b at p told. absurd told };

    ghost standing = { λ b at p told. absurd told };

    ghost within = { λ b. (law.lawful b.cache.mind (D.state b.cache.main).holds (D.faults b.cache.main)).within };

    ghost small = { λ b. (law.lawful b.cache.mind (D.state b.cache.main).holds (D.faults b.cache.main)).small };

    ghost spelled = { λ b. (law.lawful b.cache.mind (D.state b.cache.main).holds (D.faults b.cache.main)).spelled };

    ghost live = { λ b at told. absurd told };

    ghost falls = { λ b t at i below told. absurd told };

    ghost old_is_sure = { λ b t at _ _ _ _. mind.in_each (parts b.cache.mind (D.state b.cache.main).holds (D.faults b.cache.main)) at };

    ghost sure = { λ b at _. mind.in_each (parts b.cache.mind (D.state b.cache.main).holds (D.faults b.cache.main)) at };

    ghost in_place = { λ b at sealed doomed r image h. absurd h };

    ghost super_known = { λ b. mind.super_known (parts b.cache.mind (D.state b.cache.main).holds (D.faults b.cache.main)) };

    ghost one_doubt = { λ b. (law.lawful b.cache.mind (D.state b.cache.main).holds (D.faults b.cache.main)).one_doubt };

    ghost limited = { λ b image h. absurd h };

    ghost waits_in_use = { λ b. (law.lawful b.cache.mind (D.state b.cache.main).holds (D.faults b.cache.main)).waits_in_use };

    ghost waits_within = { λ b. (law.lawful b.cache.mind (D.state b.cache.main).holds (D.faults b.cache.main)).waits_within };

    ghost clears_entries = { λ b. (law.lawful b.cache.mind (D.state b.cache.main).holds (D.faults b.cache.main)).clears_entries };

    ghost clears_used = { λ b t. absurd t };

    ghost covers_told = { λ b at h. h };

    ghost none_queued = { λ b at q h. h };

    ghost one_stays = { λ b h. h };

    ghost enough = { λ b. (law.lawful b.cache.mind (D.state b.cache.main).holds (D.faults b.cache.main)).enough };

    ghost apart_hangs = { λ b image t at a h. absurd h };

    ghost instead_of = { λ b y x z t. absurd t };

    ghost keeps_at_once = { λ a. law.keeps_at_once _ };

    ghost keeps_joins = { λ a b c. law.keeps_joins _ _ _ };

    ghost keeps_all = { λ a b. law.keeps_all _ _ };
}
