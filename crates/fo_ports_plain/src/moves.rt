//! What the calls do to blocks in memory.
use crate::block::{PlainBlock, depth, ends, index_below, index_in, is_inner, leads_elsewhere};
use crate::home::Home;
use crate::links::{Joint, hang, put_link, set_block};
use crate::moment::Moment;
use crate::plain::PlainBlocks;
use crate::wait::{Wait, end_pair, used_pairs};
use fo_base::POINTERS;
use fo_crash::Slot;
use fo_image::Pointer;
use fo_ports::BlockError;

impl PlainBlocks {
    ghost use Rattle.std.specs.Prelude.{◌≡◌, ◌≢◌, ◌⊎◌, ◌+◌, ◌*◌, ◌^◌, ◌<◌, ℕ, true, cond, List, ◌++◌, ◌∷◌, [], length, slice_set, ◌≤◌, OnOk, IfErr};
    ghost use Rattle.fo_image.specs.declared.types.Pointer.TheVariants.{Local};
    ghost use Rattle.fo_image.specs.declared.types.Kind.TheVariants.{Dir};
    ghost use Rattle.fo_ports.specs.declared.error.BlockError.TheVariants.{Memory};
    ghost use Rattle.fo_crash.specs.Images.{target};
    ghost use Rattle.fo_crash.specs.Steps.{cleared};
    ghost use Rattle.fo_ports.specs.Blocks.{put_at, cost, slot_count, SlotFits, IsFormed, IsInner};
    ghost use Rattle.fo_ports_plain.specs.declared.block.PlainBlock.{PlainBlock};
    ghost use Rattle.fo_ports_plain.specs.declared.wait.Wait.{Wait};
    ghost use Rattle.fo_ports_plain.specs.Plain.{block_at, slot_of, index_below, is_active, pair_of, IsMade, Updates};
    ghost use Rattle.fo_ports_plain.specs.Sound.{Well};
    ghost use Rattle.fo_ports_plain.specs.Moves.{IsFree, Linking, MayLink, KeepsUse, EndsWaits, Takes, CountsOne};
    ghost use Rattle.fo_ports_plain.specs.Moments.{MayPass};
    ghost use Rattle.fo_ports_plain.specs.Parts.{parts};

    /// Puts a block in place of another.
    pub(crate) fn set(&mut self, at: u32, block: PlainBlock)
        requires block { at < length self.old.blocks.items }
        requires well { (new : List PlainBlock) → Updates at block self.old.blocks.items new → Well new self.old.made self.old.high self.old.root self.old.waits.items self.old.queued }
        ensures updates { Updates at block self.old.blocks.items self.new.blocks.items }
        ensures rest { parts self.new ≡ record (parts self.old) { blocks = self.new.blocks.items } }
    {
        set_block(&mut self.blocks, at, block);
    }

    /// Gives out the next block.
    pub(crate) fn make(&mut self, block: PlainBlock) -> u32
        requires spare { 0 < self.old.spare }
        requires well { (new : List PlainBlock) → Updates self.old.made block self.old.blocks.items new → Well new (self.old.made + 1) self.old.high self.old.root self.old.waits.items self.old.queued }
        ensures at { result ≡ self.old.made }
        ensures updates { Updates self.old.made block self.old.blocks.items self.new.blocks.items }
        ensures spare { self.new.spare + 1 ≡ self.old.spare }
        ensures rest { parts self.new ≡ record (parts self.old) { blocks = self.new.blocks.items; made = self.old.made + 1; spare = self.new.spare } }
    {
        let at = self.made;
        set_block(&mut self.blocks, at, block);
        self.made += 1;
        self.spare -= 1;
        at
    }

    /// Puts a slot that leads to no block of the device.
    pub(crate) fn set_slot(&mut self, at: u32, i: u32, slot: Slot)
        requires block { IsMade self.old.made at }
        requires slot { (i < 409) × (i < slot_count (block_at self.old.blocks.items at).place.kind) }
        requires nowhere { (b : ℕ) → target slot ≢ Local b }
        requires fits { SlotFits (block_at self.old.blocks.items at).place.kind i slot }
        requires used { KeepsUse self.old.waits.items at i slot }
        ensures updates { Updates at (record (block_at self.old.blocks.items at) { slots = slice_set (block_at self.old.blocks.items at).slots i slot }) self.old.blocks.items self.new.blocks.items }
        ensures here { slot_of (block_at self.new.blocks.items at) i ≡ slot }
        ensures rest { parts self.new ≡ record (parts self.old) { blocks = self.new.blocks.items } }
    {
        let block = self.blocks[at as usize].with_slot(i, slot);
        self.set(at, block);
    }

    /// Puts a slot that leads to a block.
    pub(crate) fn link(&mut self, at: u32, i: u32, slot: Slot, below: u32)
        requires slot { i < 409 }
        requires may { MayLink self.old.blocks.items self.old.made at i below slot }
        requires used { KeepsUse self.old.waits.items at i slot }
        ensures links { Linking at i below slot self.old.blocks.items self.new.blocks.items }
        ensures rest { parts self.new ≡ record (parts self.old) { blocks = self.new.blocks.items } }
    {
        let above = &self.blocks[at as usize];
        if !is_inner(above.place.kind) {
            self.link_entry(at, i, slot, below);
        } else if above.is_raised(i) {
            self.raise(at, i, slot, below);
        } else {
            self.link_inner(at, i, slot, below);
        }
    }

    /// Leads an entry to the top of its source, which hangs from it from now on.
    fn link_entry(&mut self, at: u32, i: u32, slot: Slot, below: u32)
        requires slot { i < 409 }
        requires may { MayLink self.old.blocks.items self.old.made at i below slot }
        requires used { KeepsUse self.old.waits.items at i slot }
        requires outer { IsInner (block_at self.old.blocks.items at).place.kind → ⊥ }
        ensures links { Linking at i below slot self.old.blocks.items self.new.blocks.items }
        ensures rest { parts self.new ≡ record (parts self.old) { blocks = self.new.blocks.items } }
    {
        let joint = self.joint(at, i, below);
        let home = Home {
            hangs: true,
            source: joint.source,
            index: index_in(&self.blocks[at as usize].place),
            slot: i,
        };
        hang(&mut self.blocks, joint.under, home);
        put_link(&mut self.blocks, at, i, slot, below, joint);
    }

    /// Raises a new top over a block, of whose source it is from now on.
    fn raise(&mut self, at: u32, i: u32, slot: Slot, below: u32)
        requires slot { i < 409 }
        requires may { MayLink self.old.blocks.items self.old.made at i below slot }
        requires used { KeepsUse self.old.waits.items at i slot }
        requires top { IsInner (block_at self.old.blocks.items at).place.kind × (i ≡ 0) × IsFree (block_at self.old.blocks.items at) }
        ensures links { Linking at i below slot self.old.blocks.items self.new.blocks.items }
        ensures rest { parts self.new ≡ record (parts self.old) { blocks = self.new.blocks.items } }
    {
        let origin = self.origin_over(below);
        let joint = self.joint(at, i, below).raised(origin);
        put_link(&mut self.blocks, at, i, slot, below, joint);
    }

    /// Leads a slot of a block of pointers to a block of its source, or to one that comes to be of it.
    fn link_inner(&mut self, at: u32, i: u32, slot: Slot, below: u32)
        requires slot { i < 409 }
        requires may { MayLink self.old.blocks.items self.old.made at i below slot }
        requires used { KeepsUse self.old.waits.items at i slot }
        requires inner { IsInner (block_at self.old.blocks.items at).place.kind }
        requires not_raised { i ≡ 0 → IsFree (block_at self.old.blocks.items at) → ⊥ }
        ensures links { Linking at i below slot self.old.blocks.items self.new.blocks.items }
        ensures rest { parts self.new ≡ record (parts self.old) { blocks = self.new.blocks.items } }
    {
        let joint = self.joint(at, i, below).inside();
        put_link(&mut self.blocks, at, i, slot, below, joint);
    }

    /// The index of the place below slot `i`, and the sources and the origin as they are.
    fn joint(&self, at: u32, i: u32, below: u32) -> Joint
        requires blocks { (at < length self.now.blocks.items) × (below < length self.now.blocks.items) }
        ensures index { (result.index ≡ index_below (block_at self.now.blocks.items at).place i) ⊎ ((2 ^ 64 ≤ index_below (block_at self.now.blocks.items at).place i) × (result.index ≡ (block_at self.now.blocks.items below).place.index)) }
        ensures sources { (result.under ≡ (block_at self.now.blocks.items below).source) × (result.source ≡ (block_at self.now.blocks.items at).source) × (result.origin ≡ (block_at self.now.blocks.items at).origin) }
    {
        let above = &self.blocks[at as usize];
        let child = &self.blocks[below as usize];
        Joint {
            index: index_below(&above.place, i, child.place.index),
            under: child.source,
            source: above.source,
            origin: above.origin,
        }
    }

    /// In whose place a new top over a block comes: in that of the block, or in whose place that one was to come.
    fn origin_over(&self, below: u32) -> u32
        requires { below < length self.now.blocks.items }
        ensures { result ≡ cond (block_at self.now.blocks.items below).apart (block_at self.now.blocks.items below).origin below }
    {
        let child = &self.blocks[below as usize];
        if child.apart { child.origin } else { below }
    }

    /// Marks the block to which a slot leads as one that is taken out, if the slot that comes in its place leads elsewhere.
    pub(crate) fn take_out(&mut self, at: u32, i: u32, slot: &Slot)
        requires block { at < length self.old.blocks.items }
        requires slots { i < 409 }
        ensures takes { Takes (slot_of (block_at self.old.blocks.items at) i) slot.now self.old.blocks.items self.new.blocks.items }
        ensures queued { (self.old.queued ≤ self.new.queued) × ((x : ℕ) → target (slot_of (block_at self.old.blocks.items at) i) ≡ Local x → target slot.now ≢ Local x → CountsOne self.old.queued self.new.queued) }
        ensures rest { parts self.new ≡ record (parts self.old) { blocks = self.new.blocks.items; queued = self.new.queued } }
    {
        let old = self.blocks[at as usize].slots[i as usize].target();
        match old {
            Pointer::Local(x) if leads_elsewhere(slot, x) => {
                let block = self.blocks[x as usize].taken_out();
                set_block(&mut self.blocks, x, block);
                self.queued = self.queued.saturating_add(1);
            }
            _ => {}
        }
    }

    /// Marks a root block as one that is to be closed alone.
    pub(crate) fn close_alone(&mut self, at: u32)
        requires { at < self.old.made }
        ensures updates { Updates at (record (block_at self.old.blocks.items at) { retired = true }) self.old.blocks.items self.new.blocks.items }
        ensures queued { (self.old.queued ≤ self.new.queued) × CountsOne self.old.queued self.new.queued }
        ensures rest { parts self.new ≡ record (parts self.old) { blocks = self.new.blocks.items; queued = self.new.queued } }
    {
        let block = self.blocks[at as usize].closed_alone();
        self.queued = self.queued.saturating_add(1);
        self.set(at, block);
    }

    /// Puts bytes.
    pub(crate) fn set_bytes(&mut self, at: u32, from: u32, bytes: &[u8])
        requires block { IsMade self.old.made at }
        requires within { from + length bytes.now ≤ length ((block_at self.old.blocks.items at).bytes) }
        requires formed { IsFormed (block_at self.old.blocks.items at).place.kind (block_at self.old.blocks.items at).place.rank (put_at from bytes.now ((block_at self.old.blocks.items at).bytes)) }
        ensures updates { Updates at (record (block_at self.old.blocks.items at) { bytes = put_at from bytes.now ((block_at self.old.blocks.items at).bytes) }) self.old.blocks.items self.new.blocks.items }
        ensures rest { parts self.new ≡ record (parts self.old) { blocks = self.new.blocks.items } }
    {
        let block = self.blocks[at as usize].with_bytes(from, bytes);
        self.set(at, block);
    }

    /// Block `at` waits for the pairs of entries of a block that was made.
    pub(crate) fn add_wait(&mut self, at: u32, on: u32)
        requires made { on < self.old.made }
        requires entries { (block_at self.old.blocks.items on).place.kind ≡ Dir 0 }
        requires room { 0 < self.old.room }
        ensures room { self.new.room + 1 ≡ self.old.room }
        ensures waits { (wait : Wait) × (self.new.waits.items ≡ self.old.waits.items ++ wait ∷ []) × (wait.at ≡ at) × (wait.on ≡ on) × ((k : ℕ) → pair_of wait k ≡ is_active (slot_of (block_at self.old.blocks.items on) (2 * k))) }
        ensures rest { parts self.new ≡ record (parts self.old) { waits = self.new.waits.items; room = self.new.room } }
    {
        let pairs = used_pairs(&self.blocks[on as usize].slots);
        self.room -= 1;
        self.waits.push_reserved(Wait { at, on, pairs });
    }

    /// No block waits any more for the pair of entries of which this one is the first.
    pub(crate) fn end_waits(&mut self, on: u32, i: u32)
        requires { i < 409 }
        ensures waits { EndsWaits on i self.old.waits.items self.new.waits.items }
        ensures rest { parts self.new ≡ record (parts self.old) { waits = self.new.waits.items } }
    {
        if i % 2 == 0 {
            end_pair(&mut self.waits, on, i / 2);
        }
    }

    /// How many removals a put takes.
    pub(crate) fn cost(&self, at: u32, i: u32, slot: &Slot, room: u32) -> u32
        requires block { at < length self.now.blocks.items }
        requires slots { i < 409 }
        requires room { cost (slot_of (block_at self.now.blocks.items at) i) slot.now ≤ room }
        ensures { result ≡ cost (slot_of (block_at self.now.blocks.items at) i) slot.now }
    {
        let old = &self.blocks[at as usize].slots[i as usize];
        let levels = depth(old).saturating_sub(depth(slot));
        POINTERS as u32 * levels + ends(&old.target(), &slot.target())
    }

    /// A moment passes, where moments are still to be kept and there is memory for it.
    pub(crate) fn pass(&mut self)
        ensures seen { MayPass self.old.blocks.items self.old.seen.items self.new.seen.items }
        ensures rest { parts self.new ≡ record (parts self.old) { seen = self.new.seen.items } }
    {
        if self.watched == 0 {
            return;
        }
        let copy = Vec::from_slice(*self.blocks.allocator(), &self.blocks);
        if let Ok(blocks) = copy {
            if self.seen.insert(0, Moment { blocks }).is_ok() {
                self.watched -= 1;
            }
        }
    }

    /// Ends all waits, since all is settled, and makes room for so many removals and waits.
    pub(crate) fn make_room(&mut self, removals: u32) -> Result<(), BlockError>
        ensures room { OnOk result (removals ≤ self.new.room) }
        ensures memory { IfErr result (λ e. e ≡ Memory) }
        ensures rest { parts self.new ≡ record (parts self.old) { waits = []; room = self.new.room } }
    {
        self.waits.clear();
        if self.room < removals {
            if self.waits.reserve(removals as usize).is_err() {
                return Err(BlockError::Memory);
            }
            self.room = removals;
        }
        Ok(())
    }
}
