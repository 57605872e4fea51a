//! Blocks that tell nothing.
ghost use Rattle.std.specs.Prelude.{◌≡◌, ◌≢◌, ◌⊎◌, ◌↔◌, ◌+◌, ◌-◌, ◌*◌, ◌^◌, ◌<◌, ◌≤◌, ℕ, ◌∷◌, ◌++◌, [], Bool, true, false, Some, None, length, IsTrue, IfOk, OnOk};
ghost use Rattle.std.specs.List.{filter};
ghost use Rattle.std.specs.Vec.{vec_len, vec_capacity};
ghost use Rattle.fo_image.specs.declared.types.Kind.{Kind};
ghost use Rattle.fo_image.specs.declared.types.Kind.TheVariants.{Dir};
ghost use Rattle.fo_image.specs.declared.types.Pointer.TheVariants.{Local};
ghost use Rattle.fo_image.specs.declared.types.State.TheVariants.{Live};
ghost use Rattle.fo_crash.specs.Images.{SameContent, depth_of, target};
ghost use Rattle.fo_ports.specs.Blocks.{slot_count, IsInner, IsLevel, IsRanked, MayPut, ReadsSlots, SlotFits, blank, cost, ends, put_at, zero_bytes};
ghost use Rattle.fo_slots.specs.Read.{read, PutsInto};
ghost use Rattle.test_blocks.specs.declared.silent.Block.{Block};
ghost use Rattle.test_blocks.specs.declared.silent.Wait.{Wait};
ghost use Rattle.test_blocks.specs.Silent.{AddsPairs, Gets, Good, HasZeros, IsMade, IsTopBlock, Sound, Waiting, Updates, Listed, block_at, content_of, is_active, is_other, memory};
ghost use Rattle.test_blocks.specs.SilentProps.{sound_prop, waiting_prop};

use fo_base::BLOCK;
use fo_crash::Slot;
use fo_image::{Kind, Label, Pointer, State};
use fo_ports::BlockError;
use fo_slots::{
    is_formed, put_bytes_into, put_slot_into, read_is_read, slot_count, slot_of, spelled_is_meant,
};
use std::alloc::Global;

const PAIRS: usize = 205;

/// A block that was given out, with its bytes as they were last put. `apart`: it was put into no slot yet, and is to come in the place
/// of block `origin`.
#[derive(Clone, Copy)]
pub struct Block {
    pub(crate) label: Label,
    pub(crate) apart: bool,
    pub(crate) origin: Option<u32>,
    pub(crate) bytes: [u8; BLOCK],
}

/// What is put into block `at` waits for this pair of entries of block `on`.
#[derive(Clone, Copy, Drop)]
pub struct Wait {
    pub(crate) at: u32,
    pub(crate) on: u32,
    pub(crate) pair: u32,
}

/// Blocks over a device that tells nothing, and on which nothing was ever written.
///
/// What was given out is in memory for good, pinned, sealed and never written: so `get` has these, and any other is damaged. No image is left,
/// nothing stands, nothing is to be closed, and no slot waits to be cleared: a removal clears at once, and all is settled always. Removals
/// are counted as queued and stay so, as none is ever done.
/// Blocks are given out by address up to `count`, whose room is taken at the start; the root has the label of a leaf of entries. Pairs
/// that are waited for stand in a list until they are removed, or until room is made. The arena reads differently each time: every
/// other fetch finds nothing (`lacks`), and the others find zeros.
#[derive(Drop)]
pub struct CarelessBlocks {
    pub(crate) blocks: Vec<Block>,
    pub(crate) waits: Vec<Wait>,
    pub(crate) count: u32,
    pub(crate) high: u32,
    pub(crate) next: u32,
    pub(crate) room: u32,
    pub(crate) queued: u32,
    pub(crate) lacks: bool,
    ghost begun: { 2 < length blocks.items },
    ghost few: { length blocks.items ≤ count },
    ghost small: { count < 2 ^ 32 - 1 },
    ghost spared: { count ≤ vec_capacity blocks },
    ghost roomy: { vec_len waits + 205 * room ≤ vec_capacity waits },
    ghost numbered: { next ≤ 2 ^ 30 },
    ghost sound: { Sound count blocks.items } by { sound_prop count blocks.items },
    ghost waiting: { Waiting blocks.items waits.items } by { waiting_prop blocks.items waits.items },
}

impl Block {
    /// A copy of the block, of this epoch, to come in its place.
    pub(crate) fn copied(self, at: u32, epoch: u32) -> Block
        ensures { result ≡ record self { label = record self.label { state = Live; epoch = epoch; closing = 2 ^ 32 - 1 }; apart = true; origin = Some at } }
    {
        let mut block = self;
        block.label.state = State::Live;
        block.label.epoch = epoch;
        block.label.closing = u32::MAX;
        block.apart = true;
        block.origin = Some(at);
        block
    }

    /// The block with other bytes.
    fn with_bytes(self, from: u32, bytes: &[u8]) -> Block
        requires within { from + length bytes.now ≤ 8192 }
        requires place { MayPut self.label.kind from (from + length bytes.now) }
        ensures is { result ≡ record self { bytes = put_at from bytes.now self.bytes } }
        ensures same { (i : ℕ) → (read self.label.kind result.bytes).slot i ≡ (content_of self).slot i }
        ensures slots { ReadsSlots self.label.kind (content_of self) self.bytes → ReadsSlots self.label.kind (read self.label.kind result.bytes) result.bytes }
        ensures long { length result.bytes ≡ 8192 }
    {
        let mut block = self;
        put_bytes_into(block.label.kind, from as usize, bytes, &mut block.bytes);
        block
    }

    /// The block with another slot, to come in the place of another.
    fn with_slot(self, i: u32, slot: &Slot, origin: Option<u32>) -> Block
        requires count { i < slot_count self.label.kind }
        requires fits { SlotFits self.label.kind i slot.now }
        ensures is { result ≡ record self { bytes = result.bytes; origin = origin } }
        ensures puts { PutsInto self.label.kind i slot.now self.bytes result.bytes }
        ensures long { length result.bytes ≡ 8192 }
    {
        let mut block = self;
        put_slot_into(block.label.kind, i as usize, slot, &mut block.bytes);
        block.origin = origin;
        block
    }

    /// The block with the label of this epoch.
    fn of_epoch(self, epoch: u32) -> Block
        ensures { result ≡ record self { label = record self.label { epoch = epoch } } }
    {
        let mut block = self;
        block.label.epoch = epoch;
        block
    }

    /// The block with other marks.
    fn marked(self, apart: bool, origin: Option<u32>) -> Block
        ensures { result ≡ record self { apart = apart; origin = origin } }
    {
        let mut block = self;
        block.apart = apart;
        block.origin = origin;
        block
    }
}

/// Puts one block in place of another.
fn set_block(blocks: &mut Vec<Block>, at: u32, block: Block)
    requires { at < length blocks.old.items }
    ensures updates { Updates at block blocks.old.items blocks.new.items }
    ensures size { (length blocks.new.items ≡ length blocks.old.items) × (vec_len blocks.new ≡ vec_len blocks.old) × (vec_capacity blocks.new ≡ vec_capacity blocks.old) }
{
    blocks[at as usize] = block;
}

/// Whether the slot is an entry in use.
fn is_active(slot: &Slot) -> bool
    ensures { result ≡ is_active slot.now }
{
    match slot {
        Slot::Entry(entry) => entry.active,
        Slot::Pointer(_) | Slot::Prev(_, _) => false,
    }
}

/// Whether a block of this kind is a block of pointers.
fn is_inner(kind: Kind) -> bool
    ensures { IsTrue result ↔ IsInner kind }
{
    match kind {
        Kind::Data(level) | Kind::Dir(level) => 0 < level,
        Kind::Root => false,
    }
}

/// The depth of the source that an entry names.
fn depth(slot: &Slot) -> u32
    ensures { result ≡ depth_of slot.now }
{
    match slot {
        Slot::Entry(entry) => entry.depth as u32,
        Slot::Pointer(_) | Slot::Prev(_, _) => 0,
    }
}

/// How many removals it takes to lead a slot from one pointer to another, in the same source.
fn ends(old: &Pointer, new: &Pointer) -> u32
    ensures { result ≡ ends old.now new.now }
{
    match (old, new) {
        (Pointer::Local(_), Pointer::Local(_)) => 0,
        (Pointer::Local(_), _) => 1,
        _ => 0,
    }
}

/// How many removals are queued once there are so many more, up to 2^32 - 1.
fn counted(queued: u32, removals: u32) -> u32
    ensures { (queued ≤ result) × (0 < removals → (queued < result) ⊎ (2 ^ 32 - 1 ≤ result)) }
{
    queued.saturating_add(removals)
}

/// How many removals a put takes.
pub(crate) fn cost(old: &Slot, new: &Slot, room: u32) -> u32
    requires { cost old.now new.now ≤ room }
    ensures { result ≡ cost old.now new.now }
{
    409 * depth(old).saturating_sub(depth(new)) + ends(&old.target(), &new.target())
}

/// Whether no slot of a block leads to a block.
fn leads_nowhere(kind: Kind, bytes: &[u8]) -> bool
    requires length { length bytes.now ≡ 8192 }
    requires slots { ReadsSlots kind (read kind bytes.now) bytes.now }
    ensures { IsTrue result ↔ ((j x : ℕ) → target ((read kind bytes.now).slot j) ≢ Local x) }
{
    for j in 0..slot_count(kind) {
        if let Pointer::Local(_) = slot_of(kind, bytes, j).target() {
            return false;
        }
    }
    true
}

/// Whether a block that is put into slot `i` has this block raised over it.
fn is_top(block: &Block, i: u32) -> bool
    requires long { length block.now.bytes ≡ 8192 }
    requires slots { ReadsSlots block.now.label.kind (content_of block.now) block.now.bytes }
    ensures { IsTrue result ↔ IsTopBlock block.now i }
{
    if i != 0 || !block.apart {
        return false;
    }
    if block.origin.is_some() || !is_inner(block.label.kind) {
        return false;
    }
    leads_nowhere(block.label.kind, &block.bytes)
}

fn is_kind(kind: Kind, other: Kind) -> bool
    ensures { IsTrue result ↔ (kind ≡ other) }
{
    kind == other
}

/// Copies a block of this kind and rank, where its bytes are of the format.
fn copy_formed(block: &Block, kind: Kind, rank: u32, into: &mut [u8]) -> bool
    requires length { length into.old ≡ 8192 }
    requires long { length block.now.bytes ≡ 8192 }
    requires slots { ReadsSlots block.now.label.kind (content_of block.now) block.now.bytes }
    requires level { IsLevel block.now.label.kind }
    requires zeros { HasZeros block.now.label.kind block.now.bytes }
    ensures copied { result ≡ true → Gets kind rank block.now into.new }
    ensures again { block.now.label.kind ≡ kind → IsRanked kind rank (content_of block.now).bytes → result ≡ true }
    ensures nothing { result ≡ false → into.new ≡ into.old }
{
    if !is_kind(block.label.kind, kind) {
        return false;
    }
    if !is_formed(kind, rank, &block.bytes) {
        return false;
    }
    read_is_read();
    into.copy_from_slice(&block.bytes);
    true
}

/// Whether the first entry of a pair is in use.
fn is_pair_used(kind: Kind, bytes: &[u8], pair: usize) -> bool
    requires length { length bytes.now ≡ 8192 }
    requires slots { ReadsSlots kind (read kind bytes.now) bytes.now }
    requires few { pair < 2 ^ 32 }
    ensures { result ≡ is_active ((read kind bytes.now).slot (2 * pair)) }
{
    if slot_count(kind) <= 2 * pair {
        return false;
    }
    is_active(&slot_of(kind, bytes, 2 * pair))
}

/// Block `at` waits for this pair of a block, where its first entry is in use.
fn add_pair(waits: &mut Vec<Wait>, wait: Wait, used: bool)
    requires { vec_len waits.old < vec_capacity waits.old }
    ensures still { (a o k : ℕ) → Listed waits.old.items a o k → Listed waits.new.items a o k }
    ensures here { used ≡ true → Listed waits.new.items wait.at wait.on wait.pair }
    ensures only { (a o k : ℕ) → Listed waits.new.items a o k → Listed waits.old.items a o k ⊎ ((wait.at ≡ a) × (wait.on ≡ o) × (wait.pair ≡ k) × (used ≡ true)) }
    ensures room { (vec_len waits.new ≤ vec_len waits.old + 1) × (vec_capacity waits.new ≡ vec_capacity waits.old) }
{
    if used {
        waits.push_reserved(wait);
    }
}

/// Block `at` waits for each pair of a block whose first entry is in use.
fn add_pairs(waits: &mut Vec<Wait>, at: u32, on: u32, kind: Kind, bytes: &[u8])
    requires length { length bytes.now ≡ 8192 }
    requires slots { ReadsSlots kind (read kind bytes.now) bytes.now }
    requires room { vec_len waits.old + 205 ≤ vec_capacity waits.old }
    ensures adds { AddsPairs at on kind bytes.now 205 waits.old.items waits.new.items }
    ensures room { (vec_len waits.new ≤ vec_len waits.old + 205) × (vec_capacity waits.new ≡ vec_capacity waits.old) }
{
    for pair in 0..PAIRS {
        let used = is_pair_used(kind, bytes, pair);
        let pair = pair as u32;
        add_pair(waits, Wait { at, on, pair }, used);
    }
}

/// The waits but those for this pair of a block.
fn drop_pair(waits: &mut Vec<Wait>, on: u32, pair: u32)
    ensures items { waits.new.items ≡ filter (is_other on pair) waits.old.items }
    ensures room { (vec_len waits.new ≤ vec_len waits.old) × (vec_capacity waits.new ≡ vec_capacity waits.old) }
{
    waits.retain(|w| w.on != on || w.pair != pair);
}

/// No block waits any more for this pair of a block.
fn end_pair(waits: &mut Vec<Wait>, on: u32, pair: u32)
    ensures still { (a o k : ℕ) → Listed waits.old.items a o k → ((o ≡ on) × (k ≡ pair)) ⊎ Listed waits.new.items a o k }
    ensures only { (a o k : ℕ) → Listed waits.new.items a o k → Listed waits.old.items a o k × (((o ≡ on) × (k ≡ pair)) → ⊥) }
    ensures room { (vec_len waits.new ≤ vec_len waits.old) × (vec_capacity waits.new ≡ vec_capacity waits.old) }
{
    drop_pair(waits, on, pair);
}

impl CarelessBlocks {
    ghost use Rattle.std.specs.Prelude.{◌≢◌, IfErr, OnErr};
    ghost use Rattle.fo_crash.specs.Steps.{PutsSlot, PutsBytes};
    ghost use Rattle.fo_ports.specs.declared.error.BlockError.TheVariants.{Memory};
    ghost use Rattle.test_blocks.specs.Silent.{BeginsEpoch, IsBegun, IsTop, IsOver, Instead, IsData, Joins, Rises, SameBytes, SameMarks};
    ghost use Rattle.test_blocks.specs.SilentParts.{parts};

    /// Blocks of a device with so many addresses; 3 and more may be given out.
    pub fn new(alloc: Global, count: u32) -> Result<CarelessBlocks, BlockError>
        requires few { 2 < count }
        requires small { count < 2 ^ 32 - 1 }
        ensures begins { IfOk result (λ b. (b.count ≡ count) × (b.high ≡ 1)) }
        ensures none { IfOk result (λ b. (y x : ℕ) → Instead b.blocks.items y x → ⊥) }
        ensures root { IfOk result (λ b. IsBegun b.blocks.items) }
    {
        let Ok(mut blocks) = Vec::with_capacity(alloc, count as usize) else {
            return Err(BlockError::Memory);
        };
        blocks.push_reserved(unused());
        blocks.push_reserved(unused());
        blocks.push_reserved(root());
        Ok(CarelessBlocks {
            blocks,
            waits: Vec::new(alloc),
            count,
            high: 1,
            next: 1,
            room: 0,
            queued: 0,
            lacks: false,
        })
    }

    /// Puts one block in place of another.
    fn set(&mut self, at: u32, block: Block)
        requires there { at < length self.old.blocks.items }
        requires good { Good self.old.count block.label.kind block.bytes }
        requires used { (a k : ℕ) → Listed self.old.waits.items a at k → is_active ((content_of block).slot (2 * k)) ≡ true }
        ensures updates { Updates at block self.old.blocks.items self.new.blocks.items }
        ensures size { length self.new.blocks.items ≡ length self.old.blocks.items }
        ensures rest { parts self.new ≡ record (parts self.old) { blocks = self.new.blocks.items } }
    {
        set_block(&mut self.blocks, at, block);
    }

    /// A block, whose address was given out.
    fn block(&self, at: u32) -> Block
        requires { at < length self.now.blocks.items }
        ensures is { result ≡ block_at self.now.blocks.items at }
        ensures good { Good self.now.count result.label.kind result.bytes }
    {
        self.blocks[at as usize]
    }

    /// Copies a block of this kind and rank that was given out, where its bytes are of the format.
    pub(crate) fn copy_into(&self, at: u32, kind: Kind, rank: u32, into: &mut [u8]) -> bool
        requires { length into.old ≡ 8192 }
        ensures copied { result ≡ true → IsMade self.now.blocks.items at × Gets kind rank (block_at self.now.blocks.items at) into.new }
        ensures again { IsMade self.now.blocks.items at → (block_at self.now.blocks.items at).label.kind ≡ kind → IsRanked kind rank (memory self.now.blocks.items at).bytes → result ≡ true }
        ensures nothing { result ≡ false → into.new ≡ into.old }
    {
        if at <= 1 || self.blocks.len() <= at as usize {
            return false;
        }
        let block = self.block(at);
        copy_formed(&block, kind, rank, into)
    }

    /// Whether a block was given out with a label of this kind.
    pub(crate) fn has_kind(&self, at: u32, kind: Kind) -> bool
        ensures { IsTrue result ↔ (IsMade self.now.blocks.items at × ((block_at self.now.blocks.items at).label.kind ≡ kind)) }
    {
        if at <= 1 || self.blocks.len() <= at as usize {
            return false;
        }
        is_kind(self.block(at).label.kind, kind)
    }

    /// Gives out a block.
    pub(crate) fn make(&mut self, block: Block) -> u32
        requires spare { length self.old.blocks.items < self.old.count }
        requires good { Good self.old.count block.label.kind block.bytes }
        ensures at { result ≡ length self.old.blocks.items }
        ensures blocks { self.new.blocks.items ≡ self.old.blocks.items ++ block ∷ [] }
        ensures rest { parts self.new ≡ record (parts self.old) { blocks = self.new.blocks.items } }
    {
        let at = self.blocks.len() as u32;
        self.blocks.push_reserved(block);
        at
    }

    /// A copy of a block, of this epoch.
    pub(crate) fn copy_of(&self, at: u32) -> Block
        requires { at < length self.now.blocks.items }
        ensures is { result ≡ record (block_at self.now.blocks.items at) { label = record (block_at self.now.blocks.items at).label { state = Live; epoch = self.now.high; closing = 2 ^ 32 - 1 }; apart = true; origin = Some at } }
        ensures good { Good self.now.count result.label.kind result.bytes }
    {
        self.block(at).copied(at, self.high)
    }

    /// A slot of a block that was given out.
    pub(crate) fn slot_in(&self, at: u32, i: u32) -> Slot
        requires there { at < length self.now.blocks.items }
        requires slots { i < slot_count (block_at self.now.blocks.items at).label.kind }
        ensures { result ≡ (memory self.now.blocks.items at).slot i }
    {
        let block = self.block(at);
        slot_of(block.label.kind, &block.bytes, i as usize)
    }

    /// Puts bytes.
    pub(crate) fn set_bytes(&mut self, at: u32, from: u32, bytes: &[u8])
        requires there { at < length self.old.blocks.items }
        requires within { from + length bytes.now ≤ length (memory self.old.blocks.items at).bytes }
        requires place { MayPut (block_at self.old.blocks.items at).label.kind from (from + length bytes.now) }
        ensures puts { PutsBytes at (put_at from bytes.now (memory self.old.blocks.items at).bytes) (memory self.old.blocks.items) (memory self.new.blocks.items) }
        ensures marks { SameMarks self.old.blocks.items self.new.blocks.items }
        ensures rest { parts self.new ≡ record (parts self.old) { blocks = self.new.blocks.items } }
    {
        let block = self.block(at).with_bytes(from, bytes);
        self.set(at, block);
    }

    /// Whether a block that is put into slot `i` has this one raised over it.
    fn is_top(&self, at: u32, i: u32) -> bool
        requires { at < length self.now.blocks.items }
        ensures { IsTrue result ↔ IsTop self.now.blocks.items at i }
    {
        let block = self.block(at);
        is_top(&block, i)
    }

    /// What a block comes in the place of that is raised over this one.
    fn origin_over(&self, below: u32) -> Option<u32>
        ensures { (x : ℕ) → (result ≡ Some x) ↔ IsOver self.now.blocks.items below x }
    {
        if self.blocks.len() <= below as usize {
            return Some(below);
        }
        let block = self.block(below);
        if block.apart {
            return block.origin;
        }
        Some(below)
    }

    /// What a block comes in the place of once a slot is put into it.
    fn origin_with(&self, at: u32, i: u32, slot: &Slot) -> Option<u32>
        requires { at < length self.now.blocks.items }
        ensures { Rises at i slot.now self.now.blocks.items result }
    {
        if let Pointer::Local(below) = slot.target() {
            if self.is_top(at, i) {
                return self.origin_over(below);
            }
        }
        self.block(at).origin
    }

    /// A block with a slot that is put into it.
    fn linked(&self, at: u32, i: u32, slot: &Slot) -> Block
        requires there { at < length self.now.blocks.items }
        requires count { i < slot_count (block_at self.now.blocks.items at).label.kind }
        requires fits { SlotFits (block_at self.now.blocks.items at).label.kind i slot.now }
        requires leads { (b : ℕ) → target slot.now ≡ Local b → IsData self.now.count b }
        ensures same { (result.label ≡ (block_at self.now.blocks.items at).label) × (result.apart ≡ (block_at self.now.blocks.items at).apart) }
        ensures good { Good self.now.count result.label.kind result.bytes }
        ensures puts { PutsInto (block_at self.now.blocks.items at).label.kind i slot.now (block_at self.now.blocks.items at).bytes result.bytes }
        ensures rises { Rises at i slot.now self.now.blocks.items result.origin }
    {
        let origin = self.origin_with(at, i, slot);
        self.block(at).with_slot(i, slot, origin)
    }

    /// A block is apart no more, where it was given out.
    fn unmark(&mut self, below: u32)
        ensures under { ((block_at self.new.blocks.items below).apart ≡ false) × ((block_at self.new.blocks.items below).origin ≡ None) }
        ensures others { (b : ℕ) → b ≢ below → block_at self.new.blocks.items b ≡ block_at self.old.blocks.items b }
        ensures same { SameBytes self.old.blocks.items self.new.blocks.items }
        ensures rest { parts self.new ≡ record (parts self.old) { blocks = self.new.blocks.items } }
    {
        if self.blocks.len() <= below as usize {
            return;
        }
        let block = self.block(below).marked(false, None);
        self.set(below, block);
    }

    /// What a slot leads to is apart no more.
    fn unmark_below(&mut self, slot: &Slot)
        ensures under { (b : ℕ) → target slot.now ≡ Local b → ((block_at self.new.blocks.items b).apart ≡ false) × ((block_at self.new.blocks.items b).origin ≡ None) }
        ensures others { (b : ℕ) → target slot.now ≢ Local b → block_at self.new.blocks.items b ≡ block_at self.old.blocks.items b }
        ensures same { SameBytes self.old.blocks.items self.new.blocks.items }
        ensures rest { parts self.new ≡ record (parts self.old) { blocks = self.new.blocks.items } }
    {
        let Pointer::Local(below) = slot.target() else {
            return;
        };
        self.unmark(below);
    }

    /// Puts a slot, which keeps the use of an entry that is waited for, and marks what it leads to.
    pub(crate) fn link(&mut self, at: u32, i: u32, slot: &Slot)
        requires there { at < length self.old.blocks.items }
        requires count { i < slot_count (block_at self.old.blocks.items at).label.kind }
        requires fits { SlotFits (block_at self.old.blocks.items at).label.kind i slot.now }
        requires leads { (b : ℕ) → target slot.now ≡ Local b → IsData self.old.count b }
        requires other { target slot.now ≢ Local at }
        requires used { (a k : ℕ) → Listed self.old.waits.items a at k → i ≡ 2 * k → is_active slot.now ≡ true }
        ensures joins { Joins at i slot.now self.old.blocks.items self.new.blocks.items }
        ensures puts { PutsSlot at i slot.now (memory self.old.blocks.items) (memory self.new.blocks.items) }
        ensures rest { parts self.new ≡ record (parts self.old) { blocks = self.new.blocks.items } }
    {
        let block = self.linked(at, i, slot);
        self.set(at, block);
        self.unmark_below(slot);
    }

    /// No block waits any more for the pair of entries of which this one is the first.
    pub(crate) fn end_waits(&mut self, on: u32, i: u32)
        ensures still { (a o k : ℕ) → Listed self.old.waits.items a o k → ((o ≡ on) × (i ≡ 2 * k)) ⊎ Listed self.new.waits.items a o k }
        ensures only { (a o k : ℕ) → Listed self.new.waits.items a o k → Listed self.old.waits.items a o k × (((o ≡ on) × (i ≡ 2 * k)) → ⊥) }
        ensures rest { parts self.new ≡ record (parts self.old) { waits = self.new.waits.items } }
    {
        if i % 2 == 0 {
            end_pair(&mut self.waits, on, i / 2);
        }
    }

    /// Block `at` waits for the pairs in use of another, where that was given out.
    pub(crate) fn add_wait(&mut self, at: u32, on: u32)
        requires room { 0 < self.old.room }
        ensures room { self.new.room + 1 ≡ self.old.room }
        ensures still { (a o k : ℕ) → Listed self.old.waits.items a o k → Listed self.new.waits.items a o k }
        ensures each { (k : ℕ) → is_active ((memory self.old.blocks.items on).slot (2 * k)) ≡ true → Listed self.new.waits.items at on k }
        ensures only { (a o k : ℕ) → Listed self.new.waits.items a o k → Listed self.old.waits.items a o k ⊎ (a ≡ at) }
        ensures rest { parts self.new ≡ record (parts self.old) { waits = self.new.waits.items; room = self.new.room } }
    {
        self.room -= 1;
        if (on as usize) < self.blocks.len() {
            let block = self.block(on);
            add_pairs(&mut self.waits, at, on, block.label.kind, &block.bytes);
        }
    }

    /// Takes room for removals, which are queued.
    pub(crate) fn take_room(&mut self, removals: u32)
        requires { removals ≤ self.old.room }
        ensures room { self.new.room + removals ≡ self.old.room }
        ensures more { self.old.queued ≤ self.new.queued }
        ensures some { 0 < removals → (self.old.queued < self.new.queued) ⊎ (2 ^ 32 - 1 ≤ self.new.queued) }
        ensures rest { parts self.new ≡ record (parts self.old) { room = self.new.room; queued = self.new.queued } }
    {
        self.room -= removals;
        self.queued = counted(self.queued, removals);
    }

    /// Ends all waits, since all is settled, and makes room for so many removals and waits.
    pub(crate) fn make_room(&mut self, removals: u32) -> Result<(), BlockError>
        ensures room { OnOk result (removals ≤ self.new.room) }
        ensures memory { IfErr result (λ e. e ≡ Memory) }
        ensures rest { parts self.new ≡ record (parts self.old) { waits = []; room = self.new.room } }
    {
        self.waits.clear();
        self.room = 0;
        if self.waits.reserve(PAIRS * removals as usize).is_err() {
            return Err(BlockError::Memory);
        }
        self.room = removals;
        Ok(())
    }

    /// Begins an epoch: the root block is of it, and what was given out is older now.
    pub fn begin_epoch(&mut self)
        requires { self.old.high < 2 ^ 31 - 1 }
        ensures begins { BeginsEpoch (parts self.old) (parts self.new) }
        ensures count { self.new.count ≡ self.old.count }
    {
        self.high += 1;
        let root = self.block(2).of_epoch(self.high);
        self.set(2, root);
    }
}

/// A block that is never given out.
fn unused() -> Block
    ensures good { (count : ℕ) → Good count result.label.kind result.bytes }
    ensures origin { result.origin ≡ None }
{
    blank_block(Kind::Data(0), 0, 0)
}

/// The root block, a leaf of entries of which none is in use.
fn root() -> Block
    ensures good { (count : ℕ) → Good count result.label.kind result.bytes }
    ensures origin { result.origin ≡ None }
    ensures label { result.label ≡ record { state = Live; kind = Dir 0; tag = 1; epoch = 1; closing = 2 ^ 32 - 1 } }
    ensures content { SameContent (content_of result) (blank (Dir 0)) }
{
    blank_block(Kind::Dir(0), 1, 1)
}

/// The bytes of a block of zeros.
pub(crate) fn no_bytes() -> [u8; BLOCK]
    ensures { result ≡ zero_bytes }
{
    [0; BLOCK]
}

/// A block of zeros.
pub(crate) fn blank_block(kind: Kind, tag: u32, epoch: u32) -> Block
    requires { IsLevel kind }
    ensures label { result.label ≡ record { state = Live; kind = kind; tag = tag; epoch = epoch; closing = 2 ^ 32 - 1 } }
    ensures marks { (result.apart ≡ true) × (result.origin ≡ None) }
    ensures content { SameContent (content_of result) (blank kind) }
    ensures good { (count : ℕ) → Good count result.label.kind result.bytes }
{
    spelled_is_meant();
    Block {
        label: Label {
            state: State::Live,
            kind,
            tag,
            epoch,
            closing: u32::MAX,
        },
        apart: true,
        origin: None,
        bytes: no_bytes(),
    }
}
