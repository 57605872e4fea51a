//! Blocks in memory alone: every image is what memory has.
ghost use Rattle.std.specs.Prelude.{◌≡◌, ◌≢◌, ◌+◌, ◌-◌, ◌^◌, ◌<◌, ◌≤◌, ℕ, ◌∷◌, Some, false, true, cond, length, IfOk, OnOk, OnErr};
ghost use Rattle.std.specs.Vec.{vec_len, vec_capacity};
ghost use Rattle.fo_crash.specs.Places.{root_place};
ghost use Rattle.fo_image.specs.declared.types.Pointer.TheVariants.{Nil, Local};
ghost use Rattle.fo_crash.specs.declared.slot.Slot.TheVariants.{Pointer as To};
ghost use Rattle.fo_image.specs.declared.types.Score.{Score};
ghost use Rattle.fo_ports_plain.specs.declared.block.PlainBlock.{PlainBlock};
ghost use Rattle.fo_ports_plain.specs.Plain.{slot_of, held_in, is_under, nowhere};
ghost use Rattle.fo_image.specs.declared.types.Kind.TheVariants.{Root};
ghost use Rattle.fo_image.specs.Record.{RootRecordHolds};
ghost use Rattle.fo_ports.specs.Blocks.{IsFormed, blank_slot};
ghost use Rattle.fo_ports_plain.specs.Sound.{IsSuper, HangsAt, Sound, Formed, Waiting, Queue};
ghost use Rattle.fo_ports_plain.specs.Props.{sound_prop, waiting_prop};

use crate::block::{PlainBlock, blank_block, no_bytes, no_entry, no_slots, nowhere};
use crate::held::HeldBlock;
use crate::home::Home;
use crate::moment::Moment;
use crate::wait::Wait;
use fo_base::{BLOCK, Memory};
use fo_crash::{Place, Slot};
use fo_image::{Kind, Pointer, Record, RootBlock, Score, Text, write_root};
use std::alloc::Global;

/// A device of blocks in memory, which are settled at once. Blocks that are taken out of the tree are not given out again. `seen`: what it
/// had at moments that passed, the last one first. `watched`: how many moments are still to be kept.
#[derive(Drop)]
pub struct PlainBlocks {
    pub(crate) blocks: Vec<PlainBlock>,
    pub(crate) held: Vec<HeldBlock>,
    pub(crate) waits: Vec<Wait>,
    pub(crate) seen: Vec<Moment>,
    pub(crate) watched: u32,
    pub(crate) made: u32,
    pub(crate) high: u32,
    pub(crate) root: u32,
    pub(crate) spare: u32,
    pub(crate) next: u32,
    pub(crate) room: u32,
    pub(crate) queued: u32,
    ghost three: { 2 < made },
    ghost begun: { 0 < high },
    ghost few: { length blocks.items < 2 ^ 32 },
    ghost spared: { made + spare ≤ length blocks.items },
    ghost numbered: { next ≤ 2 ^ 30 },
    ghost roomy: { vec_len waits + room ≤ vec_capacity waits },
    ghost sound: { Sound blocks.items made high root } by { sound_prop blocks.items made high root },
    ghost formed: { Formed blocks.items made },
    ghost waiting: { Waiting blocks.items made waits.items } by { waiting_prop blocks.items made waits.items },
    ghost queue: { Queue blocks.items queued },
}

impl PlainBlocks {
    ghost use Rattle.fo_ports_plain.specs.Fresh.{IsFresh};
    ghost use Rattle.fo_ports_plain.specs.Parts.{parts};

    /// A device of so many blocks that may be made, beside the super block and the root block of an empty tree.
    pub fn new(alloc: Global, count: u32) -> Result<PlainBlocks, Memory>
        requires { count < 2 ^ 32 - 3 }
        ensures { IfOk result (λ b. IsFresh count (parts b)) }
    {
        let mut blocks = Vec::new(alloc);
        blocks.resize(count as usize + 3, unmade_block())?;
        blocks[1] = super_block();
        blocks[2] = root_block(alloc)?;
        Ok(PlainBlocks {
            blocks,
            held: Vec::new(alloc),
            waits: Vec::new(alloc),
            seen: Vec::new(alloc),
            watched: 0,
            made: 3,
            high: 1,
            root: 2,
            spare: 0,
            next: 1,
            room: 0,
            queued: 0,
        })
    }

    /// Holds a block under a score and kind, in place of one that was held there.
    pub fn hold(&mut self, score: &Score, kind: u8, bytes: &[u8]) -> Result<(), Memory>
        requires { length bytes.now ≡ 8192 }
        ensures held { OnOk result ((other : Score) (k : ℕ) → held_in self.new.held.items other k ≡ cond (is_under score.now kind other k) (Some bytes.now) (held_in self.old.held.items other k)) }
        ensures nothing { OnErr result (self.new.held.items ≡ self.old.held.items) }
        ensures rest { parts self.new ≡ record (parts self.old) { held = self.new.held.items } }
    {
        let mut block = HeldBlock {
            score: *score,
            kind,
            bytes: no_bytes(),
        };
        block.bytes.copy_from_slice(bytes);
        self.held.insert(0, block)?;
        Ok(())
    }
}

/// Block 1, which leads to the root block at address 2.
fn super_block() -> PlainBlock
    ensures super_at { IsSuper 2 result }
    ensures marks { (result.origin ≡ 0) × (result.epoch ≡ 1) × (result.taken ≡ false) × (result.kept ≡ false) × (result.retired ≡ false) }
    ensures root { slot_of result 0 ≡ To (Local 2) }
    ensures others { (i : ℕ) → i ≢ 0 → slot_of result i ≡ To Nil }
{
    let mut slots = no_slots();
    slots[0] = Slot::Pointer(Pointer::Local(2));
    PlainBlock {
        place: Place {
            kind: Kind::Root,
            tag: 0,
            index: 0,
            rank: 2145,
        },
        epoch: 1,
        apart: false,
        origin: 0,
        source: 1,
        home: nowhere(),
        taken: false,
        retired: false,
        kept: false,
        bytes: no_bytes(),
        slots,
    }
}

/// The place of a root block.
fn root_place() -> Place
    ensures { result ≡ root_place }
{
    Place {
        kind: Kind::Root,
        tag: 1,
        index: 0,
        rank: 2144,
    }
}

/// A block that was not made yet: no slot leads to it, and it has a root's place.
fn unmade_block() -> PlainBlock
    ensures place { (result.place ≡ root_place) × (result.epoch ≡ 0) }
    ensures marks { (result.apart ≡ false) × (result.taken ≡ false) × (result.kept ≡ false) × (result.home ≡ nowhere) × (result.retired ≡ false) }
    ensures slots { (i : ℕ) → slot_of result i ≡ blank_slot Root i }
{
    let mut block = blank_block(root_place(), 0, 0);
    block.apart = false;
    block
}

/// The root directory's own record: its name is /, and it has no times and no number.
fn root_record(alloc: Global) -> Result<Record, Memory>
    ensures { IfOk result RootRecordHolds }
{
    Ok(Record {
        name: Text::copy_of(alloc, b"/")?,
        number: 0,
        slot: 0,
        generation: 0,
        vers: 0,
        mode: 0,
        atime: 0,
        mtime: 0,
        uid: Text::copy_of(alloc, b"adm")?,
        gid: Text::copy_of(alloc, b"adm")?,
        muid: Text::copy_of(alloc, b"adm")?,
    })
}

/// The bytes of the root block of an empty tree, of epoch 1.
fn root_bytes(alloc: Global) -> Result<[u8; BLOCK], Memory>
    ensures { IfOk result (λ bytes. IsFormed Root 2144 bytes) }
{
    let root = RootBlock {
        epoch: 1,
        time: 0,
        prev_epoch: 0,
        prev: 0,
        entries: no_entry(),
        meta: no_entry(),
        own: root_record(alloc)?,
    };
    let mut bytes = no_bytes();
    write_root(&root, &mut bytes);
    Ok(bytes)
}

/// The root block of an empty tree, at address 2.
fn root_block(alloc: Global) -> Result<PlainBlock, Memory>
    ensures place { IfOk result (λ b. (b.place ≡ root_place) × (b.epoch ≡ 1) × (b.source ≡ 2)) }
    ensures marks { IfOk result (λ b. (b.apart ≡ false) × (b.origin ≡ 0) × (b.taken ≡ false) × (b.kept ≡ true) × (b.retired ≡ false)) }
    ensures home { IfOk result (λ b. HangsAt b.home 1 0 0) }
    ensures slots { IfOk result (λ b. (i : ℕ) → slot_of b i ≡ blank_slot Root i) }
    ensures formed { IfOk result (λ b. IsFormed Root 2144 b.bytes) }
{
    let mut block = blank_block(root_place(), 1, 2);
    block.bytes = root_bytes(alloc)?;
    block.apart = false;
    block.kept = true;
    block.home = Home {
        hangs: true,
        source: 1,
        index: 0,
        slot: 0,
    };
    Ok(block)
}
