//! A source of bytes as a list of the addresses of its leaves.
ghost use Rattle.std.specs.Prelude.{◌≡◌, ◌≢◌, ◌⊎◌, ◌+◌, ◌*◌, ◌/◌, ◌%◌, ◌<◌, ◌≤◌, ℕ, length, slice_set, slice_index, true, false, Some, None, IsSome, IfOk, OnOk, IfErr, MatchOption};
ghost use Rattle.fo_base.specs.Cause.{Rose};
ghost use Rattle.fo_image.specs.declared.types.Kind.TheVariants.{Data};
ghost use Rattle.fo_crash.specs.Images.{SameContent};
ghost use Rattle.fo_ports.specs.State.{Looks, none};
ghost use Rattle.fo_ports.specs.Blocks.{blank};
ghost use Rattle.fo_ports.specs.Causes.{Caused};
ghost use Rattle.fo_ports.specs.Sources.{Made, Dirties, Finds, Owned};
ghost use Rattle.fo_ports_source.specs.Source.{HasLeaf, IsCurrent, leaf_of, byte_of, leaves_for, Over, IsHeld, IsOwn, Prepared, Puts, IsEmpty, form_of, leaves_of};
ghost use Rattle.fo_ports_source.specs.Steps.{Steps, Grew, PutsOwn, Longer, IsEnd};

use crate::leaf::{copy_from, pin_block};
use crate::own::own_block;
use fo_base::{BLOCK, Memory};
use fo_image::Kind;
use fo_ports::{BlockError, Blocks};
use std::alloc::Global;

/// How many bytes a leaf has.
pub(crate) const LEAF: u64 = BLOCK as u64;

/// A source that keeps the addresses of its leaves in a list. Its leaves are in no slot, and its entry has a nil top.
#[derive(Drop)]
pub struct PlainSource {
    pub(crate) kind: Kind,
    pub(crate) tag: u32,
    pub(crate) rank: u32,
    pub(crate) size: u64,
    pub(crate) leaves: Vec<Option<u32>>,
}

impl PlainSource {
    /// An empty source of up to `room` leaves of this kind, tag and rank.
    pub fn new(
        alloc: Global,
        kind: Kind,
        tag: u32,
        rank: u32,
        room: u32,
    ) -> Result<PlainSource, Memory>
        ensures { IfOk result (λ s. IsEmpty s.kind s.tag s.rank s.size s.leaves.items kind tag rank room) }
    {
        let mut leaves = Vec::new(alloc);
        leaves.resize(room as usize, None)?;
        Ok(PlainSource {
            kind,
            tag,
            rank,
            size: 0,
            leaves,
        })
    }

    /// Makes leaf `i` one of the current epoch, and gives its address.
    pub(crate) fn own<B: Blocks>(&mut self, on: &mut B, i: usize) -> u32
        requires over { Over (B.state on.old) self.old.kind self.old.tag self.old.rank self.old.size self.old.leaves.items }
        requires within { 8192 * i < self.old.size }
        requires held { (at : ℕ) → leaf_of self.old.leaves.items i ≡ Some at → IsHeld (B.state on.old) self.old.kind self.old.tag at }
        requires spare { IsCurrent (B.state on.old) (leaf_of self.old.leaves.items i) ⊎ (0 < (B.state on.old).spare) }
        ensures leaves { self.new.leaves.items ≡ slice_set self.old.leaves.items i (Some result) }
        ensures same { (self.new.kind ≡ self.old.kind) × (self.new.tag ≡ self.old.tag) × (self.new.rank ≡ self.old.rank) × (self.new.size ≡ self.old.size) }
        ensures over { Over (B.state on.new) self.new.kind self.new.tag self.new.rank self.new.size self.new.leaves.items }
        ensures bytes { (B.state on.old).tells → (k : ℕ) → byte_of (leaf_of self.new.leaves.items) (B.state on.new).now k ≡ byte_of (leaf_of self.old.leaves.items) (B.state on.old).now k }
        ensures content { MatchOption (leaf_of self.old.leaves.items i) (SameContent ((B.state on.new).now result) (blank self.old.kind)) (λ at. SameContent ((B.state on.new).now result) ((B.state on.old).now at)) }
        ensures copied { MatchOption (leaf_of self.old.leaves.items i) (Made (B.state on.old) (B.state on.new) result) (λ at. ((at ≡ result) × (((B.state on.old).label at).epoch ≡ (B.state on.old).high)) ⊎ ((((B.state on.old).label at).epoch < (B.state on.old).high) × Made (B.state on.old) (B.state on.new) result)) }
        ensures own { IsOwn (B.state on.new) self.old.kind self.old.tag self.old.rank result }
        ensures steps { Steps self.old.tag (HasLeaf self.old.leaves.items) (λ b. ⊥) (B.state on.old) (B.state on.new) }
        ensures grew { Grew self.old.kind self.old.tag self.old.size self.old.leaves.items self.new.leaves.items (B.state on.old) (B.state on.new) }
        ensures keeps { B.keeps on.old on.new }
        ensures dirties { Dirties 2 (λ b. b ≡ result) (B.state on.old) (B.state on.new) }
        ensures spare { ((B.state on.old).spare ≤ (B.state on.new).spare + 1) × (IsCurrent (B.state on.old) (leaf_of self.old.leaves.items i) → (B.state on.old).spare ≤ (B.state on.new).spare) }
    {
        let at = own_block(on, self.leaves[i], self.kind, self.tag, self.rank);
        self.leaves[i] = Some(at);
        at
    }

    /// Puts bytes into one leaf, and gives its address.
    fn put_part<B: Blocks>(&mut self, on: &mut B, place: u64, piece: &[u8]) -> u32
        requires over { Over (B.state on.old) self.old.kind self.old.tag self.old.rank self.old.size self.old.leaves.items }
        requires kind { (self.old.kind ≡ Data 0) × (self.old.rank % 32 ≢ 16) }
        requires part { (0 < length piece.now) × (place % 8192 + length piece.now ≤ 8192) }
        requires within { place + length piece.now ≤ self.old.size }
        requires held { (at : ℕ) → leaf_of self.old.leaves.items (place / 8192) ≡ Some at → IsHeld (B.state on.old) self.old.kind self.old.tag at }
        requires spare { 0 < (B.state on.old).spare }
        ensures puts { (B.state on.old).tells → Puts (byte_of (leaf_of self.old.leaves.items) (B.state on.old).now) (byte_of (leaf_of self.new.leaves.items) (B.state on.new).now) place piece.now }
        ensures same { (self.new.kind ≡ self.old.kind) × (self.new.tag ≡ self.old.tag) × (self.new.rank ≡ self.old.rank) × (self.new.size ≡ self.old.size) }
        ensures over { Over (B.state on.new) self.new.kind self.new.tag self.new.rank self.new.size self.new.leaves.items }
        ensures grew { Grew self.old.kind self.old.tag self.old.size self.old.leaves.items self.new.leaves.items (B.state on.old) (B.state on.new) }
        ensures keeps { B.keeps on.old on.new }
        ensures leaves { self.new.leaves.items ≡ slice_set self.old.leaves.items (place / 8192) (Some result) }
        ensures into { (at : ℕ) → leaf_of self.old.leaves.items (place / 8192) ≡ Some at → PutsOwn (B.state on.old) (B.state on.new) at result (place % 8192) piece.now }
        ensures steps { Steps self.old.tag (HasLeaf self.old.leaves.items) (λ b. leaf_of self.old.leaves.items (place / 8192) ≡ Some b) (B.state on.old) (B.state on.new) }
        ensures dirties { Dirties 2 (λ b. b ≡ result) (B.state on.old) (B.state on.new) }
        ensures spare { ((B.state on.old).spare ≤ (B.state on.new).spare + 1) × (IsCurrent (B.state on.old) (leaf_of self.old.leaves.items (place / 8192)) → (B.state on.old).spare ≤ (B.state on.new).spare) }
    {
        let at = self.own(on, (place / LEAF) as usize);
        on.put_bytes(at, (place % LEAF) as u32, piece);
        at
    }

    /// Whether data ends here within a leaf that there is.
    fn ends_within(&self, from: u64) -> bool
        requires within { from < 8192 * length self.now.leaves.items }
        ensures yes { result ≡ true → (self.now.kind ≡ Data 0) × (self.now.rank % 32 ≢ 16) × (0 < from % 8192) × IsSome (leaf_of self.now.leaves.items (from / 8192)) }
        ensures no { result ≡ false → self.now.kind ≡ Data 0 → self.now.rank % 32 ≢ 16 → 0 < from % 8192 → leaf_of self.now.leaves.items (from / 8192) ≡ None }
    {
        is_plain(self.kind, self.rank)
            && from % LEAF != 0
            && self.leaves[(from / LEAF) as usize].is_some()
    }

    /// Makes the source longer, up to the end of a leaf. The leaf within which data ended is owned, and zeroed behind that end.
    fn grow<B: Blocks>(&mut self, on: &mut B, end: u64)
        requires over { Over (B.state on.old) self.old.kind self.old.tag self.old.rank self.old.size self.old.leaves.items }
        requires longer { (self.old.size < end) × (end % 8192 ≡ 0) × (end ≤ 8192 * length self.old.leaves.items) }
        requires held { (at : ℕ) → leaf_of self.old.leaves.items (self.old.size / 8192) ≡ Some at → IsHeld (B.state on.old) self.old.kind self.old.tag at }
        requires spare { 0 < (B.state on.old).spare }
        ensures same { (self.new.kind ≡ self.old.kind) × (self.new.tag ≡ self.old.tag) × (self.new.rank ≡ self.old.rank) × (self.new.size ≡ end) }
        ensures over { Over (B.state on.new) self.new.kind self.new.tag self.new.rank self.new.size self.new.leaves.items }
        ensures bytes { (B.state on.old).tells → (k : ℕ) → byte_of (leaf_of self.new.leaves.items) (B.state on.new).now k ≡ byte_of (leaf_of self.old.leaves.items) (B.state on.old).now k }
        ensures longer { Longer (form_of self.old.kind self.old.tag self.old.rank self.old.leaves.items) self.old.size self.old.leaves.items self.new.leaves.items (B.state on.old) (B.state on.new) }
        ensures steps { Steps self.old.tag (HasLeaf self.old.leaves.items) (IsEnd (form_of self.old.kind self.old.tag self.old.rank self.old.leaves.items) self.old.size self.old.leaves.items) (B.state on.old) (B.state on.new) }
        ensures grew { Grew self.old.kind self.old.tag end self.old.leaves.items self.new.leaves.items (B.state on.old) (B.state on.new) }
        ensures keeps { B.keeps on.old on.new }
        ensures dirties { Dirties 2 none (B.state on.old) (B.state on.new) }
        ensures spare { ((B.state on.old).spare ≤ (B.state on.new).spare + 1) × (IsCurrent (B.state on.old) (leaf_of self.old.leaves.items (self.old.size / 8192)) → (B.state on.old).spare ≤ (B.state on.new).spare) }
    {
        let from = self.size;
        self.size = end;
        if self.ends_within(from) {
            let zeros = zeros::<BLOCK>();
            self.put_part(on, from, &zeros[(from % LEAF) as usize..]);
        }
    }

    /// Makes the source longer, up to the end of leaf `i`, and owns that leaf.
    pub(crate) fn own_next<B: Blocks>(&mut self, on: &mut B, i: usize) -> u32
        requires over { Over (B.state on.old) self.old.kind self.old.tag self.old.rank self.old.size self.old.leaves.items }
        requires longer { self.old.size < 8192 * (i + 1) }
        requires prepared { Prepared (B.state on.old) self.old.kind self.old.tag self.old.size self.old.leaves.items (8192 * i) 8192 }
        requires spare { (2 ≤ (B.state on.old).spare) ⊎ (IsCurrent (B.state on.old) (leaf_of self.old.leaves.items (self.old.size / 8192)) × (0 < (B.state on.old).spare)) }
        ensures same { (self.new.kind ≡ self.old.kind) × (self.new.tag ≡ self.old.tag) × (self.new.rank ≡ self.old.rank) × (self.new.size ≡ 8192 * (i + 1)) }
        ensures over { Over (B.state on.new) self.new.kind self.new.tag self.new.rank self.new.size self.new.leaves.items }
        ensures bytes { (B.state on.old).tells → (k : ℕ) → byte_of (leaf_of self.new.leaves.items) (B.state on.new).now k ≡ byte_of (leaf_of self.old.leaves.items) (B.state on.old).now k }
        ensures owned { Owned (form_of self.old.kind self.old.tag self.old.rank self.old.leaves.items) self.old.size i result (B.state on.old) (B.state on.new) (leaves_of (B.state on.old) self.old.kind self.old.tag self.old.size self.old.leaves.items) (leaves_of (B.state on.new) self.new.kind self.new.tag self.new.size self.new.leaves.items) }
        ensures steps { Steps self.old.tag (HasLeaf self.old.leaves.items) (IsEnd (form_of self.old.kind self.old.tag self.old.rank self.old.leaves.items) self.old.size self.old.leaves.items) (B.state on.old) (B.state on.new) }
        ensures grew { Grew self.old.kind self.old.tag (8192 * (i + 1)) self.old.leaves.items self.new.leaves.items (B.state on.old) (B.state on.new) }
        ensures current { ((B.state on.new).label result).epoch ≡ (B.state on.new).high }
        ensures keeps { B.keeps on.old on.new }
        ensures dirties { Dirties 4 (λ b. b ≡ result) (B.state on.old) (B.state on.new) }
        ensures spare { ((B.state on.old).spare ≤ (B.state on.new).spare + 2) × (IsCurrent (B.state on.old) (leaf_of self.old.leaves.items (self.old.size / 8192)) → (B.state on.old).spare ≤ (B.state on.new).spare + 1) }
    {
        self.grow(on, LEAF * (i as u64 + 1));
        self.own(on, i)
    }

    /// Puts bytes below the end.
    pub(crate) fn put<B: Blocks>(&mut self, on: &mut B, offset: u64, piece: &[u8])
        requires over { Over (B.state on.old) self.old.kind self.old.tag self.old.rank self.old.size self.old.leaves.items }
        requires kind { (self.old.kind ≡ Data 0) × (self.old.rank % 32 ≢ 16) }
        requires within { offset + length piece.now ≤ self.old.size }
        requires prepared { Prepared (B.state on.old) self.old.kind self.old.tag self.old.size self.old.leaves.items offset (length piece.now) }
        requires spare { leaves_for (length piece.now) ≤ (B.state on.old).spare }
        ensures puts { (B.state on.old).tells → Puts (byte_of (leaf_of self.old.leaves.items) (B.state on.old).now) (byte_of (leaf_of self.new.leaves.items) (B.state on.new).now) offset piece.now }
        ensures same { (self.new.kind ≡ self.old.kind) × (self.new.tag ≡ self.old.tag) × (self.new.rank ≡ self.old.rank) × (self.new.size ≡ self.old.size) }
        ensures over { Over (B.state on.new) self.new.kind self.new.tag self.new.rank self.new.size self.new.leaves.items }
        ensures grew { Grew self.old.kind self.old.tag self.old.size self.old.leaves.items self.new.leaves.items (B.state on.old) (B.state on.new) }
        ensures keeps { B.keeps on.old on.new }
        ensures dirties { Dirties (2 * leaves_for (length piece.now)) none (B.state on.old) (B.state on.new) }
        ensures spare { (B.state on.old).spare ≤ (B.state on.new).spare + leaves_for (length piece.now) }
    {
        let mut done = 0;
        while done < piece.len() {
            let place = offset + done as u64;
            let count = ((LEAF - place % LEAF) as usize).min(piece.len() - done);
            self.put_part(on, place, &piece[done..done + count]);
            done += count;
        }
    }

    /// Copies bytes of one leaf.
    fn copy_part<B: Blocks>(
        &self,
        on: &mut B,
        place: u64,
        into: &mut [u8],
    ) -> Result<(), BlockError>
        requires over { Over (B.state on.old) self.now.kind self.now.tag self.now.rank self.now.size self.now.leaves.items }
        requires part { place % 8192 + length into.old ≤ 8192 }
        requires within { place < self.now.size }
        ensures given { OnOk result (self.now.kind ≡ Data 0 → (i : ℕ) → i < length into.old → slice_index into.new i ≡ byte_of (leaf_of self.now.leaves.items) (B.state on.new).now (place + i)) }
        ensures pinned { OnOk result ((at : ℕ) → leaf_of self.now.leaves.items (place / 8192) ≡ Some at → (0 < (B.state on.old).pins_left) ⊎ (B.state on.old).pinned at → (B.state on.new).pinned at) }
        ensures pins { (B.state on.old).pins_left ≤ (B.state on.new).pins_left + 1 }
        ensures looks { Looks (B.state on.old) (B.state on.new) }
        ensures keeps { B.keeps on.old on.new }
        ensures cause { IfErr result (Caused ⊥ (λ b. ((B.state on.old).tells → ⊥) × (B.state on.old).is_block b) (Rose (B.state on.old).faults (B.state on.new).faults) ⊥) }
    {
        match self.leaves[(place / LEAF) as usize] {
            None => {
                into.fill(0);
                Ok(())
            }
            Some(at) => {
                let from = (place % LEAF) as usize;
                copy_from(on, at, self.kind, self.tag, self.rank, from, into)
            }
        }
    }

    /// Copies bytes below the end.
    pub(crate) fn copy_out<B: Blocks>(
        &self,
        on: &mut B,
        offset: u64,
        into: &mut [u8],
    ) -> Result<(), BlockError>
        requires over { Over (B.state on.old) self.now.kind self.now.tag self.now.rank self.now.size self.now.leaves.items }
        requires within { offset + length into.old ≤ self.now.size }
        ensures given { OnOk result (self.now.kind ≡ Data 0 → Finds (B.state on.old).tells (leaves_for (length into.old)) (B.state on.old).pins_left (Prepared (B.state on.old) self.now.kind self.now.tag self.now.size self.now.leaves.items offset (length into.old)) → (i : ℕ) → i < length into.old → slice_index into.new i ≡ byte_of (leaf_of self.now.leaves.items) (B.state on.new).now (offset + i)) }
        ensures pins { (B.state on.old).pins_left ≤ (B.state on.new).pins_left + leaves_for (length into.old) }
        ensures looks { Looks (B.state on.old) (B.state on.new) }
        ensures keeps { B.keeps on.old on.new }
        ensures cause { IfErr result (Caused ⊥ (λ b. ((B.state on.old).tells → ⊥) × (B.state on.old).is_block b) (Rose (B.state on.old).faults (B.state on.new).faults) ⊥) }
    {
        let mut done = 0;
        while done < into.len() {
            let place = offset + done as u64;
            let count = ((LEAF - place % LEAF) as usize).min(into.len() - done);
            self.copy_part(on, place, &mut into[done..done + count])?;
            done += count;
        }
        Ok(())
    }

    /// Gets, and so pins, leaf `i` where there is one, and looks at its label.
    fn pin<B: Blocks>(&self, on: &mut B, i: usize) -> Result<(), BlockError>
        requires over { Over (B.state on.old) self.now.kind self.now.tag self.now.rank self.now.size self.now.leaves.items }
        requires within { i < length self.now.leaves.items }
        ensures held { OnOk result ((at : ℕ) → leaf_of self.now.leaves.items i ≡ Some at → (0 < (B.state on.old).pins_left) ⊎ (B.state on.old).pinned at → IsHeld (B.state on.new) self.now.kind self.now.tag at) }
        ensures pins { (B.state on.old).pins_left ≤ (B.state on.new).pins_left + 1 }
        ensures looks { Looks (B.state on.old) (B.state on.new) }
        ensures keeps { B.keeps on.old on.new }
        ensures cause { IfErr result (Caused ⊥ (λ b. ((B.state on.old).tells → ⊥) × (B.state on.old).is_block b) (Rose (B.state on.old).faults (B.state on.new).faults) ⊥) }
    {
        match self.leaves[i] {
            None => Ok(()),
            Some(at) => pin_block(on, at, self.kind, self.tag, self.rank),
        }
    }

    /// Pins the leaves from the first number on, up to the last.
    pub(crate) fn pin_all<B: Blocks>(
        &self,
        on: &mut B,
        first: u64,
        last: u64,
    ) -> Result<(), BlockError>
        requires over { Over (B.state on.old) self.now.kind self.now.tag self.now.rank self.now.size self.now.leaves.items }
        requires within { (first ≤ last) × (last ≤ length self.now.leaves.items) }
        ensures held { OnOk result (last ≤ (B.state on.old).pins_left + first → (i at : ℕ) → first ≤ i → i < last → leaf_of self.now.leaves.items i ≡ Some at → IsHeld (B.state on.new) self.now.kind self.now.tag at) }
        ensures pins { (B.state on.old).pins_left + first ≤ (B.state on.new).pins_left + last }
        ensures looks { Looks (B.state on.old) (B.state on.new) }
        ensures keeps { B.keeps on.old on.new }
        ensures cause { IfErr result (Caused ⊥ (λ b. ((B.state on.old).tells → ⊥) × (B.state on.old).is_block b) (Rose (B.state on.old).faults (B.state on.new).faults) ⊥) }
    {
        for i in first..last {
            self.pin(on, i as usize)?;
        }
        Ok(())
    }

    /// Gets, and so pins, the last leaf of a source that ends before this place.
    fn pin_last<B: Blocks>(&self, on: &mut B, end: u64) -> Result<(), BlockError>
        requires over { Over (B.state on.old) self.now.kind self.now.tag self.now.rank self.now.size self.now.leaves.items }
        requires within { end ≤ 8192 * length self.now.leaves.items }
        ensures held { OnOk result ((at : ℕ) → self.now.size < end → leaf_of self.now.leaves.items (self.now.size / 8192) ≡ Some at → (0 < (B.state on.old).pins_left) ⊎ (B.state on.old).pinned at → IsHeld (B.state on.new) self.now.kind self.now.tag at) }
        ensures pins { (B.state on.old).pins_left ≤ (B.state on.new).pins_left + 1 }
        ensures looks { Looks (B.state on.old) (B.state on.new) }
        ensures keeps { B.keeps on.old on.new }
        ensures cause { IfErr result (Caused ⊥ (λ b. ((B.state on.old).tells → ⊥) × (B.state on.old).is_block b) (Rose (B.state on.old).faults (B.state on.new).faults) ⊥) }
    {
        if self.size < end {
            self.pin(on, (self.size / LEAF) as usize)
        } else {
            Ok(())
        }
    }

    /// Pins what has to be held before these bytes are changed.
    pub(crate) fn pin_for<B: Blocks>(
        &self,
        on: &mut B,
        offset: u64,
        len: u64,
    ) -> Result<(), BlockError>
        requires over { Over (B.state on.old) self.now.kind self.now.tag self.now.rank self.now.size self.now.leaves.items }
        requires within { offset + len ≤ 8192 * length self.now.leaves.items }
        ensures prepared { OnOk result (leaves_for len + 1 ≤ (B.state on.old).pins_left → Prepared (B.state on.new) self.now.kind self.now.tag self.now.size self.now.leaves.items offset len) }
        ensures pins { (B.state on.old).pins_left ≤ (B.state on.new).pins_left + (leaves_for len + 1) }
        ensures looks { Looks (B.state on.old) (B.state on.new) }
        ensures keeps { B.keeps on.old on.new }
        ensures cause { IfErr result (Caused ⊥ (λ b. ((B.state on.old).tells → ⊥) × (B.state on.old).is_block b) (Rose (B.state on.old).faults (B.state on.new).faults) ⊥) }
    {
        let end = offset + len;
        self.pin_last(on, end)?;
        self.pin_all(on, offset / LEAF, end.div_ceil(LEAF))
    }
}

/// Whether a source is one of data that holds no records.
fn is_plain(kind: Kind, rank: u32) -> bool
    ensures yes { result ≡ true → (kind ≡ Data 0) × (rank % 32 ≢ 16) }
    ensures no { result ≡ false → kind ≡ Data 0 → rank % 32 ≢ 16 → ⊥ }
{
    matches!(kind, Kind::Data(0)) && rank % 32 != 16
}

/// So many zeros.
fn zeros<const N: usize>() -> [u8; N]
    ensures zero { (i : ℕ) → slice_index result i ≡ 0 }
{
    [0; N]
}
