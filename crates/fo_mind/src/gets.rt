//! Blocks are got.
ghost use Rattle.std.specs.Prelude.{◌≡◌, ◌⊎◌, ◌+◌, ◌<◌, ◌≤◌, ◌↔◌, ℕ, true, false, None, length, is_some, IsSome, IfSome, IsTrue, IsOk, OnOk, OnErr, IfErr};
ghost use Rattle.fo_base.specs.Cause.{Rose};
ghost use Rattle.fo_disk.specs.Disk.{Content as Holds};
ghost use Rattle.fo_buffers.specs.Held.{held_at};
ghost use Rattle.fo_image.specs.declared.types.State.TheVariants.{Live};
ghost use Rattle.fo_image.specs.Usable.{is_usable};
ghost use Rattle.fo_ports.specs.Blocks.{IsRanked};
ghost use Rattle.fo_ports.specs.Causes.{Caused};
ghost use Rattle.fo_ports.specs.State.{Looks};
ghost use Rattle.fo_ports.specs.declared.error.BlockError.TheVariants.{Damaged};
ghost use Rattle.fo_bring.specs.Blocks.{IsData};
ghost use Rattle.fo_bring.specs.Holds.{RanksIn, IsFrom};
ghost use Rattle.fo_mind.specs.Parts.{CacheKeeps, IsPinned, label_at, memory, state_of};
ghost use Rattle.fo_mind.specs.Got.{ComesFrom, Got, IsHeldAs, IsSource};
ghost use Rattle.fo_mind.specs.Frames.{Brings};
ghost use Rattle.fo_mind.specs.MindParts.{parts};

use crate::mind::Mind;
use fo_bring::{bring, copy_held, glance, lend_held};
use fo_disk::Disk;
use fo_image::{Kind, Label, State, is_usable};
use fo_ports::BlockError;

fn is_kind(kind: Kind, other: Kind) -> bool
    ensures { IsTrue result ↔ (kind ≡ other) }
{
    kind == other
}

// Whether a label of this epoch is not live, so that its block is no more to be put into.
fn is_gone(label: &Label, high: u32) -> bool
    ensures { result ≡ false → label.now.epoch ≡ high → label.now.state ≡ Live }
{
    label.epoch == high && label.state != State::Live
}

impl Mind {
    // Whether a block may be got: its label is of this kind, and it is pinned, or in use, and live where it is of the high epoch.
    fn may_get(&self, at: u32, kind: Kind) -> bool
        requires block { IsData self.now.first self.now.count at }
        ensures kind { result ≡ true → (label_at self.now.labels at).kind ≡ kind }
        ensures used { result ≡ true → IsPinned self.now.buffers at ⊎ (is_usable self.now.one.low (label_at self.now.labels at) ≡ false) }
        ensures live { result ≡ true → IsPinned self.now.buffers at ⊎ ((label_at self.now.labels at).epoch ≡ self.now.one.high → (label_at self.now.labels at).state ≡ Live) }
        ensures pinned { IsPinned self.now.buffers at → (label_at self.now.labels at).kind ≡ kind → result ≡ true }
    {
        let label = self.label(at);
        if !is_kind(label.kind, kind) {
            return false;
        }
        if self.is_pinned(at) {
            return true;
        }
        !is_usable(&label, self.one.low) && !is_gone(&label, self.one.high)
    }

    /// The label of a data block.
    pub fn label(&self, at: u32) -> Label
        requires { IsData self.now.first self.now.count at }
        ensures { result ≡ label_at self.now.labels at }
    {
        self.labels.label(at)
    }

    /// Whether a block is pinned.
    pub fn is_pinned(&self, at: u32) -> bool
        ensures { IsTrue result ↔ IsPinned self.now.buffers at }
    {
        self.buffers.is_pinned(at)
    }

    // Copies out a held block of this kind and rank.
    fn copy_out(&self, at: u32, kind: Kind, rank: u32, into: &mut [u8]) -> Result<(), BlockError>
        requires length { length into.old ≡ 8192 }
        requires kind { (label_at self.now.labels at).kind ≡ kind }
        requires held { is_some (held_at self.now.buffers at) ≡ true }
        ensures got { OnOk result ((disk : Holds) (faults : ℕ) → Got self.now.first self.now.count kind rank (parts self.now disk faults) at into.new) }
        ensures is { OnOk result (IsHeldAs (held_at self.now.buffers at) into.new) }
        ensures again { RanksIn kind rank (held_at self.now.buffers at) → IsOk result }
        ensures nothing { OnErr result (into.new ≡ into.old) }
        ensures cause { IfErr result (λ e. e ≡ Damaged at) }
    {
        if !copy_held(&self.buffers, self.first, self.count, kind, rank, at, into) {
            return Err(BlockError::Damaged(at));
        }
        Ok(())
    }

    // Pins a held block.
    fn pin_held(&mut self, at: u32, rank: u32)
        requires block { IsData self.old.first self.old.count at }
        requires left { 0 < self.old.pins }
        requires held { is_some (held_at self.old.buffers at) ≡ true }
        ensures here { IsPinned self.new.buffers at }
        ensures source { (disk : Holds) → IsSource disk at self.old.buffers (held_at self.new.buffers at) }
        ensures comes { (disk : Holds) → ComesFrom disk at self.old.buffers self.new.buffers }
        ensures labels { self.new.labels ≡ self.old.labels }
        ensures pins { self.new.pins + 1 ≡ self.old.pins }
        ensures brings { (disk : Holds) (faults : ℕ) → Brings at (parts self.old disk faults) (parts self.new disk faults) }
    {
        self.pins -= 1;
        self.facts.owe(at, rank);
        self.buffers.pin(at);
    }

    // Brings a block into memory that is not held, and pins it.
    fn bring_in<D: Disk>(
        &mut self,
        main: &mut D,
        at: u32,
        kind: Kind,
        rank: u32,
    ) -> Result<(), BlockError>
        requires block { IsData self.old.first self.old.count at }
        requires kind { (label_at self.old.labels at).kind ≡ kind }
        requires left { 0 < self.old.pins }
        requires within { self.old.count ≤ D.size main.old }
        requires kept { is_usable self.old.one.low (label_at self.old.labels at) ≡ false }
        requires live { (label_at self.old.labels at).epoch ≡ self.old.one.high → (label_at self.old.labels at).state ≡ Live }
        requires none { held_at self.old.buffers at ≡ None }
        ensures here { OnOk result (IsPinned self.new.buffers at) }
        ensures source { OnOk result (IsSource (D.state main.old).holds at self.old.buffers (held_at self.new.buffers at)) }
        ensures labels { self.new.labels ≡ self.old.labels }
        ensures pins { self.new.pins + 1 ≡ self.old.pins }
        ensures brings { Brings at (parts self.old (D.state main.old).holds (D.faults main.old)) (parts self.new (D.state main.new).holds (D.faults main.new)) }
        ensures comes { ComesFrom (D.state main.old).holds at self.old.buffers self.new.buffers }
        ensures size { D.size main.new ≡ D.size main.old }
        ensures state { D.state main.new ≡ D.state main.old }
        ensures cause { IfErr result (Caused ⊥ (λ b. b ≡ at) (Rose (D.faults main.old) (D.faults main.new)) ⊥) }
    {
        let first = self.first;
        let count = self.count;
        self.pins -= 1;
        self.facts.owe(at, rank);
        bring(main, &mut self.buffers, first, count, kind, at)
    }

    // Holds a block and pins it, while pins are left.
    fn hold<D: Disk>(
        &mut self,
        main: &mut D,
        at: u32,
        kind: Kind,
        rank: u32,
    ) -> Result<(), BlockError>
        requires block { IsData self.old.first self.old.count at }
        requires kind { (label_at self.old.labels at).kind ≡ kind }
        requires kept { is_usable self.old.one.low (label_at self.old.labels at) ≡ false }
        requires live { (label_at self.old.labels at).epoch ≡ self.old.one.high → (label_at self.old.labels at).state ≡ Live }
        requires left { 0 < self.old.pins }
        requires within { self.old.count ≤ D.size main.old }
        ensures here { OnOk result (IsPinned self.new.buffers at) }
        ensures source { OnOk result (IsSource (D.state main.old).holds at self.old.buffers (held_at self.new.buffers at)) }
        ensures labels { self.new.labels ≡ self.old.labels }
        ensures pins { self.new.pins + 1 ≡ self.old.pins }
        ensures brings { Brings at (parts self.old (D.state main.old).holds (D.faults main.old)) (parts self.new (D.state main.new).holds (D.faults main.new)) }
        ensures comes { ComesFrom (D.state main.old).holds at self.old.buffers self.new.buffers }
        ensures size { D.size main.new ≡ D.size main.old }
        ensures state { D.state main.new ≡ D.state main.old }
        ensures cause { IfErr result (Caused ⊥ (λ b. b ≡ at) (Rose (D.faults main.old) (D.faults main.new)) ⊥) }
    {
        if self.buffers.is_held(at) {
            self.pin_held(at, rank);
            return Ok(());
        }
        self.bring_in(main, at, kind, rank)
    }

    // Copies out a block for which no pin is left.
    fn scan<D: Disk>(
        &mut self,
        main: &mut D,
        at: u32,
        kind: Kind,
        rank: u32,
        into: &mut [u8],
    ) -> Result<(), BlockError>
        requires block { IsData self.old.first self.old.count at }
        requires length { length into.old ≡ 8192 }
        requires kind { (label_at self.old.labels at).kind ≡ kind }
        requires within { self.old.count ≤ D.size main.old }
        ensures got { OnOk result (Got self.new.first self.new.count kind rank (parts self.new (D.state main.new).holds (D.faults main.new)) at into.new) }
        ensures source { OnOk result (IsFrom (D.state main.old).holds at self.old.buffers into.new) }
        ensures nothing { OnErr result (into.new ≡ into.old) }
        ensures pins { self.new.pins ≡ self.old.pins }
        ensures brings { Brings at (parts self.old (D.state main.old).holds (D.faults main.old)) (parts self.new (D.state main.new).holds (D.faults main.new)) }
        ensures comes { ComesFrom (D.state main.old).holds at self.old.buffers self.new.buffers }
        ensures size { D.size main.new ≡ D.size main.old }
        ensures state { D.state main.new ≡ D.state main.old }
        ensures cause { IfErr result (Caused ⊥ (λ b. b ≡ at) (Rose (D.faults main.old) (D.faults main.new)) ⊥) }
    {
        if self.buffers.is_held(at) {
            return self.copy_out(at, kind, rank, into);
        }
        let first = self.first;
        let count = self.count;
        glance(
            self.alloc,
            main,
            &mut self.buffers,
            first,
            count,
            kind,
            rank,
            at,
            into,
        )
    }

    // Copies out a block that is not pinned.
    fn take<D: Disk>(
        &mut self,
        main: &mut D,
        at: u32,
        kind: Kind,
        rank: u32,
        into: &mut [u8],
    ) -> Result<(), BlockError>
        requires block { IsData self.old.first self.old.count at }
        requires length { length into.old ≡ 8192 }
        requires kind { (label_at self.old.labels at).kind ≡ kind }
        requires kept { is_usable self.old.one.low (label_at self.old.labels at) ≡ false }
        requires live { (label_at self.old.labels at).epoch ≡ self.old.one.high → (label_at self.old.labels at).state ≡ Live }
        requires within { self.old.count ≤ D.size main.old }
        ensures got { OnOk result (Got self.new.first self.new.count kind rank (parts self.new (D.state main.new).holds (D.faults main.new)) at into.new) }
        ensures source { OnOk result (IsFrom (D.state main.old).holds at self.old.buffers into.new) }
        ensures nothing { OnErr result (into.new ≡ into.old) }
        ensures pinned { OnOk result (0 < self.old.pins → IsPinned self.new.buffers at) }
        ensures pins { self.old.pins ≤ self.new.pins + 1 }
        ensures brings { Brings at (parts self.old (D.state main.old).holds (D.faults main.old)) (parts self.new (D.state main.new).holds (D.faults main.new)) }
        ensures comes { ComesFrom (D.state main.old).holds at self.old.buffers self.new.buffers }
        ensures size { D.size main.new ≡ D.size main.old }
        ensures state { D.state main.new ≡ D.state main.old }
        ensures cause { IfErr result (Caused ⊥ (λ b. b ≡ at) (Rose (D.faults main.old) (D.faults main.new)) ⊥) }
    {
        if self.pins == 0 {
            return self.scan(main, at, kind, rank, into);
        }
        if let Err(e) = self.hold(main, at, kind, rank) {
            return Err(e);
        }
        self.copy_out(at, kind, rank, into)
    }

    // Copies a block of this kind and rank, and pins it while pins are left.
    fn obtain<D: Disk>(
        &mut self,
        main: &mut D,
        at: u32,
        kind: Kind,
        rank: u32,
        into: &mut [u8],
    ) -> Result<(), BlockError>
        requires block { IsData self.old.first self.old.count at }
        requires length { length into.old ≡ 8192 }
        requires within { self.old.count ≤ D.size main.old }
        ensures got { OnOk result (Got self.new.first self.new.count kind rank (parts self.new (D.state main.new).holds (D.faults main.new)) at into.new) }
        ensures source { OnOk result (IsFrom (D.state main.old).holds at self.old.buffers into.new) }
        ensures kind { OnOk result ((label_at self.old.labels at).kind ≡ kind) }
        ensures nothing { OnErr result (into.new ≡ into.old) }
        ensures pinned { OnOk result (0 < self.old.pins → IsPinned self.new.buffers at) }
        ensures again { IsPinned self.old.buffers at → (label_at self.old.labels at).kind ≡ kind → IsRanked kind rank ((memory (parts self.old (D.state main.old).holds (D.faults main.old)) at).bytes) → IsOk result }
        ensures no_pin { IsPinned self.old.buffers at → (label_at self.old.labels at).kind ≡ kind → self.new.pins ≡ self.old.pins }
        ensures pins { self.old.pins ≤ self.new.pins + 1 }
        ensures brings { Brings at (parts self.old (D.state main.old).holds (D.faults main.old)) (parts self.new (D.state main.new).holds (D.faults main.new)) }
        ensures comes { ComesFrom (D.state main.old).holds at self.old.buffers self.new.buffers }
        ensures size { D.size main.new ≡ D.size main.old }
        ensures state { D.state main.new ≡ D.state main.old }
        ensures cause { IfErr result (Caused ⊥ (λ b. b ≡ at) (Rose (D.faults main.old) (D.faults main.new)) ⊥) }
    {
        if !self.may_get(at, kind) {
            return Err(BlockError::Damaged(at));
        }
        if self.is_pinned(at) {
            return self.copy_out(at, kind, rank, into);
        }
        self.take(main, at, kind, rank, into)
    }

    /// Copies a block of this kind and rank, as it was last put, and pins it while pins are left. A pinned block is had again without
    /// fail, where it is of the format that the rank asks for. A block that isn't pinned is damaged where it isn't in use any more, and
    /// where it is of the high epoch and not live.
    pub fn get<D: Disk>(
        &mut self,
        main: &mut D,
        at: u32,
        kind: Kind,
        rank: u32,
        into: &mut [u8],
    ) -> Result<(), BlockError>
        requires block { IsData self.old.first self.old.count at }
        requires length { length into.old ≡ 8192 }
        requires within { self.old.count ≤ D.size main.old }
        ensures got { OnOk result (Got self.new.first self.new.count kind rank (parts self.new (D.state main.new).holds (D.faults main.new)) at into.new) }
        ensures source { OnOk result (IsFrom (D.state main.old).holds at self.old.buffers into.new) }
        ensures kind { OnOk result ((label_at self.old.labels at).kind ≡ kind) }
        ensures nothing { OnErr result (into.new ≡ into.old) }
        ensures pinned { OnOk result (0 < self.old.pins → IsPinned self.new.buffers at) }
        ensures again { IsPinned self.old.buffers at → (label_at self.old.labels at).kind ≡ kind → IsRanked kind rank ((memory (parts self.old (D.state main.old).holds (D.faults main.old)) at).bytes) → IsOk result }
        ensures no_pin { IsPinned self.old.buffers at → (label_at self.old.labels at).kind ≡ kind → self.new.pins ≡ self.old.pins }
        ensures pins { self.old.pins ≤ self.new.pins + 1 }
        ensures brings { Brings at (parts self.old (D.state main.old).holds (D.faults main.old)) (parts self.new (D.state main.new).holds (D.faults main.new)) }
        ensures comes { ComesFrom (D.state main.old).holds at self.old.buffers self.new.buffers }
        ensures looks { Looks (state_of (parts self.old (D.state main.old).holds (D.faults main.old))) (state_of (parts self.new (D.state main.new).holds (D.faults main.new))) }
        ensures keeps { CacheKeeps (parts self.old (D.state main.old).holds (D.faults main.old)) (parts self.new (D.state main.new).holds (D.faults main.new)) }
        ensures size { D.size main.new ≡ D.size main.old }
        ensures state { D.state main.new ≡ D.state main.old }
        ensures cause { IfErr result (Caused ⊥ (λ b. b ≡ at) (Rose (D.faults main.old) (D.faults main.new)) ⊥) }
    {
        self.obtain(main, at, kind, rank, into)
    }

    /// Lends the bytes of a block of this kind and rank, as it was last put, where it is held and they are of the format.
    pub fn lend(&self, at: u32, kind: Kind, rank: u32) -> Option<&[u8]>
        requires block { IsData self.now.first self.now.count at }
        ensures long { IfSome result (λ b. length b.now ≡ 8192) }
        ensures got { IfSome result (λ b. (disk : Holds) (faults : ℕ) → Got self.now.first self.now.count kind rank (parts self.now disk faults) at b.now) }
        ensures kind { IfSome result (λ b. (label_at self.now.labels at).kind ≡ kind) }
        ensures again { (label_at self.now.labels at).kind ≡ kind → RanksIn kind rank (held_at self.now.buffers at) → IsSome result }
    {
        if is_kind(self.label(at).kind, kind) {
            return lend_held(&self.buffers, self.first, self.count, kind, rank, at);
        }
        None
    }

    // Brings a block of this kind into memory, and pins it while pins are left.
    fn pin_while_left<D: Disk>(
        &mut self,
        main: &mut D,
        at: u32,
        kind: Kind,
        rank: u32,
    ) -> Result<(), BlockError>
        requires block { IsData self.old.first self.old.count at }
        requires within { self.old.count ≤ D.size main.old }
        ensures kind { OnOk result ((label_at self.old.labels at).kind ≡ kind) }
        ensures pinned { OnOk result (0 < self.old.pins → IsPinned self.new.buffers at) }
        ensures again { IsPinned self.old.buffers at → (label_at self.old.labels at).kind ≡ kind → IsOk result }
        ensures no_pin { IsPinned self.old.buffers at → (label_at self.old.labels at).kind ≡ kind → self.new.pins ≡ self.old.pins }
        ensures pins { self.old.pins ≤ self.new.pins + 1 }
        ensures brings { Brings at (parts self.old (D.state main.old).holds (D.faults main.old)) (parts self.new (D.state main.new).holds (D.faults main.new)) }
        ensures comes { ComesFrom (D.state main.old).holds at self.old.buffers self.new.buffers }
        ensures size { D.size main.new ≡ D.size main.old }
        ensures state { D.state main.new ≡ D.state main.old }
        ensures cause { IfErr result (Caused ⊥ (λ b. b ≡ at) (Rose (D.faults main.old) (D.faults main.new)) ⊥) }
    {
        if !self.may_get(at, kind) {
            return Err(BlockError::Damaged(at));
        }
        if self.is_pinned(at) || self.pins == 0 {
            return Ok(());
        }
        self.hold(main, at, kind, rank)
    }

    // Finds out whether the bytes of a held block are of the format of this kind and rank, so that lending them tests no leaf again.
    fn learn(&mut self, at: u32, kind: Kind, rank: u32)
        ensures buffers { self.new.buffers ≡ self.old.buffers }
        ensures pins { self.new.pins ≡ self.old.pins }
        ensures parts { (disk : Holds) (faults : ℕ) → parts self.new disk faults ≡ parts self.old disk faults }
    {
        self.buffers.learn(at, kind, rank);
    }

    /// Brings a block of this kind into memory and pins it while pins are left, as `get` does, and copies nothing. What is pinned
    /// stays so, and where no pin is left nothing is done.
    pub fn pin<D: Disk>(
        &mut self,
        main: &mut D,
        at: u32,
        kind: Kind,
        rank: u32,
    ) -> Result<(), BlockError>
        requires block { IsData self.old.first self.old.count at }
        requires within { self.old.count ≤ D.size main.old }
        ensures kind { OnOk result ((label_at self.old.labels at).kind ≡ kind) }
        ensures pinned { OnOk result (0 < self.old.pins → IsPinned self.new.buffers at) }
        ensures again { IsPinned self.old.buffers at → (label_at self.old.labels at).kind ≡ kind → IsOk result }
        ensures no_pin { IsPinned self.old.buffers at → (label_at self.old.labels at).kind ≡ kind → self.new.pins ≡ self.old.pins }
        ensures pins { self.old.pins ≤ self.new.pins + 1 }
        ensures brings { Brings at (parts self.old (D.state main.old).holds (D.faults main.old)) (parts self.new (D.state main.new).holds (D.faults main.new)) }
        ensures comes { ComesFrom (D.state main.old).holds at self.old.buffers self.new.buffers }
        ensures looks { Looks (state_of (parts self.old (D.state main.old).holds (D.faults main.old))) (state_of (parts self.new (D.state main.new).holds (D.faults main.new))) }
        ensures keeps { CacheKeeps (parts self.old (D.state main.old).holds (D.faults main.old)) (parts self.new (D.state main.new).holds (D.faults main.new)) }
        ensures size { D.size main.new ≡ D.size main.old }
        ensures state { D.state main.new ≡ D.state main.old }
        ensures cause { IfErr result (Caused ⊥ (λ b. b ≡ at) (Rose (D.faults main.old) (D.faults main.new)) ⊥) }
    {
        let pinned = self.pin_while_left(main, at, kind, rank);
        self.learn(at, kind, rank);
        pinned
    }
}
