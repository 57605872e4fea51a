//! What a device in memory has beside the calls of `Blocks`.
use crate::plain::PlainBlocks;
use fo_crash::{Place, Slot};
use fo_image::Pointer;

impl PlainBlocks {
    ghost use Rattle.std.specs.Prelude.{◌≡◌, ◌≢◌, ◌+◌, ◌-◌, ◌*◌, ◌^◌, ◌<◌, length, IfSome, None};
    ghost use Rattle.fo_crash.specs.declared.place.Place.{Place};
    ghost use Rattle.fo_ports_plain.specs.Plain.{IsMade, Stands};
    ghost use Rattle.fo_ports_plain.specs.Epochs.{Begins, Forgets};
    ghost use Rattle.fo_ports_plain.specs.Meaning.{state_of};
    ghost use Rattle.fo_ports_plain.specs.Moments.{WasLeft, IsKept};
    ghost use Rattle.fo_ports_plain.specs.Parts.{parts};

    /// Begins an epoch, as a snapshot does: a new root block, of the next epoch, leads where the root block led, and comes after it. The
    /// old one is kept. Every other block is older now, and so is copied before it is changed.
    pub fn begin_epoch(&mut self)
        requires epoch { self.old.high < 2 ^ 31 - 1 }
        requires spare { 0 < self.old.spare }
        ensures { Begins (state_of (parts self.old)) (state_of (parts self.new)) }
    {
        self.high += 1;
        let at = self.made;
        let root = self.blocks[self.root as usize].next_root(self.root, self.high);
        let top = self.blocks[1].with_slot(0, Slot::Pointer(Pointer::Local(at)));
        self.blocks[at as usize] = root;
        self.blocks[1] = top;
        self.root = at;
        self.made += 1;
        self.spare -= 1;
    }

    /// Keeps the root block of an earlier epoch no more, as where a snapshot is removed.
    pub fn forget_root(&mut self, at: u32)
        requires past { 1 < at }
        requires block { at < self.old.made }
        requires other { at ≢ self.old.root }
        ensures { Forgets at (state_of (parts self.old)) (state_of (parts self.new)) }
    {
        let block = self.blocks[at as usize].forgotten();
        self.set(at, block);
    }

    /// Keeps what the device has at the next moments, so many of them.
    pub fn watch(&mut self, count: u32)
        ensures { parts self.new ≡ parts self.old }
    {
        self.watched = count;
    }

    /// How many moments were kept.
    pub fn moments(&self) -> usize
        ensures { result ≡ length (parts self.now).seen }
    {
        self.seen.len()
    }

    /// What a crash could have left of a block at a moment that was kept: 0 is the last one.
    pub fn left(&self, moment: usize, at: u32) -> Option<&[u8]>
        ensures is { IfSome result (λ bytes. WasLeft (state_of (parts self.now)) (2 * (length (parts self.now).seen - (moment + 1)) + 1) at bytes.now) }
        ensures none { result ≡ None → IsKept (parts self.now).seen moment at → ⊥ }
    {
        let kept = self.seen.get(moment)?;
        let block = kept.blocks.get(at as usize)?;
        Some(&block.bytes)
    }

    /// The place at which a block stands.
    pub fn place(&self, at: u32) -> Place
        requires { IsMade self.now.made at }
        ensures { (p : Place) → Stands self.now.blocks.items self.now.made at p → result ≡ p }
    {
        self.blocks[at as usize].place
    }
}
