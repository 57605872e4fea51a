//! The super block is tried, and counts once it is settled.
ghost use Rattle.std.specs.Prelude.{◌≡◌, ◌<◌, ◌≤◌, ℕ, List, true, false, None, Some, is_some, length, replicate, IfOk, MatchOption};
ghost use Rattle.fo_disk.specs.Disk.{Content as Holds};
ghost use Rattle.fo_image.specs.Field.{Four, number_at};
ghost use Rattle.fo_image.specs.Format.{SpellsSuper};
ghost use Rattle.fo_image.specs.Usable.{is_usable};
ghost use Rattle.fo_facts.specs.Known.{fact_at};
ghost use Rattle.fo_bring.specs.Blocks.{IsData};
ghost use Rattle.fo_mind.specs.MindParts.{parts};
ghost use Rattle.fo_mind.specs.Parts.{label_at, least_limit};

use crate::mind::Mind;
use fo_base::Memory;
use fo_buffers::Block;
use fo_image::{Super, u32_at};

impl Mind {
    /// The bytes of block 1 that memory has.
    pub fn one_bytes(&self) -> &[u8]
        ensures value { result.now ≡ self.now.one_bytes }
        ensures len { length result.now ≡ 8192 }
    {
        self.one_bytes.bytes()
    }

    /// The super block that memory has.
    pub fn one(&self) -> Super
        ensures { result ≡ self.now.one }
    {
        self.one
    }

    /// Whether a super block that was tried is in doubt.
    pub fn is_doubted(&self) -> bool
        ensures { result ≡ is_some self.now.doubt }
    {
        self.doubt.is_some()
    }

    /// Another block of memory, of zeros. This may want memory.
    pub fn blank(&self) -> Result<Block, Memory>
        ensures { IfOk result (λ b. b ≡ replicate 8192 0) }
    {
        Block::new(self.alloc)
    }

    /// The next file number.
    pub fn next(&self) -> u32
        ensures { result ≡ self.now.next }
    {
        self.next
    }

    /// The least limit of file numbers that a super block says which the device may have: that of memory, or the one in doubt.
    pub fn limit(&self) -> u32
        ensures { result ≡ least_limit self.now.one self.now.doubt }
    {
        match &self.doubt {
            Some(block) => self.one.numbers.min(u32_at(block.bytes(), 22)),
            None => self.one.numbers,
        }
    }

    /// Grants the next file number, which is below the limit.
    pub fn grant(&mut self)
        requires below { self.old.next < least_limit self.old.one self.old.doubt }
        ensures { (disk : Holds) (faults : ℕ) → parts self.new disk faults ≡ record (parts self.old disk faults) { granted = true } }
    {
        self.granted = true;
    }

    /// Another content of block 1 is tried, and in doubt from now on.
    pub fn try_one(&mut self, block: Block)
        requires none { self.old.doubt ≡ None }
        requires below { self.old.next ≤ number_at Four 22 block }
        requires granted { self.old.granted ≡ true → self.old.next < number_at Four 22 block }
        ensures { (disk : Holds) (faults : ℕ) → parts self.new disk faults ≡ record (parts self.old disk faults) { doubt = Some block } }
    {
        self.doubt = Some(block);
    }

    /// Block 1 is settled as memory has it, so nothing is in doubt any more. The block that was tried is given back.
    pub fn overrule(&mut self) -> Option<Block>
        ensures tried { result ≡ self.old.doubt }
        ensures settled { (disk : Holds) (faults : ℕ) → parts self.new disk faults ≡ record (parts self.old disk faults) { doubt = None } }
    {
        self.doubt.take()
    }

    /// What was tried is settled, and counts from now on: it spells this, of the same epochs, with a root that is in the tree. The block
    /// that it replaces is given back.
    pub fn accept(&mut self, one: Super) -> Option<Block>
        requires root { IsData self.old.first self.old.count one.active }
        requires linked { (fact_at self.old.facts one.active).linked ≡ true }
        requires live { is_usable self.old.one.low (label_at self.old.labels one.active) ≡ false }
        requires high { one.high ≡ self.old.one.high }
        requires low { one.low ≡ self.old.one.low }
        requires spelled { (bytes : List ℕ) → self.old.doubt ≡ Some bytes → SpellsSuper one bytes }
        ensures { (disk : Holds) (faults : ℕ) → MatchOption self.old.doubt ((result ≡ None) × (parts self.new disk faults ≡ parts self.old disk faults))
            (λ bytes. (result ≡ Some self.old.one_bytes) × (parts self.new disk faults ≡ record (parts self.old disk faults) { one = one; one_bytes = bytes; doubt = None })) }
    {
        let Some(mut block) = self.doubt.take() else {
            return None;
        };
        std::mem::swap(&mut self.one_bytes, &mut block);
        self.one = one;
        Some(block)
    }
}
