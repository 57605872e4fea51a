//! The labels of the blocks that are not free, and which of them were reached.
ghost use Rattle.std.specs.Prelude.{◌≡◌, ◌≢◌, ℕ, ◌+◌, ◌-◌, ◌*◌, ◌^◌, ◌<◌, ◌≤◌, ◌↔◌, List, [], ◌∷◌, ◌++◌, length, IfErr, IfOk, OnOk, IsTrue, MatchBool, MatchOption, MatchResult, cond};
ghost use Rattle.std.specs.List.{All, Any};
ghost use Rattle.fo_image.specs.Place.{label_blocks, first_data};
ghost use Rattle.fo_disk.specs.Disk.{Block};
ghost use Rattle.fo_sound.specs.Device.{Shows};
ghost use Rattle.fo_sound.specs.Image.{block_of, label_bytes};
ghost use Rattle.fo_check_labels.specs.Table.{IsScanned, RefusesTable};
ghost use Rattle.fo_check_labels.specs.Cause.{HasCauses};
ghost use Rattle.fo_check_labels.specs.Known.{Ascend, IsBelow, IsFew, fresh, unreached, reached, leaked, IsAt, IsKnown, Marks, MarksNone, left_at};
ghost use Rattle.fo_check_labels.specs.Watch.{hits};
ghost use Rattle.fo_check_labels.specs.declared.error.TreeError.TheVariants.{Read as ReadFault, Memory as NoMemory};
ghost use Rattle.fo_image.specs.declared.types.State.TheVariants.{Free};

use crate::error::TreeError;
use crate::reads::{Reads, read};
use fo_disk::BLOCK;
use fo_image::{
    Label, State, first_data, is_usable, is_zero, label_blocks, label_place, read_label,
};
use std::alloc::Global;

/// A block that is not free.
#[derive(Clone, Copy)]
pub struct Known {
    pub address: u32,
    pub label: Label,
    pub reached: bool,
}

/// The blocks that are not free, by their addresses.
#[derive(Drop)]
pub struct Labels {
    pub known: Vec<Known>,
    /// How many of them may still be reached.
    pub left: usize,
    ghost ascending: { Ascend known.items },
    ghost counted: { left ≡ unreached known.items },
    ghost few: { length known.items ≤ 2 ^ 20 },
}

/// Whether a block with this label is free.
fn is_free(label: &Label) -> bool
    ensures { IsTrue result ↔ (label.now.state ≡ Free) }
{
    match label.state {
        State::Free => true,
        State::Live | State::Closed => false,
    }
}

impl Labels {
    /// Reads the label table, each block once. Free blocks take no memory.
    pub fn read<D: Reads>(alloc: Global, main: &mut D, blocks: u32) -> Result<Labels, TreeError>
        requires size { D.size main.old ≡ blocks }
        requires least { 64 ≤ blocks }
        requires most { blocks ≤ 2 ^ 20 }
        ensures table { (image : List Block) → length image ≡ blocks → Shows (D.state main.old).holds image → MatchResult result (λ l. IsScanned image (label_blocks blocks) (585 * label_blocks blocks) l.known.items) (RefusesTable image) }
        ensures size { D.size main.new ≡ D.size main.old }
        ensures kept { D.state main.new ≡ D.state main.old }
        ensures few { IfOk result (λ l. length l.known.items ≤ blocks - first_data blocks) }
        ensures reads { D.calls main.new ≤ D.calls main.old + label_blocks blocks }
        ensures once { MatchResult result (λ l. D.reads main.new + left_at D.watched l.known.items ≤ D.reads main.old + 1) (λ _. D.reads main.new ≤ D.reads main.old + 1) }
        ensures cause { HasCauses (D.faults main.old) (D.faults main.new) result }
    {
        let mut labels = Labels {
            known: Vec::new(alloc),
            left: 0,
        };
        let mut block = [0; BLOCK];
        for n in 0..label_blocks(blocks) {
            read(main, 2 + n, &mut block)?;
            labels.add_block(blocks, n, &block)?;
        }
        Ok(labels)
    }

    /// The labels of a block of the table.
    fn add_block(&mut self, blocks: u32, n: u32, block: &[u8]) -> Result<(), TreeError>
        requires place { n < label_blocks blocks }
        requires length { length block.now ≡ 8192 }
        requires most { blocks ≤ 2 ^ 20 }
        requires below { IsBelow (585 * n) self.old.known.items }
        ensures below { OnOk result (IsBelow (585 * (n + 1)) self.new.known.items) }
        ensures few { IsFew blocks (585 * n) self.old.known.items → OnOk result (IsFew blocks (585 * (n + 1)) self.new.known.items) }
        ensures table { (image : List Block) → length image ≡ blocks → block.now ≡ block_of image (2 + n) → IsScanned image n (585 * n) self.old.known.items
            → MatchResult result (λ _. IsScanned image (n + 1) (585 * (n + 1)) self.new.known.items) (RefusesTable image) }
        ensures cause { IfErr result (λ e. e ≡ ReadFault → ⊥) }
    {
        if is_zero(block) {
            return Ok(());
        }
        if !is_zero(&block[8190..]) {
            return Err(TreeError::Label(2 + n));
        }
        for place in 0..585 {
            let from = 14 * place as usize;
            self.add_label(blocks, 585 * n + place, &block[from..from + 14])?;
        }
        Ok(())
    }

    /// The label of this address.
    fn add_label(&mut self, blocks: u32, address: u32, bytes: &[u8]) -> Result<(), TreeError>
        requires length { length bytes.now ≡ 14 }
        requires most { blocks ≤ 2 ^ 20 }
        requires place { address < 585 * label_blocks blocks }
        requires below { IsBelow address self.old.known.items }
        ensures below { OnOk result (IsBelow (address + 1) self.new.known.items) }
        ensures few { IsFew blocks address self.old.known.items → OnOk result (IsFew blocks (address + 1) self.new.known.items) }
        ensures table { (image : List Block) (seen : ℕ) → length image ≡ blocks → bytes.now ≡ label_bytes image address → IsScanned image seen address self.old.known.items
            → MatchResult result (λ _. IsScanned image seen (address + 1) self.new.known.items) (RefusesTable image) }
        ensures cause { IfErr result (λ e. e ≡ ReadFault → ⊥) }
    {
        if address < first_data(blocks) || blocks <= address {
            if is_zero(bytes) {
                return Ok(());
            }
            return Err(TreeError::Label(label_place(address).0));
        }
        match read_label(bytes) {
            Err(_) => Err(TreeError::Label(address)),
            Ok(label) if is_free(&label) => Ok(()),
            Ok(label) => self.add_known(address, label),
        }
    }

    /// One block more, which was not reached.
    fn add_known(&mut self, address: u32, label: Label) -> Result<(), TreeError>
        requires below { IsBelow address self.old.known.items }
        requires most { address < 2 ^ 20 }
        ensures added { OnOk result (self.new.known.items ≡ self.old.known.items ++ fresh address label ∷ []) }
        ensures memory { IfErr result (λ e. e ≡ NoMemory) }
    {
        let known = Known {
            address,
            label,
            reached: false,
        };
        if self.known.push(known).is_err() {
            return Err(TreeError::Memory);
        }
        self.left += 1;
        Ok(())
    }

    /// The index of a block that is not free.
    fn find(&self, address: u32) -> Option<usize>
        ensures { MatchOption result (All (λ k. k.address ≢ address) self.now.known.items) (IsAt address self.now.known.items) }
    {
        let at = self.known.partition_point(|k| k.address < address);
        if at == self.known.len() {
            return None;
        }
        if self.known[at].address == address {
            Some(at)
        } else {
            None
        }
    }

    /// The label of a block that is not free.
    pub fn label(&self, address: u32) -> Option<Label>
        ensures { MatchOption result (All (λ k. k.address ≢ address) self.now.known.items) (λ l. Any (IsKnown address l) self.now.known.items) }
    {
        let at = self.find(address)?;
        Some(self.known[at].label)
    }

    /// Marks a block as reached, and answers whether it was not reached before.
    pub fn reach(&mut self, address: u32) -> bool
        ensures fewer { IsTrue result → self.new.left + 1 ≤ self.old.left }
        ensures left { self.new.left ≤ self.old.left }
        ensures long { length self.new.known.items ≡ length self.old.known.items }
        ensures spends { (at : ℕ) → left_at at self.new.known.items + cond result (hits address at) 0 ≤ left_at at self.old.known.items }
        ensures marks { MatchBool result (Marks address self.old.known.items self.new.known.items) (MarksNone address self.old.known.items self.new.known.items) }
    {
        let Some(at) = self.find(address) else {
            return false;
        };
        if self.known[at].reached {
            return false;
        }
        self.known[at].reached = true;
        self.left -= 1;
        true
    }

    /// How many blocks were reached.
    pub fn used(&self) -> u32
        ensures { result ≡ reached self.now.known.items }
    {
        let mut used: u32 = 0;
        for k in &self.known {
            if k.reached {
                used += 1;
            }
        }
        used
    }

    /// How many blocks were neither reached nor may be given out.
    pub fn leaked(&self, low: u32) -> u32
        ensures { result ≡ leaked low self.now.known.items }
    {
        let mut leaked: u32 = 0;
        for k in &self.known {
            if !k.reached && !is_usable(&k.label, low) {
                leaked += 1;
            }
        }
        leaked
    }
}
