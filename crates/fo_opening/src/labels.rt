//! The label table is read.
ghost use Rattle.std.specs.Prelude.{◌≡◌, ◌≢◌, ◌↔◌, ◌^◌, ◌<◌, ◌≤◌, ℕ, List, true, false, length, IsTrue, IfOk, IfErr};
ghost use Rattle.fo_image.specs.declared.types.Label.{Label};
ghost use Rattle.fo_image.specs.Format.{SpellsLabel};
ghost use Rattle.fo_image.specs.Place.{label_blocks};
ghost use Rattle.fo_image.specs.Usable.{free_label};
ghost use Rattle.fo_labels.specs.Region.{IsDataBlock};
ghost use Rattle.fo_labels.specs.Spelled.{AreLabels};
ghost use Rattle.fo_opening.specs.Opens.{HasTable, IsTable};
ghost use Rattle.fo_opening.specs.Loads.{IsLabelOf, IsNoBlock, Loads, LoadsBlock};
ghost use Rattle.fo_opening.specs.Refuses.{Blames, RefusesTable};

use crate::error::Why;
use crate::reads::read;
use fo_base::{BLOCK, LABELS};
use fo_disk::Disk;
use fo_image::{Kind, Label, State, first_data, is_zero, label_blocks, read_label};
use fo_labels::Labels;
use std::alloc::Global;

const FREE: Label = Label {
    state: State::Free,
    kind: Kind::Data(0),
    tag: 0,
    epoch: 0,
    closing: 0,
};

// Whether this is the address of a data block.
fn is_data(labels: &Labels, address: u32) -> bool
    ensures { IsTrue result ↔ IsDataBlock labels.now address }
{
    let first = labels.first();
    first <= address && address - first < labels.len()
}

// Whether a label is that of a free block.
fn is_free(label: &Label) -> bool
    ensures { IsTrue result ↔ (label.now ≡ free_label) }
{
    *label == FREE
}

// A label is put in, which bytes of this address spell; false where this is no data block, and the label not that of a free one.
fn put(labels: &mut Labels, address: u32, label: &Label) -> bool
    requires labelled { AreLabels labels.old }
    ensures loads { result ≡ true → (bytes : List ℕ) → SpellsLabel label.now bytes → Loads address bytes labels.old labels.new }
    ensures other { result ≡ false → (IsDataBlock labels.old address → ⊥) × (label.now ≢ free_label) }
{
    if is_data(labels, address) {
        labels.restore(address, *label);
        return true;
    }
    is_free(label)
}

// The label of this address is read; false where the bytes are none. What is no data block has to have that of a free one.
fn load_label(labels: &mut Labels, address: u32, bytes: &[u8]) -> bool
    requires length { length bytes.now ≡ 14 }
    requires labelled { AreLabels labels.old }
    ensures loads { result ≡ true → Loads address bytes.now labels.old labels.new }
    ensures bad { result ≡ false → (l : Label) → IsLabelOf labels.old address l → SpellsLabel l bytes.now → ⊥ }
{
    match read_label(bytes) {
        Ok(label) => put(labels, address, &label),
        Err(_) => false,
    }
}

// The labels of one block of the table are read; false where it isn't of the format of this block.
fn load_block(labels: &mut Labels, n: u32, block: &[u8]) -> bool
    requires few { n < 2 ^ 20 }
    requires length { length block.now ≡ 8192 }
    requires labelled { AreLabels labels.old }
    ensures loads { result ≡ true → LoadsBlock n block.now labels.old labels.new }
    ensures bad { result ≡ false → IsNoBlock n block.now labels.old }
{
    if !is_zero(&block[8190..]) {
        return false;
    }
    for place in 0..LABELS {
        let from = 14 * place as usize;
        if !load_label(labels, LABELS * n + place, &block[from..from + 14]) {
            return false;
        }
    }
    true
}

/// Reads the label table, each block once.
pub(crate) fn read_labels<D: Disk>(alloc: Global, main: &mut D, count: u32) -> Result<Labels, Why>
    requires size { D.size main.old ≡ count }
    requires least { 64 ≤ count }
    requires most { count ≤ 2 ^ 20 }
    ensures table { IfOk result (λ l. IsTable count l × HasTable (D.state main.old).holds (label_blocks count) l) }
    ensures refuses { IfErr result (RefusesTable count (D.state main.old).holds) }
    ensures size { D.size main.new ≡ D.size main.old }
    ensures state { D.state main.new ≡ D.state main.old }
    ensures blames { IfErr result (Blames (D.faults main.old) (D.faults main.new)) }
    ensures later { D.faults main.old ≤ D.faults main.new }
{
    let Ok(mut labels) = Labels::new(alloc, count, first_data(count)) else {
        return Err(Why::Memory);
    };
    let mut block = [0; BLOCK];
    for n in 0..label_blocks(count) {
        if let Err(e) = read(main, 2 + n, &mut block) {
            return Err(e);
        }
        if !load_block(&mut labels, n, &block) {
            return Err(Why::Label(2 + n));
        }
    }
    Ok(labels)
}
