//! The blocks of the label table are spelled.
ghost use Rattle.std.specs.Prelude.{◌≡◌, ◌+◌, ◌-◌, ◌*◌, ◌<◌, ◌≤◌, length};
ghost use Rattle.fo_image.specs.Format.{LabelHolds};
ghost use Rattle.fo_labels.specs.Spelled.{AreLabels, PutsLabel, SpellsLabels};

use crate::labels::Labels;
use fo_base::LABELS;
use fo_image::{Label, write_label};

// Spells a label at its place of a block.
fn put_label(label: &Label, place: u32, into: &mut [u8])
    requires label { LabelHolds label.now }
    requires place { place < 585 }
    requires length { length into.old ≡ 8192 }
    ensures { PutsLabel label.now place into.old into.new }
{
    let from = 14 * place as usize;
    write_label(label, &mut into[from..from + 14]);
}

// The address whose label stands at this place of a block of the label table. In the last block it may pass 32 bits.
fn address_at(at: u32, place: u32) -> u64
    requires table { 2 ≤ at }
    requires place { place < 585 }
    ensures { result ≡ 585 * (at - 2) + place }
{
    u64::from(LABELS) * u64::from(at - 2) + u64::from(place)
}

impl Labels {
    /// Fills a block with what this block of the label table has to have: the label of each address whose label stands there. What is
    /// no data block counts as free.
    pub fn spell(&self, at: u32, into: &mut [u8])
        requires table { 2 ≤ at }
        requires labels { AreLabels self.now }
        requires length { length into.old ≡ 8192 }
        ensures { SpellsLabels self.now at into.new }
    {
        into.fill(0);
        for place in 0..LABELS {
            let label = self.label_or_free(address_at(at, place));
            put_label(&label, place, into);
        }
    }
}
