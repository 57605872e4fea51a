//! Blocks are given out.
ghost use Rattle.std.specs.Prelude.{◌≡◌, ◌+◌, ◌<◌, ◌≤◌, ℕ, Some, length};
ghost use Rattle.fo_disk.specs.Disk.{Content as Holds};
ghost use Rattle.fo_image.specs.Format.{KindHolds, LabelHolds};
ghost use Rattle.fo_image.specs.Usable.{live_label};
ghost use Rattle.fo_labels.specs.Region.{IsUsableBlock, least_usable, relabeled, usable_count};
ghost use Rattle.fo_bring.specs.Blocks.{Good};
ghost use Rattle.fo_mind.specs.Changes.{Given};
ghost use Rattle.fo_mind.specs.MindParts.{parts};

use crate::mind::Mind;
use fo_image::{Kind, label_place};
use fo_labels::Labels;

// Gives out the least usable block, of which there is one.
fn alloc_in(labels: &mut Labels, kind: Kind, tag: u32, epoch: u32, low: u32) -> u32
    requires label { LabelHolds (live_label kind tag epoch) }
    requires some { 0 < usable_count low labels.old }
    ensures least { Some result ≡ least_usable low labels.old }
    ensures usable { IsUsableBlock low labels.old result }
    ensures is { labels.new ≡ relabeled labels.old result (live_label kind tag epoch) }
    ensures count { usable_count low labels.new + 1 ≡ usable_count low labels.old }
{
    let Some(at) = labels.alloc(kind, tag, epoch, low) else {
        return 0;
    };
    at
}

impl Mind {
    /// Gives out the least usable block with these bytes, to come in the place of another. It is held, dirty and pinned.
    pub fn give(
        &mut self,
        kind: Kind,
        tag: u32,
        rank: u32,
        bytes: &[u8],
        origin: Option<u32>,
    ) -> u32
        requires spare { 0 < self.old.spare }
        requires kind { KindHolds kind }
        requires good { Good self.old.first self.old.count kind bytes.now }
        ensures { (disk : Holds) (faults : ℕ) → Given result kind tag rank bytes.now origin (parts self.old disk faults) (parts self.new disk faults) }
    {
        let low = self.one.low;
        let high = self.one.high;
        let at = alloc_in(&mut self.labels, kind, tag, high, low);
        self.buffers.make(at, bytes);
        self.order.change(label_place(at).0, 0);
        self.facts.give(at, origin, rank);
        self.spare -= 1;
        at
    }
}
