//! A cache in which nothing is held yet.
ghost use Rattle.std.specs.Prelude.{◌≡◌, ◌+◌, ◌-◌, ◌^◌, ◌<◌, ◌≤◌, [], false, IfOk};
ghost use Rattle.fo_image.specs.Format.{SpellsSuper};
ghost use Rattle.fo_image.specs.Place.{first_data};
ghost use Rattle.fo_image.specs.Usable.{is_usable};
ghost use Rattle.fo_mind.specs.Parts.{count_of, label_at};
ghost use Rattle.fo_mind.specs.Sound.{Labelled, Rooted};
ghost use Rattle.fo_mind.specs.MindParts.{parts};
ghost use Rattle.fo_mind.specs.Opened.{opened};

use crate::mind::Mind;
use fo_base::Memory;
use fo_buffers::{Block, Buffers};
use fo_facts::Facts;
use fo_image::Super;
use fo_labels::Labels;
use fo_order::Order;
use fo_rooms::{Walk, Worklist};
use fo_unlink::Queue;
use std::alloc::Global;

impl Mind {
    /// A cache over a device with these labels and this super block, on which all is settled. The root's label says that it is not to
    /// be given out. Nothing is held, and no room is made.
    pub fn new(alloc: Global, labels: Labels, one: Super, one_bytes: Block) -> Result<Mind, Memory>
        requires place { labels.first ≡ first_data (count_of labels) }
        requires small { count_of labels < 2 ^ 32 - 1 }
        requires labelled { Labelled labels }
        requires spelled { SpellsSuper one one_bytes }
        requires live { is_usable one.low (label_at labels one.active) ≡ false }
        requires rooted { Rooted labels.first (count_of labels) one }
        ensures { IfOk result (λ m. parts m [] 0 ≡ opened labels one one_bytes) }
    {
        let first = labels.first();
        let count = first + labels.len();
        let order = Order::new(alloc, count)?;
        let facts = Facts::new(alloc, count)?;
        let buffers = Buffers::new(alloc)?;
        let queue = Queue::new(alloc, 0)?;
        Ok(Mind {
            alloc,
            buffers,
            order,
            labels,
            queue,
            facts,
            waits: Vec::new(alloc),
            clears: Vec::new(alloc),
            links: Worklist::new(alloc),
            walk: Walk::new(alloc),
            one,
            one_bytes,
            doubt: None,
            first,
            count,
            next: one.numbers,
            granted: false,
            spare: 0,
            pins: 0,
            room: 0,
        })
    }
}
