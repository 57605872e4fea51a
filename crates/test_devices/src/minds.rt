//! A cache over a disk of which nothing is known.
ghost use Rattle.std.specs.Prelude.{◌≡◌, ◌<◌, ◌≤◌, false, [], IfOk};
ghost use Rattle.std.proofs.Common.{inl, refl};
ghost use Rattle.fo_disk.specs.File.{silent, silent_bytes};
ghost use Rattle.fo_image.specs.Format.{KindHolds, SpellsSuper, SuperHolds};
ghost use Rattle.fo_image.specs.Usable.{is_usable};
ghost use Rattle.fo_mind.specs.MindParts.{parts};
ghost use Rattle.fo_mind.specs.Opened.{opened};
ghost use Rattle.fo_mind.specs.Parts.{count_of, label_at};
ghost use Rattle.fo_mind.specs.Sound.{Labelled};

use fo_base::{BLOCK, Memory};
use fo_buffers::Block;
use fo_cache::Cache;
use fo_disk::{Disk, Failed};
use fo_image::{Kind, Label, State, Super, write_super};
use fo_labels::Labels;
use fo_mind::Mind;
use std::alloc::Global;

/// A disk of ten blocks of zeros, which forgets what is written, and tells nothing.
#[derive(Drop)]
pub struct Zeros {
    calls: u64,
}

impl Disk for Zeros {
    ghost state = { λ d. silent };

    ghost size = { λ d. 10 };

    ghost calls = { λ d. d.calls };

    ghost faults = { λ d. 0 };

    ghost is_content = { λ d. inl refl };

    ghost are_bytes = { λ d. silent_bytes };

    ghost is_newest = { λ d. record { newest = tt } };

    ghost has_flags = { λ d. refl };

    fn blocks(&mut self) -> Result<u64, Failed> {
        self.calls = self.calls.saturating_add(1);
        Ok(10)
    }

    fn read(&mut self, _at: u32, into: &mut [u8]) -> Result<(), Failed> {
        self.calls = self.calls.saturating_add(1);
        into.fill(0);
        Ok(())
    }

    fn write(&mut self, _at: u32, _from: &[u8]) -> Result<(), Failed> {
        self.calls = self.calls.saturating_add(1);
        Ok(())
    }

    fn sync(&mut self) -> Result<(), Failed> {
        self.calls = self.calls.saturating_add(1);
        Ok(())
    }
}

/// A super block of the first epoch, whose root is block 9.
const FIRST: Super = Super {
    version: 1,
    low: 1,
    high: 1,
    active: 9,
    numbers: 1,
    pending: 0,
    last: None,
};

/// A block is live, of tag 7 and the first epoch.
fn make_live(labels: &mut Labels, at: u32, kind: Kind)
    requires first { labels.old.first ≡ 3 }
    requires count { count_of labels.old ≡ 10 }
    requires labelled { Labelled labels.old }
    requires kind { KindHolds kind }
    requires block { (3 ≤ at) × (at < 10) }
    ensures first { labels.new.first ≡ 3 }
    ensures count { count_of labels.new ≡ 10 }
    ensures labelled { Labelled labels.new }
    ensures live { is_usable 1 (label_at labels.new at) ≡ false }
{
    let label = Label {
        state: State::Live,
        kind,
        tag: 7,
        epoch: 1,
        closing: u32::MAX,
    };
    labels.restore(at, label);
}

/// The labels of ten blocks, of which 3 to 9 are data blocks: 5, of data, and the root are live, and all others are free.
fn labels(alloc: Global) -> Result<Labels, Memory>
    ensures first { IfOk result (λ r. r.first ≡ 3) }
    ensures count { IfOk result (λ r. count_of r ≡ 10) }
    ensures labelled { IfOk result Labelled }
    ensures live { IfOk result (λ r. is_usable 1 (label_at r 9) ≡ false) }
{
    let mut labels = Labels::new(alloc, 10, 3)?;
    make_live(&mut labels, 5, Kind::Data(0));
    make_live(&mut labels, 9, Kind::Root);
    Ok(labels)
}

/// A block that spells a super block.
fn spelled(alloc: Global, one: &Super) -> Result<Block, Memory>
    requires { SuperHolds one.now }
    ensures { IfOk result (SpellsSuper one.now) }
{
    let mut bytes = [0; BLOCK];
    write_super(one, &mut bytes);
    let mut block = Block::new(alloc)?;
    block.fill(&bytes);
    Ok(block)
}

/// A mind over ten blocks, in which nothing is held.
fn mind(alloc: Global) -> Result<Mind, Memory>
    ensures opened { IfOk result (λ m. parts m [] 0 ≡ opened (parts m [] 0).region (parts m [] 0).one (parts m [] 0).one_bytes) }
    ensures first { IfOk result (λ m. (parts m [] 0).region.first ≡ 3) }
    ensures count { IfOk result (λ m. count_of (parts m [] 0).region ≡ 10) }
{
    let labels = labels(alloc)?;
    let block = spelled(alloc, &FIRST)?;
    Mind::new(alloc, labels, FIRST, block)
}

/// A cache over ten blocks of zeros.
pub fn small(alloc: Global) -> Result<Cache<Zeros>, Memory>
    ensures first { IfOk result (λ c. (parts c.mind [] 0).region.first ≡ 3) }
    ensures count { IfOk result (λ c. count_of (parts c.mind [] 0).region ≡ 10) }
{
    let mind = mind(alloc)?;
    Ok(Cache::open(Zeros { calls: 0 }, mind))
}
