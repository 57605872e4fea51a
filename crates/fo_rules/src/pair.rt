//! The pair of entries of a file.
ghost use Rattle.std.specs.Prelude.{◌≡◌, ◌↔◌, IsTrue};
ghost use Rattle.fo_crash.specs.declared.slot.Slot.TheVariants.{Entry as Head};
ghost use Rattle.fo_good.specs.Trees.{IsFirst, IsSecond};
ghost use Rattle.fo_world.specs.Step.{is_dir_mode};

use fo_image::{Entry, Record};

fn is_dir(named: &Record) -> bool
    ensures { result ≡ is_dir_mode named.now.mode }
{
    1 << 31 <= named.mode
}

/// Whether an entry is the first of a record's pair.
fn is_first(named: &Record, entry: &Entry) -> bool
    ensures { IsTrue result ↔ IsFirst (Head entry.now) named.now }
{
    entry.active
        && entry.generation == named.generation
        && entry.dir == is_dir(named)
        && u64::from(entry.tag) == 32 + 2 * u64::from(named.number)
}

/// Whether an entry is the second of a record's pair.
fn is_second(named: &Record, entry: &Entry) -> bool
    ensures { IsTrue result ↔ IsSecond (Head entry.now) named.now }
{
    entry.active == is_dir(named)
        && !entry.dir
        && (!entry.active || u64::from(entry.tag) == 33 + 2 * u64::from(named.number))
}

/// Whether the two entries are in use for the record.
pub fn has_pair(named: &Record, first: &Entry, second: &Entry) -> bool
    ensures { IsTrue result ↔ (IsFirst (Head first.now) named.now × IsSecond (Head second.now) named.now) }
{
    is_first(named, first) && is_second(named, second)
}
