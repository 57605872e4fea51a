//! The labels in groups, and the epochs from which on a group has a usable block.
ghost use Rattle.std.specs.Prelude.{◌≡◌, ◌+◌, ◌*◌, ◌/◌, ◌^◌, ◌<◌, ◌≤◌, length};
ghost use Rattle.fo_labels.specs.Floor.{floor};
ghost use Rattle.fo_labels.specs.Groups.{IsFloorOf, group_count, part};

use fo_image::{Label, State};

// How many labels a group has, but for the last one.
pub(crate) const GROUP: usize = 32;

// How many groups so many labels have.
pub(crate) fn groups_for(len: u32) -> u32
    ensures { result ≡ group_count len }
{
    len.div_ceil(GROUP as u32)
}

// The labels of a group.
pub(crate) fn part(labels: &[Label], group: usize) -> &[Label]
    requires size { length labels.now < 2 ^ 32 }
    requires group { group < group_count (length labels.now) }
    ensures { result.now ≡ part group labels.now }
{
    let from = GROUP * group;
    &labels[from..labels.len().min(from + GROUP)]
}

// The least settled low epoch from which on a block with one of these labels is usable, and 2^32 where none ever is.
pub(crate) fn least_floor(labels: &[Label]) -> u64
    ensures { IsFloorOf labels.now result }
{
    let mut least = 1 << 32;
    for label in labels {
        least = floor(label).min(least);
    }
    least
}

// The least settled low epoch from which on a block with this label is usable, and 2^32 for a live one.
fn floor(label: &Label) -> u64
    ensures { result ≡ floor label.now }
{
    match label.state {
        State::Free => 0,
        State::Live => 1 << 32,
        State::Closed if label.closing == label.epoch => 0,
        State::Closed => u64::from(label.closing),
    }
}
