//! Whether a block is a root block, but for its slots, without memory.
ghost use Rattle.std.specs.Prelude.{◌≡◌, ◌↔◌, length, take, drop, IsTrue};
ghost use Rattle.fo_image.specs.Format.{IsEpoch};
ghost use Rattle.fo_slots.specs.Formed.{IsRootHead, IsRootTail, IsRootBeside};

use crate::records::has_root_record;
use fo_image::{Part, is_spelled, is_zero, u16_at, u32_at};

fn is_epoch(epoch: u32) -> bool
    ensures { IsTrue result ↔ IsEpoch epoch }
{
    1 <= epoch && epoch < 1 << 31
}

/// Whether a root block may begin so.
fn is_head(head: &[u8]) -> bool
    requires { length head.now ≡ 16 }
    ensures { IsTrue result ↔ IsRootHead head.now }
{
    let epoch = u32_at(head, 8);
    let time = u32_at(head, 12);
    if !is_epoch(epoch) {
        return false;
    }
    is_spelled(
        &[
            Part::Bytes(b"FOSSILRT"),
            Part::Four(epoch),
            Part::Four(time),
        ],
        head,
    )
}

/// Whether a root block may have this behind its slots.
fn is_tail(tail: &[u8]) -> bool
    requires { length tail.now ≡ 8088 }
    ensures { IsTrue result ↔ IsRootTail tail.now }
{
    let len = u16_at(tail, 0) as usize;
    if tail.len() < len {
        return false;
    }
    let (own, rest) = tail.split_at(len);
    if !has_root_record(own) {
        return false;
    }
    is_zero(rest)
}

/// Whether the block is a root block, whatever stands where slots are spelled.
pub fn is_root_beside(block: &[u8]) -> bool
    requires { length block.now ≡ 8192 }
    ensures { IsTrue result ↔ IsRootBeside block.now }
{
    if !is_head(&block[..16]) {
        return false;
    }
    is_tail(&block[104..])
}
