//! The slots of a pointer block.
ghost use Rattle.std.specs.Prelude.{◌≡◌, ℕ, ◌+◌, ◌*◌, ◌<◌, ◌≤◌, List, length, MatchOption};
ghost use Rattle.fo_unlink.specs.Slots.{IsNextTarget};

use fo_base::POINTERS;
use fo_image::{Pointer, read_pointer};

/// The slot and the address of the first pointer to a block of the main device, from this slot on.
pub fn next_target(block: &[u8], from: u16) -> Option<(u16, u32)>
    requires { length block.now ≡ 8192 }
    ensures { IsNextTarget block.now from result }
{
    for slot in from..POINTERS as u16 {
        let start = 20 * slot as usize;
        if let Pointer::Local(at) = read_pointer(&block[start..start + 20]) {
            return Some((slot, at));
        }
    }
    None
}
