//! How many removals a put takes.
ghost use Rattle.std.specs.Prelude.{◌≡◌, ◌≤◌};
ghost use Rattle.fo_crash.specs.Images.{depth_of, target};
ghost use Rattle.fo_slots.specs.of_ports.Blocks.{cost, ends};

use fo_crash::Slot;
use fo_image::Pointer;

fn depth_of(slot: &Slot) -> u8
    ensures { result ≡ depth_of slot.now }
{
    match slot {
        Slot::Entry(entry) => entry.depth,
        _ => 0,
    }
}

fn ends(old: Pointer, new: Pointer) -> u32
    ensures is { result ≡ ends old new }
    ensures most { result ≤ 1 }
{
    match (old, new) {
        (Pointer::Local(_), Pointer::Nil) => 1,
        (Pointer::Local(_), Pointer::Score(_)) => 1,
        _ => 0,
    }
}

/// How many removals a put of the second slot over the first takes, beside one for each copy that comes in with it.
pub fn cost(old: &Slot, new: &Slot) -> u32
    ensures is { result ≡ cost old.now new.now }
    ensures ends { ends (target old.now) (target new.now) ≤ result }
{
    let levels = depth_of(old).saturating_sub(depth_of(new));
    409 * levels as u32 + ends(old.target(), new.target())
}
