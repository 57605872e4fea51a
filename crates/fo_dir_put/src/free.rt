//! Whether a pair of an owned leaf is free, and the generation that it has next.
ghost use Rattle.std.specs.Prelude.{◌≡◌, ◌⊎◌, ◌+◌, ◌*◌, ◌%◌, ◌^◌, ◌<◌, true, false};
ghost use Rattle.fo_image.specs.declared.types.Entry.{Entry};
ghost use Rattle.fo_crash.specs.declared.slot.Slot.TheVariants.{Entry as Head};
ghost use Rattle.fo_dir_put.specs.Puts.{IsOwnedEntries, IsUnused, IsTakenEntry};

use fo_crash::Slot;
use fo_ports::Blocks;

/// Whether an entry is in use, or waits to be cleared.
fn is_taken<B: Blocks>(on: &B, entries: u32, j: u32) -> bool
    requires owned { IsOwnedEntries (B.state on.now) entries }
    requires within { j < 204 }
    ensures taken { result ≡ true → IsTakenEntry (B.state on.now) entries j }
    ensures free { result ≡ false → IsTakenEntry (B.state on.now) entries j → ⊥ }
{
    match on.slot(entries, j) {
        Slot::Entry(entry) => entry.active || on.is_clearing(entries, j),
        _ => on.is_clearing(entries, j),
    }
}

/// Whether neither entry of a pair is in use or waits to be cleared. Nobody waits for them then.
pub fn is_free<B: Blocks>(on: &B, entries: u32, p: u32) -> bool
    requires owned { IsOwnedEntries (B.state on.now) entries }
    requires within { p < 102 }
    ensures free { result ≡ true → IsUnused (B.state on.now) entries (2 * p) × IsUnused (B.state on.now) entries (2 * p + 1) }
    ensures taken { result ≡ false → IsTakenEntry (B.state on.now) entries (2 * p) ⊎ IsTakenEntry (B.state on.now) entries (2 * p + 1) }
{
    !is_taken(on, entries, 2 * p) && !is_taken(on, entries, 2 * p + 1)
}

/// The generation that a pair has next: that of its first entry raised by 1, and 0 after the last.
pub fn next_generation<B: Blocks>(on: &B, entries: u32, p: u32) -> u32
    requires owned { IsOwnedEntries (B.state on.now) entries }
    requires within { p < 102 }
    ensures { (e : Entry) → ((B.state on.now).now entries).slot (2 * p) ≡ Head e → result ≡ (e.generation + 1) % 2 ^ 32 }
{
    match on.slot(entries, 2 * p) {
        Slot::Entry(entry) => entry.generation.wrapping_add(1),
        _ => 0,
    }
}
