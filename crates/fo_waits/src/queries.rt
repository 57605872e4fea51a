//! Who waits for what.
ghost use Rattle.std.specs.Prelude.{◌≡◌, ◌↔◌, ◌&&◌, ◌==◌, IsTrue};
ghost use Rattle.std.specs.List.{list_any};
ghost use Rattle.fo_waits.specs.Listed.{Clears};

use crate::listed::{Clearing, Wait};

// Whether a slot is among these.
fn any_listed(list: &[Clearing], at: u32, i: u32) -> bool
    ensures { result ≡ list_any (λ c. (c.at == at) && (c.slot == i)) list.now }
{
    list.iter().any(|c| c.at == at && c.slot == i)
}

/// Whether a slot waits to be cleared.
pub fn is_listed(list: &[Clearing], at: u32, i: u32) -> bool
    ensures { IsTrue result ↔ Clears list.now at i }
{
    any_listed(list, at, i)
}

/// Whether something waits for entries of a block.
pub fn is_awaited(waits: &[Wait], on: u32) -> bool
    ensures { result ≡ list_any (λ w. w.on == on) waits.now }
{
    waits.iter().any(|w| w.on == on)
}
