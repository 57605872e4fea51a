//! Slots that wait are taken out of their list.
ghost use Rattle.std.specs.Prelude.{◌≡◌, ◌==◌, ◌≤◌};
ghost use Rattle.std.specs.List.{filter, list_any};
ghost use Rattle.std.specs.Vec.{vec_len, vec_capacity};
ghost use Rattle.fo_waits.specs.Ended.{TakesOut, is_another};

use crate::listed::Clearing;

/// Whether a slot of this block waits to be cleared.
pub fn has_clearing(clears: &[Clearing], at: u32) -> bool
    ensures { result ≡ list_any (λ c. c.at == at) clears.now }
{
    clears.iter().any(|c| c.at == at)
}

// The slots that wait but this one.
fn drop_clearing(clears: &mut Vec<Clearing>, at: u32, i: u32)
    ensures items { clears.new.items ≡ filter (is_another at i) clears.old.items }
    ensures len { vec_len clears.new ≤ vec_len clears.old }
    ensures capacity { vec_capacity clears.new ≡ vec_capacity clears.old }
{
    clears.retain(|c| c.at != at || c.slot != i);
}

/// A slot waits no more to be cleared.
pub fn take_out(clears: &mut Vec<Clearing>, at: u32, i: u32)
    ensures out { TakesOut at i clears.old.items clears.new.items }
    ensures len { vec_len clears.new ≤ vec_len clears.old }
    ensures capacity { vec_capacity clears.new ≡ vec_capacity clears.old }
{
    drop_clearing(clears, at, i);
}
