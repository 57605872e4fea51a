//! Whether a block is settled as memory has it.
ghost use Rattle.std.specs.Prelude.{◌≡◌, ◌↔◌, ◌==◌, ℕ, [], true, IsTrue, None};
ghost use Rattle.std.specs.List.{list_any};
ghost use Rattle.std.specs.Option.{option_map_or};
ghost use Rattle.fo_buffers.specs.Held.{held_at, is_dirty};
ghost use Rattle.fo_order.specs.declared.marks.Tried.TheVariants.{Settled};
ghost use Rattle.fo_order.specs.Turns.{flag_at};
ghost use Rattle.fo_waits.specs.Listed.{Clears};
ghost use Rattle.fo_mind.specs.MindParts.{parts};
ghost use Rattle.fo_mind.specs.Parts.{IsDirty, IsSure};

use fo_buffers::Buffers;
use fo_mind::Mind;
use fo_order::{Flags, Order, Tried};
use fo_waits::Clearing;

// What is known of an address in the order of writing; of one that is none, that it is settled.
fn flags_at(order: &Order, at: u32) -> Flags
    ensures { result ≡ flag_at order.now at }
{
    if (at as usize) < order.len() {
        return order.flags(at);
    }
    Flags {
        dirty: false,
        tried: Tried::Settled,
        rank: 0,
    }
}

fn is_settled(tried: Tried) -> bool
    ensures { IsTrue result ↔ (tried ≡ Settled) }
{
    match tried {
        Tried::Settled => true,
        Tried::Written | Tried::Failed => false,
    }
}

// Whether memory changed a block.
fn is_dirty(order: &Order, buffers: &Buffers, at: u32) -> bool
    ensures { IsTrue result ↔ IsDirty order.now buffers.now at }
{
    flags_at(order, at).dirty || buffers.is_dirty(at)
}

// Whether some slot of a block waits to be cleared.
fn any_clears(clears: &[Clearing], at: u32) -> bool
    ensures { result ≡ list_any (λ c. c.at == at) clears.now }
{
    clears.iter().any(|c| c.at == at)
}

// Whether no slot of a block waits to be cleared.
fn is_clear(clears: &[Clearing], at: u32) -> bool
    ensures { IsTrue result ↔ ((j : ℕ) → Clears clears.now at j → ⊥) }
{
    !any_clears(clears, at)
}

// Whether a block isn't one that is in doubt.
fn is_known(mind: &Mind, at: u32) -> bool
    ensures { IsTrue result ↔ (at ≡ 1 → mind.now.doubt ≡ None) }
{
    if at != 1 {
        return true;
    }
    mind.doubt.is_none()
}

/// Whether a block is settled as memory has it, with no slot that waits.
pub fn is_sure(mind: &Mind, at: u32) -> bool
    ensures { IsTrue result ↔ IsSure (parts mind.now [] 0) at }
{
    let settled = is_settled(flags_at(&mind.order, at).tried);
    let dirty = is_dirty(&mind.order, &mind.buffers, at);
    let clear = is_clear(&mind.clears, at);
    let known = is_known(mind, at);
    settled && !dirty && clear && known
}
