//! Pairs of entries are waited for.
ghost use Rattle.std.specs.Prelude.{◌≡◌, ◌↔◌, ◌+◌, ◌*◌, ◌<◌, ◌≤◌, ℕ, List, length, IsTrue};
ghost use Rattle.std.specs.List.{filter};
ghost use Rattle.std.specs.Vec.{vec_len, vec_capacity};
ghost use Rattle.fo_image.specs.declared.types.Kind.TheVariants.{Dir};
ghost use Rattle.fo_slots.specs.of_ports.Blocks.{ReadsSlots};
ghost use Rattle.fo_slots.specs.Read.{read};
ghost use Rattle.fo_waits.specs.declared.listed.Wait.{Wait as Awaited};
ghost use Rattle.fo_waits.specs.Ended.{EndsFirst, is_other};
ghost use Rattle.fo_waits.specs.Listed.{Clears, is_active};
ghost use Rattle.fo_waits.specs.Waited.{ListsPairs};

use crate::listed::{Clearing, Wait};
use crate::queries::is_listed;
use fo_crash::Slot;
use fo_image::Kind;
use fo_slots::slot_of;

fn is_active(slot: &Slot) -> bool
    ensures { result ≡ is_active slot.now }
{
    match slot {
        Slot::Entry(entry) => entry.active,
        _ => false,
    }
}

// Whether the first entry of a pair is in use.
fn is_used(bytes: &[u8], k: u32) -> bool
    requires pair { k < 102 }
    requires length { length bytes.now ≡ 8192 }
    requires slots { ReadsSlots (Dir 0) (read (Dir 0) bytes.now) bytes.now }
    ensures { result ≡ is_active ((read (Dir 0) bytes.now).slot (2 * k)) }
{
    is_active(&slot_of(Kind::Dir(0), bytes, 2 * k as usize))
}

// Whether a slot waits to be cleared.
fn is_cleared(clears: &Vec<Clearing>, on: u32, i: u32) -> bool
    ensures { IsTrue result ↔ Clears clears.now.items on i }
{
    is_listed(clears, on, i)
}

// Lists this pair, where its first entry is in use and waits for no clearing.
fn wait_pair(waits: &mut Vec<Wait>, clears: &Vec<Clearing>, bytes: &[u8], at: u32, on: u32, k: u32)
    requires room { vec_len waits.old < vec_capacity waits.old }
    requires pair { k < 102 }
    requires length { length bytes.now ≡ 8192 }
    requires slots { ReadsSlots (Dir 0) (read (Dir 0) bytes.now) bytes.now }
    ensures len { vec_len waits.new ≤ vec_len waits.old + 1 }
    ensures capacity { vec_capacity waits.new ≡ vec_capacity waits.old }
    ensures lists { (old : List Awaited) → ListsPairs clears.now.items (read (Dir 0) bytes.now) at on k old waits.old.items → ListsPairs clears.now.items (read (Dir 0) bytes.now) at on (k + 1) old waits.new.items }
{
    if !is_used(bytes, k) {
        return;
    }
    if is_cleared(clears, on, 2 * k) {
        return;
    }
    waits.push_reserved(Wait { at, on, pair: k });
}

/// Lists each such pair of a leaf of entries: from now on block `at` waits for it.
pub fn wait_pairs(waits: &mut Vec<Wait>, clears: &Vec<Clearing>, bytes: &[u8], at: u32, on: u32)
    requires room { vec_len waits.old + 102 ≤ vec_capacity waits.old }
    requires length { length bytes.now ≡ 8192 }
    requires slots { ReadsSlots (Dir 0) (read (Dir 0) bytes.now) bytes.now }
    ensures len { vec_len waits.new ≤ vec_len waits.old + 102 }
    ensures capacity { vec_capacity waits.new ≡ vec_capacity waits.old }
    ensures lists { ListsPairs clears.now.items (read (Dir 0) bytes.now) at on 102 waits.old.items waits.new.items }
{
    for k in 0..102 {
        wait_pair(waits, clears, bytes, at, on, k);
    }
}

// The waits but those for this pair of entries.
fn drop_pair(waits: &mut Vec<Wait>, on: u32, pair: u32)
    ensures items { waits.new.items ≡ filter (is_other on pair) waits.old.items }
    ensures len { vec_len waits.new ≤ vec_len waits.old }
    ensures capacity { vec_capacity waits.new ≡ vec_capacity waits.old }
{
    waits.retain(|w| w.on != on || w.pair != pair);
}

/// Where slot i is the first entry of a pair, no block waits for that pair any more.
pub fn end_first(waits: &mut Vec<Wait>, on: u32, i: u32)
    ensures ends { EndsFirst on i waits.old.items waits.new.items }
    ensures len { vec_len waits.new ≤ vec_len waits.old }
    ensures capacity { vec_capacity waits.new ≡ vec_capacity waits.old }
{
    if i % 2 != 0 {
        return;
    }
    drop_pair(waits, on, i / 2);
}
