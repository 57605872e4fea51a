//! Room in the lists.
ghost use Rattle.std.specs.Prelude.{◌≡◌, ◌+◌, ◌*◌, ◌≤◌, OnOk};
ghost use Rattle.std.specs.Vec.{vec_len, vec_capacity};

use crate::listed::{Clearing, Wait};
use fo_base::Memory;

/// Makes room for so many slots that wait, and for the waits of a leaf of entries for each. This alone may want memory.
pub fn grow_lists(
    waits: &mut Vec<Wait>,
    clears: &mut Vec<Clearing>,
    removals: u32,
) -> Result<(), Memory>
    ensures ok { OnOk result ((vec_len waits.new + 102 * removals ≤ vec_capacity waits.new) × (vec_len clears.new + removals ≤ vec_capacity clears.new)) }
    ensures waits { (waits.new.items ≡ waits.old.items) × (vec_len waits.new ≡ vec_len waits.old) × (vec_capacity waits.old ≤ vec_capacity waits.new) }
    ensures clears { (clears.new.items ≡ clears.old.items) × (vec_len clears.new ≡ vec_len clears.old) × (vec_capacity clears.old ≤ vec_capacity clears.new) }
{
    waits.reserve(102 * removals as usize)?;
    clears.reserve(removals as usize)?;
    Ok(())
}
