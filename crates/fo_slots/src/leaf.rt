//! Whether a block is a leaf of records, without memory.
ghost use Rattle.std.specs.Prelude.{◌≡◌, ℕ, ◌+◌, ◌≤◌, ◌++◌, ◌↔◌, List, [], length, drop, Some, IsTrue, IfSome, IsSomeAnd};
ghost use Rattle.fo_image.specs.declared.record.Record.{Record};
ghost use Rattle.fo_image.specs.Record.{record_len};
ghost use Rattle.fo_ports.specs.of_meta.Leaf.{HasSpelling, SpellsLeaf, IsLeaf, record_bytes};
ghost use Rattle.fo_slots.specs.Formed.{RecordTo, RunsTo, EndsAt};

use crate::bytes::part;
use crate::records::has_record;
use fo_image::{is_zero, u16_at};

/// The end of the record at this place, where one stands there.
fn record_end(leaf: &[u8], at: usize) -> Option<usize>
    requires within { at ≤ length leaf.now }
    requires length { length leaf.now ≡ 8192 }
    ensures spelled { IfSome result (λ end. RecordTo leaf.now at end) }
    ensures only { (r : Record) (more : List ℕ) → HasSpelling r → drop at leaf.now ≡ record_bytes r ++ more → result ≡ Some (at + record_len r) }
{
    if leaf.len() < at + 2 {
        return None;
    }
    let len = u16_at(leaf, at) as usize;
    if leaf.len() < at + len {
        return None;
    }
    if !has_record(part(leaf, at, len)) {
        return None;
    }
    Some(at + len)
}

/// The end of so many records, one after the other from byte 4 on.
fn records_end(leaf: &[u8], count: u16) -> Option<usize>
    requires { length leaf.now ≡ 8192 }
    ensures spelled { IfSome result (λ at. RunsTo leaf.now count at) }
    ensures only { (rs : List Record) → SpellsLeaf rs leaf.now → length rs ≡ count → IsSomeAnd result (EndsAt leaf.now rs) }
{
    let mut at = 4;
    'records: for _ in 0..count {
        let Some(end) = record_end(leaf, at) else {
            return None;
        };
        at = end;
    }
    Some(at)
}

/// Whether the block is a leaf of records.
pub fn is_leaf(leaf: &[u8]) -> bool
    requires { length leaf.now ≡ 8192 }
    ensures { IsTrue result ↔ IsLeaf leaf.now }
{
    let count = u16_at(leaf, 0);
    let used = u16_at(leaf, 2) as usize;
    let Some(end) = records_end(leaf, count) else {
        return false;
    };
    if end != 4 + used {
        return false;
    }
    is_zero(&leaf[end..])
}
