//! Entries, of 40 bytes.
ghost use Rattle.std.specs.Prelude.{◌≡◌, ℕ, ◌↔◌, Bool, length, IsTrue};
ghost use Rattle.std.specs.List.{AllByRecursion};
ghost use Rattle.fo_image.specs.declared.types.Entry.{Entry};
ghost use Rattle.fo_image.specs.Field.{FieldFits, Reads, spelling};
ghost use Rattle.fo_image.specs.Part.{parts_bytes};
ghost use Rattle.fo_image.specs.Format.{IsDepth, flag_bits, EntryHolds, SpellsEntry, entry_fields};

use crate::parts::{Part, is_spelled, is_zero, u32_at, u64_at, write_parts};
use crate::pointers::{bytes_of, is_pointer, read_pointer};
use crate::types::{Bad, Entry, Pointer};
use fo_base::{BLOCK, POINTERS};

const NO_ENTRY: Entry = Entry {
    generation: 0,
    active: false,
    dir: false,
    depth: 0,
    tag: 0,
    size: 0,
    top: Pointer::Nil,
};

/// The least depth of a tree of blocks that has room for so many bytes.
pub fn least_depth(size: u64) -> u8
    ensures is_least { IsDepth size result }
    ensures only { (depth : ℕ) → IsDepth size depth → depth ≡ result }
{
    let leaves = size.div_ceil(BLOCK as u64);
    let mut held: u64 = 1;
    for depth in 0..6 {
        if leaves <= held {
            return depth;
        }
        held *= POINTERS as u64;
    }
    6
}

fn flags_of(active: bool, dir: bool) -> u8
    ensures { result ≡ flag_bits active dir }
{
    (if active { 1 } else { 0 }) + (if dir { 2 } else { 0 })
}

fn flags_at(flags: u8) -> (bool, bool)
    ensures { (active dir : Bool) → flags ≡ flag_bits active dir → result ≡ (active, dir) }
{
    match flags {
        1 => (true, false),
        2 => (false, true),
        3 => (true, true),
        _ => (false, false),
    }
}

/// Whether the entry has a spelling.
pub fn is_entry(entry: &Entry) -> bool
    ensures { IsTrue result ↔ EntryHolds entry.now }
{
    if entry.active {
        least_depth(entry.size) == entry.depth && is_pointer(entry.top)
    } else {
        !entry.dir
            && entry.depth == 0
            && entry.tag == 0
            && entry.size == 0
            && entry.top == Pointer::Nil
    }
}

fn parts_of(entry: Entry) -> [Part<'static>; 7]
    requires { EntryHolds entry }
    ensures spelled { parts_bytes result ≡ spelling (entry_fields entry) }
    ensures fit { AllByRecursion FieldFits (entry_fields entry) }
{
    [
        Part::Four(entry.generation),
        Part::One(flags_of(entry.active, entry.dir)),
        Part::One(entry.depth),
        Part::Two(0),
        Part::Four(entry.tag),
        Part::Eight(entry.size),
        Part::Twenty(bytes_of(entry.top)),
    ]
}

/// The only entry that these bytes can spell.
pub fn entry_of(bytes: &[u8]) -> Entry
    requires { length bytes.now ≡ 40 }
    ensures { (e : Entry) → SpellsEntry e bytes.now → result ≡ e }
{
    let (active, dir) = flags_at(bytes[4]);
    Entry {
        generation: u32_at(bytes, 0),
        active,
        dir,
        depth: bytes[5],
        tag: u32_at(bytes, 8),
        size: u64_at(bytes, 12),
        top: read_pointer(&bytes[20..]),
    }
}

/// Fills the 40 bytes with the entry.
pub fn write_entry(v: &Entry, into: &mut [u8])
    requires spelled { EntryHolds v.now }
    requires length { length into.old ≡ 40 }
    ensures { SpellsEntry v.now into.new }
{
    write_parts(&parts_of(*v), into);
}

/// The entry that the 40 bytes spell, or `Bad::Entry` where they spell none. Most slots are all zeros, and are told at one look.
pub fn read_entry(bytes: &[u8]) -> Result<Entry, Bad>
    requires { length bytes.now ≡ 40 }
    ensures { Reads (λ e. SpellsEntry e bytes.now) Bad.Entry result }
{
    if is_zero(bytes) {
        return Ok(NO_ENTRY);
    }
    let entry = entry_of(bytes);
    if is_entry(&entry) && is_spelled(&parts_of(entry), bytes) {
        Ok(entry)
    } else {
        Err(Bad::Entry)
    }
}
