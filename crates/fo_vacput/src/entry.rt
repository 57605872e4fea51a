//! Archived entries, of 40 bytes.
ghost use Rattle.std.specs.Prelude.{◌≡◌, ◌↔◌, ◌+◌, ◌*◌, ◌<◌, Bool, length, IsTrue};
ghost use Rattle.std.specs.List.{AllByRecursion};
ghost use Rattle.fo_image.specs.Field.{FieldFits, Reads, spelling};
ghost use Rattle.fo_image.specs.Format.{flag_bits};
ghost use Rattle.fo_image.specs.Part.{parts_bytes};
ghost use Rattle.fo_vacput.specs.declared.types.VacEntry.{VacEntry};
ghost use Rattle.fo_vacput.specs.Vac.{sizes_are, VacEntryHolds, SpellsVacEntry, vac_entry_fields, bad_vac};

use crate::types::{BadVac, VacEntry};
use fo_image::{
    Part, Score, is_score, is_spelled, least_depth, score_at, u16_at, u32_at, write_parts,
};

fn flags_of(active: bool, dir: bool, depth: u8) -> u8
    requires { depth < 64 }
    ensures { result ≡ flag_bits active dir + 4 * depth }
{
    (if active { 1 } else { 0 }) + (if dir { 2 } else { 0 }) + 4 * depth
}

fn size_of(active: bool, size: u16) -> u16
    ensures { result ≡ sizes_are active size }
{
    if active { size } else { 0 }
}

/// Whether the entry has a spelling.
pub fn is_vac_entry(entry: &VacEntry) -> bool
    ensures { IsTrue result ↔ VacEntryHolds entry.now }
{
    if entry.active {
        entry.size < 1 << 48 && least_depth(entry.size) == entry.depth && is_score(entry.score)
    } else {
        !entry.dir && entry.depth == 0 && entry.size == 0 && entry.score.0 == [0; 20]
    }
}

fn parts_of(entry: VacEntry) -> [Part<'static>; 9]
    requires { VacEntryHolds entry }
    ensures spelled { parts_bytes result ≡ spelling (vac_entry_fields entry) }
    ensures fit { AllByRecursion FieldFits (vac_entry_fields entry) }
{
    [
        Part::Four(entry.generation),
        Part::Two(size_of(entry.active, 8180)),
        Part::Two(size_of(entry.active, 8192)),
        Part::One(flags_of(entry.active, entry.dir, entry.depth)),
        Part::One(0),
        Part::Four(0),
        Part::Two((entry.size >> 32) as u16),
        Part::Four((entry.size % (1 << 32)) as u32),
        Part::Twenty(entry.score.0),
    ]
}

/// The only entry that these bytes can spell.
pub fn entry_of(bytes: &[u8]) -> VacEntry
    requires { length bytes.now ≡ 40 }
    ensures { (e : VacEntry) → SpellsVacEntry e bytes.now → result ≡ e }
{
    VacEntry {
        generation: u32_at(bytes, 0),
        active: bytes[8] % 2 == 1,
        dir: bytes[8] / 2 % 2 == 1,
        depth: bytes[8] / 4,
        size: u16_at(bytes, 14) as u64 * (1 << 32) + u32_at(bytes, 16) as u64,
        score: score_at(bytes, 20),
    }
}

/// Fills the 40 bytes with the entry.
pub fn write_vac_entry(v: &VacEntry, into: &mut [u8])
    requires spelled { VacEntryHolds v.now }
    requires length { length into.old ≡ 40 }
    ensures { SpellsVacEntry v.now into.new }
{
    write_parts(&parts_of(*v), into);
}

/// The archived entry that the bytes spell, or `BadVac` where they spell none.
pub fn read_vac_entry(bytes: &[u8]) -> Result<VacEntry, BadVac>
    ensures { Reads (λ v. SpellsVacEntry v bytes.now) bad_vac result }
{
    if bytes.len() != 40 {
        return Err(BadVac);
    }
    let entry = entry_of(bytes);
    if is_vac_entry(&entry) && is_spelled(&parts_of(entry), bytes) {
        Ok(entry)
    } else {
        Err(BadVac)
    }
}
