//! The roots of archives, of 300 bytes.
ghost use Rattle.std.specs.Prelude.{◌≡◌, ◌↔◌, length, Option, Some, IsTrue};
ghost use Rattle.fo_image.specs.declared.types.Score.{Score};
ghost use Rattle.std.specs.List.{AllByRecursion};
ghost use Rattle.fo_image.specs.Field.{FieldFits, Reads, padded, spelling};
ghost use Rattle.fo_image.specs.Part.{parts_bytes};
ghost use Rattle.fo_image.specs.Format.{IsEpoch, last_bytes};
ghost use Rattle.fo_vacput.specs.declared.types.VacRoot.{VacRoot};
ghost use Rattle.fo_vacput.specs.Vac.{PrevHolds, VacRootHolds, SpellsVacRoot, vac_root_fields, name_text, kind_text, bad_vac};

use crate::name::{name_of, text_of, times_of};
use crate::types::{BadVac, VacRoot};
use fo_image::{Part, Score, is_score, is_spelled, is_zero, score_at, write_parts};

/// Whether the number is one of an epoch.
fn is_epoch(epoch: u32) -> bool
    ensures { IsTrue result ↔ IsEpoch epoch }
{
    1 <= epoch && epoch < 1 << 31
}

/// Whether there is no root before this one, or one that a score names.
fn is_prev(prev: Option<Score>) -> bool
    ensures { IsTrue result ↔ PrevHolds prev }
{
    match prev {
        None => true,
        Some(score) => is_score(score),
    }
}

/// Whether the root has a spelling.
pub fn is_vac_root(root: &VacRoot) -> bool
    ensures { IsTrue result ↔ VacRootHolds root.now }
{
    let _time = root.time;
    is_epoch(root.epoch) && is_score(root.top) && is_prev(root.prev)
}

fn prev_bytes(prev: Option<Score>) -> [u8; 20]
    ensures is { result ≡ last_bytes prev }
    ensures len { length result ≡ 20 }
{
    match prev {
        None => [0; 20],
        Some(score) => score.0,
    }
}

fn prev_at(bytes: &[u8]) -> Option<Score>
    requires { length bytes.now ≡ 20 }
    ensures { (prev : Option Score) → PrevHolds prev → bytes.now ≡ last_bytes prev → result ≡ prev }
{
    if is_zero(bytes) {
        None
    } else {
        Some(score_at(bytes, 0))
    }
}

fn parts_of<'a>(root: VacRoot, name: &'a [u8], kind: &'a [u8]) -> [Part<'a>; 6]
    requires name { (name.now ≡ padded 128 (name_text root.epoch root.time)) × (length name.now ≡ 128) }
    requires kind { (kind.now ≡ padded 128 kind_text) × (length kind.now ≡ 128) }
    ensures spelled { parts_bytes result ≡ spelling (vac_root_fields root) }
    ensures fit { AllByRecursion FieldFits (vac_root_fields root) }
{
    [
        Part::Two(2),
        Part::Bytes(name),
        Part::Bytes(kind),
        Part::Twenty(root.top.0),
        Part::Two(8192),
        Part::Twenty(prev_bytes(root.prev)),
    ]
}

/// Fills the 300 bytes with the root.
pub fn write_vac_root(v: &VacRoot, into: &mut [u8])
    requires spelled { VacRootHolds v.now }
    requires length { length into.old ≡ 300 }
    ensures { SpellsVacRoot v.now into.new }
{
    let name = name_of(v.epoch, v.time);
    let kind = text_of(&[Part::Bytes(b"fossil")]);
    write_parts(&parts_of(*v, &name, &kind), into);
}

/// The only root that these bytes can spell.
fn root_of(bytes: &[u8]) -> Option<VacRoot>
    requires { length bytes.now ≡ 300 }
    ensures { (r : VacRoot) → SpellsVacRoot r bytes.now → result ≡ Some r }
{
    let (epoch, time) = times_of(&bytes[2..130])?;
    Some(VacRoot {
        epoch,
        time,
        top: score_at(bytes, 258),
        prev: prev_at(&bytes[280..]),
    })
}

/// Whether the bytes spell the root.
fn is_root_at(root: &VacRoot, bytes: &[u8]) -> bool
    requires { length bytes.now ≡ 300 }
    ensures { IsTrue result ↔ SpellsVacRoot root.now bytes.now }
{
    if !is_vac_root(root) {
        return false;
    }
    let mut again = [0; 300];
    write_vac_root(root, &mut again);
    bytes == again.as_slice()
}

/// The root of an archive that the bytes spell, or `BadVac` where they spell none.
pub fn read_vac_root(bytes: &[u8]) -> Result<VacRoot, BadVac>
    ensures { Reads (λ v. SpellsVacRoot v bytes.now) bad_vac result }
{
    if bytes.len() != 300 {
        return Err(BadVac);
    }
    match root_of(bytes) {
        Some(root) if is_root_at(&root, bytes) => Ok(root),
        _ => Err(BadVac),
    }
}
