//! Top blocks of archives, of 8192 bytes.
ghost use Rattle.std.specs.Prelude.{◌≡◌, ◌↔◌, length, Some, IsTrue, IfOk, IfErr};
ghost use Rattle.fo_image.specs.Record.{RootRecordHolds};
ghost use Rattle.fo_vacput.specs.declared.types.VacTop.{VacTop};
ghost use Rattle.fo_vacput.specs.declared.types.VacTopError.TheVariants.{Memory};
ghost use Rattle.fo_vacput.specs.Top.{VacTopHolds, SpellsVacTop, ReadsVacTop};

use crate::entry::{entry_of, is_vac_entry, write_vac_entry};
use crate::types::{VacTop, VacTopError};
use fo_image::{
    BLOCK, Part, Record, RecordError, is_record, read_record, record_len, u16_at, write_parts,
    write_record,
};
use std::alloc::Global;

/// Whether this can be the record of a root directory.
fn is_root_record(own: &Record) -> bool
    ensures { IsTrue result ↔ RootRecordHolds own.now }
{
    is_record(own)
        && own.name.as_slice() == b"/".as_slice()
        && own.number == 0
        && own.slot == 0
        && own.generation == 0
}

/// Whether the top block has a spelling.
pub fn is_vac_top(top: &VacTop) -> bool
    ensures { IsTrue result ↔ VacTopHolds top.now }
{
    is_vac_entry(&top.entries)
        && is_vac_entry(&top.meta)
        && top.entries.active
        && top.entries.dir
        && top.meta.active
        && !top.meta.dir
        && is_root_record(&top.own)
}

/// Fills the block with the top block.
pub fn write_vac_top(v: &VacTop, into: &mut [u8])
    requires spelled { VacTopHolds v.now }
    requires length { length into.old ≡ 8192 }
    ensures { SpellsVacTop v.now into.new }
{
    let mut entries = [0; 40];
    write_vac_entry(&v.entries, &mut entries);
    let mut meta = [0; 40];
    write_vac_entry(&v.meta, &mut meta);
    let mut room = [0; 481];
    let own = &mut room[..record_len(&v.own)];
    write_record(&v.own, own);
    write_parts(
        &[Part::Bytes(&entries), Part::Bytes(&meta), Part::Bytes(own)],
        into,
    );
}

/// The only top block that this block can spell.
fn top_of(alloc: Global, block: &[u8]) -> Result<Option<VacTop>, VacTopError>
    requires { length block.now ≡ 8192 }
    ensures only { (t : VacTop) → SpellsVacTop t block.now → IfOk result (λ read. read ≡ Some t) }
    ensures memory { IfErr result (λ e. e ≡ Memory) }
{
    let end = 80 + u16_at(block, 80) as usize;
    if BLOCK < end {
        return Ok(None);
    }
    let entries = entry_of(&block[0..40]);
    let meta = entry_of(&block[40..80]);
    match read_record(alloc, &block[80..end]) {
        Ok(own) => Ok(Some(VacTop { entries, meta, own })),
        Err(RecordError::Bad(_)) => Ok(None),
        Err(RecordError::Memory) => Err(VacTopError::Memory),
    }
}

/// Whether the block spells the top block.
fn is_top_at(top: &VacTop, block: &[u8]) -> bool
    requires { length block.now ≡ 8192 }
    ensures { IsTrue result ↔ SpellsVacTop top.now block.now }
{
    if !is_vac_top(top) {
        return false;
    }
    let mut again = [0; BLOCK];
    write_vac_top(top, &mut again);
    block == again.as_slice()
}

/// The top block that the block spells, or `Bad` where it spells none.
pub fn read_vac_top(alloc: Global, block: &[u8]) -> Result<VacTop, VacTopError>
    requires { length block.now ≡ 8192 }
    ensures { ReadsVacTop block.now result }
{
    let Some(top) = top_of(alloc, block)? else {
        return Err(VacTopError::Bad);
    };
    if is_top_at(&top, block) {
        Ok(top)
    } else {
        Err(VacTopError::Bad)
    }
}
