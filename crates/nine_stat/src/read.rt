//! Stat records read.
ghost use Rattle.std.specs.Prelude.{◌≡◌, IfOk, MatchResult};
ghost use Rattle.nine_fields.specs.Field.{IsStat};
ghost use Rattle.nine_fields.specs.Reading.{Gives, stat_at};
ghost use Rattle.nine_stat.specs.declared.stat.Stat.{Stat};
ghost use Rattle.nine_stat.specs.Stat.{stat_fields, IsRecord};

use crate::error::StatError;
use crate::stat::Stat;
use nine_fields::{ReadError, stat_at};
use nine_wire::Str;
use std::alloc::Global;

/// The record that the bytes are.
fn stat_of(alloc: Global, bytes: &[u8]) -> Result<Stat, ReadError>
    ensures { Gives stat_fields result (stat_at bytes.now) }
{
    let parts = stat_at(bytes)?;
    let name = Str::copy_of(alloc, parts.name)?;
    let uid = Str::copy_of(alloc, parts.uid)?;
    let gid = Str::copy_of(alloc, parts.gid)?;
    let muid = Str::copy_of(alloc, parts.muid)?;
    Ok(Stat {
        kind: parts.kind,
        dev: parts.dev,
        qid: parts.qid,
        mode: parts.mode,
        atime: parts.atime,
        mtime: parts.mtime,
        length: parts.length,
        name,
        uid,
        gid,
        muid,
    })
}

/// The stat record that all of the bytes are.
pub fn read_stat(alloc: Global, bytes: &[u8]) -> Result<Stat, StatError>
    // The bytes are the record that is answered.
    ensures found { IfOk result (λ stat. IsRecord bytes.now stat) }
    // A record that they are is answered, unless memory runs out.
    ensures only { (s : Stat) → IsRecord bytes.now s → MatchResult result (λ stat. stat ≡ s) (λ e. e ≡ StatError.Memory) }
    // What is refused is no stat record of a message either.
    ensures bad { result ≡ Err StatError.BadStat → IsStat bytes.now → ⊥ }
{
    match stat_of(alloc, bytes) {
        Ok(stat) => Ok(stat),
        Err(ReadError::Malformed) => Err(StatError::BadStat),
        Err(ReadError::Memory) => Err(StatError::Memory),
    }
}
