//! A stat record's fields, read in place.
ghost use Rattle.std.specs.Prelude.{◌≡◌};
ghost use Rattle.nine_fields.specs.Reading.{Reads, stat_at, plains_at};
ghost use Rattle.nine_fields.specs.Parts.{parts_fields};
ghost use Rattle.nine_fields.specs.Field.{stat_shapes};

use crate::error::Malformed;
use crate::parts::StatParts;
use crate::qid::Qid;
use crate::reading::{block_at, qid_at, text_at, u16_at, u32_at, u64_at};

/// The fields of a record, and what follows them.
#[tactic(auto, unfolding(crate::specs::Reading::plains_at, crate::specs::Reading::plain_at))]
fn parts_at(bytes: &[u8]) -> Result<(StatParts<'_>, &[u8]), Malformed>
    ensures { Reads (λ x. (parts_fields x.0, x.1.now)) result (plains_at stat_shapes bytes.now) }
{
    let (kind, rest) = u16_at(bytes)?;
    let (dev, rest) = u32_at(rest)?;
    let (qid, rest) = qid_at(rest)?;
    let (mode, rest) = u32_at(rest)?;
    let (atime, rest) = u32_at(rest)?;
    let (mtime, rest) = u32_at(rest)?;
    let (length, rest) = u64_at(rest)?;
    let (name, rest) = text_at(rest)?;
    let (uid, rest) = text_at(rest)?;
    let (gid, rest) = text_at(rest)?;
    let (muid, rest) = text_at(rest)?;
    let parts = StatParts {
        kind,
        dev,
        qid,
        mode,
        atime,
        mtime,
        length,
        name,
        uid,
        gid,
        muid,
    };
    Ok((parts, rest))
}

/// The fields of the stat record that these bytes are, all of them.
#[tactic(auto, unfolding(crate::specs::Reading::stat_at))]
pub fn stat_at(bytes: &[u8]) -> Result<StatParts<'_>, Malformed>
    ensures { Reads (λ x. parts_fields x) result (stat_at bytes.now) }
{
    let (inside, after) = block_at(bytes)?;
    if !after.is_empty() {
        return Err(Malformed);
    }
    let (parts, left) = parts_at(inside)?;
    if left.is_empty() {
        Ok(parts)
    } else {
        Err(Malformed)
    }
}
