//! The form of a root block: a top block.
ghost use Rattle.std.specs.Prelude.{◌≡◌, ◌+◌, ◌≤◌, ℕ, length, MatchResult};
ghost use Rattle.fo_image.specs.declared.types.Entry.{Entry};
ghost use Rattle.fo_vacput.specs.declared.types.VacEntry.{VacEntry};
ghost use Rattle.fo_image.specs.Format.{SpellsEntry};
ghost use Rattle.fo_vacput.specs.Vac.{VacEntryHolds};
ghost use Rattle.fo_arch_form.specs.Root.{part_at, HasEntryFrom, ArchivedFrom, MissesFrom, IsTop, IsRootForm, MissesOfRoot};

use crate::entries::{Missing, kind_of};
use crate::stored::Stored;
use fo_arch_hash::archived_entry;
use fo_image::{Entry, Part, Pointer, read_entry, write_parts};
use fo_vacput::{VacEntry, write_vac_entry};

const NONE: Entry = Entry {
    generation: 0,
    active: false,
    dir: false,
    depth: 0,
    tag: 0,
    size: 0,
    top: Pointer::Nil,
};

/// The 40 bytes from a place on.
fn part(block: &[u8], from: usize) -> &[u8]
    requires { from + 40 ≤ length block.now }
    ensures is { result.now ≡ part_at block.now from }
    ensures len { length result.now ≡ 40 }
{
    &block[from..from + 40]
}

/// The entry that is spelled from a place on.
fn entry_from(block: &[u8], from: usize) -> Entry
    requires within { from + 40 ≤ length block.now }
    requires spelled { HasEntryFrom from block.now }
    ensures spelled { SpellsEntry result (part_at block.now from) }
    ensures shallow { result.depth ≤ 4 }
{
    match read_entry(part(block, from)) {
        Ok(entry) => entry,
        Err(_) => NONE,
    }
}

/// The archived entry of the one that is spelled from a place on; the entry itself where its top isn't stored.
fn archived_from(done: &Stored, block: &[u8], from: usize) -> Result<VacEntry, Entry>
    requires within { from + 40 ≤ length block.now }
    requires spelled { HasEntryFrom from block.now }
    ensures { MatchResult result (ArchivedFrom done.now from block.now) (MissesFrom done.now from block.now) }
{
    let entry = entry_from(block, from);
    let Ok(score) = done.score_under(kind_of(&entry), entry.top) else {
        return Err(entry);
    };
    Ok(archived_entry(&entry, score))
}

/// Writes a top block: two archived entries, and what follows them.
fn write_top(entries: &VacEntry, meta: &VacEntry, rest: &[u8], into: &mut [u8])
    requires entries { VacEntryHolds entries.now }
    requires meta { VacEntryHolds meta.now }
    requires rest { length rest.now ≤ 8112 }
    requires length { length into.old ≡ 8192 }
    ensures { IsTop entries.now meta.now rest.now into.new }
{
    let mut first = [0; 40];
    write_vac_entry(entries, &mut first);
    let mut second = [0; 40];
    write_vac_entry(meta, &mut second);
    write_parts(
        &[Part::Bytes(&first), Part::Bytes(&second), Part::Bytes(rest)],
        into,
    );
}

/// Makes the top block of a root block: the archived entries of its two sources, and its bytes from 104 on. Where the top of one isn't
/// stored, that entry is answered, and nothing is written.
pub fn form_root(done: &Stored, block: &[u8], into: &mut [u8]) -> Result<(), Missing>
    requires length { length block.now ≡ 8192 }
    requires into { length into.old ≡ 8192 }
    requires entries { HasEntryFrom 24 block.now }
    requires meta { HasEntryFrom 64 block.now }
    ensures { MatchResult result (λ _. IsRootForm done.now block.now into.new) (MissesOfRoot done.now block.now) }
{
    let entries = match archived_from(done, block, 24) {
        Ok(archived) => archived,
        Err(entry) => return Err(Missing { i: 0, entry }),
    };
    let meta = match archived_from(done, block, 64) {
        Ok(archived) => archived,
        Err(entry) => return Err(Missing { i: 1, entry }),
    };
    write_top(&entries, &meta, &block[104..8192], into);
    Ok(())
}
