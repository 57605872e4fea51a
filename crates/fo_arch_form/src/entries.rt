//! The form of a leaf of entries.
ghost use Rattle.std.specs.Prelude.{◌≡◌, ◌*◌, ◌<◌, ◌≤◌, ℕ, length, MatchResult};
ghost use Rattle.fo_image.specs.declared.types.Entry.{Entry};
ghost use Rattle.fo_image.specs.Format.{SpellsEntry};
ghost use Rattle.fo_arch_form.specs.Entries.{entry_at, code_of, HasEntry, PutsArchived, MissesTop, MissesOneTop, HasArchivedAll};

use crate::stored::Stored;
use fo_arch_hash::{archived_entry, put_entry};
use fo_image::{Entry, Pointer, read_entry};

/// An entry whose top is not stored, and the number of its slot.
#[derive(Clone, Copy, Debug, PartialEq, Eq)]
pub struct Missing {
    pub i: usize,
    pub entry: Entry,
}

const NONE: Entry = Entry {
    generation: 0,
    active: false,
    dir: false,
    depth: 0,
    tag: 0,
    size: 0,
    top: Pointer::Nil,
};

/// The kind in the arena of the block at the top of a source.
pub fn kind_of(entry: &Entry) -> u8
    requires { entry.now.depth ≤ 4 }
    ensures { result ≡ code_of entry.now }
{
    if entry.dir {
        8 + entry.depth
    } else {
        entry.depth
    }
}

/// The bytes of slot `i`.
fn slot_in(block: &[u8], i: usize) -> &[u8]
    requires slot { i < 204 }
    requires length { length block.now ≡ 8192 }
    ensures is { result.now ≡ entry_at block.now i }
    ensures len { length result.now ≡ 40 }
{
    &block[40 * i..40 * i + 40]
}

/// The entry that slot `i` spells.
fn entry_in(block: &[u8], i: usize) -> Entry
    requires slot { i < 204 }
    requires length { length block.now ≡ 8192 }
    requires spelled { HasEntry i block.now }
    ensures spelled { SpellsEntry result (entry_at block.now i) }
    ensures shallow { result.depth ≤ 4 }
{
    match read_entry(slot_in(block, i)) {
        Ok(entry) => entry,
        Err(_) => NONE,
    }
}

/// Puts the archived entry of what slot `i` names into its place.
fn put_archived(done: &Stored, block: &mut [u8], i: usize) -> Result<(), Entry>
    requires slot { i < 204 }
    requires length { length block.old ≡ 8192 }
    requires spelled { HasEntry i block.old }
    ensures { MatchResult result (λ _. PutsArchived done.now i block.old block.new) (MissesTop done.now i block.old) }
{
    let entry = entry_in(block, i);
    let Ok(score) = done.score_under(kind_of(&entry), entry.top) else {
        return Err(entry);
    };
    put_entry(block, i, &archived_entry(&entry, score));
    Ok(())
}

/// Makes the form of a leaf of entries. Where the top of one isn't stored, that is answered, and the bytes are of no use.
pub fn form_entries(done: &Stored, block: &mut [u8]) -> Result<(), Missing>
    requires length { length block.old ≡ 8192 }
    requires spelled { (i : ℕ) → i < 204 → HasEntry i block.old }
    ensures { MatchResult result (λ _. HasArchivedAll done.now 204 block.old block.new) (MissesOneTop done.now block.old) }
{
    for i in 0..204 {
        if let Err(entry) = put_archived(done, block, i) {
            return Err(Missing { i, entry });
        }
    }
    Ok(())
}
