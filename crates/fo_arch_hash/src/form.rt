//! The archived form of one block.
ghost use Rattle.std.specs.Prelude.{◌≡◌, ◌+◌, ◌*◌, ◌<◌, ◌≤◌, true, length, IfOk};
ghost use Rattle.fo_image.specs.declared.types.Entry.{Entry};
ghost use Rattle.fo_image.specs.Format.{IsScore, EntryHolds, is_arena_kind};
ghost use Rattle.fo_vacput.specs.Vac.{VacEntryHolds};
ghost use Rattle.fo_arch_hash.specs.Form.{IsStored, Puts, PutsEntry, archived, put_at};

use crate::types::Piece;
use fo_base::Memory;
use fo_image::{Entry, Score};
use fo_vacput::{VacEntry, cut, write_vac_entry};
use std::alloc::Global;

/// What the arena stores of a block in its archived form: the least from which the block is made again.
pub fn piece_of(alloc: Global, at: u32, kind: u8, block: &[u8]) -> Result<Piece, Memory>
    requires kind { is_arena_kind kind ≡ true }
    requires length { length block.now ≤ 8192 }
    ensures { IfOk result (λ p. (p.at ≡ at) × (p.kind ≡ kind) × IsStored kind block.now p.bytes.items) }
{
    let left = cut(kind, block);
    let bytes = Vec::from_slice(alloc, &block[..left])?;
    Ok(Piece { at, kind, bytes })
}

/// An entry as an archive has it: without its tag, and with the score of the block that it leads to.
pub fn archived_entry(entry: &Entry, score: Score) -> VacEntry
    requires holds { EntryHolds entry.now }
    requires shallow { entry.now.depth ≤ 4 }
    requires score { IsScore score.0 }
    ensures is { result ≡ archived entry.now score }
    ensures holds { VacEntryHolds result }
{
    VacEntry {
        generation: entry.generation,
        active: entry.active,
        dir: entry.dir,
        depth: entry.depth,
        size: entry.size,
        score: if entry.active { score } else { Score([0; 20]) },
    }
}

fn put_part(into: &mut [u8], from: usize, bytes: &[u8])
    requires { from + length bytes.now ≤ length into.old }
    ensures { into.new ≡ put_at from bytes.now into.old }
{
    into[from..from + bytes.len()].copy_from_slice(bytes);
}

/// Puts bytes, and keeps all others.
fn put_beside(into: &mut [u8], from: usize, bytes: &[u8])
    requires { from + length bytes.now ≤ length into.old }
    ensures { Puts from bytes.now into.old into.new }
{
    put_part(into, from, bytes);
}

/// Puts a score into slot `i` of a block of pointers.
pub fn put_score(block: &mut [u8], i: usize, score: &Score)
    requires slot { i < 409 }
    requires length { length block.old ≡ 8192 }
    ensures puts { Puts (20 * i) score.now.0 block.old block.new }
    ensures long { length score.now.0 ≡ 20 }
{
    put_beside(block, 20 * i, &score.0);
}

/// Puts an archived entry into slot `i` of a leaf of entries.
pub fn put_entry(block: &mut [u8], i: usize, entry: &VacEntry)
    requires holds { VacEntryHolds entry.now }
    requires slot { i < 204 }
    requires length { length block.old ≡ 8192 }
    ensures { PutsEntry i entry.now block.old block.new }
{
    let mut bytes = [0; 40];
    write_vac_entry(entry, &mut bytes);
    put_beside(block, 40 * i, &bytes);
}
