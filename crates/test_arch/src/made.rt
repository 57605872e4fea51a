//! Pieces that are made by hand.
ghost use Rattle.std.specs.Prelude.{◌≡◌, ◌≤◌, true, length, map, IfOk};
ghost use Rattle.fo_image.specs.Format.{is_arena_kind};
ghost use Rattle.fo_arch_hash.specs.Batch.{kept};
ghost use Rattle.fo_arch_walk.specs.Pieces.{AreApart};

use crate::forms::{ENTRIES, ENTRIES_CHANGED, RECORDS, RECORDS_CHANGED, TOP, TOP_CHANGED};
use fo_arch_hash::Piece;
use fo_base::Memory;
use std::alloc::Global;

fn piece(alloc: Global, at: u32, kind: u8, bytes: &[u8]) -> Result<Piece, Memory>
    requires kind { is_arena_kind kind ≡ true }
    requires short { length bytes.now ≤ 8192 }
    ensures { IfOk result (λ p. (p.at ≡ at) × (p.kind ≡ kind)) }
{
    Ok(Piece {
        at,
        kind,
        bytes: Vec::from_slice(alloc, bytes)?,
    })
}

/// The pieces of a root with two files, children first: the first file's bytes, the records, the entries and the top block.
fn pieces(
    alloc: Global,
    file: &[u8],
    records: &[u8],
    entries: &[u8],
    top: &[u8],
) -> Result<Vec<Piece>, Memory>
    requires file { length file.now ≤ 8192 }
    requires records { length records.now ≤ 8192 }
    requires entries { length entries.now ≤ 8192 }
    requires top { length top.now ≤ 8192 }
    ensures { IfOk result (λ v. AreApart (map kept v.items)) }
{
    let first = piece(alloc, 5, 0, file)?;
    let second = piece(alloc, 6, 0, b"world")?;
    let records = piece(alloc, 4, 0, records)?;
    let entries = piece(alloc, 3, 8, entries)?;
    let top = piece(alloc, 2, 17, top)?;
    Ok(vec![in alloc; first, second, records, entries, top]?)
}

/// The pieces of the image.
pub(crate) fn image(alloc: Global) -> Result<Vec<Piece>, Memory>
    ensures { IfOk result (λ v. AreApart (map kept v.items)) }
{
    pieces(alloc, b"hello", &RECORDS, &ENTRIES, &TOP)
}

/// The pieces once a byte of the first file was changed.
pub(crate) fn changed(alloc: Global) -> Result<Vec<Piece>, Memory>
    ensures { IfOk result (λ v. AreApart (map kept v.items)) }
{
    pieces(
        alloc,
        b"jello",
        &RECORDS_CHANGED,
        &ENTRIES_CHANGED,
        &TOP_CHANGED,
    )
}
