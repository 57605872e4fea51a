//! Copies of batches.
ghost use Rattle.std.specs.Prelude.{◌≡◌, map, IfOk};
ghost use Rattle.fo_arch_hash.specs.Batch.{kept, IsSame};

use crate::types::{Batch, Piece};
use fo_base::Memory;
use std::alloc::Global;

fn copy_piece(alloc: Global, piece: &Piece) -> Result<Piece, Memory>
    ensures { IfOk result (λ p. kept p ≡ kept piece.now) }
{
    Ok(Piece {
        at: piece.at,
        kind: piece.kind,
        bytes: Vec::from_slice(alloc, &piece.bytes)?,
    })
}

fn copy_pieces(alloc: Global, pieces: &[Piece]) -> Result<Vec<Piece>, Memory>
    ensures { IfOk result (λ v. map kept v.items ≡ map kept pieces.now) }
{
    let mut copies = Vec::new(alloc);
    for piece in pieces {
        copies.push(copy_piece(alloc, piece)?)?;
    }
    Ok(copies)
}

/// A copy of a batch, with the same pieces.
pub fn copy_of(alloc: Global, batch: &Batch) -> Result<Batch, Memory>
    ensures { IfOk result (λ copy. IsSame copy batch.now) }
{
    Ok(Batch {
        epoch: batch.epoch,
        stored: batch.stored,
        pieces: copy_pieces(alloc, &batch.pieces)?,
    })
}
