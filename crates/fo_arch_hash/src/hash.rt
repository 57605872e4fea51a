//! The scores of a batch.
ghost use Rattle.std.specs.Prelude.{◌≡◌, map, IfOk};
ghost use Rattle.fo_arch_hash.specs.Batch.{score_of};

use crate::hashed::Hashed;
use crate::types::{Batch, Piece};
use fo_base::Memory;
use fo_image::Score;
use sha1::Sha1;
use std::alloc::Global;

/// The score of a piece: the SHA-1 hash of its bytes (FIPS 180-4).
pub fn score_of(piece: &Piece) -> Score
    ensures { result ≡ score_of piece.now }
{
    Score(Sha1::digest(&piece.bytes))
}

fn scores_of(alloc: Global, pieces: &[Piece]) -> Result<Vec<Score>, Memory>
    ensures { IfOk result (λ v. v.items ≡ map score_of pieces.now) }
{
    let mut scores = Vec::new(alloc);
    for piece in pieces {
        scores.push(score_of(piece))?;
    }
    Ok(scores)
}

/// Hashes a batch in the caller's own thread.
pub fn hash_here(alloc: Global, batch: Batch) -> Result<Hashed, Memory>
    ensures { IfOk result (λ h. h.batch ≡ batch) }
{
    let scores = scores_of(alloc, &batch.pieces)?;
    Ok(Hashed { batch, scores })
}
