//! Batches with their scores.
ghost use Rattle.std.specs.Prelude.{◌≡◌, map};
ghost use Rattle.fo_arch_hash.specs.Batch.{score_of};

use crate::types::Batch;
use fo_image::Score;

/// A batch, and the SHA-1 hash of each of its pieces, in their order.
#[derive(Drop)]
pub struct Hashed {
    pub batch: Batch,
    pub scores: Vec<Score>,
    ghost hashed: { scores.items ≡ map score_of batch.pieces.items },
}
