//! Batches of blocks that are ready.
use crate::archive::Archive;
use fo_arch_hash::{Batch, Piece};
use fo_arch_walk::next_pieces;
use fo_ports::{BlockError, Blocks};

impl Archive {
    ghost use Rattle.std.specs.Prelude.{◌≡◌, ◌≢◌, ◌↔◌, ◌≤◌, List, [], length, map, None, IfOk, IfErr};
    ghost use Rattle.std.specs.List.{AllByRecursion};
    ghost use Rattle.fo_ports.specs.State.{Looks};
    ghost use Rattle.fo_tree_read.specs.Tree.{Failed};
    ghost use Rattle.fo_arch_hash.specs.Batch.{kept};
    ghost use Rattle.fo_arch_form.specs.Stored.{found};
    ghost use Rattle.fo_arch_walk.specs.Pieces.{IsPiece, AreFresh, AreApart};
    ghost use Rattle.fo_arch_walk.specs.Spots.{IsSnapshot};
    ghost use Rattle.fo_arch.specs.Archive.{IsOf, HasWhole};

    /// The pieces of a batch: none where all is stored.
    fn pieces<B: Blocks>(&self, on: &mut B, n: usize) -> Result<Vec<Piece>, BlockError>
        requires block { (B.state on.old).is_block self.now.root }
        requires told { (B.state on.old).tells → IsSnapshot (B.state on.old) self.now.root }
        requires some { 1 ≤ n }
        ensures pieces { IfOk result (λ v. AllByRecursion (IsPiece self.now.done (B.state on.new) self.now.root) v.items) }
        ensures few { IfOk result (λ v. length v.items ≤ n) }
        ensures fresh { IfOk result (λ v. AreFresh self.now.done (map kept v.items)) }
        ensures apart { IfOk result (λ v. AreApart (map kept v.items)) }
        ensures whole { IfOk result (λ v. (v.items ≡ []) ↔ HasWhole self.now) }
        ensures looks { Looks (B.state on.old) (B.state on.new) }
        ensures keeps { B.keeps on.old on.new }
        ensures cause { IfErr result (Failed (B.state on.old) (B.state on.new)) }
    {
        if self.is_whole() {
            return Ok(Vec::new(self.alloc));
        }
        next_pieces(self.alloc, on, &self.done, self.root, n)
    }

    /// Reads at most `n` blocks that aren't stored and all of whose blocks are. Nothing changes. The batch is empty exactly where all is
    /// stored.
    pub fn batch<B: Blocks>(&self, on: &mut B, n: usize) -> Result<Batch, BlockError>
        requires block { (B.state on.old).is_block self.now.root }
        requires told { (B.state on.old).tells → IsSnapshot (B.state on.old) self.now.root }
        requires some { 1 ≤ n }
        // It is one of this archive as it is now. Each piece is the form of a block that was read below the root; where the device
        // tells, of what memory has there.
        ensures of { IfOk result (IsOf self.now) }
        ensures pieces { IfOk result (λ b. AllByRecursion (IsPiece self.now.done (B.state on.new) self.now.root) b.pieces.items) }

        ensures few { IfOk result (λ b. length b.pieces.items ≤ n) }
        ensures whole { IfOk result (λ b. (b.pieces.items ≡ []) ↔ HasWhole self.now) }
        ensures looks { Looks (B.state on.old) (B.state on.new) }
        ensures keeps { B.keeps on.old on.new }
        ensures cause { IfErr result (Failed (B.state on.old) (B.state on.new)) }
    {
        let pieces = self.pieces(on, n)?;
        Ok(Batch {
            epoch: self.epoch,
            stored: self.done.count() as u64,
            pieces,
        })
    }
}
