//! The pieces of a batch.
ghost use Rattle.std.specs.Prelude.{◌≡◌, ◌<◌, ◌≤◌, ℕ, length, map, None, IfOk, IfErr, OnOk, ◌++◌, ◌∷◌, []};
ghost use Rattle.std.specs.List.{AllByRecursion};
ghost use Rattle.fo_image.specs.Format.{KindHolds};
ghost use Rattle.fo_crash.specs.Images.{Image};
ghost use Rattle.fo_ports.specs.State.{Looks};
ghost use Rattle.fo_tree_read.specs.Tree.{Failed};
ghost use Rattle.fo_arch_hash.specs.Batch.{kept};
ghost use Rattle.fo_arch_hash.specs.Form.{IsStored};
ghost use Rattle.fo_arch_form.specs.Stored.{found};
ghost use Rattle.fo_arch_walk.specs.Pieces.{IsPiece, AreFresh, AreApart};
ghost use Rattle.fo_arch_walk.specs.Spots.{arena_code, IsSnapshot};

use crate::siblings::add_siblings;
use crate::spot::{Spot, arena_code};
use crate::walk::next_block;
use fo_arch_form::Stored;
use fo_arch_hash::{Piece, piece_of};
use fo_base::{BLOCK, Memory};
use fo_ports::{BlockError, Blocks};
use std::alloc::Global;

/// What is stored of a block, by its form.
pub(crate) fn piece_at(alloc: Global, spot: Spot, form: &[u8]) -> Result<Piece, Memory>
    requires holds { KindHolds spot.kind }
    requires length { length form.now ≤ 8192 }
    ensures { IfOk result (λ p. (p.at ≡ spot.at) × (p.kind ≡ arena_code spot.kind) × IsStored (arena_code spot.kind) form.now p.bytes.items) }
{
    piece_of(alloc, spot.at, arena_code(spot.kind), form)
}

/// Adds a piece to others.
pub(crate) fn add_piece(pieces: &mut Vec<Piece>, piece: Piece) -> Result<(), Memory>
    ensures { OnOk result (pieces.new.items ≡ pieces.old.items ++ piece ∷ []) }
{
    pieces.push(piece)?;
    Ok(())
}

/// At least one block below a root block that isn't stored, and at most `n`: each isn't stored, and all that it names is. Nothing
/// changes.
pub fn next_pieces<B: Blocks>(
    alloc: Global,
    on: &mut B,
    done: &Stored,
    root: u32,
    n: usize,
) -> Result<Vec<Piece>, BlockError>
    requires block { (B.state on.old).is_block root }
    requires told { (B.state on.old).tells → IsSnapshot (B.state on.old) root }
    requires open { found done.now root 17 ≡ None }
    requires some { 1 ≤ n }
    ensures pieces { IfOk result (λ v. AllByRecursion (IsPiece done.now (B.state on.new) root) v.items) }
    ensures count { IfOk result (λ v. (1 ≤ length v.items) × (length v.items ≤ n)) }
    ensures fresh { IfOk result (λ v. AreFresh done.now (map kept v.items)) }
    ensures apart { IfOk result (λ v. AreApart (map kept v.items)) }
    ensures looks { Looks (B.state on.old) (B.state on.new) }
    ensures keeps { B.keeps on.old on.new }
    ensures cause { IfErr result (Failed (B.state on.old) (B.state on.new)) }
{
    let mut form = [0; BLOCK];
    let (spot, above) = next_block(on, done, root, &mut form)?;
    let piece = piece_at(alloc, spot, &form)?;
    let mut pieces = Vec::new(alloc);
    add_piece(&mut pieces, piece)?;
    add_siblings(alloc, on, done, root, above, n, &mut pieces)?;
    Ok(pieces)
}
