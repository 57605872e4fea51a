//! What else is ready beside a block: the next blocks that the one above it names.
ghost use Rattle.std.specs.Prelude.{◌≡◌, ◌&&◌, ◌==◌, ◌+◌, ◌<◌, ◌≤◌, ◌^◌, true, false, length, map, None, OnOk, IfErr, IfSome};
ghost use Rattle.std.specs.List.{list_any};
ghost use Rattle.fo_image.specs.Format.{KindHolds};
ghost use Rattle.fo_ports.specs.Blocks.{slot_count};
ghost use Rattle.fo_ports.specs.State.{Looks};
ghost use Rattle.fo_tree_read.specs.Tree.{Failed};
ghost use Rattle.fo_arch_hash.specs.Batch.{kept};
ghost use Rattle.fo_arch_hash.specs.declared.types.Piece.{Piece};
ghost use Rattle.fo_arch_form.specs.Stored.{found};
ghost use Rattle.fo_arch_walk.specs.Pieces.{IsApartFrom};
ghost use Rattle.fo_arch_walk.specs.Siblings.{IsChild, WasGot, Batching};
ghost use Rattle.fo_arch_walk.specs.Spots.{arena_code, IsSnapshot, IsOpen};

use crate::looks::look;
use crate::pieces::{add_piece, piece_at};
use crate::spot::{Spot, arena_code, spot_below};
use fo_arch_form::Stored;
use fo_arch_hash::Piece;
use fo_base::BLOCK;
use fo_image::Pointer;
use fo_ports::{BlockError, Blocks};
use fo_slots::{read_slot, slot_count};
use std::alloc::Global;

/// The block to which slot `i` of a block leads, by its bytes.
fn child_at(above: Spot, block: &[u8], i: usize) -> Option<Spot>
    requires count { i < slot_count above.kind }
    requires length { length block.now ≡ 8192 }
    requires low { above.rank < 2 ^ 31 }
    ensures { IfSome result (IsChild above block.now i) }
{
    let slot = read_slot(above.kind, block, i)?;
    match slot.target() {
        Pointer::Local(at) => Some(spot_below(above, i as u32, &slot, at)),
        _ => None,
    }
}

/// Whether one of the pieces is of this address and kind.
fn has_piece(pieces: &[Piece], at: u32, code: u8) -> bool
    ensures { result ≡ list_any (λ (p : Piece). p.at == at && p.kind == code) pieces.now }
{
    pieces.iter().any(|p| p.at == at && p.kind == code)
}

/// Whether a block isn't stored, and has no piece yet.
fn is_wanted(done: &Stored, pieces: &[Piece], child: Spot) -> bool
    requires { KindHolds child.kind }
    ensures fresh { result ≡ true → found done.now child.at (arena_code child.kind) ≡ None }
    ensures apart { result ≡ true → IsApartFrom child.at (arena_code child.kind) (map kept pieces.now) }
{
    let code = arena_code(child.kind);
    if done.score(child.at, code).is_some() {
        return false;
    }
    if has_piece(pieces, child.at, code) {
        return false;
    }
    true
}

/// Adds the piece of a block, where all that it names is stored; else false is answered.
fn add_ready<B: Blocks>(
    alloc: Global,
    on: &mut B,
    done: &Stored,
    root: u32,
    child: Spot,
    pieces: &mut Vec<Piece>,
) -> Result<bool, BlockError>
    requires open { IsOpen done.now (B.state on.old) root child }
    requires told { (B.state on.old).tells → IsSnapshot (B.state on.old) root }
    requires apart { IsApartFrom child.at (arena_code child.kind) (map kept pieces.old.items) }
    requires batching { Batching done.now (B.state on.old) root pieces.old.items }
    ensures batching { OnOk result (Batching done.now (B.state on.new) root pieces.new.items) }
    ensures count { OnOk result ((length pieces.old.items ≤ length pieces.new.items) × (length pieces.new.items ≤ length pieces.old.items + 1)) }
    ensures looks { Looks (B.state on.old) (B.state on.new) }
    ensures keeps { B.keeps on.old on.new }
    ensures cause { IfErr result (Failed (B.state on.old) (B.state on.new)) }
{
    let _ = root;
    let mut form = [0; BLOCK];
    let next = look(on, done, child, &mut form)?;
    if next.is_some() {
        return Ok(false);
    }
    let piece = piece_at(alloc, child, &form)?;
    add_piece(pieces, piece)?;
    Ok(true)
}

/// Adds the piece of the block to which slot `i` leads, where that is wanted; false where a block isn't ready.
fn add_child<B: Blocks>(
    alloc: Global,
    on: &mut B,
    done: &Stored,
    root: u32,
    above: Spot,
    block: &[u8],
    i: usize,
    pieces: &mut Vec<Piece>,
) -> Result<bool, BlockError>
    requires count { i < slot_count above.kind }
    requires length { length block.now ≡ 8192 }
    requires got { WasGot done.now (B.state on.old) root above block.now }
    requires told { (B.state on.old).tells → IsSnapshot (B.state on.old) root }
    requires batching { Batching done.now (B.state on.old) root pieces.old.items }
    ensures batching { OnOk result (Batching done.now (B.state on.new) root pieces.new.items) }
    ensures count { OnOk result ((length pieces.old.items ≤ length pieces.new.items) × (length pieces.new.items ≤ length pieces.old.items + 1)) }
    ensures looks { Looks (B.state on.old) (B.state on.new) }
    ensures keeps { B.keeps on.old on.new }
    ensures cause { IfErr result (Failed (B.state on.old) (B.state on.new)) }
{
    let Some(child) = child_at(above, block, i) else {
        return Ok(true);
    };
    if above.rank <= child.rank {
        return Ok(false);
    }
    if !is_wanted(done, pieces, child) {
        return Ok(true);
    }
    add_ready(alloc, on, done, root, child, pieces)
}

/// Adds the pieces of the next blocks that a block names, up to `n` pieces in all, and up to the first that isn't ready.
pub(crate) fn add_siblings<B: Blocks>(
    alloc: Global,
    on: &mut B,
    done: &Stored,
    root: u32,
    above: Spot,
    n: usize,
    pieces: &mut Vec<Piece>,
) -> Result<(), BlockError>
    requires open { IsOpen done.now (B.state on.old) root above }
    requires told { (B.state on.old).tells → IsSnapshot (B.state on.old) root }
    requires batching { Batching done.now (B.state on.old) root pieces.old.items }
    requires few { length pieces.old.items ≤ n }
    ensures batching { OnOk result (Batching done.now (B.state on.new) root pieces.new.items) }
    ensures count { OnOk result ((length pieces.old.items ≤ length pieces.new.items) × (length pieces.new.items ≤ n)) }
    ensures looks { Looks (B.state on.old) (B.state on.new) }
    ensures keeps { B.keeps on.old on.new }
    ensures cause { IfErr result (Failed (B.state on.old) (B.state on.new)) }
{
    let mut block = [0; BLOCK];
    on.get(above.at, above.kind, above.rank, &mut block)?;
    for i in 0..slot_count(above.kind) {
        if n <= pieces.len() {
            return Ok(());
        }
        let goes_on = add_child(alloc, on, done, root, above, &block, i, pieces)?;
        if !goes_on {
            return Ok(());
        }
    }
    Ok(())
}
