//! Blocks under scores are kept as they were fetched.
ghost use Rattle.std.specs.Prelude.{◌≡◌, ◌<◌, ◌≤◌, ◌++◌, ◌∷◌, [], true, Some, None, OnOk, OnErr, IfErr};
ghost use Rattle.std.specs.List.{list_any};
ghost use Rattle.fo_image.specs.of_base.Cause.{Rose};
ghost use Rattle.fo_tree_read.specs.of_ports.Causes.{Caused};
ghost use Rattle.fo_tree_read.specs.of_ports.State.{Looks};
ghost use Rattle.fo_tree_read.specs.Tree.{score_in};
ghost use Rattle.fo_tree_look.specs.Source.{is_same, find_kept, IsKept, AllHeld, Extends};

use crate::ways::Kept;
use fo_image::{BLOCK, Memory, Pointer, Score};
use fo_tree_read::{BlockError, Blocks, score_in};

/// Fetches a block under a score, and keeps it.
pub(crate) fn keep<B: Blocks>(
    kept: &mut Vec<Kept>,
    on: &mut B,
    score: &Score,
    kind: u8,
) -> Result<(), BlockError>
    requires held { AllHeld (B.state on.old) kept.old.items }
    ensures ready { OnOk result (IsKept kept.new.items score.now kind) }
    ensures pins { (B.state on.old).pins_left ≤ (B.state on.new).pins_left }
    ensures more { Extends (B.state on.new) kept.old.items kept.new.items }
    ensures looks { Looks (B.state on.old) (B.state on.new) }
    ensures keeps { B.keeps on.old on.new }
    ensures cause { IfErr result (Caused ⊥ (λ b. (b ≡ 1) × ((B.state on.old).tells → (B.state on.old).held score.now kind ≡ None)) ⊥ (Rose (B.state on.old).arena_faults (B.state on.new).arena_faults)) }
{
    if is_kept(kept, score, kind) {
        return Ok(());
    }
    let mut bytes = [0; BLOCK];
    on.fetch(score, kind, &mut bytes)?;
    add(
        kept,
        Kept {
            score: *score,
            kind,
            bytes,
        },
    )?;
    Ok(())
}

/// The pointer in slot `i` of a block of pointers that is kept; nil where none is.
pub(crate) fn kept_pointer(kept: &[Kept], score: &Score, kind: u8, i: u32) -> Pointer
    requires slot { i < 409 }
    ensures { result ≡ score_in (find_kept kept.now score.now kind) i }
{
    for block in kept {
        if is_same(block, score, kind) {
            return score_in(&block.bytes, i as usize);
        }
    }
    Pointer::Nil
}

/// The bytes that are kept under a score and kind.
pub fn kept_bytes(kept: &[Kept], score: &Score, kind: u8) -> Option<[u8; BLOCK]>
    ensures { result ≡ find_kept kept.now score.now kind }
{
    for block in kept {
        if is_same(block, score, kind) {
            return Some(block.bytes);
        }
    }
    None
}

/// Whether a block is kept.
fn is_kept(kept: &[Kept], score: &Score, kind: u8) -> bool
    ensures { result ≡ list_any (λ x. is_same x score.now kind) kept.now }
{
    kept.iter().any(|x| is_same(x, score, kind))
}

/// Whether a block is kept under this score and kind.
fn is_same(block: &Kept, score: &Score, kind: u8) -> bool
    ensures { result ≡ is_same block.now score.now kind }
{
    block.kind == kind && block.score.0 == score.0
}

/// Keeps a block.
fn add(kept: &mut Vec<Kept>, block: Kept) -> Result<(), Memory>
    ensures added { OnOk result (kept.new.items ≡ kept.old.items ++ (block ∷ [])) }
    ensures nothing { OnErr result (kept.new.items ≡ kept.old.items) }
{
    kept.push(block)?;
    Ok(())
}
