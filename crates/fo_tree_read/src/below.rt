//! One step down from a block of pointers.
ghost use Rattle.std.specs.Prelude.{◌≡◌, ◌⊎◌, ◌+◌, ◌*◌, ◌<◌, ◌≤◌, ℕ, Bool, length, take, drop, Some, None, IfOk, IfSome, OnOk, IfErr};
ghost use Rattle.fo_looks.specs.of_base.Cause.{Rose};
ghost use Rattle.fo_looks.specs.of_image.declared.types.Pointer.{Pointer};
ghost use Rattle.fo_looks.specs.of_image.declared.types.Pointer.TheVariants.{Local};
ghost use Rattle.fo_looks.specs.of_image.Format.{SpellsPointer, kind_code};
ghost use Rattle.fo_looks.specs.of_crash.Images.{target};
ghost use Rattle.fo_looks.specs.of_ports.Blocks.{IsInner};
ghost use Rattle.fo_looks.specs.of_ports.Causes.{Caused};
ghost use Rattle.fo_looks.specs.of_ports.State.{Looks};
ghost use Rattle.fo_tree_read.specs.Tree.{kind_at, address_of, is_none, score_of, score_in, StandsAs, IsGot, Failed};

use crate::empty::EMPTY;
use fo_looks::{BLOCK, BlockError, Blocks, Kind, Pointer, Score, is_zero, read_pointer, score_at};

/// The kind of a block of a source at this level.
pub(crate) fn kind_at(dir: bool, level: u8) -> Kind
    ensures { result ≡ kind_at dir level }
{
    if dir {
        Kind::Dir(level)
    } else {
        Kind::Data(level)
    }
}

/// The number by which the kind of a block of a source is known where it is held.
pub(crate) fn kind_number(dir: bool, level: u8) -> u8
    requires { level ≤ 4 }
    ensures { result ≡ kind_code (kind_at dir level) }
{
    if dir { 8 + level } else { level }
}

/// The pointer in slot `i` of a block of pointers that can be lent.
fn lent_below<B: Blocks>(on: &B, at: u32, kind: Kind, rank: u32, i: u32) -> Option<Pointer>
    requires block { (B.state on.now).is_block at }
    requires inner { IsInner kind }
    requires slot { i < 409 }
    ensures found { IfSome result (λ p. p ≡ target (((B.state on.now).now at).slot i)) }
    ensures block { IfSome result (λ p. (b : ℕ) → p ≡ Local b → (B.state on.now).is_block b) }
{
    match on.lend(at, kind, rank) {
        Some(block) => Some(pointer_in(block, i as usize)),
        None => None,
    }
}

/// The pointer in slot `i` of a block of pointers, which is copied.
fn copied_below<B: Blocks>(
    on: &mut B,
    at: u32,
    kind: Kind,
    rank: u32,
    i: u32,
) -> Result<Pointer, BlockError>
    requires block { (B.state on.old).is_block at }
    requires inner { IsInner kind }
    requires told { (B.state on.old).tells → StandsAs (B.state on.old) kind rank at }
    requires slot { i < 409 }
    ensures found { IfOk result (λ p. p ≡ target (((B.state on.new).now at).slot i)) }
    ensures block { IfOk result (λ p. (b : ℕ) → p ≡ Local b → (B.state on.new).is_block b) }
    ensures got { OnOk result ((0 < (B.state on.old).pins_left) ⊎ (B.state on.old).pinned at → IsGot (B.state on.new) kind at) }
    ensures pins { (B.state on.old).pins_left ≤ (B.state on.new).pins_left + 1 }
    ensures again { IsGot (B.state on.old) kind at → (B.state on.old).pins_left ≤ (B.state on.new).pins_left }
    ensures looks { Looks (B.state on.old) (B.state on.new) }
    ensures keeps { B.keeps on.old on.new }
    ensures cause { IfErr result (Failed (B.state on.old) (B.state on.new)) }
{
    let mut block = [0; BLOCK];
    on.get(at, kind, rank, &mut block)?;
    Ok(pointer_in(&block, i as usize))
}

/// The pointer in slot `i` of a block of pointers. It stands at a place of this kind and rank after a look, too.
pub(crate) fn pointer_below<B: Blocks>(
    on: &mut B,
    at: u32,
    kind: Kind,
    rank: u32,
    i: u32,
) -> Result<Pointer, BlockError>
    requires block { (B.state on.old).is_block at }
    requires inner { IsInner kind }
    requires told { (b : B) → B.keeps on.old b → Looks (B.state on.old) (B.state b) → (B.state b).tells → StandsAs (B.state b) kind rank at }
    requires slot { i < 409 }
    ensures found { IfOk result (λ p. p ≡ target (((B.state on.new).now at).slot i)) }
    ensures block { IfOk result (λ p. (b : ℕ) → p ≡ Local b → (B.state on.new).is_block b) }
    ensures got { OnOk result ((0 < (B.state on.old).pins_left) ⊎ (B.state on.old).pinned at → IsGot (B.state on.new) kind at) }
    ensures pins { (B.state on.old).pins_left ≤ (B.state on.new).pins_left + 1 }
    ensures again { IsGot (B.state on.old) kind at → (B.state on.old).pins_left ≤ (B.state on.new).pins_left }
    ensures looks { Looks (B.state on.old) (B.state on.new) }
    ensures keeps { B.keeps on.old on.new }
    ensures cause { IfErr result (Failed (B.state on.old) (B.state on.new)) }
{
    on.pin(at, kind, rank)?;
    match lent_below(on, at, kind, rank, i) {
        Some(pointer) => Ok(pointer),
        None => copied_below(on, at, kind, rank, i),
    }
}

/// The pointer in slot `i` of a block of pointers that is held.
pub(crate) fn held_below<B: Blocks>(
    on: &mut B,
    score: &Score,
    kind: u8,
    i: u32,
) -> Result<Pointer, BlockError>
    requires slot { i < 409 }
    ensures found { IfOk result (λ p. (B.state on.old).tells → p ≡ score_in ((B.state on.old).held score.now kind) i) }
    ensures none { IfOk result (λ p. None ≡ address_of p) }
    ensures pins { (B.state on.old).pins_left ≤ (B.state on.new).pins_left }
    ensures looks { Looks (B.state on.old) (B.state on.new) }
    ensures keeps { B.keeps on.old on.new }
    ensures cause { IfErr result (Caused ⊥ (λ b. (b ≡ 1) × ((B.state on.old).tells → (B.state on.old).held score.now kind ≡ None)) ⊥ (Rose (B.state on.old).arena_faults (B.state on.new).arena_faults)) }
{
    let mut block = [0; BLOCK];
    on.fetch(score, kind, &mut block)?;
    Ok(score_in(&block, i as usize))
}

/// Pointer `i` of a block.
fn pointer_in(block: &[u8], i: usize) -> Pointer
    requires slot { i < 409 }
    requires length { length block.now ≡ 8192 }
    ensures { (p : Pointer) → SpellsPointer p (take 20 (drop (20 * i) block.now)) → p ≡ result }
{
    read_pointer(&block[20 * i..20 * i + 20])
}

/// Whether a score leads nowhere in a block that is held: it begins with sixteen zeros, or is that of the empty block.
fn is_none(score: &Score) -> bool
    requires { length score.now.0 ≡ 20 }
    ensures { result ≡ is_none score.now.0 }
{
    is_zero(&score.0[..16]) || score.0 == EMPTY.0
}

/// The pointer in slot `i` of a block of pointers that is held: a score, or nil, for which that of the empty block stands too.
pub fn score_in(block: &[u8], i: usize) -> Pointer
    requires slot { i < 409 }
    requires length { length block.now ≡ 8192 }
    ensures { result ≡ score_of (take 20 (drop (20 * i) block.now)) }
{
    let score = score_at(block, 20 * i);
    if is_none(&score) {
        Pointer::Nil
    } else {
        Pointer::Score(score)
    }
}
