//! Whether a block is raised over what is put into it.
ghost use Rattle.std.specs.Bool.{OnTrue, OnFalse};
ghost use Rattle.std.specs.Prelude.{◌≡◌, ◌≢◌, ℕ, length};
ghost use Rattle.fo_image.specs.declared.types.Pointer.TheVariants.{Local};
ghost use Rattle.fo_crash.specs.Images.{target};
ghost use Rattle.fo_slots.specs.of_ports.Blocks.{IsInner, ReadsSlots};
ghost use Rattle.fo_slots.specs.Read.{read};
ghost use Rattle.fo_raising.specs.Raised.{IsNewTop, Raises};

use fo_facts::Fact;
use fo_image::{Kind, Pointer};
use fo_slots::{slot_count, slot_of};

// Whether a slot leads to a block.
fn leads(to: Pointer) -> bool
    ensures some { OnTrue result ((x : ℕ) × (to ≡ Local x)) }
    ensures none { OnFalse result ((x : ℕ) → to ≢ Local x) }
{
    match to {
        Pointer::Local(_) => true,
        _ => false,
    }
}

/// Whether no slot of a block leads to another one.
pub fn leads_nowhere(kind: Kind, bytes: &[u8]) -> bool
    requires length { length bytes.now ≡ 8192 }
    requires slots { ReadsSlots kind (read kind bytes.now) bytes.now }
    ensures none { OnTrue result ((j x : ℕ) → target ((read kind bytes.now).slot j) ≢ Local x) }
    ensures some { OnFalse result ((j x : ℕ) × (target ((read kind bytes.now).slot j) ≡ Local x)) }
{
    for j in 0..slot_count(kind) {
        if leads(slot_of(kind, bytes, j).target()) {
            return false;
        }
    }
    true
}

// Whether a block has pointers to blocks of a lower level.
fn is_inner(kind: Kind) -> bool
    ensures is { OnTrue result (IsInner kind) }
    ensures other { OnFalse result (IsInner kind → ⊥) }
{
    match kind {
        Kind::Data(level) | Kind::Dir(level) => 0 < level,
        Kind::Root => false,
    }
}

// Whether a block was made, put nowhere yet, and not to come in the place of another.
fn is_new(fact: &Fact) -> bool
    ensures is { OnTrue result (IsNewTop fact.now) }
    ensures other { OnFalse result (IsNewTop fact.now → ⊥) }
{
    fact.apart && fact.origin.is_none()
}

/// Whether slot `i` is slot 0 of a new block of pointers from which nothing hangs, so that the block is raised over what is put there.
pub fn is_raised(fact: &Fact, kind: Kind, i: u32, bytes: &[u8]) -> bool
    requires length { length bytes.now ≡ 8192 }
    requires slots { ReadsSlots kind (read kind bytes.now) bytes.now }
    ensures is { OnTrue result (Raises fact.now kind i bytes.now) }
    ensures other { OnFalse result (Raises fact.now kind i bytes.now → ⊥) }
{
    is_new(fact) && is_inner(kind) && i == 0 && leads_nowhere(kind, bytes)
}
