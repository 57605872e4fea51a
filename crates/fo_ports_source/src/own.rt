//! Leaves of the current epoch.
ghost use Rattle.std.specs.Prelude.{◌≡◌, ◌⊎◌, ◌+◌, ◌<◌, ◌≤◌, ℕ, Option, Some, None, MatchOption, true, false};
ghost use Rattle.fo_image.specs.declared.types.Kind.TheVariants.{Data, Dir};
ghost use Rattle.fo_crash.specs.Images.{SameContent};
ghost use Rattle.fo_ports.specs.Blocks.{blank};
ghost use Rattle.fo_ports.specs.Sources.{Made, Dirties};
ghost use Rattle.fo_ports_source.specs.Source.{IsLeaf, IsHeld, IsOwn, IsCurrent};
ghost use Rattle.fo_ports_source.specs.Steps.{Steps};

use fo_image::Kind;
use fo_ports::Blocks;

/// The leaf itself where it is of the current epoch, a copy of an older one, or a new block of zeros where there is none.
pub(crate) fn own_block<B: Blocks>(
    on: &mut B,
    leaf: Option<u32>,
    kind: Kind,
    tag: u32,
    rank: u32,
) -> u32
    requires kind { (kind ≡ Data 0) ⊎ (kind ≡ Dir 0) }
    requires leaf { (at : ℕ) → leaf ≡ Some at → IsLeaf (B.state on.old) kind tag rank at }
    requires held { (at : ℕ) → leaf ≡ Some at → IsHeld (B.state on.old) kind tag at }
    requires spare { IsCurrent (B.state on.old) leaf ⊎ (0 < (B.state on.old).spare) }
    ensures content { MatchOption leaf (SameContent ((B.state on.new).now result) (blank kind)) (λ at. SameContent ((B.state on.new).now result) ((B.state on.old).now at)) }
    ensures copied { MatchOption leaf (Made (B.state on.old) (B.state on.new) result) (λ at. ((at ≡ result) × (((B.state on.old).label at).epoch ≡ (B.state on.old).high)) ⊎ ((((B.state on.old).label at).epoch < (B.state on.old).high) × Made (B.state on.old) (B.state on.new) result)) }
    ensures own { IsOwn (B.state on.new) kind tag rank result }
    ensures steps { Steps tag (λ x. leaf ≡ Some x) (λ b. ⊥) (B.state on.old) (B.state on.new) }
    ensures keeps { B.keeps on.old on.new }
    ensures only { (b : ℕ) → Made (B.state on.old) (B.state on.new) b → b ≡ result }
    ensures dirties { Dirties 2 (λ b. b ≡ result) (B.state on.old) (B.state on.new) }
    ensures spare { ((B.state on.old).spare ≤ (B.state on.new).spare + 1) × (IsCurrent (B.state on.old) leaf → (B.state on.old).spare ≤ (B.state on.new).spare) }
{
    match leaf {
        None => new_leaf(on, kind, tag, rank),
        Some(at) => own_copy(on, at, kind, tag, rank),
    }
}

/// A new block of zeros.
fn new_leaf<B: Blocks>(on: &mut B, kind: Kind, tag: u32, rank: u32) -> u32
    requires kind { (kind ≡ Data 0) ⊎ (kind ≡ Dir 0) }
    requires spare { 0 < (B.state on.old).spare }
    ensures content { SameContent ((B.state on.new).now result) (blank kind) }
    ensures made { Made (B.state on.old) (B.state on.new) result }
    ensures own { IsOwn (B.state on.new) kind tag rank result }
    ensures steps { Steps tag (λ x. ⊥) (λ b. ⊥) (B.state on.old) (B.state on.new) }
    ensures keeps { B.keeps on.old on.new }
    ensures only { (b : ℕ) → Made (B.state on.old) (B.state on.new) b → b ≡ result }
    ensures dirties { Dirties 2 (λ b. b ≡ result) (B.state on.old) (B.state on.new) }
    ensures spare { (B.state on.old).spare ≤ (B.state on.new).spare + 1 }
{
    on.new_block(kind, tag, rank)
}

/// The leaf itself where it is of the current epoch, and else a copy.
fn own_copy<B: Blocks>(on: &mut B, at: u32, kind: Kind, tag: u32, rank: u32) -> u32
    requires leaf { IsLeaf (B.state on.old) kind tag rank at }
    requires held { IsHeld (B.state on.old) kind tag at }
    requires spare { (((B.state on.old).label at).epoch ≡ (B.state on.old).high) ⊎ (0 < (B.state on.old).spare) }
    ensures content { SameContent ((B.state on.new).now result) ((B.state on.old).now at) }
    ensures copied { ((at ≡ result) × (((B.state on.old).label at).epoch ≡ (B.state on.old).high)) ⊎ ((((B.state on.old).label at).epoch < (B.state on.old).high) × Made (B.state on.old) (B.state on.new) result) }
    ensures own { IsOwn (B.state on.new) kind tag rank result }
    ensures steps { Steps tag (λ x. x ≡ at) (λ b. ⊥) (B.state on.old) (B.state on.new) }
    ensures keeps { B.keeps on.old on.new }
    ensures only { (b : ℕ) → Made (B.state on.old) (B.state on.new) b → b ≡ result }
    ensures dirties { Dirties 2 (λ b. b ≡ result) (B.state on.old) (B.state on.new) }
    ensures spare { ((B.state on.old).spare ≤ (B.state on.new).spare + 1) × (((B.state on.old).label at).epoch ≡ (B.state on.old).high → (B.state on.old).spare ≤ (B.state on.new).spare) }
{
    let _ = (kind, tag, rank);
    if is_current(on, at) { at } else { on.copy(at) }
}

/// Whether a block is of the current epoch.
fn is_current<B: Blocks>(on: &B, at: u32) -> bool
    requires block { (B.state on.now).is_block at }
    requires up_to { ((B.state on.now).label at).epoch ≤ (B.state on.now).high }
    ensures yes { result ≡ true → ((B.state on.now).label at).epoch ≡ (B.state on.now).high }
    ensures no { result ≡ false → ((B.state on.now).label at).epoch < (B.state on.now).high }
{
    on.label(at).epoch == on.high()
}
