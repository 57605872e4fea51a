//! Looks at all views.
ghost use Rattle.std.specs.Prelude.{◌≡◌, ◌<◌, ◌≤◌, ℕ, true, false, length, drop, IfOk, IfErr, IfSome, OnOk};
ghost use Rattle.std.specs.Option.{option_copied};
ghost use Rattle.fo_ports.specs.State.{Looks};
ghost use Rattle.fo_world.specs.Answers.{Refuses};
ghost use Rattle.fo_world.specs.Fits.{InfoFits};
ghost use Rattle.fo_world.specs.Step as step;
ghost use Rattle.fo_world.specs.Step.{below, is_active};
ghost use Rattle.fo_world.specs.Tree.{comes_before, last};
ghost use Rattle.fo_files_look.specs.Told.{faults_of, above, name_given, IsTold, IsRead};
ghost use Rattle.fo_files_views.specs.Aside.{Says, SaysOrWants, SaysWhy};

use crate::aside::{info_aside, next_aside, no_find, no_read, parent_aside};
use fo_base::Bytes;
use fo_files_look as active;
use fo_ports::Blocks;
use fo_world::{FileError, Info, Place, View};
use std::alloc::Global;

/// What is told of the file at a place.
#[tactic(auto, using(crate::proofs::Once::looks_at_once, crate::proofs::Beside::owns_refused))]
pub fn info<B: Blocks>(alloc: Global, on: &mut B, at: &Place) -> Result<Info, FileError>
    requires silent { (B.state on.old).tells → ⊥ }
    ensures fits { IfOk result InfoFits }
    ensures active { is_active at.now.view ≡ true → IfOk result (λ i. IsTold (B.state on.new) at.now i × (i.place ≡ at.now) × (0 < length at.now.trail → i.path ≡ last at.now.trail)) }
    ensures aside { is_active at.now.view ≡ false → SaysOrWants (λ w. step.info true w at.now) result }
    ensures looks { Looks (B.state on.old) (B.state on.new) × B.keeps on.old on.new }
    ensures cause { Refuses (faults_of (B.state on.old)) (faults_of (B.state on.new)) ⊥ (λ n. ⊥) 0 result }
{
    match at.view {
        View::Active => {
            let root = on.root();
            active::info(alloc, on, root, at)
        }
        _ => info_aside(alloc, at),
    }
}

/// What is told of the directory above a place, and of the place itself for the roots that can be attached to.
#[tactic(auto, using(crate::proofs::Once::looks_at_once, crate::proofs::Beside::owns_refused))]
pub fn parent<B: Blocks>(alloc: Global, on: &mut B, at: &Place) -> Result<Info, FileError>
    requires silent { (B.state on.old).tells → ⊥ }
    ensures fits { IfOk result InfoFits }
    ensures active { is_active at.now.view ≡ true → IfOk result (λ i. IsTold (B.state on.new) (above at.now) i × (i.place ≡ above at.now) × (0 < length (above at.now).trail → i.path ≡ last (above at.now).trail)) }
    ensures aside { is_active at.now.view ≡ false → SaysOrWants (λ w. step.parent true w at.now) result }
    ensures looks { Looks (B.state on.old) (B.state on.new) × B.keeps on.old on.new }
    ensures cause { Refuses (faults_of (B.state on.old)) (faults_of (B.state on.new)) ⊥ (λ n. ⊥) 0 result }
{
    match at.view {
        View::Active => {
            let root = on.root();
            active::parent(alloc, on, root, at)
        }
        _ => parent_aside(alloc, at),
    }
}

/// What is told of the file with this name in the directory at a place.
#[tactic(auto, using(crate::proofs::Once::looks_at_once, crate::proofs::Beside::owns_refused))]
pub fn find<B: Blocks>(
    alloc: Global,
    on: &mut B,
    at: &Place,
    name: &[u8],
) -> Result<Info, FileError>
    requires silent { (B.state on.old).tells → ⊥ }
    ensures fits { IfOk result InfoFits }
    ensures active { is_active at.now.view ≡ true → IfOk result (λ i. IsTold (B.state on.new) (below at.now i.path) i × (i.name ≡ name.now)) }
    ensures aside { is_active at.now.view ≡ false → Says (λ w. step.find true w at.now name.now) result }
    ensures looks { Looks (B.state on.old) (B.state on.new) × B.keeps on.old on.new }
    ensures cause { Refuses (faults_of (B.state on.old)) (faults_of (B.state on.new)) ⊥ (λ n. ⊥) 0 result }
{
    match at.view {
        View::Active => {
            let root = on.root();
            active::find(alloc, on, root, at, name)
        }
        _ => Err(no_find(at, name)),
    }
}

/// What is told of the file with the least name in the directory at a place, above the one given; None where no name is left.
#[tactic(auto, using(crate::proofs::Once::looks_at_once, crate::proofs::Beside::owns_refused))]
pub fn next_name<B: Blocks>(
    alloc: Global,
    on: &mut B,
    at: &Place,
    after: Option<&Bytes>,
) -> Result<Option<Info>, FileError>
    requires silent { (B.state on.old).tells → ⊥ }
    ensures fits { IfOk result (λ told. IfSome told InfoFits) }
    ensures active { is_active at.now.view ≡ true → IfOk result (λ told. IfSome told (λ i. IsTold (B.state on.new) (below at.now i.path) i × (comes_before (name_given (option_copied after.entry)) i.name ≡ true))) }
    ensures aside { is_active at.now.view ≡ false → Says (λ w. step.next_name true w at.now (option_copied after.entry)) result }
    ensures looks { Looks (B.state on.old) (B.state on.new) × B.keeps on.old on.new }
    ensures cause { Refuses (faults_of (B.state on.old)) (faults_of (B.state on.new)) ⊥ (λ n. ⊥) 0 result }
{
    match at.view {
        View::Active => {
            let root = on.root();
            active::next_name(alloc, on, root, at, after)
        }
        _ => next_aside(at, after),
    }
}

/// Puts the bytes of the file at a place from an offset on into the front of `into`, as many as exist and fit, and says how many. The rest of
/// `into` stays; where it is refused the front may have been changed.
#[tactic(auto, using(crate::proofs::Once::looks_at_once, crate::proofs::Beside::owns_refused))]
pub fn read<B: Blocks>(
    alloc: Global,
    on: &mut B,
    at: &Place,
    offset: u64,
    into: &mut [u8],
) -> Result<usize, FileError>
    requires silent { (B.state on.old).tells → ⊥ }
    ensures front { IfOk result (λ n. (n ≤ length into.old) × (drop n into.new ≡ drop n into.old)) }
    ensures active { is_active at.now.view ≡ true → IfOk result (IsRead (B.state on.new) at.now.trail offset (length into.old)) }
    ensures aside { is_active at.now.view ≡ false → OnOk result ⊥ × IfErr result (λ e. (offset count : ℕ) → SaysWhy (λ w. step.read true w at.now offset count) e) }
    ensures looks { Looks (B.state on.old) (B.state on.new) × B.keeps on.old on.new }
    ensures cause { Refuses (faults_of (B.state on.old)) (faults_of (B.state on.new)) ⊥ (λ n. ⊥) 0 result }
{
    match at.view {
        View::Active => {
            let root = on.root();
            active::read(alloc, on, root, at, offset, into)
        }
        _ => Err(no_read(at)),
    }
}
