//! A look at a block of any kind.
ghost use Rattle.std.specs.Prelude.{◌≡◌, ◌⊎◌, ◌+◌, ◌<◌, ◌≤◌, ◌^◌, ℕ, length, IfOk, IfErr, IfSome, MatchOption};
ghost use Rattle.fo_image.specs.declared.types.Kind.TheVariants.{Data, Dir, Root};
ghost use Rattle.fo_image.specs.declared.types.Pointer.TheVariants.{Local};
ghost use Rattle.fo_image.specs.Format.{KindHolds};
ghost use Rattle.fo_crash.specs.declared.slot.Slot.TheVariants.{Entry as Head};
ghost use Rattle.fo_crash.specs.Places.{place_below};
ghost use Rattle.fo_ports.specs.Blocks.{IsInner};
ghost use Rattle.fo_ports.specs.State.{Looks};
ghost use Rattle.fo_tree_read.specs.Tree.{StandsAs, Failed};
ghost use Rattle.fo_arch_walk.specs.Forms.{IsForm};
ghost use Rattle.fo_arch_walk.specs.Spots.{place_of, NamesNext, IsOfSnapshot, Finds};

use crate::data::look_data;
use crate::entries::look_entries;
use crate::pointers::look_pointers;
use crate::root::look_root;
use crate::spot::{Spot, spot_below};
use fo_arch_form::{Missing, Stored};
use fo_crash::Slot;
use fo_image::{Kind, Pointer};
use fo_ports::{BlockError, Blocks};

/// The address of the top of an entry.
fn top_of(missing: &Missing) -> u32
    requires { (at : ℕ) × (missing.now.entry.top ≡ Local at) }
    ensures { missing.now.entry.top ≡ Local result }
{
    match missing.entry.top {
        Pointer::Local(at) => at,
        _ => 0,
    }
}

/// The block at the top of an entry that a block names.
fn spot_at_top(spot: Spot, missing: &Missing) -> Spot
    requires low { spot.rank < 2 ^ 31 }
    requires few { missing.now.i < 204 }
    requires top { (at : ℕ) × (missing.now.entry.top ≡ Local at) }
    ensures at { missing.now.entry.top ≡ Local result.at }
    ensures kind { result.kind ≡ (place_below (place_of spot) missing.now.i (Head missing.now.entry)).kind }
    ensures rank { result.rank ≡ (place_below (place_of spot) missing.now.i (Head missing.now.entry)).rank }
{
    let at = top_of(missing);
    spot_below(spot, missing.i as u32, &Slot::Entry(missing.entry), at)
}

fn next_of_data<B: Blocks>(
    on: &mut B,
    done: &Stored,
    spot: Spot,
    form: &mut [u8],
) -> Result<Option<Spot>, BlockError>
    requires block { (B.state on.old).is_block spot.at }
    requires kind { spot.kind ≡ Data 0 }
    requires told { (B.state on.old).tells → StandsAs (B.state on.old) spot.kind spot.rank spot.at }
    requires length { length form.old ≡ 8192 }
    ensures next { IfOk result (λ next. MatchOption next (IsForm done.now spot.kind ((B.state on.new).now spot.at) form.new) (NamesNext done.now ((B.state on.new).now spot.at) spot)) }
    ensures block { IfOk result (λ next. IfSome next (λ n. (B.state on.new).is_block n.at)) }
    ensures pins { (B.state on.old).pins_left ≤ (B.state on.new).pins_left + 1 }
    ensures looks { Looks (B.state on.old) (B.state on.new) }
    ensures keeps { B.keeps on.old on.new }
    ensures cause { IfErr result (Failed (B.state on.old) (B.state on.new)) }
{
    let _ = done;
    look_data(on, spot.at, spot.rank, form)?;
    Ok(None)
}

fn next_of_pointers<B: Blocks>(
    on: &mut B,
    done: &Stored,
    spot: Spot,
    form: &mut [u8],
) -> Result<Option<Spot>, BlockError>
    requires block { (B.state on.old).is_block spot.at }
    requires inner { IsInner spot.kind }
    requires holds { KindHolds spot.kind }
    requires low { spot.rank < 2 ^ 31 }
    requires told { (B.state on.old).tells → StandsAs (B.state on.old) spot.kind spot.rank spot.at }
    requires length { length form.old ≡ 8192 }
    ensures next { IfOk result (λ next. MatchOption next (IsForm done.now spot.kind ((B.state on.new).now spot.at) form.new) (NamesNext done.now ((B.state on.new).now spot.at) spot)) }
    ensures block { IfOk result (λ next. IfSome next (λ n. (B.state on.new).is_block n.at)) }
    ensures pins { (B.state on.old).pins_left ≤ (B.state on.new).pins_left + 1 }
    ensures looks { Looks (B.state on.old) (B.state on.new) }
    ensures keeps { B.keeps on.old on.new }
    ensures cause { IfErr result (Failed (B.state on.old) (B.state on.new)) }
{
    match look_pointers(on, done, spot.at, spot.kind, spot.rank, form)? {
        None => Ok(None),
        Some(at) => {
            let slot = Slot::Pointer(Pointer::Local(at));
            Ok(Some(spot_below(spot, 0, &slot, at)))
        }
    }
}

fn next_of_entries<B: Blocks>(
    on: &mut B,
    done: &Stored,
    spot: Spot,
    form: &mut [u8],
) -> Result<Option<Spot>, BlockError>
    requires block { (B.state on.old).is_block spot.at }
    requires kind { spot.kind ≡ Dir 0 }
    requires low { spot.rank < 2 ^ 31 }
    requires told { (B.state on.old).tells → StandsAs (B.state on.old) spot.kind spot.rank spot.at }
    requires length { length form.old ≡ 8192 }
    ensures next { IfOk result (λ next. MatchOption next (IsForm done.now spot.kind ((B.state on.new).now spot.at) form.new) (NamesNext done.now ((B.state on.new).now spot.at) spot)) }
    ensures block { IfOk result (λ next. IfSome next (λ n. (B.state on.new).is_block n.at)) }
    ensures pins { (B.state on.old).pins_left ≤ (B.state on.new).pins_left + 1 }
    ensures looks { Looks (B.state on.old) (B.state on.new) }
    ensures keeps { B.keeps on.old on.new }
    ensures cause { IfErr result (Failed (B.state on.old) (B.state on.new)) }
{
    match look_entries(on, done, spot.at, spot.rank, form)? {
        None => Ok(None),
        Some(missing) => Ok(Some(spot_at_top(spot, &missing))),
    }
}

fn next_of_root<B: Blocks>(
    on: &mut B,
    done: &Stored,
    spot: Spot,
    form: &mut [u8],
) -> Result<Option<Spot>, BlockError>
    requires block { (B.state on.old).is_block spot.at }
    requires kind { spot.kind ≡ Root }
    requires low { spot.rank < 2 ^ 31 }
    requires told { (B.state on.old).tells → StandsAs (B.state on.old) spot.kind spot.rank spot.at }
    requires length { length form.old ≡ 8192 }
    ensures next { IfOk result (λ next. MatchOption next (IsForm done.now spot.kind ((B.state on.new).now spot.at) form.new) (NamesNext done.now ((B.state on.new).now spot.at) spot)) }
    ensures block { IfOk result (λ next. IfSome next (λ n. (B.state on.new).is_block n.at)) }
    ensures pins { (B.state on.old).pins_left ≤ (B.state on.new).pins_left + 1 }
    ensures looks { Looks (B.state on.old) (B.state on.new) }
    ensures keeps { B.keeps on.old on.new }
    ensures cause { IfErr result (Failed (B.state on.old) (B.state on.new)) }
{
    match look_root(on, done, spot.at, spot.rank, form)? {
        None => Ok(None),
        Some(missing) => Ok(Some(spot_at_top(spot, &missing))),
    }
}

/// The block that is looked at next, where one that this block names isn't stored.
fn next_of<B: Blocks>(
    on: &mut B,
    done: &Stored,
    spot: Spot,
    form: &mut [u8],
) -> Result<Option<Spot>, BlockError>
    requires block { (B.state on.old).is_block spot.at }
    requires holds { KindHolds spot.kind }
    requires low { spot.rank < 2 ^ 31 }
    requires told { (B.state on.old).tells → StandsAs (B.state on.old) spot.kind spot.rank spot.at }
    requires length { length form.old ≡ 8192 }
    ensures next { IfOk result (λ next. MatchOption next (IsForm done.now spot.kind ((B.state on.new).now spot.at) form.new) (NamesNext done.now ((B.state on.new).now spot.at) spot)) }
    ensures block { IfOk result (λ next. IfSome next (λ n. (B.state on.new).is_block n.at)) }
    ensures pins { (B.state on.old).pins_left ≤ (B.state on.new).pins_left + 1 }
    ensures looks { Looks (B.state on.old) (B.state on.new) }
    ensures keeps { B.keeps on.old on.new }
    ensures cause { IfErr result (Failed (B.state on.old) (B.state on.new)) }
{
    match spot.kind {
        Kind::Data(0) => next_of_data(on, done, spot, form),
        Kind::Dir(0) => next_of_entries(on, done, spot, form),
        Kind::Root => next_of_root(on, done, spot, form),
        Kind::Data(_) => next_of_pointers(on, done, spot, form),
        Kind::Dir(_) => next_of_pointers(on, done, spot, form),
    }
}

/// Looks at a block: its form is made, or a block that it names and that isn't stored is answered, and the form is of no use. A block
/// that names one of no lower rank is damaged; where the device tells, none does.
pub fn look<B: Blocks>(
    on: &mut B,
    done: &Stored,
    spot: Spot,
    form: &mut [u8],
) -> Result<Option<Spot>, BlockError>
    requires block { (B.state on.old).is_block spot.at }
    requires holds { KindHolds spot.kind }
    requires low { spot.rank < 2 ^ 31 }
    requires told { (B.state on.old).tells → IsOfSnapshot (B.state on.old) spot }
    requires length { length form.old ≡ 8192 }
    ensures finds { IfOk result (Finds done.now ((B.state on.new).now spot.at) spot form.new) }
    ensures block { IfOk result (λ next. IfSome next (λ n. (B.state on.new).is_block n.at)) }
    ensures pins { (B.state on.old).pins_left ≤ (B.state on.new).pins_left + 1 }
    ensures looks { Looks (B.state on.old) (B.state on.new) }
    ensures keeps { B.keeps on.old on.new }
    ensures cause { IfErr result (Failed (B.state on.old) (B.state on.new)) }
{
    match next_of(on, done, spot, form)? {
        None => Ok(None),
        Some(next) => {
            if spot.rank <= next.rank {
                return Err(BlockError::Damaged(spot.at));
            }
            Ok(Some(next))
        }
    }
}
