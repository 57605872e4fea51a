//! A byte that every image has.
ghost use Rattle.std.specs.Prelude.{◌≡◌, ◌<◌, ◌≤◌, ◌+◌, ℕ, slice_index, IfOk, IfErr, IfSome, None};
ghost use Rattle.fo_base.specs.Cause.{Rose};
ghost use Rattle.fo_image.specs.declared.types.Kind.TheVariants.{Data};
ghost use Rattle.fo_crash.specs.declared.place.Place.{Place};
ghost use Rattle.fo_crash.specs.Images.{to_block, Image, Reaches};
ghost use Rattle.fo_ports.specs.Causes.{Caused};
ghost use Rattle.fo_ports.specs.State.{Looks};

use fo_image::Kind;
use fo_ports::{BlockError, Blocks};

/// A byte of a leaf of data that hangs from a top, where the leaf is of an older epoch: then every image has that byte, whatever is
/// flushed later. None where the leaf is not older.
pub fn older_byte<B: Blocks>(
    on: &mut B,
    leaf: u32,
    rank: u32,
    from: usize,
) -> Result<Option<u8>, BlockError>
    requires block { (B.state on.old).is_block leaf }
    requires place { (B.state on.old).tells → (p : Place) → (B.state on.old).stands leaf p → (p.kind ≡ Data 0) × (p.rank ≡ rank) }
    requires hangs { (B.state on.old).tells → (top : ℕ) × (B.state on.old).tops top × Reaches (B.state on.old).now (to_block top) leaf }
    requires within { from < 8192 }
    ensures none { IfOk result (λ found. found ≡ None → (B.state on.old).high ≤ ((B.state on.old).label leaf).epoch) }
    ensures byte { IfOk result (λ found. IfSome found (λ byte. (((B.state on.old).label leaf).epoch < (B.state on.old).high) × (slice_index (((B.state on.new).now leaf).bytes) from ≡ byte))) }
    ensures sure { IfOk result (λ found. IfSome found (λ byte. (image : Image) → (B.state on.new).may_leave image → slice_index ((image leaf).bytes) from ≡ byte)) }
    ensures looks { Looks (B.state on.old) (B.state on.new) }
    ensures pins { (B.state on.old).pins_left ≤ (B.state on.new).pins_left + 1 }
    ensures cause { IfErr result (Caused ⊥ (λ b. (b ≡ leaf) × ((B.state on.old).tells → ⊥)) (Rose (B.state on.old).faults (B.state on.new).faults) ⊥) }
    ensures keeps { B.keeps on.old on.new }
{
    if on.high() <= on.label(leaf).epoch {
        return Ok(None);
    }
    let mut block = [0; 8192];
    if let Err(e) = on.get(leaf, Kind::Data(0), rank, &mut block) {
        return Err(e);
    }
    Ok(Some(block[from]))
}
