//! The calls of a device: no image is added, and all that holds of a block cache is kept, whatever the device answers.
ghost use Rattle.std.specs.Prelude.{◌≡◌, ◌<◌, ℕ, Bool, true, false, length, is_err, not};
ghost use Rattle.fo_base.specs.Cause.{HasCause};
ghost use Rattle.fo_disk.specs.Disk.{IsWrite, IsSync};
ghost use Rattle.fo_image.specs.declared.types.State.TheVariants.{Closed};
ghost use Rattle.fo_crash.specs.Images.{SameContent};
ghost use Rattle.fo_crash.specs.Steps.{AddsNothing};
ghost use Rattle.fo_cells.specs.Device.{MayWrite, MayWriteLabels, known, wrote};
ghost use Rattle.fo_cells.specs.Safe.{IsCurrent};
ghost use Rattle.fo_cells_epochs.specs.Epochs.{IsRead, NamesSet};
ghost use Rattle.fo_cells_steps.specs.of_cells_all.All.{Kept, Format, kept_write, kept_sync};
ghost use Rattle.fo_cells_steps.specs.Calls.{images};
ghost use Rattle.fo_cells_steps.specs.Division.{HoldsMade};

use fo_cells_steps::Makes;
use fo_disk::{Disk, Failed};

/// Writes a dirty block that has a buffer: a data block, whole or with older slots, that is current, was not made and left unlinked, and
/// names only what is settled; block 1 with what memory has; or a block of labels.
pub fn write_made<D: Disk, M: Makes>(
    disk: &mut D,
    _made: &M,
    at: u32,
    bytes: &[u8],
) -> Result<(), Failed>
    requires block { at < D.size disk.old }
    requires length { length bytes.now ≡ 8192 }
    ensures block_kept { (c : Kept) (f : Format) (is_complete : Bool) → at < length (D.state disk.old).holds → MayWrite c.mind (D.state disk.old).holds at bytes.now is_complete → NamesSet at (c.mind.read at bytes.now) (known c.mind (D.state disk.old).holds) (known (wrote at (not (is_err result)) is_complete c.mind) (D.state disk.new).holds) → IsCurrent (known c.mind (D.state disk.old).holds) c.high at → (at ≡ 1 → SameContent (c.mind.read at bytes.now) (c.mind.memory 1)) → (M.made _made.now at → ⊥) → c.buffering.held at ≡ true → c.flags.dirty at ≡ true → ((c.mind.label at).state ≡ Closed → is_complete ≡ true) → IsRead f.high_of → HoldsMade c f (M.made _made.now) (M.origins _made.now) (D.state disk.old).unsure (D.state disk.old).holds → AddsNothing (images c (D.state disk.old).holds) (images (kept_write at (not (is_err result)) is_complete c) (D.state disk.new).holds) × HoldsMade (kept_write at (not (is_err result)) is_complete c) f (M.made _made.now) (M.origins _made.now) (D.state disk.new).unsure (D.state disk.new).holds }
    ensures labels_kept { (c : Kept) (f : Format) → at < length (D.state disk.old).holds → MayWriteLabels c.mind at bytes.now → c.mind.read at bytes.now ≡ c.mind.memory at → c.buffering.held at ≡ true → c.flags.dirty at ≡ true → IsRead f.high_of → HoldsMade c f (M.made _made.now) (M.origins _made.now) (D.state disk.old).unsure (D.state disk.old).holds → AddsNothing (images c (D.state disk.old).holds) (images (kept_write at (not (is_err result)) true c) (D.state disk.new).holds) × HoldsMade (kept_write at (not (is_err result)) true c) f (M.made _made.now) (M.origins _made.now) (D.state disk.new).unsure (D.state disk.new).holds }
    ensures state { IsWrite at bytes.now result (D.state disk.old) (D.state disk.new) }
    ensures size { D.size disk.new ≡ D.size disk.old }
    ensures cause { HasCause (D.faults disk.old) (D.faults disk.new) result }
{
    disk.write(at, bytes)
}

/// Settles what was written. It fails only where the device fails, and then nothing counts as settled.
pub fn settle_made<D: Disk, M: Makes>(disk: &mut D, _made: &M) -> Result<(), Failed>
    ensures kept { (c : Kept) (f : Format) → ((b : ℕ) → M.made _made.now b → b < length (D.state disk.old).holds) → IsRead f.high_of → HoldsMade c f (M.made _made.now) (M.origins _made.now) (D.state disk.old).unsure (D.state disk.old).holds → AddsNothing (images c (D.state disk.old).holds) (images (kept_sync result c) (D.state disk.new).holds) × HoldsMade (kept_sync result c) f (M.made _made.now) (M.origins _made.now) (D.state disk.new).unsure (D.state disk.new).holds }
    ensures state { IsSync result (D.state disk.old) (D.state disk.new) }
    ensures size { D.size disk.new ≡ D.size disk.old }
    ensures cause { HasCause (D.faults disk.old) (D.faults disk.new) result }
{
    disk.sync()
}
