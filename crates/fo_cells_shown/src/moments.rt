//! The calls of a device: what each image of each of their moments shows.
ghost use Rattle.std.specs.Prelude.{◌≡◌, ◌<◌, ℕ, Bool, List, true, false, length, is_err, not};
ghost use Rattle.fo_base.specs.Cause.{HasCause};
ghost use Rattle.fo_disk.specs.Disk.{IsWrite, IsSync, Since};
ghost use Rattle.fo_image.specs.declared.types.State.TheVariants.{Closed};
ghost use Rattle.fo_crash.specs.Images.{SameContent};
ghost use Rattle.fo_cells.specs.Device.{MayWrite, MayWriteLabels, known, wrote};
ghost use Rattle.fo_cells.specs.Safe.{IsCurrent};
ghost use Rattle.fo_cells_epochs.specs.Epochs.{IsRead, NamesSet};
ghost use Rattle.fo_cells_all.specs.All.{Kept, Format};
ghost use Rattle.fo_cells_steps.specs.Division.{HoldsMade};
ghost use Rattle.fo_cells_shown.specs.Moments.{IsShown, AreSettledTops};

use fo_cells_steps::Makes;
use fo_disk::{Disk, Failed};

/// Writes a block as a cache may, which `write_made` says: a data block, block 1 with what memory has, or a block of labels. Each image of each
/// moment from before it until it has answered is, in all that settled tops reach, one that a crash could leave before it.
pub fn write_shown<D: Disk, M: Makes>(
    disk: &mut D,
    _made: &M,
    at: u32,
    bytes: &[u8],
) -> Result<(), Failed>
    requires block { at < D.size disk.old }
    requires length { length bytes.now ≡ 8192 }
    ensures block_shown { (c : Kept) (f : Format) (is_complete : Bool) (tops : List ℕ) → at < length (D.state disk.old).holds → MayWrite c.mind (D.state disk.old).holds at bytes.now is_complete → NamesSet at (c.mind.read at bytes.now) (known c.mind (D.state disk.old).holds) (known (wrote at (not (is_err result)) is_complete c.mind) (D.state disk.new).holds) → IsCurrent (known c.mind (D.state disk.old).holds) c.high at → (at ≡ 1 → SameContent (c.mind.read at bytes.now) (c.mind.memory 1)) → (M.made _made.now at → ⊥) → c.buffering.held at ≡ true → c.flags.dirty at ≡ true → ((c.mind.label at).state ≡ Closed → is_complete ≡ true) → IsRead f.high_of → HoldsMade c f (M.made _made.now) (M.origins _made.now) (D.state disk.old).unsure (D.state disk.old).holds → AreSettledTops c.mind tops → Since (D.state disk.old).moments (D.state disk.new).moments (IsShown c.mind (D.state disk.old).holds tops) }
    ensures labels_shown { (c : Kept) (f : Format) (tops : List ℕ) → at < length (D.state disk.old).holds → MayWriteLabels c.mind at bytes.now → c.mind.read at bytes.now ≡ c.mind.memory at → c.buffering.held at ≡ true → c.flags.dirty at ≡ true → IsRead f.high_of → HoldsMade c f (M.made _made.now) (M.origins _made.now) (D.state disk.old).unsure (D.state disk.old).holds → AreSettledTops c.mind tops → Since (D.state disk.old).moments (D.state disk.new).moments (IsShown c.mind (D.state disk.old).holds tops) }
    ensures state { IsWrite at bytes.now result (D.state disk.old) (D.state disk.new) }
    ensures size { D.size disk.new ≡ D.size disk.old }
    ensures cause { HasCause (D.faults disk.old) (D.faults disk.new) result }
{
    disk.write(at, bytes)
}

/// Settles what was written. Each image of each moment is, in all that settled tops reach, one that a crash could leave before it, whatever the
/// device answers.
pub fn settle_shown<D: Disk, M: Makes>(disk: &mut D, _made: &M) -> Result<(), Failed>
    ensures shown { (c : Kept) (f : Format) (tops : List ℕ) → ((b : ℕ) → M.made _made.now b → b < length (D.state disk.old).holds) → IsRead f.high_of → HoldsMade c f (M.made _made.now) (M.origins _made.now) (D.state disk.old).unsure (D.state disk.old).holds → AreSettledTops c.mind tops → Since (D.state disk.old).moments (D.state disk.new).moments (IsShown c.mind (D.state disk.old).holds tops) }
    ensures state { IsSync result (D.state disk.old) (D.state disk.new) }
    ensures size { D.size disk.new ≡ D.size disk.old }
    ensures cause { HasCause (D.faults disk.old) (D.faults disk.new) result }
{
    disk.sync()
}
