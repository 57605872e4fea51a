//! The calls of a device: which data blocks get a new version, and what a settling leaves.
ghost use Rattle.std.specs.Prelude.{◌≡◌, ◌<◌, true, false, length, OnOk};
ghost use Rattle.fo_base.specs.Cause.{HasCause};
ghost use Rattle.fo_disk.specs.Disk.{IsWrite, IsSync};
ghost use Rattle.fo_cells_all.specs.All.{Kept, Format};
ghost use Rattle.fo_cells_steps.specs.Division.{HoldsMade};
ghost use Rattle.fo_cells_shown.specs.Versions.{GetsVersions, GetsNone, IsLeftSettled};

use fo_cells_steps::Makes;
use fo_disk::{Disk, Failed};

/// Writes a block where it is dirty, and does nothing where it isn't. A data block gets a new version only while it is dirty, and then it is
/// live and current, or was closed in its own epoch after a failed write.
pub fn write_live<D: Disk, M: Makes>(
    disk: &mut D,
    _made: &M,
    at: u32,
    dirty: bool,
    bytes: &[u8],
) -> Result<(), Failed>
    requires block { at < D.size disk.old }
    requires length { length bytes.now ≡ 8192 }
    ensures versions { (c : Kept) (f : Format) → c.flags.dirty at ≡ dirty → HoldsMade c f (M.made _made.now) (M.origins _made.now) (D.state disk.old).unsure (D.state disk.old).holds → GetsVersions at c f (D.state disk.old).holds (D.state disk.new).holds }
    ensures clean { dirty ≡ false → GetsNone (D.state disk.old).holds (D.state disk.new).holds }
    ensures still { dirty ≡ false → D.state disk.new ≡ D.state disk.old }
    ensures state { dirty ≡ true → IsWrite at bytes.now result (D.state disk.old) (D.state disk.new) }
    ensures size { D.size disk.new ≡ D.size disk.old }
    ensures cause { HasCause (D.faults disk.old) (D.faults disk.new) result }
{
    if !dirty {
        return Ok(());
    }
    disk.write(at, bytes)
}

/// Settles what was written: no block gets a new version. Where it answers Ok, a block has several only if its last write failed, and what
/// isn't dirty is there as memory has it.
pub fn settle_live<D: Disk, M: Makes>(disk: &mut D, _made: &M) -> Result<(), Failed>
    ensures versions { GetsNone (D.state disk.old).holds (D.state disk.new).holds }
    ensures settled { (c : Kept) (f : Format) → HoldsMade c f (M.made _made.now) (M.origins _made.now) (D.state disk.old).unsure (D.state disk.old).holds → OnOk result (IsLeftSettled c (D.state disk.new).holds) }
    ensures state { IsSync result (D.state disk.old) (D.state disk.new) }
    ensures size { D.size disk.new ≡ D.size disk.old }
    ensures cause { HasCause (D.faults disk.old) (D.faults disk.new) result }
{
    disk.sync()
}
