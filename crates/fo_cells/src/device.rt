//! The calls of a device, as steps of what a cache knows.
ghost use Rattle.std.specs.Prelude.{◌≡◌, ◌<◌, ℕ, Bool, true, false, length, is_err, not, slice_set};
ghost use Rattle.fo_disk.specs.of_base.Cause.{HasCause};
ghost use Rattle.fo_disk.specs.Disk.{IsWrite, IsSync, versions_of};
ghost use Rattle.fo_cells.specs.Writes.{WritesLabels};
ghost use Rattle.fo_cells.specs.Writes.{Writes as CacheWrites, Syncs as CacheSyncs};
ghost use Rattle.fo_cells.specs.Flags.{Flags, FlagsFit, LabelsFit, marked, after_sync_flags};
ghost use Rattle.fo_cells.specs.Device.{Mind, MayWrite, MayWriteLabels, Stepped, Fits, known, wrote, after_sync};

use fo_disk::{Disk, Failed};

/// Writes a block with what memory has, or with some of its slots as they are on the device. Whatever the device answers, no image is
/// added, and the invariant is kept. It fails only where the device fails.
pub fn write_block<D: Disk>(disk: &mut D, at: u32, bytes: &[u8]) -> Result<(), Failed>
    requires block { at < D.size disk.old }
    requires length { length bytes.now ≡ 8192 }
    ensures step { (m : Mind) (is_complete : Bool) → at < length (D.state disk.old).holds → MayWrite m (D.state disk.old).holds at bytes.now is_complete → Stepped m (wrote at (not (is_err result)) is_complete m) (D.state disk.old).unsure (D.state disk.new).unsure (D.state disk.old).holds (D.state disk.new).holds }
    ensures label_step { (m : Mind) (is_complete : Bool) → at < length (D.state disk.old).holds → 0 < length (versions_of (D.state disk.old).holds at) → MayWriteLabels m at bytes.now → WritesLabels (known m (D.state disk.old).holds) (known (wrote at (not (is_err result)) is_complete m) (D.state disk.new).holds) }
    ensures known { (m : Mind) (is_complete : Bool) → at < length (D.state disk.old).holds → MayWrite m (D.state disk.old).holds at bytes.now is_complete → CacheWrites at (m.read at bytes.now) (known m (D.state disk.old).holds) (known (wrote at (not (is_err result)) is_complete m) (D.state disk.new).holds) }
    ensures fits { (m : Mind) (is_complete : Bool) → at < length (D.state disk.old).holds → Fits m (D.state disk.old).unsure (D.state disk.old).holds → Fits (wrote at (not (is_err result)) is_complete m) (D.state disk.new).unsure (D.state disk.new).holds }
    ensures flags { (m : Mind) (f : Flags) (is_complete : Bool) → at < length (D.state disk.old).holds → (is_complete ≡ true → m.read at bytes.now ≡ m.memory at) → FlagsFit m f (D.state disk.old).unsure (D.state disk.old).holds → FlagsFit (wrote at (not (is_err result)) is_complete m) (marked at (not (is_err result)) is_complete f) (D.state disk.new).unsure (D.state disk.new).holds }
    ensures labels { (m : Mind) (f : Flags) (is_complete : Bool) → at < length (D.state disk.old).holds → (is_complete ≡ true → (t : ℕ) → m.label_block t ≡ at → m.label_in t bytes.now ≡ m.label t) → LabelsFit m f (D.state disk.old).holds → LabelsFit (wrote at (not (is_err result)) is_complete m) (marked at (not (is_err result)) is_complete f) (D.state disk.new).holds }
    ensures state { IsWrite at bytes.now result (D.state disk.old) (D.state disk.new) }
    ensures size { D.size disk.new ≡ D.size disk.old }
    ensures cause { HasCause (D.faults disk.old) (D.faults disk.new) result }
{
    disk.write(at, bytes)
}

/// Settles what was written. It fails only where the device fails, and then nothing counts as settled.
pub fn settle<D: Disk>(disk: &mut D) -> Result<(), Failed>
    ensures step { (m : Mind) → Fits m (D.state disk.old).unsure (D.state disk.old).holds → Stepped m (after_sync result m) (D.state disk.old).unsure (D.state disk.new).unsure (D.state disk.old).holds (D.state disk.new).holds }
    ensures known { (m : Mind) → Fits m (D.state disk.old).unsure (D.state disk.old).holds → is_err result ≡ false → CacheSyncs (known m (D.state disk.old).holds) (known (after_sync result m) (D.state disk.new).holds) }
    ensures flags { (m : Mind) (f : Flags) → FlagsFit m f (D.state disk.old).unsure (D.state disk.old).holds → FlagsFit (after_sync result m) (after_sync_flags result f) (D.state disk.new).unsure (D.state disk.new).holds }
    ensures labels { (m : Mind) (f : Flags) → FlagsFit m f (D.state disk.old).unsure (D.state disk.old).holds → LabelsFit m f (D.state disk.old).holds → LabelsFit (after_sync result m) (after_sync_flags result f) (D.state disk.new).holds }
    ensures state { IsSync result (D.state disk.old) (D.state disk.new) }
    ensures size { D.size disk.new ≡ D.size disk.old }
    ensures cause { HasCause (D.faults disk.old) (D.faults disk.new) result }
{
    disk.sync()
}
