//! The calls of a device, with all that a cache keeps beside what it knows.
ghost use Rattle.std.specs.Prelude.{◌≡◌, ◌<◌, ℕ, Bool, true, length, is_err, not};
ghost use Rattle.fo_base.specs.Cause.{HasCause};
ghost use Rattle.fo_disk.specs.Disk.{IsWrite, IsSync};
ghost use Rattle.fo_image.specs.declared.types.State.TheVariants.{Closed};
ghost use Rattle.fo_cells.specs.Flags.{Flags, FlagsFit, LabelsFit, marked, after_sync_flags};
ghost use Rattle.fo_cells.specs.Device.{Mind, MayWrite, Stepped, Fits, wrote, after_sync};
ghost use Rattle.fo_cells_held.specs.Held.{Buffering, HasBuffers, Times, LabelsAreTimed, OnlyLiveDirty, timed, after_sync_times};

use fo_cells::{settle, write_block};
use fo_disk::{Disk, Failed};

/// Writes a block that has a buffer. Beside what `write_block` says: buffers, the times of labels, and what may be dirty are kept, whatever
/// the device answers.
pub fn write_held<D: Disk>(disk: &mut D, at: u32, bytes: &[u8]) -> Result<(), Failed>
    requires block { at < D.size disk.old }
    requires length { length bytes.now ≡ 8192 }
    ensures buffers { (m : Mind) (f : Flags) (h : Buffering) (is_complete : Bool) → h.held at ≡ true → HasBuffers m f h → HasBuffers (wrote at (not (is_err result)) is_complete m) (marked at (not (is_err result)) is_complete f) h }
    ensures times { (m : Mind) (f : Flags) (t : Times) (is_complete : Bool) → at < length (D.state disk.old).holds → ((b : ℕ) → m.label_block b ≡ at → m.label_in b bytes.now ≡ m.label b) → LabelsAreTimed m f t (D.state disk.old).holds → LabelsAreTimed (wrote at (not (is_err result)) is_complete m) (marked at (not (is_err result)) is_complete f) (timed at (not (is_err result)) t) (D.state disk.new).holds }
    ensures dirty { (m : Mind) (f : Flags) (is_data : ℕ → Bool) (high : ℕ) (is_complete : Bool) → f.dirty at ≡ true → ((m.label at).state ≡ Closed → is_complete ≡ true) → OnlyLiveDirty m f is_data high → OnlyLiveDirty (wrote at (not (is_err result)) is_complete m) (marked at (not (is_err result)) is_complete f) is_data high }
    ensures step { (m : Mind) (is_complete : Bool) → at < length (D.state disk.old).holds → MayWrite m (D.state disk.old).holds at bytes.now is_complete → Stepped m (wrote at (not (is_err result)) is_complete m) (D.state disk.old).unsure (D.state disk.new).unsure (D.state disk.old).holds (D.state disk.new).holds }
    ensures flags { (m : Mind) (f : Flags) (is_complete : Bool) → at < length (D.state disk.old).holds → (is_complete ≡ true → m.read at bytes.now ≡ m.memory at) → FlagsFit m f (D.state disk.old).unsure (D.state disk.old).holds → FlagsFit (wrote at (not (is_err result)) is_complete m) (marked at (not (is_err result)) is_complete f) (D.state disk.new).unsure (D.state disk.new).holds }
    ensures labels { (m : Mind) (f : Flags) (is_complete : Bool) → at < length (D.state disk.old).holds → (is_complete ≡ true → (t : ℕ) → m.label_block t ≡ at → m.label_in t bytes.now ≡ m.label t) → LabelsFit m f (D.state disk.old).holds → LabelsFit (wrote at (not (is_err result)) is_complete m) (marked at (not (is_err result)) is_complete f) (D.state disk.new).holds }
    ensures state { IsWrite at bytes.now result (D.state disk.old) (D.state disk.new) }
    ensures size { D.size disk.new ≡ D.size disk.old }
    ensures cause { HasCause (D.faults disk.old) (D.faults disk.new) result }
{
    write_block(disk, at, bytes)
}

/// Settles what was written. Beside what `settle` says: buffers, the times of labels, and what may be dirty are kept; labels that changed
/// before the last write of their block are set where the device answers Ok.
pub fn settle_held<D: Disk>(disk: &mut D) -> Result<(), Failed>
    ensures buffers { (m : Mind) (f : Flags) (h : Buffering) → HasBuffers m f h → HasBuffers (after_sync result m) (after_sync_flags result f) h }
    ensures times { (m : Mind) (f : Flags) (t : Times) → FlagsFit m f (D.state disk.old).unsure (D.state disk.old).holds → LabelsAreTimed m f t (D.state disk.old).holds → LabelsAreTimed (after_sync result m) (after_sync_flags result f) (after_sync_times result f t) (D.state disk.new).holds }
    ensures dirty { (m : Mind) (f : Flags) (is_data : ℕ → Bool) (high : ℕ) → OnlyLiveDirty m f is_data high → OnlyLiveDirty (after_sync result m) (after_sync_flags result f) is_data high }
    ensures step { (m : Mind) → Fits m (D.state disk.old).unsure (D.state disk.old).holds → Stepped m (after_sync result m) (D.state disk.old).unsure (D.state disk.new).unsure (D.state disk.old).holds (D.state disk.new).holds }
    ensures flags { (m : Mind) (f : Flags) → FlagsFit m f (D.state disk.old).unsure (D.state disk.old).holds → FlagsFit (after_sync result m) (after_sync_flags result f) (D.state disk.new).unsure (D.state disk.new).holds }
    ensures labels { (m : Mind) (f : Flags) → FlagsFit m f (D.state disk.old).unsure (D.state disk.old).holds → LabelsFit m f (D.state disk.old).holds → LabelsFit (after_sync result m) (after_sync_flags result f) (D.state disk.new).holds }
    ensures state { IsSync result (D.state disk.old) (D.state disk.new) }
    ensures size { D.size disk.new ≡ D.size disk.old }
    ensures cause { HasCause (D.faults disk.old) (D.faults disk.new) result }
{
    settle(disk)
}
