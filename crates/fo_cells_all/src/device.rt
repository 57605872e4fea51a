//! The calls of a device: all that a cache's invariant says is kept, whatever the device answers.
ghost use Rattle.std.specs.Prelude.{◌≡◌, ◌<◌, ℕ, Bool, true, false, length, is_err, not};
ghost use Rattle.fo_base.specs.Cause.{HasCause};
ghost use Rattle.fo_disk.specs.Disk.{IsWrite, IsSync};
ghost use Rattle.fo_image.specs.declared.types.State.TheVariants.{Closed};
ghost use Rattle.fo_crash.specs.Images.{Content, SameContent};
ghost use Rattle.fo_cells.specs.Calls.{TriesSuper};
ghost use Rattle.fo_cells.specs.Device.{Mind, MayWrite, MayWriteLabels, known, wrote};
ghost use Rattle.fo_cells.specs.Safe.{IsCurrent};
ghost use Rattle.fo_cells_queue.specs.of_cells_out.Parents.{Tree};
ghost use Rattle.fo_cells_queue.specs.of_cells_epochs.Epochs.{IsRead, NamesSet};
ghost use Rattle.fo_cells_all.specs.All.{Kept, Format, HoldsAll, HoldsBeside, MayTry, kept_write, kept_sync};

use fo_disk::{Disk, Failed};

/// Blocks that are divided, in whatever form a cache has that.
pub trait Divided {
    /// The tree of memory, what was made, what is covered.
    ghost tree: { Self → Tree };
}

/// Writes a dirty block that has a buffer: a data block, whole or with older slots, that is current, was not made and left unlinked, and
/// names only what is settled; block 1 with what memory has; or a block of labels. Another super block that is written is tried by it.
pub fn write_kept<D: Disk, T: Divided>(
    disk: &mut D,
    _tree: &T,
    at: u32,
    bytes: &[u8],
) -> Result<(), Failed>
    requires block { at < D.size disk.old }
    requires length { length bytes.now ≡ 8192 }
    ensures block_kept { (c : Kept) (f : Format) (is_complete : Bool) → at < length (D.state disk.old).holds → MayWrite c.mind (D.state disk.old).holds at bytes.now is_complete → NamesSet at (c.mind.read at bytes.now) (known c.mind (D.state disk.old).holds) (known (wrote at (not (is_err result)) is_complete c.mind) (D.state disk.new).holds) → IsCurrent (known c.mind (D.state disk.old).holds) c.high at → (at ≡ 1 → SameContent (c.mind.read at bytes.now) (c.mind.memory 1)) → ((T.tree _tree.now).Made at → ⊥) → c.buffering.held at ≡ true → c.flags.dirty at ≡ true → ((c.mind.label at).state ≡ Closed → is_complete ≡ true) → IsRead f.high_of → HoldsAll c f (T.tree _tree.now) (D.state disk.old).unsure (D.state disk.old).holds → HoldsAll (kept_write at (not (is_err result)) is_complete c) f (T.tree _tree.now) (D.state disk.new).unsure (D.state disk.new).holds }
    ensures labels_kept { (c : Kept) (f : Format) → at < length (D.state disk.old).holds → MayWriteLabels c.mind at bytes.now → c.mind.read at bytes.now ≡ c.mind.memory at → c.buffering.held at ≡ true → c.flags.dirty at ≡ true → IsRead f.high_of → HoldsAll c f (T.tree _tree.now) (D.state disk.old).unsure (D.state disk.old).holds → HoldsAll (kept_write at (not (is_err result)) true c) f (T.tree _tree.now) (D.state disk.new).unsure (D.state disk.new).holds }
    ensures tried { (m : Mind) (d : Content) → at ≡ 1 → 1 < length (D.state disk.old).holds → MayTry m (D.state disk.old).holds d bytes.now → TriesSuper d (known m (D.state disk.old).holds) (known (wrote 1 (not (is_err result)) false m) (D.state disk.new).holds) }
    ensures beside { (c : Kept) (f : Format) (is_complete : Bool) → at < length (D.state disk.old).holds → (is_complete ≡ true → c.mind.read at bytes.now ≡ c.mind.memory at) → ((b : ℕ) → c.mind.label_block b ≡ at → c.mind.label_in b bytes.now ≡ c.mind.label b) → c.buffering.held at ≡ true → c.flags.dirty at ≡ true → ((c.mind.label at).state ≡ Closed → is_complete ≡ true) → HoldsBeside c f (D.state disk.old).unsure (D.state disk.old).holds → HoldsBeside (kept_write at (not (is_err result)) is_complete c) f (D.state disk.new).unsure (D.state disk.new).holds }
    ensures state { IsWrite at bytes.now result (D.state disk.old) (D.state disk.new) }
    ensures size { D.size disk.new ≡ D.size disk.old }
    ensures cause { HasCause (D.faults disk.old) (D.faults disk.new) result }
{
    disk.write(at, bytes)
}

/// Settles what was written. It fails only where the device fails, and then nothing counts as settled.
pub fn settle_kept<D: Disk, T: Divided>(disk: &mut D, _tree: &T) -> Result<(), Failed>
    ensures kept { (c : Kept) (f : Format) → ((b : ℕ) → (T.tree _tree.now).Made b → b < length (D.state disk.old).holds) → IsRead f.high_of → HoldsAll c f (T.tree _tree.now) (D.state disk.old).unsure (D.state disk.old).holds → HoldsAll (kept_sync result c) f (T.tree _tree.now) (D.state disk.new).unsure (D.state disk.new).holds }
    ensures beside { (c : Kept) (f : Format) → HoldsBeside c f (D.state disk.old).unsure (D.state disk.old).holds → HoldsBeside (kept_sync result c) f (D.state disk.new).unsure (D.state disk.new).holds }
    ensures state { IsSync result (D.state disk.old) (D.state disk.new) }
    ensures size { D.size disk.new ≡ D.size disk.old }
    ensures cause { HasCause (D.faults disk.old) (D.faults disk.new) result }
{
    disk.sync()
}
