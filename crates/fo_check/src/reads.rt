//! Reads of the two devices.
ghost use Rattle.std.specs.Prelude.{◌≡◌, ℕ, ◌<◌, ◌↔◌, List, length, IsTrue, OnOk, IfOk, IfErr};
ghost use Rattle.fo_base.specs.Cause.{HasCause, Counted};
ghost use Rattle.fo_disk.specs.Disk.{Block};
ghost use Rattle.fo_disk.specs.declared.disk.DiskFault.TheVariants.{Read as ReadFault};
ghost use Rattle.fo_image.specs.Format.{SpellsLabel};
ghost use Rattle.fo_check.specs.declared.error.CheckError.TheVariants.{Main as MainFailed, Arena as ArenaFailed};
ghost use Rattle.fo_sound.specs.Image.{block_of, IsDataBlock, HasLabel};
ghost use Rattle.fo_sound.specs.Sound.{root_label};
ghost use Rattle.fo_sound.specs.Device.{Shows};

use crate::error::CheckError;
use fo_disk::{BLOCK, Disk, DiskFault, Failed};
use fo_image::{Super, label_place, read_label};
use fo_sound::root_label;

/// The number of blocks of a device.
pub(crate) fn count<D: Disk>(device: &mut D) -> Result<u64, Failed>
    ensures size { IfOk result (λ n. D.size device.new ≡ n) }
    ensures fixed { 0 < D.size device.old → D.size device.new ≡ D.size device.old }
    ensures calls { Counted (D.calls device.old) (D.calls device.new) }
    ensures answered { OnOk result (D.faults device.new ≡ D.faults device.old) }
    ensures shown { (image : List Block) → Shows (D.state device.old).holds image → IfOk result (λ n. length image ≡ n) }
    ensures kept { D.state device.new ≡ D.state device.old }
    ensures cause { HasCause (D.faults device.old) (D.faults device.new) result }
{
    device.blocks()
}

/// The bytes of a block.
fn read<D: Disk>(device: &mut D, at: u32, into: &mut [u8]) -> Result<(), Failed>
    requires block { at < D.size device.old }
    requires length { length into.old ≡ 8192 }
    ensures shown { (image : List Block) → Shows (D.state device.old).holds image → OnOk result (into.new ≡ block_of image at) }
    ensures size { D.size device.new ≡ D.size device.old }
    ensures kept { D.state device.new ≡ D.state device.old }
    ensures calls { Counted (D.calls device.old) (D.calls device.new) }
    ensures cause { HasCause (D.faults device.old) (D.faults device.new) result }
{
    device.read(at, into)
}

/// The bytes of a block of the main device.
pub(crate) fn read_main<D: Disk>(main: &mut D, at: u32, into: &mut [u8]) -> Result<(), CheckError>
    requires block { at < D.size main.old }
    requires length { length into.old ≡ 8192 }
    ensures shown { (image : List Block) → Shows (D.state main.old).holds image → OnOk result (into.new ≡ block_of image at) }
    ensures size { D.size main.new ≡ D.size main.old }
    ensures kept { D.state main.new ≡ D.state main.old }
    ensures calls { Counted (D.calls main.old) (D.calls main.new) }
    ensures cause { HasCause (D.faults main.old) (D.faults main.new) result }
    ensures fault { IfErr result (λ e. e ≡ MainFailed ReadFault) }
{
    match read(main, at, into) {
        Ok(()) => Ok(()),
        Err(_) => Err(CheckError::Main(DiskFault::Read)),
    }
}

/// The bytes of a block of the arena.
pub(crate) fn read_arena<A: Disk>(arena: &mut A, at: u32, into: &mut [u8]) -> Result<(), CheckError>
    requires block { at < A.size arena.old }
    requires length { length into.old ≡ 8192 }
    ensures shown { (image : List Block) → Shows (A.state arena.old).holds image → OnOk result (into.new ≡ block_of image at) }
    ensures size { A.size arena.new ≡ A.size arena.old }
    ensures kept { A.state arena.new ≡ A.state arena.old }
    ensures calls { Counted (A.calls arena.old) (A.calls arena.new) }
    ensures cause { HasCause (A.faults arena.old) (A.faults arena.new) result }
    ensures fault { IfErr result (λ e. e ≡ ArenaFailed ReadFault) }
{
    match read(arena, at, into) {
        Ok(()) => Ok(()),
        Err(_) => Err(CheckError::Arena(DiskFault::Read)),
    }
}

/// Whether the label of the active root, which is a data block, is that of an active root.
pub(crate) fn has_root_label<D: Disk>(
    main: &mut D,
    blocks: u32,
    s: &Super,
) -> Result<bool, CheckError>
    requires size { D.size main.old ≡ blocks }
    requires place { IsDataBlock blocks s.now.active }
    ensures label { (image : List Block) → length image ≡ blocks → Shows (D.state main.old).holds image
        → IfOk result (λ labelled. IsTrue labelled ↔ HasLabel image s.now.active (root_label s.now)) }
    ensures size { D.size main.new ≡ D.size main.old }
    ensures kept { D.state main.new ≡ D.state main.old }
    ensures calls { Counted (D.calls main.old) (D.calls main.new) }
    ensures cause { HasCause (D.faults main.old) (D.faults main.new) result }
    ensures fault { IfErr result (λ e. e ≡ MainFailed ReadFault) }
{
    let mut block = [0; BLOCK];
    let (at, from) = label_place(s.active);
    read_main(main, at, &mut block)?;
    Ok(is_root_label(&block[from..from + 14], s))
}

/// Whether these bytes are the label of an active root.
fn is_root_label(bytes: &[u8], s: &Super) -> bool
    requires { length bytes.now ≡ 14 }
    ensures { IsTrue result ↔ SpellsLabel (root_label s.now) bytes.now }
{
    match read_label(bytes) {
        Ok(label) => label == root_label(s),
        Err(_) => false,
    }
}
