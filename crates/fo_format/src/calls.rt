//! Calls of a device, each with its fault, and what they do to the last versions of its blocks.
ghost use Rattle.std.specs.Prelude.{◌≡◌, ◌<◌, List, length, slice_set, OnOk, IfOk, IfErr};
ghost use Rattle.fo_base.specs.Cause.{HasCause, Counted};
ghost use Rattle.fo_disk.specs.Disk.{Block, latest, IsSure, IsQuiet};
ghost use Rattle.fo_disk.specs.declared.disk.DiskFault.TheVariants.{Read, Write, Sync};
ghost use Rattle.fo_sound.specs.Device.{Shows};

use fo_disk::{Disk, DiskFault};

/// The number of blocks of a device.
pub(crate) fn count<D: Disk>(device: &mut D) -> Result<u64, DiskFault>
    ensures size { IfOk result (λ n. D.size device.new ≡ n) }
    ensures fixed { 0 < D.size device.old → D.size device.new ≡ D.size device.old }
    ensures asked { Counted (D.calls device.old) (D.calls device.new) }
    ensures answered { IfOk result (λ _. D.faults device.new ≡ D.faults device.old) }
    ensures shown { (image : List Block) → Shows (D.state device.old).holds image → IfOk result (λ n. length image ≡ n) }
    ensures kept { D.state device.new ≡ D.state device.old }
    ensures cause { HasCause (D.faults device.old) (D.faults device.new) result }
    ensures fault { IfErr result (λ e. e ≡ Read) }
{
    match device.blocks() {
        Ok(blocks) => Ok(blocks),
        Err(_) => Err(DiskFault::Read),
    }
}

/// Writes a block.
pub(crate) fn write<D: Disk>(device: &mut D, at: u32, block: &[u8]) -> Result<(), DiskFault>
    requires block { at < D.size device.old }
    requires length { length block.now ≡ 8192 }
    ensures size { D.size device.new ≡ D.size device.old }
    ensures latest { OnOk result (latest (D.state device.new).holds ≡ slice_set (latest (D.state device.old).holds) at block.now) }
    ensures sure { OnOk result (IsSure (D.state device.old) → IsSure (D.state device.new)) }
    ensures cause { HasCause (D.faults device.old) (D.faults device.new) result }
    ensures fault { IfErr result (λ e. e ≡ Write) }
{
    match device.write(at, block) {
        Ok(()) => Ok(()),
        Err(_) => Err(DiskFault::Write),
    }
}

/// Settles what was written.
pub(crate) fn sync<D: Disk>(device: &mut D) -> Result<(), DiskFault>
    ensures size { D.size device.new ≡ D.size device.old }
    ensures latest { latest (D.state device.new).holds ≡ latest (D.state device.old).holds }
    ensures quiet { OnOk result (IsSure (D.state device.old) → IsQuiet (D.state device.new).holds) }
    ensures cause { HasCause (D.faults device.old) (D.faults device.new) result }
    ensures fault { IfErr result (λ e. e ≡ Sync) }
{
    match device.sync() {
        Ok(()) => Ok(()),
        Err(_) => Err(DiskFault::Sync),
    }
}
