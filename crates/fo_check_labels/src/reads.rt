//! Reads of the device.
ghost use Rattle.std.specs.Prelude.{◌≡◌, ℕ, ◌+◌, ◌<◌, ◌≤◌, List, length, OnOk, IfErr};
ghost use Rattle.fo_base.specs.Cause.{Counted};
ghost use Rattle.fo_disk.specs.Disk.{Block, DiskState};
ghost use Rattle.fo_sound.specs.Image.{block_of};
ghost use Rattle.fo_sound.specs.Device.{Shows};
ghost use Rattle.fo_check_labels.specs.Cause.{HasCauses};
ghost use Rattle.fo_check_labels.specs.Watch.{hits};
ghost use Rattle.fo_check_labels.specs.declared.error.TreeError.TheVariants.{Read as ReadFault};

use crate::error::TreeError;
use fo_disk::Disk;

/// A device whose blocks are read, and nothing else. One of its blocks is watched: what is said of any such device is said of each block.
pub trait Reads {
    /// What is known of it, as of a disk.
    ghost state: { Self → DiskState };

    /// How many blocks may be read.
    ghost size: { Self → ℕ };

    /// How many calls there were.
    ghost calls: { Self → ℕ };

    /// How many faults there were.
    ghost faults: { Self → ℕ };

    /// The block that is watched.
    ghost watched: { ℕ };

    /// How often that block was read, or less.
    ghost reads: { Self → ℕ };

    /// The bytes of a block.
    fn read_block(&mut self, at: u32, into: &mut [u8]) -> Result<(), TreeError>
        requires block { at < size self.old }
        requires length { length into.old ≡ 8192 }
        ensures shown { (image : List Block) → Shows (state self.old).holds image → OnOk result (into.new ≡ block_of image at) }
        ensures size { size self.new ≡ size self.old }
        ensures kept { state self.new ≡ state self.old }
        ensures calls { Counted (calls self.old) (calls self.new) }
        ensures watches { reads self.new ≤ reads self.old + hits at watched }
        ensures fault { IfErr result (λ e. e ≡ ReadFault) }
        ensures cause { HasCauses (faults self.old) (faults self.new) result };
}

impl<D: Disk> Reads for D {
    ghost state = { D.Disk.state };

    ghost size = { D.Disk.size };

    ghost calls = { D.Disk.calls };

    ghost faults = { D.Disk.faults };

    ghost watched = { 0 };

    ghost reads = { λ _. 0 };

    fn read_block(&mut self, at: u32, into: &mut [u8]) -> Result<(), TreeError> {
        match self.read(at, into) {
            Ok(()) => Ok(()),
            Err(_) => Err(TreeError::Read),
        }
    }
}

/// The bytes of a block.
pub fn read<D: Reads>(main: &mut D, at: u32, into: &mut [u8]) -> Result<(), TreeError>
    requires block { at < D.size main.old }
    requires length { length into.old ≡ 8192 }
    ensures shown { (image : List Block) → Shows (D.state main.old).holds image → OnOk result (into.new ≡ block_of image at) }
    ensures size { D.size main.new ≡ D.size main.old }
    ensures kept { D.state main.new ≡ D.state main.old }
    ensures calls { Counted (D.calls main.old) (D.calls main.new) }
    ensures watches { D.reads main.new ≤ D.reads main.old + hits at D.watched }
    ensures fault { IfErr result (λ e. e ≡ ReadFault) }
    ensures cause { HasCauses (D.faults main.old) (D.faults main.new) result }
{
    main.read_block(at, into)
}
