//! A disk of blocks of 8192 bytes.
ghost use Rattle.std.specs.Prelude.{◌≡◌, ◌⊎◌, ◌<◌, ◌≤◌, [], ℕ, length, OnOk, OnErr, MatchResult};
ghost use Rattle.std.specs.List.{Contains};
ghost use Rattle.fo_base.specs.Cause.{HasCause, Counted, Rose};
ghost use Rattle.fo_disk.specs.Disk.{DiskState, versions_of, AreBytes, IsContent, IsNewest, IsWrite, IsSync};

use thiserror::Error;

/// The device failed.
#[derive(Clone, Copy, Debug, PartialEq, Eq, Error)]
#[error("the device failed")]
pub struct Failed;

/// Which call of a device failed.
#[derive(Clone, Copy, Debug, PartialEq, Eq, Error)]
pub enum DiskFault {
    /// Its blocks could not be counted, or a block could not be read.
    #[error("read failed")]
    Read,
    /// A block could not be written.
    #[error("write failed")]
    Write,
    /// What was written could not be settled.
    #[error("sync failed")]
    Sync,
}

/// A disk of blocks of 8192 bytes, each of which a crash may leave as any of its versions.
///
/// A block has a settled version and those of the writes since. A sync that answers Ok settles each block whose last write
/// answered Ok. A call fails only where the count of faults rises in it, and no fault is counted where the blocks are found.
pub trait Disk {
    /// What is known of it: the versions of each block, every moment so far, and the blocks whose last write failed.
    ghost state: { Self → DiskState };

    /// How many blocks may be read and written: 0 until `blocks` has found it.
    ghost size: { Self → ℕ };

    /// How many calls there were, up to 2^64 - 1.
    ghost calls: { Self → ℕ };

    /// How many faults there were, up to 2^64 - 1.
    ghost faults: { Self → ℕ };

    /// The number of blocks. It never changes once it is found.
    fn blocks(&mut self) -> Result<u64, Failed>
        ensures size { MatchResult result (λ n. size self.new ≡ n) (λ _. size self.new ≡ size self.old) }
        ensures fixed { 0 < size self.old → size self.new ≡ size self.old }
        ensures state { state self.new ≡ state self.old }
        ensures calls { Counted (calls self.old) (calls self.new) }
        ensures cause { HasCause (faults self.old) (faults self.new) result }
        ensures answered { OnOk result (faults self.new ≡ faults self.old) };

    /// One of the versions of a block. Where it fails, `into` is unchanged.
    fn read(&mut self, at: u32, into: &mut [u8]) -> Result<(), Failed>
        requires block { at < size self.old }
        requires length { length into.old ≡ 8192 }
        ensures bytes { OnOk result (at < length (state self.old).holds → Contains (versions_of (state self.old).holds at) into.new) }
        ensures nothing { OnErr result (into.new ≡ into.old) }
        ensures size { size self.new ≡ size self.old }
        ensures state { state self.new ≡ state self.old }
        ensures calls { Counted (calls self.old) (calls self.new) }
        ensures cause { HasCause (faults self.old) (faults self.new) result };

    /// Adds a version of a block. Where it fails, the version is added or not.
    fn write(&mut self, at: u32, from: &[u8]) -> Result<(), Failed>
        requires block { at < size self.old }
        requires length { length from.now ≡ 8192 }
        ensures size { size self.new ≡ size self.old }
        ensures state { IsWrite at from.now result (state self.old) (state self.new) }
        ensures calls { Counted (calls self.old) (calls self.new) }
        ensures cause { HasCause (faults self.old) (faults self.new) result };

    /// Leaves only the last version of each block whose last write answered Ok. Where it fails, it leaves all versions.
    fn sync(&mut self) -> Result<(), Failed>
        ensures size { size self.new ≡ size self.old }
        ensures state { IsSync result (state self.old) (state self.new) }
        ensures calls { Counted (calls self.old) (calls self.new) }
        ensures cause { HasCause (faults self.old) (faults self.new) result };

    /// A disk that tells what it holds has a version of each block, and all versions are whole blocks.
    ghost is_content: { (disk : Self) → ((state disk).holds ≡ []) ⊎ IsContent (size disk) (state disk).holds };

    /// All versions that it tells hold bytes.
    ghost are_bytes: { (disk : Self) → AreBytes (state disk).holds };

    /// The newest moment is what it holds.
    ghost is_newest: { (disk : Self) → IsNewest (size disk) (state disk).holds (state disk).moments };

    /// There is a flag for each block that it tells.
    ghost has_flags: { (disk : Self) → length (state disk).unsure ≡ length (state disk).holds };
}

// Counts a call.
pub(crate) fn count_call(calls: &mut u64)
    ensures { Counted calls.old calls.new }
{
    *calls = calls.saturating_add(1);
}

// Counts a fault.
pub(crate) fn count_fault(faults: &mut u64) -> Failed
    ensures rose { Rose faults.old faults.new }
    ensures later { faults.old ≤ faults.new }
{
    *faults = faults.saturating_add(1);
    Failed
}
