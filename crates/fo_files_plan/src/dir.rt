//! Where the pair of a file on a way stands.
ghost use Rattle.std.specs.Prelude.{◌≡◌, ◌+◌, ◌%◌, ◌<◌, ◌≤◌, ℕ, length, slice_index};
ghost use Rattle.fo_files_way.specs.of_files_at.Held.{FileHolds};
ghost use Rattle.fo_files_way.specs.Plan.{IsFirstSlot};
ghost use Rattle.fo_files_dir.specs.Dir.{IsDirAt, IsFileAt};
ghost use Rattle.fo_files_plan.specs.Owned.{AreOwned};

use fo_files_dir::{DirAt, FileAt};
use fo_files_way::files_at::{File, PAIRS};
use fo_ports::Blocks;

/// The slot of a file's first entry in block `k` of a way.
fn first_slot(k: usize, file: &File) -> u32
    ensures { IsFirstSlot k file.now.named.slot result }
{
    if k == 0 {
        0
    } else {
        2 * (file.named.slot % PAIRS)
    }
}

/// Where the pair of a directory stands, the k-th file on a way that was owned.
pub fn dir_at<B: Blocks>(on: &B, at: &Vec<u32>, k: usize, dir: &File) -> DirAt
    requires owned { AreOwned (B.state on.now) at.now.items }
    requires within { k < length at.now.items }
    requires holds { FileHolds (B.state on.now) dir.now }
    requires high { 40 ≤ dir.now.rank }
    ensures holds { IsDirAt (B.state on.now) result }
    ensures is { (result.at ≡ slice_index at.now.items k) × IsFirstSlot k dir.now.named.slot result.slot × (result.number ≡ dir.now.named.number) × (result.rank ≡ dir.now.rank) }
{
    let _ = on;
    DirAt {
        at: at[k],
        slot: first_slot(k, dir),
        number: dir.named.number,
        rank: dir.rank,
    }
}

/// Where the pair of a file stands, the k-th on a way that was owned.
pub fn file_at<B: Blocks>(on: &B, at: &Vec<u32>, k: usize, file: &File) -> FileAt
    requires owned { AreOwned (B.state on.now) at.now.items }
    requires within { k < length at.now.items }
    requires holds { FileHolds (B.state on.now) file.now }
    ensures holds { IsFileAt (B.state on.now) result }
    ensures is { (result.at ≡ slice_index at.now.items k) × IsFirstSlot k file.now.named.slot result.slot × (result.number ≡ file.now.named.number) × (result.rank ≡ file.now.rank) }
{
    let _ = on;
    FileAt {
        at: at[k],
        slot: first_slot(k, file),
        number: file.named.number,
        rank: file.rank,
    }
}
