//! Flags of blocks, and marks of what is dirty or was written.
ghost use Rattle.std.specs.Prelude.{◌≡◌, ◌+◌, ◌<◌, ◌≤◌, ℕ, [], length, slice_set, vec_len, vec_capacity, count_by, MatchOption};
ghost use Rattle.std.specs.List.{Contains};
ghost use Rattle.fo_order.specs.declared.marks.Mark.{Mark};
ghost use Rattle.fo_order.specs.Flags.{flag, is_current, is_dirty, settled, settled_tried};
ghost use Rattle.fo_order.specs.Marks.{IsFalling, mark, Marked, Known, IsPlace, IsTop, TopIsCurrent};

use crate::table::FlagTable;

/// What came of the last write of a block since it was settled.
#[derive(Clone, Copy, Debug, PartialEq, Eq)]
pub enum Tried {
    /// It has one version.
    Settled,
    /// The last write answered Ok.
    Written,
    /// The last write failed: nobody knows what the device has.
    Failed,
}

/// What is known of a block. The rank counts while it is not settled.
#[derive(Clone, Copy, Debug, PartialEq, Eq)]
pub struct Flags {
    pub dirty: bool,
    pub tried: Tried,
    pub rank: u32,
}

/// A block with the rank that it had.
#[derive(Clone, Copy, Debug, PartialEq, Eq)]
pub struct Mark {
    pub at: u32,
    pub rank: u32,
}

/// Adds a mark behind those of higher ranks, and before those of its own.
pub(crate) fn add_mark(marks: &mut Vec<Mark>, at: u32, rank: u32)
    requires falls { IsFalling marks.old.items }
    requires room { vec_len marks.old < vec_capacity marks.old }
    ensures falls { IsFalling marks.new.items }
    ensures added { Contains marks.new.items (mark at rank) }
    ensures others { (m : Mark) → Contains marks.old.items m → Contains marks.new.items m }
    ensures len { vec_len marks.new ≡ vec_len marks.old + 1 }
    ensures capacity { vec_capacity marks.new ≡ vec_capacity marks.old }
{
    let place = place_of(marks, rank);
    let _added = marks.insert(place, Mark { at, rank });
}

// Where a mark of this rank goes: behind those of higher ranks, before those of its own.
fn place_of(marks: &[Mark], rank: u32) -> usize
    requires { IsFalling marks.now }
    ensures { IsPlace rank marks.now result }
{
    let mut low = 0;
    let mut high = marks.len();
    while low < high {
        let middle = low + (high - low) / 2;
        if rank < marks[middle].rank {
            low = middle + 1;
        } else {
            high = middle;
        }
    }
    low
}

/// Whether a mark says what the flags say.
fn is_current(flags: &FlagTable, mark: Mark) -> bool
    ensures { result ≡ is_current flags.now mark }
{
    if flags.len() <= mark.at as usize {
        return false;
    }
    let flag = flags.get(mark.at);
    flag.dirty && flag.rank == mark.rank
}

/// The mark at the end.
pub(crate) fn top(marks: &[Mark]) -> Option<Mark>
    ensures { MatchOption result (length marks.now ≡ 0) (λ m. IsTop marks.now m) }
{
    if marks.is_empty() {
        return None;
    }
    Some(marks[marks.len() - 1])
}

/// Takes away the marks at the end that the flags no longer say.
pub(crate) fn drop_stale(flags: &FlagTable, marks: &mut Vec<Mark>)
    requires falls { IsFalling marks.old.items }
    requires marked { Marked flags.now marks.old.items }
    ensures falls { IsFalling marks.new.items }
    ensures marked { Marked flags.now marks.new.items }
    ensures top { TopIsCurrent flags.now marks.new.items }
    ensures len { vec_len marks.new ≤ vec_len marks.old }
    ensures capacity { vec_capacity marks.new ≡ vec_capacity marks.old }
{
    while let Some(mark) = top(marks) {
        if is_current(flags, mark) {
            return;
        }
        marks.pop();
    }
}

/// Settles each block that was written.
pub(crate) fn settle_all(flags: &mut FlagTable, written: &mut Vec<Mark>)
    requires { Known flags.old written.old.items }
    ensures each { (q : ℕ) → flag flags.new q ≡ settled (flag flags.old q) }
    ensures count { count_by is_dirty flags.new ≡ count_by is_dirty flags.old }
    ensures long { length flags.new ≡ length flags.old }
    ensures none { written.new.items ≡ [] }
    ensures len { vec_len written.new ≡ 0 }
    ensures capacity { vec_capacity written.new ≡ vec_capacity written.old }
{
    while let Some(mark) = written.pop() {
        settle_flag(flags, mark.at);
    }
}

// A block that was written is settled.
fn settle_flag(flags: &mut FlagTable, at: u32)
    ensures { flags.new ≡ slice_set flags.old at (settled (flag flags.old at)) }
{
    if (at as usize) < flags.len() {
        let was = flags.get(at);
        let now = Flags {
            dirty: was.dirty,
            tried: settled_tried(was.tried),
            rank: was.rank,
        };
        flags.set(at, now);
    }
}

// After a sync.
fn settled_tried(tried: Tried) -> Tried
    ensures { result ≡ settled_tried tried }
{
    match tried {
        Tried::Settled | Tried::Written => Tried::Settled,
        Tried::Failed => Tried::Failed,
    }
}
