//! A disk in memory. It keeps every version, and from which one on a crash may leave them, and a record of its calls.
ghost use Rattle.std.specs.Prelude.{◌≡◌, ◌<◌, ◌^◌, ℕ, length, slice_index_or};

use std::alloc::Global;

/// The bytes of a block.
#[derive(Drop)]
pub(crate) struct Version {
    pub(crate) bytes: Vec<u8>,
    ghost whole: { length bytes.items ≡ 8192 },
    ghost small: { (i : ℕ) → slice_index_or bytes.items i 0 < 256 },
}

/// All versions that a block has had, of which a crash may leave those from this one on.
#[derive(Drop)]
pub(crate) struct Cell {
    pub(crate) all: Vec<Version>,
    pub(crate) from: usize,
    ghost some: { from < length all.items },
    ghost few: { length all.items < 2 ^ 32 },
}

/// What a call did, as it is undone.
#[derive(Drop)]
pub(crate) enum Change {
    Wrote(usize),
    Settled(Vec<usize>),
}

/// A disk in memory that fails at the listed calls, counted from 0, and where it finds no memory.
///
/// It keeps all versions and a record of its calls, so that what it has held at each moment is known.
#[derive(Drop)]
pub struct MemDisk {
    pub(crate) alloc: Global,
    pub(crate) cells: Vec<Cell>,
    pub(crate) unsure: Vec<bool>,
    pub(crate) changes: Vec<Change>,
    pub(crate) fails: Vec<u64>,
    pub(crate) calls: u64,
    pub(crate) faults: u64,
    pub(crate) wants: u64,
    ghost flags: { length unsure.items ≡ length cells.items },
}
