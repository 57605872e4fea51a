//! The bits of a mode that say what a file is (stat(5) of the Plan 9 manual), and how much there may be.

/// The file is a directory.
pub const DMDIR: u32 = 0x8000_0000;

/// The file is written at its end alone.
pub const DMAPPEND: u32 = 0x4000_0000;

/// The file is open once at a time.
pub const DMEXCL: u32 = 0x2000_0000;

/// The file is no part of a backup.
pub const DMTMP: u32 = 0x0400_0000;

/// The most bytes of a file.
pub const MOST_BYTES: u64 = 1 << 40;

/// The most directories above a file.
pub const MOST_ABOVE: usize = 64;

/// The most names of a directory.
pub const MOST_NAMES: usize = 1 << 20;

/// File numbers are below this one.
pub const MOST_NUMBERS: u32 = 1 << 30;
