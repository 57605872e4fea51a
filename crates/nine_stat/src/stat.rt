//! What a stat record says.
use nine_wire::{Qid, Str};

/// A file as the wire has it: its fields in their order, times in seconds since 1970, the length in bytes.
#[derive(Debug, Drop)]
pub struct Stat {
    pub kind: u16,
    pub dev: u32,
    pub qid: Qid,
    pub mode: u32,
    pub atime: u32,
    pub mtime: u32,
    pub length: u64,
    pub name: Str,
    pub uid: Str,
    pub gid: Str,
    pub muid: Str,
}
