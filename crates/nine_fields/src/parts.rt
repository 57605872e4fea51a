//! What a stat record says.
use crate::qid::Qid;

/// The fields of a stat record (stat(5)), with its strings where they lie.
#[derive(Clone, Copy, Debug)]
pub struct StatParts<'a> {
    pub kind: u16,
    pub dev: u32,
    pub qid: Qid,
    pub mode: u32,
    pub atime: u32,
    pub mtime: u32,
    pub length: u64,
    pub name: &'a [u8],
    pub uid: &'a [u8],
    pub gid: &'a [u8],
    pub muid: &'a [u8],
}
