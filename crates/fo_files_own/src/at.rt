//! Where a directory's own record stands.
ghost use Rattle.std.specs.Prelude.{◌≡◌};
ghost use Rattle.fo_files_own.specs.Own.{own_of};

use fo_base::BLOCK;
use fo_files_dir::DirAt;

/// Where a directory's own record stands.
#[derive(Clone, Copy, Debug)]
pub enum OwnAt {
    /// In this root block.
    Root(u32),
    /// In a leaf of records of the directory above.
    Below(Below),
}

/// A record in the directory above: the leaf of entries `entries` has the pair of the directory whose record it is, leaf `leaf` of the records has
/// it, and leaf `spare` is for it where it outgrows that one.
#[derive(Clone, Copy, Debug)]
pub struct Below {
    pub dir: DirAt,
    pub entries: u32,
    pub leaf: u32,
    pub spare: u32,
}

/// Where the own record of a directory stands: in leaf `leaf` of the records of the directory above it, with leaf `spare` for it, or in its root block.
pub fn own_at(dir: DirAt, above: Option<DirAt>, leaf: u32, spare: u32) -> OwnAt
    ensures { result ≡ own_of dir above leaf spare }
{
    match above {
        None => OwnAt::Root(dir.at),
        Some(above) => OwnAt::Below(Below {
            dir: above,
            entries: dir.at,
            leaf,
            spare,
        }),
    }
}

/// A block that is ready to get a changed record: its bytes from `from` on are to be those of `bytes`.
#[derive(Drop)]
pub struct ReadyOwn {
    pub(crate) at: u32,
    pub(crate) from: u32,
    pub(crate) bytes: [u8; BLOCK],
}
