//! An arena in memory, and the blocks of an archive.
ghost use Rattle.std.specs.Prelude.{◌≡◌, length};

use fo_disk::{BLOCK, Disk, MemDisk};
use fo_image::Score;
use std::alloc::Global;
use std::test::Fail;
use venti_store::Arena;

/// The stored bytes of a top block: the root directory's entries and records, a block each, and the record of `/`, a directory of
/// mode 0777 of `adm`, made at the moment 3.
pub(crate) const TOP: [u8; 124] = [
    0, 0, 0, 0, 0x1f, 0xf4, 0x20, 0, 3, 0, 0, 0, 0, 0, 0, 0, 0, 0, 0x20, 0, //
    0x11, 0x11, 0x11, 0x11, 0x11, 0x11, 0x11, 0x11, 0x11, 0x11, //
    0x11, 0x11, 0x11, 0x11, 0x11, 0x11, 0x11, 0x11, 0x11, 0x11, //
    0, 0, 0, 0, 0x1f, 0xf4, 0x20, 0, 1, 0, 0, 0, 0, 0, 0, 0, 0, 0, 0x20, 0, //
    0x22, 0x22, 0x22, 0x22, 0x22, 0x22, 0x22, 0x22, 0x22, 0x22, //
    0x22, 0x22, 0x22, 0x22, 0x22, 0x22, 0x22, 0x22, 0x22, 0x22, //
    0, 44, 0, 0, 0, 0, 0, 0, 0, 0, 0, 0, 0, 0, 0, 0, 0, 0, 0x80, 0, 1, 0xff, //
    0, 0, 0, 3, 0, 0, 0, 3, 1, b'/', 3, b'a', b'd', b'm', 3, b'a', b'd', b'm', 3, b'a', b'd', b'm',
];

/// The root of the archive of epoch 12 and time 3456, with this top block, and none before it.
pub(crate) fn root_of(top: &Score) -> [u8; 300]
    ensures { length result ≡ 300 }
{
    let mut bytes = [0; 300];
    bytes[1] = 2;
    bytes[2..20].copy_from_slice(b"epoch 12 time 3456");
    bytes[130..136].copy_from_slice(b"fossil");
    bytes[258..278].copy_from_slice(&top.0);
    bytes[278] = 0x20;
    bytes
}

/// The head of an empty arena of 16 blocks.
fn head() -> [u8; BLOCK]
    ensures { length result ≡ 8192 }
{
    let mut block = [0; BLOCK];
    block[..16].copy_from_slice(b"FSARENA1\0\0\0\x10\0\0\0\0");
    block
}

/// A disk of 16 blocks with the head of an empty arena.
fn disk(alloc: Global) -> Result<MemDisk, Fail> {
    let mut disk = MemDisk::new(alloc, 16, Vec::new(alloc))?;
    if disk.blocks()? == 16 {
        disk.write(0, &head())?;
        disk.sync()?;
    }
    Ok(disk)
}

/// An empty arena of 16 blocks.
pub(crate) fn empty(alloc: Global) -> Result<Arena<MemDisk>, Fail> {
    match Arena::open(alloc, disk(alloc)?) {
        Ok(arena) => Ok(arena),
        Err(refused) => Err(Fail::from(refused.why)),
    }
}
