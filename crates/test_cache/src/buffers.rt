ghost use Rattle.std.specs.Prelude.{◌≡◌, ◌<◌};

use fo_buffers::Buffers;
use fo_disk::{BLOCK, Disk, MemDisk};
use std::alloc::Global;
use std::test::Fail;

/// Holds a block of this byte, where there is room.
fn make(buffers: &mut Buffers, at: u32, byte: u8) {
    if 0 < buffers.room() {
        buffers.make(at, &[byte; BLOCK]);
    }
}

/// Reads a block, where there is room. Whether it is held.
fn load<D: Disk>(buffers: &mut Buffers, disk: &mut D, at: u32) -> bool
    requires { at < D.size disk.old }
    ensures { D.size disk.new ≡ D.size disk.old }
{
    if buffers.room() == 0 || buffers.is_held(at) {
        return false;
    }
    buffers.load(disk, at).is_ok()
}

/// Reads a block without room. Whether it is clean then.
fn look<D: Disk>(buffers: &mut Buffers, alloc: Global, disk: &mut D, at: u32) -> bool
    requires { at < D.size disk.old }
    ensures { D.size disk.new ≡ D.size disk.old }
{
    if buffers.is_held(at) {
        return false;
    }
    buffers.look(alloc, disk, at).is_ok()
}

/// Makes a clean block held and pinned, where there is room.
fn recall(buffers: &mut Buffers, at: u32) -> bool {
    0 < buffers.room() && !buffers.is_held(at) && buffers.recall(at)
}

/// The first byte of a held block.
fn first(buffers: &Buffers, at: u32) -> Option<u8> {
    match buffers.bytes(at) {
        Some(bytes) => bytes.first().copied(),
        None => None,
    }
}

/// Lets a block go, where it is in no use.
fn release(buffers: &mut Buffers, at: u32) {
    if !buffers.is_dirty(at) && !buffers.is_pinned(at) {
        buffers.release(at);
    }
}

/// A block is held as it was put, is not let go while it is dirty or pinned, and is found again among the clean ones.
#[test]
fn ample(rt: HostRuntime) -> Result<(), Fail> {
    let mut buffers = Buffers::new(rt.alloc())?;
    buffers.reserve(rt.alloc(), 3)?;
    make(&mut buffers, 5, 7);
    buffers.write(5, 0, &[9]);
    release(&mut buffers, 5);
    assert_eq!(rt; first(&buffers, 5), Some(9));
    buffers.settle(5);
    release(&mut buffers, 5);
    assert!(rt; buffers.is_held(5));
    assert_eq!(rt; buffers.unpin(), Some(5));
    release(&mut buffers, 5);
    assert!(rt; !buffers.is_held(5));
    assert!(rt; recall(&mut buffers, 5));
    assert_eq!(rt; first(&buffers, 5), Some(9));
    Ok(())
}

/// A block is read from the device once it can be, and nothing is held where the device fails.
#[test]
fn loads(rt: HostRuntime) -> Result<(), Fail> {
    let alloc = rt.alloc();
    let mut disk = MemDisk::new(alloc, 2, vec![in alloc; 0]?)?;
    let mut buffers = Buffers::new(alloc)?;
    buffers.reserve(alloc, 2)?;
    assert!(rt; !load(&mut buffers, &mut disk, 1));
    assert!(rt; !buffers.is_held(1));
    assert!(rt; load(&mut buffers, &mut disk, 1));
    assert_eq!(rt; first(&buffers, 1), Some(0));
    assert_eq!(rt; disk.calls(), 2);
    Ok(())
}

/// A block that is only looked at needs no room and is clean then, and it is not where the device fails.
#[test]
fn looks(rt: HostRuntime) -> Result<(), Fail> {
    let alloc = rt.alloc();
    let mut disk = MemDisk::new(alloc, 2, vec![in alloc; 0]?)?;
    let mut buffers = Buffers::new(alloc)?;
    assert!(rt; !look(&mut buffers, alloc, &mut disk, 1));
    assert!(rt; buffers.clean_bytes(1).is_none());
    assert!(rt; look(&mut buffers, alloc, &mut disk, 1));
    assert!(rt; buffers.clean_bytes(1).is_some());
    assert!(rt; !buffers.is_held(1));
    assert_eq!(rt; disk.calls(), 2);
    Ok(())
}
