//! Blocks are brought into memory (`fo_bring`).
ghost use Rattle.std.specs.Prelude.{◌≡◌, ◌<◌, length, IfOk};

use fo_base::Memory;
use fo_bring::{bring, glance};
use fo_buffers::Buffers;
use fo_disk::{BLOCK, Disk, MemDisk};
use fo_image::Kind;
use std::alloc::Global;
use std::test::Fail;

/// A disk of eight blocks of zeros.
fn zeros(alloc: Global) -> Result<MemDisk, Memory>
    ensures { IfOk result (λ m. length m.cells.items ≡ 8) }
{
    MemDisk::new(alloc, 8, Vec::new(alloc))
}

/// Writes sevens into block 5.
fn fill<D: Disk>(main: &mut D) -> bool
    requires { D.size main.old ≡ 8 }
    ensures { D.size main.new ≡ 8 }
{
    main.write(5, &[7; BLOCK]).is_ok()
}

/// The first byte of block 5, a leaf of data, that is brought where there is room.
fn brought<D: Disk>(main: &mut D, buffers: &mut Buffers) -> Option<u8>
    requires { D.size main.old ≡ 8 }
    ensures { D.size main.new ≡ 8 }
{
    if buffers.room() == 0 || buffers.is_held(5) {
        return None;
    }
    if bring(main, buffers, 3, 8, Kind::Data(0), 5).is_err() {
        return None;
    }
    match buffers.bytes(5) {
        Some(bytes) => bytes.first().copied(),
        None => None,
    }
}

/// The first byte of block 6, a leaf of data, that is copied out without room.
fn glanced<D: Disk>(alloc: Global, main: &mut D, buffers: &mut Buffers) -> Option<u8>
    requires { D.size main.old ≡ 8 }
    ensures { D.size main.new ≡ 8 }
{
    let mut into = [1; BLOCK];
    if buffers.is_held(6) {
        return None;
    }
    match glance(alloc, main, buffers, 3, 8, Kind::Data(0), 0, 6, &mut into) {
        Ok(()) => Some(into[0]),
        Err(_) => None,
    }
}

/// With ample memory `bring` holds a block, and `glance` copies one out.
#[test]
fn ample(rt: HostRuntime) -> Result<(), Fail> {
    let alloc = rt.alloc();
    let mut main = zeros(alloc)?;
    let mut buffers = Buffers::new(alloc)?;
    buffers.reserve(alloc, 1)?;
    assert!(rt; fill(&mut main));
    assert_eq!(rt; brought(&mut main, &mut buffers), Some(7));
    assert_eq!(rt; glanced(alloc, &mut main, &mut buffers), Some(0));
    Ok(())
}
