ghost use Rattle.std.specs.Prelude.{◌≡◌};

use fo_disk::{BLOCK, Disk, FileDisk, MemDisk, SureDisk};
use std::fs;
use std::fs::File;
use std::test::Fail;

/// Writes this byte into the last block of two and settles it: the other block is zero.
fn holds_both<D: Disk>(disk: &mut D, byte: u8) -> Result<bool, Fail>
    requires { D.size disk.old ≡ 2 }
{
    disk.write(1, &[byte; BLOCK])?;
    disk.sync()?;
    reads_both(disk, byte)
}

/// Whether the first block is zero and the second holds this byte.
fn reads_both<D: Disk>(disk: &mut D, byte: u8) -> Result<bool, Fail>
    requires { D.size disk.old ≡ 2 }
{
    let mut first = [1; BLOCK];
    disk.read(0, &mut first)?;
    let mut second = [1; BLOCK];
    disk.read(1, &mut second)?;
    Ok(first == [0; BLOCK] && second == [byte; BLOCK])
}

/// Each call that takes memory, with ample memory.
#[test]
fn ample(rt: HostRuntime) -> Result<(), Fail> {
    let alloc = rt.alloc();
    let mut disk = MemDisk::new(alloc, 2, Vec::new(alloc))?;
    assert!(rt; holds_both(&mut disk, 7)?);
    assert_eq!(rt; (disk.calls(), disk.wants()), (4, 0));
    Ok(())
}

/// An image of a disk of zeros, with ample memory.
#[test]
fn ample_image(rt: HostRuntime) -> Result<(), Fail> {
    let disk = MemDisk::new(rt.alloc(), 2, Vec::new(rt.alloc()))?;
    let mut image = disk.image(&[0, 0])?;
    assert!(rt; holds_both(&mut image, 8)?);
    Ok(())
}

/// A disk that never fails, with ample memory.
#[test]
fn ample_sure(rt: HostRuntime) -> Result<(), Fail> {
    let mut disk = SureDisk::new(rt.alloc(), 2)?;
    assert!(rt; holds_both(&mut disk, 9)?);
    Ok(())
}

/// Whether the disk has two blocks, and holds this byte in the second once it was written.
fn fills_both<D: Disk>(disk: &mut D, byte: u8) -> Result<bool, Fail> {
    Ok(disk.blocks()? == 2 && holds_both(disk, byte)?)
}

/// Whether the disk has two blocks, of which the second holds this byte.
fn shows_both<D: Disk>(disk: &mut D, byte: u8) -> Result<bool, Fail> {
    Ok(disk.blocks()? == 2 && reads_both(disk, byte)?)
}

/// What is written into a file of two blocks and some bytes is read back through another disk.
#[test]
fn files(rt: HostRuntime) -> Result<(), Fail> {
    let path = "test_disk_files.img";
    File::create(&rt, path)?.set_len(2 * BLOCK as u64 + 100)?;
    let mut disk = FileDisk::new(&rt, String::from_str(rt.alloc(), path)?);
    assert!(rt; fills_both(&mut disk, 7)?);
    let mut again = FileDisk::new(&rt, String::from_str(rt.alloc(), path)?);
    assert!(rt; shows_both(&mut again, 7)?);
    fs::remove_file(&rt, path)?;
    Ok(())
}

/// A block that is cut off once the blocks were counted can't be read, and the bytes stay as they were.
#[test]
fn cut_files(rt: HostRuntime) -> Result<(), Fail> {
    let path = "test_disk_cut.img";
    File::create(&rt, path)?.set_len(2 * BLOCK as u64)?;
    let mut disk = FileDisk::new(&rt, String::from_str(rt.alloc(), path)?);
    if disk.blocks()? == 2 {
        File::create(&rt, path)?.set_len(BLOCK as u64 + 100)?;
        let mut into = [5; BLOCK];
        assert!(rt; disk.read(1, &mut into).is_err());
        assert!(rt; into == [5; BLOCK]);
    }
    fs::remove_file(&rt, path)?;
    Ok(())
}

/// A file that isn't there has no number of blocks.
#[test]
fn missing_files(rt: HostRuntime) -> Result<(), Fail> {
    let mut disk = FileDisk::new(&rt, String::from_str(rt.alloc(), "no_such.img")?);
    assert!(rt; disk.blocks().is_err());
    assert!(rt; disk.sync().is_err());
    Ok(())
}
