//! What is opened, what stays over an end and a new opening, and why a disk is refused.
ghost use Rattle.std.specs.Prelude.{◌≡◌, ◌≤◌, true, length, [], IfOk};
ghost use Rattle.fo_disk.specs.Disk.{IsQuiet};
ghost use Rattle.fo_disk.specs.Memory.{holds_of};
ghost use Rattle.fo_image.specs.declared.types.Kind.TheVariants.{Root};
ghost use Rattle.fo_mind.specs.MindParts.{parts};
ghost use Rattle.fo_mind.specs.Parts.{IsBlock, IsPinned, label_at};

use crate::disks::{damaged, formatted, oldest, zeros};
use fo_base::Memory;
use fo_buffers::Block;
use fo_cache::Cache;
use fo_disk::{BLOCK, Disk, DiskFault, MemDisk};
use fo_ending::{Why, finish, open};
use fo_image::Kind;
use fo_ports::BlockError;
use fo_reserving::reserve;
use std::alloc::Global;
use std::test::Fail;

/// A cache over a quiet disk of 64 blocks, or why there is none.
fn opened(alloc: Global, main: MemDisk) -> Result<Cache<MemDisk>, Why>
    requires quiet { IsQuiet (holds_of main) }
    requires count { length main.cells.items ≡ 64 }
    ensures count { IfOk result (λ c. length c.main.cells.items ≡ 64) }
{
    match open(alloc, main) {
        Ok(cache) => Ok(cache),
        Err(refused) => Err(refused.why),
    }
}

/// A cache over a fresh disk, which fails at these calls. Formatting makes the first six, and opening the next four.
pub fn fresh(alloc: Global, fails: Vec<u64>) -> Result<Cache<MemDisk>, Fail>
    ensures count { IfOk result (λ c. length c.main.cells.items ≡ 64) }
{
    let main = formatted(alloc, fails)?;
    match opened(alloc, main) {
        Ok(cache) => Ok(cache),
        Err(why) => Err(Fail::from(why)),
    }
}

/// Ends a cache, and answers what went wrong.
fn end<D: Disk>(alloc: Global, cache: &mut Cache<D>) -> Option<BlockError>
    requires count { D.size cache.old.main ≡ 64 }
    ensures count { D.size cache.new.main ≡ 64 }
{
    let Ok(spare) = Block::new(alloc) else {
        return Some(BlockError::Memory);
    };
    finish(cache, spare).err()
}

/// Whether a cache has block 3 as its root, so many usable blocks, and this next file number, which block 1 says, too.
pub fn has<D: Disk>(cache: &Cache<D>, usable: u32, next: u32) -> bool {
    cache.mind.root() == 3
        && cache.mind.labels.usable(1) == usable
        && cache.mind.next() == next
        && cache.mind.one().numbers == next
}

/// Each call that takes memory, with ample memory.
#[test]
fn ample(rt: HostRuntime) -> Result<(), Fail> {
    let alloc = rt.alloc();
    let mut cache = fresh(alloc, Vec::new(alloc))?;
    let whole = has(&cache, 60, 1) && end(alloc, &mut cache).is_none();
    assert!(rt; whole);
    Ok(())
}

/// Gets a root block.
fn get<D: Disk>(cache: &mut Cache<D>, root: u32, into: &mut [u8]) -> bool
    requires block { IsBlock (parts cache.old.mind [] 0) root }
    requires length { length into.old ≡ 8192 }
    requires count { D.size cache.old.main ≡ 64 }
    ensures count { D.size cache.new.main ≡ 64 }
    ensures kind { result ≡ true → (label_at (parts cache.new.mind [] 0).region root).kind ≡ Root }
{
    cache.get(root, Kind::Root, 0, into).is_ok()
}

/// Puts the time of a root block.
fn put<D: Disk>(cache: &mut Cache<D>, root: u32) -> bool
    requires kind { (label_at (parts cache.old.mind [] 0).region root).kind ≡ Root }
    requires count { D.size cache.old.main ≡ 64 }
    ensures count { D.size cache.new.main ≡ 64 }
{
    if !cache.mind.is_pinned(root) || !cache.mind.is_block(root) {
        return false;
    }
    if cache.mind.label(root).epoch != cache.mind.high() {
        return false;
    }
    cache.put_bytes(root, 12, &[0, 0, 0, 9]);
    true
}

/// Gives the root another time.
fn change<D: Disk>(cache: &mut Cache<D>) -> bool
    requires count { D.size cache.old.main ≡ 64 }
    ensures count { D.size cache.new.main ≡ 64 }
{
    let root = cache.mind.root();
    let mut block = [0; BLOCK];
    let reserved = reserve(cache, 0, 1, 0).is_ok();
    reserved && cache.mind.is_block(root) && get(cache, root, &mut block) && put(cache, root)
}

/// Takes the first file number.
fn take<D: Disk>(cache: &mut Cache<D>) -> bool
    requires count { D.size cache.old.main ≡ 64 }
    ensures count { D.size cache.new.main ≡ 64 }
{
    match cache.number() {
        Ok(Some(number)) => {
            cache.number_taken();
            number == 1
        }
        _ => false,
    }
}

/// Whether the root has that time.
fn has_change<D: Disk>(cache: &mut Cache<D>) -> bool
    requires count { D.size cache.old.main ≡ 64 }
{
    let root = cache.mind.root();
    let mut block = [0; BLOCK];
    cache.mind.is_block(root) && get(cache, root, &mut block) && block[12..16] == [0, 0, 0, 9]
}

/// What a crash may leave after an end of a cache in which the root and the next file number changed.
fn ended(alloc: Global) -> Result<MemDisk, Fail>
    ensures quiet { IfOk result (λ m. IsQuiet (holds_of m)) }
    ensures count { IfOk result (λ m. length m.cells.items ≡ 64) }
{
    let mut cache = fresh(alloc, Vec::new(alloc))?;
    let whole = change(&mut cache) && take(&mut cache) && end(alloc, &mut cache).is_none();
    let main = cache.close();
    if !whole {
        return Err(Fail::from(Memory));
    }
    Ok(oldest(&main)?)
}

/// What was changed is there again, whichever version a crash leaves.
#[test]
fn again(rt: HostRuntime) -> Result<(), Fail> {
    let main = ended(rt.alloc())?;
    let mut cache = opened(rt.alloc(), main)?;
    let same = has(&cache, 60, 2) && has_change(&mut cache);
    assert!(rt; same);
    Ok(())
}

/// Gets the root.
fn get_root<D: Disk>(cache: &mut Cache<D>) -> bool
    requires count { D.size cache.old.main ≡ 64 }
    ensures count { D.size cache.new.main ≡ 64 }
{
    let root = cache.mind.root();
    let mut block = [0; BLOCK];
    cache.mind.is_block(root) && get(cache, root, &mut block)
}

/// Whether its device was called so often, and all before went well.
fn was_called(cache: Cache<MemDisk>, whole: bool, calls: u64) -> bool {
    whole && cache.main.calls() == calls
}

/// Whether the root of a fresh disk, got so often, is read once: formatting makes six calls, and opening four.
fn is_read_once(mut cache: Cache<MemDisk>, times: u32) -> bool
    requires count { length cache.main.cells.items ≡ 64 }
{
    let first = get_root(&mut cache);
    let again = times == 1 || get_root(&mut cache);
    was_called(cache, first && again, 11)
}

/// A settled block that is got twice is read once.
#[test]
fn twice(rt: HostRuntime) -> Result<(), Fail> {
    for times in 1..3_u32 {
        let cache = fresh(rt.alloc(), Vec::new(rt.alloc()))?;
        let once = is_read_once(cache, times);
        assert!(rt; once);
    }
    Ok(())
}

/// Whether the opening fails where this call does.
fn fails(alloc: Global, call: u64) -> Result<bool, Fail> {
    let main = formatted(alloc, vec![in alloc; call]?)?;
    match opened(alloc, main) {
        Err(why) => Ok(why == Why::Fault(DiskFault::Read)),
        Ok(_) => Ok(false),
    }
}

/// Each of the four calls of an opening fails in turn.
#[test]
fn faults(rt: HostRuntime) -> Result<(), Fail> {
    for call in 6..10 {
        assert!(rt; fails(rt.alloc(), call)?);
    }
    assert!(rt; !fails(rt.alloc(), 10)?);
    Ok(())
}

/// Whether an end has this fault where this call fails, and none when it is asked for again.
fn fails_end(alloc: Global, call: u64, fault: DiskFault) -> Result<bool, Fail> {
    let mut cache = fresh(alloc, vec![in alloc; call]?)?;
    let first = end(alloc, &mut cache);
    let second = end(alloc, &mut cache);
    Ok(first == Some(BlockError::Fault(fault)) && second.is_none() && has(&cache, 60, 1))
}

/// Both calls of an end with nothing to settle fail in turn.
#[test]
fn faults_at_the_end(rt: HostRuntime) -> Result<(), Fail> {
    assert!(rt; fails_end(rt.alloc(), 10, DiskFault::Write)?);
    assert!(rt; fails_end(rt.alloc(), 11, DiskFault::Sync)?);
    Ok(())
}

/// Whether a disk is refused for this, where a block of it has other bytes.
fn refused(alloc: Global, at: u32, bytes: &[(usize, u8)], why: Why) -> Result<bool, Fail> {
    let main = damaged(alloc, at, bytes)?;
    match opened(alloc, main) {
        Err(is) => Ok(is == why),
        Ok(_) => Ok(false),
    }
}

/// The header and the super block; an active root past the disk; the label of block 0, the bytes behind all labels, and a root that is free.
#[test]
fn reasons(rt: HostRuntime) -> Result<(), Fail> {
    assert!(rt; refused(rt.alloc(), 0, &[(0, 0)], Why::Header)?);
    assert!(rt; refused(rt.alloc(), 1, &[(0, 0)], Why::Super)?);
    assert!(rt; refused(rt.alloc(), 1, &[(21, 64)], Why::Super)?);
    assert!(rt; refused(rt.alloc(), 2, &[(0, 1)], Why::Label(2))?);
    assert!(rt; refused(rt.alloc(), 2, &[(8191, 1)], Why::Label(2))?);
    let free = [
        (42, 0),
        (43, 0),
        (47, 0),
        (48, 0),
        (49, 0),
        (50, 0),
        (51, 0),
        (55, 0),
    ];
    assert!(rt; refused(rt.alloc(), 2, &free, Why::Root)?);
    Ok(())
}

/// A disk of zeros, one block too small.
#[test]
fn small(rt: HostRuntime) -> Result<(), Fail> {
    let main = zeros(rt.alloc(), 63, Vec::new(rt.alloc()))?;
    let size = match open(rt.alloc(), main) {
        Err(refused) => refused.why == Why::Size,
        Ok(_) => false,
    };
    assert!(rt; size);
    Ok(())
}
