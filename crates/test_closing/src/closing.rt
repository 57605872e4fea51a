//! Turns of closing.
ghost use Rattle.std.specs.Prelude.{◌≡◌, ◌≤◌, []};
ghost use Rattle.fo_mind.specs.MindParts.{parts};
ghost use Rattle.fo_mind.specs.Parts.{count_of};
ghost use Rattle.fo_closing.specs.Rest.{AtRest};

use crate::minds::{queue, small};
use fo_base::BLOCK;
use fo_closing::{Closing, close_next, close_until};
use fo_disk::{Disk, MemDisk};
use fo_image::{Kind, Pointer, write_pointer};
use fo_mind::Mind;
use std::test::Fail;

/// What a turn answers.
fn turn<D: Disk>(main: &mut D, mind: &mut Mind) -> Option<Closing>
    requires size { D.size main.old ≡ 10 }
    requires count { count_of (parts mind.old [] 0).region ≡ 10 }
    requires rest { AtRest (parts mind.old [] 0) }
    ensures size { D.size main.new ≡ 10 }
    ensures count { count_of (parts mind.new [] 0).region ≡ 10 }
    ensures rest { AtRest (parts mind.new [] 0) }
{
    close_next(main, mind).ok()
}

/// What three turns answer.
fn three<D: Disk>(main: &mut D, mind: &mut Mind) -> [Option<Closing>; 3]
    requires size { D.size main.old ≡ 10 }
    requires count { count_of (parts mind.old [] 0).region ≡ 10 }
    requires rest { AtRest (parts mind.old [] 0) }
    ensures size { D.size main.new ≡ 10 }
    ensures count { count_of (parts mind.new [] 0).region ≡ 10 }
    ensures rest { AtRest (parts mind.new [] 0) }
{
    let first = turn(main, mind);
    let second = turn(main, mind);
    let third = turn(main, mind);
    [first, second, third]
}

/// A block that leads to blocks 5 and 6.
fn pointers() -> [u8; BLOCK] {
    let mut bytes = [0; BLOCK];
    write_pointer(&Pointer::Local(5), &mut bytes[0..20]);
    write_pointer(&Pointer::Local(6), &mut bytes[40..60]);
    bytes
}

/// How many blocks are usable.
fn usable(mind: &Mind) -> u32 {
    mind.labels.usable(1)
}

/// Writes block 4 and queues it with what hangs from it.
fn begin<D: Disk>(main: &mut D, mind: &mut Mind, bytes: &[u8; BLOCK]) -> bool
    requires size { D.size main.old ≡ 10 }
    requires count { count_of (parts mind.old [] 0).region ≡ 10 }
    requires rest { AtRest (parts mind.old [] 0) }
    ensures size { D.size main.new ≡ 10 }
    ensures count { count_of (parts mind.new [] 0).region ≡ 10 }
    ensures rest { AtRest (parts mind.new [] 0) }
{
    main.write(4, bytes).is_ok() && queue(mind, 4, Kind::Data(1), true)
}

/// What hangs from a block is closed before the block, which is read again after each of them.
fn closes_all<D: Disk>(main: &mut D, mind: &mut Mind) -> bool
    requires size { D.size main.old ≡ 10 }
    requires count { count_of (parts mind.old [] 0).region ≡ 10 }
    requires rest { AtRest (parts mind.old [] 0) }
{
    let begun = begin(main, mind, &pointers());
    let first = three(main, mind);
    let second = three(main, mind);
    begun
        && first
            == [
                Some(Closing::Reads(4)),
                Some(Closing::Closed(5)),
                Some(Closing::Reads(4)),
            ]
        && second
            == [
                Some(Closing::Closed(6)),
                Some(Closing::Reads(4)),
                Some(Closing::Closed(4)),
            ]
        && usable(mind) == 6
}

/// A pointer block whose bytes are damaged is closed without what hangs from it; the root stays, and so does a free block.
fn closes_few<D: Disk>(main: &mut D, mind: &mut Mind) -> bool
    requires size { D.size main.old ≡ 10 }
    requires count { count_of (parts mind.old [] 0).region ≡ 10 }
    requires rest { AtRest (parts mind.old [] 0) }
{
    let begun = begin(main, mind, &[255; BLOCK]);
    let first = three(main, mind);
    let queued = queue(mind, 9, Kind::Root, false) && queue(mind, 8, Kind::Data(0), true);
    let second = three(main, mind);
    begun
        && first
            == [
                Some(Closing::Reads(4)),
                Some(Closing::Closed(4)),
                Some(Closing::Empty),
            ]
        && queued
        && second
            == [
                Some(Closing::Stays(9)),
                Some(Closing::Stays(8)),
                Some(Closing::Empty),
            ]
        && usable(mind) == 4
}

/// Blocks are closed until enough are usable, and no longer.
fn closes_enough<D: Disk>(main: &mut D, mind: &mut Mind) -> bool
    requires size { D.size main.old ≡ 10 }
    requires count { count_of (parts mind.old [] 0).region ≡ 10 }
    requires rest { AtRest (parts mind.old [] 0) }
{
    let begun = begin(main, mind, &pointers());
    let closed = close_until(main, mind, 4).is_ok();
    begun && closed && usable(mind) == 4 && mind.queued() == 1
}

/// Each call that takes memory, with ample memory.
#[test]
fn ample(rt: HostRuntime) -> Result<(), Fail> {
    let mut main = MemDisk::new(rt.alloc(), 10, Vec::new(rt.alloc()))?;
    let mut mind = small(rt.alloc())?;
    let all = closes_all(&mut main, &mut mind);
    assert!(rt; all);
    Ok(())
}

/// Blocks that may not be closed stay.
#[test]
fn stays(rt: HostRuntime) -> Result<(), Fail> {
    let mut main = MemDisk::new(rt.alloc(), 10, Vec::new(rt.alloc()))?;
    let mut mind = small(rt.alloc())?;
    let few = closes_few(&mut main, &mut mind);
    assert!(rt; few);
    Ok(())
}

/// Closing ends where enough blocks are usable.
#[test]
fn ends(rt: HostRuntime) -> Result<(), Fail> {
    let mut main = MemDisk::new(rt.alloc(), 10, Vec::new(rt.alloc()))?;
    let mut mind = small(rt.alloc())?;
    let enough = closes_enough(&mut main, &mut mind);
    assert!(rt; enough);
    Ok(())
}
