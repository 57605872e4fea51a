ghost use Rattle.std.specs.Prelude.{◌≡◌, ◌<◌, length};
ghost use Rattle.fo_image.specs.declared.types.Kind.TheVariants.{Dir};
ghost use Rattle.fo_ports.specs.Blocks.{SlotFits};

use fo_crash::Slot;
use fo_image::{BLOCK, Entry, Kind, Pointer, write_pointer};
use fo_slots::has_slots;
use fo_takeout::{Answer, Put, Walk};
use std::test::Fail;

/// A file of one level of pointers.
fn long(top: u32) -> Slot
    requires { top < 1000 }
    ensures { SlotFits (Dir 0) 3 result }
{
    Slot::Entry(Entry {
        generation: 1,
        active: true,
        dir: false,
        depth: 1,
        tag: 7,
        size: 20000,
        top: Pointer::Local(top),
    })
}

/// A file of one leaf.
fn short(top: u32) -> Slot
    requires { top < 1000 }
    ensures { SlotFits (Dir 0) 3 result }
{
    Slot::Entry(Entry {
        generation: 1,
        active: true,
        dir: false,
        depth: 0,
        tag: 7,
        size: 100,
        top: Pointer::Local(top),
    })
}

/// No file.
fn no_file() -> Slot
    ensures { SlotFits (Dir 0) 3 result }
{
    Slot::Entry(Entry {
        generation: 1,
        active: false,
        dir: false,
        depth: 0,
        tag: 0,
        size: 0,
        top: Pointer::Nil,
    })
}

/// Points slots 0, 1 and 408 of a block to these, where 0 is none.
fn pointers(targets: [u16; 3]) -> [u8; BLOCK] {
    let mut block = [0; BLOCK];
    point(&mut block, 0, targets[0]);
    point(&mut block, 1, targets[1]);
    point(&mut block, 408, targets[2]);
    block
}

fn point(block: &mut [u8], slot: usize, to: u16)
    requires size { length block.old ≡ 8192 }
    requires slot { slot < 409 }
{
    if to != 0 {
        write_pointer(
            &Pointer::Local(to as u32),
            &mut block[20 * slot..20 * slot + 20],
        );
    }
}

/// Block 20 is a copy of 10, and 21 of 11. Block 30 was raised over 11, and 40 over 21.
fn content(at: u32) -> [u8; BLOCK] {
    match at {
        10 => pointers([11, 12, 13]),
        20 => pointers([21, 12, 0]),
        30 => pointers([11, 0, 0]),
        40 => pointers([21, 0, 0]),
        _ => [0; BLOCK],
    }
}

fn step(walk: &mut Walk) -> Answer {
    let Some(pair) = walk.first() else {
        return Answer::Over;
    };
    let old = content(pair.old.at);
    let new = content(pair.new.at);
    if !has_slots(pair.old.kind, &old) {
        return Answer::Over;
    }
    if !has_slots(pair.new.kind, &new) {
        return Answer::Over;
    }
    walk.step(&old, &new)
}

/// What leaves next, and whether whole.
fn leaves(walk: &mut Walk, first: Answer) -> Option<(u32, bool)> {
    let mut answer = first;
    for _ in 0..500 {
        match answer {
            Answer::Queues(removal) => return Some((removal.at, removal.whole)),
            Answer::Goes => answer = step(walk),
            Answer::Over => return None,
        }
    }
    None
}

/// Whether these leave, in order, and no others, where this slot was put.
fn takes_out(walk: &mut Walk, old: Slot, new: Slot, wanted: &[(u32, bool)]) -> bool
    requires old { SlotFits (Dir 0) 3 old }
    requires new { SlotFits (Dir 0) 3 new }
{
    walk.stop();
    let put = Put {
        at: 5,
        kind: Kind::Dir(0),
        i: 3,
        old,
        new,
    };
    let mut answer = walk.begin(9, &put);
    for removal in wanted {
        if leaves(walk, answer) != Some(*removal) {
            return false;
        }
        answer = Answer::Goes;
    }
    leaves(walk, answer).is_none()
}

/// A copy comes: the block leaves alone, what the copy leads to stays, and what it doesn't lead to leaves.
#[test]
fn ample(rt: HostRuntime) -> Result<(), Fail> {
    let mut walk = Walk::new(rt.alloc());
    walk.reserve(3)?;
    assert!(rt;
        takes_out(
            &mut walk,
            long(10),
            long(20),
            &[(10, false), (13, true), (11, false)]
        )
    );
    assert!(rt; takes_out(&mut walk, long(10), long(10), &[]));
    assert!(rt; takes_out(&mut walk, long(10), no_file(), &[(10, true)]));
    Ok(())
}

/// A source grows: its old top stays, or leaves alone where a copy came.
#[test]
fn grows(rt: HostRuntime) -> Result<(), Fail> {
    let mut walk = Walk::new(rt.alloc());
    walk.reserve(3)?;
    assert!(rt; takes_out(&mut walk, short(11), long(30), &[]));
    assert!(rt; takes_out(&mut walk, short(11), long(40), &[(11, false)]));
    Ok(())
}

/// A source loses a level: that block leaves alone, and its other children whole.
#[test]
fn shrinks(rt: HostRuntime) -> Result<(), Fail> {
    let mut walk = Walk::new(rt.alloc());
    walk.reserve(3)?;
    assert!(rt;
        takes_out(
            &mut walk,
            long(10),
            short(11),
            &[(10, false), (12, true), (13, true)]
        )
    );
    assert!(rt;
        takes_out(
            &mut walk,
            long(10),
            short(21),
            &[(10, false), (12, true), (13, true), (11, false)]
        )
    );
    Ok(())
}
