use fo_order::{Order, Tried, Turn};
use std::test::Fail;

/// A block is dirty with this rank from then on, where there is room.
fn change(order: &mut Order, at: u32, rank: u32) {
    if (at as usize) < order.len() && 0 < order.room() {
        order.change(at, rank);
    }
}

/// Carries out what is to be done next, with this answer of the device, and gives it.
fn go(order: &mut Order, ok: bool) -> Turn {
    let turn = order.turn();
    match turn {
        Turn::Write(at) => wrote(order, at, ok),
        Turn::Sync if ok => order.synced(),
        _ => {}
    }
    turn
}

/// A write was answered.
fn wrote(order: &mut Order, at: u32, ok: bool) {
    if (at as usize) < order.len() && order.flags(at).dirty {
        order.wrote(at, ok);
    }
}

/// Whether all goes well in this order.
fn goes(order: &mut Order, turns: &[Turn]) -> bool {
    for turn in turns {
        if go(order, true) != *turn {
            return false;
        }
    }
    true
}

/// A leaf names nothing; its parent comes once the leaf is settled, and that one's parent after it.
#[test]
fn ample(rt: HostRuntime) -> Result<(), Fail> {
    let mut order = Order::new(rt.alloc(), 16)?;
    order.reserve(8)?;
    change(&mut order, 3, 17);
    change(&mut order, 4, 0);
    change(&mut order, 5, 16);
    change(&mut order, 6, 0);
    let wanted = [
        Turn::Write(4),
        Turn::Write(6),
        Turn::Sync,
        Turn::Write(5),
        Turn::Sync,
        Turn::Write(3),
        Turn::Sync,
        Turn::Idle,
    ];
    assert!(rt; goes(&mut order, &wanted));
    Ok(())
}

/// After a failed write the block is written again, and after a failed sync all that was written is still to be settled.
#[test]
fn faults(rt: HostRuntime) -> Result<(), Fail> {
    let mut order = Order::new(rt.alloc(), 16)?;
    order.reserve(8)?;
    change(&mut order, 4, 0);
    assert_eq!(rt; go(&mut order, false), Turn::Write(4));
    assert_eq!(rt; go(&mut order, true), Turn::Write(4));
    assert_eq!(rt; go(&mut order, false), Turn::Sync);
    assert_eq!(rt; order.dirty_len(), 0);
    assert_eq!(rt; go(&mut order, true), Turn::Sync);
    assert_eq!(rt; go(&mut order, true), Turn::Idle);
    Ok(())
}
