use fo_crash::Slot;
use fo_facts::{Fact, Facts};
use fo_image::{Kind, Pointer};
use fo_raising::{cost, is_raised, note_put};
use fo_slots::has_slots;
use std::test::Fail;

/// Whether a slot of an empty block of this kind raises it; None where the block is none of this kind.
fn raised(fact: &Fact, kind: Kind, i: u32) -> Option<bool> {
    let bytes = [0; 8192];
    if !has_slots(kind, &bytes) {
        return None;
    }
    Some(is_raised(fact, kind, i, &bytes))
}

/// Block 5 was made, then raised over block 3 of the tree; it raises once, and is put itself then.
fn raises(facts: &mut Facts) -> bool {
    if facts.len() != 16 {
        return false;
    }
    facts.give(5, None, 1);
    let new = facts.get(5);
    let once = raised(&new, Kind::Data(1), 0) == Some(true)
        && raised(&new, Kind::Data(1), 1) == Some(false)
        && raised(&new, Kind::Data(0), 0) == Some(false);
    note_put(facts, 5, Pointer::Local(3), true);
    let over = facts.get(5);
    once && over.origin == Some(3) && raised(&over, Kind::Data(1), 0) == Some(false)
}

#[test]
fn a_new_top(rt: HostRuntime) -> Result<(), Fail> {
    let mut facts = Facts::new(rt.alloc(), 16)?;
    assert!(rt; raises(&mut facts));
    Ok(())
}

/// A slot that leads nowhere then costs one removal, and one that leads on none.
#[test]
fn costs(rt: HostRuntime) -> Result<(), Fail> {
    let here = Slot::Pointer(Pointer::Local(3));
    assert_eq!(rt; cost(&here, &Slot::Pointer(Pointer::Nil)), 1);
    assert_eq!(rt; cost(&here, &Slot::Pointer(Pointer::Local(4))), 0);
    Ok(())
}
