use fo_crash::{Place, Slot};
use fo_image::{Entry, Kind, Pointer};
use std::test::Fail;

fn entry() -> Entry {
    Entry {
        generation: 3,
        active: true,
        dir: false,
        depth: 2,
        tag: 40,
        size: 9000,
        top: Pointer::Local(70),
    }
}

#[test]
fn slots(rt: HostRuntime) -> Result<(), Fail> {
    let slot = Slot::Entry(entry());
    assert_eq!(rt; slot.target(), Pointer::Local(70));
    assert_eq!(rt; Slot::Prev(4, 5).target(), Pointer::Nil);
    assert_eq!(rt; slot.cleared().target(), Pointer::Nil);
    let mut longer = entry();
    longer.size = 9001;
    assert!(rt; slot.same_use(&Slot::Entry(longer)));
    assert!(rt; !slot.same_use(&slot.cleared()));
    Ok(())
}

#[test]
fn places(rt: HostRuntime) -> Result<(), Fail> {
    // the entry leaf of the root directory, which has depth 0
    let leaf = Place {
        kind: Kind::Dir(0),
        tag: 32,
        index: 7,
        rank: 2088,
    };
    let top = leaf.below(4, &Slot::Entry(entry()));
    let inner = top.below(3, &Slot::Pointer(Pointer::Local(71)));
    let last = inner.below(1, &Slot::Pointer(Pointer::Local(72)));
    let records = leaf.below(5, &Slot::Entry(entry()));
    assert_eq!(rt;
        (top.kind, top.tag, top.index, top.rank),
        (Kind::Data(2), 40, 0, 2082)
    );
    assert_eq!(rt;
        (inner.kind, inner.index, inner.rank),
        (Kind::Data(1), 3, 2081)
    );
    assert_eq!(rt;
        (last.kind, last.index, last.rank),
        (Kind::Data(0), 1228, 2080)
    );
    assert_eq!(rt; records.rank, 2066);
    Ok(())
}
