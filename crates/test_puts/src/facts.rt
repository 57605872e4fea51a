use fo_facts::Facts;
use std::test::Fail;

/// Of a new block, then of a top that is raised over it, then both are linked; whether each count is as it should be.
fn counts(facts: &mut Facts) -> bool {
    if facts.len() != 16 {
        return false;
    }
    facts.give(4, Some(3), 1);
    facts.give(5, None, 2);
    facts.raise(5, 4);
    facts.come(4);
    let made = facts.made() == 2 && facts.owed() == 2;
    facts.link(4, true);
    facts.link(5, false);
    made && facts.made() == 0 && facts.owed() == 1
}

/// There is memory for a few addresses; a top comes in whose place the block below it was to come.
#[test]
fn ample(rt: HostRuntime) -> Result<(), Fail> {
    let mut facts = Facts::new(rt.alloc(), 16)?;
    assert!(rt; counts(&mut facts));
    assert_eq!(rt; facts.get(5).origin, Some(3));
    Ok(())
}
