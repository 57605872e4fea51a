use fo_linking::Worklist;
use std::test::Fail;

/// There is memory for a few blocks, and room once given stays.
#[test]
fn ample(rt: HostRuntime) -> Result<(), Fail> {
    let mut list = Worklist::new(rt.alloc());
    list.reserve(8)?;
    list.reserve(3)?;
    assert_eq!(rt; list.room(), 8);
    Ok(())
}
