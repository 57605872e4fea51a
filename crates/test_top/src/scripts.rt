//! Runs of `turns`.

use crate::disks::{after, formatted, ran};
use fo_top::Why;
use std::alloc::Global;
use std::test::Fail;

// Runs `turns` over devices that were just formatted and over this script.
fn answers(alloc: Global, script: &str, output: &str, why: Why) -> Result<(), Fail> {
    let disks = formatted(alloc, Vec::new(alloc))?;
    let input = Vec::from_slice(alloc, script.as_bytes())?;
    let done = ran(alloc, "turns", disks, input)?;
    after(done, why, output.as_bytes())?;
    Ok(())
}

#[test]
fn ample(rt: HostRuntime) -> Result<(), Fail> {
    answers(rt.alloc(), "F\n", "F idle\n", Why::Ended)
}

#[test]
fn rows(rt: HostRuntime) -> Result<(), Fail> {
    for (script, output, why) in [
        // no line
        ("", "", Why::Ended),
        // the console isn't built yet
        ("c snap\n", "not built yet\n", Why::Ended),
        // a Tversion of session 3, and the turns that are then to be taken
        (
            "t 7\ns 3 1300000064ffff180001000600395032303030\nf\nu\n",
            "s 3 1300000065ffff180001000600395032303030\nf idle\nu empty\n",
            Why::Ended,
        ),
        // no line of a script, behind one
        ("F\nG\n", "F idle\n", Why::BadInput(2)),
    ] {
        answers(rt.alloc(), script, output, why)?;
    }
    Ok(())
}
