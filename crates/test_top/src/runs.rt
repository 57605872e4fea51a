//! Whole runs of `9p` over formatted devices, and of the tools.

use crate::disks::{after, formatted, ran, ran_at, zeros};
use crate::messages::bytes;
use fo_links::{MemClock, SetClock};
use fo_top::{Done, Why};
use std::alloc::Global;
use std::process::Abort;
use std::test::Fail;

// Runs `9p` over devices that were just formatted and over these bytes.
fn says(alloc: Global, input: &str, output: &str, why: Why) -> Result<(), Fail> {
    let disks = formatted(alloc, Vec::new(alloc))?;
    let done = ran(alloc, "9p", disks, bytes(alloc, input)?)?;
    after(done, why, bytes(alloc, output)?.as_slice())?;
    Ok(())
}

// Devices are formatted, `9p` answers over them, byte by byte, and they are checked.
fn works(alloc: Global) -> Result<(), Fail> {
    let done = ran(
        alloc,
        "flfmt",
        zeros(alloc, 64, 16, Vec::new(alloc))?,
        Vec::new(alloc),
    )?;
    let disks = after(done, Why::Ended, b"formatted 64 blocks 61 data\n")?;
    let done = ran_at(
        alloc,
        "9p",
        disks,
        bytes(alloc, "V T")?,
        1,
        SetClock::new(7),
    )?;
    let disks = after(done, Why::Ended, bytes(alloc, "RV RT")?.as_slice())?;
    let done = ran(alloc, "flchk", disks, Vec::new(alloc))?;
    after(
        done,
        Why::Ended,
        b"sound 64 blocks 1 used 0 leaked 0 snapshots\n",
    )?;
    Ok(())
}

#[test]
fn ample(rt: HostRuntime) -> Result<(), Fail> {
    works(rt.alloc())
}

// What is asked, what is answered, and how the run ends.
const ROWS: &[(&str, &str, Why)] = &[
    // no message
    ("", "", Why::Ended),
    // another version
    (
        "0f00000064ffff1800010002003951 T",
        "1400000065ffff180001000700756e6b6e6f776e 130000006b01000a006e6f2076657273696f6e",
        Why::Ended,
    ),
    // msize too small
    (
        "1300000064ffffff0000000600395032303030",
        "180000006bffff0f006d73697a6520746f6f20736d616c6c",
        Why::Ended,
    ),
    // msize as it is, and lowered
    (
        "1300000064ffff000100000600395032303030 1300000064ffffffffffff0600395032303030",
        "1300000065ffff000100000600395032303030 RV",
        Why::Ended,
    ),
    // only the text before the first point counts
    (
        "1500000064ffff1800010008003950323030302e75",
        "RV",
        Why::Ended,
    ),
    // the root
    ("V T S", "RV RT RS", Why::Ended),
    // a clunked fid is unknown
    (
        "V T 0b00000078020000000000 S",
        "RV RT 07000000790200 140000006b02000b00756e6b6e6f776e20666964",
        Why::Ended,
    ),
    // all fids go with a Tversion
    ("V T V T", "RV RT RV RT", Why::Ended),
    // the checks of Tattach in their order
    (
        "V T 1e00000068010000000000000000000600676c656e646105006f74686572 1e00000068010000000000ffffffff0600676c656e646105006f74686572 1e00000068010005000000ffffffff0600676c656e646105006f74686572 2400000068010005000000ffffffff0600676c656e64610b006d61696e2f616374697665",
        "RV RT 1f0000006b010016006e6f2061757468656e7469636174696f6e2068657265 130000006b01000a0066696420696e20757365 150000006b01000c00756e6b6e6f776e2074726565 RT",
        Why::Ended,
    ),
    // Tflush, and Tauth
    (
        "V 090000006c01000000 1500000066010005000000 0600676c656e6461 0000",
        "RV 070000006d0100 1f0000006b010016006e6f2061757468656e7469636174696f6e2068657265",
        Why::Ended,
    ),
    // a file that is made, written and read
    (
        "V T C 1900000076040000000000 0000000000000000 02000000 6869 1700000074050000000000 0000000000000000 0a000000",
        "RV RT RC 0b000000770400 02000000 0d000000750500020000006869",
        Why::Ended,
    ),
    // a file that was opened with ORCLOSE goes with a Tversion; the root has changed twice
    (
        "V T C V T W",
        "RV RT RC RV 1400000069010080020000000000000000000000 1c0000006b0300130066696c6520646f6573206e6f74206578697374",
        Why::Ended,
    ),
    // input that ends inside a message
    ("1300000064ffff1800010006003950323030", "", Why::BadInput(0)),
    // the same behind a message
    ("V 190000", "RV", Why::BadInput(19)),
    // a type that no message has
    ("V 070000006a0100", "RV", Why::BadInput(19)),
    // a size below 7
    ("V 06000000", "RV", Why::BadInput(19)),
    // a size above the msize
    (
        "1300000064ffff000100000600395032303030 01010000",
        "1300000065ffff000100000600395032303030",
        Why::BadInput(19),
    ),
];

#[test]
fn rows(rt: HostRuntime) -> Result<(), Fail> {
    for (input, output, why) in ROWS {
        says(rt.alloc(), input, output, *why)?;
    }
    Ok(())
}

// The end of a command that refuses devices of so many blocks of zeros, and what is printed of it. Nothing is said.
fn ends(
    rt: &impl Abort,
    alloc: Global,
    name: &str,
    blocks: (u32, u32),
    why: Why,
    text: &str,
) -> Result<(), Fail> {
    let disks = zeros(alloc, blocks.0, blocks.1, Vec::new(alloc))?;
    let done = ran(alloc, name, disks, bytes(alloc, "V T")?)?;
    assert_eq!(rt; done.why.text().as_str(), text);
    after(done, why, b"")?;
    Ok(())
}

#[test]
fn texts(rt: HostRuntime) -> Result<(), Fail> {
    let size = "size of a device out of range";
    let usage = "usage: fossil command main arena [options]";
    let none = "not a fossil image";
    for (name, blocks, why, text) in [
        ("flfmt", (0, 16), Why::Size, size),
        ("9P", (64, 16), Why::Usage, usage),
        ("9p", (63, 16), Why::Size, size),
        ("turns", (64, 15), Why::Size, size),
        ("9p", (64, 16), Why::NotFossil, none),
        ("turns", (64, 16), Why::NotFossil, none),
    ] {
        ends(&rt, rt.alloc(), name, blocks, why, text)?;
    }
    let place = Why::BadInput(18_446_744_073_709_551_615);
    assert_eq!(rt;
        place.text().as_str(),
        "bad input at byte 18446744073709551615"
    );
    let rule = Why::Unsound { rule: 2, block: 3 };
    assert_eq!(rt; rule.text().as_str(), "unsound S2 at block 3");
    assert_eq!(rt; Why::Spent.text().as_str(), "turns spent");
    Ok(())
}

// The file `f` is made at the fourth reading of the clock: the first is for the fids that a Tversion lets go, the fifth for the Tstat.
#[test]
fn moments(rt: HostRuntime) -> Result<(), Fail> {
    let alloc = rt.alloc();
    let disks = formatted(alloc, Vec::new(alloc))?;
    let clock = MemClock::new(vec![in alloc; 3, 4, 5, 600, 7]?);
    let done = ran_at(alloc, "9p", disks, bytes(alloc, "V T C S")?, 9, clock)?;
    let stat =
        "RV RT RC 4a0000007d020041003f00000000000000000000000001000000000000008001000058020000580200000000000000000000010066 0600676c656e6461 030061646d 0600676c656e6461";
    after(done, Why::Ended, bytes(alloc, stat)?.as_slice())?;
    Ok(())
}
