//! What a run leaves on the devices, and what the next one finds there.

use crate::disks::{Disks, after, formatted, ran};
use crate::messages::bytes;
use fo_top::Why;
use std::alloc::Global;
use std::test::Fail;

// Runs a command over these devices, with these bytes as its input and its output, and gives the devices back.
fn says(
    alloc: Global,
    name: &str,
    disks: Disks,
    input: &str,
    output: &[u8],
    why: Why,
) -> Result<Disks, Fail> {
    let done = ran(alloc, name, disks, bytes(alloc, input)?)?;
    after(done, why, output)
}

// Writes a file, in a run whose messages end so, checks the devices, and reads it in the next run. Used are the root block, a leaf of
// entries and one of records, and a leaf of data.
fn keeps(alloc: Global, input: &str, output: &str, why: Why) -> Result<(), Fail> {
    let disks = formatted(alloc, Vec::new(alloc))?;
    let disks = says(
        alloc,
        "9p",
        disks,
        input,
        bytes(alloc, output)?.as_slice(),
        why,
    )?;
    let line = b"sound 64 blocks 4 used 0 leaked 0 snapshots\n";
    let disks = says(alloc, "flchk", disks, "", line, Why::Ended)?;
    let found = "RV 1400000069010080010000000000000000000000 RW RO RR";
    let found = bytes(alloc, found)?;
    says(
        alloc,
        "9p",
        disks,
        "V T W O R",
        found.as_slice(),
        Why::Ended,
    )?;
    Ok(())
}

#[test]
fn ample(rt: HostRuntime) -> Result<(), Fail> {
    keeps(rt.alloc(), "V T M D K", "RV RT RC RD RK", Why::Ended)
}

/// The same where the fid isn't clunked, and where a bad message ends the run.
#[test]
fn ends(rt: HostRuntime) -> Result<(), Fail> {
    keeps(rt.alloc(), "V T M D", "RV RT RC RD", Why::Ended)?;
    let bad = Why::BadInput(88);
    keeps(rt.alloc(), "V T M D 06000000", "RV RT RC RD", bad)
}

// Writes a file and removes it in a run that ends at once, and checks the devices: what left the tree was closed. Used are the root block, a
// leaf of entries and one of records.
fn closes(alloc: Global, input: &str, why: Why) -> Result<(), Fail> {
    let disks = formatted(alloc, Vec::new(alloc))?;
    let output = bytes(alloc, "RV RT RC RD 070000007b0200")?;
    let disks = says(alloc, "9p", disks, input, output.as_slice(), why)?;
    let line = b"sound 64 blocks 3 used 0 leaked 0 snapshots\n";
    says(alloc, "flchk", disks, "", line, Why::Ended)?;
    Ok(())
}

/// A file that is removed last leaks no block, whether the input ends or is bad.
#[test]
fn removed(rt: HostRuntime) -> Result<(), Fail> {
    let alloc = rt.alloc();
    closes(alloc, "V T M D 0b0000007a020000000000", Why::Ended)?;
    let bad = Why::BadInput(99);
    closes(alloc, "V T M D 0b0000007a020000000000 06000000", bad)
}

// How a run that writes a file ends over a main device that fails at these calls, and how many calls that had.
fn ended(alloc: Global, fails: Vec<u64>) -> Result<(Why, u64), Fail> {
    let disks = formatted(alloc, fails)?;
    let done = ran(alloc, "9p", disks, bytes(alloc, "V T M D K")?)?;
    Ok((done.why, done.main.calls()))
}

/// The last call of a run is a sync. Where it fails, that is the end.
#[test]
fn last_sync(rt: HostRuntime) -> Result<(), Fail> {
    let alloc = rt.alloc();
    let (why, calls) = ended(alloc, Vec::new(alloc))?;
    assert_eq!(rt; why, Why::Ended);
    let (why, _) = ended(alloc, vec![in alloc; calls.wrapping_sub(1)]?)?;
    assert_eq!(rt; why, Why::MainWrite);
    assert_eq!(rt; why.status(), 5);
    Ok(())
}

// Adds a Twrite of 8192 zeros at a block of the file with fid 0.
fn append_write(bytes: &mut Vec<u8>, block: u64) -> Result<(), Fail> {
    bytes.extend_from_slice(&[0x17, 0x20, 0, 0, 118, 4, 0, 0, 0, 0, 0])?;
    bytes.extend_from_slice(&block.wrapping_mul(8192).to_le_bytes())?;
    bytes.extend_from_slice(&[0, 0x20, 0, 0])?;
    bytes.extend_from_slice(&[0; 8192])?;
    Ok(())
}

// The messages that write so many blocks of a new file.
fn writes(alloc: Global, count: u64) -> Result<Vec<u8>, Fail> {
    let mut all = bytes(alloc, "V T M")?;
    for block in 0..count {
        append_write(&mut all, block)?;
    }
    Ok(all)
}

// The replies to so many such writes, and to one more that finds the file system full.
fn written(alloc: Global, count: u64) -> Result<Vec<u8>, Fail> {
    let mut all = bytes(alloc, "RV RT RC")?;
    for _ in 0..count {
        all.extend_from_slice(&[11, 0, 0, 0, 119, 4, 0, 0, 0x20, 0, 0])?;
    }
    all.extend_from_slice(&[25, 0, 0, 0, 107, 4, 0, 16, 0])?;
    all.extend_from_slice(b"file system full")?;
    Ok(all)
}

// The eighteenth block of a file may take more blocks than are left.
fn fills(alloc: Global) -> Result<(), Fail> {
    let disks = formatted(alloc, Vec::new(alloc))?;
    let done = ran(alloc, "9p", disks, writes(alloc, 18)?)?;
    after(done, Why::Ended, written(alloc, 17)?.as_slice())?;
    Ok(())
}

#[test]
fn full(rt: HostRuntime) -> Result<(), Fail> {
    fills(rt.alloc())
}
