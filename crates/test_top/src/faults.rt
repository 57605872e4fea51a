//! A device that fails in a turn of a script.

use crate::disks::{Disks, Ran, after, formatted, ran};
use crate::messages::bytes;
use fo_top::Why;
use std::alloc::Global;
use std::test::Fail;

// A file is made and `hi` written to it; then come a flushing turn, and all that is left.
const SCRIPT: &str =
    "s 0 1300000064ffff180001000600395032303030\ns 0 1900000068010000000000ffffffff0600676c656e64610000\ns 0 13000000720200000000000100668001000002\ns 0 19000000760400000000000000000000000000020000006869\nf\nF\n";

// What is answered where the write of the flushing turn fails: 31 is a failed write of the main device.
const SAID: &str =
    "s 0 1300000065ffff180001000600395032303030\ns 0 1400000069010080000000000000000000000000\ns 0 180000007302000000000000010000000000000000000100\ns 0 0b00000077040002000000\nf fault 31\nF idle\n";

// The call of the main device that is the first write of the flushing turn: formatting makes 9, and an opening and the requests 21, all of them
// reads.
const FIRST: u64 = 30;

// Runs the script over a main device that fails at this call.
fn failing(alloc: Global, call: u64) -> Result<Ran, Fail> {
    let disks = formatted(alloc, vec![in alloc; call]?)?;
    let input = Vec::from_slice(alloc, SCRIPT.as_bytes())?;
    ran(alloc, "turns", disks, input)
}

// Runs it where the first write of the flushing turn fails, and gives the devices back.
fn flushed(alloc: Global) -> Result<Disks, Fail> {
    let done = failing(alloc, FIRST)?;
    after(done, Why::Ended, SAID.as_bytes())
}

// Reads the file in the next run.
fn finds(alloc: Global, disks: Disks) -> Result<(), Fail> {
    let found = "RV 1400000069010080010000000000000000000000 RW RO RR";
    let found = bytes(alloc, found)?;
    let done = ran(alloc, "9p", disks, bytes(alloc, "V T W O R")?)?;
    after(done, Why::Ended, found.as_slice())?;
    Ok(())
}

/// A flushing turn whose write fails says so, the next settling succeeds, and the file is as it was written after opening again.
#[test]
fn flush(rt: HostRuntime) -> Result<(), Fail> {
    let disks = flushed(rt.alloc())?;
    finds(rt.alloc(), disks)
}
