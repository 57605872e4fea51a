//! Many names of a directory over blocks in memory, in an epoch over the leaves of the one before.
//!
//! The argument is a number of names. They are made, removed and renamed in one epoch and in the next (`test_epochs`), and after each hundredth
//! step of the second one all of the directory is listed and looked up, and compared with what it should be; in the first one, which is that of
//! `epoch_names`, at the ends of its phases alone. At the end each leaf has to be one of the new epoch, and each leaf of the older one to hold
//! what it held.
//!
//! `tools/starve` refuses each request for memory of a run with few names in turn: each run prints the same, or ends with status 2 before there is
//! a directory.
#![tactic(auto)]

use std::process::ExitCode;
use std::{env, io};
use test_epochs::{Counts, both_epochs};

/// The words behind the program's name.
fn words(rt: &HostRuntime) -> io::Result<Vec<String>> {
    let mut args = env::args(rt)?;
    let _program = args.next();
    Ok(args.collect(rt.alloc())?)
}

/// What was done in an epoch. How many steps were refused goes to standard error.
fn print(rt: &HostRuntime, epoch: &str, counts: Counts) -> io::Result<()> {
    if 0 < counts.refused {
        eprintln!(rt; "{epoch} epoch: refused {}", counts.refused)?;
    }
    println!(rt; "{epoch} epoch: {counts}")
}

/// So many names in two epochs.
fn names(rt: &HostRuntime, many: u16) -> io::Result<()> {
    match both_epochs(rt.alloc(), many) {
        Ok((first, second)) => {
            print(rt, "first", first)?;
            print(rt, "second", second)
        }
        Err(_) => Err(io::Error::from(io::ErrorKind::OutOfMemory)),
    }
}

/// How many names there are.
fn name_count(words: &[String]) -> u16 {
    match words.first() {
        Some(word) => word.parse::<u16>().unwrap_or(0),
        None => 0,
    }
}

/// The run that the words ask for.
fn run(rt: &HostRuntime) -> io::Result<()> {
    let words = words(rt)?;
    names(rt, name_count(&words))
}

fn main(rt: HostRuntime) -> ExitCode {
    match run(&rt) {
        Ok(()) => ExitCode::from(0),
        Err(_) => ExitCode::from(2),
    }
}
