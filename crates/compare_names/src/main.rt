//! Calls at random on a directory over blocks in memory, and on a plain list of records (`fo_dir_plain`), whose answers are compared.
//!
//! The arguments are a seed and a number of calls. Names are added, removed and renamed, or the call is refused (the name is there, or is not),
//! records are looked up by their name, the next name is listed, and the least free pair is asked for. After each call both of its names are
//! looked up in both, and at the end all names, with the ones after them.
#![tactic(auto)]

mod calls;
mod compare;
mod draw;

use crate::compare::compare;
use std::process::ExitCode;
use std::{env, io};

/// The words behind the program's name.
fn words(rt: &HostRuntime) -> io::Result<Vec<String>> {
    let mut args = env::args(rt)?;
    let _program = args.next();
    Ok(args.collect(rt.alloc())?)
}

/// The seed.
fn seed(words: &[String]) -> u64 {
    match words.first() {
        Some(word) => word.parse::<u64>().unwrap_or(0),
        None => 0,
    }
}

/// How many calls there are.
fn call_count(words: &[String]) -> u32 {
    match words.get(1) {
        Some(word) => word.parse::<u32>().unwrap_or(0),
        None => 0,
    }
}

/// So many calls at random, compared.
fn compared(rt: &HostRuntime, seed: u64, many: u32) -> io::Result<()> {
    match compare(rt.alloc(), seed, many) {
        Ok(tally) => println!(rt;
            "seed {seed} calls {many} added {} removed {} renamed {} refused {} looks {} differ {}",
            tally.added, tally.removed, tally.renamed, tally.refused, tally.looks, tally.differ
        ),
        Err(_) => Err(io::Error::from(io::ErrorKind::OutOfMemory)),
    }
}

/// The run that the words ask for.
fn run(rt: &HostRuntime) -> io::Result<()> {
    let words = words(rt)?;
    compared(rt, seed(&words), call_count(&words))
}

fn main(rt: HostRuntime) -> ExitCode {
    match run(&rt) {
        Ok(()) => ExitCode::from(0),
        Err(_) => ExitCode::from(2),
    }
}
