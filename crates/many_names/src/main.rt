//! A directory of many names over formatted disks in memory, and a directory whose calls are refused.
//!
//! Each argument is a run. A number makes so many names in the root, in an order at random; then every third is removed, and of the rest every
//! fifth gets a longer name. After each hundredth call the directory is listed from the start and compared with what it should be, and of every
//! 97th number both names are looked up. At the end all is settled, and the disk with the oldest versions that a crash may leave is opened anew, and
//! looked at again. (The same after a new epoch is to be added once snapshots are served.)
//!
//! `faults` makes a few calls on a directory of two leaves of records, among them some that move a record to another leaf, in as many runs as the
//! main device is called: in each another of these calls fails. `script` makes them once, for runs in which requests for memory are refused
//! (`tools/starve`). Where a call is refused, the directory must be as before it, and the call is granted when it is made again; or else be as after it.
#![tactic(auto)]

mod calls;
mod disks;
mod looks;
mod many;
mod names;
mod refused;

use crate::many::many_names;
use crate::refused::{faults, script};
use std::process::ExitCode;
use std::{env, io};

/// The words behind the program's name.
fn words(rt: &HostRuntime) -> io::Result<Vec<String>> {
    let mut args = env::args(rt)?;
    let _program = args.next();
    Ok(args.collect(rt.alloc())?)
}

/// So many names are made, removed and renamed.
fn run_many(rt: &HostRuntime, many: u16) -> io::Result<()> {
    match many_names(rt.alloc(), many) {
        Some(counts) => println!(rt;
            "made {} removed {} renamed {} listed {} wrong {}",
            counts.made, counts.removed, counts.renamed, counts.listed, counts.wrong
        ),
        None => println!(rt; "no disks"),
    }
}

/// Whether there are some.
fn some(count: u64) -> &'static str {
    if count == 0 { "none" } else { "some" }
}

/// Each call of the main device fails once.
fn run_faults(rt: &HostRuntime) -> io::Result<()> {
    let all = faults(rt.alloc());
    eprintln!(rt; "faults {} refused {}", all.calls, all.refused)?;
    println!(rt;
        "faults {} refused {} wrong {}",
        some(all.calls),
        some(u64::from(all.refused)),
        all.wrong
    )
}

/// The calls are made once.
fn run_script(rt: &HostRuntime) -> io::Result<()> {
    match script(rt.alloc()) {
        Some(outcome) => {
            eprintln!(rt; "calls {} refused {}", outcome.calls, outcome.refused)?;
            println!(rt; "script wrong {}", outcome.wrong)
        }
        None => println!(rt; "no disks"),
    }
}

/// The run that a word means.
fn run(rt: &HostRuntime, word: &String) -> io::Result<()> {
    match word.as_str() {
        "faults" => run_faults(rt),
        "script" => run_script(rt),
        _ => run_many(rt, word.parse::<u16>().unwrap_or(0)),
    }
}

/// All runs.
fn runs(rt: &HostRuntime) -> io::Result<()> {
    let words = words(rt)?;
    for word in words.iter() {
        run(rt, word)?;
    }
    Ok(())
}

fn main(rt: HostRuntime) -> ExitCode {
    match runs(&rt) {
        Ok(()) => ExitCode::from(0),
        Err(_) => ExitCode::from(2),
    }
}
