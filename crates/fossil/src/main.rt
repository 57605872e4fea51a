//! Fossil, an archival file server over 9P2000.
//!
//! `main` puts the system's own streams, files and clock into `run`, whose contract says what is done then. It has no contract of
//! its own: nothing is proved of these streams, files and clock, nor of what standard error gets.
#![tactic(auto)]

mod standard;

use crate::standard::hold_standard;
use fo_disk::FileDisk;
use fo_links::{ReadSource, SystemClock, WriteSink};
use fo_top::{Done, Why, run};
use std::alloc::{AllocError, Global};
use std::env;
use std::io::{self, ErrorKind};
use std::process::ExitCode;

/// The words behind the program's name.
fn words(rt: &HostRuntime) -> io::Result<Vec<String>> {
    let mut args = env::args(rt)?;
    let _program = args.next();
    Ok(args.collect(rt.alloc())?)
}

/// The path of a device's file: this word, or none.
fn path(alloc: Global, words: &[String], at: usize) -> Result<String, AllocError> {
    match words.get(at) {
        Some(path) => path.clone(),
        None => Ok(String::new(alloc)),
    }
}

/// How the run ended.
fn answer(rt: &HostRuntime) -> Why {
    if let Err(why) = hold_standard(rt) {
        return why;
    }
    let words = match words(rt) {
        Ok(words) => words,
        Err(e) if e.kind() == ErrorKind::OutOfMemory => return Why::Memory,
        Err(_) => return Why::Usage,
    };
    let (Ok(main), Ok(arena)) = (
        path(rt.alloc(), words.as_slice(), 1),
        path(rt.alloc(), words.as_slice(), 2),
    ) else {
        return Why::Memory;
    };
    let Done { why, .. } = run(
        rt.alloc(),
        words.as_slice(),
        FileDisk::new(rt, main),
        FileDisk::new(rt, arena),
        ReadSource::new(rt.stdin()),
        WriteSink::new(rt.stdout()),
        SystemClock::new(rt),
    );
    why
}

fn main(rt: HostRuntime) -> ExitCode {
    let why = answer(&rt);
    if why != Why::Ended {
        let text = why.text();
        let _ = eprintln!(&rt; "fossil: {}", text.as_str());
    }
    ExitCode::from(why.status())
}
