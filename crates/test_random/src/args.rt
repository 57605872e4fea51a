//! The arguments of a program.
use std::{env, io};

/// The words behind the program's name.
fn words(rt: &HostRuntime) -> io::Result<Vec<String>> {
    let mut args = env::args(rt)?;
    let _program = args.next();
    Ok(args.collect(rt.alloc())?)
}

/// The number at a place.
fn number(words: &[String], at: usize) -> u64 {
    match words.get(at) {
        Some(word) => word.parse::<u64>().unwrap_or(0),
        None => 0,
    }
}

/// The first two arguments: a seed, and how often. One that is missing, or is no number, counts as 0.
pub fn seed_and_count(rt: &HostRuntime) -> io::Result<(u64, u64)> {
    let words = words(rt)?;
    Ok((number(&words, 0), number(&words, 1)))
}
