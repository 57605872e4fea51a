//! Requests at random on files over disks in memory, with the power cut at random.
//!
//! The arguments are a seed and a number of rounds. Each round begins with settled disks, of which the main one fails at one call at random, and
//! takes up to 60 steps at random: files and directories are made, removed and renamed in three directories, files are written, and get other
//! lengths, all is settled, blocks are flushed or closed. The call that fails lands all the same, so that a run that ends there leaves what a
//! crash at that moment may leave. Of that at most 64 images are looked at: all choices of a version of each block, or some at random. Each has
//! to pass the check and to open; each name that was untouched since all was settled last has the same file, with the same bytes, or none as
//! before; a new file is made and settled, if the disk isn't full; no name stands twice in a directory; and what is left passes the check again.
//! Steps are answered as the rules say, or that the disk is full.
#![tactic(auto)]

mod ask;
mod image;
mod model;
mod names;
mod round;
mod start;
mod steps;
mod wrong;

use crate::names::Spot;
use crate::round::{Round, play};
use crate::start::{Starts, all_starts};
use crate::wrong::Wrong;
use std::io;
use std::process::ExitCode;
use test_random::{Random, seed_and_count};

/// Prints what was wrong in a round.
fn print_wrong(
    rt: &HostRuntime,
    seed: u64,
    at: u64,
    round: &Round,
    wrong: Wrong,
) -> io::Result<()> {
    let spot = wrong.spot().unwrap_or(Spot { dir: 0, name: 0 });
    println!(rt;
        "seed {seed} round {at} call {} image {}: {} (directory {}, name {})",
        round.call,
        round.number,
        wrong.text(),
        spot.dir,
        spot.name
    )
}

/// So many rounds, up to the first that is wrong, and how many images were right.
fn rounds(rt: &HostRuntime, starts: &Starts, seed: u64, many: u64) -> io::Result<Option<u64>> {
    let mut random = Random::new(seed);
    let mut images: u64 = 0;
    for at in 0..many {
        let round = play(rt.alloc(), starts, &mut random);
        images = images.saturating_add(u64::from(round.images));
        if let Some(wrong) = round.wrong {
            print_wrong(rt, seed, at, &round, wrong)?;
            return Ok(None);
        }
    }
    Ok(Some(images))
}

/// All rounds, and whether all were right.
fn run(rt: &HostRuntime, seed: u64, many: u64) -> io::Result<bool> {
    let Some(starts) = all_starts(rt.alloc()) else {
        println!(rt; "no disks")?;
        return Ok(false);
    };
    match rounds(rt, &starts, seed, many)? {
        Some(images) => {
            println!(rt; "{many} rounds, {images} images, 0 wrong")?;
            Ok(true)
        }
        None => Ok(false),
    }
}

/// The run that the arguments mean.
fn runs(rt: &HostRuntime) -> io::Result<bool> {
    let (seed, many) = seed_and_count(rt)?;
    run(rt, seed, many)
}

fn main(rt: HostRuntime) -> ExitCode {
    match runs(&rt) {
        Ok(true) => ExitCode::from(0),
        Ok(false) => ExitCode::from(1),
        Err(_) => ExitCode::from(2),
    }
}
