//! Files over a disk that fails at random, compared with the plain files, call by call.
//!
//! The arguments are a seed and a number of calls. Each round formats a disk and makes 500 calls at random on `Files` over a cache over
//! it. Each call that is answered, or refused by a rule of the file system, is made on `PlainFiles` too, which have to answer the same;
//! where a device failed or the disk was full it is not, so that what it was to change has to be as before. In the middle and at the
//! end of a round all is settled, all files are compared, the disk is left as a power cut may leave it, the files are opened again, and
//! all files are compared again. File numbers may differ in pairs, since a power cut may let one be passed over.
#![tactic(auto)]

mod ask;
mod call;
mod disks;
mod edits;
mod game;
mod looks;
mod text;
mod verdict;
mod whole;

use crate::game::{Counts, Game, begin};
use crate::verdict::Stop;
use std::alloc::Global;
use std::io;
use std::process::ExitCode;
use test_random::{Random, seed_and_count};

/// So many calls.
fn calls(
    alloc: Global,
    game: &mut Game,
    random: &mut Random,
    counts: &mut Counts,
    many: u32,
) -> Result<(), Stop> {
    for at in 0..many {
        game.step(alloc, random, counts, at)?;
    }
    Ok(())
}

/// Some calls, after which all is settled and compared.
fn half(
    alloc: Global,
    game: &mut Game,
    random: &mut Random,
    counts: &mut Counts,
) -> Result<(), Stop> {
    calls(alloc, game, random, counts, 250)?;
    game.settle(alloc, random.once_in(2))?;
    game.compare(alloc)?;
    game.settle(alloc, random.once_in(2))
}

/// Both, opened again where all went well so far.
fn opened(
    alloc: Global,
    game: Game,
    done: Result<(), Stop>,
    random: &mut Random,
) -> Result<Game, Stop> {
    match done {
        Ok(()) => game.reopen(alloc, random),
        Err(why) => Err(why),
    }
}

/// Calls, a new opening, and all compared.
fn half_and_open(
    alloc: Global,
    game: Game,
    random: &mut Random,
    counts: &mut Counts,
) -> Result<Game, Stop> {
    let mut game = game;
    let done = half(alloc, &mut game, random, counts);
    opened(alloc, game, done, random)
}

/// All is compared.
fn compared(alloc: Global, game: Game) -> Result<Game, Stop> {
    let mut game = game;
    let done = game.compare(alloc);
    kept(game, done)
}

/// What there is, where all went well so far.
fn kept(game: Game, done: Result<(), Stop>) -> Result<Game, Stop> {
    match done {
        Ok(()) => Ok(game),
        Err(why) => Err(why),
    }
}

/// All is compared, for the last time.
fn last(alloc: Global, game: Game) -> Result<(), Stop> {
    let mut game = game;
    let done = game.compare(alloc);
    ended(game, done)
}

/// How it went, with all let go.
fn ended(_game: Game, done: Result<(), Stop>) -> Result<(), Stop> {
    done
}

/// Calls on a fresh disk that fails, and on the same one opened again.
fn round(alloc: Global, random: &mut Random, counts: &mut Counts) -> Result<(), Stop> {
    let game = begin(alloc, random)?;
    let game = half_and_open(alloc, game, random, counts)?;
    let game = compared(alloc, game)?;
    let game = half_and_open(alloc, game, random, counts)?;
    last(alloc, game)
}

/// Rounds, until there were so many calls.
fn rounds(alloc: Global, seed: u64, many: u64, counts: &mut Counts) -> Result<(), Stop> {
    let mut random = Random::new(seed);
    for _ in 0..many {
        if many <= counts.calls {
            return Ok(());
        }
        round(alloc, &mut random, counts)?;
    }
    Ok(())
}

fn some(count: u64) -> &'static str {
    if count == 0 { "none" } else { "some" }
}

/// Prints what came of a run.
fn print(
    rt: &HostRuntime,
    seed: u64,
    counts: &Counts,
    end: &Result<(), Stop>,
) -> io::Result<ExitCode> {
    match end {
        Ok(()) => {
            println!(rt;
                "seed {seed} calls {} differ 0 faults {} full {} refused {}",
                counts.calls,
                some(counts.failed),
                some(counts.full),
                some(counts.refused)
            )?;
            return Ok(ExitCode::from(0));
        }
        Err(Stop::Differs(text)) => println!(rt;
            "seed {seed} call {} differs: {text}",
            counts.calls
        )?,
        Err(Stop::Lost) => println!(rt; "seed {seed} call {}: the disk was lost", counts.calls)?,
        Err(Stop::Memory) => println!(rt; "seed {seed} call {}: no memory", counts.calls)?,
    }
    Ok(ExitCode::from(1))
}

fn main(rt: HostRuntime) -> ExitCode {
    let Ok((seed, many)) = seed_and_count(&rt) else {
        return ExitCode::from(2);
    };
    let mut counts = Counts {
        calls: 0,
        failed: 0,
        full: 0,
        refused: 0,
    };
    let end = rounds(rt.alloc(), seed, many, &mut counts);
    match print(&rt, seed, &counts, &end) {
        Ok(code) => code,
        Err(_) => ExitCode::from(2),
    }
}
