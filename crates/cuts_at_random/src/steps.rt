//! Steps at random.
use crate::model::Model;
use crate::names::{DIRS, FAR, LONG, NAMES, PIECE, Spot};
use test_random::Random;

/// A change of files, or of what memory and the devices have.
#[derive(Clone, Copy)]
pub enum Step {
    /// A file of this name is made, or a directory.
    Make(Spot, bool),
    /// The file of this name is removed.
    Remove(Spot),
    /// The file of the first name gets the second one.
    Rename(Spot, Spot),
    /// At this offset of the file of this name the piece of this number is written.
    Write(Spot, u64, u32),
    /// The file of this name gets this length.
    Cut(Spot, u64),
    /// All is settled.
    Settle,
    /// So many blocks are written, or what was written is settled, one after another.
    Flush(u32),
    /// Blocks that left the tree are closed.
    Close(u32),
}

/// A name at random, most often a long one.
fn name(random: &mut Random) -> u32 {
    if random.once_in(4) {
        random.below(NAMES)
    } else {
        random.below(LONG)
    }
}

/// A name of a directory at random.
fn spot_in(random: &mut Random, dir: u32) -> Spot {
    Spot {
        dir,
        name: name(random),
    }
}

/// A name of a directory, both at random.
fn spot(random: &mut Random) -> Spot {
    let dir = random.below(DIRS);
    spot_in(random, dir)
}

/// A name at random, most often one that has a file.
fn used(random: &mut Random, model: &Model) -> Spot {
    let mut at = spot(random);
    for _ in 0..6 {
        if !model.has(at) {
            at = spot(random);
        }
    }
    at
}

/// A name of a directory at random, every second time one whose file is gone, if some tries find one.
fn free(random: &mut Random, model: &Model, dir: u32) -> Spot {
    let mut at = spot_in(random, dir);
    let tries = random.below(2) * 12;
    for _ in 0..tries {
        if !model.is_left(at) {
            at = spot_in(random, dir);
        }
    }
    at
}

/// The file of this name gets another name of its directory, at random.
fn rename(random: &mut Random, model: &Model, from: Spot) -> Step {
    let other = free(random, model, from.dir).name;
    let to = if other == from.name {
        (other % NAMES + 1) % NAMES
    } else {
        other
    };
    Step::Rename(
        from,
        Spot {
            dir: from.dir,
            name: to,
        },
    )
}

/// The file of this name is written, at random.
fn write(random: &mut Random, at: Spot) -> Step {
    let offset = if random.once_in(3) { FAR } else { 0 };
    Step::Write(at, offset, 1 + random.below(676))
}

/// The file of this name gets another length: that of none of its pieces, of the first, or of both.
fn cut(random: &mut Random, at: Spot) -> Step {
    let long = match random.below(3) {
        0 => 0,
        1 => PIECE,
        _ => FAR + PIECE,
    };
    Step::Cut(at, long)
}

/// The bytes or the length of the file of this name change, or a directory is removed.
fn data(random: &mut Random, model: &Model, at: Spot) -> Step {
    if model.is_dir(at) {
        Step::Remove(at)
    } else if random.once_in(2) {
        write(random, at)
    } else {
        cut(random, at)
    }
}

/// A step at random.
pub fn draw(random: &mut Random, model: &Model) -> Step {
    match random.below(18) {
        0..5 => {
            let dir = random.below(DIRS);
            let at = free(random, model, dir);
            Step::Make(at, random.once_in(4))
        }
        5..8 => Step::Remove(used(random, model)),
        8..11 => {
            let from = used(random, model);
            rename(random, model, from)
        }
        11..15 => {
            let at = used(random, model);
            data(random, model, at)
        }
        15 => Step::Settle,
        16 => Step::Flush(1 + random.below(8)),
        _ => Step::Close(1 + random.below(8)),
    }
}
