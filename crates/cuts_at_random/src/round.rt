//! Rounds: steps at random, until the power is cut at random.
use crate::ask::{After, take};
use crate::image::look;
use crate::model::Model;
use crate::start::{Start, Starts};
use crate::steps::draw;
use crate::wrong::Wrong;
use std::alloc::Global;
use test_random::Random;
use test_requests::disks::{Disks, Left, On, closed, opened, that_fail};

/// How many steps a round has at most.
const STEPS: u32 = 60;

/// How many images of a round are looked at at most.
const IMAGES: u32 = 64;

/// What a round came to: the call that failed, the number of the image that was looked at last, and how many were right.
#[derive(Clone, Copy)]
pub struct Round {
    pub call: u32,
    pub number: u32,
    pub images: u32,
    pub wrong: Option<Wrong>,
}

/// Takes steps at random, until a device fails.
fn run(alloc: Global, files: &mut On, model: &mut Model, random: &mut Random) -> Result<(), Wrong> {
    for _ in 0..STEPS {
        let step = draw(random, model);
        if take(alloc, files, model, step)? == After::Cut {
            return Ok(());
        }
    }
    Ok(())
}

/// What files leave, where all went well so far.
fn ended(files: On, so_far: Result<(), Wrong>) -> Result<Left, Wrong> {
    let left = closed(files);
    so_far?;
    match left {
        Some(left) => Ok(left),
        None => Err(Wrong::Lost),
    }
}

/// What a run on these disks leaves.
fn cut(alloc: Global, disks: Disks, model: &mut Model, random: &mut Random) -> Result<Left, Wrong> {
    match opened(alloc, disks) {
        Some(mut files) => {
            let so_far = run(alloc, &mut files, model, random);
            ended(files, so_far)
        }
        None => Err(Wrong::Lost),
    }
}

/// The disks of a round, of which the main one fails at this call.
fn failing(alloc: Global, start: &Start, call: u32) -> Option<Disks> {
    match start.left.image(0, 64) {
        Ok(disks) => that_fail(alloc, disks, u64::from(call)),
        Err(_) => None,
    }
}

/// A number of 32 bits at random.
fn any(random: &mut Random) -> u32 {
    random.below(65_536) * 65_536 + random.below(65_536)
}

impl Round {
    /// It has come to its end.
    fn ends(&mut self, wrong: Wrong) {
        self.wrong = Some(wrong);
    }

    /// Looks at an image.
    fn look(&mut self, alloc: Global, left: &Left, model: &Model, number: u32) {
        self.number = number;
        match look(alloc, left.choice(number), model) {
            Ok(()) => self.images = self.images.saturating_add(1),
            Err(wrong) => self.ends(wrong),
        }
    }

    /// Looks at all images where they are few, else at some at random.
    fn look_at_all(&mut self, alloc: Global, left: &Left, model: &Model, random: &mut Random) {
        let choices = left.choices();
        for at in 0..IMAGES {
            if self.wrong.is_none() && at < choices {
                let number = if choices <= IMAGES { at } else { any(random) };
                self.look(alloc, left, model, number);
            }
        }
    }

    /// Takes steps on these disks, and looks at what a crash may leave.
    fn goes(&mut self, alloc: Global, disks: Disks, model: &mut Model, random: &mut Random) {
        match cut(alloc, disks, model, random) {
            Ok(left) => self.look_at_all(alloc, &left, model, random),
            Err(wrong) => self.ends(wrong),
        }
    }

    /// Begins with these disks.
    fn begins(&mut self, alloc: Global, start: &Start, random: &mut Random) {
        match (failing(alloc, start, self.call), start.model.copy()) {
            (Some(disks), Ok(mut model)) => self.goes(alloc, disks, &mut model, random),
            _ => self.ends(Wrong::Lost),
        }
    }
}

/// A round at random.
pub fn play(alloc: Global, starts: &Starts, random: &mut Random) -> Round {
    let mut round = Round {
        call: 4 + random.below(120),
        number: 0,
        images: 0,
        wrong: None,
    };
    match random.below(4) {
        0 => round.begins(alloc, &starts.few, random),
        1 => round.begins(alloc, &starts.many, random),
        _ => round.begins(alloc, &starts.long, random),
    }
    round
}
