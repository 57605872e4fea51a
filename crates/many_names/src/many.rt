//! A directory of many names, at random.
ghost use Rattle.std.specs.Prelude.{◌<◌};

use crate::calls::Call;
use crate::disks::{Left, On, closed, formatted, opened};
use crate::looks::{found, listed};
use crate::names::{Model, Order};
use fo_world::FileError;
use std::alloc::Global;

/// How many blocks the main device has.
const BLOCKS: u32 = 1024;

/// What was done, how many names were listed last, and how many looks or calls were wrong.
#[derive(Clone, Copy, Debug)]
pub struct Counts {
    pub made: u32,
    pub removed: u32,
    pub renamed: u32,
    pub listed: u32,
    pub wrong: u32,
}

/// What is done in a row.
#[derive(Clone, Copy, Debug)]
enum Phase {
    Make,
    Remove,
    Rename,
}

/// The files, and what they should be.
#[derive(Drop)]
struct Run {
    files: On,
    model: Model,
    counts: Counts,
}

impl Counts {
    /// Nothing was done.
    fn none() -> Counts {
        Counts {
            made: 0,
            removed: 0,
            renamed: 0,
            listed: 0,
            wrong: 0,
        }
    }

    /// Something was wrong.
    fn is_wrong(&mut self) {
        self.wrong = self.wrong.saturating_add(1);
    }

    /// A call was granted.
    fn count(&mut self, call: Call) {
        match call {
            Call::Make(_) => self.made = self.made.saturating_add(1),
            Call::Remove(_) => self.removed = self.removed.saturating_add(1),
            Call::Rename(_) => self.renamed = self.renamed.saturating_add(1),
            Call::Settle => {}
        }
    }

    /// Whether there were just so many hundred calls.
    fn is_hundredth(&self) -> bool {
        (u64::from(self.made) + u64::from(self.removed) + u64::from(self.renamed)) % 100 == 0
    }
}

impl Phase {
    /// The call on the name of a number: each is made, every third removed, and of the rest every fifth renamed.
    fn call(self, number: u32) -> Option<Call> {
        let third = number % 3 == 0;
        match self {
            Phase::Make => Some(Call::Make(number)),
            Phase::Remove => if third {
                Some(Call::Remove(number))
            } else {
                None
            },
            Phase::Rename => if !third && number % 5 == 0 {
                Some(Call::Rename(number))
            } else {
                None
            },
        }
    }
}

/// The directory is listed from the start, and of every so many numbers both names are looked up.
fn look(alloc: Global, files: &mut On, model: &Model, every: u32, counts: &mut Counts)
    requires { 0 < every }
{
    match listed(alloc, files, model) {
        Ok(Some(names)) => counts.listed = names,
        _ => counts.is_wrong(),
    }
    match found(alloc, files, model, every) {
        Ok(true) => {}
        _ => counts.is_wrong(),
    }
}

impl Run {
    ghost use Rattle.std.specs.Prelude.{◌<◌};

    /// A look at the directory as it is now.
    fn look(&mut self, alloc: Global, every: u32)
        requires { 0 < every }
    {
        look(alloc, &mut self.files, &self.model, every, &mut self.counts);
    }

    /// A call. After each hundredth there is a look.
    fn step(&mut self, alloc: Global, call: Call) {
        match call.ask(alloc, &mut self.files, &self.model) {
            Ok(()) => {
                call.put(&mut self.model);
                self.counts.count(call);
            }
            Err(_) => self.counts.is_wrong(),
        }
        if self.counts.is_hundredth() {
            self.look(alloc, 97);
        }
    }

    /// All calls of a phase, in an order at random.
    fn phase(&mut self, alloc: Global, seed: u32, phase: Phase) {
        let mut order = Order::new(seed);
        for _ in 0..4096 {
            let number = order.next();
            if number < self.model.many() {
                if let Some(call) = phase.call(number) {
                    self.step(alloc, call);
                }
            }
        }
    }

    /// All phases, and all is settled.
    fn phases(&mut self, alloc: Global) {
        self.phase(alloc, 17, Phase::Make);
        self.phase(alloc, 1234, Phase::Remove);
        self.phase(alloc, 99, Phase::Rename);
        self.step(alloc, Call::Settle);
        self.look(alloc, 7);
    }
}

/// The files of a fresh disk, with an empty directory for so many names.
fn begun(alloc: Global, many: u16) -> Result<Option<Run>, FileError> {
    let Ok(disks) = formatted(alloc, BLOCKS, Vec::new(alloc)) else {
        return Ok(None);
    };
    let model = Model::new(alloc, many, 0, 40)?;
    match opened(alloc, disks) {
        Some(files) => Ok(Some(Run {
            files,
            model,
            counts: Counts::none(),
        })),
        None => Ok(None),
    }
}

/// The files of the oldest versions that a crash may leave.
fn image(alloc: Global, left: &Left) -> Option<On> {
    match left.image(alloc) {
        Ok(disks) => opened(alloc, disks),
        Err(_) => None,
    }
}

/// The files, opened anew from the oldest versions that a crash may leave.
fn again(alloc: Global, files: On) -> Option<On> {
    match closed(files, BLOCKS) {
        Some(left) => image(alloc, &left),
        None => None,
    }
}

/// What was counted, with a last look at files.
fn last_look(alloc: Global, files: On, model: &Model, counts: Counts) -> Counts {
    let mut files = files;
    let mut counts = counts;
    look(alloc, &mut files, model, 1, &mut counts);
    if closed(files, BLOCKS).is_none() {
        counts.is_wrong();
    }
    counts
}

/// What was left is opened anew, and looked at.
fn reopened(alloc: Global, run: Run) -> Option<Counts> {
    let Run {
        files,
        model,
        counts,
    } = run;
    match again(alloc, files) {
        Some(opened) => Some(last_look(alloc, opened, &model, counts)),
        None => None,
    }
}

/// So many names are made, removed and renamed. None where the disks could not be formatted or opened.
pub fn many_names(alloc: Global, many: u16) -> Option<Counts> {
    let Ok(Some(run)) = begun(alloc, many) else {
        return None;
    };
    let mut run = run;
    run.phases(alloc);
    reopened(alloc, run)
}
