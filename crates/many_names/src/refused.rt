//! A call is refused, for want of memory or for a fault of the main device: the directory is as before it or as after it.
use crate::calls::Call;
use crate::disks::{Left, On, closed, formatted, opened};
use crate::looks::{found, listed};
use crate::names::Model;
use fo_world::FileError;
use std::alloc::Global;

/// How many blocks the main device has.
const BLOCKS: u32 = 64;

/// How many names are made first: more than a leaf of records holds.
const FIRST: u32 = 38;

/// What is done then. A leaf has room for two of the longer names at most, so the records of two move to another leaf.
const CALLS: [Call; 12] = [
    Call::Settle,
    Call::Rename(3),
    Call::Rename(4),
    Call::Rename(5),
    Call::Rename(6),
    Call::Remove(7),
    Call::Remove(3),
    Call::Settle,
    Call::Make(38),
    Call::Make(7),
    Call::Rename(8),
    Call::Settle,
];

/// The files, what they should be, and how many calls were refused and how many looks or calls were wrong.
#[derive(Drop)]
struct Run {
    files: On,
    model: Model,
    refused: u32,
    wrong: u32,
}

/// How many calls of the main device there were, how many calls on files were refused, and how many looks or calls were wrong.
#[derive(Clone, Copy, Debug)]
pub struct Outcome {
    pub calls: u64,
    pub refused: u32,
    pub wrong: u32,
}

/// Whether it is want of memory or a fault of the main device. (A device in memory that finds none fails.)
fn is_due(why: &FileError) -> bool {
    matches!(
        why,
        FileError::Memory | FileError::MainRead | FileError::MainWrite | FileError::MainSync
    )
}

/// Whether the directory is just what it should be.
fn shown(alloc: Global, files: &mut On, model: &Model) -> Result<bool, FileError> {
    Ok(listed(alloc, files, model)?.is_some() && found(alloc, files, model, 1)?)
}

/// The same. A look that is refused is taken again.
fn shown_at_last(alloc: Global, files: &mut On, model: &Model) -> bool {
    for _ in 0..2 {
        if let Ok(shown) = shown(alloc, files, model) {
            return shown;
        }
    }
    false
}

impl Run {
    /// A call was refused.
    fn is_refused(&mut self, why: &FileError) {
        self.refused = self.refused.saturating_add(1);
        if !is_due(why) {
            self.is_wrong();
        }
    }

    /// Something was wrong.
    fn is_wrong(&mut self) {
        self.wrong = self.wrong.saturating_add(1);
    }

    /// Whether the directory is just what it should be. A look that is refused is taken again.
    fn shows(&mut self, alloc: Global) -> bool {
        for _ in 0..2 {
            match shown(alloc, &mut self.files, &self.model) {
                Ok(shown) => return shown,
                Err(why) => self.is_refused(&why),
            }
        }
        false
    }

    /// The directory must be what it should be.
    fn look(&mut self, alloc: Global) {
        if !self.shows(alloc) {
            self.is_wrong();
        }
    }

    /// A call that was refused, where the directory is as before it, is granted now.
    fn ask_again(&mut self, alloc: Global, call: Call) {
        if !self.shows(alloc) {
            return;
        }
        match call.ask(alloc, &mut self.files, &self.model) {
            Ok(()) => {}
            Err(_) => self.is_wrong(),
        }
    }

    /// A call. Where it is refused, the directory is as before it, and it is granted when it is made again; or else it is as after it.
    fn take(&mut self, alloc: Global, call: Call) {
        match call.ask(alloc, &mut self.files, &self.model) {
            Ok(()) => call.put(&mut self.model),
            Err(why) => {
                self.is_refused(&why);
                self.ask_again(alloc, call);
                call.put(&mut self.model);
                self.look(alloc);
            }
        }
    }

    /// The first names are made.
    fn fill(&mut self, alloc: Global) {
        for number in 0..FIRST {
            self.take(alloc, Call::Make(number));
        }
        self.look(alloc);
    }

    /// The other calls.
    fn turn(&mut self, alloc: Global) {
        for call in CALLS {
            self.take(alloc, call);
        }
        self.look(alloc);
    }
}

/// The files of a fresh disk that fails at these calls, with an empty directory.
fn begun(alloc: Global, fails: Vec<u64>) -> Result<Option<Run>, FileError> {
    let Ok(disks) = formatted(alloc, BLOCKS, fails) else {
        return Ok(None);
    };
    let model = Model::new(alloc, 40, 150, 250)?;
    match opened(alloc, disks) {
        Some(files) => Ok(Some(Run {
            files,
            model,
            refused: 0,
            wrong: 0,
        })),
        None => Ok(None),
    }
}

/// The files of the oldest versions that a crash may leave.
fn image(alloc: Global, left: &Left) -> Option<On> {
    match left.image(alloc) {
        Ok(disks) => opened(alloc, disks),
        Err(_) => None,
    }
}

/// The same, tried again where it is refused.
fn again(alloc: Global, left: &Left) -> Option<On> {
    for _ in 0..2 {
        if let Some(files) = image(alloc, left) {
            return Some(files);
        }
    }
    None
}

/// Whether these files have what they should; they are given up.
fn last_look(alloc: Global, files: On, model: &Model) -> bool {
    let mut files = files;
    let right = shown_at_last(alloc, &mut files, model);
    closed(files, BLOCKS).is_some() && right
}

/// Whether what was left has what it should, opened anew.
fn is_kept(alloc: Global, left: &Left, model: &Model) -> bool {
    match again(alloc, left) {
        Some(opened) => last_look(alloc, opened, model),
        None => false,
    }
}

/// What was left is opened anew, and looked at.
fn reopened(alloc: Global, run: Run) -> Option<Outcome> {
    let Run {
        files,
        model,
        refused,
        wrong,
    } = run;
    match closed(files, BLOCKS) {
        Some(left) => {
            let kept = is_kept(alloc, &left, &model);
            Some(Outcome {
                calls: left.calls(),
                refused,
                wrong: if kept { wrong } else { wrong.saturating_add(1) },
            })
        }
        None => None,
    }
}

/// All calls, and a look at what they leave.
fn finished(alloc: Global, run: Run) -> Option<Outcome> {
    let mut run = run;
    run.fill(alloc);
    run.turn(alloc);
    reopened(alloc, run)
}

/// All calls on a fresh disk that fails at this call.
fn with_fault(alloc: Global, call: u64) -> Option<Outcome> {
    match vec![in alloc; call] {
        Ok(fails) => match begun(alloc, fails) {
            Ok(Some(run)) => finished(alloc, run),
            _ => None,
        },
        Err(_) => None,
    }
}

/// All calls on a fresh disk that does not fail. A beginning that is refused is tried again.
pub fn script(alloc: Global) -> Option<Outcome> {
    for _ in 0..2 {
        if let Ok(Some(run)) = begun(alloc, Vec::new(alloc)) {
            return finished(alloc, run);
        }
    }
    None
}

/// How many calls of the main device failed, each in a run of its own, with what came of all these runs.
pub fn faults(alloc: Global) -> Outcome {
    let mut all = Outcome {
        calls: 0,
        refused: 0,
        wrong: 0,
    };
    for call in 10..100_000 {
        match with_fault(alloc, call) {
            Some(outcome) => {
                if outcome.calls <= call {
                    return all;
                }
                all.refused = all.refused.saturating_add(outcome.refused);
                all.wrong = all.wrong.saturating_add(outcome.wrong);
            }
            None => all.wrong = all.wrong.saturating_add(1),
        }
        all.calls = call - 9;
    }
    all
}
