//! The files and the plain files, with what was made in both.
use crate::ask::{Request, ask};
use crate::call::{Call, after, draw, view, wants_directory};
use crate::disks::{On, again, fresh, settle};
use crate::text::USERS;
use crate::verdict::{Pairs, Spot, Stop, Verdict};
use fo_base::Memory;
use fo_files::Files;
use fo_plain::PlainFiles;
use fo_world::View;
use std::alloc::Global;
use test_random::Random;

/// How many calls were made, and what came of them.
#[derive(Clone, Copy)]
pub struct Counts {
    pub calls: u64,
    pub failed: u64,
    pub full: u64,
    pub refused: u64,
}

/// Both, with the places of files that were made and may be there, and the numbers of all that were made.
#[derive(Drop)]
pub struct Game {
    pub files: Files<On>,
    pub plain: PlainFiles,
    pub spots: Vec<Spot>,
    pub pairs: Pairs,
}

/// The place of the root of the active tree.
fn first_spots(alloc: Global) -> Result<Vec<Spot>, Memory> {
    let mut spots = Vec::new(alloc);
    spots.push(Spot::root(alloc, View::Active))?;
    Ok(spots)
}

/// The number of the root.
fn first_pairs(alloc: Global) -> Result<Pairs, Memory> {
    let mut pairs = Vec::new(alloc);
    pairs.push((0, 0))?;
    Ok(pairs)
}

/// Both, over fresh disks.
pub fn begin(alloc: Global, random: &mut Random) -> Result<Game, Stop> {
    let spots = first_spots(alloc)?;
    let pairs = first_pairs(alloc)?;
    let Ok(plain) = PlainFiles::new(alloc, 7) else {
        return Err(Stop::Memory);
    };
    match fresh(alloc, random)? {
        Some(files) => Ok(Game {
            files,
            plain,
            spots,
            pairs,
        }),
        None => Err(Stop::Lost),
    }
}

/// Keeps a file that was made.
fn add(spots: &mut Vec<Spot>, pairs: &mut Pairs, spot: Spot) -> Result<(), Stop> {
    pairs.push(spot.numbers())?;
    spots.push(spot)?;
    Ok(())
}

impl Counts {
    /// One call more.
    fn count(&mut self, verdict: &Verdict) {
        self.calls = self.calls.saturating_add(1);
        match verdict {
            Verdict::Failed => self.failed = self.failed.saturating_add(1),
            Verdict::Full => self.full = self.full.saturating_add(1),
            Verdict::Refused => self.refused = self.refused.saturating_add(1),
            _ => {}
        }
    }
}

/// Keeps what was made, and stops where answers differ.
fn keep(spots: &mut Vec<Spot>, pairs: &mut Pairs, verdict: Verdict) -> Result<(), Stop> {
    match verdict {
        Verdict::Differs(text) => Err(Stop::Differs(text)),
        Verdict::Made(spot) => add(spots, pairs, spot),
        _ => Ok(()),
    }
}

/// A place at random; in most cases that of a directory, or that of no directory, as is wanted.
fn choose(spots: &[Spot], random: &mut Random, wanted: bool) -> usize {
    let mut at = 0;
    for _ in 0..4 {
        if !spots.is_empty() {
            at = random.place(spots.len());
        }
        if at < spots.len() && spots[at].directory == wanted {
            return at;
        }
    }
    at
}

impl Game {
    /// A call on the file at a place in the list; what was made is kept.
    pub fn call(&mut self, alloc: Global, at: usize, request: &Request) -> Result<Verdict, Stop> {
        let Some(spot) = self.spots.get(at) else {
            return Ok(Verdict::Same);
        };
        let verdict = ask(
            alloc,
            &mut self.files,
            &mut self.plain,
            spot,
            &self.pairs,
            request,
        )?;
        Ok(verdict)
    }

    /// A call on the file at a place in the list, which is looked at afterwards.
    fn call_and_look(
        &mut self,
        alloc: Global,
        at: usize,
        request: Request,
        counts: &mut Counts,
    ) -> Result<(), Stop> {
        let verdict = self.call(alloc, at, &request)?;
        counts.count(&verdict);
        keep(&mut self.spots, &mut self.pairs, verdict)?;
        self.look(alloc, at, after(request.call))?;
        self.look(alloc, at, Call::Info)
    }

    /// A call that only looks at the file at a place in the list.
    pub fn look(&mut self, alloc: Global, at: usize, call: Call) -> Result<(), Stop> {
        let request = Request {
            call,
            who: 0,
            now: 0,
        };
        let verdict = self.call(alloc, at, &request)?;
        keep(&mut self.spots, &mut self.pairs, verdict)
    }

    /// A call at random.
    pub fn step(
        &mut self,
        alloc: Global,
        random: &mut Random,
        counts: &mut Counts,
        now: u32,
    ) -> Result<(), Stop> {
        let request = Request {
            call: draw(random),
            who: random.below(USERS),
            now,
        };
        if random.once_in(40) {
            return self.aside(alloc, random, &request, counts);
        }
        let at = choose(&self.spots, random, wants_directory(request.call));
        self.call_and_look(alloc, at, request, counts)?;
        self.forget(random, at, request.call);
        Ok(())
    }

    /// A call on the root of another view.
    fn aside(
        &mut self,
        alloc: Global,
        random: &mut Random,
        request: &Request,
        counts: &mut Counts,
    ) -> Result<(), Stop> {
        let spot = Spot::root(alloc, view(random));
        let verdict = ask(
            alloc,
            &mut self.files,
            &mut self.plain,
            &spot,
            &self.pairs,
            request,
        )?;
        counts.count(&verdict);
        keep(&mut self.spots, &mut self.pairs, verdict)
    }

    /// A file that may have been removed is mostly forgotten; it may be there still.
    fn forget(&mut self, random: &mut Random, at: usize, call: Call) {
        let Call::Remove = call else {
            return;
        };
        if 0 < at && at < self.spots.len() && !random.once_in(4) {
            let _ = self.spots.remove(at);
        }
    }

    /// Settles all, and where it is asked for writes the next file number. A device that fails is asked again.
    pub fn settle(&mut self, alloc: Global, ending: bool) -> Result<(), Stop> {
        for _ in 0..400 {
            if settle(alloc, &mut self.files, ending) {
                return Ok(());
            }
        }
        Err(Stop::Lost)
    }

    /// Both, where the power was cut and the files were opened again.
    pub fn reopen(self, alloc: Global, random: &mut Random) -> Result<Game, Stop> {
        let Game {
            files,
            plain,
            spots,
            pairs,
        } = self;
        match again(alloc, files, random)? {
            Some(files) => Ok(Game {
                files,
                plain,
                spots,
                pairs,
            }),
            None => Err(Stop::Lost),
        }
    }
}
