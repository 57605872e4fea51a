//! The system over disks in memory, as what answers two sessions.
ghost use Rattle.std.specs.Prelude.{◌<◌};

use crate::disks::{Disks, quiet};
use fo_base::Memory;
use fo_core::{Event, Finished, Flushed, Outcome, State, Unlinked};
use fo_disk::MemDisk;
use nine_wire::{Reply, Request};
use std::alloc::Global;
use test_conversations::{Part, Settling, converse};
use test_replies::{Server, Wrong};

/// Why something went otherwise over disks.
#[derive(Debug, Drop, PartialEq, Eq)]
pub enum Failure {
    Memory,
    Format,
    Open,
    /// A turn failed, or there was no end of turns.
    Turn,
    Talk(Wrong),
    /// The end failed.
    End,
    /// A block of the main device has more than one version.
    Versions,
    /// The check refuses the image.
    Check,
    /// The image has so many used and so many leaked blocks.
    Blocks(u32, u32),
}

impl From<Memory> for Failure {
    fn from(_: Memory) -> Failure {
        Failure::Memory
    }
}

/// What a turn came to.
#[derive(Clone, Copy, PartialEq, Eq)]
enum Did {
    Something,
    Nothing,
    Failed,
}

/// What a flushing or an unlinking turn came to.
fn came_to(outcome: Outcome) -> Did {
    match outcome {
        Outcome::Flushed(Ok(Flushed::Idle)) | Outcome::Unlinked(Ok(Unlinked::Empty)) => {
            Did::Nothing
        }
        Outcome::Flushed(Ok(_)) | Outcome::Unlinked(Ok(_)) => Did::Something,
        _ => Did::Failed,
    }
}

/// When turns are taken.
#[derive(Clone, Copy, PartialEq, Eq)]
pub enum Turns {
    Never,
    /// Behind each reply at most four flushing turns and one unlinking turn, and at the end all that are left.
    Between,
}

/// The system over two disks in memory.
#[derive(Drop)]
pub struct Stored {
    pub state: State<MemDisk, MemDisk>,
    turns: Turns,
    failed: bool,
}

impl Stored {
    /// The system on these disks.
    pub fn open(alloc: Global, disks: Disks, turns: Turns) -> Result<Stored, Failure> {
        let Disks { main, arena } = disks;
        match State::open(alloc, main, arena) {
            Ok(state) => Ok(Stored {
                state,
                turns,
                failed: false,
            }),
            Err(_) => Err(Failure::Open),
        }
    }

    /// A flushing turn.
    fn flush(&mut self) -> Did {
        let did = came_to(self.state.turn(Event::Flush));
        self.failed = self.failed || did == Did::Failed;
        did
    }

    /// An unlinking turn.
    fn unlink(&mut self) -> Did {
        let did = came_to(self.state.turn(Event::Unlink));
        self.failed = self.failed || did == Did::Failed;
        did
    }

    /// At most four flushing turns, and one unlinking turn.
    fn rest(&mut self) {
        for _ in 0..4 {
            if self.flush() != Did::Something {
                break;
            }
        }
        self.unlink();
    }

    /// A turn, and whether there may be more.
    fn step(&mut self) -> bool {
        match self.flush() {
            Did::Something => true,
            Did::Nothing => self.unlink() == Did::Something,
            Did::Failed => false,
        }
    }

    /// All turns that are left.
    fn rest_wholly(&mut self) {
        for _ in 0..1000 {
            if !self.step() {
                return;
            }
        }
        self.failed = true;
    }

    /// Takes the turns that are taken behind a reply.
    fn rest_between(&mut self) {
        if self.turns == Turns::Between {
            self.rest();
        }
    }

    /// Ends the system, and gives the disks back.
    pub fn finish(self) -> Result<Disks, Failure> {
        let Stored { state, failed, .. } = self;
        let Finished {
            failed: ended,
            main,
            arena,
        } = state.finish();
        if failed {
            return Err(Failure::Turn);
        }
        if ended.is_some() {
            return Err(Failure::End);
        }
        quiet(main, arena)
    }

    /// The disks as they are, with no end.
    pub fn close(self) -> Result<Disks, Failure> {
        let Stored { state, .. } = self;
        let (main, arena) = state.close();
        quiet(main, arena)
    }
}

impl Server for Stored {
    fn answer(&mut self, session: u8, request: Request) -> Reply {
        let outcome = self.state.turn(Event::Asked {
            session,
            now: 0,
            request,
        });
        let reply = match outcome {
            Outcome::Replied(reply) => reply,
            _ => Reply::Flush,
        };
        self.rest_between();
        reply
    }

    fn drop_one(&mut self, session: u8) -> (bool, bool) {
        let dropped = match self.state.turn(Event::Drop { session, now: 0 }) {
            Outcome::LetGo(more, refused) => (more, refused.is_some()),
            _ => (false, true),
        };
        self.rest_between();
        dropped
    }
}

impl Settling for Stored {
    fn is_settled(&mut self) -> bool {
        self.flush() == Did::Nothing
    }
}

/// These disks, where all was said as it stands.
pub fn where_said(
    said: Result<(), Wrong>,
    disks: Result<Disks, Failure>,
) -> Result<Disks, Failure> {
    match said {
        Ok(()) => disks,
        Err(wrong) => Err(Failure::Talk(wrong)),
    }
}

/// The disks after a conversation with the system on these.
pub fn held(alloc: Global, disks: Disks, turns: Turns, parts: &[Part]) -> Result<Disks, Failure> {
    let mut stored = Stored::open(alloc, disks, turns)?;
    let said = converse(alloc, &mut stored, parts);
    if turns == Turns::Between {
        stored.rest_wholly();
    }
    where_said(said, stored.finish())
}
