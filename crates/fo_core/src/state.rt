//! The system.
ghost use Rattle.std.specs.Prelude.{◌≡◌};
ghost use Rattle.fo_core.specs.Ended.{failure_of};

use crate::moment::Stands;
use fo_base::Memory;
use fo_buffers::Block;
use fo_disk::Disk;
use fo_ending::end;
use fo_events::{Event, Outcome, Turner, usable};
use fo_files::Files;
use fo_files::files_look::file_error;
use fo_ports::BlockError;
use fo_sessions::Sessions;
use fo_starting::devices::Devices;
use fo_starting::{Unopened, open_devices};
use fo_world::FileError;
use std::alloc::Global;

/// Two blocks of memory in which the end spells the super block.
#[derive(Drop)]
struct Spares {
    first: Block,
    second: Block,
}

impl Spares {
    fn new(alloc: Global) -> Result<Spares, Memory> {
        let first = Block::new(alloc)?;
        let second = Block::new(alloc)?;
        Ok(Spares { first, second })
    }
}

/// The sessions of all clients over files, and what the end needs of memory.
#[derive(Drop)]
pub struct System<F> {
    pub(crate) sessions: Sessions,
    pub(crate) files: F,
    spares: Spares,
}

/// The system over two devices that are open.
pub type State<D, A> = System<Files<Devices<D, A>>>;

/// Both devices after an end, and why that failed, if it did.
#[derive(Drop)]
pub struct Finished<D, A> {
    pub failed: Option<FileError>,
    pub main: D,
    pub arena: A,
}

// Why an end failed, if it did.
fn failure(answer: Result<(), BlockError>) -> Option<FileError>
    ensures { result ≡ failure_of answer }
{
    match answer {
        Ok(()) => None,
        Err(why) => Some(file_error(why)),
    }
}

impl<D: Disk, A: Disk> State<D, A> {
    ghost use Rattle.std.specs.Prelude.{◌≡◌, ◌+◌, ◌≤◌, ◌<◌, ℕ, List, length, IfOk, IfErr, MatchResult};
    ghost use Rattle.fo_disk.specs.Disk.{Block, IsSettled};
    ghost use Rattle.fo_sound.specs.Device.{Shows};
    ghost use Rattle.fo_ports.specs.State.{IsClosing};
    ghost use Rattle.fo_ending.specs.of_cache.Work.{AtMost, calls_left};
    ghost use Rattle.fo_check.specs.Answer.{Blames, IsOutside};
    ghost use Rattle.fo_starting.specs.of_check_image.Answer.{Reports, Refuses};
    ghost use Rattle.fo_starting.specs.of_check_image.declared.report.Report.{Report};
    ghost use Rattle.fo_events.specs.Row.{MayHappen};
    ghost use Rattle.fo_core.specs.Moment.{Moment, blocks, cache, counts};
    ghost use Rattle.fo_core.specs.Opened.{IsOpened};
    ghost use Rattle.fo_core.specs.Goes.{Goes};
    ghost use Rattle.fo_core.specs.Ended.{Gives};

    /// Checks two devices, and opens them. A refusal gives both back, and nothing is written. The first of these is answered: `Size` of main
    /// and then of the arena; rule 1; `NotArena`; `NotBuilt` for an arena in which something is used; rule 2; `NotBuilt` for a root before
    /// the active one or for archives; the lowest rule that is broken. A fault or want of memory comes where it is met.
    pub fn open(alloc: Global, main: D, arena: A) -> Result<State<D, A>, Unopened<D, A>>
        requires quiet { (b : ℕ) → b < length (D.state main).holds → IsSettled (D.state main).holds b }
        ensures opened { IfOk result (λ s. IsOpened (D.state main) (A.state arena) (⟦<State<D, A> as Stands>⟧.moment s)) }

        // Over quiet devices that tell: what is opened is sound, and a refusal says why it isn't, or is a fault or want of memory.
        ensures answer { (image vault : List Block) → Shows (D.state main).holds image → Shows (A.state arena).holds vault
            → MatchResult result (λ _. (report : Report) × Reports image vault report) (λ r. Refuses image vault r.why) }
        ensures only { (image vault : List Block) (report : Report) → Shows (D.state main).holds image → Shows (A.state arena).holds vault
            → Reports image vault report → IfErr result (λ r. IsOutside r.why) }

        ensures kept { IfErr result (λ r. (D.state r.main ≡ D.state main) × (A.state r.arena ≡ A.state arena)) }
        ensures later { MatchResult result (λ s. (D.faults main ≤ (counts (⟦<State<D, A> as Stands>⟧.moment s)).main) × (A.faults arena ≤ (counts (⟦<State<D, A> as Stands>⟧.moment s)).arena))
            (λ r. (D.faults main ≤ D.faults r.main) × (A.faults arena ≤ A.faults r.arena)) }
        ensures cause { IfErr result (λ r. Blames (D.faults main) (D.faults r.main) (A.faults arena) (A.faults r.arena) r.why) }
    {
        let Ok(spares) = Spares::new(alloc) else {
            return Err(Unopened::wanting(main, arena));
        };
        match open_devices(alloc, main, arena) {
            Ok(devices) => Ok(System {
                sessions: Sessions::new(alloc),
                files: Files::new(alloc, devices, false),
                spares,
            }),
            Err(refused) => Err(refused),
        }
    }

    /// What becomes of an event. Every event is answered: a device's fault and want of memory are outcomes.
    pub fn turn(&mut self, event: Event) -> Outcome
        requires may { MayHappen event }
        ensures goes { Goes (⟦<State<D, A> as Stands>⟧.moment self.old) event result (⟦<State<D, A> as Stands>⟧.moment self.new) }
    {
        match event {
            Event::Asked {
                session,
                now,
                request,
            } => Outcome::Replied(self.answer(session, now, request)),
            Event::Drop { session, now } => {
                let (more, reply) = self.drop_one(session, now);
                Outcome::LetGo(more, reply)
            }
            Event::Flush => Outcome::Flushed(self.flush()),
            Event::Unlink => Outcome::Unlinked(self.unlink()),
        }
    }

    /// How many blocks may be given out.
    pub fn usable(&self) -> u32
        ensures { result ≡ (blocks (⟦<State<D, A> as Stands>⟧.moment self.now)).usable }
    {
        usable(&self.files.on.cache)
    }

    /// Ends the system: settles all, writes the next file number, closes what was removed, and gives both devices back. It takes time in what
    /// is queued to be closed. Where it fails, what was settled until then stays so. Where nothing may be closed, the main device is called at
    /// most twice for each dirty block, and five times beside that (`calls_left` of `fo_cache`).
    pub fn finish(self) -> Finished<D, A>
        ensures gives { Gives (⟦<State<D, A> as Stands>⟧.moment self) result.failed (D.size result.main) (D.state result.main) (D.faults result.main) (A.state result.arena) (A.faults result.arena) }
        ensures calls { (IsClosing (blocks (⟦<State<D, A> as Stands>⟧.moment self)) → ⊥) → AtMost (calls_left (cache (⟦<State<D, A> as Stands>⟧.moment self)) + 2) (D.calls self.files.on.cache.main) (D.calls result.main) }
        ensures arena { result.arena ≡ self.files.on.arena.device }
    {
        let System { files, spares, .. } = self;
        let Spares { first, second } = spares;
        let mut devices = files.into_blocks();
        let failed = failure(end(&mut devices.cache, first, second));
        let (main, arena) = devices.close();
        Finished {
            failed,
            main,
            arena,
        }
    }

    /// Both devices as they are. What isn't settled may be lost.
    pub fn close(self) -> (D, A)
        ensures main { result.0 ≡ self.files.on.cache.main }
        ensures arena { result.1 ≡ self.files.on.arena.device }
    {
        self.files.into_blocks().close()
    }
}
