//! What is said of the system at a moment.
use crate::state::State;
use fo_disk::Disk;

/// What contracts say of a system, in one record.
pub trait Stands {
    ghost use Rattle.fo_core.specs.Moment.{Moment};

    ghost moment: { Self → Moment };
}

impl<D: Disk, A: Disk> Stands for State<D, A> {
    ghost use Rattle.fo_ending.specs.of_mind.MindParts.{parts};
    ghost use Rattle.fo_starting.specs.of_devices.Seen.{seen};

    ghost moment = { λ s. record {
      sessions = s.sessions;
      seen = seen (parts s.files.on.cache.mind (D.state s.files.on.cache.main).holds (D.faults s.files.on.cache.main)) (D.size s.files.on.cache.main) s.files.on.arena.shelf (A.state s.files.on.arena.device) (A.faults s.files.on.arena.device);
      main = D.state s.files.on.cache.main;
      calls = D.calls s.files.on.cache.main;
      halted = s.files.halted;
    } };
}
