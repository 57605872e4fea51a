//! Turns of the system.
ghost use Rattle.std.specs.Prelude.{◌≡◌};
ghost use Rattle.fo_core.specs.Goes.{told_of};

use crate::moment::Stands;
use crate::state::State;
use fo_disk::Disk;
use fo_events::{Flushed, Turner, Unlinked, flush_turn, unlink_turn};
use fo_files::files_look::file_error;
use fo_ports::BlockError;
use fo_world::FileError;
use nine_wire::{Reply, Request};

// What is told of a turn.
fn told<T: Drop>(answer: Result<T, BlockError>) -> Result<T, FileError>
    ensures { result ≡ told_of answer }
{
    match answer {
        Ok(did) => Ok(did),
        Err(why) => Err(file_error(why)),
    }
}

impl<D: Disk, A: Disk> Turner for State<D, A> {
    ghost use Rattle.std.specs.Prelude.{length};
    ghost use Rattle.fo_sessions.specs.Sessions.{session_at};
    ghost use Rattle.fo_core.specs.Moment.{counts};
    ghost use Rattle.fo_core.specs.Goes.{Goes};

    ghost faults = { λ s. counts (⟦<State<D, A> as Stands>⟧.moment s) };

    ghost fids = { λ s session. length (session_at session (⟦<State<D, A> as Stands>⟧.moment s).sessions).fids };

    ghost goes = { λ s event outcome t. Goes (⟦<State<D, A> as Stands>⟧.moment s) event outcome (⟦<State<D, A> as Stands>⟧.moment t) };

    fn answer(&mut self, session: u8, now: u32, request: Request) -> Reply {
        self.sessions.answer(session, &mut self.files, now, request)
    }

    fn drop_one(&mut self, session: u8, now: u32) -> (bool, Option<Reply>) {
        self.sessions.drop_one(session, &mut self.files, now)
    }

    fn flush(&mut self) -> Result<Flushed, FileError> {
        told(flush_turn(&mut self.files.on.cache))
    }

    fn unlink(&mut self) -> Result<Unlinked, FileError> {
        told(unlink_turn(&mut self.files.on.cache))
    }
}
