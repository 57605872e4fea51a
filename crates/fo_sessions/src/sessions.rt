//! Sessions by number.
use fo_world::FileOps;
use nine_fids::Stated;
use nine_session::Session;
use nine_wire::{Reply, Request};
use std::alloc::Global;
use std::array;
use std::marker::Model;

/// How many sessions there are.
pub const SESSIONS: u8 = 16;

/// The sessions over one tree of files, by their numbers from 0 to 15, and the numbers of the files that any of them has open for
/// exclusive use.
#[derive(Drop)]
pub struct Sessions {
    sessions: [Session; 16],
    exclusive: Vec<u32>,
}

impl Model for Sessions {
    ghost use Rattle.fo_sessions.specs.Sessions.{All};

    ghost Value = { All };

    ghost view = { λ s. record { sessions = s.sessions; exclusive = s.exclusive.items } };
}

impl Sessions {
    ghost use Rattle.std.specs.Prelude.{◌≡◌, ◌<◌, ℕ, IsTrue};
    ghost use Rattle.nine_wire.specs.Message.{RequestFits, ReplyFits};
    ghost use Rattle.nine_wire.specs.declared.message.Reply.TheVariants as reply;
    ghost use Rattle.nine_fids.specs.Fids as nine;
    ghost use Rattle.nine_session.specs.Session.{AsksSync, Serves, SettlesOnce, Drops, AgreesWithin};
    ghost use Rattle.fo_sessions.specs.Sessions.{no_sessions, session_at, kept_at, OthersStay};

    /// Sessions before any message.
    pub fn new(alloc: Global) -> Sessions
        ensures { result ≡ no_sessions }
    {
        Sessions {
            sessions: array::from_fn(|_| Session::new(alloc)),
            exclusive: Vec::new(alloc),
        }
    }

    /// The reply of session `number` to a request that comes at the moment `now` (seconds since 1970-01-01 UTC).
    pub fn answer<F: FileOps>(
        &mut self,
        number: u8,
        files: &mut F,
        now: u32,
        request: Request,
    ) -> Reply
        requires which { number < 16 }
        requires whole { IsTrue (F.whole files.old) }
        requires request { RequestFits request }

        // What one session answers, over the list that all share.
        ensures serves { Serves (⟦<F as Stated>⟧.state files.old) (⟦<F as Stated>⟧.state files.new) (λ w b. F.touches files.old w b files.new)
            (kept_at number self.old) now request result (kept_at number self.new) }
        ensures others { OthersStay number self.old self.new }

        // The reply has a spelling, and agrees to no more than the largest message size.
        ensures fits { ReplyFits result }
        ensures size { AgreesWithin result }

        // Once a Twstat that touches nothing is answered Rwstat, all that was changed is settled. It looks, and settles once.
        ensures settled { AsksSync request → result ≡ reply.Wstat → F.settled files.new }
        ensures settles { AsksSync request → SettlesOnce F.looks F.settles files.old files.new }
    {
        self.sessions[usize::from(number)].answer(files, &mut self.exclusive, now, request)
    }

    /// Lets the least fid of session `number` go, as a Tclunk would, and says whether there was one; with no fid its version is forgotten.
    /// The reply is the Rerror by which Tclunk would be refused.
    pub fn drop_one<F: FileOps>(
        &mut self,
        number: u8,
        files: &mut F,
        now: u32,
    ) -> (bool, Option<Reply>)
        requires which { number < 16 }
        requires whole { IsTrue (F.whole files.old) }
        ensures drops { Drops (⟦<F as Stated>⟧.state files.old) (⟦<F as Stated>⟧.state files.new) (λ w b. F.touches files.old w b files.new)
            (kept_at number self.old) now (nine.least (session_at number self.old).fids) result.0 result.1 (kept_at number self.new) }
        ensures others { OthersStay number self.old self.new }
    {
        self.sessions[usize::from(number)].drop_one(files, &mut self.exclusive, now)
    }
}
