//! What takes turns.
use fo_turning::{Flushed, Unlinked};
use fo_world::FileError;
use nine_wire::{Reply, Request};

/// A server of sixteen sessions, to which events happen one at a time. A session is one of 0 to 15; a moment is in seconds since 1970-01-01
/// UTC.
pub trait Turner {
    ghost use Rattle.std.specs.Prelude.{◌≡◌, ◌<◌, ℕ, true, false, None, IfErr};
    ghost use Rattle.fo_world.specs.World.{Faults};
    ghost use Rattle.fo_world.specs.Answers.{NotFewer};
    ghost use Rattle.nine_wire.specs.Message.{RequestFits, ReplyFits};
    ghost use Rattle.nine_session.specs.Session.{AgreesWithin};
    ghost use Rattle.fo_events.specs.Row.{Goes, IsTurnFault};
    ghost use Rattle.fo_events.specs.declared.event.Event.TheVariants.{Asked, Drop, Flush, Unlink};
    ghost use Rattle.fo_events.specs.declared.event.Outcome.TheVariants.{Replied, LetGo, Flushed as FlushedIs, Unlinked as UnlinkedIs};

    /// How often each of its devices failed.
    ghost faults: { Self → Faults };

    /// How many fids a session has.
    ghost fids: { Self → ℕ → ℕ };

    /// Which outcomes an event may have, and the state that each leaves.
    ghost goes: { Goes Self };

    /// The reply of a session to a request. There is always one: want of memory is a refusal too.
    fn answer(&mut self, session: u8, now: u32, request: Request) -> Reply
        requires which { session < 16 }
        requires request { RequestFits request }
        ensures goes { goes self.old (Asked session now request) (Replied result) self.new }
        ensures fits { ReplyFits result }
        ensures small { AgreesWithin result }
        ensures later { NotFewer (faults self.old) (faults self.new) };

    /// Lets the least fid of a session go, as a Tclunk would, and says whether there was one, with the Rerror by which the Tclunk would be
    /// refused; with no fid the session's version is forgotten.
    fn drop_one(&mut self, session: u8, now: u32) -> (bool, Option<Reply>)
        requires which { session < 16 }
        ensures goes { goes self.old (Drop session now) (LetGo result.0 result.1) self.new }
        ensures fewer { result.0 ≡ true → fids self.new session < fids self.old session }
        ensures none { result.0 ≡ false → result.1 ≡ None }
        ensures later { NotFewer (faults self.old) (faults self.new) };

    /// One step of a settling.
    fn flush(&mut self) -> Result<Flushed, FileError>
        ensures goes { goes self.old Flush (FlushedIs result) self.new }
        ensures cause { IfErr result (IsTurnFault (faults self.old) (faults self.new)) }
        ensures later { NotFewer (faults self.old) (faults self.new) };

    /// One step of closing what left the tree; none where something is to be flushed.
    fn unlink(&mut self) -> Result<Unlinked, FileError>
        ensures goes { goes self.old Unlink (UnlinkedIs result) self.new }
        ensures cause { IfErr result (IsTurnFault (faults self.old) (faults self.new)) }
        ensures later { NotFewer (faults self.old) (faults self.new) };
}
