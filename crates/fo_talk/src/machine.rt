//! What answers messages.
ghost use Rattle.std.specs.Prelude.{◌≡◌, ℕ, ◌<◌, ◌≤◌, true, false, None};
ghost use Rattle.nine_wire.specs.Message.{RequestFits, ReplyFits};
ghost use Rattle.fo_world.specs.World.{Faults};
ghost use Rattle.fo_world.specs.Answers.{NotFewer};
ghost use Rattle.nine_wire.specs.Version.{largest_message};
ghost use Rattle.fo_talk.specs.Conversation.{Goes, Asked, Drop, Rest, Replied, LetGo, Rested, agreed_size};

use nine_wire::{Reply, Request};

/// A system that answers messages, and keeps fids for the client who sends them.
pub trait Machine {
    /// How often each of its devices failed.
    ghost faults: { Self → Faults };

    /// How many fids there are.
    ghost fids: { Self → ℕ };

    /// Which outcomes an event may have.
    ghost goes: { Goes Self };

    /// The reply to a request that comes at the moment `now` under this tag. There is always one:
    /// want of memory is a refusal too.
    fn answer(&mut self, now: u32, tag: u16, request: Request) -> Reply
        requires { RequestFits request }
        ensures goes { goes self.old (Asked now tag request) (Replied tag result) (faults self.old) (faults self.new) self.new }
        ensures fits { ReplyFits result }
        ensures small { agreed_size result ≤ largest_message }
        ensures later { NotFewer (faults self.old) (faults self.new) };

    /// Lets the least fid go at the moment `now`, as a Tclunk would, and says whether there was one,
    /// with the Rerror by which the Tclunk would be refused.
    fn drop_one(&mut self, now: u32) -> (bool, Option<Reply>)
        ensures goes { goes self.old (Drop now) (LetGo result.0 result.1) (faults self.old) (faults self.new) self.new }
        ensures fewer { result.0 ≡ true → fids self.new < fids self.old }
        ensures none { result.0 ≡ false → result.1 ≡ None }
        ensures later { NotFewer (faults self.old) (faults self.new) };

    /// What the machine does between two messages, once a reply was put out.
    fn rest(&mut self)
        ensures goes { goes self.old Rest Rested (faults self.old) (faults self.new) self.new }
        ensures later { NotFewer (faults self.old) (faults self.new) };
}
