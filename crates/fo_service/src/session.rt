//! One session of a turner.
ghost use Rattle.std.specs.Prelude.{◌≡◌, ◌<◌};
ghost use Rattle.fo_service.specs.Service.{Serves};

use crate::turns::rest_through;
use fo_events::Turner;
use fo_talk::Machine;
use nine_wire::{Reply, Request};

/// One of a turner's sixteen sessions, with the turner.
#[derive(Drop)]
pub struct OneSession<T: Turner> {
    turner: T,
    session: u8,
    ghost which: { session < 16 },
}

impl<T: Turner> OneSession<T> {
    /// This session of this turner.
    pub fn new(turner: T, session: u8) -> OneSession<T>
        requires { session < 16 }
        ensures turner { result.turner ≡ turner }
        ensures session { result.session ≡ session }
    {
        OneSession { turner, session }
    }

    /// The turner, as it stands.
    pub fn into_turner(self) -> T
        ensures { result ≡ self.turner }
    {
        let OneSession { turner, .. } = self;
        turner
    }
}

impl<T: Turner> Machine for OneSession<T> {
    ghost faults = { λ s. T.faults s.turner };

    ghost fids = { λ s. T.fids s.turner s.session };

    ghost goes = { λ from event outcome before after to. Serves T.faults T.goes from.session from.turner event outcome before after to.session to.turner };

    fn answer(&mut self, now: u32, _tag: u16, request: Request) -> Reply {
        self.turner.answer(self.session, now, request)
    }

    fn drop_one(&mut self, now: u32) -> (bool, Option<Reply>) {
        self.turner.drop_one(self.session, now)
    }

    fn rest(&mut self) {
        rest_through(&mut self.turner);
    }
}
