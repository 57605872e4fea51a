//! Conversations of two sessions over plain files.
use fo_plain::PlainFiles;
use fo_sessions::Sessions;
use nine_wire::{Reply, Request};
use std::alloc::{AllocError, Global};
use std::test::Fail;
use test_conversations::conversations::{FOUND_UNTIL, TWO_SESSIONS};
use test_conversations::{Conversation, converse};
use test_replies::{Server, Wrong, exchange};

/// Sessions over the same plain files.
#[derive(Drop)]
struct Served {
    files: PlainFiles,
    sessions: Sessions,
}

impl Served {
    fn new(alloc: Global) -> Result<Served, AllocError> {
        Ok(Served {
            files: PlainFiles::new(alloc, 0)?,
            sessions: Sessions::new(alloc),
        })
    }
}

impl Server for Served {
    fn answer(&mut self, session: u8, request: Request) -> Reply {
        self.sessions.answer(session, &mut self.files, 0, request)
    }

    fn drop_one(&mut self, session: u8) -> (bool, bool) {
        let (dropped, refused) = self.sessions.drop_one(session, &mut self.files, 0);
        (dropped, refused.is_some())
    }
}

/// A conversation is held, and what it left is found by new sessions.
fn holds(alloc: Global, conversation: &Conversation) -> Result<(), Wrong> {
    let mut served = Served::new(alloc)?;
    converse(alloc, &mut served, conversation.parts)?;
    exchange(alloc, &mut served, conversation.found)
}

/// Requests of both sessions, and an end, with enough memory.
#[test]
fn ample(rt: HostRuntime) -> Result<(), Fail> {
    holds(rt.alloc(), &TWO_SESSIONS)?;
    Ok(())
}

/// A file that session 0 made to be removed when it is clunked is found by session 1, until session 0 is dropped.
#[test]
fn dropped(rt: HostRuntime) -> Result<(), Fail> {
    holds(rt.alloc(), &FOUND_UNTIL)?;
    Ok(())
}
