//! Conversations with two sessions over plain files, by bytes written out from the manual.
mod watched;

use fo_plain::PlainFiles;
use nine_session::Session;
use nine_wire::{Reply, Request};
use std::alloc::{AllocError, Global};
use std::test::Fail;
use test_conversations::conversations::{
    AMPLE, CHANGES, DIRECTORIES, DROPPED, KNOWN, MODES, RIGHTS, ROOT, TWO_FILES, UNKNOWN, USERS,
    VERSIONS, WALKS, WRITES,
};
use test_conversations::{Conversation, MARKS, Settling, converse, settles};
use test_replies::{Server, Wrong, exchange};
use watched::Watched;

/// Two sessions over the same plain files.
#[derive(Drop)]
struct Served {
    files: PlainFiles,
    exclusive: Vec<u32>,
    first: Session,
    second: Session,
}

impl Served {
    /// Files that are made at this moment.
    fn new(alloc: Global, made: u32) -> Result<Served, AllocError> {
        Ok(Served {
            files: PlainFiles::new(alloc, made)?,
            exclusive: Vec::new(alloc),
            first: Session::new(alloc),
            second: Session::new(alloc),
        })
    }
}

impl Server for Served {
    fn answer(&mut self, session: u8, request: Request) -> Reply {
        if session == 0 {
            return self
                .first
                .answer(&mut self.files, &mut self.exclusive, 0, request);
        }
        self.second
            .answer(&mut self.files, &mut self.exclusive, 0, request)
    }

    fn drop_one(&mut self, session: u8) -> (bool, bool) {
        let (dropped, refused) = if session == 0 {
            self.first.drop_one(&mut self.files, &mut self.exclusive, 0)
        } else {
            self.second
                .drop_one(&mut self.files, &mut self.exclusive, 0)
        };
        (dropped, refused.is_some())
    }
}

/// A conversation is held, and what it left is found by new sessions, over files that are made at this moment.
fn holds(alloc: Global, made: u32, conversation: &Conversation) -> Result<(), Wrong> {
    let mut served = Served::new(alloc, made)?;
    converse(alloc, &mut served, conversation.parts)?;
    exchange(alloc, &mut served, conversation.found)
}

/// Each kind of request, with enough memory.
#[test]
fn ample(rt: HostRuntime) -> Result<(), Fail> {
    holds(rt.alloc(), 0, &AMPLE)?;
    Ok(())
}

#[test]
fn versions(rt: HostRuntime) -> Result<(), Fail> {
    holds(rt.alloc(), 0, &VERSIONS)?;
    Ok(())
}

#[test]
fn walks(rt: HostRuntime) -> Result<(), Fail> {
    holds(rt.alloc(), 0, &WALKS)?;
    Ok(())
}

#[test]
fn writes(rt: HostRuntime) -> Result<(), Fail> {
    holds(rt.alloc(), 0, &WRITES)?;
    Ok(())
}

#[test]
fn files(rt: HostRuntime) -> Result<(), Fail> {
    for conversation in [DIRECTORIES, CHANGES, RIGHTS, MODES, USERS] {
        holds(rt.alloc(), 0, &conversation)?;
    }
    Ok(())
}

/// What is asked of files by the calls below sessions.
#[test]
fn calls(rt: HostRuntime) -> Result<(), Fail> {
    holds(rt.alloc(), 7, &ROOT)?;
    for conversation in [KNOWN, UNKNOWN, TWO_FILES] {
        holds(rt.alloc(), 0, &conversation)?;
    }
    Ok(())
}

/// A file that was made to be removed when it is clunked is gone after the session was dropped.
#[test]
fn dropped(rt: HostRuntime) -> Result<(), Fail> {
    holds(rt.alloc(), 0, &DROPPED)?;
    Ok(())
}

/// A session over files that tell whether all is settled.
#[derive(Drop)]
struct WatchedSession {
    files: Watched,
    exclusive: Vec<u32>,
    session: Session,
}

impl Server for WatchedSession {
    fn answer(&mut self, _session: u8, request: Request) -> Reply {
        self.session
            .answer(&mut self.files, &mut self.exclusive, 0, request)
    }

    fn drop_one(&mut self, _session: u8) -> (bool, bool) {
        let (dropped, refused) = self
            .session
            .drop_one(&mut self.files, &mut self.exclusive, 0);
        (dropped, refused.is_some())
    }
}

impl Settling for WatchedSession {
    fn is_settled(&mut self) -> bool {
        !self.files.unsettled
    }
}

/// What was changed is unsettled until a Twstat that touches nothing is answered.
#[test]
fn settled(rt: HostRuntime) -> Result<(), Fail> {
    let mut watched = WatchedSession {
        files: Watched::new(rt.alloc())?,
        exclusive: Vec::new(rt.alloc()),
        session: Session::new(rt.alloc()),
    };
    settles(rt.alloc(), &mut watched, MARKS)?;
    Ok(())
}
