//! Conversations of several parts, and what they leave.
use crate::{calls, rows, shared};
use std::alloc::Global;
use test_replies::{Row, Server, Wrong, exchange, left};

/// What happens in a conversation.
#[derive(Clone, Copy)]
pub enum Part {
    /// Each message is replied to by the bytes beside it.
    Says(&'static [Row]),
    /// The least fid of session 0 is let go, and its end isn't refused; or there is none.
    LetsGo(bool),
}

/// What happens, and what is found by new sessions afterwards.
#[derive(Clone, Copy)]
pub struct Conversation {
    pub parts: &'static [Part],
    pub found: &'static [Row],
}

/// Each kind of request, with enough memory.
pub const AMPLE: Conversation = Conversation {
    parts: &[Part::Says(rows::BEGIN), Part::Says(rows::AMPLE)],
    found: left::NOTHING_AFTER_THREE,
};

/// Versions, trees and users of an attach; Tauth and Tflush.
pub const VERSIONS: Conversation = Conversation {
    parts: &[Part::Says(rows::VERSIONS)],
    found: left::NOTHING,
};

/// Directories, walks, and removals of directories.
pub const WALKS: Conversation = Conversation {
    parts: &[Part::Says(rows::BEGIN), Part::Says(rows::WALKS)],
    found: left::NOTHING_AFTER_TWO,
};

/// Writes of none, across a hole, and at the end of the largest file.
pub const WRITES: Conversation = Conversation {
    parts: &[Part::Says(rows::BEGIN), Part::Says(rows::WRITES)],
    found: left::LARGEST,
};

/// A directory read record by record.
pub const DIRECTORIES: Conversation = Conversation {
    parts: &[
        Part::Says(rows::BEGIN),
        Part::Says(rows::FILE),
        Part::Says(rows::AGAIN),
        Part::Says(rows::DIRECTORIES),
    ],
    found: left::HELLO,
};

/// Changes of a name and of a length.
pub const CHANGES: Conversation = Conversation {
    parts: &[
        Part::Says(rows::BEGIN),
        Part::Says(rows::FILE),
        Part::Says(rows::AGAIN),
        Part::Says(rows::CHANGES),
    ],
    found: left::RENAMED,
};

/// What `none` may open.
pub const RIGHTS: Conversation = Conversation {
    parts: &[
        Part::Says(rows::BEGIN),
        Part::Says(rows::FILE),
        Part::Says(rows::AGAIN),
        Part::Says(rows::RIGHTS),
    ],
    found: left::HELLO,
};

/// Truncation, files that are only appended to, and exclusive use.
pub const MODES: Conversation = Conversation {
    parts: &[
        Part::Says(rows::BEGIN),
        Part::Says(rows::FILE),
        Part::Says(rows::AGAIN),
        Part::Says(rows::MODES),
    ],
    found: left::THREE,
};

/// A table of users that is made in the tree changes what may be done.
pub const USERS: Conversation = Conversation {
    parts: &[
        Part::Says(rows::BEGIN),
        Part::Says(rows::FILE),
        Part::Says(rows::AGAIN),
        Part::Says(rows::USERS),
    ],
    found: left::TABLE,
};

/// A file that was made to be removed when it is clunked is gone after the session was dropped.
pub const DROPPED: Conversation = Conversation {
    parts: &[
        Part::Says(rows::BEGIN),
        Part::Says(rows::FILE),
        Part::Says(rows::AGAIN),
        Part::Says(rows::CLOSED),
        Part::LetsGo(true),
        Part::LetsGo(false),
        Part::Says(rows::AFTER),
    ],
    found: left::HELLO_ALONE,
};

/// Requests of two sessions, and an end, with enough memory.
pub const TWO_SESSIONS: Conversation = Conversation {
    parts: &[
        Part::Says(shared::MADE),
        Part::Says(shared::ATTACHED),
        Part::LetsGo(true),
    ],
    found: left::NOTHING_AFTER_TWO,
};

/// A file that session 0 made to be removed when it is clunked is found by session 1, until session 0 is dropped.
pub const FOUND_UNTIL: Conversation = Conversation {
    parts: &[
        Part::Says(shared::MADE),
        Part::Says(shared::ATTACHED),
        Part::Says(shared::FOUND),
        Part::LetsGo(true),
        Part::LetsGo(false),
        Part::Says(shared::GONE),
    ],
    found: left::NOTHING_AFTER_TWO,
};

/// A table of users that has `ken`, and `glenda` no more.
pub const KNOWN: Conversation = Conversation {
    parts: &[Part::Says(rows::BEGIN), Part::Says(calls::KNOWN)],
    found: left::KEN,
};

/// Users without a table.
pub const UNKNOWN: Conversation = Conversation {
    parts: &[Part::Says(rows::BEGIN), Part::Says(calls::UNKNOWN)],
    found: left::OF_NONE,
};

/// Two files are changed and removed.
pub const TWO_FILES: Conversation = Conversation {
    parts: &[Part::Says(rows::BEGIN), Part::Says(calls::TWO)],
    found: left::NOTHING_AFTER_FOUR,
};

/// The root, where the files were made at the moment 7.
pub const ROOT: Conversation = Conversation {
    parts: &[Part::Says(rows::BEGIN), Part::Says(calls::ROOT)],
    found: left::NOTHING,
};

/// The least fid of session 0 is let go, and its end isn't refused; or there is none.
fn let_go<S: Server>(server: &mut S, more: bool) -> Result<(), Wrong> {
    if server.drop_one(0) == (more, false) {
        Ok(())
    } else {
        Err(Wrong::LetGo)
    }
}

fn take_part<S: Server>(alloc: Global, server: &mut S, part: Part) -> Result<(), Wrong> {
    match part {
        Part::Says(rows) => exchange(alloc, server, rows),
        Part::LetsGo(more) => let_go(server, more),
    }
}

/// What happens in a conversation.
pub fn converse<S: Server>(alloc: Global, server: &mut S, parts: &[Part]) -> Result<(), Wrong> {
    for part in parts {
        take_part(alloc, server, *part)?;
    }
    Ok(())
}
