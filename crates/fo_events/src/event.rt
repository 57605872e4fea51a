//! What happens to a server.
use fo_turning::{Flushed, Unlinked};
use fo_world::FileError;
use nine_wire::{Reply, Request};

/// What happens to a server. A session is one of 0 to 15; a moment is in seconds since 1970-01-01 UTC.
#[derive(Drop)]
pub enum Event {
    /// A client asks this.
    Asked {
        session: u8,
        now: u32,
        request: Request,
    },
    /// The least fid of a session is let go, as by a Tclunk; with no fid its version is forgotten.
    Drop {
        session: u8,
        now: u32,
    },
    /// One step of a settling.
    Flush,
    /// One step of closing what left the tree.
    Unlink,
}

/// What becomes of an event.
#[derive(Drop)]
pub enum Outcome {
    Replied(Reply),
    /// Whether there was a fid, and the Rerror by which the Tclunk would be refused.
    LetGo(bool, Option<Reply>),
    Flushed(Result<Flushed, FileError>),
    Unlinked(Result<Unlinked, FileError>),
}
