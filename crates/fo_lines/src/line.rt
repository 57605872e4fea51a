//! What a line asks for.
use fo_base::Bytes;

/// A line of a script.
#[derive(Debug, Drop)]
pub enum Line {
    /// The moment of what follows, in seconds since 1970-01-01 UTC.
    Moment(u32),
    /// Bytes that a session is sent.
    Message { session: u8, bytes: Bytes },
    /// All fids of a session go.
    Drops(u8),
    /// A line of the console.
    Console(Bytes),
    /// One flush turn.
    Flush,
    /// One unlink turn.
    Unlink,
    /// One archive turn.
    Archive,
    /// Flush and unlink turns until nothing is left.
    FlushAll,
    /// Archive turns until nothing is left.
    ArchiveAll,
}
