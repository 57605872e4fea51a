//! A source and a sink over the readers and writers of the standard library.
ghost use Rattle.std.specs.Prelude.{◌≡◌, ◌^◌, ◌<◌, ◌≤◌, ◌-◌, ◌+◌, List, length, take, drop, ◌++◌, None, IfOk, OnErr, OnOk};
ghost use Rattle.std.specs.Io.{ReadsAtMost};
ghost use Rattle.std.specs.Io.KnownBytes.{ReadConsumes, WriteAppends};
ghost use Rattle.fo_links.specs.System.{WritesFront};

use crate::traits::{Failed, Sink, Source};
use std::io::{self, ErrorKind, Read, Write};

/// How many bytes a `ReadSource` can give.
const ROOM: u64 = 1 << 62;

/// The most bytes that a `ReadSource` gives in one call.
const PIECE: usize = 8192;

/// A source over a reader.
#[derive(Drop)]
pub struct ReadSource<R> {
    reader: R,
    room: u64,
    faults: u64,
    ghost small: { room ≤ 2 ^ 62 },
}

impl<R: Read> ReadSource<R> {
    /// A source that gives what the reader does, up to 2^62 bytes.
    pub fn new(reader: R) -> ReadSource<R>
        ensures reader { result.reader ≡ reader }
        ensures room { result.room ≡ 2 ^ 62 }
        ensures faults { result.faults ≡ 0 }
    {
        ReadSource {
            reader,
            room: ROOM,
            faults: 0,
        }
    }
}

impl<R: Read> Source for ReadSource<R> {
    ghost use Rattle.std.specs.Prelude.{None};
    ghost use Rattle.std.specs.Io.KnownBytes.{ReadConsumes};
    ghost use Rattle.std.proofs.Common.{rules};
    ghost use Rattle.fo_base.specs.Cause.{HasCause};
    ghost use Rattle.fo_links.specs.Links.{Taken, CountsFaults};

    ghost left = { λ s. None };

    ghost given = { λ s. None };

    ghost room = { λ s. s.room };

    ghost faults = { λ s. s.faults };

    ghost room_is_small = { λ s. let small = s.small in Prim.search rules };

    ghost room_is_left = { λ s. tt };

    /// A piece without room is given no byte at once. Where the room is spent the call fails.
    fn take(&mut self, into: &mut [u8]) -> Result<usize, Failed>
        ensures taken { Taken None None None None self.old.room self.new.room into.old into.new result }
        ensures cause { HasCause self.old.faults self.new.faults result }
        ensures counts { CountsFaults self.old.faults self.new.faults result }
        ensures spent { OnOk result (0 < length into.old → 0 < self.old.room) }
        ensures empty { OnErr result (0 < length into.old) }
        ensures reads { ReadConsumes (R.remaining self.old.reader) (R.remaining self.new.reader) result into.new }
    {
        if into.is_empty() {
            return Ok(0);
        }
        match read_within(&mut self.reader, self.room, into) {
            Ok(count) => {
                self.room -= count as u64;
                Ok(count)
            }
            Err(failed) => {
                self.faults = self.faults.saturating_add(1);
                Err(failed)
            }
        }
    }
}

/// Moves what one read gives to the front of the piece, within this room. The read goes to a place of
/// its own first, since a reader may write behind what it gives, or though it fails.
fn read_within<R: Read>(reader: &mut R, room: u64, into: &mut [u8]) -> Result<usize, Failed>
    requires { 0 < length into.old }
    ensures bound { IfOk result (λ n. (n ≤ room) × (n ≤ length into.old)) }
    ensures behind { IfOk result (λ n. drop n into.new ≡ drop n into.old) }
    ensures failed { OnErr result (into.new ≡ into.old) }
    ensures reads { ReadConsumes (R.remaining reader.old) (R.remaining reader.new) result into.new }
    ensures spent { OnOk result (0 < room) }
{
    if room == 0 {
        return Err(Failed);
    }
    let mut piece = [0; PIECE];
    let most = PIECE
        .min(into.len())
        .min(usize::try_from(room).unwrap_or(PIECE));
    let count = read(reader, &mut piece[..most]).map_err(|_| Failed)?;
    into[..count].copy_from_slice(&piece[..count]);
    Ok(count)
}

/// One read, again where a signal interrupts it.
fn read<R: Read>(reader: &mut R, into: &mut [u8]) -> io::Result<usize>
    ensures bound { ReadsAtMost result into.new }
    ensures reads { ReadConsumes (R.remaining reader.old) (R.remaining reader.new) result into.new }
{
    for _ in 0..u64::MAX {
        match reader.read(into) {
            Ok(count) => return Ok(count),
            Err(e) => {
                if e.kind() != ErrorKind::Interrupted {
                    return Err(e);
                }
            }
        }
    }
    Err(io::Error::from(ErrorKind::TimedOut))
}

/// A sink over a writer.
#[derive(Drop)]
pub struct WriteSink<W> {
    writer: W,
    faults: u64,
}

impl<W: Write> WriteSink<W> {
    /// A sink that writes to this writer.
    pub fn new(writer: W) -> WriteSink<W>
        ensures writer { result.writer ≡ writer }
        ensures faults { result.faults ≡ 0 }
    {
        WriteSink { writer, faults: 0 }
    }
}

impl<W: Write> Sink for WriteSink<W> {
    ghost use Rattle.std.specs.Prelude.{None};
    ghost use Rattle.fo_base.specs.Cause.{HasCause};
    ghost use Rattle.fo_links.specs.Links.{Put, CountsFaults};
    ghost use Rattle.fo_links.specs.System.{WritesFront};

    ghost held = { λ s. None };

    ghost faults = { λ s. s.faults };

    fn put(&mut self, bytes: &[u8]) -> Result<(), Failed>
        ensures put { Put None None bytes.now result }
        ensures cause { HasCause self.old.faults self.new.faults result }
        ensures counts { CountsFaults self.old.faults self.new.faults result }
        ensures writes { WritesFront (W.contents self.old.writer) (W.contents self.new.writer) bytes.now result }
    {
        match write_whole(&mut self.writer, bytes) {
            Ok(()) => Ok(()),
            Err(failed) => {
                self.faults = self.faults.saturating_add(1);
                Err(failed)
            }
        }
    }
}

/// Writes the whole piece, and flushes.
fn write_whole<W: Write>(writer: &mut W, bytes: &[u8]) -> Result<(), Failed>
    ensures { WritesFront (W.contents writer.old) (W.contents writer.new) bytes.now result }
{
    let mut at = 0;
    while at < bytes.len() {
        at += write_some(writer, &bytes[at..])?;
    }
    match writer.flush() {
        Ok(()) => Ok(()),
        Err(_) => Err(Failed),
    }
}

/// One write of at least one byte, again where a signal interrupts it.
fn write_some<W: Write>(writer: &mut W, bytes: &[u8]) -> Result<usize, Failed>
    ensures bound { IfOk result (λ n. (0 < n) × (n ≤ length bytes.now)) }
    ensures writes { WriteAppends (W.contents writer.old) (W.contents writer.new) result bytes.now }
{
    for _ in 0..u64::MAX {
        match writer.write(bytes) {
            Ok(0) => return Err(Failed),
            Ok(count) => return Ok(count),
            Err(e) => {
                if e.kind() != ErrorKind::Interrupted {
                    return Err(Failed);
                }
            }
        }
    }
    Err(Failed)
}
