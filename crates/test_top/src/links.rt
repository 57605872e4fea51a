//! Streams and clocks.

use fo_links::{
    Clock, Failed, MemClock, MemSink, ReadSource, Sink, Source, SystemClock, WriteSink,
};
use std::io::{self, ErrorKind, Read, Write};
use std::test::Fail;
use std::time::{self, Duration};

#[test]
fn ample(rt: HostRuntime) -> Result<(), Fail> {
    let mut sink = MemSink::new(Vec::new(rt.alloc()));
    assert_eq!(rt; sink.bytes(), b"".as_slice());
    assert_eq!(rt; sink.put(b"one"), Ok(()));
    assert_eq!(rt; sink.put(b""), Ok(()));
    assert_eq!(rt; sink.put(b" two"), Ok(()));
    assert_eq!(rt; sink.bytes(), b"one two".as_slice());
    Ok(())
}

#[test]
fn a_failing_sink_puts_a_front(rt: HostRuntime) -> Result<(), Fail> {
    let mut sink = MemSink::new(Vec::from_slice(rt.alloc(), &[1])?);
    assert_eq!(rt; sink.put(b"abcd"), Ok(()));
    assert_eq!(rt; sink.put(b"efgh"), Err(Failed));
    assert_eq!(rt; sink.bytes(), b"abcdef".as_slice());
    assert_eq!(rt; sink.put(b"ij"), Ok(()));
    assert_eq!(rt; sink.bytes(), b"abcdefij".as_slice());
    Ok(())
}

// Gives a byte a call, and marks what lies behind it. Call 1 is interrupted, call 3 fails, and from
// call 5 on it is at its end.
#[derive(Drop)]
struct ShortReader {
    calls: u8,
}

impl Read for ShortReader {
    fn read(&mut self, buf: &mut [u8]) -> io::Result<usize> {
        let call = self.calls;
        self.calls = call.saturating_add(1);
        buf.fill(b'!');
        let Some(first) = buf.first_mut() else {
            return Ok(0);
        };
        match call {
            1 => Err(io::Error::from(ErrorKind::Interrupted)),
            3 => Err(io::Error::from(ErrorKind::ConnectionReset)),
            0..5 => {
                *first = b'a' + call;
                Ok(1)
            }
            _ => Ok(0),
        }
    }
}

#[test]
fn a_reader_is_a_source(rt: HostRuntime) -> Result<(), Fail> {
    let mut source = ReadSource::new(b"glenda".as_slice());
    let mut piece = *b"....";
    assert_eq!(rt; source.take(&mut []), Ok(0));
    assert_eq!(rt; source.take(&mut piece), Ok(4));
    assert_eq!(rt; piece, *b"glen");
    assert_eq!(rt; source.take(&mut piece), Ok(2));
    assert_eq!(rt; piece, *b"daen");
    assert_eq!(rt; source.take(&mut piece), Ok(0));

    let mut source = ReadSource::new(ShortReader { calls: 0 });
    let mut piece = *b"....";
    for (want, after) in [
        (Ok(1), b"a..."),
        (Ok(1), b"c..."),
        (Err(Failed), b"c..."),
        (Ok(1), b"e..."),
        (Ok(0), b"e..."),
    ] {
        assert_eq!(rt; source.take(&mut piece), want);
        assert_eq!(rt; piece, *after);
    }
    Ok(())
}

// Takes two bytes a call. Call 1 is interrupted, call 4 fails, call 6 takes none, and the second
// flush fails.
#[derive(Drop)]
struct ShortWriter<'a> {
    bytes: &'a mut Vec<u8>,
    calls: u8,
    flushes: u8,
}

impl Write for ShortWriter<'_> {
    fn write(&mut self, buf: &[u8]) -> io::Result<usize> {
        let call = self.calls;
        self.calls = call.saturating_add(1);
        match call {
            1 => return Err(io::Error::from(ErrorKind::Interrupted)),
            4 => return Err(io::Error::from(ErrorKind::ConnectionReset)),
            6 => return Ok(0),
            _ => {}
        }
        let count = buf.len().min(2);
        self.bytes.extend_from_slice(&buf[..count])?;
        Ok(count)
    }

    fn flush(&mut self) -> io::Result<()> {
        self.flushes = self.flushes.saturating_add(1);
        if self.flushes == 2 {
            return Err(io::Error::from(ErrorKind::ConnectionReset));
        }
        Ok(())
    }
}

#[test]
fn a_writer_is_a_sink(rt: HostRuntime) -> Result<(), Fail> {
    let mut bytes = Vec::new(rt.alloc());
    let mut sink = WriteSink::new(ShortWriter {
        bytes: &mut bytes,
        calls: 0,
        flushes: 0,
    });
    assert_eq!(rt; sink.put(b"abcde"), Ok(()));
    assert_eq!(rt; sink.put(b"fg"), Err(Failed));
    assert_eq!(rt; sink.put(b"hijk"), Err(Failed));
    assert_eq!(rt; sink.put(b"l"), Err(Failed));
    assert_eq!(rt; sink.put(b"m"), Ok(()));
    assert_eq!(rt; bytes.as_slice(), b"abcdehilm".as_slice());
    Ok(())
}

// The runtime's clock, in place of the system's.
#[derive(Drop)]
struct FakeClock {
    seconds: Option<u64>,
}

impl time::Clock for FakeClock {
    fn monotonic(&self) -> io::Result<Duration> {
        self.since_1970()
    }

    fn since_1970(&self) -> io::Result<Duration> {
        match self.seconds {
            Some(seconds) => Ok(Duration::from_secs(seconds)),
            None => Err(io::Error::from(ErrorKind::Unsupported)),
        }
    }
}

#[test]
fn clocks(rt: HostRuntime) -> Result<(), Fail> {
    let mut clock = MemClock::new(vec![in rt.alloc(); 7, 9]?);
    for want in [7, 9, 0, 0] {
        assert_eq!(rt; clock.now(), want);
    }
    let mut clock = SystemClock::new(&rt);
    assert!(rt; clock.now() > 1_600_000_000);
    for (seconds, want) in [
        (None, 0),
        (Some(1_600_000_000), 1_600_000_000),
        (Some(4_294_967_295), 4_294_967_295),
        (Some(4_294_967_296), 4_294_967_295),
    ] {
        let mut clock = SystemClock::new(FakeClock { seconds });
        assert_eq!(rt; clock.now(), want);
    }
    Ok(())
}
