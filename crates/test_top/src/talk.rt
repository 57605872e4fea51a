//! Conversations over sources and sinks in memory, with a machine that counts.
ghost use Rattle.std.specs.Prelude.{◌<◌};

use crate::messages::bytes;
use fo_links::{MemClock, MemSink, MemSource, SetClock};
use fo_talk::{LinkEnd, Machine, serve};
use nine_wire::{Qid, Reply, Request};
use std::alloc::Global;
use std::process::Abort;
use std::test::Fail;

/// Counts its fids, those that were let go, how often none was left to let go, and its rests.
#[derive(Drop)]
struct Counter {
    fids: u32,
    gone: u32,
    emptied: u32,
    rests: u32,
}

impl Machine for Counter {
    ghost faults = { λ _. record { main = 0; arena = 0 } };

    ghost fids = { λ counter. counter.fids };

    ghost goes = { λ _ _ _ _ _ _. Unit {0} };

    fn answer(&mut self, _now: u32, _tag: u16, request: Request) -> Reply {
        match request {
            Request::Version { msize, version } => Reply::Version {
                msize: msize.min(65560),
                version,
            },
            Request::Attach { .. } => {
                self.fids = self.fids.saturating_add(1);
                Reply::Attach {
                    qid: Qid {
                        kind: 0x80,
                        vers: 0,
                        path: 0,
                    },
                }
            }
            _ => Reply::Flush,
        }
    }

    fn drop_one(&mut self, _now: u32) -> (bool, Option<Reply>) {
        if self.fids == 0 {
            self.emptied = self.emptied.saturating_add(1);
            return (false, None);
        }
        self.fids -= 1;
        self.gone = self.gone.saturating_add(1);
        (true, None)
    }

    fn rest(&mut self) {
        self.rests = self.rests.saturating_add(1);
    }
}

// Talks over these bytes, which come at most `step` at a time: what is said, how it ends, how many
// fids are let go, how often none was left, and how many rests there are: one behind each reply.
fn says(
    rt: &impl Abort,
    alloc: Global,
    input: &str,
    step: usize,
    output: &str,
    end: LinkEnd,
    counts: (u32, u32, u32),
) -> Result<(), Fail>
    requires { 0 < step }
{
    let mut input = MemSource::new(bytes(alloc, input)?, step, Vec::new(alloc));
    let mut out = MemSink::new(Vec::new(alloc));
    let mut counter = Counter {
        fids: 0,
        gone: 0,
        emptied: 0,
        rests: 0,
    };
    let mut clock = SetClock::new(7);
    let ended = serve(alloc, &mut input, &mut out, &mut clock, &mut counter);
    assert_eq!(rt; ended, end);
    assert_eq!(rt; out.bytes(), bytes(alloc, output)?.as_slice());
    assert_eq!(rt; counter.fids, 0);
    assert_eq!(rt; counter.gone, counts.0);
    assert_eq!(rt; counter.emptied, counts.1);
    assert_eq!(rt; counter.rests, counts.2);
    Ok(())
}

#[test]
fn ample(rt: HostRuntime) -> Result<(), Fail> {
    says(
        &rt,
        rt.alloc(),
        "V T F",
        1,
        "RV RT RF",
        LinkEnd::End,
        (1, 2, 3),
    )
}

#[test]
fn rows(rt: HostRuntime) -> Result<(), Fail> {
    for (input, output, end, counts) in [
        // no message
        ("", "", LinkEnd::End, (0, 1, 0)),
        // no fid goes before another message than Tversion
        ("T T F", "RT RT RF", LinkEnd::End, (2, 1, 3)),
        // all fids go before a Tversion
        ("V T T V T", "RV RT RT RV RT", LinkEnd::End, (3, 3, 5)),
        // input that ends inside a message
        (
            "1300000064ffff1800010006003950323030",
            "",
            LinkEnd::BadMessage(0),
            (0, 1, 0),
        ),
        // the same behind messages
        ("V T 190000", "RV RT", LinkEnd::BadMessage(44), (1, 2, 2)),
        // a type that no message has
        ("V 070000006a0100", "RV", LinkEnd::BadMessage(19), (0, 2, 1)),
        // a size below 7
        ("V 06000000", "RV", LinkEnd::BadMessage(19), (0, 2, 1)),
        // a size above the msize
        (
            "1300000064ffff000100000600395032303030 01010000",
            "1300000065ffff000100000600395032303030",
            LinkEnd::BadMessage(19),
            (0, 2, 1),
        ),
    ] {
        says(&rt, rt.alloc(), input, 9, output, end, counts)?;
    }
    Ok(())
}

/// Knows the moments at which it was asked, or a fid was let go, in order.
#[derive(Drop)]
struct Diary {
    moments: [u32; 8],
    count: usize,
}

impl Diary {
    fn enter(&mut self, now: u32) {
        if let Some(moment) = self.moments.get_mut(self.count) {
            *moment = now;
            self.count = self.count.saturating_add(1);
        }
    }
}

impl Machine for Diary {
    ghost faults = { λ _. record { main = 0; arena = 0 } };

    ghost fids = { λ _. 0 };

    ghost goes = { λ _ _ _ _ _ _. Unit {0} };

    fn answer(&mut self, now: u32, _tag: u16, _request: Request) -> Reply {
        self.enter(now);
        Reply::Flush
    }

    fn drop_one(&mut self, now: u32) -> (bool, Option<Reply>) {
        self.enter(now);
        (false, None)
    }

    fn rest(&mut self) {}
}

/// A clock that moves is read once for each request, and once for each fid or none that is let go.
#[test]
fn moments(rt: HostRuntime) -> Result<(), Fail> {
    let alloc = rt.alloc();
    let mut input = MemSource::new(bytes(alloc, "F F V F")?, 9, Vec::new(alloc));
    let mut out = MemSink::new(Vec::new(alloc));
    let mut clock = MemClock::new(vec![in alloc; 5, 6, 8, 8, 11, 20]?);
    let mut diary = Diary {
        moments: [0; 8],
        count: 0,
    };
    serve(alloc, &mut input, &mut out, &mut clock, &mut diary);
    assert_eq!(rt; diary.moments, [5, 6, 8, 8, 11, 20, 0, 0]);
    Ok(())
}

// Talks over these bytes, which come at most `step` at a time, to a sink whose second call fails: what it holds then, half of
// what that call had at its end, and how the conversation ends.
fn puts_once(
    rt: &impl Abort,
    alloc: Global,
    input: &str,
    step: usize,
    output: &str,
    end: LinkEnd,
) -> Result<(), Fail>
    requires { 0 < step }
{
    let mut input = MemSource::new(bytes(alloc, input)?, step, Vec::new(alloc));
    let mut out = MemSink::new(vec![in alloc; 1]?);
    let mut diary = Diary {
        moments: [0; 8],
        count: 0,
    };
    let mut clock = SetClock::new(7);
    let ended = serve(alloc, &mut input, &mut out, &mut clock, &mut diary);
    assert_eq!(rt; ended, end);
    assert_eq!(rt; out.bytes(), bytes(alloc, output)?.as_slice());
    Ok(())
}

#[test]
fn together(rt: HostRuntime) -> Result<(), Fail> {
    for (input, step, output, end) in [
        // replies to messages that came together are put together, also before what is none
        ("F F F", 99, "RF RF RF", LinkEnd::End),
        ("F F 070000006a0100", 99, "RF RF", LinkEnd::BadMessage(18)),
        // and those to messages that didn't aren't
        ("F F F", 9, "RF 070000", LinkEnd::WriteFault),
        ("F F F", 13, "RF 070000", LinkEnd::WriteFault),
        // the reply to a Twrite is put at once
        ("F D F", 99, "RF 070000006d0400 070000", LinkEnd::WriteFault),
    ] {
        puts_once(&rt, rt.alloc(), input, step, output, end)?;
    }
    Ok(())
}
