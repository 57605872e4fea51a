//! A source and a sink in memory, which fail at the calls that they are told.
ghost use Rattle.std.specs.Prelude.{◌≡◌, ◌+◌, ◌-◌, ◌^◌, ◌<◌, ◌≤◌, min, length, take, drop, [], Some, vec_len};
ghost use Rattle.fo_base.specs.Cause.{HasCause};

use crate::traits::{Failed, Sink, Source};

/// A source over bytes in memory, which gives at most `step` of them a call.
#[derive(Debug, Drop)]
pub struct MemSource {
    bytes: Vec<u8>,
    start: usize,
    step: usize,
    fails: Vec<u64>,
    calls: u64,
    faults: u64,
    ghost within: { start ≤ vec_len bytes },
    ghost steps: { 0 < step },
}

impl MemSource {
    /// A source that gives these bytes, at most `step` a call, and fails at the calls whose numbers,
    /// counted from 0, are in `fails`. With a step of 0 it would give none.
    pub fn new(bytes: Vec<u8>, step: usize, fails: Vec<u64>) -> MemSource
        requires { 0 < step }
        ensures bytes { result.bytes.items ≡ bytes.items }
        ensures start { result.start ≡ 0 }
        ensures step { result.step ≡ step }
        ensures fails { result.fails.items ≡ fails.items }
        ensures calls { result.calls ≡ 0 }
        ensures faults { result.faults ≡ 0 }
    {
        MemSource {
            bytes,
            start: 0,
            step,
            fails,
            calls: 0,
            faults: 0,
        }
    }
}

impl Source for MemSource {
    ghost use Rattle.std.proofs.Common.{rules};
    ghost use Rattle.std.proofs.lemmas.Grind.{common_steps};
    ghost use Rattle.fo_links.specs.Links.{Taken, CountsFaults};
    ghost use Rattle.fo_links.specs.Memory.{is_listed, GivesUpTo};
    ghost use Rattle.fo_links.specs.MemSource.{left_of, given_of, room_of};

    ghost left = { left_of };

    ghost given = { given_of };

    ghost room = { room_of };

    ghost faults = { λ s. s.faults };

    ghost room_is_small = { λ s. let len = s.bytes.ok in let small = s.bytes.small in Prim.search rules };

    ghost room_is_left = { Prim.search (rules, common_steps) };

    fn take(&mut self, into: &mut [u8]) -> Result<usize, Failed>
        ensures taken { Taken (left_of self.old) (left_of self.new) (given_of self.old) (given_of self.new)
            (room_of self.old) (room_of self.new) into.old into.new result }
        ensures cause { HasCause self.old.faults self.new.faults result }
        ensures gives { GivesUpTo (is_listed self.old.fails.items self.old.calls)
            (room_of self.old) self.old.step (length into.old) result }
        ensures counts { CountsFaults self.old.faults self.new.faults result }
        ensures calls { self.new.calls ≡ min (self.old.calls + 1) (2 ^ 64 - 1) }
        ensures step { self.new.step ≡ self.old.step }
        ensures fails { self.new.fails.items ≡ self.old.fails.items }
    {
        let fails = self.fails.contains(&self.calls);
        self.calls = self.calls.saturating_add(1);
        if fails {
            self.faults = self.faults.saturating_add(1);
            return Err(Failed);
        }
        let start = self.start;
        let count = (self.bytes.len() - start).min(self.step).min(into.len());
        into[..count].copy_from_slice(&self.bytes[start..start + count]);
        self.start = start + count;
        Ok(count)
    }
}

/// A sink that holds its bytes in memory.
#[derive(Debug, Drop)]
pub struct MemSink {
    bytes: Vec<u8>,
    fails: Vec<u64>,
    calls: u64,
    faults: u64,
}

impl MemSink {
    /// A sink that holds nothing, and fails at the calls whose numbers, counted from 0, are in
    /// `fails`. Such a call puts a half of its piece.
    pub fn new(fails: Vec<u64>) -> MemSink
        ensures bytes { result.bytes.items ≡ [] }
        ensures fails { result.fails.items ≡ fails.items }
        ensures calls { result.calls ≡ 0 }
        ensures faults { result.faults ≡ 0 }
    {
        MemSink {
            bytes: Vec::new(*fails.allocator()),
            fails,
            calls: 0,
            faults: 0,
        }
    }

    /// The bytes that it holds.
    pub fn bytes(&self) -> &[u8]
        ensures { result.now ≡ self.now.bytes.items }
    {
        self.bytes.as_slice()
    }
}

impl Sink for MemSink {
    ghost use Rattle.fo_links.specs.Links.{Put, CountsFaults};
    ghost use Rattle.fo_links.specs.Memory.{is_listed, PutsUnless};

    ghost held = { λ s. Some s.bytes.items };

    ghost faults = { λ s. s.faults };

    fn put(&mut self, bytes: &[u8]) -> Result<(), Failed>
        ensures put { Put (Some self.old.bytes.items) (Some self.new.bytes.items) bytes.now result }
        ensures cause { HasCause self.old.faults self.new.faults result }
        ensures puts { PutsUnless (is_listed self.old.fails.items self.old.calls)
            self.old.bytes.items self.new.bytes.items result }
        ensures counts { CountsFaults self.old.faults self.new.faults result }
        ensures calls { self.new.calls ≡ min (self.old.calls + 1) (2 ^ 64 - 1) }
        ensures fails { self.new.fails.items ≡ self.old.fails.items }
    {
        let fails = self.fails.contains(&self.calls);
        self.calls = self.calls.saturating_add(1);
        if fails {
            self.faults = self.faults.saturating_add(1);
            let _ = self.bytes.extend_from_slice(&bytes[..bytes.len() / 2]);
            return Err(Failed);
        }
        if self.bytes.extend_from_slice(bytes).is_err() {
            self.faults = self.faults.saturating_add(1);
            return Err(Failed);
        }
        Ok(())
    }
}
