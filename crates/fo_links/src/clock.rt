//! Clocks.
ghost use Rattle.std.specs.Prelude.{◌≡◌, Some, None};

use crate::traits::Clock;
use std::time::{self, SystemTime, UNIX_EPOCH};

/// A clock that stands still.
#[derive(Clone, Copy, Debug)]
pub struct SetClock {
    seconds: u32,
}

impl SetClock {
    /// A clock that always says that it is so many seconds since 1970-01-01 UTC.
    pub fn new(now: u32) -> SetClock
        ensures { result.seconds ≡ now }
    {
        SetClock { seconds: now }
    }
}

impl Clock for SetClock {
    ghost coming = { λ clock. Some (λ _. clock.seconds) };

    fn now(&mut self) -> u32 {
        self.seconds
    }
}

/// A clock in memory, which says these moments, one a reading, and then 0.
#[derive(Debug, Drop)]
pub struct MemClock {
    moments: Vec<u32>,
    at: usize,
}

impl MemClock {
    /// A clock that says these moments, in seconds since 1970-01-01 UTC.
    pub fn new(moments: Vec<u32>) -> MemClock
        ensures moments { result.moments.items ≡ moments.items }
        ensures at { result.at ≡ 0 }
    {
        MemClock { moments, at: 0 }
    }
}

impl Clock for MemClock {
    ghost use Rattle.fo_links.specs.MemClock.{coming_of};

    ghost coming = { coming_of };

    fn now(&mut self) -> u32 {
        let Some(seconds) = self.moments.get(self.at) else {
            return 0;
        };
        self.at += 1;
        *seconds
    }
}

/// The system's clock. It says 0 where that can't be read, and the last second that it can say from
/// then on (in 2106).
#[derive(Drop)]
pub struct SystemClock<R> {
    rt: R,
}

impl<R: time::Clock> SystemClock<R> {
    /// The clock that is read through this runtime.
    pub fn new(rt: R) -> SystemClock<R>
        ensures { result.rt ≡ rt }
    {
        SystemClock { rt }
    }
}

impl<R: time::Clock> Clock for SystemClock<R> {
    ghost coming = { λ clock. None };

    fn now(&mut self) -> u32 {
        let Ok(time) = SystemTime::now(&self.rt) else {
            return 0;
        };
        let Ok(since) = time.duration_since(UNIX_EPOCH) else {
            return 0;
        };
        u32::try_from(since.as_secs()).unwrap_or(u32::MAX)
    }
}
