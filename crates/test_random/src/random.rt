//! Numbers that look random, and are the same for the same seed.
ghost use Rattle.std.specs.Prelude.{◌<◌, ◌≤◌};

/// A linear congruential generator of 64 bits, of which the upper ones are used (Knuth, MMIX).
#[derive(Drop)]
pub struct Random {
    state: u64,
}

impl Random {
    /// The numbers of a seed.
    pub fn new(seed: u64) -> Random {
        Random { state: seed }
    }

    fn next(&mut self) -> u64 {
        self.state = self
            .state
            .wrapping_mul(6_364_136_223_846_793_005)
            .wrapping_add(1_442_695_040_888_963_407);
        self.state >> 40
    }

    /// A number below this one.
    pub fn below(&mut self, end: u32) -> u32
        requires { 0 < end }
        ensures { result < end }
    {
        (self.next() % u64::from(end)) as u32
    }

    /// A place in a list of so many.
    pub fn place(&mut self, len: usize) -> usize
        requires { 0 < len }
        ensures { result < len }
    {
        (self.next() % len as u64) as usize
    }

    /// True one time in so many.
    pub fn once_in(&mut self, times: u32) -> bool
        requires { 0 < times }
    {
        self.below(times) == 0
    }
}
