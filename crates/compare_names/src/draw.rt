//! Calls on a directory, drawn at random.
ghost use Rattle.std.specs.Prelude.{◌<◌, IfOk};
ghost use Rattle.fo_image.specs.Record.{IsTextWithin};

use fo_base::{Bytes, Memory};
use std::alloc::Global;
use test_names::name;

/// From how many numbers names are drawn.
const NUMBERS: u32 = 300;

/// How many names may be drawn.
pub const NAMES: u32 = 3 * NUMBERS;

/// A name, by its number and how many letters it has behind its digits.
#[derive(Clone, Copy, Debug)]
pub struct Drawn {
    number: u32,
    letters: u16,
}

/// What is called.
#[derive(Clone, Copy, Debug)]
pub enum Kind {
    Add,
    Remove,
    Change,
    Lookup,
    Next,
    FreePair,
}

/// A call on a directory, with a name, and another one that only `Change` takes.
#[derive(Clone, Copy, Debug)]
pub struct Call {
    pub kind: Kind,
    pub name: Drawn,
    pub other: Drawn,
}

/// Numbers that look random, and are the same for the same seed: a linear congruential generator of 64 bits, of which the upper ones are
/// used (Knuth, MMIX).
#[derive(Drop)]
pub struct Random {
    state: u64,
}

impl Drawn {
    /// One of all names, by its place among them.
    pub fn at(place: u32) -> Drawn {
        let letters = match place % 3 {
            0 => 0,
            1 => 40,
            _ => 90,
        };
        Drawn {
            number: place / 3,
            letters,
        }
    }

    /// The name itself.
    pub fn name(self, alloc: Global) -> Result<Bytes, Memory>
        ensures { IfOk result (IsTextWithin 255) }
    {
        name(alloc, self.number, self.letters)
    }
}

impl Random {
    /// The numbers of a seed.
    pub fn new(seed: u64) -> Random {
        Random { state: seed }
    }

    /// A number below this one.
    fn below(&mut self, end: u32) -> u32
        requires { 0 < end }
        ensures { result < end }
    {
        self.state = self
            .state
            .wrapping_mul(6_364_136_223_846_793_005)
            .wrapping_add(1_442_695_040_888_963_407);
        ((self.state >> 40) % u64::from(end)) as u32
    }

    /// One of the names.
    fn drawn(&mut self) -> Drawn {
        Drawn::at(self.below(NAMES))
    }

    /// What is called; one call in three adds a name.
    fn kind(&mut self) -> Kind {
        match self.below(15) {
            0..=4 => Kind::Add,
            5..=7 => Kind::Remove,
            8..=10 => Kind::Change,
            11 => Kind::Lookup,
            12..=13 => Kind::Next,
            _ => Kind::FreePair,
        }
    }

    /// A call.
    pub fn call(&mut self) -> Call {
        Call {
            kind: self.kind(),
            name: self.drawn(),
            other: self.drawn(),
        }
    }
}
