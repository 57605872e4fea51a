//! What a directory should be, and an order of its numbers at random.
use fo_base::Memory;
use std::alloc::Global;

/// A linear congruential generator, which comes to each number below 4096 once before any twice.
#[derive(Drop)]
pub struct Order {
    at: u32,
}

impl Order {
    /// An order that begins behind this number.
    pub fn new(seed: u32) -> Order {
        Order { at: seed % 4096 }
    }

    /// The next number.
    pub fn next(&mut self) -> u32 {
        self.at = ((u64::from(self.at) * 1365 + 1) % 4096) as u32;
        self.at
    }
}

/// What the directory should be: how many letters the name of each number has behind its digits, and for a name that is not there how many
/// it had last.
#[derive(Drop)]
pub struct Model {
    names: Vec<Standing>,
    many: u16,
}

/// A name with so many letters is there, or was and is no more.
#[derive(Clone, Copy, Debug, PartialEq, Eq)]
pub enum Standing {
    Present(u16),
    Absent(u16),
}

impl Standing {
    /// How many letters the name has, and whether it is there.
    pub fn parts(self) -> (u16, bool) {
        match self {
            Standing::Present(letters) => (letters, true),
            Standing::Absent(letters) => (letters, false),
        }
    }
}

impl Model {
    /// An empty directory, for so many names.
    pub fn new(alloc: Global, many: u16) -> Result<Model, Memory> {
        match vec![in alloc; Standing::Absent(0); usize::from(many)] {
            Ok(names) => Ok(Model { names, many }),
            Err(_) => Err(Memory),
        }
    }

    /// How many numbers there are.
    pub fn many(&self) -> u32 {
        u32::from(self.many)
    }

    /// How the name of a number stands.
    pub fn of(&self, number: u32) -> Standing {
        match self.names.get(number as usize) {
            Some(standing) => *standing,
            None => Standing::Absent(0),
        }
    }

    /// From now on the name of a number stands so.
    pub fn set(&mut self, number: u32, standing: Standing) {
        if (number as usize) < self.names.len() {
            self.names[number as usize] = standing;
        }
    }
}
