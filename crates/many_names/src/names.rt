//! The names of a directory, by their numbers, and an order at random.
ghost use Rattle.std.specs.Prelude.{◌≡◌, ◌<◌, ◌≤◌, ◌^◌, IfOk, IfSome};
ghost use Rattle.fo_world.specs.Limits.{IsName, IsUser};

use fo_base::{Bytes, is_text};
use fo_world::FileError;
use std::alloc::Global;

/// The name of a number below 10,000: "n" and its four digits, followed by so many letters. Names are ordered as their numbers are.
pub fn name(alloc: Global, number: u32, letters: u16) -> Result<Bytes, FileError>
    ensures { IfOk result IsName }
{
    let mut bytes = vec![in alloc; b'x'; 5 + usize::from(letters)]?;
    bytes[0] = b'n';
    bytes[1] = b'0' + (number / 1000 % 10) as u8;
    bytes[2] = b'0' + (number / 100 % 10) as u8;
    bytes[3] = b'0' + (number / 10 % 10) as u8;
    bytes[4] = b'0' + (number % 10) as u8;
    if 255 < bytes.len() || !is_text(bytes.as_slice()) {
        return Err(FileError::Memory);
    }
    Ok(Bytes::new(bytes))
}

/// The user who asks.
pub fn user(alloc: Global) -> Result<Bytes, FileError>
    ensures { IfOk result IsUser }
{
    let user = Bytes::copy_of(alloc, b"adm")?;
    if user.as_slice().is_empty() || 64 < user.as_slice().len() || !is_text(user.as_slice()) {
        return Err(FileError::Memory);
    }
    Ok(user)
}

/// A linear congruential generator, which comes to each number below 4096 once before any twice.
#[derive(Drop)]
pub struct Order {
    at: u32,
}

impl Order {
    /// An order that begins behind this number.
    pub fn new(seed: u32) -> Order {
        Order { at: seed % 4096 }
    }

    /// The next number.
    pub fn next(&mut self) -> u32 {
        self.at = ((u64::from(self.at) * 1365 + 1) % 4096) as u32;
        self.at
    }
}

/// How a name stands in the directory: not at all, by its short text or by its long one.
#[derive(Clone, Copy, Debug, PartialEq, Eq)]
pub enum Standing {
    Absent,
    Short,
    Long,
}

/// What the directory should be: how the name of each number stands, and how many letters a short text has and a long one.
#[derive(Drop)]
pub struct Model {
    standing: Vec<Standing>,
    many: u16,
    short: u16,
    long: u16,
}

impl Model {
    /// An empty directory, for so many names.
    pub fn new(alloc: Global, many: u16, short: u16, long: u16) -> Result<Model, FileError> {
        let standing = vec![in alloc; Standing::Absent; usize::from(many)]?;
        Ok(Model {
            standing,
            many,
            short,
            long,
        })
    }

    /// How many numbers there are.
    pub fn many(&self) -> u32 {
        u32::from(self.many)
    }

    /// How the name of a number stands.
    pub fn of(&self, number: u32) -> Standing {
        match self.standing.get(number as usize) {
            Some(standing) => *standing,
            None => Standing::Absent,
        }
    }

    /// From now on the name of a number stands so.
    pub fn set(&mut self, number: u32, standing: Standing) {
        if (number as usize) < self.standing.len() {
            self.standing[number as usize] = standing;
        }
    }

    /// The text of a number's name where it stands so. None where it is absent.
    pub fn text(
        &self,
        alloc: Global,
        number: u32,
        standing: Standing,
    ) -> Result<Option<Bytes>, FileError>
        ensures { IfOk result (λ text. IfSome text IsName) }
    {
        let letters = match standing {
            Standing::Absent => return Ok(None),
            Standing::Short => self.short,
            Standing::Long => self.long,
        };
        match name(alloc, number, letters) {
            Ok(name) => Ok(Some(name)),
            Err(why) => Err(why),
        }
    }
}
