//! Directories, names and bytes, by numbers.
use fo_world::FileError;
use std::alloc::Global;

/// How many directories there are: the root, one in it, and one in that.
pub const DIRS: u32 = 3;

/// How many names there are.
pub const NAMES: u32 = 160;

/// How many of them are long, of which some 30 fill a leaf of records.
pub const LONG: u32 = 60;

/// How many bytes a piece has.
pub const PIECE: u64 = 12;

/// Where the second piece of a file stands.
pub const FAR: u64 = 30_000;

/// A name in a directory.
#[derive(Clone, Copy)]
pub struct Spot {
    pub dir: u32,
    pub name: u32,
}

/// The numbers on the way to a directory.
fn way(dir: u32) -> &'static [u32] {
    match dir {
        0 => &[],
        1 => &[1],
        _ => &[1, 2],
    }
}

/// A digit of a number, as text.
fn digit(number: u32) -> u8 {
    b'0' + (number % 10) as u8
}

/// A long name: a letter, 200 to 250 times.
fn long(alloc: Global, number: u32) -> Result<Vec<u8>, FileError> {
    let letter = b'A' + (number % LONG) as u8;
    Ok(vec![in alloc; letter; 200 + (number % LONG * 7 % 51) as usize]?)
}

/// A short name: a letter and three digits.
fn short(alloc: Global, number: u32) -> Result<Vec<u8>, FileError> {
    let bytes = [b's', digit(number / 100), digit(number / 10), digit(number)];
    Ok(Vec::from_slice(alloc, &bytes)?)
}

/// The two letters that a number's piece is made of.
fn letters(number: u32) -> (u8, u8) {
    if number == 0 {
        return (0, 0);
    }
    (b'a' + (number % 26) as u8, b'a' + (number / 26 % 26) as u8)
}

/// The bytes of a number: zeros, or letters.
pub fn piece(number: u32) -> [u8; 12] {
    let (one, two) = letters(number);
    [one, two, one, one, two, two, one, two, one, two, one, one]
}

impl Spot {
    /// The numbers on the way to the directory.
    pub fn way(self) -> &'static [u32] {
        way(self.dir)
    }

    /// The trail of a file of this number in the directory.
    pub fn trail(self, alloc: Global, number: u32) -> Result<Vec<u32>, FileError> {
        let mut trail = Vec::from_slice(alloc, way(self.dir))?;
        trail.push(number)?;
        Ok(trail)
    }

    /// The text of the name.
    pub fn text(self, alloc: Global) -> Result<Vec<u8>, FileError> {
        if self.name < LONG {
            long(alloc, self.name)
        } else {
            short(alloc, self.name)
        }
    }
}
