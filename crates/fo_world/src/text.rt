//! Short texts that are kept in place.
ghost use Rattle.std.specs.Prelude.{◌≡◌, ℕ, ◌+◌, ◌<◌, ◌≤◌, List, [], ◌∷◌, ◌++◌, length, take};
ghost use Rattle.std.specs.Fmt.{decimal};

use std::marker::Model;

/// A text of at most 32 bytes, for which no memory is taken.
#[derive(Drop)]
pub struct ShortText {
    bytes: [u8; 32],
    len: usize,
}

impl Model for ShortText {
    ghost Value = { List ℕ };

    ghost view = { λ t. take t.len t.bytes };

    ghost invariant = { λ t. t.len ≤ 32 };
}

impl ShortText {
    /// The empty text.
    pub fn new() -> ShortText
        ensures { result ≡ [] }
    {
        ShortText {
            bytes: [0; 32],
            len: 0,
        }
    }

    /// The bytes.
    pub fn as_slice(&self) -> &[u8]
        ensures { result.now ≡ self.now }
    {
        &self.bytes[..self.len]
    }

    /// Adds a byte at the end.
    pub fn push(&mut self, byte: u8)
        requires { length self.old < 32 }
        ensures { self.new ≡ self.old ++ byte ∷ [] }
    {
        self.bytes[self.len] = byte;
        self.len += 1;
    }

    /// Adds these bytes at the end.
    pub fn append(&mut self, bytes: &[u8])
        requires { length self.old + length bytes.now ≤ 32 }
        ensures { self.new ≡ self.old ++ bytes.now }
    {
        for byte in bytes {
            self.push(*byte);
        }
    }

    /// Adds a number in decimal at the end.
    pub fn append_decimal(&mut self, number: u32)
        requires { length self.old + length (decimal number) ≤ 32 }
        ensures { self.new ≡ self.old ++ decimal number }
    {
        if number < 10 {
            self.push(48 + number as u8);
        } else {
            self.append_decimal(number / 10);
            self.push(48 + (number % 10) as u8);
        }
    }
}
