//! The text of an error, kept in the value itself.
ghost use Rattle.std.specs.Prelude.{◌≡◌, ◌≤◌, false, length};
ghost use Rattle.fo_base.specs.Text.{IsText, has_zero};

use std::marker::Model;

/// The most bytes that the text of an error has.
pub const LONGEST: usize = 128;

/// The text of an error: at most 128 bytes, UTF-8 without NUL.
#[derive(Debug, Drop)]
pub struct Ename {
    bytes: [u8; 128],
    len: usize,
}

impl Model for Ename {
    ghost use Rattle.std.specs.Prelude.{ℕ, List, ◌≤◌, take};
    ghost use Rattle.fo_base.specs.Text.{IsText};

    ghost Value = { List ℕ };

    ghost view = { λ e. take e.len e.bytes };

    ghost invariant = { λ e. (e.len ≤ 128) × IsText (take e.len e.bytes) };
}

impl Ename {
    /// An error with this text.
    pub fn new(text: &str) -> Ename
        requires short { length text.now ≤ 128 }
        requires no_zero { has_zero text.now ≡ false }
        ensures { result ≡ text.now }
    {
        Ename::from_text(text.as_bytes())
    }

    /// An error with this text, given as bytes.
    pub fn from_text(text: &[u8]) -> Ename
        requires short { length text.now ≤ 128 }
        requires text { IsText text.now }
        ensures { result ≡ text.now }
    {
        let mut bytes = [0; 128];
        bytes[..text.len()].copy_from_slice(text);
        Ename {
            bytes,
            len: text.len(),
        }
    }

    /// The text.
    pub fn as_bytes(&self) -> &[u8]
        ensures same { result.now ≡ self.now }
        ensures short { length result.now ≤ 128 }
        ensures text { IsText result.now }
    {
        &self.bytes[..self.len]
    }
}
