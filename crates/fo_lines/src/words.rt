//! Words of a line: numbers and hexadecimal.
ghost use Rattle.std.specs.Prelude.{◌≡◌, IfOk, Some, None, if◌then◌else◌};
ghost use Rattle.std.specs.Str.{bytes_eq};
ghost use Rattle.hex.specs.Hex.{encode_lower};
ghost use Rattle.fo_lines.specs.Reading.{is_number, number_at, session_at, bytes_at};

use fo_base::{Bytes, Memory};
use hex::{FromHexError, decode, encode};
use itoa::Buffer;
use std::alloc::Global;
use std::str;

/// Whether the word is how the number is written.
fn is_number(number: u32, word: &str) -> bool
    ensures { result ≡ is_number number word.now }
{
    let mut buffer = Buffer::new();
    buffer.format(number) == word
}

/// The number below 2^32 that the word is, in decimal without leading zeros.
pub fn number_of(word: &[u8]) -> Option<u32>
    ensures { result ≡ number_at word.now }
{
    let Ok(text) = str::from_utf8(word) else {
        return None;
    };
    let Ok(number) = text.parse::<u32>() else {
        return None;
    };
    if is_number(number, text) {
        Some(number)
    } else {
        None
    }
}

/// The number of a session, from 0 to 15.
pub fn session_of(word: &[u8]) -> Option<u8>
    ensures { result ≡ session_at word.now }
{
    match word {
        [digit @ b'0'..=b'9'] => Some(*digit - b'0'),
        [b'1', digit @ b'0'..=b'5'] => Some(10 + (*digit - b'0')),
        _ => None,
    }
}

/// Whether the text is how the bytes are written in hexadecimal of lower case.
fn is_spelled(alloc: Global, bytes: &[u8], text: &[u8]) -> Result<bool, Memory>
    ensures { IfOk result (λ x. x ≡ bytes_eq (encode_lower bytes.now) text.now) }
{
    let spelled = encode(alloc, bytes)?;
    Ok(spelled.as_bytes() == text)
}

/// The bytes, where the text is their spelling.
fn respelled(alloc: Global, bytes: Vec<u8>, text: &[u8]) -> Result<Option<Bytes>, Memory>
    ensures { IfOk result (λ o. o ≡ (if bytes_eq (encode_lower bytes.items) text.now then Some bytes.items else None)) }
{
    if is_spelled(alloc, bytes.as_slice(), text)? {
        Ok(Some(Bytes::new(bytes)))
    } else {
        Ok(None)
    }
}

/// The bytes that the text is, in hexadecimal of lower case.
pub fn bytes_of(alloc: Global, text: &[u8]) -> Result<Option<Bytes>, Memory>
    ensures { IfOk result (λ o. o ≡ bytes_at text.now) }
{
    match decode(alloc, text) {
        Ok(bytes) => respelled(alloc, bytes, text),
        Err(error) => match error {
            FromHexError::OutOfMemory => Err(Memory),
            _ => Ok(None),
        },
    }
}
