//! The names of a directory, by their numbers, and the user whose files they are.
ghost use Rattle.std.specs.Prelude.{◌≡◌, ◌<◌, IfOk};
ghost use Rattle.fo_image.specs.Record.{IsTextWithin};

use fo_base::{Bytes, Memory, is_text};
use std::alloc::Global;

/// A list of bytes with a number in four digits behind an `n`, and so many letters behind that.
fn spelled(alloc: Global, number: u32, letters: u16) -> Result<Vec<u8>, Memory> {
    let Ok(mut bytes) = vec![in alloc; b'x'; 5 + usize::from(letters)] else {
        return Err(Memory);
    };
    bytes[0] = b'n';
    bytes[1] = b'0' + (number / 1000 % 10) as u8;
    bytes[2] = b'0' + (number / 100 % 10) as u8;
    bytes[3] = b'0' + (number / 10 % 10) as u8;
    bytes[4] = b'0' + (number % 10) as u8;
    Ok(bytes)
}

/// The name of a number below 10,000: `n` and its four digits, followed by so many letters. Names are ordered as their numbers are.
pub fn name(alloc: Global, number: u32, letters: u16) -> Result<Bytes, Memory>
    ensures { IfOk result (IsTextWithin 255) }
{
    let bytes = spelled(alloc, number, letters)?;
    if bytes.is_empty() || 255 < bytes.len() || !is_text(bytes.as_slice()) {
        return Err(Memory);
    }
    Ok(Bytes::new(bytes))
}

/// The name of the user whose files they are.
pub(crate) fn user(alloc: Global) -> Result<Bytes, Memory>
    ensures { IfOk result (IsTextWithin 64) }
{
    let Ok(user) = Bytes::copy_of(alloc, b"adm") else {
        return Err(Memory);
    };
    if user.as_slice().is_empty() || 64 < user.as_slice().len() || !is_text(user.as_slice()) {
        return Err(Memory);
    }
    Ok(user)
}
