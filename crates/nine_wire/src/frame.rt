//! What stands around a message's body: its size, its type and its tag.
ghost use Rattle.std.specs.Prelude.{◌≡◌, Some};
ghost use Rattle.nine_fields.specs.Field.{Four};
ghost use Rattle.nine_fields.specs.Reading.{Reads, number_at};
ghost use Rattle.nine_wire.specs.Reading.{header_at, FrameHolds};

use nine_fields::{Malformed, u8_at, u16_at, u32_at};

/// What stands at the front of a stream.
pub enum Frame<'a> {
    /// Less than a whole message.
    More,
    /// The size is below 7 or above the limit.
    BadSize,
    /// A message's type, tag and body, and how many bytes all of it takes.
    Whole(u8, u16, &'a [u8], usize),
}

/// A type, a tag, and the bytes after them.
#[tactic(auto, unfolding(crate::specs::Reading::header_at))]
fn header_at(bytes: &[u8]) -> Result<(u8, u16, &[u8]), Malformed>
    ensures { Reads (λ x. (x.0, x.1, x.2.now)) result (header_at bytes.now) }
{
    let (kind, rest) = u8_at(bytes)?;
    let (tag, rest) = u16_at(rest)?;
    Ok((kind, tag, rest))
}

/// The frame at the front of bytes that begin with this size.
fn sized_at<'a>(bytes: &'a [u8], size: u32, rest: &'a [u8], msize: u32) -> Frame<'a>
    requires { number_at Four bytes.now ≡ Some (size, rest.now) }
    ensures { FrameHolds msize bytes.now result }
{
    if size < 7 {
        return Frame::BadSize;
    }
    if msize < size {
        return Frame::BadSize;
    }
    let size = size as usize;
    if bytes.len() < size {
        return Frame::More;
    }
    match header_at(rest) {
        Ok((kind, tag, inside)) => Frame::Whole(kind, tag, &inside[..size - 7], size),
        Err(_) => Frame::More,
    }
}

/// The frame at the front of the bytes, where a message has at most `msize` of them.
pub fn frame_at(bytes: &[u8], msize: u32) -> Frame<'_>
    ensures { FrameHolds msize bytes.now result }
{
    match u32_at(bytes) {
        Ok((size, rest)) => sized_at(bytes, size, rest, msize),
        Err(_) => Frame::More,
    }
}
