//! Lines read.
ghost use Rattle.std.specs.Prelude.{◌≡◌, IfOk, IfSome, Some};
ghost use Rattle.fo_lines.specs.Line.{Spells};
ghost use Rattle.fo_lines.specs.Reading.{message_of, message_at, turn_at, told_at, line_at};
ghost use Rattle.fo_lines.specs.declared.line.Line.{Line as Lines};

use crate::line::Line;
use crate::words::{bytes_of, number_of, session_of};
use fo_base::{Bytes, Memory};
use std::alloc::Global;

/// The line that is one letter.
fn turn_of(letter: u8) -> Option<Line>
    ensures { result ≡ turn_at letter }
{
    match letter {
        b'f' => Some(Line::Flush),
        b'u' => Some(Line::Unlink),
        b'a' => Some(Line::Archive),
        b'F' => Some(Line::FlushAll),
        b'A' => Some(Line::ArchiveAll),
        _ => None,
    }
}

/// The line that sends a session what the text says.
fn message_to(alloc: Global, session: Option<u8>, text: &[u8]) -> Result<Option<Line>, Memory>
    ensures { IfOk result (λ o. o ≡ message_of session text.now) }
{
    let Some(session) = session else {
        return Ok(None);
    };
    let Some(bytes) = bytes_of(alloc, text)? else {
        return Ok(None);
    };
    Ok(Some(Line::Message { session, bytes }))
}

/// The line that sends a session a message.
fn message_in(alloc: Global, rest: &[u8]) -> Result<Option<Line>, Memory>
    ensures { IfOk result (λ o. o ≡ message_at rest.now) }
{
    match rest {
        [a, b' ', text @ ..] => message_to(alloc, session_of(&[*a]), text),
        [a, b, b' ', text @ ..] => message_to(alloc, session_of(&[*a, *b]), text),
        _ => Ok(None),
    }
}

/// The line of a letter and what stands behind it.
fn told_of(alloc: Global, letter: u8, rest: &[u8]) -> Result<Option<Line>, Memory>
    ensures { IfOk result (λ o. o ≡ told_at letter rest.now) }
{
    match letter {
        b't' => Ok(number_of(rest).map(Line::Moment)),
        b's' => message_in(alloc, rest),
        b'h' => Ok(session_of(rest).map(Line::Drops)),
        b'c' => Ok(Some(Line::Console(Bytes::copy_of(alloc, rest)?))),
        _ => Ok(None),
    }
}

/// The line by its first letter.
fn read(alloc: Global, bytes: &[u8]) -> Result<Option<Line>, Memory>
    ensures { IfOk result (λ o. o ≡ line_at bytes.now) }
{
    match bytes {
        [letter] => Ok(turn_of(*letter)),
        [letter, b' ', rest @ ..] => told_of(alloc, *letter, rest),
        _ => Ok(None),
    }
}

/// The line that the bytes are, without their newline.
pub fn line_of(alloc: Global, bytes: &[u8]) -> Result<Option<Line>, Memory>
    // The bytes spell the line that is answered.
    ensures found { IfOk result (λ o. IfSome o (λ l. Spells l bytes.now)) }
    // A line that they spell is answered, unless memory runs out.
    ensures only { (l : Lines) → Spells l bytes.now → IfOk result (λ o. o ≡ Some l) }
{
    read(alloc, bytes)
}
