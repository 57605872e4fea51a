//! Answers written.
ghost use Rattle.std.specs.Prelude.{◌≡◌, ◌++◌, IfOk, OnOk, OnErr};
ghost use Rattle.std.specs.String.{string_bytes};
ghost use Rattle.fo_lines.specs.Answers.{reply_line, drops_line, console_line, flushed_line, unlinked_line, flushed_all_line, end_text, archived_line, archived_all_line};

use fo_base::Memory;
use hex::encode;
use std::alloc::Global;

/// What a flush turn did.
#[derive(Clone, Copy, Debug, PartialEq, Eq)]
pub enum Flushed {
    Wrote,
    Synced,
    Idle,
    /// A fault by its number.
    Fault(u8),
}

/// What an unlink turn did.
#[derive(Clone, Copy, Debug, PartialEq, Eq)]
pub enum Unlinked {
    Closed,
    Waits,
    Empty,
    /// A fault by its number.
    Fault(u8),
}

/// How archive turns ended.
#[derive(Clone, Copy, Debug, PartialEq, Eq)]
pub enum ArchiveEnd {
    /// An archive is whole, under this score.
    Done([u8; 20]),
    Idle,
    /// Why there is no archive, by its number.
    Refused(u8),
}

/// What an archive turn did.
#[derive(Clone, Copy, Debug, PartialEq, Eq)]
pub enum Archived {
    More,
    Ended(ArchiveEnd),
}

fn reply_line(alloc: Global, session: u8, bytes: &[u8]) -> Result<String, Memory>
    ensures { IfOk result (λ s. string_bytes s ≡ reply_line session bytes.now) }
{
    let text = encode(alloc, bytes)?;
    Ok(format!(in alloc; "s {session} {text}\n")?)
}

fn flushed_line(alloc: Global, turn: Flushed) -> Result<String, Memory>
    ensures { IfOk result (λ s. string_bytes s ≡ flushed_line turn) }
{
    match turn {
        Flushed::Wrote => Ok(format!(in alloc; "f wrote\n")?),
        Flushed::Synced => Ok(format!(in alloc; "f synced\n")?),
        Flushed::Idle => Ok(format!(in alloc; "f idle\n")?),
        Flushed::Fault(code) => Ok(format!(in alloc; "f fault {code}\n")?),
    }
}

fn unlinked_line(alloc: Global, turn: Unlinked) -> Result<String, Memory>
    ensures { IfOk result (λ s. string_bytes s ≡ unlinked_line turn) }
{
    match turn {
        Unlinked::Closed => Ok(format!(in alloc; "u closed\n")?),
        Unlinked::Waits => Ok(format!(in alloc; "u waits\n")?),
        Unlinked::Empty => Ok(format!(in alloc; "u empty\n")?),
        Unlinked::Fault(code) => Ok(format!(in alloc; "u fault {code}\n")?),
    }
}

fn flushed_all_line(alloc: Global, fault: Option<u8>) -> Result<String, Memory>
    ensures { IfOk result (λ s. string_bytes s ≡ flushed_all_line fault) }
{
    match fault {
        None => Ok(format!(in alloc; "F idle\n")?),
        Some(code) => Ok(format!(in alloc; "F fault {code}\n")?),
    }
}

fn console_line(alloc: Global, line: &[u8]) -> Result<Vec<u8>, Memory>
    ensures { IfOk result (λ v. v.items ≡ console_line line.now) }
{
    let mut whole = Vec::from_slice(alloc, b"c ")?;
    whole.extend_from_slice(line)?;
    whole.push(b'\n')?;
    Ok(whole)
}

/// What stands behind the letter of an archive turn.
fn end_text(alloc: Global, end: &ArchiveEnd) -> Result<String, Memory>
    ensures { IfOk result (λ s. string_bytes s ≡ end_text end.now) }
{
    match end {
        ArchiveEnd::Done(score) => {
            let score = encode(alloc, score.as_slice())?;
            Ok(format!(in alloc; "done {score}\n")?)
        }
        ArchiveEnd::Idle => Ok(format!(in alloc; "idle\n")?),
        ArchiveEnd::Refused(code) => Ok(format!(in alloc; "refused {code}\n")?),
    }
}

fn archived_all_line(alloc: Global, end: &ArchiveEnd) -> Result<String, Memory>
    ensures { IfOk result (λ s. string_bytes s ≡ archived_all_line end.now) }
{
    let text = end_text(alloc, end)?;
    Ok(format!(in alloc; "A {text}")?)
}

fn archived_line(alloc: Global, turn: &Archived) -> Result<String, Memory>
    ensures { IfOk result (λ s. string_bytes s ≡ archived_line turn.now) }
{
    match turn {
        Archived::More => Ok(format!(in alloc; "a more\n")?),
        Archived::Ended(end) => {
            let text = end_text(alloc, end)?;
            Ok(format!(in alloc; "a {text}")?)
        }
    }
}

/// Appends the reply of a session, by its bytes.
pub fn put_reply(session: u8, bytes: &[u8], out: &mut Vec<u8>) -> Result<(), Memory>
    ensures written { OnOk result (out.new.items ≡ out.old.items ++ reply_line session bytes.now) }
    ensures left { OnErr result (out.new.items ≡ out.old.items) }
{
    let line = reply_line(*out.allocator(), session, bytes)?;
    out.extend_from_slice(line.as_bytes())?;
    Ok(())
}

/// Appends that all fids of a session are gone.
pub fn put_drops(session: u8, out: &mut Vec<u8>) -> Result<(), Memory>
    ensures written { OnOk result (out.new.items ≡ out.old.items ++ drops_line session) }
    ensures left { OnErr result (out.new.items ≡ out.old.items) }
{
    let line = format!(in *out.allocator(); "h {session}\n")?;
    out.extend_from_slice(line.as_bytes())?;
    Ok(())
}

/// Appends a reply line of the console, given without its newline.
pub fn put_console(line: &[u8], out: &mut Vec<u8>) -> Result<(), Memory>
    ensures written { OnOk result (out.new.items ≡ out.old.items ++ console_line line.now) }
    ensures left { OnErr result (out.new.items ≡ out.old.items) }
{
    let whole = console_line(*out.allocator(), line)?;
    out.extend_from_slice(whole.as_slice())?;
    Ok(())
}

/// Appends what a flush turn did.
pub fn put_flushed(turn: Flushed, out: &mut Vec<u8>) -> Result<(), Memory>
    ensures written { OnOk result (out.new.items ≡ out.old.items ++ flushed_line turn) }
    ensures left { OnErr result (out.new.items ≡ out.old.items) }
{
    let line = flushed_line(*out.allocator(), turn)?;
    out.extend_from_slice(line.as_bytes())?;
    Ok(())
}

/// Appends what an unlink turn did.
pub fn put_unlinked(turn: Unlinked, out: &mut Vec<u8>) -> Result<(), Memory>
    ensures written { OnOk result (out.new.items ≡ out.old.items ++ unlinked_line turn) }
    ensures left { OnErr result (out.new.items ≡ out.old.items) }
{
    let line = unlinked_line(*out.allocator(), turn)?;
    out.extend_from_slice(line.as_bytes())?;
    Ok(())
}

/// Appends how flush and unlink turns ended: with nothing left, or by a fault.
pub fn put_flushed_all(fault: Option<u8>, out: &mut Vec<u8>) -> Result<(), Memory>
    ensures written { OnOk result (out.new.items ≡ out.old.items ++ flushed_all_line fault) }
    ensures left { OnErr result (out.new.items ≡ out.old.items) }
{
    let line = flushed_all_line(*out.allocator(), fault)?;
    out.extend_from_slice(line.as_bytes())?;
    Ok(())
}

/// Appends what an archive turn did.
pub fn put_archived(turn: &Archived, out: &mut Vec<u8>) -> Result<(), Memory>
    ensures written { OnOk result (out.new.items ≡ out.old.items ++ archived_line turn.now) }
    ensures left { OnErr result (out.new.items ≡ out.old.items) }
{
    let line = archived_line(*out.allocator(), turn)?;
    out.extend_from_slice(line.as_bytes())?;
    Ok(())
}

/// Appends how archive turns ended.
pub fn put_archived_all(end: &ArchiveEnd, out: &mut Vec<u8>) -> Result<(), Memory>
    ensures written { OnOk result (out.new.items ≡ out.old.items ++ archived_all_line end.now) }
    ensures left { OnErr result (out.new.items ≡ out.old.items) }
{
    let line = archived_all_line(*out.allocator(), end)?;
    out.extend_from_slice(line.as_bytes())?;
    Ok(())
}
