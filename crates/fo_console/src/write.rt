//! Replies written.
ghost use Rattle.std.specs.Prelude.{◌≡◌, ◌++◌, ◌∷◌, [], IfOk, OnOk, OnErr, string_bytes};
ghost use Rattle.fo_console.specs.Reply.{mode_text, stat_line, snap_line, epoch_line, space_lines, check_line, error_line, reply};

use crate::answer::Answer;
use fo_base::Memory;
use fo_world::{DMAPPEND, DMDIR, DMEXCL, DMTMP, Info};
use std::alloc::Global;

/// A file's mode: the letters of its flags, and its permissions in octal.
fn mode_text(alloc: Global, mode: u32) -> Result<String, Memory>
    ensures { IfOk result (λ s. string_bytes s ≡ mode_text mode) }
{
    let directory = if mode & DMDIR != 0 { "d" } else { "" };
    let append = if mode & DMAPPEND != 0 { "a" } else { "" };
    let exclusive = if mode & DMEXCL != 0 { "l" } else { "" };
    let temporary = if mode & DMTMP != 0 { "t" } else { "" };
    let bits = mode % 512;
    Ok(format!(in alloc; "{directory}{append}{exclusive}{temporary}{bits:o}")?)
}

/// Appends a word and a space.
fn put_word(line: &mut Vec<u8>, word: &[u8]) -> Result<(), Memory>
    ensures { OnOk result (line.new.items ≡ line.old.items ++ (word.now ++ 32 ∷ [])) }
{
    line.extend_from_slice(word)?;
    line.push(b' ')?;
    Ok(())
}

/// The line that tells of a file.
fn stat_line(alloc: Global, info: &Info) -> Result<Vec<u8>, Memory>
    ensures { IfOk result (λ v. v.items ≡ stat_line info.now) }
{
    let mode = mode_text(alloc, info.mode)?;
    let length = info.length;
    let path = info.path;
    let mut line = Vec::from_slice(alloc, b"stat ")?;
    put_word(&mut line, info.name.as_slice())?;
    put_word(&mut line, info.uid.as_slice())?;
    put_word(&mut line, info.gid.as_slice())?;
    put_word(&mut line, info.muid.as_slice())?;
    let rest = format!(in alloc; "{mode} {length} {path}\n")?;
    line.extend_from_slice(rest.as_bytes())?;
    Ok(line)
}

/// The reply to an answer.
fn reply(alloc: Global, answer: &Answer) -> Result<Vec<u8>, Memory>
    ensures { IfOk result (λ v. v.items ≡ reply answer.now) }
{
    match answer {
        Answer::Done => Ok(Vec::from_slice(alloc, b"ok\n")?),
        Answer::Snapped { epoch, archive } => snapped(alloc, *epoch, *archive),
        Answer::Epochs { low, high } => epochs(alloc, *low, *high),
        Answer::Space {
            usable,
            blocks,
            used,
            places,
        } => space(alloc, *usable, *blocks, *used, *places),
        Answer::Checked { used, leaked } => checked(alloc, *used, *leaked),
        Answer::Stat(info) => stat_line(alloc, info),
        Answer::Users(table) => Ok(Vec::from_slice(alloc, table.as_slice())?),
        Answer::Error(text) => error(alloc, text.as_slice()),
    }
}

fn snapped(alloc: Global, epoch: u32, archive: bool) -> Result<Vec<u8>, Memory>
    ensures { IfOk result (λ v. v.items ≡ snap_line epoch archive) }
{
    let archived = if archive { " archive" } else { "" };
    Ok(format!(in alloc; "snap {epoch}{archived}\n")?.into_bytes())
}

fn epochs(alloc: Global, low: u32, high: u32) -> Result<Vec<u8>, Memory>
    ensures { IfOk result (λ v. v.items ≡ epoch_line low high) }
{
    Ok(format!(in alloc; "epoch low {low} high {high}\n")?.into_bytes())
}

fn space(alloc: Global, usable: u32, blocks: u32, used: u32, places: u32) -> Result<Vec<u8>, Memory>
    ensures { IfOk result (λ v. v.items ≡ space_lines usable blocks used places) }
{
    let main = format!(in alloc; "main {usable} of {blocks}\n")?;
    let arena = format!(in alloc; "arena {used} of {places}\n")?;
    let mut lines = main.into_bytes();
    lines.extend_from_slice(arena.as_bytes())?;
    Ok(lines)
}

fn checked(alloc: Global, used: u32, leaked: u32) -> Result<Vec<u8>, Memory>
    ensures { IfOk result (λ v. v.items ≡ check_line used leaked) }
{
    Ok(format!(in alloc; "check ok used {used} leaked {leaked}\n")?.into_bytes())
}

fn error(alloc: Global, text: &[u8]) -> Result<Vec<u8>, Memory>
    ensures { IfOk result (λ v. v.items ≡ error_line text.now) }
{
    let mut line = Vec::from_slice(alloc, b"error ")?;
    line.extend_from_slice(text)?;
    line.push(b'\n')?;
    Ok(line)
}

/// Appends the reply to an answer, each of its lines ended by a newline.
pub fn write_reply(answer: &Answer, out: &mut Vec<u8>) -> Result<(), Memory>
    ensures written { OnOk result (out.new.items ≡ out.old.items ++ reply answer.now) }
    ensures left { OnErr result (out.new.items ≡ out.old.items) }
{
    let lines = reply(*out.allocator(), answer)?;
    out.extend_from_slice(lines.as_slice())?;
    Ok(())
}
