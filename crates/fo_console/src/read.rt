//! Commands read.
ghost use Rattle.std.specs.Prelude.{◌≡◌, map, IfOk, MatchResult};
ghost use Rattle.std.specs.Option.{option_map};
ghost use Rattle.fo_console.specs.Command.{Said, said};
ghost use Rattle.fo_console.specs.Line.{Says};
ghost use Rattle.fo_console.specs.Reading.{alone, with_one, with_two, with_four, command_of, is_line};
ghost use Rattle.fo_console.specs.declared.error.LineError.TheVariants.{Memory as NoMemory};

use crate::command::Command;
use crate::error::LineError;
use crate::words::{are_texts, read_number, read_path, read_perm, words};
use fo_base::{Memory, is_text};
use fo_world::Name;
use std::alloc::Global;
use std::str;

/// The command that is one word.
fn alone(word: &str) -> Option<Command>
    ensures { option_map said result ≡ alone word.now }
{
    match word {
        "sync" => Some(Command::Sync),
        "snap" => Some(Command::Snap { archive: false }),
        "epoch" => Some(Command::Epoch),
        "cancel" => Some(Command::Cancel),
        "df" => Some(Command::Df),
        "check" => Some(Command::Check),
        "halt" => Some(Command::Halt),
        "unhalt" => Some(Command::Unhalt),
        "users" => Some(Command::Users),
        _ => None,
    }
}

/// The command of a word and its argument.
fn with_one(alloc: Global, word: &str, argument: &str) -> Result<Option<Command>, Memory>
    ensures { IfOk result (λ o. option_map said o ≡ with_one word.now argument.now) }
{
    match word {
        "snap" => Ok((argument == "-a").then_some(Command::Snap { archive: true })),
        "remove" => Ok(read_path(alloc, argument)?.map(Command::Remove)),
        "stat" => Ok(read_path(alloc, argument)?.map(Command::Stat)),
        _ => Ok(None),
    }
}

/// The command of a word, a flag and its argument.
fn with_two(word: &str, flag: &str, argument: &str) -> Option<Command>
    ensures { option_map said result ≡ with_two word.now flag.now argument.now }
{
    if word == "epoch" && flag == "-y" {
        read_number(argument).map(Command::Low)
    } else {
        None
    }
}

/// The command of a word, a path, a user, a group and permissions.
fn with_four(
    alloc: Global,
    word: &str,
    path: &str,
    uid: &str,
    gid: &str,
    perm: &str,
) -> Result<Option<Command>, Memory>
    ensures { IfOk result (λ o. option_map said o ≡ with_four word.now path.now uid.now gid.now perm.now) }
{
    if word != "create" {
        return Ok(None);
    }
    let Some(perm) = read_perm(perm) else {
        return Ok(None);
    };
    let Some(path) = read_path(alloc, path)? else {
        return Ok(None);
    };
    let uid = Name::copy_of(alloc, uid.as_bytes())?;
    let gid = Name::copy_of(alloc, gid.as_bytes())?;
    Ok(Some(Command::Create {
        path,
        uid,
        gid,
        perm,
    }))
}

/// The command that the words are.
fn read_words(alloc: Global, words: &[&str]) -> Result<Option<Command>, Memory>
    ensures { IfOk result (λ o. option_map said o ≡ command_of (map (λ x. x.now) words.now)) }
{
    match words {
        [word] => Ok(alone(word)),
        [word, argument] => with_one(alloc, word, argument),
        [word, flag, argument] => Ok(with_two(word, flag, argument)),
        [word, path, uid, gid, perm] => with_four(alloc, word, path, uid, gid, perm),
        _ => Ok(None),
    }
}

/// Whether the bytes are at most 1000, and UTF-8 without NUL.
fn is_line(line: &[u8]) -> bool
    ensures { result ≡ is_line line.now }
{
    line.len() <= 1000 && is_text(line)
}

/// The command that the line is.
pub fn read_line(alloc: Global, line: &[u8]) -> Result<Command, LineError>
    // The line says the command that is answered.
    ensures found { IfOk result (λ c. Says line.now (said c)) }
    // A command that it says is answered, unless memory runs out.
    ensures only { (s : Said) → Says line.now s → MatchResult result (λ c. said c ≡ s) (λ e. e ≡ NoMemory) }
{
    if !is_line(line) {
        return Err(LineError::BadLine);
    }
    let Ok(text) = str::from_utf8(line) else {
        return Err(LineError::BadLine);
    };
    let words = words(alloc, text)?;
    if !are_texts(words.as_slice()) {
        return Err(LineError::BadLine);
    }
    let Some(command) = read_words(alloc, words.as_slice())? else {
        return Err(LineError::BadLine);
    };
    Ok(command)
}
