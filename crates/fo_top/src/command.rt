//! The commands.
ghost use Rattle.std.specs.Prelude.{◌≡◌, map};
ghost use Rattle.std.specs.String.{string_bytes};
ghost use Rattle.fo_top.specs.Words.{named, command_of};

/// What the words of the program ask for: `9p` serves one connection, `turns` runs a script, `flfmt` formats both devices, `flchk`
/// checks them.
#[derive(Clone, Copy, Debug, PartialEq, Eq)]
pub enum Command {
    Serve,
    Turns,
    Format,
    Check,
}

/// The command of this name.
fn named(word: &[u8]) -> Option<Command>
    ensures { result ≡ named word.now }
{
    if word == b"9p".as_slice() {
        return Some(Command::Serve);
    }
    if word == b"turns".as_slice() {
        return Some(Command::Turns);
    }
    if word == b"flfmt".as_slice() {
        return Some(Command::Format);
    }
    if word == b"flchk".as_slice() {
        return Some(Command::Check);
    }
    None
}

/// The command of these words: its name and the names of two files, of at least one byte.
pub fn command_of(words: &[String]) -> Option<Command>
    ensures { result ≡ command_of (map string_bytes words.now) }
{
    match words {
        [command, main, arena] => {
            if main.is_empty() || arena.is_empty() {
                return None;
            }
            named(command.as_bytes())
        }
        _ => None,
    }
}
