//! Files are asked twice for the same, over any files.
ghost use Rattle.std.specs.Prelude.{◌≡◌, ◌≢◌, ℕ, None, IfOk};
ghost use Rattle.fo_world.specs.Answers.{Refuses};
ghost use Rattle.test_blocks.specs.Asked.{IsLong};

use fo_world::{FileError, FileOps, Place};

/// How long a file is.
fn length_at<F: FileOps>(files: &mut F, at: &Place) -> Result<u64, FileError>
    requires serves { F.serves files.old at.now.view }
    ensures told { F.honest files.old → IfOk result (λ n. IsLong (F.whole files.old) (F.world files.old) at.now n) }
    ensures world { F.honest files.old → IfOk result (λ n. F.world files.new ≡ F.world files.old) }
    ensures cause { Refuses (F.faults files.old) (F.faults files.new) (F.honest files.old) (F.has_room files.new) 0 result }
    ensures keeps { F.keeps files.old files.new }
{
    match files.info(at) {
        Ok(info) => Ok(info.length),
        Err(e) => Err(e),
    }
}

/// What both are.
fn both(first: u64, second: u64) -> u64
    requires same { first ≡ second }
    ensures { result ≡ second }
{
    let _ = first;
    second
}

/// How long a file is, asked twice: None where the two answers differ. Honest files give one answer; of others nothing is known that two
/// calls would have to answer alike.
pub fn agreed_length<F: FileOps>(files: &mut F, at: &Place) -> Result<Option<u64>, FileError>
    requires serves { F.serves files.old at.now.view }
    ensures agree { F.honest files.old → IfOk result (λ n. n ≢ None) }
    ensures cause { Refuses (F.faults files.old) (F.faults files.new) (F.honest files.old) (F.has_room files.new) 0 result }
    ensures keeps { F.keeps files.old files.new }
{
    let first = match length_at(files, at) {
        Ok(n) => n,
        Err(e) => return Err(e),
    };
    let second = match length_at(files, at) {
        Ok(n) => n,
        Err(e) => return Err(e),
    };
    if first == second {
        return Ok(Some(both(first, second)));
    }
    Ok(None)
}
