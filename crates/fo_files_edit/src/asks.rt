//! What a change asks for.
ghost use Rattle.std.specs.Prelude.{◌≡◌, ◌+◌, ◌^◌, ◌<◌, ◌≤◌, ℕ, Bool, true, false, not, List, IfSome, IfOk, IfErr, OnOk, is_some};
ghost use Rattle.fo_world.specs.declared.place.View.{View};
ghost use Rattle.fo_world.specs.Step.{is_active, new_name};
ghost use Rattle.fo_files_edit.specs.Asks as of;
ghost use Rattle.fo_files_edit.specs.Asks.{IsRefused, IsTold};

use fo_base::Bytes;
use fo_files_into::files_at::DATA_LIMIT;
use fo_world::{Change, FileError, View};

/// Whether a view is that of the active tree.
fn is_of_active(view: View) -> bool
    ensures { result ≡ is_active view }
{
    matches!(view, View::Active)
}

/// Whether a name is given, and another than this.
pub fn is_renamed(name: &Option<Bytes>, old: &[u8]) -> bool
    ensures { result ≡ is_some (new_name name.now old.now) }
{
    match name {
        Some(name) => name.as_slice() != old,
        None => false,
    }
}

/// Whether a length is given that no directory has.
fn gives_length(length: Option<u64>) -> bool
    ensures { result ≡ true → (n : ℕ) × (length ≡ Some n) × (0 < n) }
{
    match length {
        Some(n) => 0 < n,
        None => false,
    }
}

/// Refusals that come before another file is looked for: a directory that is to get a length, and a view that isn't the active tree.
pub(crate) fn bars_early(view: View, what: &Change, dir: bool) -> Result<(), FileError>
    ensures active { OnOk result (is_active view ≡ true) }
    ensures told { IfErr result IsTold }
    ensures refused { IfErr result (λ e. (halted : Bool) (name : List ℕ) → IsRefused view what.now halted dir name e) }
{
    if dir && gives_length(what.length) {
        return Err(FileError::IsDir);
    }
    if !is_of_active(view) {
        return Err(FileError::ReadOnly);
    }
    Ok(())
}

/// Whether nothing is given, or only what changes nothing: the name that a file has, and length 0 of a directory.
fn changes_nothing(what: &Change, name: &[u8], dir: bool) -> bool
    ensures { result ≡ of.changes_nothing what.now name.now dir }
{
    what.mode.is_none()
        && what.mtime.is_none()
        && what.gid.is_none()
        && !is_renamed(&what.name, name)
        && (what.length.is_none() || dir)
}

/// Whether a length is given that no file may have.
fn exceeds(length: Option<u64>) -> bool
    ensures over { result ≡ true → (n : ℕ) × (length ≡ Some n) × (2 ^ 40 < n) }
    ensures within { result ≡ false → IfSome length (λ n. n ≤ 2 ^ 40) }
{
    match length {
        Some(n) => DATA_LIMIT < n,
        None => false,
    }
}

/// Refusals that come after: a length that is too big, and a system that is halted; and whether anything changes.
pub(crate) fn bars_late(
    what: &Change,
    name: &[u8],
    dir: bool,
    halted: bool,
) -> Result<bool, FileError>
    ensures changes { IfOk result (λ does. does ≡ not (of.changes_nothing what.now name.now dir)) }
    ensures within { OnOk result (IfSome what.now.length (λ n. n ≤ 2 ^ 40)) }
    ensures awake { IfOk result (λ does. does ≡ true → halted ≡ false) }
    ensures told { IfErr result IsTold }
    ensures refused { IfErr result (λ e. (view : View) → is_active view ≡ true → IsRefused view what.now halted dir name.now e) }
{
    if exceeds(what.length) {
        return Err(FileError::TooBig);
    }
    if changes_nothing(what, name, dir) {
        return Ok(false);
    }
    if halted {
        return Err(FileError::Halted);
    }
    Ok(true)
}
