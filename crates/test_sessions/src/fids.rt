//! Each call with ample memory, and values that the Plan 9 manual gives.
ghost use Rattle.std.specs.Prelude.{◌≡◌, IfOk, IsTrue};
ghost use Rattle.fo_world.specs.Limits.{IsName, IsUser};

use fo_base::is_text;
use fo_plain::PlainFiles;
use fo_world::{FileError, FileOps, Info, Name, Place, Trail, View};
use nine_fids::{
    Access, Fid, KnownUsers, Mode, Refusal, bytes_at, in_use, info_at, known, least,
    may_write_above, named_at, next_at, parent_at, put_record, remove_fid, table_of, user_of,
};
use nine_wire::Reply;
use std::alloc::Global;
use std::process::Abort;
use std::test::Fail;

const TABLE: &str = "adm:adm::\nnone:none::\nken:ken::\n";

/// The record of an empty root of `adm`, made at moment 7.
const ROOT: &[u8] =
    b"\x39\0\0\0\0\0\0\0\x80\0\0\0\0\0\0\0\0\0\0\0\0\xff\x01\0\x80\x07\0\0\0\x07\0\0\0\0\0\0\0\0\0\0\0\x01\0/\x03\0adm\x03\0adm\x03\0adm";

/// A place of the active tree.
fn place(alloc: Global, numbers: &[u32]) -> Result<Place, Refusal> {
    Ok(Place {
        view: View::Active,
        trail: Trail::new(Vec::from_slice(alloc, numbers)?),
    })
}

fn name(alloc: Global, text: &[u8]) -> Result<Name, Refusal>
    ensures { IfOk result IsName }
{
    if text.len() == 0 || text.len() > 255 || !is_text(text) {
        return Err(Refusal::BadName);
    }
    Ok(Name::copy_of(alloc, text)?)
}

fn user(alloc: Global, text: &[u8]) -> Result<Name, Refusal>
    ensures { IfOk result IsUser }
{
    if text.len() == 0 || text.len() > 64 || !is_text(text) {
        return Err(Refusal::BadName);
    }
    Ok(Name::copy_of(alloc, text)?)
}

/// Makes a file of `glenda` and `sys`.
fn make(
    files: &mut PlainFiles,
    alloc: Global,
    at: &[u32],
    text: &[u8],
    mode: u32,
) -> Result<(), Refusal> {
    let at = place(alloc, at)?;
    let text = name(alloc, text)?;
    let glenda = user(alloc, b"glenda")?;
    let sys = user(alloc, b"sys")?;
    let _ = files.create(&at, &text, mode, &glenda, &glenda, &sys, 2)?;
    Ok(())
}

/// Writes at the start of a file.
fn put(files: &mut PlainFiles, alloc: Global, at: &[u32], bytes: &[u8]) -> Result<(), Refusal> {
    let at = place(alloc, at)?;
    let glenda = user(alloc, b"glenda")?;
    files.write(&at, 0, bytes, &glenda, 3)?;
    Ok(())
}

/// Files with a table of users: the directory has number 1, and the table 2.
fn with_table(alloc: Global) -> Result<PlainFiles, Refusal> {
    let mut files = PlainFiles::new(alloc, 1)?;
    make(&mut files, alloc, &[], b"adm", 0x8000_01ed)?;
    make(&mut files, alloc, &[1], b"users", 0o644)?;
    put(&mut files, alloc, &[1, 2], TABLE.as_bytes())?;
    Ok(files)
}

/// What was told is of the file with this path.
fn tells(rt: &impl Abort, told: Result<Info, Refusal>, path: u64) -> Result<(), Fail> {
    assert_eq!(rt; told?.path, path);
    Ok(())
}

fn looks(rt: &impl Abort, alloc: Global, files: &mut PlainFiles) -> Result<(), Fail> {
    tells(rt, info_at(files, &place(alloc, &[1, 2])?), 2)?;
    tells(rt, parent_at(files, &place(alloc, &[1, 2])?), 1)?;
    tells(rt, named_at(files, &place(alloc, &[1])?, b"users"), 2)
}

/// The path of the file in the directory of the table, with the least name above the one given.
fn path_above(
    alloc: Global,
    files: &mut PlainFiles,
    after: Option<&Name>,
) -> Result<Option<u64>, Refusal> {
    let found = next_at(files, &place(alloc, &[1])?, after)?;
    Ok(match found {
        Some(info) => Some(info.path),
        None => None,
    })
}

fn lists(rt: &impl Abort, alloc: Global, files: &mut PlainFiles) -> Result<(), Fail> {
    let users = Name::copy_of(alloc, b"users")?;
    assert_eq!(rt; path_above(alloc, files, None)?, Some(2));
    assert_eq!(rt; path_above(alloc, files, Some(&users))?, None);
    Ok(())
}

fn reads(rt: &impl Abort, alloc: Global, files: &mut PlainFiles) -> Result<(), Fail> {
    let bytes = bytes_at(alloc, files, &place(alloc, &[1, 2])?, 10, 4)?;
    assert_eq!(rt; bytes.as_slice(), b"none".as_slice());
    Ok(())
}

/// The user who attaches under a name.
fn attached(alloc: Global, files: &mut PlainFiles, text: &[u8]) -> Result<Name, Refusal> {
    let mut known_users = KnownUsers::new(alloc);
    let users = table_of(alloc, files, &mut known_users)?;
    let name = Name::copy_of(alloc, text)?;
    user_of(alloc, users, &name)
}

fn attaches(
    rt: &impl Abort,
    alloc: Global,
    files: &mut PlainFiles,
    text: &[u8],
    wanted: &[u8],
) -> Result<(), Fail> {
    let user = attached(alloc, files, text)?;
    assert_eq!(rt; user.as_slice(), wanted);
    Ok(())
}

/// Whether a fid's user may write above it, by the table of the files.
fn writes_above<F: FileOps>(alloc: Global, files: &mut F, fid: &Fid) -> Result<(), Refusal>
    requires { IsTrue (F.whole files.old) }
{
    let mut known_users = KnownUsers::new(alloc);
    let users = table_of(alloc, files, &mut known_users)?;
    may_write_above(files, users, fid)
}

/// A fid of a user, at the table.
fn fid(alloc: Global, number: u32, user: &[u8]) -> Result<Fid, Refusal> {
    Ok(Fid {
        number,
        user: Name::copy_of(alloc, user)?,
        place: place(alloc, &[1, 2])?,
        opened: None,
    })
}

fn is_allowed(
    rt: &impl Abort,
    alloc: Global,
    files: &mut PlainFiles,
    user: &[u8],
) -> Result<(), Fail> {
    let fid = fid(alloc, 1, user)?;
    writes_above(alloc, files, &fid)?;
    Ok(())
}

fn is_denied(
    rt: &impl Abort,
    alloc: Global,
    files: &mut PlainFiles,
    user: &[u8],
) -> Result<(), Fail> {
    let fid = fid(alloc, 1, user)?;
    let denied = writes_above(alloc, files, &fid);
    assert!(rt; matches!(denied, Err(Refusal::PermissionDenied)));
    Ok(())
}

/// The record of the root of empty files.
fn root_record(alloc: Global) -> Result<Vec<u8>, Refusal> {
    let mut files = PlainFiles::new(alloc, 7)?;
    let mut out = Vec::new(alloc);
    let info = info_at(&mut files, &Place::root(alloc, View::Active))?;
    put_record(info, &mut out)?;
    Ok(out)
}

fn records(rt: &impl Abort, alloc: Global) -> Result<(), Fail> {
    let record = root_record(alloc)?;
    assert_eq!(rt; record.as_slice(), ROOT);
    Ok(())
}

#[test]
fn ample(rt: HostRuntime) -> Result<(), Fail> {
    let alloc = rt.alloc();
    let mut files = with_table(alloc)?;
    looks(&rt, alloc, &mut files)?;
    lists(&rt, alloc, &mut files)?;
    reads(&rt, alloc, &mut files)?;
    attaches(&rt, alloc, &mut files, b"ken", b"ken")?;
    is_allowed(&rt, alloc, &mut files, b"glenda")?;
    records(&rt, alloc)
}

/// The table doesn't know `glenda`, and `ken` isn't of the group of the directory.
fn denies(rt: &impl Abort, alloc: Global, files: &mut PlainFiles) -> Result<(), Fail> {
    attaches(rt, alloc, files, b"glenda", b"none")?;
    is_denied(rt, alloc, files, b"ken")
}

#[test]
fn rights(rt: HostRuntime) -> Result<(), Fail> {
    let alloc = rt.alloc();
    let mut files = with_table(alloc)?;
    denies(&rt, alloc, &mut files)
}

/// Files without a table know `glenda`, and not `ken`.
fn is_standard(rt: &impl Abort, alloc: Global, files: &mut PlainFiles) -> Result<(), Fail> {
    attaches(rt, alloc, files, b"glenda", b"glenda")?;
    attaches(rt, alloc, files, b"ken", b"none")
}

#[test]
fn no_table(rt: HostRuntime) -> Result<(), Fail> {
    let alloc = rt.alloc();
    let mut files = PlainFiles::new(alloc, 1)?;
    is_standard(&rt, alloc, &mut files)
}

/// A refusal is shown as its Rerror says it.
fn shows(rt: &impl Abort, alloc: Global, refusal: Refusal) -> Result<(), Fail> {
    let shown = format!(in alloc; "{refusal}")?;
    match refusal.reply() {
        Reply::Error { ename } => assert_eq!(rt; ename.as_bytes(), shown.as_bytes()),
        _ => return Err(Refusal::BadStat)?,
    }
    Ok(())
}

#[test]
fn texts(rt: HostRuntime) -> Result<(), Fail> {
    for refusal in [
        Refusal::NoVersion,
        Refusal::NoAuthentication,
        Refusal::FidInUse,
        Refusal::TooManyFids,
        Refusal::UnknownTree,
        Refusal::UnknownFid,
        Refusal::TooManyNames,
        Refusal::FidIsOpen,
        Refusal::FidIsNotOpen,
        Refusal::BadOpenMode,
        Refusal::PermissionDenied,
        Refusal::ExclusivelyOpen,
        Refusal::BadName,
        Refusal::NotForReading,
        Refusal::NotForWriting,
        Refusal::BadOffset,
        Refusal::CountTooSmall,
        Refusal::RemovesRoot,
        Refusal::StatTooLong,
        Refusal::BadStat,
        Refusal::RenamesRoot,
        Refusal::File(FileError::Damaged(7)),
    ] {
        shows(&rt, rt.alloc(), refusal)?;
    }
    Ok(())
}

/// The mode that a byte says.
fn says(rt: &impl Abort, byte: u8, access: Access, truncate: bool, remove: bool) {
    let wanted = Some(Mode {
        access,
        truncate,
        remove,
    });
    assert_eq!(rt; Mode::of(byte), wanted);
}

#[test]
fn modes(rt: HostRuntime) -> Result<(), Fail> {
    says(&rt, 0, Access::Read, false, false);
    says(&rt, 0x11, Access::Write, true, false);
    says(&rt, 0x42, Access::ReadWrite, false, true);
    says(&rt, 0x23, Access::Execute, false, false);
    assert_eq!(rt; Mode::of(4), None);
    Ok(())
}

/// The number of the fid that has the least one.
fn least_number(fids: &[Fid]) -> Option<u32> {
    match least(fids) {
        Some(fid) => Some(fid.number),
        None => None,
    }
}

fn three(alloc: Global) -> Result<Vec<Fid>, Refusal> {
    let mut fids = Vec::new(alloc);
    fids.push(fid(alloc, 7, b"ken")?)?;
    fids.push(fid(alloc, 3, b"ken")?)?;
    fids.push(fid(alloc, u32::MAX, b"ken")?)?;
    Ok(fids)
}

#[test]
fn fids(rt: HostRuntime) -> Result<(), Fail> {
    let mut fids = three(rt.alloc())?;
    assert!(rt; known(fids.as_slice(), 7).is_some());
    assert!(rt; known(fids.as_slice(), u32::MAX).is_none());
    assert_eq!(rt; least_number(fids.as_slice()), Some(3));
    remove_fid(&mut fids, 3);
    assert_eq!(rt; least_number(fids.as_slice()), Some(7));
    assert!(rt; !in_use(fids.as_slice(), 3));
    Ok(())
}
