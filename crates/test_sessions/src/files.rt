//! Each call that may want memory, with ample memory, over plain files.
ghost use Rattle.std.specs.Prelude.{IfOk};
ghost use Rattle.fo_world.specs.Limits.{IsName, IsUser};

use fo_base::is_text;
use fo_plain::PlainFiles;
use fo_world::{Change, FileError, FileOps, Info, Name, Place, Trail, View};
use nine_fids::{Access, Fid, KnownUsers, Opened, Refusal, info_at};
use nine_files::{
    admit, admit_new, list_records, read_to, remove_on_close, remove_there, restate, settle,
    start_of, truncate, walk_from, write_bytes,
};
use nine_wire::Qid;
use std::alloc::Global;
use std::process::Abort;
use std::test::Fail;

/// The stat record of `f` as `glenda` made it at the moment 2, with the group `sys`.
const RECORD: &[u8] =
    b"\x3f\0\0\0\0\0\0\0\0\0\0\0\0\x01\0\0\0\0\0\0\0\xa4\x01\0\0\x02\0\0\0\x02\0\0\0\0\0\0\0\0\0\0\0\x01\0f\x06\0glenda\x03\0sys\x06\0glenda";

fn name(alloc: Global, text: &[u8]) -> Result<Name, Refusal>
    ensures { IfOk result IsName }
{
    if text.len() == 0 || text.len() > 255 || !is_text(text) {
        return Err(Refusal::BadName);
    }
    Ok(Name::copy_of(alloc, text)?)
}

fn user(alloc: Global, text: &[u8]) -> Result<Name, Refusal>
    ensures { IfOk result IsUser }
{
    if text.len() == 0 || text.len() > 64 || !is_text(text) {
        return Err(Refusal::BadName);
    }
    Ok(Name::copy_of(alloc, text)?)
}

/// A fid of `glenda`, at a place of the active tree.
fn fid(alloc: Global, numbers: &[u32], opened: Option<Opened>) -> Result<Fid, Refusal>
    ensures { IfOk result (λ f. IsUser f.user) }
{
    Ok(Fid {
        number: 0,
        user: user(alloc, b"glenda")?,
        place: Place {
            view: View::Active,
            trail: Trail::new(Vec::from_slice(alloc, numbers)?),
        },
        opened,
    })
}

/// How a fid is open that was opened with ORCLOSE, or read so far.
fn opened(remove: bool, offset: u64, last: Option<Name>) -> Opened {
    Opened {
        access: Access::Read,
        remove,
        exclusive: false,
        offset,
        last,
    }
}

/// Makes a file at the root.
fn make(alloc: Global, files: &mut PlainFiles, text: &[u8]) -> Result<(), Refusal> {
    let root = Place::root(alloc, View::Active);
    let text = name(alloc, text)?;
    let glenda = user(alloc, b"glenda")?;
    let sys = user(alloc, b"sys")?;
    let _ = files.create(&root, &text, 0o644, &glenda, &glenda, &sys, 2)?;
    Ok(())
}

/// Files with `f`, of number 1, and `g`, of number 2.
fn two_files(alloc: Global) -> Result<PlainFiles, Refusal> {
    let mut files = PlainFiles::new(alloc, 1)?;
    make(alloc, &mut files, b"f")?;
    make(alloc, &mut files, b"g")?;
    Ok(files)
}

/// What is told of the file of a fid.
fn told(files: &mut PlainFiles, fid: &Fid) -> Result<Info, Refusal> {
    info_at(files, &fid.place)
}

fn walks(rt: &impl Abort, alloc: Global) -> Result<(), Fail> {
    let mut files = two_files(alloc)?;
    let root = fid(alloc, &[], None)?;
    let names = [name(alloc, b"g")?];
    let walked = walk_from(
        alloc,
        &mut files,
        &mut KnownUsers::new(alloc),
        &root,
        &names,
    )?;
    assert_eq!(rt; walked.last.trail.as_slice(), [2].as_slice());
    assert!(rt; walked.stopped.is_none());
    Ok(())
}

/// Only the first record stands within the count.
fn is_listed(rt: &impl Abort, alloc: Global, files: &mut PlainFiles) -> Result<(), Fail> {
    let root = Place::root(alloc, View::Active);
    let given = list_records(alloc, files, &root, None, 100)?;
    assert_eq!(rt; given.bytes.as_slice(), RECORD);
    Ok(())
}

fn lists(rt: &impl Abort, alloc: Global) -> Result<(), Fail> {
    let mut files = two_files(alloc)?;
    is_listed(rt, alloc, &mut files)
}

/// The name from which a read goes on that has given `f`.
fn start(alloc: Global) -> Result<Option<Name>, Refusal> {
    let opened = opened(false, 65, Some(name(alloc, b"f")?));
    start_of(alloc, &opened, 65)
}

/// Where a fid goes on once it has read to an offset.
fn goes_on(alloc: Global, offset: u64) -> Result<Option<u64>, Refusal> {
    let moved = read_to(
        alloc,
        &fid(alloc, &[], None)?,
        &opened(false, 0, None),
        offset,
        None,
    )?;
    Ok(match &moved.opened {
        Some(opened) => Some(opened.offset),
        None => None,
    })
}

fn reads(rt: &impl Abort, alloc: Global) -> Result<(), Fail> {
    let start = start(alloc)?;
    assert!(rt; start.is_some_and(|name| name.as_slice() == b"f".as_slice()));
    assert_eq!(rt; goes_on(alloc, 65)?, Some(65));
    Ok(())
}

/// Writes three bytes into `f`: its length then.
fn written(alloc: Global, files: &mut PlainFiles) -> Result<u64, Refusal> {
    let fid = fid(alloc, &[1], None)?;
    let info = told(files, &fid)?;
    write_bytes(files, 3, &fid, &info, 0, b"abc")?;
    Ok(told(files, &fid)?.length)
}

/// Opens `f` with OTRUNC: its qid then.
fn cut(alloc: Global, files: &mut PlainFiles) -> Result<Qid, Refusal> {
    let fid = fid(alloc, &[1], None)?;
    let (info, mode) = admit(alloc, files, &mut KnownUsers::new(alloc), &fid, &[], 0x11)?;
    truncate(files, &fid, &info, mode, 4)
}

fn opens(rt: &impl Abort, alloc: Global) -> Result<(), Fail> {
    let mut files = two_files(alloc)?;
    assert_eq!(rt; written(alloc, &mut files)?, 3);
    assert_eq!(rt; cut(alloc, &mut files)?.vers, 2);
    let root = fid(alloc, &[], None)?;
    let (above, _) = admit_new(
        alloc,
        &mut files,
        &mut KnownUsers::new(alloc),
        &root,
        b"h",
        0o644,
        0,
    )?;
    assert_eq!(rt; above.path, 0);
    Ok(())
}

/// Changes the mode of a file.
fn set_mode(alloc: Global, files: &mut PlainFiles, fid: &Fid) -> Result<(), Refusal>
    requires { IsUser fid.now.user }
{
    let info = info_at(files, &fid.place)?;
    let what = Change {
        mode: Some(0o600),
        mtime: None,
        length: None,
        name: None,
        gid: None,
    };
    restate(
        alloc,
        files,
        &mut KnownUsers::new(alloc),
        5,
        fid,
        false,
        &info,
        &what,
    )
}

/// Changes the mode of `f`, and settles that.
fn change(alloc: Global, files: &mut PlainFiles) -> Result<(), Refusal> {
    let fid = fid(alloc, &[1], None)?;
    set_mode(alloc, files, &fid)?;
    settle(files)
}

/// The mode of `f`.
fn mode(alloc: Global, files: &mut PlainFiles) -> Result<u32, Refusal> {
    let fid = fid(alloc, &[1], None)?;
    Ok(told(files, &fid)?.mode)
}

fn is_changed(rt: &impl Abort, alloc: Global, files: &mut PlainFiles) -> Result<(), Fail> {
    change(alloc, files)?;
    assert_eq!(rt; mode(alloc, files)?, 0o600);
    Ok(())
}

fn changes(rt: &impl Abort, alloc: Global) -> Result<(), Fail> {
    let mut files = two_files(alloc)?;
    is_changed(rt, alloc, &mut files)
}

/// Removes `f`.
fn remove_one(alloc: Global, files: &mut PlainFiles) -> Result<(), Refusal> {
    let fid = fid(alloc, &[1], None)?;
    remove_there(alloc, files, &mut KnownUsers::new(alloc), 6, &fid)
}

/// Clunks a fid of `g` that was opened with ORCLOSE.
fn close_other(alloc: Global, files: &mut PlainFiles) -> Result<(), Refusal> {
    let fid = fid(alloc, &[2], Some(opened(true, 0, None)))?;
    remove_on_close(alloc, files, &mut KnownUsers::new(alloc), 7, &fid)
}

fn is_gone(
    rt: &impl Abort,
    alloc: Global,
    files: &mut PlainFiles,
    number: u32,
) -> Result<(), Fail> {
    let fid = fid(alloc, &[number], None)?;
    let gone = told(files, &fid);
    assert!(rt; matches!(gone, Err(Refusal::File(FileError::Gone))));
    Ok(())
}

fn both_go(rt: &impl Abort, alloc: Global, files: &mut PlainFiles) -> Result<(), Fail> {
    remove_one(alloc, files)?;
    close_other(alloc, files)?;
    is_gone(rt, alloc, files, 1)?;
    is_gone(rt, alloc, files, 2)
}

fn removes(rt: &impl Abort, alloc: Global) -> Result<(), Fail> {
    let mut files = two_files(alloc)?;
    both_go(rt, alloc, &mut files)
}

#[test]
fn ample(rt: HostRuntime) -> Result<(), Fail> {
    let alloc = rt.alloc();
    walks(&rt, alloc)?;
    lists(&rt, alloc)?;
    reads(&rt, alloc)?;
    opens(&rt, alloc)?;
    changes(&rt, alloc)?;
    removes(&rt, alloc)
}
