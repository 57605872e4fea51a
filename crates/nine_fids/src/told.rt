//! What is told of files on the wire.
ghost use Rattle.std.specs.Prelude.{◌≡◌, ◌++◌, OnOk, OnErr};
ghost use Rattle.fo_world.specs.Fits.{InfoFits};
ghost use Rattle.nine_stat.specs.Stat.{IsRecord};
ghost use Rattle.nine_fids.specs.Told as nine;

use fo_base::Memory;
use fo_world::{DMAPPEND, DMDIR, DMEXCL, Info};
use nine_stat::{Stat, write_stat};
use nine_wire::Qid;

/// The qid of a file.
pub fn qid_of(info: &Info) -> Qid
    ensures { result ≡ nine.qid_of info.now }
{
    Qid {
        kind: (info.mode >> 24) as u8,
        vers: info.vers,
        path: info.path,
    }
}

/// The stat record of a file.
pub fn stat_of(info: Info) -> Stat
    ensures { result ≡ nine.stat_of info }
{
    Stat {
        kind: 0,
        dev: 0,
        qid: qid_of(&info),
        mode: info.mode,
        atime: info.atime,
        mtime: info.mtime,
        length: info.length,
        name: info.name,
        uid: info.uid,
        gid: info.gid,
        muid: info.muid,
    }
}

/// Adds the record of a file. An `Err` adds none.
pub fn put_record(info: Info, out: &mut Vec<u8>) -> Result<(), Memory>
    requires { InfoFits info }
    ensures put { OnOk result (out.new.items ≡ out.old.items ++ nine.record_of info) }
    ensures err { OnErr result (out.new.items ≡ out.old.items) }
    ensures fits { OnOk result (IsRecord (nine.record_of info) (nine.stat_of info)) }
{
    write_stat(&stat_of(info), out)?;
    Ok(())
}

/// Whether a mode has DMDIR.
pub fn is_dir(mode: u32) -> bool
    ensures { result ≡ nine.is_dir mode }
{
    mode >= DMDIR
}

/// Whether a mode has DMAPPEND.
pub fn appends(mode: u32) -> bool
    ensures { result ≡ nine.appends mode }
{
    mode & DMAPPEND != 0
}

/// Whether a mode has DMEXCL.
pub fn is_exclusive(mode: u32) -> bool
    ensures { result ≡ nine.is_exclusive mode }
{
    mode & DMEXCL != 0
}
