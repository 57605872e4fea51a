//! The record of a file `f` of mode 0644 and five bytes, by bytes written out by hand from the manual.
use nine_stat::{CutError, Stat, StatError, cut_dir, read_stat, write_stat};
use nine_wire::Qid;
use std::alloc::Global;
use std::process::Abort;
use std::test::Fail;

/// The record: 65 bytes.
const FILE: &[u8] =
    b"?\x00\x00\x00\x00\x00\x00\x00\x00\x01\x00\x00\x00\x01\x00\x00\x00\x00\x00\x00\x00\xa4\x01\x00\x00\x00\x00\x00\x00\x00\x00\x00\x00\x05\x00\x00\x00\x00\x00\x00\x00\x01\x00f\x06\x00glenda\x03\x00adm\x06\x00glenda";

/// What was read of it.
fn is_file(rt: &impl Abort, read: &Stat) {
    let qid = Qid {
        kind: 0,
        vers: 1,
        path: 1,
    };
    assert_eq!(rt; read.qid, qid);
    assert_eq!(rt; (read.kind, read.dev, read.mode), (0, 0, 0o644));
    assert_eq!(rt; (read.atime, read.mtime, read.length), (0, 0, 5));
    assert_eq!(rt; read.name.as_slice(), b"f".as_slice());
    assert_eq!(rt; read.uid.as_slice(), b"glenda".as_slice());
    assert_eq!(rt; read.gid.as_slice(), b"adm".as_slice());
    assert_eq!(rt; read.muid.as_slice(), b"glenda".as_slice());
}

/// The record is read and written.
fn written(alloc: Global) -> Result<Vec<u8>, Fail> {
    let read = read_stat(alloc, FILE)?;
    let mut out = Vec::new(alloc);
    write_stat(&read, &mut out)?;
    Ok(out)
}

/// The record is read, and cut to this many bytes: so many whole records.
fn cut(
    rt: &impl Abort,
    alloc: Global,
    count: u32,
    wanted: Result<usize, CutError>,
) -> Result<Vec<u8>, Fail> {
    let read = read_stat(alloc, FILE)?;
    let list = [read];
    let mut cut = Vec::new(alloc);
    assert_eq!(rt; cut_dir(&list, count, &mut cut), wanted);
    Ok(cut)
}

/// The bytes are those of the record.
fn is_record(rt: &impl Abort, bytes: Vec<u8>) {
    assert_eq!(rt; bytes.as_slice(), FILE);
}

#[test]
fn ample(rt: HostRuntime) -> Result<(), Fail> {
    let alloc = rt.alloc();
    is_file(&rt, &read_stat(alloc, FILE)?);
    is_record(&rt, written(alloc)?);
    is_record(&rt, cut(&rt, alloc, 65, Ok(1))?);
    assert_eq!(rt; cut(&rt, alloc, 64, Err(CutError::TooSmall))?.len(), 0);
    Ok(())
}

#[test]
fn no_records(rt: HostRuntime) -> Result<(), Fail> {
    let bad: [(&str, &[u8]); 6] = [
        (
            "a size one too small",
            b">\x00\x00\x00\x00\x00\x00\x00\x00\x01\x00\x00\x00\x01\x00\x00\x00\x00\x00\x00\x00\xa4\x01\x00\x00\x00\x00\x00\x00\x00\x00\x00\x00\x05\x00\x00\x00\x00\x00\x00\x00\x01\x00f\x06\x00glenda\x03\x00adm\x06\x00glenda",
        ),
        (
            "a size one too large",
            b"@\x00\x00\x00\x00\x00\x00\x00\x00\x01\x00\x00\x00\x01\x00\x00\x00\x00\x00\x00\x00\xa4\x01\x00\x00\x00\x00\x00\x00\x00\x00\x00\x00\x05\x00\x00\x00\x00\x00\x00\x00\x01\x00f\x06\x00glenda\x03\x00adm\x06\x00glenda",
        ),
        (
            "a byte behind it",
            b"?\x00\x00\x00\x00\x00\x00\x00\x00\x01\x00\x00\x00\x01\x00\x00\x00\x00\x00\x00\x00\xa4\x01\x00\x00\x00\x00\x00\x00\x00\x00\x00\x00\x05\x00\x00\x00\x00\x00\x00\x00\x01\x00f\x06\x00glenda\x03\x00adm\x06\x00glenda\x00",
        ),
        (
            "a byte too few",
            b"?\x00\x00\x00\x00\x00\x00\x00\x00\x01\x00\x00\x00\x01\x00\x00\x00\x00\x00\x00\x00\xa4\x01\x00\x00\x00\x00\x00\x00\x00\x00\x00\x00\x05\x00\x00\x00\x00\x00\x00\x00\x01\x00f\x06\x00glenda\x03\x00adm\x06\x00glend",
        ),
        (
            "a name with NUL",
            b"?\x00\x00\x00\x00\x00\x00\x00\x00\x01\x00\x00\x00\x01\x00\x00\x00\x00\x00\x00\x00\xa4\x01\x00\x00\x00\x00\x00\x00\x00\x00\x00\x00\x05\x00\x00\x00\x00\x00\x00\x00\x01\x00\x00\x06\x00glenda\x03\x00adm\x06\x00glenda",
        ),
        ("nothing", b""),
    ];
    for (what, bytes) in bad {
        match read_stat(rt.alloc(), bytes) {
            Err(StatError::BadStat) => {}
            _ => assert!(rt; false, "{what}"),
        }
    }
    Ok(())
}
