//! Answers written.
use fo_base::Memory;
use fo_lines::{
    ArchiveEnd, Archived, Flushed, Unlinked, put_archived, put_archived_all, put_console,
    put_drops, put_flushed, put_flushed_all, put_reply, put_unlinked,
};
use std::test::Fail;

/// Each answer that tells of flushing.
fn flushes(out: &mut Vec<u8>) -> Result<(), Memory> {
    put_flushed(Flushed::Wrote, out)?;
    put_flushed(Flushed::Synced, out)?;
    put_flushed(Flushed::Idle, out)?;
    put_flushed(Flushed::Fault(31), out)?;
    put_flushed_all(None, out)?;
    put_flushed_all(Some(50), out)
}

/// Each that tells of unlinking.
fn unlinks(out: &mut Vec<u8>) -> Result<(), Memory> {
    put_unlinked(Unlinked::Closed, out)?;
    put_unlinked(Unlinked::Waits, out)?;
    put_unlinked(Unlinked::Empty, out)?;
    put_unlinked(Unlinked::Fault(30), out)
}

/// Each that tells of archiving.
fn archives(out: &mut Vec<u8>) -> Result<(), Memory> {
    put_archived(&Archived::More, out)?;
    put_archived(&Archived::Ended(ArchiveEnd::Done([0xda; 20])), out)?;
    put_archived(&Archived::Ended(ArchiveEnd::Idle), out)?;
    put_archived(&Archived::Ended(ArchiveEnd::Refused(9)), out)?;
    put_archived_all(&ArchiveEnd::Done([0x0b; 20]), out)?;
    put_archived_all(&ArchiveEnd::Idle, out)?;
    put_archived_all(&ArchiveEnd::Refused(50), out)
}

/// The other answers.
fn others(out: &mut Vec<u8>) -> Result<(), Memory> {
    put_reply(15, b"\x07\x00\x00\x00\x79\x01\x00".as_slice(), out)?;
    put_drops(0, out)?;
    put_console(b"snap 1 archive".as_slice(), out)
}

#[test]
fn ample(rt: HostRuntime) -> Result<(), Fail> {
    let mut out = Vec::new(rt.alloc());
    others(&mut out)?;
    assert_eq!(rt;
        out.as_slice(),
        b"s 15 07000000790100\nh 0\nc snap 1 archive\n".as_slice()
    );
    Ok(())
}

#[test]
fn turns(rt: HostRuntime) -> Result<(), Fail> {
    let mut out = Vec::new(rt.alloc());
    flushes(&mut out)?;
    unlinks(&mut out)?;
    assert_eq!(rt;
        out.as_slice(),
        b"f wrote\nf synced\nf idle\nf fault 31\nF idle\nF fault 50\nu closed\nu waits\nu empty\nu fault 30\n".as_slice()
    );
    Ok(())
}

#[test]
fn archive_turns(rt: HostRuntime) -> Result<(), Fail> {
    let mut out = Vec::new(rt.alloc());
    archives(&mut out)?;
    assert_eq!(rt;
        out.as_slice(),
        b"a more\na done dadadadadadadadadadadadadadadadadadadada\na idle\na refused 9\nA done 0b0b0b0b0b0b0b0b0b0b0b0b0b0b0b0b0b0b0b0b\nA idle\nA refused 50\n".as_slice()
    );
    Ok(())
}
