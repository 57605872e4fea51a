//! How scripts end.
use crate::served::{Served, says, text};
use fo_links::{MemSink, MemSource};
use fo_script::{ScriptEnd, run_script};
use std::test::Fail;

/// What is no line is bad where it begins, and all before it is answered.
#[test]
fn bad_lines(rt: HostRuntime) -> Result<(), Fail> {
    let alloc = rt.alloc();
    says(
        &rt,
        alloc,
        &["t 1\n", "q\n", "f\n"],
        &[],
        ScriptEnd::BadLine(4),
    )?;
    says(
        &rt,
        alloc,
        &["f\n", "u\n", "t 01\n"],
        &["f idle\n", "u empty\n"],
        ScriptEnd::BadLine(4),
    )?;
    says(
        &rt,
        alloc,
        &["h 3\n", "h 16\n"],
        &["h 3\n"],
        ScriptEnd::BadLine(4),
    )?;
    says(
        &rt,
        alloc,
        &["f\n", "\n"],
        &["f idle\n"],
        ScriptEnd::BadLine(2),
    )?;
    says(
        &rt,
        alloc,
        &["f\n", "u"],
        &["f idle\n"],
        ScriptEnd::BadLine(2),
    )?;
    says(&rt, alloc, &["f"], &[], ScriptEnd::BadLine(0))
}

/// What a session is sent is exactly one message.
#[test]
fn bad_messages(rt: HostRuntime) -> Result<(), Fail> {
    let alloc = rt.alloc();
    let part = "s 0 130000006401001800010006003950323030\n";
    let more = "s 0 1300000064010018000100060039503230303000\n";
    let other = "s 0 13000000650100180001000600395032303030\n";
    says(
        &rt,
        alloc,
        &["f\n", part],
        &["f idle\n"],
        ScriptEnd::BadLine(2),
    )?;
    says(
        &rt,
        alloc,
        &["f\n", more],
        &["f idle\n"],
        ScriptEnd::BadLine(2),
    )?;
    says(&rt, alloc, &[other], &[], ScriptEnd::BadLine(0))?;
    says(&rt, alloc, &["s 0 \n"], &[], ScriptEnd::BadLine(0))
}

/// The input fails at its third call, behind ten bytes.
#[test]
fn read_fault(rt: HostRuntime) -> Result<(), Fail> {
    let alloc = rt.alloc();
    let mut fails = Vec::new(alloc);
    fails.push(2)?;
    let input = text(alloc, &["f\n", "u\n", "t 7\n", "f\n", "f\n", "f\n"])?;
    let mut input = MemSource::new(input, 5, fails);
    let mut out = MemSink::new(Vec::new(alloc));
    let mut served = Served::new(alloc)?;
    let ended = run_script(alloc, &mut input, &mut out, &mut served);
    assert_eq!(rt; ended, ScriptEnd::ReadFault);
    assert_eq!(rt; out.bytes(), b"f idle\nu empty\nf idle\n".as_slice());
    Ok(())
}

/// The output fails at its second call, which puts a half of its piece; nothing is put out for `t`.
#[test]
fn write_fault(rt: HostRuntime) -> Result<(), Fail> {
    let alloc = rt.alloc();
    let mut fails = Vec::new(alloc);
    fails.push(1)?;
    let input = text(alloc, &["f\n", "t 7\n", "u\n", "f\n"])?;
    let mut input = MemSource::new(input, 5, Vec::new(alloc));
    let mut out = MemSink::new(fails);
    let mut served = Served::new(alloc)?;
    let ended = run_script(alloc, &mut input, &mut out, &mut served);
    assert_eq!(rt; ended, ScriptEnd::WriteFault);
    assert_eq!(rt; out.bytes(), b"f idle\nu em".as_slice());
    Ok(())
}
