//! Lines, and what answers them.
use crate::served::{Served, runs, says, text};
use fo_script::ScriptEnd;
use std::alloc::Global;
use std::test::Fail;

/// Tversion of session 0, with msize 65560 and with 256, and the replies.
const VERSION: &str = "s 0 13000000640100180001000600395032303030\n";

const VERSION_256: &str = "s 0 13000000640100000100000600395032303030\n";

const AGREED: &str = "s 0 13000000650100180001000600395032303030\n";

const AGREED_256: &str = "s 0 13000000650100000100000600395032303030\n";

/// Tversion of session 0 with a version that is none, and the reply `unknown`.
const OTHER: &str = "s 0 0e00000064010018000100010078\n";

const UNKNOWN: &str = "s 0 14000000650100180001000700756e6b6e6f776e\n";

/// Tattach of session 0 under fid 0, and the reply with the qid of the root.
const ATTACH: &str = "s 0 1900000068010000000000ffffffff0600676c656e64610000\n";

const ATTACHED: &str = "s 0 1400000069010080000000000000000000000000\n";

/// Tversion, Tattach and Tclunk of session 1, and the replies, where the tree's root was changed once.
const VERSION_1: &str = "s 1 13000000640100180001000600395032303030\n";

const AGREED_1: &str = "s 1 13000000650100180001000600395032303030\n";

const ATTACH_1: &str = "s 1 1900000068010000000000ffffffff0600676c656e64610000\n";

const ATTACHED_1: &str = "s 1 1400000069010080010000000000000000000000\n";

const CLUNK_1: &str = "s 1 0b00000078010001000000\n";

const CLUNKED_1: &str = "s 1 07000000790100\n";

/// The answer to a line that is not built.
const NOT_BUILT: &str = "not built yet\n";

/// Adds a Tversion of this session in 263 bytes, with a version of 250 letters `x`.
fn put_long(session: &str, bytes: &mut Vec<u8>) -> Result<(), Fail> {
    bytes.extend_from_slice(b"s ")?;
    bytes.extend_from_slice(session.as_bytes())?;
    bytes.extend_from_slice(b" 0701000064010018000100fa00")?;
    for _ in 0..250 {
        bytes.extend_from_slice(b"78")?;
    }
    bytes.extend_from_slice(b"\n")?;
    Ok(())
}

/// A line of so many bytes with its newline not counted.
fn console_line(alloc: Global, len: usize) -> Result<Vec<u8>, Fail> {
    let mut bytes = text(alloc, &["c "])?;
    for _ in 2..len {
        bytes.extend_from_slice(b"x")?;
    }
    bytes.extend_from_slice(b"\n")?;
    Ok(bytes)
}

#[test]
fn ample(rt: HostRuntime) -> Result<(), Fail> {
    says(
        &rt,
        rt.alloc(),
        &["t 7\n", VERSION, ATTACH, "h 0\n", "f\n", "u\n", "F\n"],
        &[
            AGREED,
            ATTACHED,
            "h 0\n",
            "f idle\n",
            "u empty\n",
            "F idle\n",
        ],
        ScriptEnd::End,
    )
}

#[test]
fn nothing_is_built_of_these(rt: HostRuntime) -> Result<(), Fail> {
    let alloc = rt.alloc();
    let input = &["c sync\n", "a\n", "A\n", "c \n"];
    let output = &[NOT_BUILT, NOT_BUILT, NOT_BUILT, NOT_BUILT];
    says(&rt, alloc, input, output, ScriptEnd::End)?;
    says(&rt, alloc, &[], &[], ScriptEnd::End)
}

/// A session's fids go before its Tversion: an attach under the same fid is not refused then.
#[test]
fn fids_go(rt: HostRuntime) -> Result<(), Fail> {
    says(
        &rt,
        rt.alloc(),
        &[
            VERSION, ATTACH, VERSION, ATTACH, "h 0\n", "h 15\n", VERSION, ATTACH,
        ],
        &[
            AGREED, ATTACHED, AGREED, ATTACHED, "h 0\n", "h 15\n", AGREED, ATTACHED,
        ],
        ScriptEnd::End,
    )
}

/// A file that session 0 made to be removed when it is clunked is found by session 1, until the fids of session 0 go.
#[test]
fn fids_go_by_h(rt: HostRuntime) -> Result<(), Fail> {
    let made = "s 0 1300000072010000000000010067a401000041\n";
    let created = "s 0 180000007301000000000000010000000000000000000100\n";
    let find = "s 1 140000006e010000000000010000000100010067\n";
    let found = "s 1 160000006f0100010000000000000100000000000000\n";
    let gone = "s 1 1c0000006b0100130066696c6520646f6573206e6f74206578697374\n";
    says(
        &rt,
        rt.alloc(),
        &[
            VERSION, ATTACH, made, VERSION_1, ATTACH_1, find, CLUNK_1, "h 1\n", VERSION_1,
            ATTACH_1, find, CLUNK_1, "h 0\n", find,
        ],
        &[
            AGREED, ATTACHED, created, AGREED_1, ATTACHED_1, found, CLUNKED_1, "h 1\n", AGREED_1,
            ATTACHED_1, found, CLUNKED_1, "h 0\n", gone,
        ],
        ScriptEnd::End,
    )
}

/// Turns without a word are followed by another; `F` goes on until nothing is left.
#[test]
fn turns(rt: HostRuntime) -> Result<(), Fail> {
    let alloc = rt.alloc();
    let mut served = Served::new(alloc)?;
    served.slots = 3;
    served.dirty = 1;
    served.passed = 2;
    served.removed = 2;
    let input = text(alloc, &["u\n", "f\n", "f\n", "u\n", "u\n", "F\n", "u\n"])?;
    let output = &[
        "u waits\n",
        "f wrote\n",
        "f idle\n",
        "u closed\n",
        "u waits\n",
        "F idle\n",
        "u empty\n",
    ];
    runs(&rt, alloc, &mut served, input, output, ScriptEnd::End)
}

/// The number of a failed write of the main device is 31.
#[test]
fn faults(rt: HostRuntime) -> Result<(), Fail> {
    let alloc = rt.alloc();
    let mut served = Served::new(alloc)?;
    served.fails = true;
    served.dirty = 1;
    let input = text(alloc, &["f\n", "f\n"])?;
    runs(
        &rt,
        alloc,
        &mut served,
        input,
        &["f fault 31\n", "f wrote\n"],
        ScriptEnd::End,
    )?;
    served.fails = true;
    let input = text(alloc, &["F\n", "F\n"])?;
    runs(
        &rt,
        alloc,
        &mut served,
        input,
        &["F fault 31\n", "F idle\n"],
        ScriptEnd::End,
    )
}

/// A message is within the msize that its session agreed to, and any up to the largest otherwise.
#[test]
fn limits(rt: HostRuntime) -> Result<(), Fail> {
    let alloc = rt.alloc();
    let unknown_1 = "s 1 14000000650100180001000700756e6b6e6f776e\n";
    let mut served = Served::new(alloc)?;
    let mut input = text(alloc, &[VERSION_256])?;
    put_long("1", &mut input)?;
    let place = input.len() as u64;
    put_long("0", &mut input)?;
    runs(
        &rt,
        alloc,
        &mut served,
        input,
        &[AGREED_256, unknown_1],
        ScriptEnd::BadLine(place),
    )?;
    let mut input = text(alloc, &[VERSION_256, "h 0\n"])?;
    put_long("0", &mut input)?;
    runs(
        &rt,
        alloc,
        &mut served,
        input,
        &[AGREED_256, "h 0\n", UNKNOWN],
        ScriptEnd::End,
    )?;
    let mut input = text(alloc, &[VERSION_256, OTHER])?;
    put_long("0", &mut input)?;
    runs(
        &rt,
        alloc,
        &mut served,
        input,
        &[AGREED_256, UNKNOWN, UNKNOWN],
        ScriptEnd::End,
    )
}

/// A line has at most 131200 bytes, its newline not counted.
#[test]
fn long_lines(rt: HostRuntime) -> Result<(), Fail> {
    let alloc = rt.alloc();
    let mut served = Served::new(alloc)?;
    let input = console_line(alloc, 131200)?;
    runs(&rt, alloc, &mut served, input, &[NOT_BUILT], ScriptEnd::End)?;
    let input = console_line(alloc, 131201)?;
    runs(&rt, alloc, &mut served, input, &[], ScriptEnd::BadLine(0))
}
