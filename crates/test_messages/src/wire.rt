//! Every message once both ways, by bytes written out by hand from the manual; and bytes that are no message.
use nine_wire::{
    BadMsg, Ename, Names, Qid, Qids, Reply, ReplyStep, Request, Step, Str, read_msg, read_reply,
    write_msg, write_request,
};
use std::alloc::{AllocError, Global};
use std::process::Abort;
use std::test::Fail;

/// The largest message.
const LARGEST: u32 = 65560;

/// The stat record of an empty image's root.
const ROOT: &[u8] =
    b"9\x00\x00\x00\x00\x00\x00\x00\x80\x00\x00\x00\x00\x00\x00\x00\x00\x00\x00\x00\x00\xff\x01\x00\x80\x00\x00\x00\x00\x00\x00\x00\x00\x00\x00\x00\x00\x00\x00\x00\x00\x01\x00/\x03\x00adm\x03\x00adm\x03\x00adm";

fn text(alloc: Global, bytes: &[u8]) -> Result<Str, AllocError> {
    Str::copy_of(alloc, bytes)
}

fn two_names(alloc: Global) -> Result<Names, AllocError> {
    let mut names = Vec::new(alloc);
    names.push(text(alloc, b"a")?)?;
    names.push(text(alloc, b"bc")?)?;
    Ok(Names::new(names))
}

fn two_qids(alloc: Global) -> Result<Qids, AllocError> {
    let mut qids = Vec::new(alloc);
    qids.push(Qid {
        kind: 128,
        vers: 1,
        path: 2,
    })?;
    qids.push(Qid {
        kind: 0,
        vers: 3,
        path: 4,
    })?;
    Ok(Qids::new(qids))
}

/// The bytes are read as this request, and what was read is written as them.
fn request_goes(
    rt: &impl Abort,
    alloc: Global,
    tag: u16,
    request: Request,
    bytes: &[u8],
) -> Result<(), Fail> {
    let step = read_msg(alloc, bytes, LARGEST)?;
    match step {
        Step::Msg(found, read, used) => {
            assert_eq!(rt; found, tag);
            assert_eq!(rt; used, bytes.len());
            let (wanted, got) = (
                format!(in alloc; "{:?}", request)?,
                format!(in alloc; "{:?}", read)?,
            );
            assert_eq!(rt; got.as_str(), wanted.as_str());
            let mut out = Vec::new(alloc);
            write_request(found, &read, &mut out)?;
            assert_eq!(rt; out.as_slice(), bytes);
        }
        _ => assert!(rt; false, "no message"),
    }
    Ok(())
}

/// The bytes are read as this reply, and what was read is written as them.
fn reply_goes(
    rt: &impl Abort,
    alloc: Global,
    tag: u16,
    reply: Reply,
    bytes: &[u8],
) -> Result<(), Fail> {
    let step = read_reply(alloc, bytes, LARGEST)?;
    match step {
        ReplyStep::Msg(found, read, used) => {
            assert_eq!(rt; found, tag);
            assert_eq!(rt; used, bytes.len());
            let (wanted, got) = (
                format!(in alloc; "{:?}", reply)?,
                format!(in alloc; "{:?}", read)?,
            );
            assert_eq!(rt; got.as_str(), wanted.as_str());
            let mut out = Vec::new(alloc);
            write_msg(found, &read, &mut out)?;
            assert_eq!(rt; out.as_slice(), bytes);
        }
        _ => assert!(rt; false, "no message"),
    }
    Ok(())
}

fn requests_to_begin(rt: &impl Abort, alloc: Global) -> Result<(), Fail> {
    request_goes(
        rt,
        alloc,
        0xffff,
        Request::Version {
            msize: 65560,
            version: text(alloc, b"9P2000")?,
        },
        b"\x13\x00\x00\x00d\xff\xff\x18\x00\x01\x00\x06\x009P2000",
    )?;
    request_goes(
        rt,
        alloc,
        2,
        Request::Auth {
            afid: 7,
            uname: text(alloc, b"glenda")?,
            aname: text(alloc, b"")?,
        },
        b"\x15\x00\x00\x00f\x02\x00\x07\x00\x00\x00\x06\x00glenda\x00\x00",
    )?;
    request_goes(
        rt,
        alloc,
        1,
        Request::Attach {
            fid: 0,
            afid: u32::MAX,
            uname: text(alloc, b"glenda")?,
            aname: text(alloc, b"")?,
        },
        b"\x19\x00\x00\x00h\x01\x00\x00\x00\x00\x00\xff\xff\xff\xff\x06\x00glenda\x00\x00",
    )?;
    Ok(())
}

fn requests_on_the_way(rt: &impl Abort, alloc: Global) -> Result<(), Fail> {
    request_goes(
        rt,
        alloc,
        3,
        Request::Flush { oldtag: 1 },
        b"\x09\x00\x00\x00l\x03\x00\x01\x00",
    )?;
    request_goes(
        rt,
        alloc,
        4,
        Request::Walk {
            fid: 0,
            newfid: 1,
            names: two_names(alloc)?,
        },
        b"\x18\x00\x00\x00n\x04\x00\x00\x00\x00\x00\x01\x00\x00\x00\x02\x00\x01\x00a\x02\x00bc",
    )?;
    Ok(())
}

fn requests_to_open(rt: &impl Abort, alloc: Global) -> Result<(), Fail> {
    request_goes(
        rt,
        alloc,
        5,
        Request::Open { fid: 1, mode: 0x12 },
        b"\x0c\x00\x00\x00p\x05\x00\x01\x00\x00\x00\x12",
    )?;
    request_goes(
        rt,
        alloc,
        2,
        Request::Create {
            fid: 0,
            name: text(alloc, b"f")?,
            perm: 0o644,
            mode: 2,
        },
        b"\x13\x00\x00\x00r\x02\x00\x00\x00\x00\x00\x01\x00f\xa4\x01\x00\x00\x02",
    )?;
    Ok(())
}

fn requests_of_bytes(rt: &impl Abort, alloc: Global) -> Result<(), Fail> {
    request_goes(
        rt,
        alloc,
        4,
        Request::Read {
            fid: 0,
            offset: 0,
            count: 100,
        },
        b"\x17\x00\x00\x00t\x04\x00\x00\x00\x00\x00\x00\x00\x00\x00\x00\x00\x00\x00d\x00\x00\x00",
    )?;
    request_goes(
        rt,
        alloc,
        3,
        Request::Write {
            fid: 0,
            offset: 0,
            bytes: text(alloc, b"hello")?,
        },
        b"\x1c\x00\x00\x00v\x03\x00\x00\x00\x00\x00\x00\x00\x00\x00\x00\x00\x00\x00\x05\x00\x00\x00hello",
    )?;
    Ok(())
}

fn last_requests(rt: &impl Abort, alloc: Global) -> Result<(), Fail> {
    request_goes(
        rt,
        alloc,
        5,
        Request::Clunk { fid: 0 },
        b"\x0b\x00\x00\x00x\x05\x00\x00\x00\x00\x00",
    )?;
    request_goes(
        rt,
        alloc,
        6,
        Request::Remove { fid: 1 },
        b"\x0b\x00\x00\x00z\x06\x00\x01\x00\x00\x00",
    )?;
    request_goes(
        rt,
        alloc,
        2,
        Request::Stat { fid: 0 },
        b"\x0b\x00\x00\x00|\x02\x00\x00\x00\x00\x00",
    )?;
    request_goes(
        rt,
        alloc,
        7,
        Request::Wstat {
            fid: 0,
            stat: text(alloc, ROOT)?,
        },
        b"H\x00\x00\x00~\x07\x00\x00\x00\x00\x00;\x009\x00\x00\x00\x00\x00\x00\x00\x80\x00\x00\x00\x00\x00\x00\x00\x00\x00\x00\x00\x00\xff\x01\x00\x80\x00\x00\x00\x00\x00\x00\x00\x00\x00\x00\x00\x00\x00\x00\x00\x00\x01\x00/\x03\x00adm\x03\x00adm\x03\x00adm",
    )?;
    Ok(())
}

fn replies_to_begin(rt: &impl Abort, alloc: Global) -> Result<(), Fail> {
    reply_goes(
        rt,
        alloc,
        0xffff,
        Reply::Version {
            msize: 65560,
            version: text(alloc, b"9P2000")?,
        },
        b"\x13\x00\x00\x00e\xff\xff\x18\x00\x01\x00\x06\x009P2000",
    )?;
    reply_goes(
        rt,
        alloc,
        2,
        Reply::Auth {
            aqid: Qid {
                kind: 8,
                vers: 1,
                path: 2,
            },
        },
        b"\x14\x00\x00\x00g\x02\x00\x08\x01\x00\x00\x00\x02\x00\x00\x00\x00\x00\x00\x00",
    )?;
    reply_goes(
        rt,
        alloc,
        1,
        Reply::Attach {
            qid: Qid {
                kind: 128,
                vers: 0,
                path: 0,
            },
        },
        b"\x14\x00\x00\x00i\x01\x00\x80\x00\x00\x00\x00\x00\x00\x00\x00\x00\x00\x00\x00",
    )?;
    Ok(())
}

fn replies_without_files(rt: &impl Abort, alloc: Global) -> Result<(), Fail> {
    reply_goes(
        rt,
        alloc,
        1,
        Reply::Error {
            ename: Ename::new("no version"),
        },
        b"\x13\x00\x00\x00k\x01\x00\x0a\x00no\x20version",
    )?;
    reply_goes(rt, alloc, 3, Reply::Flush, b"\x07\x00\x00\x00m\x03\x00")?;
    Ok(())
}

fn replies_of_qids(rt: &impl Abort, alloc: Global) -> Result<(), Fail> {
    reply_goes(
        rt,
        alloc,
        4,
        Reply::Walk {
            qids: two_qids(alloc)?,
        },
        b"#\x00\x00\x00o\x04\x00\x02\x00\x80\x01\x00\x00\x00\x02\x00\x00\x00\x00\x00\x00\x00\x00\x03\x00\x00\x00\x04\x00\x00\x00\x00\x00\x00\x00",
    )?;
    reply_goes(
        rt,
        alloc,
        5,
        Reply::Open {
            qid: Qid {
                kind: 0,
                vers: 1,
                path: 2,
            },
            iounit: 65536,
        },
        b"\x18\x00\x00\x00q\x05\x00\x00\x01\x00\x00\x00\x02\x00\x00\x00\x00\x00\x00\x00\x00\x00\x01\x00",
    )?;
    Ok(())
}

fn replies_with_files(rt: &impl Abort, alloc: Global) -> Result<(), Fail> {
    reply_goes(
        rt,
        alloc,
        2,
        Reply::Create {
            qid: Qid {
                kind: 0,
                vers: 0,
                path: 1,
            },
            iounit: 65536,
        },
        b"\x18\x00\x00\x00s\x02\x00\x00\x00\x00\x00\x00\x01\x00\x00\x00\x00\x00\x00\x00\x00\x00\x01\x00",
    )?;
    reply_goes(
        rt,
        alloc,
        4,
        Reply::Read {
            bytes: text(alloc, b"hello")?,
        },
        b"\x10\x00\x00\x00u\x04\x00\x05\x00\x00\x00hello",
    )?;
    Ok(())
}

fn last_replies(rt: &impl Abort, alloc: Global) -> Result<(), Fail> {
    reply_goes(
        rt,
        alloc,
        3,
        Reply::Write { count: 5 },
        b"\x0b\x00\x00\x00w\x03\x00\x05\x00\x00\x00",
    )?;
    reply_goes(rt, alloc, 5, Reply::Clunk, b"\x07\x00\x00\x00y\x05\x00")?;
    reply_goes(rt, alloc, 6, Reply::Remove, b"\x07\x00\x00\x00{\x06\x00")?;
    reply_goes(
        rt,
        alloc,
        2,
        Reply::Stat {
            stat: text(alloc, ROOT)?,
        },
        b"D\x00\x00\x00}\x02\x00;\x009\x00\x00\x00\x00\x00\x00\x00\x80\x00\x00\x00\x00\x00\x00\x00\x00\x00\x00\x00\x00\xff\x01\x00\x80\x00\x00\x00\x00\x00\x00\x00\x00\x00\x00\x00\x00\x00\x00\x00\x00\x01\x00/\x03\x00adm\x03\x00adm\x03\x00adm",
    )?;
    reply_goes(rt, alloc, 7, Reply::Wstat, b"\x07\x00\x00\x00\x7f\x07\x00")?;
    Ok(())
}

#[test]
fn ample(rt: HostRuntime) -> Result<(), Fail> {
    requests_to_begin(&rt, rt.alloc())?;
    requests_on_the_way(&rt, rt.alloc())?;
    requests_to_open(&rt, rt.alloc())?;
    requests_of_bytes(&rt, rt.alloc())?;
    last_requests(&rt, rt.alloc())?;
    replies_to_begin(&rt, rt.alloc())?;
    replies_without_files(&rt, rt.alloc())?;
    replies_of_qids(&rt, rt.alloc())?;
    replies_with_files(&rt, rt.alloc())?;
    last_replies(&rt, rt.alloc())
}

fn is_bad_body(step: Step) -> bool {
    match step {
        Step::Bad(BadMsg::Body) => true,
        _ => false,
    }
}

/// A message cut by its last byte, and one with a byte more, each with the size that it has then, are none.
fn only_whole(rt: &impl Abort, alloc: Global, bytes: &[u8]) -> Result<(), Fail> {
    assert!(rt; 7 < bytes.len());
    assert!(rt; 0 < bytes[0] && bytes[0] < 255);
    let mut cut = bytes[..bytes.len() - 1].to_vec(alloc)?;
    cut[0] = bytes[0] - 1;
    assert!(rt; is_bad_body(read_msg(alloc, &cut, LARGEST)?));
    let mut more = bytes.to_vec(alloc)?;
    more[0] = bytes[0] + 1;
    more.push(0)?;
    assert!(rt; is_bad_body(read_msg(alloc, &more, LARGEST)?));
    Ok(())
}

#[test]
fn none_shorter_or_longer(rt: HostRuntime) -> Result<(), Fail> {
    let messages: [&[u8]; 13] = [
        b"\x13\x00\x00\x00d\xff\xff\x18\x00\x01\x00\x06\x009P2000",
        b"\x15\x00\x00\x00f\x02\x00\x07\x00\x00\x00\x06\x00glenda\x00\x00",
        b"\x19\x00\x00\x00h\x01\x00\x00\x00\x00\x00\xff\xff\xff\xff\x06\x00glenda\x00\x00",
        b"\x09\x00\x00\x00l\x03\x00\x01\x00",
        b"\x18\x00\x00\x00n\x04\x00\x00\x00\x00\x00\x01\x00\x00\x00\x02\x00\x01\x00a\x02\x00bc",
        b"\x0c\x00\x00\x00p\x05\x00\x01\x00\x00\x00\x12",
        b"\x13\x00\x00\x00r\x02\x00\x00\x00\x00\x00\x01\x00f\xa4\x01\x00\x00\x02",
        b"\x17\x00\x00\x00t\x04\x00\x00\x00\x00\x00\x00\x00\x00\x00\x00\x00\x00\x00d\x00\x00\x00",
        b"\x1c\x00\x00\x00v\x03\x00\x00\x00\x00\x00\x00\x00\x00\x00\x00\x00\x00\x00\x05\x00\x00\x00hello",
        b"\x0b\x00\x00\x00x\x05\x00\x00\x00\x00\x00",
        b"\x0b\x00\x00\x00z\x06\x00\x01\x00\x00\x00",
        b"\x0b\x00\x00\x00|\x02\x00\x00\x00\x00\x00",
        b"H\x00\x00\x00~\x07\x00\x00\x00\x00\x00;\x009\x00\x00\x00\x00\x00\x00\x00\x80\x00\x00\x00\x00\x00\x00\x00\x00\x00\x00\x00\x00\xff\x01\x00\x80\x00\x00\x00\x00\x00\x00\x00\x00\x00\x00\x00\x00\x00\x00\x00\x00\x01\x00/\x03\x00adm\x03\x00adm\x03\x00adm",
    ];
    for bytes in messages {
        only_whole(&rt, rt.alloc(), bytes)?;
    }
    Ok(())
}

/// Bodies that are no request's, and what is wrong with them.
const NO_REQUESTS: [(&str, &[u8]); 7] = [
    (
        "a string with NUL",
        b"\x13\x00\x00\x00d\xff\xff\x18\x00\x01\x00\x06\x009P\x00000",
    ),
    (
        "a string that is not UTF-8",
        b"\x13\x00\x00\x00d\xff\xff\x18\x00\x01\x00\x06\x009P20\xff0",
    ),
    (
        "a stat record whose size is not n - 2",
        b"H\x00\x00\x00~\x07\x00\x00\x00\x00\x00;\x00:\x00\x00\x00\x00\x00\x00\x00\x80\x00\x00\x00\x00\x00\x00\x00\x00\x00\x00\x00\x00\xff\x01\x00\x80\x00\x00\x00\x00\x00\x00\x00\x00\x00\x00\x00\x00\x00\x00\x00\x00\x01\x00/\x03\x00adm\x03\x00adm\x03\x00adm",
    ),
    (
        "a stat record with a byte behind it",
        b"I\x00\x00\x00~\x07\x00\x00\x00\x00\x00<\x009\x00\x00\x00\x00\x00\x00\x00\x80\x00\x00\x00\x00\x00\x00\x00\x00\x00\x00\x00\x00\xff\x01\x00\x80\x00\x00\x00\x00\x00\x00\x00\x00\x00\x00\x00\x00\x00\x00\x00\x00\x01\x00/\x03\x00adm\x03\x00adm\x03\x00adm\x00",
    ),
    ("type 106", b"\x0b\x00\x00\x00j\x02\x00\x00\x00\x00\x00"),
    ("type 128", b"\x0b\x00\x00\x00\x80\x02\x00\x00\x00\x00\x00"),
    ("a reply", b"\x07\x00\x00\x00y\x05\x00"),
];

fn is_none(rt: &impl Abort, alloc: Global, what: &str, bytes: &[u8]) -> Result<(), Fail> {
    let none = is_bad_body(read_msg(alloc, bytes, LARGEST)?);
    assert!(rt; none, "{what}");
    Ok(())
}

#[test]
fn no_requests(rt: HostRuntime) -> Result<(), Fail> {
    for (what, bytes) in NO_REQUESTS {
        is_none(&rt, rt.alloc(), what, bytes)?;
    }
    Ok(())
}

/// What stands at a front, in a word.
fn word(step: Step) -> &'static str {
    match step {
        Step::More => "more",
        Step::Msg(..) => "message",
        Step::Bad(BadMsg::Size) => "size",
        Step::Bad(BadMsg::Body) => "body",
    }
}

#[test]
fn fronts(rt: HostRuntime) -> Result<(), Fail> {
    let clunk = b"\x0b\x00\x00\x00x\x05\x00\x00\x00\x00\x00";
    let fronts: [(&[u8], u32, &str); 9] = [
        (b"", LARGEST, "more"),
        (&clunk[..3], LARGEST, "more"),
        (&clunk[..4], LARGEST, "more"),
        (&clunk[..10], LARGEST, "more"),
        (clunk, 11, "message"),
        (clunk, 10, "size"),
        (&clunk[..4], 10, "size"),
        (b"\x06\0\0\0", LARGEST, "size"),
        (b"\x07\0\0\0\x78\0\0", LARGEST, "body"),
    ];
    for (bytes, msize, wanted) in fronts {
        assert_eq!(rt;
            word(read_msg(rt.alloc(), bytes, msize)?),
            wanted,
            "{bytes:?}"
        );
    }
    Ok(())
}

/// How long the text of an error is.
fn error_len(step: &ReplyStep) -> Option<usize> {
    match step {
        ReplyStep::Msg(_, Reply::Error { ename }, _) => Some(ename.as_bytes().len()),
        _ => None,
    }
}

#[test]
fn errors_of_at_most_128_bytes(rt: HostRuntime) -> Result<(), Fail> {
    let mut error = Vec::new(rt.alloc());
    error.extend_from_slice(b"\x89\0\0\0\x6b\x01\0\x80\0")?;
    error.extend_from_slice(&[b'a'; 128])?;
    assert_eq!(rt;
        error_len(&read_reply(rt.alloc(), &error, LARGEST)?),
        Some(128)
    );
    let mut error = Vec::new(rt.alloc());
    error.extend_from_slice(b"\x8a\0\0\0\x6b\x01\0\x81\0")?;
    error.extend_from_slice(&[b'a'; 129])?;
    assert_eq!(rt; error_len(&read_reply(rt.alloc(), &error, LARGEST)?), None);
    Ok(())
}
