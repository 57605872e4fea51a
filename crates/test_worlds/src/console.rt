//! Lines of the console.
use fo_console::{Answer, Command, Info, LineError, Name, read_line, write_reply};
use fo_world::{Place, Trail, View};
use std::alloc::{AllocError, Global};
use std::process::Abort;
use std::test::Fail;

fn name(alloc: Global, text: &str) -> Result<Name, AllocError> {
    Name::copy_of(alloc, text.as_bytes())
}

fn file(alloc: Global, mode: u32, length: u64, path: u64) -> Result<Info, AllocError> {
    Ok(Info {
        place: Place {
            view: View::Active,
            trail: Trail::root(alloc),
        },
        name: name(alloc, "x")?,
        path,
        vers: 7,
        mode,
        atime: 8,
        mtime: 9,
        length,
        uid: name(alloc, "adm")?,
        gid: name(alloc, "sys")?,
        muid: name(alloc, "glenda")?,
    })
}

/// A slash and a name.
fn append(alloc: Global, text: &mut String, name: &Name) -> Result<(), AllocError> {
    text.push_str("/")?;
    text.push_str(String::from_utf8_lossy(alloc, name.as_slice())?.as_str())?;
    Ok(())
}

/// A slash and a name, for each.
fn append_all(alloc: Global, text: &mut String, path: &[Name]) -> Result<(), AllocError> {
    for name in path {
        append(alloc, text, name)?;
    }
    Ok(())
}

/// The names of a path, each after a slash.
fn slashed(alloc: Global, path: &[Name]) -> Result<String, AllocError> {
    let mut text = String::new(alloc);
    append_all(alloc, &mut text, path)?;
    Ok(text)
}

/// A command as the tests' tables write it.
fn written(alloc: Global, command: &Command) -> Result<String, AllocError> {
    match command {
        Command::Create {
            path,
            uid,
            gid,
            perm,
        } => {
            let path = slashed(alloc, path.as_slice())?;
            let uid = String::from_utf8_lossy(alloc, uid.as_slice())?;
            let gid = String::from_utf8_lossy(alloc, gid.as_slice())?;
            format!(in alloc; "Create {path} {uid} {gid} {perm:o}")
        }
        Command::Remove(path) => {
            let path = slashed(alloc, path.as_slice())?;
            format!(in alloc; "Remove {path}")
        }
        Command::Stat(path) => {
            let path = slashed(alloc, path.as_slice())?;
            format!(in alloc; "Stat {path}")
        }
        other => format!(in alloc; "{other:?}"),
    }
}

/// The line is this command, as the tests' tables write it.
fn reads(
    rt: &(impl Abort + Alloc<A = Global>),
    line: &str,
    command: &str,
) -> Result<(), AllocError> {
    let read = read_line(rt.alloc(), line.as_bytes()).expect(rt, "a command");
    let text = written(rt.alloc(), &read)?;
    assert_eq!(rt; text.as_str(), command);
    Ok(())
}

#[test]
fn words(rt: HostRuntime) -> Result<(), Fail> {
    for (line, command) in [
        ("sync", "Sync"),
        ("snap", "Snap { archive: false }"),
        ("snap -a", "Snap { archive: true }"),
        ("cancel", "Cancel"),
        ("df", "Df"),
        ("check", "Check"),
        ("halt", "Halt"),
        ("unhalt", "Unhalt"),
        ("users", "Users"),
    ] {
        reads(&rt, line, command)?;
    }
    Ok(())
}

#[test]
fn commands(rt: HostRuntime) -> Result<(), Fail> {
    for (line, command) in [
        ("epoch", "Epoch"),
        ("epoch -y 3", "Low(3)"),
        ("epoch -y 0", "Low(0)"),
        ("epoch -y 2147483647", "Low(2147483647)"),
        ("create /x adm adm 664", "Create /x adm adm 664"),
        ("create /a/b adm sys d7", "Create /a/b adm sys 20000000007"),
        ("create / adm sys 007", "Create  adm sys 7"),
        ("remove /x", "Remove /x"),
        ("stat /a/b/c", "Stat /a/b/c"),
        ("stat /", "Stat "),
    ] {
        reads(&rt, line, command)?;
    }
    Ok(())
}

/// The line is no command.
fn refuses(rt: &(impl Abort + Alloc<A = Global>), line: &str) {
    let read = read_line(rt.alloc(), line.as_bytes());
    assert!(rt; matches!(read, Err(LineError::BadLine)));
}

#[test]
fn no_words(rt: HostRuntime) {
    for line in [
        "",
        " ",
        "frob",
        "Sync",
        "sync ",
        " sync",
        "sync\n",
        "snap  -a",
        "snap -b",
        "snap -a -a",
    ] {
        refuses(&rt, line);
    }
}

#[test]
fn no_numbers(rt: HostRuntime) {
    for line in [
        "epoch -y",
        "epoch -y 03",
        "epoch -y +3",
        "epoch -y 2147483648",
        "epoch -y 99999999999",
        "epoch -n 3",
        "create /x adm adm",
        "create /x adm adm d",
        "create /x adm adm 8",
        "create /x adm adm 0664",
    ] {
        refuses(&rt, line);
    }
}

#[test]
fn no_paths(rt: HostRuntime) {
    for line in [
        "create x adm adm 664",
        "create /x  adm 664",
        "create /x adm adm 664 ",
        "remove",
        "remove x",
        "remove //",
        "stat /a/",
        "stat //a",
        "stat /a /b",
        "stat /a\0",
    ] {
        refuses(&rt, line);
    }
}

#[test]
fn lengths(rt: HostRuntime) -> Result<(), Fail> {
    let bad = [b's', b't', b'a', b't', b' ', b'/', 0xff];
    assert!(rt; read_line(rt.alloc(), &bad).is_err());
    let mut long = vec![in rt.alloc(); b'a'; 1000]?;
    long.as_mut_slice()[..6].copy_from_slice(b"stat /");
    assert!(rt; read_line(rt.alloc(), long.as_slice()).is_ok());
    long.push(b'a')?;
    assert!(rt; read_line(rt.alloc(), long.as_slice()).is_err());
    Ok(())
}

/// The answer is written as these lines, behind what is there.
fn replies(
    rt: &(impl Abort + Alloc<A = Global>),
    answer: Answer,
    lines: &str,
) -> Result<(), AllocError> {
    let mut out = Vec::from_slice(rt.alloc(), b"> ")?;
    write_reply(&answer, &mut out).expect(rt, "memory");
    let wanted = format!(in rt.alloc(); "> {lines}")?;
    assert_eq!(rt; out.as_slice(), wanted.as_bytes());
    Ok(())
}

#[test]
fn epochs(rt: HostRuntime) -> Result<(), Fail> {
    for (epoch, archive, lines) in [(1, false, "snap 1\n"), (12, true, "snap 12 archive\n")] {
        replies(&rt, Answer::Snapped { epoch, archive }, lines)?;
    }
    let epochs = Answer::Epochs { low: 2, high: 30 };
    replies(&rt, epochs, "epoch low 2 high 30\n")?;
    Ok(())
}

#[test]
fn counts(rt: HostRuntime) -> Result<(), Fail> {
    let checked = Answer::Checked { used: 3, leaked: 1 };
    replies(&rt, checked, "check ok used 3 leaked 1\n")?;
    let space = Answer::Space {
        usable: 60,
        blocks: 61,
        used: 0,
        places: 14,
    };
    replies(&rt, space, "main 60 of 61\narena 0 of 14\n")?;
    Ok(())
}

/// What `stat` writes of a file with this mode, length and path.
fn tells(
    rt: &(impl Abort + Alloc<A = Global>),
    mode: u32,
    length: u64,
    path: u64,
    lines: &str,
) -> Result<(), AllocError> {
    let info = file(rt.alloc(), mode, length, path)?;
    replies(rt, Answer::Stat(info), lines)
}

#[test]
fn files(rt: HostRuntime) -> Result<(), Fail> {
    for (mode, length, path, lines) in [
        (0o664, 0, 1, "stat x adm sys glenda 664 0 1\n"),
        (
            0xe400_0000,
            1 << 40,
            7,
            "stat x adm sys glenda dalt0 1099511627776 7\n",
        ),
    ] {
        tells(&rt, mode, length, path, lines)?;
    }
    Ok(())
}

#[test]
fn users(rt: HostRuntime) -> Result<(), Fail> {
    let lines = "adm:adm::\nnone:none::\n";
    let users = Vec::from_slice(rt.alloc(), lines.as_bytes())?;
    replies(&rt, Answer::Users(users), lines)?;
    Ok(())
}

#[test]
fn errors(rt: HostRuntime) -> Result<(), Fail> {
    let text = name(rt.alloc(), "bad command")?;
    replies(&rt, Answer::Error(text), "error bad command\n")?;
    Ok(())
}

#[test]
fn ample(rt: HostRuntime) -> Result<(), Fail> {
    let line = b"create /a/b glenda sys 640";
    let command = read_line(rt.alloc(), line).expect(&rt, "a command");
    let text = written(rt.alloc(), &command)?;
    assert_eq!(rt; text.as_str(), "Create /a/b glenda sys 640");
    replies(&rt, Answer::Done, "ok\n")?;
    Ok(())
}
