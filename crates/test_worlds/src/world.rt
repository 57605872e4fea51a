//! Trees of files, and what is told of them.
use fo_world::{
    Add, Body, Change, Fields, FileError, Info, Name, Names, Node, Place, Plain, Rename, TakeOut,
    Trail, View, Write, follow,
};
use std::alloc::Global;
use std::process::Abort;
use std::test::Fail;

// A node of `adm` without vers and times.
fn node(alloc: Global, number: u32, body: Body) -> Result<Node, FileError> {
    Ok(Node {
        number,
        vers: 0,
        mode: 0o755,
        atime: 0,
        mtime: 0,
        uid: Name::copy_of(alloc, b"adm")?,
        gid: Name::copy_of(alloc, b"adm")?,
        muid: Name::copy_of(alloc, b"adm")?,
        body,
    })
}

// Adds a file or a directory below a directory, as `bob` at moment 1.
fn add(
    alloc: Global,
    root: &mut Node,
    trail: &[u32],
    name: &[u8],
    new: Node,
) -> Result<(), FileError> {
    let add = Add {
        name: Name::copy_of(alloc, name)?,
        node: new,
        who: Name::copy_of(alloc, b"bob")?,
        now: 1,
    };
    root.change(trail, add)
}

// Adds a file with this number and name to the directory 1.
fn add_file(alloc: Global, root: &mut Node, number: u32, name: &[u8]) -> Result<(), FileError> {
    let file = node(alloc, number, Body::File(Plain::new(alloc)))?;
    add(alloc, root, &[1], name, file)
}

// A directory `d` (1), in which are the files `b` (2) and `a` (3).
fn fill(alloc: Global, root: &mut Node) -> Result<(), FileError> {
    let folder = node(alloc, 1, Body::Dir(Names::new(alloc)))?;
    add(alloc, root, &[], b"d", folder)?;
    add_file(alloc, root, 2, b"b")?;
    add_file(alloc, root, 3, b"a")
}

// A root with these.
fn tree(alloc: Global) -> Result<Node, FileError> {
    let mut root = node(alloc, 0, Body::Dir(Names::new(alloc)))?;
    fill(alloc, &mut root)?;
    Ok(root)
}

// A name with a space behind it.
fn append(all: &mut Vec<u8>, name: &Name) -> Result<(), FileError> {
    all.extend_from_slice(name.as_slice())?;
    all.push(b' ')?;
    Ok(())
}

// The names of a directory, at most 10.
fn append_names(all: &mut Vec<u8>, names: &Names) -> Result<(), FileError> {
    let mut last: Option<&Name> = None;
    for _ in 0..10 {
        let Some((name, _)) = names.next_above(last) else {
            return Ok(());
        };
        append(all, name)?;
        last = Some(name);
    }
    Ok(())
}

// The names of the directory at a trail, each with a space behind it.
fn names(alloc: Global, root: &Node, trail: &[u32]) -> Result<Vec<u8>, FileError> {
    let slash = Name::copy_of(alloc, b"/")?;
    let Some((_, node)) = follow(&slash, root, trail) else {
        return Err(FileError::Gone);
    };
    let names = node.body.as_dir()?;
    let mut all = Vec::new(alloc);
    append_names(&mut all, names)?;
    Ok(all)
}

// What is told of the file at a trail.
fn told(alloc: Global, root: &Node, trail: &[u32]) -> Result<Info, FileError> {
    let slash = Name::copy_of(alloc, b"/")?;
    let Some((name, node)) = follow(&slash, root, trail) else {
        return Err(FileError::Gone);
    };
    let place = Place {
        view: View::Active,
        trail: Trail::new(Vec::from_slice(alloc, trail)?),
    };
    Ok(Info::of(alloc, place, name, node)?)
}

// Path, vers, mode, atime, mtime and length.
fn numbers(info: &Info) -> [u64; 6] {
    [
        info.path,
        u64::from(info.vers),
        u64::from(info.mode),
        u64::from(info.atime),
        u64::from(info.mtime),
        info.length,
    ]
}

// Writes "xy" at offset 1 of a file, as `bob` at moment 2.
fn write(alloc: Global, root: &mut Node, trail: &[u32]) -> Result<(), FileError> {
    let write = Write {
        offset: 1,
        bytes: Name::copy_of(alloc, b"xy")?,
        who: Name::copy_of(alloc, b"bob")?,
        now: 2,
    };
    root.change(trail, write)
}

// All fields but the name: mode 0600, mtime 9, length 2, group `sys`, as `eve` at moment 3.
fn fields(alloc: Global) -> Result<Fields, FileError> {
    let what = Change {
        mode: Some(0o600),
        mtime: Some(9),
        length: Some(2),
        name: None,
        gid: Some(Name::copy_of(alloc, b"sys")?),
    };
    Ok(Fields {
        what: what.copy(alloc)?,
        who: Name::copy_of(alloc, b"eve")?,
        now: 3,
    })
}

// Renames the file `b` of a directory to `A`, and changes its fields.
fn rename(alloc: Global, root: &mut Node, trail: &[u32]) -> Result<(), FileError> {
    let rename = Rename {
        old: Name::copy_of(alloc, b"b")?,
        name: Name::copy_of(alloc, b"A")?,
        fields: fields(alloc)?,
        who: Name::copy_of(alloc, b"eve")?,
        now: 3,
    };
    root.change(trail, rename)
}

// Takes the file `a` out of a directory.
fn take_out(alloc: Global, root: &mut Node, trail: &[u32]) -> Result<(), FileError> {
    let take_out = TakeOut {
        name: Name::copy_of(alloc, b"a")?,
        who: Name::copy_of(alloc, b"bob")?,
        now: 4,
    };
    root.change(trail, take_out)
}

// The trail of a place, by way of a file below it.
fn back(alloc: Global, place: &Place) -> Result<Trail, FileError> {
    let below = place.copy(alloc)?.below(alloc, 9)?;
    Ok(below.trail.front(alloc)?.copy(alloc)?)
}

// What is told of the file `b` once it is written.
fn is_written(rt: &impl Abort, alloc: Global, info: &Info) -> Result<(), Fail> {
    assert_eq!(rt; numbers(info), [2, 1, 0o755, 0, 2, 3]);
    assert_eq!(rt; info.name.as_slice(), b"b".as_slice());
    assert_eq!(rt; info.muid.as_slice(), b"bob".as_slice());
    assert_eq!(rt; back(alloc, &info.place)?.as_slice(), [1, 2].as_slice());
    Ok(())
}

// The file `b` is written.
fn writes(rt: &impl Abort, alloc: Global, root: &mut Node) -> Result<(), Fail> {
    assert_eq!(rt; numbers(&told(alloc, root, &[1])?), [1, 2, 0o755, 0, 1, 0]);
    write(alloc, root, &[1, 2])?;
    let info = told(alloc, root, &[1, 2])?;
    is_written(rt, alloc, &info)
}

#[test]
fn ample(rt: HostRuntime) -> Result<(), Fail> {
    let alloc = rt.alloc();
    let mut root = tree(alloc)?;
    writes(&rt, alloc, &mut root)
}

// What is told of the file `b` once it is renamed.
fn is_renamed(rt: &impl Abort, info: &Info) {
    assert_eq!(rt; numbers(info), [2, 2, 0o600, 0, 9, 2]);
    assert_eq!(rt; info.gid.as_slice(), b"sys".as_slice());
    assert_eq!(rt; info.muid.as_slice(), b"eve".as_slice());
}

// The file `b` is written and renamed.
fn renames(rt: &impl Abort, alloc: Global, root: &mut Node) -> Result<(), Fail> {
    write(alloc, root, &[1, 2])?;
    rename(alloc, root, &[1])?;
    is_renamed(rt, &told(alloc, root, &[1, 2])?);
    assert_eq!(rt; names(alloc, root, &[1])?.as_slice(), b"A a ".as_slice());
    Ok(())
}

// The file `a` is taken out.
fn takes_out(rt: &impl Abort, alloc: Global, root: &mut Node) -> Result<(), Fail> {
    take_out(alloc, root, &[1])?;
    assert!(rt; matches!(told(alloc, root, &[1, 3]), Err(FileError::Gone)));
    assert_eq!(rt; told(alloc, root, &[1, 2])?.path, 2);
    Ok(())
}

#[test]
fn changes(rt: HostRuntime) -> Result<(), Fail> {
    let alloc = rt.alloc();
    let mut root = tree(alloc)?;
    renames(&rt, alloc, &mut root)?;
    takes_out(&rt, alloc, &mut root)
}

// The name of the file with a number.
fn name_of(number: u32) -> [u8; 2] {
    [b'a' + (number % 8) as u8, b'a' + (number / 8 % 8) as u8]
}

// Whether the file with a number below 40 is still there.
fn is_there(number: u32) -> bool {
    number % 3 != 0
}

// Puts the file with this number into a directory.
fn put(alloc: Global, names: &mut Names, number: u32) -> Result<(), FileError> {
    let file = node(alloc, number, Body::File(Plain::new(alloc)))?;
    let name = Name::copy_of(alloc, &name_of(number))?;
    names.insert(name, file)?;
    Ok(())
}

// Puts 40 files in a mixed order.
fn put_all(alloc: Global, names: &mut Names) -> Result<(), FileError> {
    for i in 0..40u32 {
        put(alloc, names, i * 17 % 40)?;
    }
    Ok(())
}

// A directory of 40 files that were put in a mixed order, with every third taken out.
fn mixed(alloc: Global) -> Result<Names, FileError> {
    let mut names = Names::new(alloc);
    put_all(alloc, &mut names)?;
    for number in 0..40u32 {
        if !is_there(number) {
            names.take_out(&name_of(number));
        }
    }
    Ok(names)
}

// The number of the file that was found.
fn number_of(found: Option<(&Name, &Node)>) -> Option<u32> {
    match found {
        None => None,
        Some((_, node)) => Some(node.number),
    }
}

// Whether a file has a lesser name than the best so far.
fn is_better(number: u32, best: Option<u32>) -> bool {
    match best {
        None => true,
        Some(best) => name_of(number).cmp(&name_of(best)).is_lt(),
    }
}

// The number of the file with the least name above, found by looking at all.
fn least_above(after: &[u8]) -> Option<u32> {
    let mut best = None;
    for number in 0..40u32 {
        let above = after.cmp(&name_of(number).as_slice()).is_lt();
        if above && is_there(number) && is_better(number, best) {
            best = Some(number);
        }
    }
    best
}

// What is found under the name of a number, and above it.
fn finds(rt: &impl Abort, alloc: Global, names: &Names, number: u32) -> Result<(), FileError> {
    let name = Name::copy_of(alloc, &name_of(number))?;
    let wanted = if is_there(number) { Some(number) } else { None };
    assert_eq!(rt; number_of(names.named(name.as_slice())), wanted);
    assert_eq!(rt;
        number_of(names.next_above(Some(&name))),
        least_above(name.as_slice())
    );
    Ok(())
}

// What is found under all names, and above them.
fn finds_all(rt: &impl Abort, alloc: Global, names: &Names) -> Result<(), FileError> {
    for number in 0..40u32 {
        finds(rt, alloc, names, number)?;
    }
    Ok(())
}

#[test]
fn many_names(rt: HostRuntime) -> Result<(), Fail> {
    let alloc = rt.alloc();
    let names = mixed(alloc)?;
    assert_eq!(rt; number_of(names.next_above(None)), least_above(b""));
    finds_all(&rt, alloc, &names)?;
    Ok(())
}

#[test]
fn paths(rt: HostRuntime) {
    assert_eq!(rt; View::Active.path(7), 7);
    assert_eq!(rt; View::Snap(2).path(7), 0x2_0000_0007);
    assert_eq!(rt; View::Archive(2).path(7), 0x8000_0002_0000_0007);
    let snapshots = View::Dated {
        archive: false,
        year: 0,
        monthday: 0,
    };
    assert_eq!(rt; snapshots.path(7), 7);
    let archives = View::Dated {
        archive: true,
        year: 0,
        monthday: 0,
    };
    assert_eq!(rt; archives.path(7), 0x8000_0000_0000_0007);
}

#[test]
fn texts(rt: HostRuntime) {
    let texts: [(FileError, &[u8]); 5] = [
        (FileError::Gone, b"file is gone"),
        (FileError::NoNumbers, b"no file numbers left"),
        (FileError::Damaged(0), b"damaged block 0"),
        (FileError::Damaged(4294967295), b"damaged block 4294967295"),
        (FileError::Memory, b"no memory"),
    ];
    for (error, text) in &texts {
        assert_eq!(rt; error.text().as_slice(), *text);
    }
}
