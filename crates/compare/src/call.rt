//! Calls on files, drawn at random.
ghost use Rattle.std.specs.Prelude.{◌≡◌, ◌<◌, ◌≤◌};

use crate::text::{NAMES, USERS};
use fo_world::{DMDIR, View};
use test_random::Random;

/// What is to be changed of a file. Names and users are numbers here.
#[derive(Clone, Copy, Debug)]
pub struct Asked {
    pub mode: Option<u32>,
    pub mtime: Option<u32>,
    pub length: Option<u64>,
    pub name: Option<u32>,
    pub gid: Option<u32>,
}

/// A call on the file at a place.
#[derive(Clone, Copy, Debug)]
pub enum Call {
    Info,
    Find(u32),
    Parent,
    Next(Option<u32>),
    Read { offset: u64, count: u16 },
    Write { offset: u64, count: u16, salt: u8 },
    Create { name: u32, mode: u32 },
    Remove,
    Change(Asked),
    Sync,
}

/// Offsets and lengths at which a block, a pointer block or the largest file ends, and some between.
pub const ENDS: [u64; 16] = [
    0,
    1,
    100,
    8191,
    8192,
    8193,
    16_384,
    40_000,
    409 * 8192 - 1,
    409 * 8192,
    409 * 8192 + 8192,
    409 * 409 * 8192 - 5,
    409 * 409 * 8192,
    1 << 39,
    (1 << 40) - 3,
    1 << 40,
];

/// How many of these are near the start.
const NEAR: usize = 8;

/// How many bytes a call reads or writes.
const COUNTS: [u16; 8] = [0, 1, 5, 100, 8191, 8192, 8193, 9000];

/// The most bytes of a read or a write.
pub const MOST: u16 = 9000;

/// An offset or a length: often a small one.
fn end(random: &mut Random) -> u64 {
    if random.once_in(3) {
        return ENDS[random.place(ENDS.len())];
    }
    ENDS[random.place(NEAR)]
}

/// A number of bytes.
fn count(random: &mut Random) -> u16 {
    COUNTS[random.place(COUNTS.len())]
}

/// The mode of a new file, or of a directory.
fn mode(random: &mut Random) -> u32 {
    if random.once_in(4) {
        return DMDIR + random.below(512);
    }
    random.below(512)
}

/// One in two is given.
fn maybe(random: &mut Random, end: u32) -> Option<u32>
    requires { 0 < end }
{
    let number = random.below(end);
    if random.once_in(2) {
        Some(number)
    } else {
        None
    }
}

/// A new length: one in two is given.
fn length(random: &mut Random) -> Option<u64> {
    let length = end(random);
    if random.once_in(2) {
        Some(length)
    } else {
        None
    }
}

/// Any fields are changed.
fn any_change(random: &mut Random) -> Asked {
    Asked {
        mode: maybe(random, 512),
        mtime: maybe(random, 1 << 20),
        length: length(random),
        name: maybe(random, NAMES),
        gid: maybe(random, USERS),
    }
}

/// The length alone is changed, or the name or the mode.
fn one_change(random: &mut Random) -> Asked {
    let none = Asked {
        mode: None,
        mtime: None,
        length: None,
        name: None,
        gid: None,
    };
    match random.below(5) {
        0 | 1 => Asked {
            length: Some(end(random)),
            ..none
        },
        2 => Asked {
            mode: Some(random.below(512)),
            ..none
        },
        _ => Asked {
            name: Some(random.below(NAMES)),
            ..none
        },
    }
}

/// A call that only looks.
fn look(random: &mut Random) -> Call {
    match random.below(6) {
        0 => Call::Info,
        1 => Call::Find(random.below(NAMES)),
        2 => Call::Parent,
        3 => Call::Next(maybe(random, NAMES)),
        _ => Call::Read {
            offset: end(random),
            count: count(random),
        },
    }
}

/// A piece is written, of which each byte goes by its place and by a number.
fn write(random: &mut Random) -> Call {
    Call::Write {
        offset: end(random),
        count: count(random),
        salt: (random.below(200) % 200) as u8,
    }
}

/// A call.
pub fn draw(random: &mut Random) -> Call {
    match random.below(40) {
        0..8 => look(random),
        8..18 => Call::Create {
            name: random.below(NAMES),
            mode: mode(random),
        },
        18..28 => write(random),
        28..31 => Call::Remove,
        31..35 => Call::Change(one_change(random)),
        35 => Call::Change(any_change(random)),
        _ => Call::Sync,
    }
}

/// The call that looks at what another one was to change.
pub fn after(call: Call) -> Call {
    match call {
        Call::Create { name, .. } => Call::Find(name),
        Call::Write { offset, .. } => Call::Read {
            offset,
            count: MOST,
        },
        Call::Change(_) => Call::Parent,
        _ => Call::Info,
    }
}

/// Whether a call is mostly on a directory.
pub fn wants_directory(call: Call) -> bool {
    match call {
        Call::Create { .. } | Call::Find(_) | Call::Next(_) => true,
        _ => false,
    }
}

/// A view other than the active one.
pub fn view(random: &mut Random) -> View {
    match random.below(4) {
        0 => View::Snap(random.below(4)),
        1 => View::Archive(random.below(4)),
        _ => View::Dated {
            archive: random.once_in(2),
            year: 2020,
            monthday: 101,
        },
    }
}
