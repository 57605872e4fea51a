//! What the images of a crash show.
use crate::cores::{Core, Way, begins, is_granted, opened, reads};
use crate::table::{
    Content, Names, OPEN_F, OPEN_G, READ_F, READ_F_BEHIND, READ_G, READ_G_BEHIND, Row, STEPS, TO_D,
    TO_E, TO_F, TO_G,
};
use fo_base::Memory;
use std::alloc::Global;
use test_requests::disks::{Disks, Left};

/// A file that is looked for and read.
#[derive(Clone, Copy)]
enum File {
    F,
    G,
}

/// The messages by which a file is found, opened, and read at two places.
type Asks = (&'static [u8], &'static [u8], &'static [u8], &'static [u8]);

fn asks(file: File) -> Asks {
    match file {
        File::F => (TO_F, OPEN_F, READ_F, READ_F_BEHIND),
        File::G => (TO_G, OPEN_G, READ_G, READ_G_BEHIND),
    }
}

/// What a step leaves of a file.
fn content(row: &Row, file: File) -> Content {
    let (_, f, g, _, _) = *row;
    match file {
        File::F => f,
        File::G => g,
    }
}

/// The steps of which an image may show what they leave: the last that was granted and settles all, and those sent since.
fn since(way: Way) -> &'static [Row] {
    let mut first: usize = 0;
    for at in 0..way.granted {
        if let Some((_, _, _, _, true)) = STEPS.get(at) {
            first = at;
        }
    }
    STEPS.get(first..way.sent).unwrap_or(STEPS)
}

/// Whether a file that is open reads so.
fn holds(alloc: Global, core: &mut Core, file: File, wanted: (&[u8], &[u8])) -> bool {
    let (_, _, front, behind) = asks(file);
    reads(alloc, core, front, wanted.0) && reads(alloc, core, behind, wanted.1)
}

/// Whether a file that is open reads as one of these steps leaves it.
fn holds_one(alloc: Global, core: &mut Core, file: File, rows: &[Row]) -> bool {
    for row in rows {
        if let Some(wanted) = content(row, file) {
            if holds(alloc, core, file, wanted) {
                return true;
            }
        }
    }
    false
}

/// Whether one of these steps leaves no such file.
fn may_lack(file: File, rows: &[Row]) -> bool {
    for row in rows {
        if content(row, file).is_none() {
            return true;
        }
    }
    false
}

/// Whether a file is as one of these steps leaves it.
fn fits(alloc: Global, core: &mut Core, file: File, rows: &[Row]) -> bool {
    let (to, open, _, _) = asks(file);
    if is_granted(alloc, core, to) {
        is_granted(alloc, core, open) && holds_one(alloc, core, file, rows)
    } else {
        may_lack(file, rows)
    }
}

/// Which of the names of the directory there are.
fn names(alloc: Global, core: &mut Core) -> Names {
    let d = is_granted(alloc, core, TO_D);
    let e = is_granted(alloc, core, TO_E);
    (d, e)
}

/// Whether one of these steps leaves these names.
fn may_have(found: Names, rows: &[Row]) -> bool {
    for (_, _, _, names, _) in rows {
        if *names == found {
            return true;
        }
    }
    false
}

/// Whether both files, and the names of the directory, are as one of these steps leaves them.
fn all_fit(alloc: Global, core: &mut Core, rows: &[Row]) -> bool {
    begins(alloc, core)
        && fits(alloc, core, File::F, rows)
        && fits(alloc, core, File::G, rows)
        && may_have(names(alloc, core), rows)
}

/// The same, where the system ends then.
fn ends_fit(alloc: Global, core: Core, rows: &[Row]) -> bool {
    let mut core = core;
    let fit = all_fit(alloc, &mut core, rows);
    let _ = core.close();
    fit
}

/// Whether an image passes the check, with which the system opens, and all is as one of these steps leaves it.
fn is_right(alloc: Global, image: Result<Disks, Memory>, rows: &[Row]) -> bool {
    match image {
        Ok(disks) => match opened(alloc, disks) {
            Some(core) => ends_fit(alloc, core, rows),
            None => false,
        },
        Err(_) => false,
    }
}

/// How many choices of a version of each block there are.
fn choices(left: &Left) -> u32 {
    let mut choices: u32 = 1;
    for at in 0..64 {
        choices = choices.saturating_mul(left.versions(at));
    }
    choices
}

/// How many images there are of what a crash may leave where a run came so far, where they are at most 256, and all right.
pub fn images(alloc: Global, left: &Left, way: Way) -> Option<u32> {
    let rows = since(way);
    let choices = choices(left);
    if 256 < choices {
        return None;
    }
    for number in 0..choices {
        if !is_right(alloc, left.choice(number), rows) {
            return None;
        }
    }
    Some(choices)
}
