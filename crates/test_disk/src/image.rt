use fo_image::*;
use std::alloc::Global;
use std::test::Fail;

/// A block that begins with these bytes, and is zero from there on.
fn block_of(front: &[u8]) -> [u8; 8192] {
    let mut block = [0; 8192];
    for (to, from) in block.iter_mut().zip(front.iter()) {
        *to = *from;
    }
    block
}

/// The block with one byte changed.
fn changed(block: &[u8; 8192], at: usize, byte: u8) -> [u8; 8192] {
    let mut block = *block;
    if at < block.len() {
        block[at] = byte;
    }
    block
}

const HEADER: &[u8] = b"FOSSILHD\0\0\x20\0\0\0\0\x40";

const SUPER: &[u8] = b"FOSSILSB\0\x01\0\0\0\x01\0\0\0\x01\0\0\0\x03\0\0\0\x01\0\0\0\0\0";

const ROOT: &[u8] = b"FOSSILRT\0\0\0\x01\x5e\0\0\0\0\0\0\0\0\0\0\0\
    \0\0\0\0\x03\0\0\0\0\0\0\x20\0\0\0\0\0\0\0\0\0\0\0\0\0\0\0\0\0\0\0\0\0\0\0\0\0\0\0\0\
    \0\0\0\0\x01\0\0\0\0\0\0\x21\0\0\0\0\0\0\0\0\0\0\0\0\0\0\0\0\0\0\0\0\0\0\0\0\0\0\0\0\
    \0\x2c\0\0\0\0\0\0\0\0\0\0\0\0\0\0\0\0\x80\0\x01\xff\x5e\0\0\0\x5e\0\0\0\x01/\x03adm\x03adm\x03adm";

const RECORD: &[u8] =
    b"\0\x2e\0\0\0\x07\0\0\0\x05\0\0\0\x02\0\0\0\x09\0\0\x01\xa4\x5e\0\0\x01\x5e\0\0\x02\
    \x02\xc3\xa9\x06glenda\x03sys\x01x";

/// An empty source.
fn source_of(dir: bool, tag: u32) -> Entry {
    Entry {
        generation: 0,
        active: true,
        dir,
        depth: 0,
        tag,
        size: 0,
        top: Pointer::Nil,
    }
}

fn is_fresh(root: &RootBlock) -> bool {
    root.epoch == 1
        && root.time == 0x5e000000
        && root.prev_epoch == 0
        && root.prev == 0
        && root.entries == source_of(true, 32)
        && root.meta == source_of(false, 33)
        && root.own.name.as_slice() == b"/".as_slice()
        && root.own.mode == 0x800001ff
        && root.own.atime == 0x5e000000
        && root.own.mtime == 0x5e000000
        && root.own.uid.as_slice() == b"adm".as_slice()
        && root.own.gid.as_slice() == b"adm".as_slice()
        && root.own.muid.as_slice() == b"adm".as_slice()
}

fn is_example(record: &Record) -> bool {
    record.name.as_slice() == "\u{e9}".as_bytes()
        && record.number == 7
        && record.slot == 5
        && record.generation == 2
        && record.vers == 9
        && record.mode == 0x1a4
        && record.atime == 0x5e000001
        && record.mtime == 0x5e000002
        && record.uid.as_slice() == b"glenda".as_slice()
        && record.gid.as_slice() == b"sys".as_slice()
        && record.muid.as_slice() == b"x".as_slice()
}

/// A root block and a record.
#[test]
fn ample(rt: HostRuntime) -> Result<(), Fail> {
    assert!(rt; is_fresh(&read_root(rt.alloc(), &block_of(ROOT))?));
    assert!(rt; is_example(&read_record(rt.alloc(), RECORD)?));
    Ok(())
}

/// Whether the block is no root block.
fn is_no_root(alloc: Global, block: &[u8; 8192]) -> bool {
    matches!(read_root(alloc, block), Err(RecordError::Bad(Bad::Entry)))
}

/// Whether the root block is refused once the byte at one of these places has this value. The first that isn't, else none.
fn root_with(alloc: Global, cases: &[(usize, u8)]) -> Option<usize> {
    for (at, byte) in cases {
        if !is_no_root(alloc, &changed(&block_of(ROOT), *at, *byte)) {
            return Some(*at);
        }
    }
    None
}

/// The magic; epoch 0 and 2^31; prevepoch or prev alone; a zero byte of an entry; its depth; the record's length, number, slot,
/// generation and name; bytes after the record.
#[test]
fn roots_refused(rt: HostRuntime) {
    let cases = [
        (0, 102),
        (11, 0),
        (8, 128),
        (19, 1),
        (23, 1),
        (30, 1),
        (31, 1),
        (29, 1),
        (105, 45),
        (104, 255),
        (109, 1),
        (113, 1),
        (117, 1),
        (135, 120),
        (148, 1),
        (8191, 1),
    ];
    assert_eq!(rt; root_with(rt.alloc(), &cases), None);
}

/// A root before this one: its epoch and its address, and its epoch 2^31.
#[test]
fn roots_before(rt: HostRuntime) {
    let named = changed(&block_of(ROOT), 23, 9);
    assert!(rt; !is_no_root(rt.alloc(), &changed(&named, 19, 1)));
    assert!(rt; is_no_root(rt.alloc(), &changed(&named, 16, 128)));
}

/// Whether these bytes are no record.
fn is_no_record(alloc: Global, bytes: &[u8]) -> bool {
    matches!(read_record(alloc, bytes), Err(RecordError::Bad(Bad::Entry)))
}

/// Whether the record is refused with this byte.
fn record_refused(alloc: Global, at: usize, byte: u8) -> bool {
    let mut bytes = [0; 46];
    bytes.copy_from_slice(RECORD);
    if at < bytes.len() {
        bytes[at] = byte;
    }
    is_no_record(alloc, &bytes)
}

/// A name of no bytes; a name with NUL; bad UTF-8; lengths that are not the record's; text past the end; a part of the record.
#[test]
fn records_refused(rt: HostRuntime) {
    assert!(rt; record_refused(rt.alloc(), 30, 0));
    assert!(rt; record_refused(rt.alloc(), 31, 0));
    assert!(rt; record_refused(rt.alloc(), 31, 255));
    assert!(rt; record_refused(rt.alloc(), 1, 45));
    assert!(rt; record_refused(rt.alloc(), 1, 47));
    assert!(rt; record_refused(rt.alloc(), 44, 2));
    assert!(rt; is_no_record(rt.alloc(), &RECORD[..45]));
    assert!(rt; is_no_record(rt.alloc(), b""));
}

/// A live, a closed and a free label.
#[test]
fn labels(rt: HostRuntime) {
    let live = Label {
        state: State::Live,
        kind: Kind::Root,
        tag: 1,
        epoch: 1,
        closing: u32::MAX,
    };
    let closed = Label {
        state: State::Closed,
        kind: Kind::Dir(4),
        tag: 0x22,
        epoch: 2,
        closing: 2,
    };
    let free = Label {
        state: State::Free,
        kind: Kind::Data(0),
        tag: 0,
        epoch: 0,
        closing: 0,
    };
    assert!(rt; read_label(&[1, 16, 0, 0, 0, 1, 255, 255, 255, 255, 0, 0, 0, 1]) == Ok(live));
    assert!(rt; read_label(&[9, 12, 0, 0, 0, 2, 0, 0, 0, 2, 0, 0, 0, 34]) == Ok(closed));
    assert!(rt; read_label(&[0; 14]) == Ok(free));
}

/// Other states; kinds that are none; epochs 0 and 2^31; a free label with a field; a live one with a closing epoch; a closed one
/// whose closing epoch is before its own, or 2^31.
const NO_LABELS: &[[u8; 14]] = &[
    [2, 16, 0, 0, 0, 1, 255, 255, 255, 255, 0, 0, 0, 1],
    [1, 5, 0, 0, 0, 1, 255, 255, 255, 255, 0, 0, 0, 1],
    [1, 7, 0, 0, 0, 1, 255, 255, 255, 255, 0, 0, 0, 1],
    [1, 13, 0, 0, 0, 1, 255, 255, 255, 255, 0, 0, 0, 1],
    [1, 17, 0, 0, 0, 1, 255, 255, 255, 255, 0, 0, 0, 1],
    [1, 16, 0, 0, 0, 0, 255, 255, 255, 255, 0, 0, 0, 1],
    [1, 16, 128, 0, 0, 0, 255, 255, 255, 255, 0, 0, 0, 1],
    [1, 16, 0, 0, 0, 1, 0, 0, 0, 2, 0, 0, 0, 1],
    [0, 16, 0, 0, 0, 0, 0, 0, 0, 0, 0, 0, 0, 0],
    [0, 0, 0, 0, 0, 1, 0, 0, 0, 0, 0, 0, 0, 0],
    [0, 0, 0, 0, 0, 0, 255, 255, 255, 255, 0, 0, 0, 0],
    [0, 0, 0, 0, 0, 0, 0, 0, 0, 0, 0, 0, 0, 1],
    [9, 12, 0, 0, 0, 2, 0, 0, 0, 1, 0, 0, 0, 34],
    [9, 12, 0, 0, 0, 2, 128, 0, 0, 0, 0, 0, 0, 34],
];

#[test]
fn labels_refused(rt: HostRuntime) {
    for bytes in NO_LABELS {
        assert!(rt; read_label(bytes) == Err(Bad::Label));
    }
}

/// A super block without and with a last score.
#[test]
fn super_blocks(rt: HostRuntime) {
    let mut fresh = Super {
        version: 1,
        low: 1,
        high: 1,
        active: 3,
        numbers: 1,
        pending: 0,
        last: None,
    };
    let block = block_of(SUPER);
    assert!(rt; read_super(&block) == Ok(fresh));
    let mut score = [0; 20];
    score[19] = 5;
    fresh.last = Some(Score(score));
    assert!(rt; read_super(&changed(&changed(&block, 30, 1), 50, 5)) == Ok(fresh));
}

/// The magic; version 2; low or high 0 or 2^31; numbers 0 or above 2^30; pending 2^31; has 2; a score with has 0; bytes after the
/// fields.
const NO_SUPERS: &[(usize, u8)] = &[
    (7, 67),
    (9, 2),
    (13, 0),
    (10, 128),
    (17, 0),
    (14, 128),
    (25, 0),
    (22, 64),
    (26, 128),
    (30, 2),
    (31, 1),
    (50, 1),
    (51, 1),
    (8191, 1),
];

#[test]
fn supers_refused(rt: HostRuntime) {
    for (at, byte) in NO_SUPERS {
        assert!(rt;
            read_super(&changed(&block_of(SUPER), *at, *byte)) == Err(Bad::Super),
            "{at}"
        );
    }
}

/// A header, and with its magic, its block size or a byte behind it changed.
#[test]
fn headers(rt: HostRuntime) {
    let block = block_of(HEADER);
    assert!(rt; read_header(&block) == Ok(Header { blocks: 64 }));
    assert!(rt; read_header(&changed(&block, 0, 0)) == Err(Bad::Header));
    assert!(rt; read_header(&changed(&block, 10, 16)) == Err(Bad::Header));
    assert!(rt; read_header(&changed(&block, 16, 1)) == Err(Bad::Header));
}

/// The head of an arena, and with its magic or a byte behind it changed.
#[test]
fn arena_heads(rt: HostRuntime) {
    let block = block_of(b"FSARENA1\0\0\0\x10\0\0\0\x02");
    let head = ArenaHead {
        blocks: 16,
        used: 2,
    };
    assert!(rt; read_arena_head(&block) == Ok(head));
    assert!(rt; read_arena_head(&changed(&block, 7, 50)) == Err(Bad::Header));
    assert!(rt; read_arena_head(&changed(&block, 8191, 1)) == Err(Bad::Header));
}

/// Nil, an address and a score.
#[test]
fn pointers(rt: HostRuntime) {
    let mut score = [0; 20];
    score[15] = 1;
    let mut local = [0; 20];
    local[19] = 4;
    assert!(rt; read_pointer(&[0; 20]) == Pointer::Nil);
    assert!(rt; read_pointer(&local) == Pointer::Local(3));
    assert!(rt; read_pointer(&score) == Pointer::Score(Score(score)));
}

/// An active entry of the tag 64 with this depth and this size, below 2^32.
fn entry_bytes(flags: u8, depth: u8, size: u32) -> [u8; 40] {
    let mut bytes = [0; 40];
    bytes[3] = 7;
    bytes[4] = flags;
    bytes[5] = depth;
    bytes[11] = 64;
    bytes[16..20].copy_from_slice(&size.to_be_bytes());
    bytes[39] = 10;
    bytes
}

/// An entry in use, and one that isn't.
#[test]
fn entries(rt: HostRuntime) {
    let file = Entry {
        generation: 7,
        active: true,
        dir: false,
        depth: 1,
        tag: 64,
        size: 8193,
        top: Pointer::Local(9),
    };
    assert!(rt; read_entry(&entry_bytes(1, 1, 8193)) == Ok(file));
    let mut empty = [0; 40];
    empty[0] = 1;
    let mut gone = source_of(false, 0);
    gone.generation = 1 << 24;
    gone.active = false;
    assert!(rt; read_entry(&empty) == Ok(gone));
}

/// Flags, depths and sizes of no entry: too low and too deep, other flags, fields of one that isn't in use.
const NO_ENTRIES: &[(u8, u8, u32)] = &[
    (1, 0, 8193),
    (1, 2, 8193),
    (1, 1, 8192),
    (4, 1, 8193),
    (0, 1, 8193),
    (2, 0, 0),
];

#[test]
fn entries_refused(rt: HostRuntime) {
    for (flags, depth, size) in NO_ENTRIES {
        assert!(rt;
            read_entry(&entry_bytes(*flags, *depth, *size)) == Err(Bad::Entry),
            "{flags} {depth} {size}"
        );
    }
}

/// The least depth of some sizes: 8192 * 409^d bytes have room at depth d.
const DEPTHS: &[(u64, u8)] = &[
    (0, 0),
    (8192, 0),
    (8193, 1),
    (3350528, 1),
    (3350529, 2),
    (1370365952, 2),
    (1370365953, 3),
    (1 << 40, 4),
    (1 << 47, 4),
    (u64::MAX, 6),
];

#[test]
fn depths(rt: HostRuntime) {
    for (size, depth) in DEPTHS {
        assert!(rt; least_depth(*size) == *depth, "{size}");
    }
}

/// Whether this byte of a line makes it no line.
fn line_refused(bytes: &[u8; 24], at: usize, byte: u8) -> bool {
    let mut bad = *bytes;
    if at < bad.len() {
        bad[at] = byte;
    }
    read_arena_line(&bad) == Err(Bad::Entry)
}

/// A line of the arena's index; other kinds, the zero byte, a length above 8192, and a score that begins with zeros.
#[test]
fn lines(rt: HostRuntime) {
    let mut bytes = [9; 24];
    bytes[20..].copy_from_slice(&[17, 0, 32, 0]);
    let line = ArenaLine {
        score: Score([9; 20]),
        kind: 17,
        len: 8192,
    };
    assert!(rt; read_arena_line(&bytes) == Ok(line));
    assert!(rt; line_refused(&bytes, 20, 5) && line_refused(&bytes, 20, 18));
    assert!(rt; line_refused(&bytes, 21, 1) && line_refused(&bytes, 23, 1));
    bytes[..16].fill(0);
    assert!(rt; read_arena_line(&bytes) == Err(Bad::Entry));
}

/// Places of labels, of lines and of stored blocks.
#[test]
fn places(rt: HostRuntime) {
    assert!(rt; label_blocks(64) == 1 && first_data(64) == 3);
    assert!(rt; label_blocks(585) == 1 && label_blocks(586) == 2 && label_blocks(1 << 20) == 1793);
    assert!(rt; label_place(3) == (2, 42) && label_place(585) == (3, 0));
    assert!(rt; arena_places(16) == 14 && arena_places(64) == 62);
    assert!(rt; line_place(340) == (1, 8160) && line_place(341) == (343, 0));
    assert!(rt; stored_block(0) == 2 && stored_block(341) == 344);
}
