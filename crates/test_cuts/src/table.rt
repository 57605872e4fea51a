//! What is asked, and what is found then. The bytes were written by hand from section 5 of the Plan 9 manual.

/// What is found of a file: nothing where there is none, else its first 16 bytes, and the 16 behind the first 8186.
pub type Content = Option<(&'static [u8], &'static [u8])>;

/// Which of the names `d` and `e` there are.
pub type Names = (bool, bool);

/// What the session is asked; what `f` and `g` have and which of `d` and `e` there are once that is granted; whether all is settled then.
pub type Row = (&'static [u8], Content, Content, Names, bool);

const NO: Content = None;

const EMPTY: Content = Some((b"", b""));

const HELLO: Content = Some((b"hello", b""));

/// "hello", and "over" from byte 8190 on.
const OVER: Content = Some((b"hello\0\0\0\0\0\0\0\0\0\0\0", b"\0\0\0\0over"));

const HE: Content = Some((b"he", b""));

const WORLD: Content = Some((b"world", b""));

const NONE: Names = (false, false);

const D: Names = (true, false);

const E: Names = (false, true);

/// A Tversion of 65560 bytes and 9P2000.
pub const VERSION: &[u8] = b"\x13\0\0\0d\x01\0\x18\0\x01\0\x06\09P2000";

/// A Tattach of `glenda` with fid 0.
pub const ATTACH: &[u8] = b"\x19\0\0\0h\x01\0\0\0\0\0\xff\xff\xff\xff\x06\0glenda\0\0";

/// A Twstat of the root that touches nothing.
const SETTLE: &[u8] = b"\x3e\0\0\0~\x01\0\0\0\0\0\x31\0\x2f\0\xff\xff\xff\xff\xff\xff\
    \xff\xff\xff\xff\xff\xff\xff\xff\xff\xff\xff\xff\xff\xff\xff\xff\xff\
    \xff\xff\xff\xff\xff\xff\xff\xff\xff\xff\xff\xff\xff\xff\xff\xff\0\0\0\0\0\0\0\0";

/// A Twstat by which fid 1 gets the length 2.
const CUT: &[u8] = b"\x3e\0\0\0~\x01\0\x01\0\0\0\x31\0\x2f\0\xff\xff\xff\xff\xff\xff\
    \xff\xff\xff\xff\xff\xff\xff\xff\xff\xff\xff\xff\xff\xff\xff\xff\xff\
    \xff\xff\xff\xff\xff\xff\xff\xff\x02\0\0\0\0\0\0\0\0\0\0\0\0\0\0\0";

/// A Twstat by which fid 3 gets the name `e`.
const RENAME: &[u8] = b"\x3f\0\0\0~\x01\0\x03\0\0\0\x32\0\x30\0\xff\xff\xff\xff\xff\xff\
    \xff\xff\xff\xff\xff\xff\xff\xff\xff\xff\xff\xff\xff\xff\xff\xff\xff\
    \xff\xff\xff\xff\xff\xff\xff\xff\xff\xff\xff\xff\xff\xff\xff\xff\x01\0e\0\0\0\0\0\0";

/// Twalks of no names from fid 0 to fids 1, 2 and 3.
const FIRST_FID: &[u8] = b"\x11\0\0\0n\x01\0\0\0\0\0\x01\0\0\0\0\0";

const SECOND_FID: &[u8] = b"\x11\0\0\0n\x01\0\0\0\0\0\x02\0\0\0\0\0";

const THIRD_FID: &[u8] = b"\x11\0\0\0n\x01\0\0\0\0\0\x03\0\0\0\0\0";

/// Tcreates of the files `f` by fid 1 and `g` by fid 2, for reading and writing, and of the directory `d` by fid 3.
const MAKE_F: &[u8] = b"\x13\0\0\0r\x01\0\x01\0\0\0\x01\0f\xa4\x01\0\0\x02";

const MAKE_G: &[u8] = b"\x13\0\0\0r\x01\0\x02\0\0\0\x01\0g\xa4\x01\0\0\x02";

const MAKE_D: &[u8] = b"\x13\0\0\0r\x01\0\x03\0\0\0\x01\0d\xed\x01\0\x80\0";

/// Twrites of "hello" to `f`, of "world" to `g`, and of "over" from byte 8190 of `f` on.
const WRITE_F: &[u8] = b"\x1c\0\0\0v\x01\0\x01\0\0\0\0\0\0\0\0\0\0\0\x05\0\0\0hello";

const WRITE_G: &[u8] = b"\x1c\0\0\0v\x01\0\x02\0\0\0\0\0\0\0\0\0\0\0\x05\0\0\0world";

const WRITE_OVER: &[u8] = b"\x1b\0\0\0v\x01\0\x01\0\0\0\xfe\x1f\0\0\0\0\0\0\x04\0\0\0over";

/// A Tremove of `g`.
const REMOVE_G: &[u8] = b"\x0b\0\0\0z\x01\0\x02\0\0\0";

/// The steps of the run.
pub const STEPS: &[Row] = &[
    (VERSION, NO, NO, NONE, false),
    (ATTACH, NO, NO, NONE, false),
    (FIRST_FID, NO, NO, NONE, false),
    (MAKE_F, EMPTY, NO, NONE, false),
    (WRITE_F, HELLO, NO, NONE, false),
    (SETTLE, HELLO, NO, NONE, true),
    (SECOND_FID, HELLO, NO, NONE, false),
    (MAKE_G, HELLO, EMPTY, NONE, false),
    (WRITE_G, HELLO, WORLD, NONE, false),
    (THIRD_FID, HELLO, WORLD, NONE, false),
    (MAKE_D, HELLO, WORLD, D, false),
    (SETTLE, HELLO, WORLD, D, true),
    (WRITE_OVER, OVER, WORLD, D, false),
    (REMOVE_G, OVER, NO, D, false),
    (SETTLE, OVER, NO, D, true),
    (CUT, HE, NO, D, false),
    (RENAME, HE, NO, E, false),
    (SETTLE, HE, NO, E, true),
];

/// Twalks from fid 0 to `f` with fid 1, to `g` with fid 2, to `d` with fid 3, and to `e` with fid 4.
pub const TO_F: &[u8] = b"\x14\0\0\0n\x01\0\0\0\0\0\x01\0\0\0\x01\0\x01\0f";

pub const TO_G: &[u8] = b"\x14\0\0\0n\x01\0\0\0\0\0\x02\0\0\0\x01\0\x01\0g";

pub const TO_D: &[u8] = b"\x14\0\0\0n\x01\0\0\0\0\0\x03\0\0\0\x01\0\x01\0d";

pub const TO_E: &[u8] = b"\x14\0\0\0n\x01\0\0\0\0\0\x04\0\0\0\x01\0\x01\0e";

/// Topens of `f` and `g` for reading.
pub const OPEN_F: &[u8] = b"\x0c\0\0\0p\x01\0\x01\0\0\0\0";

pub const OPEN_G: &[u8] = b"\x0c\0\0\0p\x01\0\x02\0\0\0\0";

/// Treads of 16 bytes, from the beginning and from byte 8186 on.
pub const READ_F: &[u8] = b"\x17\0\0\0t\x01\0\x01\0\0\0\0\0\0\0\0\0\0\0\x10\0\0\0";

pub const READ_F_BEHIND: &[u8] = b"\x17\0\0\0t\x01\0\x01\0\0\0\xfa\x1f\0\0\0\0\0\0\x10\0\0\0";

pub const READ_G: &[u8] = b"\x17\0\0\0t\x01\0\x02\0\0\0\0\0\0\0\0\0\0\0\x10\0\0\0";

pub const READ_G_BEHIND: &[u8] = b"\x17\0\0\0t\x01\0\x02\0\0\0\xfa\x1f\0\0\0\0\0\0\x10\0\0\0";
