//! Names and users.
ghost use Rattle.std.specs.Prelude.{◌≡◌, IfOk};
ghost use Rattle.fo_world.specs.Limits.{IsName, IsUser};

use fo_base::{Bytes, Memory, is_text};
use std::alloc::Global;

/// How many names there are.
pub const NAMES: u32 = 14;

/// How many users there are.
pub const USERS: u32 = 3;

fn name_bytes(number: u32) -> &'static [u8] {
    match number {
        0 => b"a",
        1 => b"b",
        2 => b"ba",
        3 => b"a.name.that.is.longer.than.most.others.in.this.list.of.names.here",
        4 => "\u{e4}".as_bytes(),
        5 => b"z",
        6 => b"A",
        7 => b"c",
        8 => b"ab",
        9 => b".",
        10 => b" ",
        11 => b"lib",
        12 => b"libs",
        _ => b"0",
    }
}

fn user_bytes(number: u32) -> &'static [u8] {
    match number {
        0 => b"adm",
        1 => b"glenda",
        _ => b"sys",
    }
}

/// The name of a number.
pub fn name(alloc: Global, number: u32) -> Result<Bytes, Memory>
    ensures { IfOk result IsName }
{
    let bytes = name_bytes(number);
    if bytes.is_empty() || 255 < bytes.len() || !is_text(bytes) {
        return Err(Memory);
    }
    Ok(Bytes::copy_of(alloc, bytes)?)
}

/// The user of a number.
pub fn user(alloc: Global, number: u32) -> Result<Bytes, Memory>
    ensures { IfOk result IsUser }
{
    let bytes = user_bytes(number);
    if bytes.is_empty() || 64 < bytes.len() || !is_text(bytes) {
        return Err(Memory);
    }
    Ok(Bytes::copy_of(alloc, bytes)?)
}
