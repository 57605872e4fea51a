//! Where things stand on the two devices.
ghost use Rattle.std.specs.Prelude.{◌≡◌, ◌^◌, ◌<◌};
ghost use Rattle.fo_image.specs.Place.{label_blocks, first_data, label_block, label_byte, arena_places, line_block, line_byte, stored_block};

use fo_base::{LABELS, LINES};

/// The number of blocks of the label table of a device of so many blocks.
pub fn label_blocks(blocks: u32) -> u32
    ensures { result ≡ label_blocks blocks }
{
    blocks.div_ceil(LABELS)
}

/// The address of the first data block of a device of so many blocks.
pub fn first_data(blocks: u32) -> u32
    ensures { result ≡ first_data blocks }
{
    2 + label_blocks(blocks)
}

/// The block that has the label of an address, and the label's first byte in it.
pub fn label_place(address: u32) -> (u32, usize)
    ensures block { result.0 ≡ label_block address }
    ensures byte { result.1 ≡ label_byte address }
{
    (2 + address / LABELS, 14 * (address % LABELS) as usize)
}

/// The number of places of an arena of so many blocks.
pub fn arena_places(blocks: u32) -> u32
    ensures { result ≡ arena_places blocks }
{
    let after_head = blocks.saturating_sub(1);
    after_head - after_head.div_ceil(LINES + 1)
}

/// The block of the arena that has the line of a place, and the line's first byte in it.
pub fn line_place(place: u32) -> (u32, usize)
    requires { place < 2 ^ 31 }
    ensures block { result.0 ≡ line_block place }
    ensures byte { result.1 ≡ line_byte place }
{
    (
        1 + (LINES + 1) * (place / LINES),
        24 * (place % LINES) as usize,
    )
}

/// The block of the arena that has the bytes of a place.
pub fn stored_block(place: u32) -> u32
    requires { place < 2 ^ 31 }
    ensures { result ≡ stored_block place }
{
    2 + (LINES + 1) * (place / LINES) + place % LINES
}
