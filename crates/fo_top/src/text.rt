//! The texts of how a run ends, made without memory.
ghost use Rattle.std.specs.Prelude.{◌≡◌, ◌≤◌, length};
ghost use Rattle.fo_top.specs.Texts.{bad_input, unsound};

use arrayvec::ArrayString;
use itoa::Buffer;

/// These words.
pub(crate) fn fixed(words: &str) -> ArrayString<64>
    requires { length words.now ≤ 64 }
    ensures { result.bytes ≡ words.now }
{
    let mut text = ArrayString::new();
    text.push_str(words);
    text
}

/// That no message stands behind so many bytes of the input.
pub(crate) fn bad_input(place: u64) -> ArrayString<64>
    ensures { result.bytes ≡ bad_input place }
{
    let mut number = Buffer::new();
    let mut text = ArrayString::new();
    text.push_str("bad input at byte ");
    text.push_str(number.format(place));
    text
}

/// The rule that is broken, and a block at which it is broken.
pub(crate) fn unsound(rule: u8, block: u32) -> ArrayString<64>
    ensures { result.bytes ≡ unsound rule block }
{
    let mut text = ArrayString::new();
    let mut number = Buffer::new();
    text.push_str("unsound S");
    text.push_str(number.format(rule));
    let mut number = Buffer::new();
    text.push_str(" at block ");
    text.push_str(number.format(block));
    text
}
