//! Blocks that are held under a score and kind.
ghost use Rattle.std.specs.Prelude.{◌≡◌, Some, None, true, false, length};
ghost use Rattle.fo_ports_plain.specs.Plain.{held_in, is_under};

use fo_base::BLOCK;
use fo_image::Score;

/// A block that is held, in its full length.
#[derive(Clone, Copy)]
pub struct HeldBlock {
    pub(crate) score: Score,
    pub(crate) kind: u8,
    pub(crate) bytes: [u8; BLOCK],
}

/// Copies the block that is held under this score and kind; false where none is.
pub(crate) fn copy_held(held: &[HeldBlock], score: &Score, kind: u8, into: &mut [u8]) -> bool
    requires { length into.old ≡ 8192 }
    ensures found { result ≡ true → held_in held.now score.now kind ≡ Some into.new }
    ensures absent { result ≡ false → held_in held.now score.now kind ≡ None }
    ensures nothing { result ≡ false → into.new ≡ into.old }
{
    for block in held {
        if is_under(block, score, kind) {
            into.copy_from_slice(&block.bytes);
            return true;
        }
    }
    false
}

/// Whether the block is held under this score and kind.
fn is_under(block: &HeldBlock, score: &Score, kind: u8) -> bool
    ensures { result ≡ is_under block.now.score block.now.kind score.now kind }
{
    block.score == *score && block.kind == kind
}
