//! The form of a block of pointers.
ghost use Rattle.std.specs.Prelude.{◌≡◌, ◌*◌, ◌<◌, ℕ, length, MatchResult};
ghost use Rattle.fo_arch_form.specs.Pointers.{PutsPointer, Misses, MissesOne, HasScores};

use crate::stored::Stored;
use fo_arch_hash::put_score;
use fo_image::read_pointer;

/// Puts the score of what slot `i` names into its place.
fn put_pointer(done: &Stored, kind: u8, block: &mut [u8], i: usize) -> Result<(), u32>
    requires slot { i < 409 }
    requires length { length block.old ≡ 8192 }
    ensures { MatchResult result (λ _. PutsPointer done.now kind i block.old block.new) (Misses done.now kind i block.old) }
{
    let pointer = read_pointer(&block[20 * i..20 * i + 20]);
    let score = done.score_under(kind, pointer)?;
    put_score(block, i, &score);
    Ok(())
}

/// Makes the form of a block of pointers to blocks of this kind. Where one of them isn't stored, that is answered, and the bytes are
/// of no use.
pub fn form_pointers(done: &Stored, kind: u8, block: &mut [u8]) -> Result<(), u32>
    requires { length block.old ≡ 8192 }
    ensures { MatchResult result (λ _. HasScores done.now kind 409 block.old block.new) (MissesOne done.now kind block.old) }
{
    for i in 0..409 {
        put_pointer(done, kind, block, i)?;
    }
    Ok(())
}
