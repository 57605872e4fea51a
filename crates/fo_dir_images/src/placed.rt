//! Whether the leaves of a directory are in place, so that each image shows them.
ghost use Rattle.std.specs.Prelude.{◌≡◌, ◌⊎◌, ℕ, List, length, true};
ghost use Rattle.std.specs.List.{Contains};
ghost use Rattle.fo_crash.specs.Images.{Arena, Image, IsArena, to_block};
ghost use Rattle.fo_ports.specs.State.{IsDoomed};
ghost use Rattle.fo_dir_images.specs.Whole.{IsWholeDir, ShowsDir};

use fo_ports::Blocks;

/// Whether each of these blocks hung from block 1 when all was last settled.
fn are_sealed<B: Blocks>(on: &B, blocks: &[u32]) -> bool
    ensures { result ≡ true → (b : ℕ) → Contains blocks.now b → (B.state on.now).sealed b }
{
    for block in blocks {
        if !on.sealed(*block) {
            return false;
        }
    }
    true
}

/// Whether each of these leaves, of records and of entries, did so.
fn all_sealed<B: Blocks>(on: &B, leaves: &[u32], entries: &[u32]) -> bool
    ensures { result ≡ true → (b : ℕ) → Contains leaves.now b ⊎ Contains entries.now b → (B.state on.now).sealed b }
{
    are_sealed(on, leaves) && are_sealed(on, entries)
}

/// Whether each image shows a directory, as far as names of the image lead to it and it has the leaves: its leaves of records, and those of
/// its entries that hold their pairs, hung from block 1 when all was last settled. No settling is to take them out.
pub fn is_shown<B: Blocks>(on: &B, leaves: &[u32], entries: &[u32]) -> bool
    requires spared { (B.state on.now).tells → (b : ℕ) → Contains leaves.now b ⊎ Contains entries.now b → IsDoomed (B.state on.now) b → ⊥ }
    ensures { result ≡ true → (arena : Arena) (image : Image) (root : ℕ) (trail : List ℕ) → IsArena arena → (B.state on.now).may_leave image → (image 1).slot 0 ≡ to_block root → IsWholeDir arena (B.state on.now) (λ b. Contains leaves.now b ⊎ Contains entries.now b) trail (length leaves.now) leaves.now → ShowsDir arena image root trail (length leaves.now) }
{
    all_sealed(on, leaves, entries)
}
