//! What is known of addresses after a slot was put.
ghost use Rattle.std.specs.Prelude.{◌≡◌, ◌≢◌, ◌<◌, ℕ, length};
ghost use Rattle.fo_image.specs.declared.types.Pointer.TheVariants.{Local};
ghost use Rattle.fo_raising.specs.Raised.{KeepsCounts, Marked, hung, raised_over};

use fo_facts::Facts;
use fo_image::Pointer;

// A block that is raised over another one comes in its place.
fn raise_over(facts: &mut Facts, at: u32, below: u32, raised: bool)
    requires { at < length facts.old }
    ensures { facts.new ≡ raised_over facts.old at below raised }
{
    if raised {
        facts.raise(at, below);
    }
}

// A slot of block `at` was put that leads there.
fn hang(facts: &mut Facts, at: u32, to: Pointer, raised: bool)
    requires at { at < length facts.old }
    requires to { (b : ℕ) → to ≡ Local b → b < length facts.old }
    ensures { facts.new ≡ hung facts.old at to raised }
{
    if let Pointer::Local(below) = to {
        raise_over(facts, at, below, raised);
        facts.come(below);
    }
}

/// A slot of block `at` was put that leads there; `raised` says whether the block is raised over what is put. What is put is apart no
/// more; nothing else is known otherwise than before, and as many are counted.
pub fn note_put(facts: &mut Facts, at: u32, to: Pointer, raised: bool)
    requires at { at < length facts.old }
    requires to { (b : ℕ) → to ≡ Local b → (b < length facts.old) × (b ≢ at) }
    ensures marked { Marked at to raised facts.old facts.new }
    ensures counts { KeepsCounts facts.old facts.new }
{
    hang(facts, at, to, raised);
}
