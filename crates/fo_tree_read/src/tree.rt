//! The way to a leaf.
ghost use Rattle.std.specs.Prelude.{◌≡◌, ◌⊎◌, ◌+◌, ◌-◌, ◌*◌, ◌<◌, ◌≤◌, ℕ, Some, IfOk, OnOk, IfErr, IfSome};
ghost use Rattle.fo_looks.specs.of_image.declared.types.Pointer.TheVariants.{Local};
ghost use Rattle.fo_looks.specs.of_ports.State.{Looks};
ghost use Rattle.fo_tree_read.specs.Tree.{Hangs, block_at, address_of, Agrees, Way, HasPins, IsFound, IsNear, above, kind_down, below, Got, Names, Refused, Failed};

use crate::below::{held_below, kind_at, kind_number, pointer_below};
use fo_looks::{BlockError, Blocks, Kind, Pointer};

/// How many pointers a block has.
const SLOTS: u64 = 409;

/// Where the blocks of a source hang: its top and what is below it. The rank is that of its leaves.
#[derive(Clone, Copy, Debug, PartialEq, Eq)]
pub struct Tree {
    pub dir: bool,
    pub tag: u32,
    pub rank: u32,
    pub depth: u8,
    pub size: u64,
    pub top: Pointer,
}

impl Tree {
    /// The address of block `k` of those so many steps below the top; None where no such block stands on the device.
    pub fn address_at<B: Blocks>(
        &self,
        on: &mut B,
        down: u8,
        k: u64,
    ) -> Result<Option<u32>, BlockError>
        requires hangs { Hangs (B.state on.old) self.now }
        requires down { down ≤ self.now.depth }
        ensures found { IfOk result (λ at. IsFound (B.state on.old) self.now down k → at ≡ address_of (block_at (B.state on.new) self.now down k)) }
        ensures block { IfOk result (λ at. IfSome at (λ b. (B.state on.new).is_block b)) }
        ensures way { OnOk result (HasPins (B.state on.old) self.now down k → Way (B.state on.new) self.now down k) }
        ensures pins { (B.state on.old).pins_left ≤ (B.state on.new).pins_left + down }
        ensures near { (j : ℕ) → IsNear (B.state on.old) self.now down j k → (B.state on.old).pins_left + above down j ≤ (B.state on.new).pins_left + above down k }
        ensures looks { Looks (B.state on.old) (B.state on.new) }
        ensures keeps { B.keeps on.old on.new }
        ensures cause { IfErr result (Failed (B.state on.old) (B.state on.new)) }
    {
        if down == 0 {
            return Ok(address(self.top));
        }
        let above = self.address_at(on, down - 1, k / SLOTS)?;
        match above {
            None => Ok(None),
            Some(at) => {
                let pointer = self.step(on, at, down - 1, (k % SLOTS) as u32)?;
                let found = address(pointer);
                Ok(found)
            }
        }
    }

    /// Where block `k` is of those so many steps below the top.
    pub fn pointer_at<B: Blocks>(&self, on: &mut B, down: u8, k: u64) -> Result<Pointer, BlockError>
        requires hangs { Hangs (B.state on.old) self.now }
        requires down { down ≤ self.now.depth }
        ensures found { IfOk result (λ p. IsFound (B.state on.old) self.now down k → Agrees (B.state on.old).tells p (block_at (B.state on.new) self.now down k)) }
        ensures block { IfOk result (λ p. (b : ℕ) → p ≡ Local b → (B.state on.new).is_block b) }
        ensures way { OnOk result (HasPins (B.state on.old) self.now down k → Way (B.state on.new) self.now down k) }
        ensures pins { (B.state on.old).pins_left ≤ (B.state on.new).pins_left + down }
        ensures near { (j : ℕ) → IsNear (B.state on.old) self.now down j k → (B.state on.old).pins_left + above down j ≤ (B.state on.new).pins_left + above down k }
        ensures looks { Looks (B.state on.old) (B.state on.new) }
        ensures keeps { B.keeps on.old on.new }
        ensures cause { IfErr result (Refused (B.state on.old) (B.state on.new) (Names (B.state on.old) self.now)) }
    {
        if down == 0 {
            return Ok(self.top);
        }
        let above = self.pointer_at(on, down - 1, k / SLOTS)?;
        match above {
            Pointer::Nil => Ok(Pointer::Nil),
            Pointer::Local(at) => {
                let pointer = self.step(on, at, down - 1, (k % SLOTS) as u32)?;
                Ok(pointer)
            }
            Pointer::Score(score) => {
                let kind = kind_number(self.dir, self.depth - (down - 1));
                let pointer = held_below(on, &score, kind, (k % SLOTS) as u32)?;
                Ok(pointer)
            }
        }
    }

    /// The pointer in slot `i` of a block of pointers so many steps below the top.
    pub fn step<B: Blocks>(
        &self,
        on: &mut B,
        at: u32,
        down: u8,
        i: u32,
    ) -> Result<Pointer, BlockError>
        requires hangs { Hangs (B.state on.old) self.now }
        requires down { down < self.now.depth }
        requires block { (B.state on.old).is_block at }
        requires there { (B.state on.old).tells → (k : ℕ) × (block_at (B.state on.old) self.now down k ≡ Local at) }
        requires slot { i < 409 }
        ensures found { IfOk result (λ p. p ≡ below (B.state on.new) (kind_down self.now down) (Local at) i) }
        ensures block { IfOk result (λ p. (b : ℕ) → p ≡ Local b → (B.state on.new).is_block b) }
        ensures got { OnOk result ((0 < (B.state on.old).pins_left) ⊎ Got (B.state on.old) (kind_down self.now down) (Local at) → Got (B.state on.new) (kind_down self.now down) (Local at)) }
        ensures pins { (B.state on.old).pins_left ≤ (B.state on.new).pins_left + 1 }
        ensures again { Got (B.state on.old) (kind_down self.now down) (Local at) → (B.state on.old).pins_left ≤ (B.state on.new).pins_left }
        ensures looks { Looks (B.state on.old) (B.state on.new) }
        ensures keeps { B.keeps on.old on.new }
        ensures cause { IfErr result (Failed (B.state on.old) (B.state on.new)) }
    {
        let level = self.depth - down;
        pointer_below(
            on,
            at,
            kind_at(self.dir, level),
            self.rank + level as u32,
            i,
        )
    }
}

/// The address that a pointer names.
fn address(pointer: Pointer) -> Option<u32>
    ensures { result ≡ address_of pointer }
{
    match pointer {
        Pointer::Local(at) => Some(at),
        _ => None,
    }
}
