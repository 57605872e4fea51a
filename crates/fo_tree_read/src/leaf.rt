//! Leaves by their numbers.
ghost use Rattle.std.specs.Prelude.{◌≡◌, ◌+◌, ◌^◌, ◌≤◌, IfOk, OnOk, IfErr, IfSome};
ghost use Rattle.fo_looks.specs.of_ports.State.{Looks};
ghost use Rattle.fo_tree_read.specs.Tree.{Hangs, address, IsFound, Failed};

use crate::tree::Tree;
use fo_looks::{BlockError, Blocks};

impl Tree {
    /// The address of leaf `i`; None exactly where no leaf stands on the device.
    pub fn leaf<B: Blocks>(&self, on: &mut B, i: u64) -> Result<Option<u32>, BlockError>
        requires hangs { Hangs (B.state on.old) self.now }
        ensures found { IfOk result (λ at. IsFound (B.state on.old) self.now self.now.depth i → at ≡ address (B.state on.new) self.now i) }
        ensures block { IfOk result (λ at. IfSome at (λ b. (B.state on.new).is_block b)) }
        ensures pins { (B.state on.old).pins_left ≤ (B.state on.new).pins_left + self.now.depth }
        ensures looks { Looks (B.state on.old) (B.state on.new) }
        ensures keeps { B.keeps on.old on.new }
        ensures cause { IfErr result (Failed (B.state on.old) (B.state on.new)) }
    {
        let room = leaves_for(self.depth);
        if room <= i {
            return Ok(None);
        }
        let found = self.address_at(on, self.depth, i)?;
        Ok(found)
    }
}

/// How many leaves a tree of this depth has room for.
pub(crate) fn leaves_for(depth: u8) -> u64
    requires { depth ≤ 4 }
    ensures { result ≡ 409 ^ depth }
{
    match depth {
        0 => 1,
        1 => 409,
        2 => 409 * 409,
        3 => 409 * 409 * 409,
        _ => 409 * 409 * 409 * 409,
    }
}
