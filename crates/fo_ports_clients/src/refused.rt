//! What holds over any blocks: the functions do nothing, and their contracts are what holds.
ghost use Rattle.std.specs.Prelude.{ℕ};
ghost use Rattle.fo_crash.specs.Images.{Image};
ghost use Rattle.fo_crash.specs.Spots.{OnePath};
ghost use Rattle.fo_ports_clients.specs.Refused.{LinksOnce, RaisesOnce, KeepsFirst, KeepsOutClosed, KeepsInTree, LetsNoneGo, KeepsCopies, CutsInTree};

use fo_ports::Blocks;

/// In every image one path alone leads to a block, from block 1 and from the root of each kept snapshot.
pub fn one_path_leads<B: Blocks>(on: &B)
    ensures { (t : ℕ) (image : Image) → (B.state on.now).tops t → (B.state on.now).may_leave image → OnePath t image }
{
    let _ = on;
}

/// What no client may put where the device tells what it holds, whatever it did before: no block is linked twice, and so no top is
/// rebuilt slot by slot in a block that hangs; no new top is raised over what hangs from a made block; slot 0 of a block of pointers
/// isn't emptied; nothing is put that is to be closed, nor into what is to be closed, nor into what hangs nowhere; no block that was
/// made is let go; nothing leaves that a made block is still to come in the place of; and nothing is cut in a block that doesn't hang
/// from block 1: no slot of it that leads to a block is led to none or cleared, and no source loses levels there.
pub fn puts_are_refused<B: Blocks>(on: &B)
    ensures once { (B.state on.now).tells → LinksOnce (B.state on.now) }
    ensures raised { RaisesOnce (B.state on.now) }
    ensures first { KeepsFirst (B.state on.now) }
    ensures closed { KeepsOutClosed (B.state on.now) }
    ensures tree { KeepsInTree (B.state on.now) }
    ensures made { LetsNoneGo (B.state on.now) }
    ensures copies { KeepsCopies (B.state on.now) }
    ensures cut { CutsInTree (B.state on.now) }
{
    let _ = on;
}
