//! A directory's own record is put.
ghost use Rattle.std.specs.Prelude.{◌≡◌, ℕ, drop};
ghost use Rattle.fo_image.specs.declared.record.Record.{Record};
ghost use Rattle.fo_crash.specs.Steps.{PutsBytes};
ghost use Rattle.fo_ports.specs.Blocks.{put_at};
ghost use Rattle.fo_ports.specs.State.{AddsNoWait, Calm, none};
ghost use Rattle.fo_files_own.specs.declared.at.OwnAt.{OwnAt};
ghost use Rattle.fo_files_own.specs.Own.{ChangesOwn, HasReady, IsBlockOf, MayPutOwn};

use crate::at::ReadyOwn;
use fo_ports::Blocks;

/// Puts the bytes that were made ready. The record that the block then has is that for which it was made ready, if the block has had the same bytes
/// since.
pub fn put_own<B: Blocks>(on: &mut B, ready: ReadyOwn)
    requires silent { (B.state on.old).tells → ⊥ }
    requires may { MayPutOwn (B.state on.old) ready }
    ensures puts { PutsBytes ready.at (put_at ready.from (drop ready.from ready.bytes) (((B.state on.old).now ready.at).bytes)) (B.state on.old).now (B.state on.new).now }
    ensures own { (at : OwnAt) (named : Record) → IsBlockOf (B.state on.old) at ready → HasReady (B.state on.old) at named ready → ChangesOwn (B.state on.old) (B.state on.new) at named ready.at }
    ensures calm { Calm (λ b. b ≡ ready.at) 0 (B.state on.old) (B.state on.new) }
    ensures no_wait { AddsNoWait none (B.state on.old) (B.state on.new) }
    ensures keeps { B.keeps on.old on.new }
{
    on.put_bytes(ready.at, ready.from, &ready.bytes[ready.from as usize..]);
}
