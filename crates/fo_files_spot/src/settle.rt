//! A settling before a name comes to a leaf.
ghost use Rattle.std.specs.Prelude.{◌≡◌, ◌⊎◌, true, OnOk, OnErr, [], IfErr};
ghost use Rattle.fo_base.specs.Cause.{Rose};
ghost use Rattle.fo_ports.specs.Causes.{Caused};
ghost use Rattle.fo_ports.specs.State.{Rests};
ghost use Rattle.fo_ports.specs.Sources.{DirtiesIn};
ghost use Rattle.fo_files_spot.specs.Settles.{SettlesUnless};

use fo_ports::{BlockError, Blocks};

/// Settles, unless the name that comes to a leaf stands alone there in every image.
pub fn settle_unless<B: Blocks>(on: &mut B, alone: bool) -> Result<(), BlockError>
    requires silent { (B.state on.old).tells → ⊥ }
    ensures settles { OnOk result (SettlesUnless B B.state alone on.old on.new) }
    ensures left { OnErr result (Rests (B.state on.old) (B.state on.new)) }
    ensures granted { alone ≡ true → OnErr result ⊥ }
    ensures room { ((B.state on.new).spare ≡ (B.state on.old).spare) × ((B.state on.new).pins_left ≡ (B.state on.old).pins_left) × ((B.state on.new).room ≡ (B.state on.old).room) }
    ensures cause { IfErr result (Caused ⊥ (λ b. ⊥) (Rose (B.state on.old).faults (B.state on.new).faults) ⊥) }
    ensures dirties { DirtiesIn [] (B.state on.old) (B.state on.new) }
    ensures keeps { B.keeps on.old on.new }
{
    if alone {
        return Ok(());
    }
    match on.settle() {
        Ok(()) => Ok(()),
        Err(why) => Err(why),
    }
}
