//! A file number is granted.
ghost use Rattle.std.specs.Prelude.{◌≡◌, ◌^◌, ◌<◌, IfOk, IfErr};
ghost use Rattle.fo_ports.specs.State.{Numbers};
ghost use Rattle.fo_world.specs.Answers.{Refuses};
ghost use Rattle.fo_files_create_look.specs.of_files_look.Told.{faults_of};
ghost use Rattle.fo_files_create.specs.Create.{IsLate, numbered};

use fo_files_create_look::files_look::file_error;
use fo_image::Record;
use fo_ports::Blocks;
use fo_world::FileError;

/// The next file number, granted until it is taken.
pub(crate) fn granted<B: Blocks>(on: &mut B) -> Result<u32, FileError>
    ensures number { IfOk result (λ q. (q ≡ (B.state on.old).next) × (q < 2 ^ 30) × (B.state on.new).grants) }
    ensures stays { Numbers (B.state on.old) (B.state on.new) }
    ensures refused { IfErr result (IsLate (B.state on.old).next) }
    ensures cause { Refuses (faults_of (B.state on.old)) (faults_of (B.state on.new)) ⊥ (λ n. ⊥) 0 result }
    ensures keeps { B.keeps on.old on.new }
{
    match on.number() {
        Ok(Some(number)) => Ok(number),
        Ok(None) => Err(FileError::NoNumbers),
        Err(why) => Err(file_error(why)),
    }
}

/// The record with its number.
pub(crate) fn with_number(named: Record, number: u32) -> Record
    ensures { result ≡ numbered number named }
{
    Record { number, ..named }
}
