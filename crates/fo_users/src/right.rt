//! What may be done to a file.
ghost use Rattle.std.specs.Prelude.{◌≡◌};
ghost use Rattle.fo_users.specs.Rights.{bit_of};

/// A right to a file. Of the mode's three bits for a class of users, read is 4, write 2 and execute 1.
#[derive(Clone, Copy, Debug, PartialEq, Eq)]
pub enum Right {
    Read,
    Write,
    Execute,
}

/// The right's bit, where it stands for others.
pub fn bit_of(right: Right) -> u32
    ensures { result ≡ bit_of right }
{
    match right {
        Right::Read => 4,
        Right::Write => 2,
        Right::Execute => 1,
    }
}
