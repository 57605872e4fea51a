//! Open modes.
ghost use Rattle.std.specs.Prelude.{◌≡◌};
ghost use Rattle.nine_fids.specs.Modes as nine;

/// What a file is opened for (open(5) of the Plan 9 manual): OREAD, OWRITE, ORDWR and OEXEC.
#[derive(Clone, Copy, Debug, PartialEq, Eq)]
pub enum Access {
    Read,
    Write,
    ReadWrite,
    Execute,
}

/// An open mode: the access, whether the file is made empty (OTRUNC), and whether it is removed when it is clunked (ORCLOSE).
#[derive(Clone, Copy, Debug, PartialEq, Eq)]
pub struct Mode {
    pub access: Access,
    pub truncate: bool,
    pub remove: bool,
}

impl Access {
    /// The access that the low two bits of a mode say.
    fn of(mode: u8) -> Access
        ensures { result ≡ nine.access_of mode }
    {
        match mode % 4 {
            0 => Access::Read,
            1 => Access::Write,
            2 => Access::ReadWrite,
            _ => Access::Execute,
        }
    }

    /// Whether bytes may be read.
    pub fn reads(self) -> bool
        ensures { result ≡ nine.reads self }
    {
        match self {
            Access::Read | Access::ReadWrite | Access::Execute => true,
            Access::Write => false,
        }
    }

    /// Whether bytes may be written.
    pub fn writes(self) -> bool
        ensures { result ≡ nine.writes self }
    {
        match self {
            Access::Write | Access::ReadWrite => true,
            Access::Read | Access::Execute => false,
        }
    }
}

impl Mode {
    /// The mode that a byte says; None where it has another bit than those of an access, OTRUNC, OCEXEC and ORCLOSE.
    pub fn of(mode: u8) -> Option<Mode>
        ensures { result ≡ nine.mode_of mode }
    {
        if mode & 0x8c != 0 {
            return None;
        }
        Some(Mode {
            access: Access::of(mode),
            truncate: mode & 0x10 != 0,
            remove: mode & 0x40 != 0,
        })
    }

    /// Whether it asks to change something.
    pub fn changes(self) -> bool
        ensures { result ≡ nine.changes self }
    {
        self.access.writes() || self.truncate || self.remove
    }

    /// Whether it asks for more than to read.
    pub fn is_more(self) -> bool
        ensures { result ≡ nine.is_more self }
    {
        self.changes() || self.access == Access::Execute
    }
}
