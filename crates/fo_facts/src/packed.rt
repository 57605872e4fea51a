//! How a fact is kept: in 12 bytes, with its flags in one of them.
ghost use Rattle.std.specs.Prelude.{◌≡◌, ◌<◌, ◌≤◌};
ghost use Rattle.fo_facts.specs.Packed.{flag, flags_of, has_flag, unpacked};

use crate::fact::Fact;

const APART: u8 = 1;

const LINKED: u8 = 2;

const FRESH: u8 = 4;

const SEALED: u8 = 8;

const OWES: u8 = 16;

const ORIGIN: u8 = 32;

// A fact as it is kept. The origin counts only under its flag.
#[derive(Clone, Copy, Drop)]
pub(crate) struct Packed {
    origin: u32,
    rank: u32,
    flags: u8,
}

impl Packed {
    // A fact, packed.
    pub(crate) fn of(fact: Fact) -> Packed
        ensures { unpacked result ≡ fact }
    {
        Packed {
            origin: fact.origin.unwrap_or(0),
            rank: fact.rank,
            flags: flags_of(fact),
        }
    }

    // The fact that was packed.
    pub(crate) fn fact(self) -> Fact
        ensures { result ≡ unpacked self }
    {
        let origin = if has_flag(self.flags, ORIGIN) {
            Some(self.origin)
        } else {
            None
        };
        Fact {
            apart: has_flag(self.flags, APART),
            origin,
            linked: has_flag(self.flags, LINKED),
            fresh: has_flag(self.flags, FRESH),
            sealed: has_flag(self.flags, SEALED),
            owes: has_flag(self.flags, OWES),
            rank: self.rank,
        }
    }
}

fn flags_of(fact: Fact) -> u8
    ensures { result ≡ flags_of fact }
{
    flag(fact.apart, APART)
        + flag(fact.linked, LINKED)
        + flag(fact.fresh, FRESH)
        + flag(fact.sealed, SEALED)
        + flag(fact.owes, OWES)
        + flag(fact.origin.is_some(), ORIGIN)
}

fn flag(is: bool, weight: u8) -> u8
    ensures is { result ≡ flag is weight }
    ensures most { result ≤ weight }
{
    if is { weight } else { 0 }
}

fn has_flag(flags: u8, weight: u8) -> bool
    requires { 0 < weight }
    ensures { result ≡ has_flag weight flags }
{
    flags / weight % 2 == 1
}
