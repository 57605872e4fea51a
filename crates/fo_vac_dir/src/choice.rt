//! Which record is wanted, and the choice among those that are.
ghost use Rattle.std.specs.Prelude.{◌≡◌, List, ◌++◌};
ghost use Rattle.fo_image.specs.declared.record.Record.{Record};
ghost use Rattle.fo_world.specs.Tree.{comes_before};
ghost use Rattle.fo_vac_dir.specs.Choice.{test_of, passes, chosen, least, AllHold, OneHolds};

use fo_image::{Record, Text};

/// The file that is wanted of a directory.
#[derive(Drop)]
pub enum Wanted {
    /// That of this name.
    Name(Text),
    /// That of this number.
    Number(u32),
    /// The first after this name, or of all.
    Next(Option<Text>),
}

/// Whether a name comes before another one.
fn comes_before(name: &[u8], other: &[u8]) -> bool
    ensures { result ≡ comes_before name.now other.now }
{
    name.cmp(&other).is_lt()
}

impl Wanted {
    /// Whether the record is one that is wanted.
    fn passes(&self, named: &Record) -> bool
        ensures { result ≡ passes (test_of self.now) named.now }
    {
        match self {
            Wanted::Name(name) => named.name.as_slice() == name.as_slice(),
            Wanted::Number(number) => named.number == *number,
            Wanted::Next(None) => true,
            Wanted::Next(Some(after)) => comes_before(after.as_slice(), named.name.as_slice()),
        }
    }

    /// What is chosen when one more record comes.
    fn choose(&self, best: Option<Record>, named: Record) -> Option<Record>
        ensures { result ≡ chosen (test_of self.now) best named }
    {
        if !self.passes(&named) {
            return best;
        }
        match best {
            Some(old) if comes_before(old.name.as_slice(), named.name.as_slice()) => Some(old),
            _ => Some(named),
        }
    }

    /// What is chosen when these records come.
    pub(crate) fn choose_all(&self, best: Option<Record>, records: Vec<Record>) -> Option<Record>
        ensures least { (before : List Record) → best ≡ least (test_of self.now) before → result ≡ least (test_of self.now) (before ++ records.items) }
        ensures holds { OneHolds best → AllHold records.items → OneHolds result }
    {
        let mut best = best;
        for named in records {
            best = self.choose(best, named);
        }
        best
    }
}
