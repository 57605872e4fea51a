//! The two sources of the root directory.
ghost use Rattle.std.specs.Prelude.{◌≡◌};
ghost use Rattle.fo_tree_read.specs.Tree.{kind_at};
ghost use Rattle.test_names.specs.Parts.{slot_of, is_dir_of, tag_of, rank_of, limit_of, blank_entry};

use fo_image::{Entry, Kind, Pointer};

/// A source of the root directory: its entries, or its records.
#[derive(Clone, Copy, Debug, PartialEq, Eq)]
pub enum Part {
    Entries,
    Records,
}

impl Part {
    /// The slot of the root block in which its entry stands.
    pub fn slot(self) -> u32
        ensures { result ≡ slot_of self }
    {
        match self {
            Part::Entries => 0,
            Part::Records => 1,
        }
    }

    /// Whether its leaves hold entries.
    pub fn is_dir(self) -> bool
        ensures { result ≡ is_dir_of self }
    {
        match self {
            Part::Entries => true,
            Part::Records => false,
        }
    }

    /// The tag of its blocks.
    pub fn tag(self) -> u32
        ensures { result ≡ tag_of self }
    {
        match self {
            Part::Entries => 32,
            Part::Records => 33,
        }
    }

    /// The rank of its leaves.
    pub fn rank(self) -> u32
        ensures { result ≡ rank_of self }
    {
        match self {
            Part::Entries => 2088,
            Part::Records => 2096,
        }
    }

    /// How long it may be.
    pub fn limit(self) -> u64
        ensures { result ≡ limit_of self }
    {
        match self {
            Part::Entries => 1 << 38,
            Part::Records => 1 << 40,
        }
    }

    /// The kind of its blocks of this level.
    pub fn kind(self, level: u8) -> Kind
        ensures { result ≡ kind_at (is_dir_of self) level }
    {
        match self {
            Part::Entries => Kind::Dir(level),
            Part::Records => Kind::Data(level),
        }
    }

    /// Its entry as long as it has no bytes.
    pub fn entry(self) -> Entry
        ensures { result ≡ blank_entry self }
    {
        Entry {
            generation: 1,
            active: true,
            dir: self.is_dir(),
            depth: 0,
            tag: self.tag(),
            size: 0,
            top: Pointer::Nil,
        }
    }
}
