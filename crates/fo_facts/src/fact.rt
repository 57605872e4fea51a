//! What is known of an address beside its label, its buffer and its turn.
ghost use Rattle.std.specs.Prelude.{◌≡◌, ◌||◌, ◌&&◌, not, cond};
ghost use Rattle.fo_facts.specs.Known.{come_as, instead_of, linked_as, made_fact, no_fact, origin_over, owing_as, owing_no_more, written_as};

/// What is known of an address. `apart`: it was put into no slot yet, and is to come in the place of `origin`. `linked`: it is in the
/// tree of memory, so it has a turn where it is dirty. `fresh`: it was given out, and not written since. `sealed`: it was there when all
/// was settled. `owes`: a unit of room in the order of writing is kept for it, with this rank.
#[derive(Clone, Copy, Drop)]
pub struct Fact {
    pub apart: bool,
    pub origin: Option<u32>,
    pub linked: bool,
    pub fresh: bool,
    pub sealed: bool,
    pub owes: bool,
    pub rank: u32,
}

/// Of an address of which nothing is known: it is settled.
pub(crate) const SETTLED: Fact = Fact {
    apart: false,
    origin: None,
    linked: true,
    fresh: false,
    sealed: true,
    owes: false,
    rank: 0,
};

impl Fact {
    /// Of a block that was given out, to come in the place of `origin`: room is kept for the turn that it takes once it is linked.
    pub(crate) fn made(origin: Option<u32>, rank: u32) -> Fact
        ensures { result ≡ made_fact origin rank }
    {
        Fact {
            apart: true,
            origin,
            linked: false,
            fresh: true,
            sealed: false,
            owes: true,
            rank,
        }
    }

    /// Room is kept for its next turn, with this rank.
    pub(crate) fn owing(self, rank: u32) -> Fact
        ensures { result ≡ owing_as rank self }
    {
        Fact {
            owes: true,
            rank,
            ..self
        }
    }

    /// No room is kept for it any more.
    pub(crate) fn owing_no_more(self) -> Fact
        ensures { result ≡ owing_no_more self }
    {
        Fact {
            owes: false,
            ..self
        }
    }

    /// It is in the tree. Where memory has it changed, it has taken the turn for which room was kept.
    pub(crate) fn linked(self, dirty: bool) -> Fact
        ensures { result ≡ linked_as dirty self }
    {
        Fact {
            linked: true,
            owes: self.owes && !dirty,
            ..self
        }
    }

    /// It was written since it was given out. Where it is pinned, room is kept for its next turn.
    pub(crate) fn written(self, pinned: bool) -> Fact
        ensures { result ≡ written_as pinned self }
    {
        Fact {
            fresh: false,
            owes: self.owes || pinned,
            ..self
        }
    }

    /// It is in a slot.
    pub(crate) fn come(self) -> Fact
        ensures { result ≡ come_as self }
    {
        Fact {
            apart: false,
            ..self
        }
    }

    /// It is to come in the place of this block.
    pub(crate) fn instead(self, origin: Option<u32>) -> Fact
        ensures { result ≡ instead_of origin self }
    {
        Fact { origin, ..self }
    }

    /// In whose place a new top comes that is raised over this block, which has this address.
    pub(crate) fn origin_over(self, at: u32) -> Option<u32>
        ensures { result ≡ origin_over at self }
    {
        if self.apart { self.origin } else { Some(at) }
    }
}
