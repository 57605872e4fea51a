//! Lists of names and of qids that contracts see as lists.
ghost use Rattle.std.specs.Prelude.{◌≡◌};

use crate::qid::Qid;
use fo_base::Bytes;
use std::marker::Model;

/// The names of a walk.
#[derive(Debug, Drop)]
pub struct Names {
    names: Vec<Bytes>,
}

impl Model for Names {
    ghost use Rattle.std.specs.Prelude.{ℕ, List};

    ghost Value = { List (List ℕ) };

    ghost view = { λ n. n.names.items };
}

impl Names {
    /// The list of these names.
    pub fn new(names: Vec<Bytes>) -> Names
        ensures { result ≡ names.items }
    {
        Names { names }
    }

    /// The names.
    pub fn as_slice(&self) -> &[Bytes]
        ensures { result.now ≡ self.now }
    {
        self.names.as_slice()
    }
}

/// The qids of the files that a walk came to.
#[derive(Debug, Drop)]
pub struct Qids {
    qids: Vec<Qid>,
}

impl Model for Qids {
    ghost use Rattle.std.specs.Prelude.{List};
    ghost use Rattle.nine_fields.specs.declared.qid.Qid.{Qid};

    ghost Value = { List Qid };

    ghost view = { λ q. q.qids.items };
}

impl Qids {
    /// The list of these qids.
    pub fn new(qids: Vec<Qid>) -> Qids
        ensures { result ≡ qids.items }
    {
        Qids { qids }
    }

    /// The qids.
    pub fn as_slice(&self) -> &[Qid]
        ensures { result.now ≡ self.now }
    {
        self.qids.as_slice()
    }
}
