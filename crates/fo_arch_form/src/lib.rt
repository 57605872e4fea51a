//! The archived form of one block, made of what was stored of the blocks below it.
//!
//! Of each block that an archiver stored its address, its kind and its score are known. A block's form is made in place, slot by
//! slot: a pointer becomes the score of what it names, an entry becomes an archived one, and all else stays (docs/ARCHIVER.md). Where
//! a slot names a block that isn't stored, the form isn't made, and the block is named: it is to be stored first. A root block becomes
//! a top block: its two archived entries, and its bytes from 104 on.
//!
//! Proved: a form has in each slot what the slot had, with the score under which what it names was stored; it is made exactly where
//! all that the block names is stored, and else the block that is named is not.
#![tactic(auto)]

mod entries;
mod pointers;
mod root;
mod stored;

pub use entries::{Missing, form_entries, kind_of};
pub use pointers::form_pointers;
pub use root::form_root;
pub use stored::Stored;
