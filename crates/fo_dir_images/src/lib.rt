//! What the images that a crash may leave show of a directory.
//!
//! The calls on directories say what their leaves have as blocks, in every image. Here it is said which blocks an image itself has as the
//! leaves of a directory (`IsLeafOf`): by its own path along a trail of slot pairs, below the root that its block 1 names, by the depths of
//! its own entries.
//!
//! Proved, over any blocks that tell what they hold. A block that every image has at memory's spot (`IsThere`), and that memory has as leaf
//! n of the records or of the entries of a directory, is this leaf in each image, also where the source has another depth there; no other
//! block is, it is no other leaf, and one path leads to it (`leaves_are_shown`). Where the first leaves of a directory's records are such
//! blocks, and so are the leaves of entries that hold their pairs, where records differ and have their pairs block by block, as the calls
//! keep it (`IsWholeDir`), no two records that an image lists in these leaves have one name, number or pair, and each has both entries of
//! its pair in the image's own entries; and where all directories of the image are so, it keeps the rule of pairs of sound images
//! (`directories_are_shown`). A leaf that hung from block 1 when all was last settled, and that no settling is to take out, is such a block
//! (`leaves_in_place_are_there`); `is_shown` tests the first of it for all leaves of a directory. Where memory has no record of a name in the
//! first leaves of a directory's records but one, which are so in place, and which every image has as memory has them, no image has one in the
//! blocks that it reads as these leaves (`names_stand_alone`). What names lead to is what is read along the trail (`names_lead_along_trails`),
//! and where the entry there is a source's, its leaves are those of the source (`sources_are_read`).
//!
//! Not said: that all leaves are in place at each moment, which is for whoever calls; that the length of an image's entries reaches a pair,
//! which the rule of pairs asks and the law takes as a condition; file numbers over the whole tree; directories that an image has still and
//! memory no more.
#![tactic(auto)]

mod laws;
mod placed;

pub use laws::{
    directories_are_shown, leaves_are_shown, leaves_exist, leaves_in_place_are_there,
    names_lead_along_trails, names_stand_alone, sources_are_read,
};
pub use placed::is_shown;
