//! Pairs of records in the images that a crash may leave.
//!
//! `PairsStand` of `fo_dir_pairs` speaks of blocks at spots: each record that an image shows, of a directory whose first entry is in use there,
//! has its pair in a block that is found at the entries' spot. Here it is said what follows of what each image itself lists in its directories.
//!
//! Words: a **pair of a directory** is two entries of which the first is in use for entries and the second has the next tag (`IsPairOfDir`); a
//! directory is **plain** as in `fo_dir_names` (`IsPlainDir`).
//!
//! Proved, over any blocks that tell what they hold. In one image a spot has one block (`one_block_at_a_spot`), with no bound on how deep it
//! lies. Where `PairsStand` holds, each record that an image lists in a plain directory has both entries of its pair where the image itself reads
//! them (`HasEntries`), if the directory's own pair is in use; and if only the root directory's is, and each directory on the way is plain: a
//! directory's record has its pair there, which is then the directory's own (`pairs_are_listed`). So an image that keeps the other rules of
//! sound images apart from names (`IsSoundApart`) keeps that on pairs (S6 of docs/FORMATS.md), where the length of its entries reaches them
//! (`pairs_are_kept`); and that on names, too, where records stand once (`pairs_and_names_are_kept`). The root directory's pair is what the
//! format asks of a root block (`root_is_a_directory`). Two images, of which one lists a record in each of two leaves, meet all that is asked
//! (`two_leaves_have_pairs`).
//!
//! Not given: that the length of a directory's entries reaches a pair (`HasLengths`), as `PairsStand` speaks of blocks and not of lengths.
//!
//! Not said: that `PairsStand` is kept, which is for `fo_dir_pairs`; trees below the root blocks of snapshots.
#![tactic(auto)]

mod laws;

pub use laws::{
    one_block_at_a_spot, pairs_and_names_are_kept, pairs_are_kept, pairs_are_listed,
    root_is_a_directory, two_leaves_have_pairs,
};
