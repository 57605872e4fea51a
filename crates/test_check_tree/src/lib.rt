//! Tests of the check of a whole tree (`fo_check_tree`, and what it stands on), on images made by hand from docs/FORMATS.md.
#![tactic(auto)]

#[cfg(test)]
mod made;
#[cfg(test)]
mod parts;
#[cfg(test)]
mod tree;
