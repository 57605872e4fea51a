//! Tests of the rules of sound images (`fo_check_image`), on images made by hand from docs/FORMATS.md: each rule is broken in the ways that
//! the page names, and the block is named that the page says.
//!
//! Answers that are wanted were worked out by hand from that page.
#![tactic(auto)]

#[cfg(test)]
mod bad;
#[cfg(test)]
mod costs;
#[cfg(test)]
mod deep;
#[cfg(test)]
mod labels;
#[cfg(test)]
mod made;
#[cfg(test)]
mod reads;
#[cfg(test)]
mod starts;
#[cfg(test)]
mod trees;
#[cfg(test)]
mod wide;
