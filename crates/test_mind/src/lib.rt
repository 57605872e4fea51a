//! Tests of `fo_mind` over ten blocks, by its public names: with ample memory room is made, blocks are given out and read.
//!
//! What is wanted follows from docs/CACHE.md: of ten blocks 0 to 2 are no data blocks, block 3 is the root, and the least usable one is given out.
#![tactic(auto)]

#[cfg(test)]
mod mind;
