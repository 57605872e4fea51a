//! Numbers that look random, and the arguments of programs that make calls at random: a seed of such numbers, and how often.
//!
//! Proved of a number that is drawn below another: it is. Not proved: that the numbers look random.
#![tactic(auto)]

mod args;
mod random;

pub use args::seed_and_count;
pub use random::Random;
