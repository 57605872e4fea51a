//! Tests of the crate fo_lines: each form of a line, lines that are none, and each answer.
#![tactic(auto)]

#[cfg(test)]
mod read;
#[cfg(test)]
mod write;
