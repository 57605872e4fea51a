//! Tests of the rules over values (`fo_rules`): a leaf of records in bytes that were worked out by hand from docs/FORMATS.md.
#![tactic(auto)]

#[cfg(test)]
mod leaf;
