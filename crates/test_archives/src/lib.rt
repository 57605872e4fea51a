//! Tests of archives in an arena (`fo_vac_open`, `fo_vac_walk`, `fo_vac_dir`, `fo_vac_files`, `fo_vacread`), by their public
//! names.
//!
//! Bytes that are put were worked out by hand from docs/FORMATS.md.
#![tactic(auto)]

#[cfg(test)]
mod blocks;
#[cfg(test)]
mod files;
#[cfg(test)]
mod opens;
#[cfg(test)]
mod reads;
