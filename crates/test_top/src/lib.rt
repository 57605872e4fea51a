//! Tests of the crates between the system and the program, by their public names: the texts that all layers share (`fo_base`), the
//! streams and clocks (`fo_links`), a conversation (`fo_talk`), the tools (`fo_tools`) and whole runs (`fo_top`).
//!
//! Bytes that are wanted were worked out by hand from section 5 of the Plan 9 manual and from docs/FORMATS.md. Each module has a test
//! `ample`, of what calls do that may want memory. Nothing here is said of any caller.
#![tactic(auto)]

#[cfg(test)]
mod disks;
#[cfg(test)]
mod faults;
#[cfg(test)]
mod images;
#[cfg(test)]
mod kept;
#[cfg(test)]
mod links;
#[cfg(test)]
mod messages;
#[cfg(test)]
mod runs;
#[cfg(test)]
mod scripts;
#[cfg(test)]
mod talk;
#[cfg(test)]
mod texts;
#[cfg(test)]
mod tools;
