//! Tests of the system over disks in memory (`State` of fo_core), by its public calls: the conversations that sessions hold over files in
//! memory (`test_conversations`), over devices of 128 and 16 blocks that were formatted.
//!
//! Each conversation is held twice: with no turn in between, so that all stays in memory up to the end; and with the turns that are taken
//! between two messages, and all that are left taken at the end. The replies are those over files in memory. Then the system ends without
//! a failure, each block has one version, the check finds the image sound, with as many blocks used as docs/FORMATS.md gives, and what the
//! conversation left is found by the system that is opened again.
#![tactic(auto)]

#[cfg(test)]
mod disks;
#[cfg(test)]
mod kept;
#[cfg(test)]
mod settled;
#[cfg(test)]
mod stored;
