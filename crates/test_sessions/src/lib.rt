//! Tests of the crates nine_fids, nine_files and nine_session: each call that may want memory with ample memory, conversations of two
//! sessions over files in memory (`test_conversations`), and files that tell whether all is settled.
#![tactic(auto)]

#[cfg(test)]
mod fids;
#[cfg(test)]
mod files;
#[cfg(test)]
mod session;
