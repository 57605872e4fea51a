//! The power is cut at each moment of a run, and each call of a device fails once: files over formatted disks in memory (`test_requests`).
//!
//! The run makes a file, writes "hello", settles, does the same with a second file, removes that, and settles again. A disk in memory keeps all
//! versions that a crash may leave, and a call that is listed to fail lands all the same: so a run that ends there leaves what a crash at that moment
//! may leave. Of each moment all images are opened and checked, where there are at most 256: each choice of a version of each block. Else these: that
//! of all oldest versions, that of all newest ones, and for each block that of its newest among the oldest of all others. Until it is settled a file
//! may be absent or empty; from then on it has its bytes; and the second file is absent once its removal is settled.
//!
//! In a directory of two leaves a name is freed in one, and comes to the other, in four ways (`names`): at each moment of that, too, all images pass
//! the check, and have the name at most once.
//!
//! A directory gets one leaf of pairs more (`growth`): at each moment of that all images pass the check, and take a new file.
#![tactic(auto)]

#[cfg(test)]
mod faults;
#[cfg(test)]
mod growth;
#[cfg(test)]
mod images;
#[cfg(test)]
mod moments;
#[cfg(test)]
mod names;
#[cfg(test)]
mod script;
