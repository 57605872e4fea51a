//! Tests of directories over blocks in memory.
#![tactic(auto)]

#[cfg(test)]
mod leaves;
#[cfg(test)]
mod looking;
#[cfg(test)]
mod reads;
#[cfg(test)]
mod records;
#[cfg(test)]
mod thirds;
