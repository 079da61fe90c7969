//! Tests of timelines and of cursors in them. A crate with tests is proved twice, so they stand apart.
#![tactic(auto)]

#[cfg(test)]
mod blocks;
#[cfg(test)]
mod digests;
#[cfg(test)]
mod edits;
#[cfg(test)]
mod long;
#[cfg(test)]
mod random;
#[cfg(test)]
mod search;
#[cfg(test)]
mod timelines;
