//! Tests of the connections of a graph. A crate with tests is proved twice, so they stand apart.
#![tactic(auto)]

#[cfg(test)]
mod connections;
