//! Tests of when a context renders, and of what the control side tells the side that renders. A crate
//! with tests is proved twice, so they stand apart.
#![tactic(auto)]

#[cfg(test)]
mod contexts;
#[cfg(test)]
mod messages;
