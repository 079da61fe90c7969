//! Tests of the crates of the graph: its cycles and orders, worlds, filters, and a renderer. A crate
//! with tests is proved twice, so they stand apart.
#![tactic(auto)]

#[cfg(test)]
mod building;
#[cfg(test)]
mod filters;
#[cfg(test)]
mod orders;
#[cfg(test)]
mod plans;
#[cfg(test)]
mod silence;
#[cfg(test)]
mod ties;
#[cfg(test)]
mod worlds;
