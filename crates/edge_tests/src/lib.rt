//! Tests of the outside: sources, sinks and stores in memory, and the adapters on real files. A crate
//! with tests is proved twice, so they stand apart.
#![tactic(auto)]

#[cfg(test)]
mod adapters;
#[cfg(test)]
mod fake_system;
#[cfg(test)]
mod fetch_folder;
#[cfg(test)]
mod fetch_memory;
#[cfg(test)]
mod fetched;
#[cfg(test)]
mod kept_open;
#[cfg(test)]
mod memory;
#[cfg(test)]
mod on_disk;
#[cfg(test)]
mod short_writes;
