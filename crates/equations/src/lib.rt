//! What the equation of a key gives, where all that it needs is known.
#![tactic(auto)]

mod counts;
mod derived;
mod filters;
mod histories;
mod inputs;
mod mixing;
mod outputs;
mod params;
mod sources;
mod sums;
mod told;

pub use derived::fact_of;
