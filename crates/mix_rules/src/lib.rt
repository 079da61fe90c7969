//! The rules of up-mixing and down-mixing: how many channels an input has, and which sum of a
//! connection's channels each of them gets.
#![tactic(auto)]

mod counts;

pub use counts::count;
