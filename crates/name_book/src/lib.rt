//! The names that a script gives to nodes and buffers.
#![tactic(auto)]

mod book;

pub use book::{Book, Object};
