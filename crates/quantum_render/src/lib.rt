//! Renders one quantum after another.
#![tactic(auto)]

mod bench;
mod counting;
mod kinds;
mod memory;
mod pass;
mod plan;
mod renderer;
mod rest;
mod site;

pub use renderer::Renderer;
