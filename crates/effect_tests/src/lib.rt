//! Tests of effects over their public calls: wave shapers, IIR filters, convolvers, processors and delay
//! lines. A crate with tests is proved twice, so they stand apart.
#![tactic(auto)]

#[cfg(test)]
mod causal_digests;
#[cfg(test)]
mod convolvers;
#[cfg(test)]
mod delay_blocks;
#[cfg(test)]
mod delay_digests;
#[cfg(test)]
mod delay_lines;
#[cfg(test)]
mod digest;
#[cfg(test)]
mod filters;
#[cfg(test)]
mod processors;
#[cfg(test)]
mod random;
#[cfg(test)]
mod shapers;
#[cfg(test)]
mod tried;
