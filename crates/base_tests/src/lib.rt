//! Tests of the lower crates, of what no session shows: numbers, blocks and their mixing, schedules, nodes,
//! transcripts, names, buffers and WAV files. A crate with tests is proved twice, so they stand apart.
#![tactic(auto)]

#[cfg(test)]
mod blocks;
#[cfg(test)]
mod buffer_refusals;
#[cfg(test)]
mod buffer_samples;
#[cfg(test)]
mod kernel_lengths;
#[cfg(test)]
mod kernels;
#[cfg(test)]
mod mixing;
#[cfg(test)]
mod names;
#[cfg(test)]
mod nodes;
#[cfg(test)]
mod numbers;
#[cfg(test)]
mod schedules;
#[cfg(test)]
mod transcripts;
#[cfg(test)]
mod wav_files;
