//! Tests of the top call and of a session, of what no run of the program shows: reads, writes, fetches and
//! appends that fail, memory that is refused, and a session turn by turn.
#![tactic(auto)]

#[cfg(test)]
mod faults;
#[cfg(test)]
mod refused_memory;
#[cfg(test)]
mod runs;
#[cfg(test)]
mod turns;
