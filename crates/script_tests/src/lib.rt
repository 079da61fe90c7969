//! Tests of script_ast and load_gen over their public calls.
#![tactic(auto)]

#[cfg(test)]
mod loads;
#[cfg(test)]
mod parts;
#[cfg(test)]
mod words;
