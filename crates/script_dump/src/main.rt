//! Reads scripts from the standard input, one a line, and writes a line for each: what reading it gives.
//! That is the context where there is no call, else each call with its ordinal, its holder, its operation
//! and its fields, or the first fault.
#![tactic(auto)]

use crate::texts::reading;
use std::io::{self, BufRead, BufReader};

mod field_texts;
mod op_texts;
mod param_texts;
mod texts;

fn main(rt: HostRuntime) -> io::Result<()> {
    for line in BufReader::new(rt.alloc(), rt.reader())?.lines(rt.alloc()) {
        let text = reading(rt.alloc(), line?.as_bytes())?;
        println!(rt; "{text}")?;
    }
    Ok(())
}
