//! Reads a session's script from the standard input, and writes what is heard of it, as a script of its
//! own, into the file OUT; a line on the standard output says how many calls that are.
#![tactic(auto)]

use io_edge::{DirFiles, ReadSource, WriteSink};
use prune_top::{Status, run};
use std::alloc::AllocError;
use std::env;
use std::env::Env;
use std::io::ErrorKind;
use std::process::ExitCode;

fn main(rt: HostRuntime) -> ExitCode {
    let Ok(words) = words_of(&rt) else {
        return ExitCode::from(Status::NoMemory.number());
    };
    let mut script = ReadSource::new(rt.stdin());
    let mut files = DirFiles::new(&rt);
    let mut out = WriteSink::new(rt.stdout());
    let status = run(
        rt.alloc(),
        words.as_slice(),
        &mut script,
        &mut files,
        &mut out,
    );
    ExitCode::from(status.number())
}

// The words after the program's name, or none where one of them is no text.
fn words_of<R: Env + AllocGlobal>(rt: &R) -> Result<Vec<String>, AllocError> {
    match env::args(rt) {
        Ok(args) => args.skip(1).collect(rt.alloc()),
        Err(e) if e.kind() == ErrorKind::OutOfMemory => Err(AllocError),
        Err(_) => Ok(Vec::new(rt.alloc())),
    }
}
