//! Reads a session's script from the standard input, writes its transcript to the standard output
//! and its samples into the WAV file OUT, as the options of the command line ask for them.
#![tactic(auto)]

use io_edge::{DirFiles, ReadSource, WriteSink};
use replay_top::{Status, run};
use std::alloc::AllocError;
use std::env;
use std::env::Env;
use std::io::ErrorKind;
use std::process::ExitCode;

fn main(rt: HostRuntime) -> ExitCode {
    let Ok(words) = words_of(&rt) else {
        return ExitCode::from(Status::NoMemory.number());
    };
    let mut script = ReadSource::new(rt.stdin());
    let mut files = DirFiles::new(&rt);
    let mut transcript = WriteSink::new(rt.stdout());
    let status = run(
        rt.alloc(),
        words.as_slice(),
        &mut script,
        &mut files,
        &mut transcript,
    );
    ExitCode::from(status.number())
}

// The words after the program's name, or none where one of them is no text.
fn words_of<R: Env + AllocGlobal>(rt: &R) -> Result<Vec<String>, AllocError> {
    match env::args(rt) {
        Ok(args) => args.skip(1).collect(rt.alloc()),
        Err(e) if e.kind() == ErrorKind::OutOfMemory => Err(AllocError),
        Err(_) => Ok(Vec::new(rt.alloc())),
    }
}
