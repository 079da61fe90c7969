ghost use Rattle.std.specs.Prelude.{◌≡◌, ◌≤◌, ◌⊎◌, ℕ, IsTrue, take, OnOk, OnErr, IsErrOf};
ghost use Rattle.io_edge.specs.Faults.{Rose};
ghost use Rattle.io_edge.specs.Paths.{SamePaths, Sets};
ghost use Rattle.answers.specs.Outside.{outside, Gives, IsTextFault, IsFileFault, IsCutShort};

use io_edge::{EdgeErr, Files, Sink, append_all, write_all};
use std::marker::Model;
use thiserror::Error;

/// Why an answer was not given out whole.
#[derive(Clone, Copy, Debug, PartialEq, Eq, Error)]
pub enum GiveErr {
    #[error("the text was not written")]
    Text,
    #[error("the file was not written")]
    File,
    #[error("out of memory")]
    NoMemory,
}

/// A file that an answer asks for.
#[derive(Drop)]
pub struct OutFile<'a> {
    pub path: &'a str,
    pub bytes: &'a [u8],
}

impl<'a> Model for OutFile<'a> {
    ghost use Rattle.answers.specs.Outside.{File};

    ghost Value = { File };

    ghost view = { λ f. record { path = f.path.now; bytes = f.bytes.now } };
}

/// Writes a text into the sink and then, where there is a file, makes it, whether or not one was there.
/// The file is not touched before the sink has the whole text.
pub fn give<F: Files, T: Sink>(
    files: &mut F,
    sink: &mut T,
    text: &[u8],
    file: Option<OutFile<'_>>,
) -> Result<(), GiveErr>
    ensures whole { let before = outside (T.written sink.old) (T.faults sink.old) (F.tells files.old) (F.paths files.old) (F.write_faults files.old) in
        let after = outside (T.written sink.new) (T.faults sink.new) (F.tells files.new) (F.paths files.new) (F.write_faults files.new) in
        OnOk result (Gives text.now file.entry before after) }
    ensures text_fault { let before = outside (T.written sink.old) (T.faults sink.old) (F.tells files.old) (F.paths files.old) (F.write_faults files.old) in
        let after = outside (T.written sink.new) (T.faults sink.new) (F.tells files.new) (F.paths files.new) (F.write_faults files.new) in
        IsErrOf result GiveErr.Text → IsTextFault text.now before after }
    ensures file_fault { let before = outside (T.written sink.old) (T.faults sink.old) (F.tells files.old) (F.paths files.old) (F.write_faults files.old) in
        let after = outside (T.written sink.new) (T.faults sink.new) (F.tells files.new) (F.paths files.new) (F.write_faults files.new) in
        IsErrOf result GiveErr.File → IsFileFault text.now file.entry before after }
    ensures cut_short { let before = outside (T.written sink.old) (T.faults sink.old) (F.tells files.old) (F.paths files.old) (F.write_faults files.old) in
        let after = outside (T.written sink.new) (T.faults sink.new) (F.tells files.new) (F.paths files.new) (F.write_faults files.new) in
        IsErrOf result GiveErr.NoMemory → IsCutShort text.now file.entry before after }
    ensures tells { F.tells files.new ≡ F.tells files.old }
    ensures reads { F.read_faults files.new ≡ F.read_faults files.old }
    ensures sink_later { T.faults sink.old ≤ T.faults sink.new }
    ensures store_later { F.write_faults files.old ≤ F.write_faults files.new }
{
    match write_all(sink, text) {
        Ok(()) => {}
        Err(EdgeErr::Failed) => return Err(GiveErr::Text),
        Err(EdgeErr::NoMemory) => return Err(GiveErr::NoMemory),
    }
    let Some(file) = file else {
        return Ok(());
    };
    match make(files, file.path, file.bytes) {
        Ok(()) => Ok(()),
        Err(EdgeErr::Failed) => Err(GiveErr::File),
        Err(EdgeErr::NoMemory) => Err(GiveErr::NoMemory),
    }
}

// Makes a file of these bytes.
fn make<F: Files>(files: &mut F, path: &str, bytes: &[u8]) -> Result<(), EdgeErr>
    ensures tells { F.tells files.new ≡ F.tells files.old }
    ensures all { OnOk result (IsTrue (F.tells files.old) → Sets (F.paths files.old) (F.paths files.new) path.now bytes.now) }
    ensures part { OnErr result (IsTrue (F.tells files.old) → SamePaths (F.paths files.old) (F.paths files.new)
        ⊎ ((n : ℕ) × Sets (F.paths files.old) (F.paths files.new) path.now (take n bytes.now))) }
    ensures reads { F.read_faults files.new ≡ F.read_faults files.old }
    ensures later { F.write_faults files.old ≤ F.write_faults files.new }
    ensures cause { IsErrOf result EdgeErr.Failed → Rose (F.write_faults files.old) (F.write_faults files.new) }
{
    files.create(path)?;
    append_all(files, path, bytes)
}
