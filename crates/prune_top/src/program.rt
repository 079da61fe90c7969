ghost use Rattle.std.specs.Prelude.{◌≡◌, ◌≤◌, map, string_bytes};
ghost use Rattle.answers.specs.Outside.{outside};
ghost use Rattle.prune_top.specs.Run.{counts, Ran, IsAnswerOver, IsReading, IsRead};
ghost use Rattle.prune_top.specs.Words as of_words;

use crate::answering::{Fault, answer_to_words};
use crate::status::Status;
use answers::{GiveErr, give};
use io_edge::{Files, Sink, Source};
use std::alloc::Global;

/// Leaves out of a script what is not heard, and writes the rest into the file that the words of a
/// command line name. The script is the source's. Its session is replayed without a sample, over the
/// assets among the files. The sink gets one line that tells what came of it.
///
/// There are bytes, those of the source at entry where it tells them, and a folder of assets, that of
/// the store at entry where it tells it, such that the run ended as the answer of the program to the words,
/// these bytes and this folder says; or a fault came, with its cause and with what then stands outside;
/// or memory ran out, with what then stands.
pub fn run<S: Source, F: Files, T: Sink>(
    alloc: Global,
    words: &[String],
    script: &mut S,
    files: &mut F,
    out: &mut T,
) -> Status
    ensures ran { let before = outside (T.written out.old) (T.faults out.old) (F.tells files.old) (F.paths files.old) (F.write_faults files.old) in
        let after = outside (T.written out.new) (T.faults out.new) (F.tells files.new) (F.paths files.new) (F.write_faults files.new) in
        let count = counts (S.faults script.old) (S.faults script.new) (F.read_faults files.old) (F.read_faults files.new) in
        let asked = of_words.out_of (map string_bytes words.now) in
        Ran result asked (IsAnswerOver (S.left script.old) (F.tells files.old) (F.paths files.old) asked) (IsReading (S.left script.old) (F.tells files.old) (F.paths files.old) asked) count before after }
    ensures read { IsRead (of_words.out_of (map string_bytes words.now)) result (S.left script.old) (S.left script.new) }
    ensures tells { F.tells files.new ≡ F.tells files.old }
    ensures source_later { S.faults script.old ≤ S.faults script.new }
    ensures sink_later { T.faults out.old ≤ T.faults out.new }
    ensures read_later { F.read_faults files.old ≤ F.read_faults files.new }
    ensures store_later { F.write_faults files.old ≤ F.write_faults files.new }
{
    let answer = match answer_to_words(alloc, words, script, files) {
        Ok(answer) => answer,
        Err(Fault::Script) => return Status::ScriptFault,
        Err(Fault::Asset) => return Status::AssetFault,
        Err(Fault::NoMemory) => return Status::NoMemory,
    };
    match give(files, out, answer.text.as_slice(), answer.out_file()) {
        Ok(()) => answer.status,
        Err(GiveErr::Text) => Status::TranscriptFault,
        Err(GiveErr::File) => Status::WavFault,
        Err(GiveErr::NoMemory) => Status::NoMemory,
    }
}
