ghost use Rattle.std.specs.Prelude.{◌≡◌, ◌≤◌, ℕ, List, map, string_bytes, true, Ok, IfOk, IfSome};
ghost use Rattle.command_line.specs.Words.{reading_by_word};
ghost use Rattle.io_edge.specs.Told.{IsToldAs};
ghost use Rattle.script_ast.specs.WellFormed.{IsWellFormed};
ghost use Rattle.script_json.specs.Script.{script_of};
ghost use Rattle.session.specs.Folders.{Folder, IsFolderOf};
ghost use Rattle.session.specs.Session.{session_of};
ghost use Rattle.answers.specs.FaultLine as faults;
ghost use Rattle.answers.specs.Outside.{outside};
ghost use Rattle.replay_top.specs.Answer as answer_spec;
ghost use Rattle.replay_top.specs.Outcome.{answer_to_rendering, loudness_left, text_to, wav_file, with_file};
ghost use Rattle.replay_top.specs.Run.{counts, Ran, Replays, Answers, IsRead, TextEnds};
ghost use Rattle.replay_top.specs.WavFile.{IsWritable};
ghost use Rattle.replay_top.specs.Words.{asks_source};
ghost use Rattle.load_gen.specs.Generator as generator;

use crate::status::Status;
use crate::wav_file::write_wav;
use answers::{GiveErr, OutFile, fault_line, give};
use command_line::{Reading, USAGE, reading_of};
use io_edge::{EdgeErr, Files, ReadErr, Sink, Source, read_all, write_all};
use script_ast::Script;
use script_json::{ScriptErr, read};
use session::{Options, Outcome, Rendered, Stop};
use std::alloc::Global;
use transcript::{EndWord, Loudness, summary, text};
use wa_base::{Bytes, NoMemory};

const MAX_SCRIPT: usize = 16_777_216;

/// Replays a session: reads the words of a command line and a script, and the assets that the script
/// decodes; writes the transcript into the sink and, where the session completes and samples are rendered,
/// a WAV file at the path that the words name, or, where that is asked for and the context is not refused,
/// the script as one of version 2. Where the words give the number of a script that is
/// generated, the source is not read, and the sink gets the summary of the session in place of its
/// transcript.
///
/// There are bytes, those of the source at entry where it tells them, and a folder of assets, that of the
/// store at entry where it tells it, such that the run ended as the program's answer to the words, these
/// bytes and this folder says; or a fault came, with its cause and with what then stands outside; or
/// memory ran out, with what then stands.
pub fn run<S: Source, F: Files, T: Sink>(
    alloc: Global,
    words: &[String],
    script: &mut S,
    files: &mut F,
    transcript: &mut T,
) -> Status
    ensures ran { let before = outside (T.written transcript.old) (T.faults transcript.old) (F.tells files.old) (F.paths files.old) (F.write_faults files.old) in
        let after = outside (T.written transcript.new) (T.faults transcript.new) (F.tells files.new) (F.paths files.new) (F.write_faults files.new) in
        let count = counts (S.faults script.old) (S.faults script.new) (F.read_faults files.old) (F.read_faults files.new) in
        (bytes : List ℕ) × IsToldAs (S.left script.old) bytes
        × ((folder : Folder) × IsFolderOf (F.tells files.old) (F.paths files.old) folder
        × Ran result (reading_by_word (map string_bytes words.now)) (answer_spec.answer (map string_bytes words.now) bytes folder) (answer_spec.AskedDecodes (reading_by_word (map string_bytes words.now)) folder bytes) count before after) }
    ensures read { IsRead (asks_source (reading_by_word (map string_bytes words.now))) result (S.left script.old) (S.left script.new) }
    ensures tells { F.tells files.new ≡ F.tells files.old }
    ensures source_later { S.faults script.old ≤ S.faults script.new }
    ensures sink_later { T.faults transcript.old ≤ T.faults transcript.new }
    ensures read_later { F.read_faults files.old ≤ F.read_faults files.new }
    ensures store_later { F.write_faults files.old ≤ F.write_faults files.new }
{
    let reading = match reading_of(alloc, words) {
        Ok(Some(reading)) => reading,
        Ok(None) => return answer_text(transcript, USAGE, Status::BadWords),
        Err(NoMemory) => return Status::NoMemory,
    };
    if let Some(number) = reading.generated {
        return replay_generated(alloc, &reading, number, files, transcript);
    }
    match read_all(alloc, script, MAX_SCRIPT) {
        Ok(bytes) => replay_bytes(alloc, &reading, bytes, files, transcript),
        Err(ReadErr::TooLong) => Status::ScriptTooLong,
        Err(ReadErr::Failed) => Status::ScriptFault,
        Err(ReadErr::NoMemory) => Status::NoMemory,
    }
}

// Replays the script of a number.
fn replay_generated<F: Files, T: Sink>(
    alloc: Global,
    reading: &Reading<'_>,
    number: u32,
    files: &mut F,
    transcript: &mut T,
) -> Status
    ensures ends { let before = outside (T.written transcript.old) (T.faults transcript.old) (F.tells files.old) (F.paths files.old) (F.write_faults files.old) in
        let after = outside (T.written transcript.new) (T.faults transcript.new) (F.tells files.new) (F.paths files.new) (F.write_faults files.new) in
        (folder : Folder) × IsFolderOf (F.tells files.old) (F.paths files.old) folder
        × Replays result (answer_spec.answer_to_script reading.now folder (Ok (generator.script number))) (answer_spec.Decodes folder (Ok (generator.script number))) (F.read_faults files.old) (F.read_faults files.new) before after }
    ensures tells { F.tells files.new ≡ F.tells files.old }
    ensures sink_later { T.faults transcript.old ≤ T.faults transcript.new }
    ensures read_later { F.read_faults files.old ≤ F.read_faults files.new }
    ensures store_later { F.write_faults files.old ≤ F.write_faults files.new }
{
    match load_gen::script(alloc, number) {
        Ok(script) => replay_script(alloc, reading, &script, files, transcript),
        Err(NoMemory) => Status::NoMemory,
    }
}

// Replays the script that the bytes are. Once it is read, their memory is given back.
fn replay_bytes<F: Files, T: Sink>(
    alloc: Global,
    reading: &Reading<'_>,
    bytes: Bytes,
    files: &mut F,
    transcript: &mut T,
) -> Status
    ensures ends { let before = outside (T.written transcript.old) (T.faults transcript.old) (F.tells files.old) (F.paths files.old) (F.write_faults files.old) in
        let after = outside (T.written transcript.new) (T.faults transcript.new) (F.tells files.new) (F.paths files.new) (F.write_faults files.new) in
        (folder : Folder) × IsFolderOf (F.tells files.old) (F.paths files.old) folder
        × Replays result (answer_spec.answer_to_script reading.now folder (script_of bytes)) (answer_spec.Decodes folder (script_of bytes)) (F.read_faults files.old) (F.read_faults files.new) before after }
    ensures tells { F.tells files.new ≡ F.tells files.old }
    ensures sink_later { T.faults transcript.old ≤ T.faults transcript.new }
    ensures read_later { F.read_faults files.old ≤ F.read_faults files.new }
    ensures store_later { F.write_faults files.old ≤ F.write_faults files.new }
{
    let script = read(alloc, bytes.as_slice());
    drop(bytes);
    match script {
        Ok(script) => replay_script(alloc, reading, &script, files, transcript),
        Err(ScriptErr::NoMemory) => Status::NoMemory,
        Err(fault) => answer_fault(alloc, fault, transcript),
    }
}

// Runs the session of a script and answers with what it told and rendered.
fn replay_script<F: Files, T: Sink>(
    alloc: Global,
    reading: &Reading<'_>,
    script: &Script,
    files: &mut F,
    transcript: &mut T,
) -> Status
    requires { IsWellFormed script.now }
    ensures ends { let before = outside (T.written transcript.old) (T.faults transcript.old) (F.tells files.old) (F.paths files.old) (F.write_faults files.old) in
        let after = outside (T.written transcript.new) (T.faults transcript.new) (F.tells files.new) (F.paths files.new) (F.write_faults files.new) in
        (folder : Folder) × IsFolderOf (F.tells files.old) (F.paths files.old) folder
        × Replays result (answer_spec.answer_to_session reading.now script.now (session_of folder script.now)) (answer_spec.Decodes folder (Ok script.now)) (F.read_faults files.old) (F.read_faults files.new) before after }
    ensures tells { F.tells files.new ≡ F.tells files.old }
    ensures sink_later { T.faults transcript.old ≤ T.faults transcript.new }
    ensures read_later { F.read_faults files.old ≤ F.read_faults files.new }
    ensures store_later { F.write_faults files.old ≤ F.write_faults files.new }
{
    let options = Options {
        tie: reading.order,
        audio: reading.mode.renders(),
    };
    match session::run(alloc, script, options, files) {
        Ok(outcome) => answer_outcome(alloc, reading, script, &outcome, files, transcript),
        Err(Stop::AssetFault) => Status::AssetFault,
        Err(Stop::NoMemory) => Status::NoMemory,
    }
}

// Writes the text of a session and then, where there is one, its file.
fn answer_outcome<F: Files, T: Sink>(
    alloc: Global,
    reading: &Reading<'_>,
    script: &Script,
    outcome: &Outcome,
    files: &mut F,
    transcript: &mut T,
) -> Status
    requires writable { IfSome outcome.now.rendered IsWritable }
    requires formed { IsWellFormed script.now }
    requires rate { answer_spec.runs outcome.now.end ≡ true → 1 ≤ script.now.context.rate }
    ensures ends { let before = outside (T.written transcript.old) (T.faults transcript.old) (F.tells files.old) (F.paths files.old) (F.write_faults files.old) in
        let after = outside (T.written transcript.new) (T.faults transcript.new) (F.tells files.new) (F.paths files.new) (F.write_faults files.new) in
        Answers result (answer_to_rendering reading.now outcome.now.end (text_to reading.now outcome.now.lines.items outcome.now.quanta outcome.now.end outcome.now.rendered) script.now outcome.now.rendered) before after }
    ensures tells { F.tells files.new ≡ F.tells files.old }
    ensures sink_later { T.faults transcript.old ≤ T.faults transcript.new }
    ensures read_later { F.read_faults files.old ≤ F.read_faults files.new }
    ensures store_later { F.write_faults files.old ≤ F.write_faults files.new }
{
    let Ok(text) = text_of(alloc, reading, outcome) else {
        return Status::NoMemory;
    };
    match &outcome.rendered {
        Some(rendered) => answer_rendered(reading, text.as_slice(), rendered, files, transcript),
        None if is_migrated(reading, outcome.end) => {
            let Ok(script) = script_text::text(alloc, script) else {
                return Status::NoMemory;
            };
            let (text, script) = (text.as_slice(), script.as_slice());
            answer_migrated(reading, text, script, outcome.end, files, transcript)
        }
        None => answer_text(transcript, text.as_slice(), status_of(outcome.end)),
    }
}

// Whether the script is written.
fn is_migrated(reading: &Reading<'_>, end: EndWord) -> bool
    ensures { result ≡ answer_spec.is_migrated reading.now end }
{
    match end {
        EndWord::Completed | EndWord::Stalled(_) | EndWord::Idle => reading.mode.migrates(),
        EndWord::Refused(_) => false,
    }
}

// The text of what a session told: its transcript, or its summary where the script was generated.
fn text_of(alloc: Global, reading: &Reading<'_>, outcome: &Outcome) -> Result<Bytes, NoMemory>
    requires { IfSome outcome.now.rendered IsWritable }
    ensures { IfOk result (λ text. text ≡ text_to reading.now outcome.now.lines.items outcome.now.quanta outcome.now.end outcome.now.rendered) }
{
    if reading.generated.is_none() {
        return text(alloc, &outcome.lines, &outcome.end);
    }
    let loudness = loudness_of(&outcome.rendered);
    summary(
        alloc,
        &outcome.lines,
        outcome.quanta,
        loudness,
        &outcome.end,
    )
}

// How loud it is what was rendered.
fn loudness_of(rendered: &Option<Rendered>) -> Option<Loudness>
    requires { IfSome rendered.now IsWritable }
    ensures { result ≡ loudness_left rendered.now }
{
    match rendered {
        Some(rendered) => Some(Loudness::of(rendered.samples.as_slice())),
        None => None,
    }
}

// The status of a session that ended so.
fn status_of(end: EndWord) -> Status
    ensures { result ≡ answer_spec.status_of end }
{
    match end {
        EndWord::Completed => Status::Rendered,
        EndWord::Stalled(_) | EndWord::Idle | EndWord::Refused(_) => Status::Unrendered,
    }
}

// Writes a transcript and then the WAV file.
fn answer_rendered<F: Files, T: Sink>(
    reading: &Reading<'_>,
    text: &[u8],
    rendered: &Rendered,
    files: &mut F,
    transcript: &mut T,
) -> Status
    requires { IsWritable rendered.now }
    ensures ends { let before = outside (T.written transcript.old) (T.faults transcript.old) (F.tells files.old) (F.paths files.old) (F.write_faults files.old) in
        let after = outside (T.written transcript.new) (T.faults transcript.new) (F.tells files.new) (F.paths files.new) (F.write_faults files.new) in
        Answers result (with_file Status.Rendered text.now (wav_file reading.now rendered.now)) before after }
    ensures tells { F.tells files.new ≡ F.tells files.old }
    ensures sink_later { T.faults transcript.old ≤ T.faults transcript.new }
    ensures read_later { F.read_faults files.old ≤ F.read_faults files.new }
    ensures store_later { F.write_faults files.old ≤ F.write_faults files.new }
{
    match write_all(transcript, text) {
        Ok(()) => {}
        Err(EdgeErr::Failed) => return Status::TranscriptFault,
        Err(EdgeErr::NoMemory) => return Status::NoMemory,
    }
    match write_wav(files, reading, rendered) {
        Ok(()) => Status::Rendered,
        Err(EdgeErr::Failed) => Status::WavFault,
        Err(EdgeErr::NoMemory) => Status::NoMemory,
    }
}

// Writes a transcript and then the text of a script.
fn answer_migrated<F: Files, T: Sink>(
    reading: &Reading<'_>,
    text: &[u8],
    script: &[u8],
    end: EndWord,
    files: &mut F,
    transcript: &mut T,
) -> Status
    ensures ends { let before = outside (T.written transcript.old) (T.faults transcript.old) (F.tells files.old) (F.paths files.old) (F.write_faults files.old) in
        let after = outside (T.written transcript.new) (T.faults transcript.new) (F.tells files.new) (F.paths files.new) (F.write_faults files.new) in
        Answers result (with_file (answer_spec.status_of end) text.now (answer_spec.file_at_out reading.now script.now)) before after }
    ensures tells { F.tells files.new ≡ F.tells files.old }
    ensures sink_later { T.faults transcript.old ≤ T.faults transcript.new }
    ensures read_later { F.read_faults files.old ≤ F.read_faults files.new }
    ensures store_later { F.write_faults files.old ≤ F.write_faults files.new }
{
    let file = OutFile {
        path: reading.out,
        bytes: script,
    };
    match give(files, transcript, text, Some(file)) {
        Ok(()) => status_of(end),
        Err(GiveErr::Text) => Status::TranscriptFault,
        Err(GiveErr::File) => Status::WavFault,
        Err(GiveErr::NoMemory) => Status::NoMemory,
    }
}

// Writes the line of a script's fault.
fn answer_fault<T: Sink>(alloc: Global, fault: ScriptErr, transcript: &mut T) -> Status
    ensures ends { TextEnds result Status.BadScript (faults.fault_line fault) (T.written transcript.old) (T.written transcript.new) (T.faults transcript.old) (T.faults transcript.new) }
    ensures later { T.faults transcript.old ≤ T.faults transcript.new }
{
    match fault_line(alloc, fault) {
        Ok(line) => answer_text(transcript, line.as_bytes(), Status::BadScript),
        Err(_) => Status::NoMemory,
    }
}

// Writes a text that is the whole answer, whose status this is.
fn answer_text<T: Sink>(transcript: &mut T, text: &[u8], status: Status) -> Status
    ensures ends { TextEnds result status text.now (T.written transcript.old) (T.written transcript.new) (T.faults transcript.old) (T.faults transcript.new) }
    ensures later { T.faults transcript.old ≤ T.faults transcript.new }
{
    match write_all(transcript, text) {
        Ok(()) => status,
        Err(EdgeErr::Failed) => Status::TranscriptFault,
        Err(EdgeErr::NoMemory) => Status::NoMemory,
    }
}
