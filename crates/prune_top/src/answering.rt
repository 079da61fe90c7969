ghost use Rattle.std.specs.Prelude.{◌≡◌, ◌≤◌, ℕ, List, map, string_bytes, true, IsTrue, IsSome, IsNone, IfOk, IsErrOf};
ghost use Rattle.std.specs.Io.KnownBytes.{IsAtEnd, Keeps};
ghost use Rattle.io_edge.specs.Faults.{Rose};
ghost use Rattle.io_edge.specs.Paths.{SamePaths};
ghost use Rattle.script_ast.specs.WellFormed.{IsWellFormed};
ghost use Rattle.script_json.specs.Script.{script_of};
ghost use Rattle.session.specs.Session.{session_of, SessionDecodes};
ghost use Rattle.session.specs.Folders.{Folder, IsFolderOf};
ghost use Rattle.prune_top.specs.Answer as given;
ghost use Rattle.prune_top.specs.Run.{Over, IsAnswerOver, IsReading, DecodesIn, IsAnsweredAt, is_of_script};
ghost use Rattle.prune_top.specs.Words as of_words;

use crate::pruning::{PruneErr, Pruned, prune};
use crate::status::Status;
use crate::words::{USAGE, out_of};
use answers::{OutFile, fault_line};
use io_edge::{Files, ReadErr, Source, read_all};
use script_ast::Script;
use script_json::{ScriptErr, read};
use std::alloc::{AllocError, Global};
use std::marker::Model;
use transcript::{Lines, text};
use wa_base::{Bytes, NoMemory};

const MAX_SCRIPT: usize = 16_777_216;

// Why there is no answer.
#[derive(Clone, Copy)]
pub(crate) enum Fault {
    // Reading the script failed.
    Script,
    // Reading an asset failed.
    Asset,
    NoMemory,
}

impl From<NoMemory> for Fault {
    ghost use Rattle.std.specs.Prelude.{◌≡◌};
    ghost use Rattle.prune_top.specs.declared.answering.Fault.TheVariants.{NoMemory as no_memory};

    ghost from_gives = { λ _ fault. fault ≡ no_memory };

    fn from(_: NoMemory) -> Fault {
        Fault::NoMemory
    }
}

impl From<AllocError> for Fault {
    ghost use Rattle.std.specs.Prelude.{◌≡◌};
    ghost use Rattle.prune_top.specs.declared.answering.Fault.TheVariants.{NoMemory as no_memory};

    ghost from_gives = { λ _ fault. fault ≡ no_memory };

    fn from(_: AllocError) -> Fault {
        Fault::NoMemory
    }
}

// A file that is to be made.
#[derive(Drop)]
struct NewFile<'a> {
    path: &'a str,
    bytes: Bytes,
}

// How the run is to end, what the sink is to get, and the file that is to be made, where there is one.
#[derive(Drop)]
pub(crate) struct Answer<'a> {
    pub(crate) status: Status,
    pub(crate) text: Bytes,
    file: Option<NewFile<'a>>,
}

impl<'a> Model for Answer<'a> {
    ghost use Rattle.std.specs.Prelude.{option_map};
    ghost use Rattle.prune_top.specs.Answer.{Answer};

    ghost Value = { Answer };

    ghost view = { λ a. record { status = a.status; text = a.text; file = option_map (λ f. record { path = f.path.now; bytes = f.bytes }) a.file } };
}

impl Answer<'_> {
    // The file, as it is given out.
    pub(crate) fn out_file(&self) -> Option<OutFile<'_>>
        ensures { result ≡ self.now.file }
    {
        match &self.file {
            Some(file) => Some(OutFile {
                path: file.path,
                bytes: file.bytes.as_slice(),
            }),
            None => None,
        }
    }
}

// The answer to words, the script of a source and the files of a store, none of which changes.
pub(crate) fn answer_to_words<'a, S: Source, F: Files>(
    alloc: Global,
    words: &'a [String],
    script: &mut S,
    files: &mut F,
) -> Result<Answer<'a>, Fault>
    ensures ok { IfOk result (λ answer. IsAnswerOver (S.left script.old) (F.tells files.old) (F.paths files.old) (of_words.out_of (map string_bytes words.now)) answer) }
    ensures end { IfOk result (λ answer. IsAnsweredAt (of_words.out_of (map string_bytes words.now)) answer (S.left script.new)) }
    ensures unread { IsNone (of_words.out_of (map string_bytes words.now)) → Keeps (S.left script.old) (S.left script.new) }
    ensures script_fault { IsErrOf result Fault.Script → Rose (S.faults script.old) (S.faults script.new) × IsSome (of_words.out_of (map string_bytes words.now)) }
    ensures asset_fault { IsErrOf result Fault.Asset → Rose (F.read_faults files.old) (F.read_faults files.new)
        × IsReading (S.left script.old) (F.tells files.old) (F.paths files.old) (of_words.out_of (map string_bytes words.now)) × IsAtEnd (S.left script.new) }
    ensures tells { F.tells files.new ≡ F.tells files.old }
    ensures paths { IsTrue (F.tells files.old) → SamePaths (F.paths files.old) (F.paths files.new) }
    ensures source_later { S.faults script.old ≤ S.faults script.new }
    ensures read_later { F.read_faults files.old ≤ F.read_faults files.new }
    ensures writes { F.write_faults files.new ≡ F.write_faults files.old }
{
    let Some(out) = out_of(words) else {
        return Ok(without_file(alloc, Status::BadWords, USAGE)?);
    };
    match read_all(alloc, script, MAX_SCRIPT) {
        Ok(bytes) => answer_to_bytes(alloc, out, bytes, files),
        Err(ReadErr::TooLong) => Ok(without_file(alloc, Status::ScriptTooLong, &[])?),
        Err(ReadErr::Failed) => Err(Fault::Script),
        Err(ReadErr::NoMemory) => Err(Fault::NoMemory),
    }
}

// The answer to the script that the bytes are. Once it is read, their memory is given back.
fn answer_to_bytes<'a, F: Files>(
    alloc: Global,
    out: &'a str,
    bytes: Bytes,
    files: &mut F,
) -> Result<Answer<'a>, Fault>
    ensures ok { IfOk result (λ answer. Over (F.tells files.old) (F.paths files.old) (λ folder. answer ≡ given.answer_to_script folder out.now (script_of bytes))) }
    ensures status { IfOk result (λ answer. is_of_script answer.status ≡ true) }
    ensures fault { IsErrOf result Fault.Script → ⊥ }
    ensures cause { IsErrOf result Fault.Asset → Rose (F.read_faults files.old) (F.read_faults files.new)
        × Over (F.tells files.old) (F.paths files.old) (λ folder. DecodesIn folder (script_of bytes)) }
    ensures tells { F.tells files.new ≡ F.tells files.old }
    ensures paths { IsTrue (F.tells files.old) → SamePaths (F.paths files.old) (F.paths files.new) }
    ensures later { F.read_faults files.old ≤ F.read_faults files.new }
    ensures writes { F.write_faults files.new ≡ F.write_faults files.old }
{
    let script = read(alloc, bytes.as_slice());
    drop(bytes);
    match script {
        Ok(script) => answer_to_script(alloc, out, script, files),
        Err(ScriptErr::NoMemory) => Err(Fault::NoMemory),
        Err(fault) => {
            let line = fault_line(alloc, fault)?;
            Ok(without_file(alloc, Status::BadScript, line.as_bytes())?)
        }
    }
}

// The answer to a script, whose session is replayed.
fn answer_to_script<'a, F: Files>(
    alloc: Global,
    out: &'a str,
    script: Script,
    files: &mut F,
) -> Result<Answer<'a>, Fault>
    requires { IsWellFormed script }
    ensures ok { IfOk result (λ answer. Over (F.tells files.old) (F.paths files.old) (λ folder. answer ≡ given.answer_to_session out.now script (session_of folder script))) }
    ensures status { IfOk result (λ answer. is_of_script answer.status ≡ true) }
    ensures fault { IsErrOf result Fault.Script → ⊥ }
    ensures cause { IsErrOf result Fault.Asset → Rose (F.read_faults files.old) (F.read_faults files.new)
        × Over (F.tells files.old) (F.paths files.old) (λ folder. SessionDecodes folder script) }
    ensures tells { F.tells files.new ≡ F.tells files.old }
    ensures paths { IsTrue (F.tells files.old) → SamePaths (F.paths files.old) (F.paths files.new) }
    ensures later { F.read_faults files.old ≤ F.read_faults files.new }
    ensures writes { F.write_faults files.new ≡ F.write_faults files.old }
{
    match prune(alloc, script, files) {
        Ok(part) => Ok(with_script(alloc, out, &part)?),
        Err(PruneErr::NotCompleted(end)) => {
            let line = text(alloc, &Lines::new(alloc), &end)?;
            Ok(without_file(alloc, Status::NotCompleted, line.as_slice())?)
        }
        Err(PruneErr::AssetFault) => Err(Fault::Asset),
        Err(PruneErr::NoMemory) => Err(Fault::NoMemory),
    }
}

// The answer with a pruned script.
fn with_script<'a>(alloc: Global, out: &'a str, part: &Pruned) -> Result<Answer<'a>, NoMemory>
    requires formed { IsWellFormed part.now.script }
    requires rate { 1 ≤ part.now.script.context.rate }
    ensures { IfOk result (λ answer. answer ≡ given.with_script out.now part.now.kept part.now.of part.now.script) }
{
    let line = format!(in alloc; "pruned {} of {}\n", part.kept, part.of)?;
    let bytes = script_text::text(alloc, &part.script)?;
    let mut answer = without_file(alloc, Status::Done, line.as_bytes())?;
    answer.file = Some(NewFile { path: out, bytes });
    Ok(answer)
}

// An answer of a text alone.
fn without_file<'a>(alloc: Global, status: Status, text: &[u8]) -> Result<Answer<'a>, NoMemory>
    ensures { IfOk result (λ answer. answer ≡ given.without_file status text.now) }
{
    let mut bytes = Vec::new(alloc);
    bytes.extend_from_slice(text)?;
    Ok(Answer {
        status,
        text: Bytes::from(bytes),
        file: None,
    })
}
