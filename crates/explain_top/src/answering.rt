ghost use Rattle.std.specs.Prelude.{◌≡◌, ◌≤◌, ℕ, List, map, string_bytes, true, IsTrue, IsSome, IsNone, Option, Some, IfOk, IsErrOf, codes};
ghost use Rattle.std.specs.Io.KnownBytes.{IsAtEnd, Keeps};
ghost use Rattle.io_edge.specs.Faults.{Rose};
ghost use Rattle.io_edge.specs.Paths.{SamePaths};
ghost use Rattle.wa_base.specs.Contexts.{quantum_of};
ghost use Rattle.script_ast.specs.WellFormed.{IsWellFormed};
ghost use Rattle.script_json.specs.Script.{script_of};
ghost use Rattle.session.specs.Session.{session_of, SessionDecodes};
ghost use Rattle.derivations.specs.Tapes.{worlds};
ghost use Rattle.explain_top.specs.Answer as given;
ghost use Rattle.explain_top.specs.Run.{IsIn, IsOverStore, IsAnswerOver, IsReading, IsReadingFor, DecodesIn, IsAnsweredAt, IsChecking, is_of_script};
ghost use Rattle.explain_top.specs.Tapes.{IsAskable};
ghost use Rattle.explain_top.specs.Words as of_words;
ghost use Rattle.explain_top.specs.Words.{shown};

use crate::checking::{CheckErr, check};
use crate::derivation::{Derivation, DeriveErr, derive};
use crate::status::Status;
use crate::tape::{TapeErr, make_tape};
use crate::words::{Request, USAGE, request_of};
use answers::{OutFile, fault_line};
use derivations::Tape;
use explain::{Fact, Key, fact_text};
use io_edge::{EdgeErr, Fetched, Files, ReadErr, Source, read_all};
use script_ast::Script;
use script_json::{ScriptErr, read};
use std::alloc::{AllocError, Global};
use std::marker::Model;
use transcript::{Lines, text};
use wa_base::{Bytes, ContextSpec, End, NoMemory, NodeId};

const MAX_SCRIPT: usize = 16_777_216;

const MAX_TEXT: u64 = 67_108_864;

// Why there is no answer.
#[derive(Clone, Copy)]
pub(crate) enum Fault {
    // Reading the script failed.
    Script,
    // Reading an asset failed, or reading the text of a derivation.
    Asset,
    NoMemory,
}

impl From<NoMemory> for Fault {
    ghost use Rattle.std.specs.Prelude.{◌≡◌};
    ghost use Rattle.explain_top.specs.declared.answering.Fault.TheVariants.{NoMemory as no_memory};

    ghost from_gives = { λ _ fault. fault ≡ no_memory };

    fn from(_: NoMemory) -> Fault {
        Fault::NoMemory
    }
}

impl From<AllocError> for Fault {
    ghost use Rattle.std.specs.Prelude.{◌≡◌};
    ghost use Rattle.explain_top.specs.declared.answering.Fault.TheVariants.{NoMemory as no_memory};

    ghost from_gives = { λ _ fault. fault ≡ no_memory };

    fn from(_: AllocError) -> Fault {
        Fault::NoMemory
    }
}

// A file that is to be made.
#[derive(Drop)]
struct NewFile<'a> {
    path: &'a str,
    bytes: Bytes,
}

// How the run is to end, what the sink is to get, and the file that is to be made, where there is one.
#[derive(Drop)]
pub(crate) struct Answer<'a> {
    pub(crate) status: Status,
    pub(crate) text: Bytes,
    file: Option<NewFile<'a>>,
}

impl<'a> Model for Answer<'a> {
    ghost use Rattle.std.specs.Prelude.{option_map};
    ghost use Rattle.explain_top.specs.Answer.{Answer};

    ghost Value = { Answer };

    ghost view = { λ a. record { status = a.status; text = a.text; file = option_map (λ f. record { path = f.path.now; bytes = f.bytes }) a.file } };
}

impl Answer<'_> {
    // The file, as it is given out.
    pub(crate) fn out_file(&self) -> Option<OutFile<'_>>
        ensures { result ≡ self.now.file }
    {
        match &self.file {
            Some(file) => Some(OutFile {
                path: file.path,
                bytes: file.bytes.as_slice(),
            }),
            None => None,
        }
    }
}

// The answer to words, the script of a source and the files of a store, none of which changes.
pub(crate) fn answer_to_words<'a, S: Source, F: Files>(
    alloc: Global,
    words: &'a [String],
    script: &mut S,
    files: &mut F,
) -> Result<Answer<'a>, Fault>
    ensures ok { IfOk result (λ answer. IsAnswerOver (S.left script.old) (F.tells files.old) (F.paths files.old) (of_words.request_of (map string_bytes words.now)) answer) }
    ensures end { IfOk result (λ answer. IsAnsweredAt (of_words.request_of (map string_bytes words.now)) answer (S.left script.new)) }
    ensures unread { IsNone (of_words.request_of (map string_bytes words.now)) → Keeps (S.left script.old) (S.left script.new) }
    ensures script_fault { IsErrOf result Fault.Script → Rose (S.faults script.old) (S.faults script.new) × IsSome (of_words.request_of (map string_bytes words.now)) }
    ensures asset_fault { IsErrOf result Fault.Asset → Rose (F.read_faults files.old) (F.read_faults files.new)
        × IsReading (S.left script.old) (F.tells files.old) (F.paths files.old) (of_words.request_of (map string_bytes words.now)) × IsAtEnd (S.left script.new) }
    ensures tells { F.tells files.new ≡ F.tells files.old }
    ensures paths { IsTrue (F.tells files.old) → SamePaths (F.paths files.old) (F.paths files.new) }
    ensures source_later { S.faults script.old ≤ S.faults script.new }
    ensures read_later { F.read_faults files.old ≤ F.read_faults files.new }
    ensures writes { F.write_faults files.new ≡ F.write_faults files.old }
{
    let Some(asked) = request_of(words) else {
        return Ok(without_file(alloc, Status::BadWords, USAGE)?);
    };
    match read_all(alloc, script, MAX_SCRIPT) {
        Ok(bytes) => answer_to_bytes(alloc, asked, bytes, files),
        Err(ReadErr::TooLong) => Ok(without_file(alloc, Status::ScriptTooLong, &[])?),
        Err(ReadErr::Failed) => Err(Fault::Script),
        Err(ReadErr::NoMemory) => Err(Fault::NoMemory),
    }
}

// The answer to the script that the bytes are. Once it is read, their memory is given back.
fn answer_to_bytes<'a, F: Files>(
    alloc: Global,
    asked: Request<'a>,
    bytes: Bytes,
    files: &mut F,
) -> Result<Answer<'a>, Fault>
    ensures ok { IfOk result (λ answer. IsOverStore (F.tells files.old) (F.paths files.old) (Some (shown asked.entry)) (λ folder found. given.IsAnswerToScript folder found (shown asked.entry) (script_of bytes) answer)) }
    ensures status { IfOk result (λ answer. is_of_script answer.status ≡ true) }
    ensures fault { IsErrOf result Fault.Script → ⊥ }
    ensures cause { IsErrOf result Fault.Asset → Rose (F.read_faults files.old) (F.read_faults files.new)
        × IsReadingFor (F.tells files.old) (F.paths files.old) (shown asked.entry) (λ folder. DecodesIn folder (script_of bytes)) }
    ensures tells { F.tells files.new ≡ F.tells files.old }
    ensures paths { IsTrue (F.tells files.old) → SamePaths (F.paths files.old) (F.paths files.new) }
    ensures later { F.read_faults files.old ≤ F.read_faults files.new }
    ensures writes { F.write_faults files.new ≡ F.write_faults files.old }
{
    let script = read(alloc, bytes.as_slice());
    drop(bytes);
    match script {
        Ok(script) => answer_to_script(alloc, asked, &script, files),
        Err(ScriptErr::NoMemory) => Err(Fault::NoMemory),
        Err(fault) => {
            let line = fault_line(alloc, fault)?;
            Ok(without_file(alloc, Status::BadScript, line.as_bytes())?)
        }
    }
}

// The answer to a script, whose session is replayed.
fn answer_to_script<'a, F: Files>(
    alloc: Global,
    asked: Request<'a>,
    script: &Script,
    files: &mut F,
) -> Result<Answer<'a>, Fault>
    requires { IsWellFormed script.now }
    ensures ok { IfOk result (λ answer. IsOverStore (F.tells files.old) (F.paths files.old) (Some (shown asked.entry)) (λ folder found. given.IsAnswerToSession found (shown asked.entry) script.now.context (session_of folder script.now) answer)) }
    ensures status { IfOk result (λ answer. is_of_script answer.status ≡ true) }
    ensures fault { IsErrOf result Fault.Script → ⊥ }
    ensures cause { IsErrOf result Fault.Asset → Rose (F.read_faults files.old) (F.read_faults files.new)
        × IsReadingFor (F.tells files.old) (F.paths files.old) (shown asked.entry) (λ folder. SessionDecodes folder script.now) }
    ensures tells { F.tells files.new ≡ F.tells files.old }
    ensures paths { IsTrue (F.tells files.old) → SamePaths (F.paths files.old) (F.paths files.new) }
    ensures later { F.read_faults files.old ≤ F.read_faults files.new }
    ensures writes { F.write_faults files.new ≡ F.write_faults files.old }
{
    match make_tape(alloc, script, files) {
        Ok(tape) => answer_to_tape(alloc, asked, script.context, &tape, files),
        Err(TapeErr::NotCompleted(end)) => {
            let line = text(alloc, &Lines::new(alloc), &end)?;
            Ok(without_file(alloc, Status::NotCompleted, line.as_slice())?)
        }
        Err(TapeErr::AssetFault) => Err(Fault::Asset),
        Err(TapeErr::NoMemory) => Err(Fault::NoMemory),
    }
}

// The answer to the tape of a session that completed.
fn answer_to_tape<'a, F: Files>(
    alloc: Global,
    asked: Request<'a>,
    spec: ContextSpec,
    tape: &Tape,
    files: &mut F,
) -> Result<Answer<'a>, Fault>
    requires { IsAskable spec (worlds tape.now) }
    ensures ok { IfOk result (λ answer. (found : Option (List ℕ)) × (IsTrue (F.tells files.old) → IsIn (F.paths files.old) (Some (shown asked.entry)) found) × given.IsAnswerToTape found (shown asked.entry) spec (worlds tape.now) answer) }
    ensures status { IfOk result (λ answer. is_of_script answer.status ≡ true) }
    ensures fault { IsErrOf result Fault.Script → ⊥ }
    ensures cause { IsErrOf result Fault.Asset → Rose (F.read_faults files.old) (F.read_faults files.new) × IsChecking (shown asked.entry) }
    ensures tells { F.tells files.new ≡ F.tells files.old }
    ensures paths { IsTrue (F.tells files.old) → SamePaths (F.paths files.old) (F.paths files.new) }
    ensures later { F.read_faults files.old ≤ F.read_faults files.new }
    ensures writes { F.write_faults files.new ≡ F.write_faults files.old }
{
    match asked {
        Request::Derive {
            frame,
            channel,
            out,
        } => Ok(derived(alloc, spec, tape, frame, channel, out)?),
        Request::Check { text } => tried_file(alloc, spec, tape, text, files),
    }
}

// The answer with a derivation of the sample of a channel at a frame, for the file OUT.
fn derived<'a>(
    alloc: Global,
    spec: ContextSpec,
    tape: &Tape,
    frame: u64,
    channel: u64,
    out: &'a str,
) -> Result<Answer<'a>, NoMemory>
    requires { IsAskable spec (worlds tape.now) }
    ensures ok { IfOk result (λ answer. given.By (given.is_rendered spec frame channel) (given.IsDerived (quantum_of spec) (worlds tape.now) (given.sample frame channel) out.now answer) (answer ≡ given.without_file Status.OutOfRange (codes "out of range\n"))) }
    ensures status { IfOk result (λ answer. is_of_script answer.status ≡ true) }
{
    if frame >= spec.length || channel >= u64::from(spec.channels) {
        return without_file(alloc, Status::OutOfRange, b"out of range\n");
    }
    match derive(alloc, tape, spec.quantum, sample(frame, channel as u32)) {
        Ok(derivation) => with_facts(alloc, derivation, out),
        Err(DeriveErr::TooLong) => without_file(alloc, Status::TooLong, b"too long\n"),
        Err(DeriveErr::NoMemory) => Err(NoMemory),
    }
}

// What the destination lets out at a frame, on a channel.
fn sample(frame: u64, channel: u32) -> Key
    ensures { result ≡ given.sample frame channel }
{
    let end = End {
        node: NodeId(0),
        writer: false,
    };
    Key::Out {
        frame,
        end,
        output: 0,
        channel,
    }
}

// The answer with a derivation.
fn with_facts<'a>(
    alloc: Global,
    derivation: Derivation,
    out: &'a str,
) -> Result<Answer<'a>, NoMemory>
    ensures { IfOk result (λ answer. answer ≡ given.with_text out.now derivation.facts derivation.text) }
{
    let Derivation { facts, text: bytes } = derivation;
    let line = format!(in alloc; "facts {facts}\n")?;
    let mut answer = without_file(alloc, Status::Done, line.as_bytes())?;
    answer.file = Some(NewFile { path: out, bytes });
    Ok(answer)
}

// The answer that tries the text of a file.
fn tried_file<'a, F: Files>(
    alloc: Global,
    spec: ContextSpec,
    tape: &Tape,
    path: &str,
    files: &mut F,
) -> Result<Answer<'a>, Fault>
    requires { IsAskable spec (worlds tape.now) }
    ensures ok { IfOk result (λ answer. (found : Option (List ℕ)) × (IsTrue (F.tells files.old) → found ≡ F.paths files.old path.now) × given.IsFileTried (quantum_of spec) (worlds tape.now) found answer) }
    ensures status { IfOk result (λ answer. is_of_script answer.status ≡ true) }
    ensures fault { IsErrOf result Fault.Script → ⊥ }
    ensures cause { IsErrOf result Fault.Asset → Rose (F.read_faults files.old) (F.read_faults files.new) }
    ensures tells { F.tells files.new ≡ F.tells files.old }
    ensures paths { IsTrue (F.tells files.old) → SamePaths (F.paths files.old) (F.paths files.new) }
    ensures later { F.read_faults files.old ≤ F.read_faults files.new }
    ensures writes { F.write_faults files.new ≡ F.write_faults files.old }
{
    match files.fetch(alloc, path, MAX_TEXT) {
        Ok(Fetched::Bytes(bytes)) => Ok(tried(alloc, spec, tape, bytes.as_slice())?),
        Ok(Fetched::Missing) => Ok(invalid(alloc, "missing")?),
        Ok(Fetched::TooLong(_)) => Ok(invalid(alloc, "long")?),
        Err(EdgeErr::Failed) => Err(Fault::Asset),
        Err(EdgeErr::NoMemory) => Err(Fault::NoMemory),
    }
}

// The answer that tries a text.
fn tried<'a>(
    alloc: Global,
    spec: ContextSpec,
    tape: &Tape,
    bytes: &[u8],
) -> Result<Answer<'a>, NoMemory>
    requires { IsAskable spec (worlds tape.now) }
    ensures ok { IfOk result (λ answer. given.IsTried (quantum_of spec) (worlds tape.now) bytes.now answer) }
    ensures status { IfOk result (λ answer. is_of_script answer.status ≡ true) }
{
    match check(alloc, tape, spec.quantum, bytes) {
        Ok(fact) => valid(alloc, &fact),
        Err(CheckErr::Empty) => invalid(alloc, "empty"),
        Err(CheckErr::BadLine(line) | CheckErr::Missing(line) | CheckErr::Wrong(line)) => {
            let number = format!(in alloc; "{line}")?;
            invalid(alloc, number.as_str())
        }
        Err(CheckErr::NoMemory) => Err(NoMemory),
    }
}

// The answer to a text that is checked, with its last fact.
fn valid<'a>(alloc: Global, fact: &Fact) -> Result<Answer<'a>, NoMemory>
    ensures { IfOk result (λ answer. answer ≡ given.valid fact.now) }
{
    let text = fact_text(alloc, fact)?;
    let mut line = Vec::new(alloc);
    line.extend_from_slice(b"valid ")?;
    line.extend_from_slice(text.as_slice())?;
    line.push(b'\n')?;
    without_file(alloc, Status::Done, line.as_slice())
}

// The answer to a text that is not checked, with what is wrong.
fn invalid<'a>(alloc: Global, what: &str) -> Result<Answer<'a>, NoMemory>
    ensures { IfOk result (λ answer. answer ≡ given.invalid what.now) }
{
    let line = format!(in alloc; "invalid {what}\n")?;
    without_file(alloc, Status::Invalid, line.as_bytes())
}

// An answer of a text alone.
fn without_file<'a>(alloc: Global, status: Status, text: &[u8]) -> Result<Answer<'a>, NoMemory>
    ensures { IfOk result (λ answer. answer ≡ given.without_file status text.now) }
{
    let mut bytes = Vec::new(alloc);
    bytes.extend_from_slice(text)?;
    Ok(Answer {
        status,
        text: Bytes::from(bytes),
        file: None,
    })
}
