ghost use Rattle.std.specs.Prelude.{◌≡◌, ◌≤◌, false, IfOk, IsErrOf, IsTrue};
ghost use Rattle.io_edge.specs.Faults.{Rose};
ghost use Rattle.io_edge.specs.Paths.{SamePaths};
ghost use Rattle.script_ast.specs.WellFormed.{AreCallsAfter};
ghost use Rattle.transcript.specs.declared.lines.EndWord.{EndWord as an_end};
ghost use Rattle.session.specs.Folders.{Folder, IsFolderOf};
ghost use Rattle.session.specs.Rendering.{completes};
ghost use Rattle.session.specs.Session.{session_of, SessionDecodes};
ghost use Rattle.explain_top.specs.Tapes.{IsTapeOf};

use crate::keeper::Keeper;
use derivations::Tape;
use io_edge::Files;
use script_ast::Script;
use session::{Options, Stop, run_observed};
use std::alloc::Global;
use transcript::EndWord;
use wa_base::{NoMemory, Tie};

/// Why a script has no tape.
#[derive(Clone, Copy, Debug, PartialEq, Eq)]
pub enum TapeErr {
    /// Its session did not complete, but ended so.
    NotCompleted(EndWord),
    /// Reading an asset failed.
    AssetFault,
    NoMemory,
}

impl From<NoMemory> for TapeErr {
    ghost use Rattle.std.specs.Prelude.{◌≡◌};
    ghost use Rattle.explain_top.specs.declared.tape.TapeErr.TheVariants.{NoMemory as no_memory};

    ghost from_gives = { λ _ error. error ≡ no_memory };

    fn from(_: NoMemory) -> TapeErr {
        TapeErr::NoMemory
    }
}

/// The worlds of a script's session, from its first quantum to its last. No samples are rendered.
pub fn make_tape<F: Files>(alloc: Global, script: &Script, files: &mut F) -> Result<Tape, TapeErr>
    requires { AreCallsAfter 0 script.now.calls }
    ensures tape { IfOk result (λ tape. (folder : Folder) × IsFolderOf (F.tells files.old) (F.paths files.old) folder × IsTapeOf script.now.context (session_of folder script.now) tape) }
    ensures not_completed { (end : an_end) → IsErrOf result (TapeErr.NotCompleted end) →
        (folder : Folder) × IsFolderOf (F.tells files.old) (F.paths files.old) folder × ((session_of folder script.now).end ≡ end) × (completes end ≡ false) }
    ensures tells { F.tells files.new ≡ F.tells files.old }
    ensures paths { IsTrue (F.tells files.old) → SamePaths (F.paths files.old) (F.paths files.new) }
    ensures later { F.read_faults files.old ≤ F.read_faults files.new }
    ensures writes { F.write_faults files.new ≡ F.write_faults files.old }
    ensures cause { IsErrOf result TapeErr.AssetFault → Rose (F.read_faults files.old) (F.read_faults files.new)
        × ((folder : Folder) × IsFolderOf (F.tells files.old) (F.paths files.old) folder × SessionDecodes folder script.now) }
{
    let mut keeper = Keeper::new(alloc);
    let options = Options {
        tie: Tie::Up,
        audio: false,
    };
    match run_observed(alloc, script, options, files, &mut keeper) {
        Ok(outcome) => match outcome.end {
            EndWord::Completed => Ok(keeper.into_tape()?),
            end => Err(TapeErr::NotCompleted(end)),
        },
        Err(Stop::AssetFault) => Err(TapeErr::AssetFault),
        Err(Stop::NoMemory) => Err(TapeErr::NoMemory),
    }
}
