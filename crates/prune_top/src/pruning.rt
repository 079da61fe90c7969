ghost use Rattle.std.specs.Prelude.{◌≡◌, ◌≤◌, length, false, IfOk, IsErrOf, IsTrue};
ghost use Rattle.io_edge.specs.Faults.{Rose};
ghost use Rattle.io_edge.specs.Paths.{SamePaths};
ghost use Rattle.script_ast.specs.WellFormed.{IsWellFormed};
ghost use Rattle.transcript.specs.declared.lines.EndWord.{EndWord as an_end};
ghost use Rattle.session.specs.Folders.{Folder, IsFolderOf};
ghost use Rattle.session.specs.Rendering.{completes};
ghost use Rattle.session.specs.Session.{session_of, SessionDecodes};
ghost use Rattle.prune_top.specs.Pruning.{IsPrunedOf};

use io_edge::Files;
use prune_script::pruned;
use script_ast::Script;
use session::{Options, Stop, run};
use std::alloc::Global;
use transcript::EndWord;
use wa_base::{NoMemory, Tie};

/// A pruned script, and how many calls it kept of those of the whole one.
#[derive(Drop)]
pub struct Pruned {
    pub script: Script,
    pub kept: usize,
    pub of: usize,
}

/// Why a script is not pruned.
#[derive(Clone, Copy, Debug, PartialEq, Eq)]
pub enum PruneErr {
    /// Its session did not complete, but ended so.
    NotCompleted(EndWord),
    /// Reading an asset failed.
    AssetFault,
    NoMemory,
}

impl From<NoMemory> for PruneErr {
    ghost use Rattle.std.specs.Prelude.{◌≡◌};
    ghost use Rattle.prune_top.specs.declared.pruning.PruneErr.TheVariants.{NoMemory as no_memory};

    ghost from_gives = { λ _ error. error ≡ no_memory };

    fn from(_: NoMemory) -> PruneErr {
        PruneErr::NoMemory
    }
}

/// Leaves out of a script what is not heard, by the lines of its session, which is replayed without a
/// sample over the assets among the files. What is left sounds as the whole (`pruned_law`).
pub fn prune<F: Files>(alloc: Global, script: Script, files: &mut F) -> Result<Pruned, PruneErr>
    requires { IsWellFormed script }
    ensures pruned { IfOk result (λ part. (folder : Folder) × IsFolderOf (F.tells files.old) (F.paths files.old) folder × IsPrunedOf script (session_of folder script) part) }
    ensures formed { IfOk result (λ part. IsWellFormed part.script) }
    ensures not_completed { (end : an_end) → IsErrOf result (PruneErr.NotCompleted end) →
        (folder : Folder) × IsFolderOf (F.tells files.old) (F.paths files.old) folder × ((session_of folder script).end ≡ end) × (completes end ≡ false) }
    ensures tells { F.tells files.new ≡ F.tells files.old }
    ensures paths { IsTrue (F.tells files.old) → SamePaths (F.paths files.old) (F.paths files.new) }
    ensures later { F.read_faults files.old ≤ F.read_faults files.new }
    ensures writes { F.write_faults files.new ≡ F.write_faults files.old }
    ensures cause { IsErrOf result PruneErr.AssetFault → Rose (F.read_faults files.old) (F.read_faults files.new)
        × ((folder : Folder) × IsFolderOf (F.tells files.old) (F.paths files.old) folder × SessionDecodes folder script) }
{
    let options = Options {
        tie: Tie::Up,
        audio: false,
    };
    let of = script.calls.len();
    match run(alloc, &script, options, files) {
        Ok(outcome) => match outcome.end {
            EndWord::Completed => {
                let script = pruned(alloc, script, &outcome.lines)?;
                let kept = script.calls.len();
                Ok(Pruned { script, kept, of })
            }
            end => Err(PruneErr::NotCompleted(end)),
        },
        Err(Stop::AssetFault) => Err(PruneErr::AssetFault),
        Err(Stop::NoMemory) => Err(PruneErr::NoMemory),
    }
}
