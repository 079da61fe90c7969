ghost use Rattle.std.specs.Prelude.{◌≡◌, IfOk};
ghost use Rattle.script_ast.specs.WellFormed.{IsWellFormed};
ghost use Rattle.prune_script.specs.Pruned as spec;

use crate::deeds::deeds;
use crate::keeping::kept;
use crate::live::heard;
use script_ast::Script;
use std::alloc::Global;
use transcript::Lines;
use wa_base::NoMemory;

/// What is left of a script without the calls that are not heard, by the lines of its session.
///
/// The destination is live, and each node that an accepted call ever connected to a live node or to a
/// parameter of one. Left out are the calls that were refused or never made, those that only read,
/// those that name or create a node that is not live, each with the calls that it holds, and the list
/// of `startRendering`. The others keep their order, and are numbered anew with their holders.
pub fn pruned(alloc: Global, script: Script, lines: &Lines) -> Result<Script, NoMemory>
    requires { IsWellFormed script }
    ensures script { IfOk result (λ part. part ≡ spec.pruned script lines.now.items) }
    ensures well_formed { IfOk result IsWellFormed }
{
    let Script { context, calls } = script;
    let count = calls.len() + 1;
    let deeds = deeds(alloc, calls.as_slice(), lines.as_slice())?;
    let heard = heard(alloc, deeds.as_slice(), count)?;
    let calls = kept(alloc, calls, heard.as_slice())?;
    Ok(Script { context, calls })
}
