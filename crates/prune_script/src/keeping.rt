ghost use Rattle.std.specs.Prelude.{◌≡◌, ◌<◌, ◌+◌, ◌^◌, ◌∷◌, ℕ, List, [], length, map, slice_index_or, if◌then◌else◌, IfOk};
ghost use Rattle.script_ast.specs.WellFormed.{AreCallsAfter};
ghost use Rattle.prune_script.specs.Keeping.{TellsHeard};
ghost use Rattle.prune_script.specs.Live.{is_marked};
ghost use Rattle.prune_script.specs.Pruned.{kept_calls, renumbered};

use crate::operations::is_start;
use script_ast::{Call, Calls};
use std::alloc::Global;
use wa_base::NoMemory;

// The calls that are heard and stand in the main list or in the list of a kept call, in their order and
// numbered anew with their holders.
pub(crate) fn kept(alloc: Global, calls: Calls, heard: &[bool]) -> Result<Calls, NoMemory>
    requires calls { AreCallsAfter 0 calls }
    requires heard { length heard.now ≡ length calls + 1 }
    ensures { IfOk result (λ kept. (ordinals : List ℕ) → TellsHeard ordinals heard.now → kept ≡ map (renumbered (kept_calls ordinals (0 ∷ []) calls)) (kept_calls ordinals (0 ∷ []) calls)) }
{
    let mut kept = Vec::new(alloc);
    // for each ordinal, the place of its call among the kept ones, where calls of its list are kept; and
    // 0 for the main list
    let mut places = vec![in alloc; None; heard.len()]?;
    places[0] = Some(0);
    for call in Vec::from(calls) {
        match list_place(&call, heard, places.as_slice()) {
            Some(holder) => {
                let ordinal = kept.len() as u32 + 1;
                if !is_start(&call.op) {
                    places[call.ordinal as usize] = Some(ordinal);
                }
                kept.push(numbered(call, ordinal, holder))?;
            }
            None => drop(call),
        }
    }
    Ok(Calls::from(kept))
}

// The place of the list in which a call is kept, if it is heard and calls of its list are kept.
fn list_place(call: &Call, heard: &[bool], places: &[Option<u32>]) -> Option<u32>
    requires ordinal { call.now.ordinal < length heard.now }
    requires holder { call.now.holder < length places.now }
    ensures place { result ≡ (if is_marked heard.now call.now.ordinal then slice_index_or places.now call.now.holder None else None) }
    ensures range { call.now.ordinal < 2 ^ 32 }
{
    if heard[call.ordinal as usize] {
        places[call.holder as usize]
    } else {
        None
    }
}

// A call with another ordinal and another holder.
fn numbered(call: Call, ordinal: u32, holder: u32) -> Call
    ensures { result ≡ record call { ordinal = ordinal; holder = holder } }
{
    Call {
        ordinal,
        holder,
        op: call.op,
    }
}
