ghost use Rattle.std.specs.Prelude.{◌≡◌, ◌<◌, ◌==◌, ℕ, true, false, length, filter, take, slice_index_or, IfOk, OnOk};
ghost use Rattle.std.specs.List.{flat_map, range_with_len};
ghost use Rattle.law_base.specs.Members.{IsIn};
ghost use Rattle.cycle_order.specs.Counts.{times};
ghost use Rattle.cycle_order.specs.Reach.{reaches_itself, IsWithin};
ghost use Rattle.cycle_order.specs.Sorting.{AreFree};

use crate::places::raise;
use crate::reaching::Arrows;
use std::alloc::Global;
use wa_base::NoMemory;

// Whether the vertices were sorted so that each arrow leads to a later one. Then no vertex reaches
// itself. Vertices are taken away with their arrows, each when no arrow leads to it any more.
pub(crate) fn are_sorted(alloc: Global, arrows: &Arrows) -> Result<bool, NoMemory>
    requires { IsWithin arrows.now }
    ensures { IfOk result (λ sorted. sorted ≡ true → (v : ℕ) → reaches_itself arrows.now v ≡ false) }
{
    let mut counts = arrow_counts(alloc, arrows)?;
    let mut free = unled(alloc, counts.as_slice())?;
    for place in 0..arrows.len() {
        if place >= free.len() {
            return Ok(false);
        }
        let vertex = free[place];
        if !take_away(arrows.part(vertex), counts.as_mut_slice(), &mut free)? {
            return Ok(false);
        }
    }
    Ok(true)
}

// For each vertex, how many arrows lead to it.
fn arrow_counts(alloc: Global, arrows: &Arrows) -> Result<Vec<usize>, NoMemory>
    requires { IsWithin arrows.now }
    ensures number { IfOk result (λ counts. length counts.items ≡ length arrows.now) }
    ensures counts { IfOk result (λ counts. (v : ℕ) → v < length arrows.now → slice_index_or counts.items v 0 ≡ times v (flat_map (λ targets. targets) arrows.now)) }
{
    let mut counts = vec![in alloc; 0; arrows.len()]?;
    raise(arrows.items(), counts.as_mut_slice());
    Ok(counts)
}

// The vertices whose count is 0.
fn unled(alloc: Global, counts: &[usize]) -> Result<Vec<usize>, NoMemory>
    ensures { IfOk result (λ free. free.items ≡ filter (λ v. slice_index_or counts.now v 0 == 0) (range_with_len 0 (length counts.now))) }
{
    let mut free = Vec::new(alloc);
    free.reserve(counts.len())?;
    for vertex in 0..counts.len() {
        if counts[vertex] == 0 {
            free.push(vertex)?;
        }
    }
    Ok(free)
}

// Takes one from the count of each vertex, as often as it is there, and lists those whose count is 0
// then. Ends with `false` at a vertex that is listed already.
fn take_away(
    targets: &[usize],
    counts: &mut [usize],
    free: &mut Vec<usize>,
) -> Result<bool, NoMemory>
    requires within { (v : ℕ) → IsIn v targets.now → v < length counts.old }
    requires free { AreFree counts.old free.old.items }
    ensures free { OnOk result (AreFree counts.new free.new.items) }
    ensures front { OnOk result (take (length free.old.items) free.new.items ≡ free.old.items) }
    ensures later { IfOk result (λ all. all ≡ true → (v : ℕ) → IsIn v targets.now → IsIn v free.old.items → ⊥) }
{
    for target in targets {
        if !take_one(*target, counts, free)? {
            return Ok(false);
        }
    }
    Ok(true)
}

// Takes one from the count of a vertex, and lists the vertex where its count is 0 then. Answers
// `false` for a vertex whose count is 0 already.
fn take_one(vertex: usize, counts: &mut [usize], free: &mut Vec<usize>) -> Result<bool, NoMemory>
    requires vertex { vertex < length counts.old }
    requires free { AreFree counts.old free.old.items }
    ensures free { OnOk result (AreFree counts.new free.new.items) }
    ensures front { OnOk result (take (length free.old.items) free.new.items ≡ free.old.items) }
    ensures later { IfOk result (λ counted. counted ≡ true → IsIn vertex free.old.items → ⊥) }
{
    let count = counts[vertex];
    if count == 0 {
        return Ok(false);
    }
    counts[vertex] = count - 1;
    if count > 1 {
        return Ok(true);
    }
    free.push(vertex)?;
    Ok(true)
}
