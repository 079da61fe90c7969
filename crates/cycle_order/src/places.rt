ghost use Rattle.std.specs.Prelude.{◌≡◌, ◌<◌, ◌≤◌, ◌+◌, ◌^◌, ◌==◌, ◌&&◌, ◌||◌, ℕ, false, length, nat_lt, slice_index_or, IfOk, IfNone, IfSome, OnOk};
ghost use Rattle.std.specs.List.{list_any};
ghost use Rattle.wa_base.specs.declared.graph_names.End.{End};
ghost use Rattle.law_base.specs.Members.{IsIn};
ghost use Rattle.cycle_order.specs.Arrows.{leads_to_end, vertex_of};
ghost use Rattle.cycle_order.specs.Choices as spec;
ghost use Rattle.cycle_order.specs.Counts.{times, entering, total, bias, holds, AreRising, IsTaken};
ghost use Rattle.cycle_order.specs.Reach.{IsWithin};

use crate::arrows::vertex_of;
use crate::reaching::Arrows;
use crate::surveys::Ends;
use std::alloc::Global;
use std::collections::BTreeSet;
use wa_base::{End, NoMemory, NodeId, Tie};

// Places the ends, each as soon as all that lead to it are placed. Among the ends that are ready
// the tie chooses.
pub(crate) fn place_all(
    alloc: Global,
    arrows: &Arrows,
    ends: &[End],
    tie: Tie,
) -> Result<Ends, NoMemory>
    requires within { IsWithin arrows.now }
    requires vertices { length arrows.now < 2 ^ 33 }
    requires few { total arrows.now ≤ 2 ^ 40 }
    requires rising { AreRising 0 ends.now }
    requires ends { (e : End) → IsIn e ends.now → vertex_of e < length arrows.now }
    ensures { IfOk result (λ placed. placed ≡ spec.places_from (leads_to_end arrows.now) tie (length ends.now) ends.now) }
{
    let mut counts = counts_of(alloc, arrows, ends)?;
    let mut ready = first_ready(alloc, ends, counts.as_slice())?;
    let mut placed = Ends::new(alloc);
    while let Some(vertex) = take_next(&mut ready, tie) {
        placed.push(end_at(vertex))?;
        release(arrows.part(vertex), counts.as_mut_slice(), &mut ready)?;
    }
    Ok(placed)
}

// The end with this vertex.
fn end_at(vertex: usize) -> End
    requires { vertex < 2 ^ 33 }
    ensures { (e : End) → vertex_of e ≡ vertex → result ≡ e }
{
    End {
        node: NodeId((vertex / 2) as u32),
        writer: vertex % 2 == 0,
    }
}

// For each vertex, how many arrows lead to it from these ends, and one more where it is the vertex
// of none of them.
fn counts_of(alloc: Global, arrows: &Arrows, ends: &[End]) -> Result<Vec<usize>, NoMemory>
    requires within { IsWithin arrows.now }
    requires few { total arrows.now ≤ 2 ^ 40 }
    requires rising { AreRising 0 ends.now }
    requires ends { (e : End) → IsIn e ends.now → vertex_of e < length arrows.now }
    ensures number { IfOk result (λ counts. length counts.items ≡ length arrows.now) }
    ensures counts { IfOk result (λ counts. (v : ℕ) → v < length arrows.now → slice_index_or counts.items v 0 ≡ bias ends.now v + entering arrows.now ends.now v) }
{
    let mut counts = biases(alloc, ends, arrows.len())?;
    for end in ends {
        raise(arrows.part(vertex_of(*end)), counts.as_mut_slice());
    }
    Ok(counts)
}

fn biases(alloc: Global, ends: &[End], vertices: usize) -> Result<Vec<usize>, NoMemory>
    requires { (e : End) → IsIn e ends.now → vertex_of e < vertices }
    ensures number { IfOk result (λ counts. length counts.items ≡ vertices) }
    ensures counts { IfOk result (λ counts. (v : ℕ) → v < vertices → slice_index_or counts.items v 0 ≡ bias ends.now v) }
{
    let mut counts = vec![in alloc; 1; vertices]?;
    for end in ends {
        counts[vertex_of(*end)] = 0;
    }
    Ok(counts)
}

// Adds one to the count of each vertex, as often as it is there.
pub(crate) fn raise(targets: &[usize], counts: &mut [usize])
    requires within { (v : ℕ) → IsIn v targets.now → v < length counts.old }
    requires fits { (v : ℕ) → v < length counts.old → slice_index_or counts.old v 0 + times v targets.now < 2 ^ 64 }
    ensures { (v : ℕ) → v < length counts.old → slice_index_or counts.new v 0 ≡ slice_index_or counts.old v 0 + times v targets.now }
{
    for target in targets {
        counts[*target] += 1;
    }
}

// The vertices of the ends whose count is 0.
fn first_ready(alloc: Global, ends: &[End], counts: &[usize]) -> Result<BTreeSet<usize>, NoMemory>
    requires { (e : End) → IsIn e ends.now → vertex_of e < length counts.now }
    ensures { IfOk result (λ ready. (v : ℕ) → holds ready v ≡ list_any (λ e. vertex_of e == v && slice_index_or counts.now (vertex_of e) 0 == 0) ends.now) }
{
    let mut ready = BTreeSet::new(alloc);
    for end in ends {
        let vertex = vertex_of(*end);
        if counts[vertex] == 0 {
            ready.insert(vertex)?;
        }
    }
    Ok(ready)
}

// Takes the least or the greatest vertex out of the set, as the tie says.
fn take_next(ready: &mut BTreeSet<usize>, tie: Tie) -> Option<usize>
    ensures none { IfNone result ((v : ℕ) → holds ready.old v ≡ false) }
    ensures some { IfSome result (λ v. IsTaken tie ready.old ready.new v) }
{
    match tie {
        Tie::Up => ready.pop_first(),
        Tie::Down => ready.pop_last(),
    }
}

// Takes one from the count of each vertex, as often as it is there. Those whose count is 0 then are
// ready.
fn release(
    targets: &[usize],
    counts: &mut [usize],
    ready: &mut BTreeSet<usize>,
) -> Result<(), NoMemory>
    requires within { (v : ℕ) → IsIn v targets.now → v < length counts.old }
    requires enough { (v : ℕ) → v < length counts.old → times v targets.now ≤ slice_index_or counts.old v 0 }
    ensures counts { OnOk result ((v : ℕ) → v < length counts.old → slice_index_or counts.new v 0 + times v targets.now ≡ slice_index_or counts.old v 0) }
    ensures ready { OnOk result ((v : ℕ) → holds ready.new v ≡ (holds ready.old v || (nat_lt 0 (times v targets.now) && slice_index_or counts.new v 0 == 0))) }
{
    for target in targets {
        counts[*target] -= 1;
        if counts[*target] == 0 {
            ready.insert(*target)?;
        }
    }
    Ok(())
}
