ghost use Rattle.std.specs.Prelude.{◌≡◌, ◌<◌, ◌==◌, ℕ, map, length, slice_index_or, IfOk};
ghost use Rattle.std.specs.List.{list_any};
ghost use Rattle.law_base.specs.Members.{IsIn};
ghost use Rattle.cycle_order.specs.Reach.{vertices, reaches_itself, IsWithin};

use crate::parts::Parts;
use crate::passes::leaders;
use crate::sorting::are_sorted;
use std::alloc::Global;
use wa_base::NoMemory;

// For each vertex of a graph, the vertices that its arrows lead to.
pub(crate) type Arrows = Parts<usize>;

// For each vertex, whether it reaches itself by one or more arrows.
pub(crate) fn on_cycles(alloc: Global, arrows: &Arrows) -> Result<Vec<bool>, NoMemory>
    requires { IsWithin arrows.now }
    ensures { IfOk result (λ marks. marks.items ≡ map (reaches_itself arrows.now) (vertices arrows.now)) }
{
    if are_sorted(alloc, arrows)? {
        let marks = vec![in alloc; false; arrows.len()]?;
        return Ok(marks);
    }
    led_back(alloc, arrows)
}

// The same by the vertices' leaders: one of the vertex's arrows leads to a vertex with its own leader.
fn led_back(alloc: Global, arrows: &Arrows) -> Result<Vec<bool>, NoMemory>
    requires { IsWithin arrows.now }
    ensures { IfOk result (λ marks. marks.items ≡ map (reaches_itself arrows.now) (vertices arrows.now)) }
{
    let leaders = leaders(alloc, arrows)?;
    let mut marks = Vec::new(alloc);
    for v in 0..arrows.len() {
        let own = leaders[v];
        marks.push(is_led(arrows.part(v), leaders.as_slice(), own))?;
    }
    Ok(marks)
}

// Whether one of some vertices has this leader.
fn is_led(targets: &[usize], leaders: &[usize], leader: usize) -> bool
    requires { (v : ℕ) → IsIn v targets.now → v < length leaders.now }
    ensures { result ≡ list_any (λ v. slice_index_or leaders.now v 0 == leader) targets.now }
{
    for v in targets {
        if leaders[*v] == leader {
            return true;
        }
    }
    false
}
