ghost use Rattle.std.specs.Prelude.{◌≡◌, ◌<◌, ◌≤◌, ◌+◌, ◌*◌, ◌∷◌, ◌++◌, ◌↔◌, ◌⊎◌, [], ℕ, true, false, length, slice_index_or, IfOk, OnOk};
ghost use Rattle.law_base.specs.Members.{IsIn};
ghost use Rattle.cycle_order.specs.Passes.{IsFinish, IsPassing, IsTurned, IsTree, IsWay, AreLeaders, unfollowed};
ghost use Rattle.cycle_order.specs.Reach.{is_marked, IsWithin};

use crate::reaching::Arrows;
use crate::turned::Turned;
use std::alloc::Global;
use wa_base::NoMemory;

// A depth-first pass along the arrows.
#[derive(Drop)]
struct Pass {
    // the vertices that are met
    marks: Vec<bool>,
    // for each vertex, how many of its arrows are followed
    next: Vec<usize>,
    // the vertices that are met and not finished, each led to by the one below it
    stack: Vec<usize>,
    // the finished vertices
    order: Vec<usize>,
}

impl Pass {
    fn new(alloc: Global, vertices: usize) -> Result<Pass, NoMemory>
        ensures marks { IfOk result (λ pass. (v : ℕ) → is_marked pass.marks.items v ≡ false) }
        ensures number { IfOk result (λ pass. length pass.marks.items ≡ vertices) }
        ensures nexts { IfOk result (λ pass. length pass.next.items ≡ vertices) }
        ensures next { IfOk result (λ pass. (v : ℕ) → slice_index_or pass.next.items v 0 ≡ 0) }
        ensures stack { IfOk result (λ pass. pass.stack.items ≡ []) }
        ensures order { IfOk result (λ pass. pass.order.items ≡ []) }
    {
        Ok(Pass {
            marks: vec![in alloc; false; vertices]?,
            next: vec![in alloc; 0; vertices]?,
            stack: Vec::new(alloc),
            order: Vec::new(alloc),
        })
    }

    // Meets a vertex, if it is not met.
    fn visit(&mut self, arrows: &Arrows, vertex: usize) -> Result<(), NoMemory>
        requires vertex { vertex < length arrows.now }
        requires ways { (g : ℕ) → IsIn g self.old.stack.items → IsWay arrows.now g vertex }
        requires passing { IsPassing arrows.now self.old.marks.items self.old.next.items self.old.stack.items self.old.order.items }
        ensures passing { OnOk result (IsPassing arrows.now self.new.marks.items self.new.next.items self.new.stack.items self.new.order.items) }
        ensures marked { OnOk result (is_marked self.new.marks.items vertex ≡ true) }
        ensures kept { OnOk result ((v : ℕ) → is_marked self.old.marks.items v ≡ true → is_marked self.new.marks.items v ≡ true) }
        ensures next { OnOk result (self.new.next.items ≡ self.old.next.items) }
        ensures stack { OnOk result (length self.new.stack.items ≤ length self.old.stack.items + 1) }
    {
        if self.marks[vertex] {
            return Ok(());
        }
        self.marks[vertex] = true;
        self.stack.push(vertex)?;
        Ok(())
    }

    // Follows the next arrow of the vertex that was on top of the stack, or finishes the vertex.
    fn step(&mut self, arrows: &Arrows, vertex: usize) -> Result<(), NoMemory>
        requires within { IsWithin arrows.now }
        requires passing { IsPassing arrows.now self.old.marks.items self.old.next.items (self.old.stack.items ++ vertex ∷ []) self.old.order.items }
        ensures passing { OnOk result (IsPassing arrows.now self.new.marks.items self.new.next.items self.new.stack.items self.new.order.items) }
        ensures less { OnOk result (2 * unfollowed arrows.now self.new.next.items + length self.new.stack.items ≤ 2 * unfollowed arrows.now self.old.next.items + length self.old.stack.items) }
        ensures kept { OnOk result ((v : ℕ) → is_marked self.old.marks.items v ≡ true → is_marked self.new.marks.items v ≡ true) }
    {
        let first = self.next[vertex];
        let targets = arrows.part(vertex);
        if first < targets.len() {
            self.stack.push(vertex)?;
            self.visit(arrows, targets[first])?;
            self.next[vertex] = first + 1;
        } else {
            self.order.push(vertex)?;
        }
        Ok(())
    }

    // Goes on from a vertex until it is finished, with all that it leads to.
    fn finish_from(&mut self, arrows: &Arrows, start: usize) -> Result<(), NoMemory>
        requires within { IsWithin arrows.now }
        requires start { start < length arrows.now }
        requires empty { self.old.stack.items ≡ [] }
        requires passing { IsPassing arrows.now self.old.marks.items self.old.next.items self.old.stack.items self.old.order.items }
        ensures passing { OnOk result (IsPassing arrows.now self.new.marks.items self.new.next.items self.new.stack.items self.new.order.items) }
        ensures empty { OnOk result (self.new.stack.items ≡ []) }
        ensures start { OnOk result (is_marked self.new.marks.items start ≡ true) }
        ensures kept { OnOk result ((v : ℕ) → is_marked self.old.marks.items v ≡ true → is_marked self.new.marks.items v ≡ true) }
    {
        self.visit(arrows, start)?;
        while let Some(vertex) = self.stack.pop() {
            self.step(arrows, vertex)?;
        }
        Ok(())
    }
}

// The vertices in the order in which a depth-first pass along the arrows finishes them.
fn finish_order(alloc: Global, arrows: &Arrows) -> Result<Vec<usize>, NoMemory>
    requires { IsWithin arrows.now }
    ensures { IfOk result (λ order. IsFinish arrows.now order.items) }
{
    let mut pass = Pass::new(alloc, arrows.len())?;
    for start in 0..arrows.len() {
        if !pass.marks[start] {
            pass.finish_from(arrows, start)?;
        }
    }
    Ok(pass.order)
}

// The arrows turned round.
fn turned(alloc: Global, arrows: &Arrows) -> Result<Turned, NoMemory>
    requires { IsWithin arrows.now }
    ensures { IfOk result (λ back. IsTurned arrows.now back) }
{
    let mut back = Turned::new(alloc, arrows.len())?;
    for vertex in 0..arrows.len() {
        turn(arrows.part(vertex), vertex, &mut back)?;
    }
    Ok(back)
}

// Adds an arrow to the vertex from each of its targets.
fn turn(targets: &[usize], vertex: usize, back: &mut Turned) -> Result<(), NoMemory>
    requires { (v : ℕ) → IsIn v targets.now → v < length back.old }
    ensures number { OnOk result (length back.new ≡ length back.old) }
    ensures arrows { OnOk result ((b a : ℕ) → IsIn a (slice_index_or back.new b []) ↔ (IsIn a (slice_index_or back.old b []) ⊎ ((a ≡ vertex) × IsIn b targets.now))) }
{
    for target in targets {
        back.push(vertex, *target)?;
    }
    Ok(())
}

// Makes a list that of the vertices that the root reaches and that are not marked. They are marked
// then.
fn gather(
    back: &Turned,
    root: usize,
    marks: &mut [bool],
    tree: &mut Vec<usize>,
) -> Result<(), NoMemory>
    requires within { IsWithin back.now }
    requires root { root < length back.now }
    requires number { length marks.old ≡ length back.now }
    requires fresh { is_marked marks.old root ≡ false }
    ensures { OnOk result (IsTree back.now root marks.old marks.new tree.new.items) }
{
    tree.clear();
    tree.push(root)?;
    marks[root] = true;
    let mut first = 0;
    while first < tree.len() {
        back.mark_fresh(tree[first], marks, tree)?;
        first += 1;
    }
    Ok(())
}

fn lead(root: usize, tree: &[usize], leaders: &mut [usize])
    requires { (v : ℕ) → IsIn v tree.now → v < length leaders.old }
    ensures tree { (v : ℕ) → IsIn v tree.now → slice_index_or leaders.new v 0 ≡ root }
    ensures others { (v : ℕ) → (IsIn v tree.now → ⊥) → slice_index_or leaders.new v 0 ≡ slice_index_or leaders.old v 0 }
{
    for vertex in tree {
        leaders[*vertex] = root;
    }
}

// For each vertex its leader: the same one for two vertices that reach each other. A search against
// the arrows goes out from the vertices, the one that was finished last first.
pub(crate) fn leaders(alloc: Global, arrows: &Arrows) -> Result<Vec<usize>, NoMemory>
    requires { IsWithin arrows.now }
    ensures { IfOk result (λ leaders. AreLeaders arrows.now leaders.items) }
{
    let mut order = finish_order(alloc, arrows)?;
    let back = turned(alloc, arrows)?;
    let mut marks = vec![in alloc; false; arrows.len()]?;
    let mut leaders = vec![in alloc; 0; arrows.len()]?;
    let mut tree = Vec::new(alloc);
    while let Some(root) = order.pop() {
        if !marks[root] {
            gather(&back, root, marks.as_mut_slice(), &mut tree)?;
            lead(root, tree.as_slice(), leaders.as_mut_slice());
        }
    }
    Ok(leaders)
}
