ghost use Rattle.std.specs.Prelude.{◌≡◌, ◌<◌, ◌∷◌, [], ℕ, length, slice_set, slice_index_or, IfOk, OnOk};
ghost use Rattle.law_base.specs.Members.{IsIn};
ghost use Rattle.cycle_order.specs.Reach.{IsMarking};

use std::alloc::Global;
use std::marker::Model;
use wa_base::NoMemory;

// An arrow turned round: where it comes from, and the next one that leads to the same vertex.
#[derive(Clone, Copy)]
struct Link {
    from: usize,
    behind: Option<usize>,
}

// Arrows turned round. Contracts see them as a list: for each vertex, those that an arrow leads from.
#[derive(Drop)]
pub(crate) struct Turned {
    links: Vec<Link>,
    // for each vertex, the last arrow that leads to it
    firsts: Vec<Option<usize>>,
}

impl Model for Turned {
    ghost use Rattle.std.specs.Prelude.{List, ℕ};
    ghost use Rattle.cycle_order.specs.Links.{sources, AreLinked};

    ghost Value = { List (List ℕ) };

    ghost view = { λ t. sources t.links.items t.firsts.items };

    ghost invariant = { λ t. AreLinked t.links.items t.firsts.items };
}

impl Turned {
    // So many vertices, and no arrow.
    pub(crate) fn new(alloc: Global, vertices: usize) -> Result<Turned, NoMemory>
        ensures number { IfOk result (λ turned. length turned ≡ vertices) }
        ensures none { IfOk result (λ turned. (v : ℕ) → slice_index_or turned v [] ≡ []) }
    {
        let firsts = vec![in alloc; None; vertices]?;
        let links = Vec::new(alloc);
        Ok(Turned { links, firsts })
    }

    // Adds an arrow.
    pub(crate) fn push(&mut self, from: usize, to: usize) -> Result<(), NoMemory>
        requires { to < length self.old }
        ensures { OnOk result (self.new ≡ slice_set self.old to (from ∷ slice_index_or self.old to [])) }
    {
        let link = Link {
            from,
            behind: self.firsts[to],
        };
        let key = self.links.len();
        self.links.push(link)?;
        self.firsts[to] = Some(key);
        Ok(())
    }

    // Marks the vertices that an arrow leads from to this one. Those that were not marked before go
    // onto the end of a list.
    pub(crate) fn mark_fresh(
        &self,
        to: usize,
        marks: &mut [bool],
        found: &mut Vec<usize>,
    ) -> Result<(), NoMemory>
        requires to { to < length self.now }
        requires within { (v : ℕ) → IsIn v (slice_index_or self.now to []) → v < length marks.old }
        ensures { OnOk result (IsMarking (slice_index_or self.now to []) marks.old found.old.items marks.new found.new.items) }
    {
        let mut at = self.firsts[to];
        while let Some(key) = at {
            let link = self.links[key];
            if !marks[link.from] {
                marks[link.from] = true;
                found.push(link.from)?;
            }
            at = link.behind;
        }
        Ok(())
    }
}
