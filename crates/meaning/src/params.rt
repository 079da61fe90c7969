ghost use Rattle.std.specs.Prelude.{◌≡◌, map, Some, IfOk, option_and_then, slice_get};
ghost use Rattle.std.specs.List.{position};
ghost use Rattle.std.specs.List.Sorted.{IsStrictlyIncreasing};
ghost use Rattle.conn_graph.specs.Edges.{same_param};
ghost use Rattle.meaning.specs.Automation.{slot_set};
ghost use Rattle.meaning.specs.World.{find_param};
ghost use Rattle.meaning.specs.declared.params.Param.{Param as parameter};

use crate::listed::Listed;
use param_events::Timeline;
use std::alloc::Global;
use wa_base::{NoMemory, ParamId, Rate};

/// A parameter with its timeline and its automation rate (AudioParam).
#[derive(Drop)]
pub struct Param {
    pub id: ParamId,
    pub line: Timeline,
    pub rate: Rate,
}

/// The parameters of a world.
pub type Params = Listed<Param>;

impl Param {
    // Whether it is the parameter with an identity.
    fn has_id(&self, id: ParamId) -> bool
        ensures { result ≡ same_param self.now.id id }
    {
        self.id.node.0 == id.node.0 && self.id.name == id.name
    }

    // Sets the current value slot to the intrinsic value at a frame.
    fn set_slot(&mut self, first: u64)
        ensures { self.new ≡ slot_set first self.old }
    {
        self.line.mark_at(first);
    }

    // An equal parameter with memory of its own.
    fn copy(&self) -> Result<Param, NoMemory>
        ensures { IfOk result (λ copy. copy ≡ self.now) }
    {
        Ok(Param {
            id: self.id,
            line: self.line.copy()?,
            rate: self.rate,
        })
    }
}

impl Listed<Param> {
    /// The place of a parameter, by a search that halves the list at each step. A list that lacks it has
    /// none.
    pub fn find(&self, id: ParamId) -> Option<usize>
        requires { IsStrictlyIncreasing (map (λ (p : parameter). p.id.node.0) self.now.items) }
        ensures place { result ≡ position (λ (p : parameter). same_param p.id id) self.now.items }
        ensures item { option_and_then (slice_get self.now.items) result ≡ find_param self.now.items id }
    {
        place_of(self.as_slice(), id)
    }

    // Sets the current value slot of each parameter to its intrinsic value at a frame.
    pub(crate) fn set_slots(&mut self, first: u64)
        ensures { self.new.items ≡ map (slot_set first) self.old.items }
    {
        for place in 0..self.len() {
            self.at_mut(place).set_slot(first);
        }
    }

    /// A list of equal parameters, with memory of its own.
    pub fn copy(&self) -> Result<Params, NoMemory>
        ensures { IfOk result (λ copy. copy.items ≡ self.now.items) }
    {
        Ok(Listed::of(copy_all(self.alloc(), self.as_slice())?))
    }
}

// The place of a parameter, where they stand in order of their nodes.
fn place_of(params: &[Param], id: ParamId) -> Option<usize>
    requires { IsStrictlyIncreasing (map (λ (p : parameter). p.id.node.0) params.now) }
    ensures { result ≡ position (λ (p : parameter). same_param p.id id) params.now }
{
    let place = params.partition_point(|p| p.id.node.0 < id.node.0);
    if place < params.len() && params[place].has_id(id) {
        Some(place)
    } else {
        None
    }
}

// Equal parameters, in order.
fn copy_all(alloc: Global, params: &[Param]) -> Result<Vec<Param>, NoMemory>
    ensures { IfOk result (λ copies. copies.items ≡ params.now) }
{
    let mut copies = Vec::with_capacity(alloc, params.len())?;
    for param in params {
        copies.push_reserved(param.copy()?);
    }
    Ok(copies)
}
