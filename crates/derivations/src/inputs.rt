ghost use Rattle.std.specs.Prelude.{◌≡◌, ◌<◌, ◌*◌, ◌/◌, ◌^◌, length, if◌then◌else◌, IfSome, IfNone, OnSome};
ghost use Rattle.meaning.specs.Validity.{IsValid};
ghost use Rattle.meaning.specs.World.{sounding, is_k as is_rate_k, is_k_rate as has_k_rate};
ghost use Rattle.derivations.specs.Groups.{inlet_group, param_group};
ghost use Rattle.derivations.specs.Contexts.{tape_in, world_of, IsReady, HasFrame, AreAllKnown, IsMissingIn, IsPast};
ghost use Rattle.derivations.specs.Stretches.{IsInForce};

use crate::led::next_led;
use crate::places::{Context, Place};
use crate::tape::Stretch;
use conn_graph::Target;
use explain::Key;
use meaning::World;
use wa_base::{NodeId, ParamId, Rate};

impl<'a> Context<'a> {
    /// The piece that is in force in a quantum.
    pub fn piece(self, quantum: u64) -> &'a Stretch
        requires { quantum < length (tape_in self) }
        ensures piece { IsInForce (tape_in self.entry) quantum result.now }
        ensures few { quantum < 2 ^ 62 }
    {
        match self.tape.at(quantum) {
            Some(stretch) => stretch,
            None => unreachable!(),
        }
    }

    /// The piece that is in force at a frame.
    pub fn piece_at(self, frame: u64) -> &'a Stretch
        requires ready { IsReady self }
        requires frame { HasFrame self frame }
        ensures { IsInForce (tape_in self.entry) (frame / self.entry.quantum) result.now }
    {
        self.piece(frame / u64::from(self.quantum))
    }
}

// The first need of an input that is missing: what its connections carry.
pub(crate) fn next_of_inlet(
    context: Context<'_>,
    frame: u64,
    node: NodeId,
    input: u32,
    place: &mut Place,
) -> Option<Key>
    requires ready { IsReady context }
    requires there { HasFrame context frame }
    requires node { node.0 < length (world_of context frame).nodes }
    requires before { IsPast context (λ q tape a. inlet_group q tape a frame node.0 input) place.old }
    ensures none { IfNone result (AreAllKnown context.entry (λ q tape a. inlet_group q tape a frame node.0 input)) }
    ensures some { IfSome result (IsMissingIn context.entry (λ q tape a. inlet_group q tape a frame node.0 input)) }
    ensures after { OnSome result (IsPast context.entry (λ q tape a. inlet_group q tape a frame node.0 input) place.new) }
{
    let stretch = context.piece_at(frame);
    let edges = stretch.marks.into.part(node.0 as usize);
    next_led(context, frame, Target::Input { node, input }, edges, place)
}

// The first need of a parameter that is missing: what its connections carry.
pub(crate) fn next_of_param(
    context: Context<'_>,
    frame: u64,
    id: ParamId,
    place: &mut Place,
) -> Option<Key>
    requires ready { IsReady context }
    requires there { HasFrame context frame }
    requires node { id.node.0 < length (world_of context frame).nodes }
    requires before { IsPast context (λ q tape a. param_group q tape a frame id.node.0 id.name) place.old }
    ensures none { IfNone result (AreAllKnown context.entry (λ q tape a. param_group q tape a frame id.node.0 id.name)) }
    ensures some { IfSome result (IsMissingIn context.entry (λ q tape a. param_group q tape a frame id.node.0 id.name)) }
    ensures after { OnSome result (IsPast context.entry (λ q tape a. param_group q tape a frame id.node.0 id.name) place.new) }
{
    let stretch = context.piece_at(frame);
    let edges = stretch.marks.into.part(id.node.0 as usize);
    let taken = param_frame(context.quantum, &stretch.piece.world, frame, id);
    next_led(context, taken, Target::Param(id), edges, place)
}

/// The frame at which a parameter takes its connections: at k-rate the first of the quantum.
pub fn param_frame(quantum: u32, world: &World, frame: u64, id: ParamId) -> u64
    requires some { 0 < quantum }
    requires valid { IsValid world.now }
    ensures { result ≡ (if has_k_rate (sounding world.now) id then quantum * (frame / quantum) else frame) }
{
    let quantum = u64::from(quantum);
    if is_k_rate(world, id) {
        quantum * (frame / quantum)
    } else {
        frame
    }
}

// Whether a parameter is taken once in a quantum.
fn is_k_rate(world: &World, id: ParamId) -> bool
    requires { IsValid world.now }
    ensures { result ≡ has_k_rate (sounding world.now) id }
{
    match world.params.find(id) {
        Some(place) => is_k(world.params.at(place).rate),
        None => false,
    }
}

fn is_k(rate: Rate) -> bool
    ensures { result ≡ is_rate_k rate }
{
    match rate {
        Rate::A => false,
        Rate::K => true,
    }
}
