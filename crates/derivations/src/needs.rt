ghost use Rattle.std.specs.Prelude.{◌≡◌, ℕ, List, IfSome, IfNone, OnSome};
ghost use Rattle.meaning.specs.declared.world.World.{World};
ghost use Rattle.explain.specs.declared.facts.Fact.{Fact};
ghost use Rattle.explain.specs.Facts.{IsKeyOf};
ghost use Rattle.explain.specs.Needs.{needs};
ghost use Rattle.derivations.specs.Contexts.{tape_in, IsReady, AreKnown, IsMissing};
ghost use Rattle.derivations.specs.Searched.{Searched};

use crate::counts::next_of_count;
use crate::histories::next_of_history;
use crate::inputs::{next_of_inlet, next_of_param};
use crate::outputs::next_of_output;
use crate::places::{Context, Place};
use explain::Key;
use wa_base::ParamId;

/// A walk along the needs of a key, which goes on where it was left.
#[derive(Clone, Copy)]
pub struct Search {
    pub key: Key,
    /// How far it came.
    pub place: Place,
}

impl Search {
    /// A walk that begins.
    pub fn new(key: Key) -> Search
        ensures key { result.key ≡ key }
        ensures searched { (q : ℕ) (tape : List World) (facts : List Fact) → Searched q tape facts result }
    {
        Search {
            key,
            place: Place::FIRST,
        }
    }

    /// The first need of the key that stands in no fact. The walk stays before it. `None` is its end:
    /// all needs stand.
    ///
    /// What was found to stand is not looked up again, so a key with so many needs takes about so many
    /// look-ups in all, however often it is asked.
    pub fn next_missing(&mut self, context: Context<'_>) -> Option<Key>
        requires ready { IsReady context }
        requires key { IsKeyOf context.quantum (tape_in context) self.old.key }
        requires searched { Searched context.quantum (tape_in context) context.known.now self.old }
        ensures none { IfNone result (AreKnown context.entry (λ q tape a. needs q tape a self.old.key)) }
        ensures some { IfSome result (IsMissing context.entry (λ q tape a. needs q tape a self.old.key)) }
        ensures searched { OnSome result (Searched context.entry.quantum (tape_in context.entry) context.entry.known.now self.new) }
        ensures same { self.new.key ≡ self.old.key }
    {
        let place = &mut self.place;
        match self.key {
            Key::Count { quantum, end, .. } => next_of_count(context, quantum, end, place),
            Key::Inlet {
                frame,
                end,
                input,
                ..
            } => next_of_inlet(context, frame, end.node, input, place),
            Key::Par { frame, node, name } => {
                next_of_param(context, frame, ParamId { node, name }, place)
            }
            Key::Hist {
                frame,
                node,
                channel,
            } => next_of_history(context, frame, node, channel, place),
            Key::Out {
                frame,
                end,
                output,
                channel,
            } => next_of_output(context, frame, end, output, channel, place),
        }
    }
}
