ghost use Rattle.std.specs.Prelude.{◌≡◌, ◌++◌, ◌∷◌, [], length, IfSome, IfNone, OnOk, OnErr};
ghost use Rattle.law_base.specs.Members.{IsIn};
ghost use Rattle.explain.specs.Checked.{Stands};
ghost use Rattle.conn_graph.specs.Ends.{reader_of};
ghost use Rattle.derivations.specs.Names as spec;

use explain::{Fact, Key};
use std::alloc::Global;
use std::collections::HashMap;
use std::marker::Model;
use wa_base::{End, NoMemory, NodeId, ParamName};

// The numbers by which facts are found. No two keys have the same ones.
#[derive(Clone, Copy, PartialEq, Eq, Hash)]
pub(crate) struct Name {
    pub(crate) form: u8,
    // a quantum or a frame
    pub(crate) moment: u64,
    pub(crate) node: u32,
    pub(crate) writer: bool,
    // an input, an output or the number of a parameter
    pub(crate) port: u32,
    pub(crate) channel: u32,
}

/// The facts that are known so far. Contracts see it as the list of the facts in their order.
#[derive(Drop)]
pub struct Known {
    facts: Vec<Fact>,
    // where the last fact with a name stands
    places: HashMap<Name, usize>,
}

impl Model for Known {
    ghost use Rattle.std.specs.Prelude.{List};
    ghost use Rattle.explain.specs.declared.facts.Fact.{Fact};
    ghost use Rattle.derivations.specs.Places.{ArePlaces};

    ghost Value = { List Fact };

    ghost view = { λ k. k.facts.items };

    ghost invariant = { λ k. ArePlaces k.facts.items k.places };
}

impl Known {
    /// No facts. It takes no memory until it grows.
    pub fn new(alloc: Global) -> Known
        ensures { result ≡ [] }
    {
        Known {
            facts: Vec::new(alloc),
            places: HashMap::new(alloc),
        }
    }

    /// Appends a fact. After `NoMemory` the facts are as before.
    pub fn push(&mut self, fact: Fact) -> Result<(), NoMemory>
        ensures ok { OnOk result (self.new ≡ self.old ++ fact ∷ []) }
        ensures err { OnErr result (self.new ≡ self.old) }
    {
        self.facts.reserve(1)?;
        let place = self.facts.len();
        self.places.insert(name_of(fact.key), place)?;
        self.facts.push_reserved(fact);
        Ok(())
    }

    /// A fact with a key, if one is known, by a look-up that takes the same time however many there
    /// are.
    pub fn find(&self, key: Key) -> Option<Fact>
        ensures found { IfSome result (λ fact. IsIn fact self.now × (fact.key ≡ key)) }
        ensures none { IfNone result (Stands key self.now → ⊥) }
    {
        let place = *self.places.get(&name_of(key))?;
        Some(self.facts[place])
    }

    /// The number of facts.
    pub fn len(&self) -> usize
        ensures { result ≡ length self.now }
    {
        self.facts.len()
    }

    /// The facts in their order.
    pub fn as_slice(&self) -> &[Fact]
        ensures { result.now ≡ self.now }
    {
        self.facts.as_slice()
    }
}

// The numbers of a key.
fn name_of(key: Key) -> Name
    ensures { result ≡ spec.name_of key }
{
    match key {
        Key::Count {
            quantum,
            end,
            output,
        } => name_at(0, quantum, end, output, 0),
        Key::Inlet {
            frame,
            end,
            input,
            channel,
        } => name_at(1, frame, end, input, channel),
        Key::Par { frame, node, name } => name_at(2, frame, reader(node), number_of(name), 0),
        Key::Hist {
            frame,
            node,
            channel,
        } => name_at(3, frame, reader(node), 0, channel),
        Key::Out {
            frame,
            end,
            output,
            channel,
        } => name_at(4, frame, end, output, channel),
    }
}

fn name_at(form: u8, moment: u64, end: End, port: u32, channel: u32) -> Name
    ensures { result ≡ spec.name_at form moment end port channel }
{
    Name {
        form,
        moment,
        node: end.node.0,
        writer: end.writer,
        port,
        channel,
    }
}

fn reader(node: NodeId) -> End
    ensures { result ≡ reader_of node.0 }
{
    End {
        node,
        writer: false,
    }
}

fn number_of(name: ParamName) -> u32
    ensures { result ≡ spec.number_of name }
{
    match name {
        ParamName::Offset => 0,
        ParamName::Gain => 1,
        ParamName::DelayTime => 2,
        ParamName::PlaybackRate => 3,
        ParamName::Detune => 4,
    }
}
