ghost use Rattle.std.specs.Prelude.{◌≡◌, ◌∷◌, ◌+◌, ◌<◌, ◌==◌, List, [], length, find, option_map, option_and_then, IfOk, OnOk, IfSome};
ghost use Rattle.std.specs.List.{filter_map};
ghost use Rattle.script_ast.specs.declared.call_list.Call.{Call as a_call};
ghost use Rattle.script_ast.specs.Operations.{IsInRange};
ghost use Rattle.script_ast.specs.WellFormed.{AreCallsAfter};
ghost use Rattle.prune_script.specs.Deeds as deeds_spec;
ghost use Rattle.prune_script.specs.Deeds.{AreBelow};
ghost use Rattle.prune_script.specs.Names.{node_in, TellsNames};
ghost use Rattle.prune_script.specs.Pruned as spec;

use crate::operations::{creates_node, is_connect, is_read, node_names};
use name_book::{Book, Object};
use script_ast::Call;
use std::alloc::Global;
use std::marker::Model;
use transcript::{Answer, Line};
use wa_base::{BufId, Name, NoMemory, NodeId};

// What an accepted call does. A node is told by the ordinal of the call that created it, and the
// destination by 0.
#[derive(Drop)]
pub(crate) struct Deed {
    pub(crate) ordinal: u32,
    // the nodes that the call names, or the one that it creates
    pub(crate) first: Option<u32>,
    pub(crate) second: Option<u32>,
    pub(crate) connects: bool,
    pub(crate) reads: bool,
}

impl Model for Deed {
    ghost use Rattle.std.specs.Prelude.{◌++◌, option_to_list};
    ghost use Rattle.prune_script.specs.Deeds.{DeedView};

    ghost Value = { DeedView };

    ghost view = { λ d. record { ordinal = d.ordinal; nodes = option_to_list d.first ++ option_to_list d.second; connects = d.connects; reads = d.reads } };
}

// What each call does that the lines of its session accept, in the order in which they were made.
pub(crate) fn deeds(alloc: Global, calls: &[Call], lines: &[Line]) -> Result<Vec<Deed>, NoMemory>
    requires { AreCallsAfter 0 calls.now }
    ensures deeds { IfOk result (λ deeds. deeds.items ≡ deeds_spec.deeds [] (filter_map (spec.accepted_by calls.now) lines.now)) }
    ensures below { IfOk result (λ deeds. AreBelow (length calls.now + 1) deeds.items) }
{
    let mut names = Book::new(alloc);
    let mut deeds = Vec::new(alloc);
    for line in lines {
        if let Some(call) = accepted_by(calls, line) {
            deeds.push(deed_of(&names, call))?;
            give_name(&mut names, call)?;
        }
    }
    Ok(deeds)
}

// The call that a line answers, unless it was refused.
fn accepted_by<'a>(calls: &'a [Call], line: &Line) -> Option<&'a Call>
    requires { AreCallsAfter 0 calls.now }
    ensures call { option_map (λ call. call.now) result ≡ spec.accepted_by calls.now line.now }
    ensures range { IfSome result (λ call. IsInRange call.now.op) }
    ensures low { IfSome result (λ call. call.now.ordinal < length calls.now + 1) }
{
    match line {
        Line::Call(_, Answer::Throw(_) | Answer::Rejected(_)) => None,
        Line::Call(ordinal, _) => call_at(calls, *ordinal),
        _ => None,
    }
}

// The call with an ordinal.
fn call_at(calls: &[Call], ordinal: u32) -> Option<&Call>
    requires { AreCallsAfter 0 calls.now }
    ensures call { option_map (λ call. call.now) result ≡ find (λ call. call.ordinal == ordinal) calls.now }
    ensures range { IfSome result (λ call. IsInRange call.now.op) }
    ensures low { IfSome result (λ call. call.now.ordinal < length calls.now + 1) }
{
    calls.get(ordinal.checked_sub(1)? as usize)
}

// What a call does, where names stand for nodes so.
fn deed_of(names: &Book, call: &Call) -> Deed
    ensures { (earlier : List a_call) → TellsNames names.now.bindings earlier → result ≡ deeds_spec.deed earlier call.now }
{
    let (first, second) = if creates_node(&call.op) {
        (Some(call.ordinal), None)
    } else {
        let named = node_names(&call.op);
        (
            node_named(names, named.first),
            node_named(names, named.second),
        )
    };
    Deed {
        ordinal: call.ordinal,
        first,
        second,
        connects: is_connect(&call.op),
        reads: is_read(&call.op),
    }
}

// The node that a name stands for, where there is a name.
fn node_named(names: &Book, name: Option<&Name>) -> Option<u32>
    ensures { result ≡ option_and_then (node_in names.now.bindings) (option_map (λ name. name.now) name.entry) }
{
    match names.find(name?) {
        Some(Object::Node(node)) => Some(node.0),
        _ => None,
    }
}

// Gives what a call creates its name.
fn give_name(names: &mut Book, call: &Call) -> Result<(), NoMemory>
    requires { IsInRange call.now.op }
    ensures { OnOk result ((earlier : List a_call) → TellsNames names.old.bindings earlier → TellsNames names.new.bindings (call.now ∷ earlier)) }
{
    if let Some(name) = call.op.new_name() {
        let object = if creates_node(&call.op) {
            Object::Node(NodeId(call.ordinal))
        } else {
            Object::Buffer(BufId(call.ordinal))
        };
        names.bind(name, object)?;
    }
    Ok(())
}
