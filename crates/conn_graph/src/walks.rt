ghost use Rattle.std.specs.Prelude.{◌≡◌, ◌<◌, length, filter, not, slice_set, true, Some, IfSome, is_some};
ghost use Rattle.std.specs.List.{list_any};
ghost use Rattle.conn_graph.specs.Edges.{form_node, is_named};
ghost use Rattle.conn_graph.specs.declared.edges.Edge.{Edge};
ghost use Rattle.law_base.specs.Members.{IsIn};
ghost use Rattle.conn_graph.specs.Lists.{walk_at, thread, edges_of, AreThreads};

use crate::cells::Side;
use crate::edges::{Form, is_named};
use crate::lists::Lists;
use wa_base::NodeId;

// Whether a disconnect from a node names a connection on a walk.
pub(crate) fn is_one_named(
    lists: &Lists,
    side: Side,
    node: NodeId,
    from: NodeId,
    form: Form,
) -> bool
    requires whole { AreThreads lists.now }
    requires node { node.0 < length lists.now.nodes }
    ensures { result ≡ list_any (is_named from.0 form) (edges_of (thread side lists.now node.0)) }
{
    find_named(lists, side, node, from, form).is_some()
}

// The cell of the first connection on a walk that a disconnect from a node names.
fn find_named(lists: &Lists, side: Side, node: NodeId, from: NodeId, form: Form) -> Option<usize>
    requires whole { AreThreads lists.now }
    requires node { node.0 < length lists.now.nodes }
    ensures any { is_some result ≡ list_any (is_named from.0 form) (edges_of (thread side lists.now node.0)) }
    ensures found { IfSome result (λ key. (e : Edge) × IsIn (key, e) (thread side lists.now node.0) × (is_named from.0 form e ≡ true)) }
{
    let mut next = lists.next(side, node, None);
    for _ in 0..lists.count(side, node) {
        let Some((key, edge)) = next else {
            break;
        };
        if is_named(from, form, &edge) {
            return Some(key);
        }
        next = lists.next(side, node, Some(key));
    }
    None
}

// Takes away the connections that a disconnect from a node names. One that is named alone is looked for
// on the shorter one of its two walks.
pub(crate) fn take_named(lists: &mut Lists, from: NodeId, form: Form)
    requires whole { AreThreads lists.old }
    requires node { from.0 < length lists.old.nodes }
    requires to { IfSome (form_node form) (λ node. node < length lists.old.nodes) }
    ensures outs { lists.new.outs ≡ slice_set lists.old.outs from.0 (filter (λ step. not (is_named from.0 form step.1)) (walk_at lists.old.outs from.0)) }
    ensures nodes { lists.new.nodes ≡ lists.old.nodes }
    ensures room { lists.new.room ≡ lists.old.room }
    ensures whole { AreThreads lists.new }
{
    match form.target_of_one() {
        Some(to) if lists.count(Side::In, to) < lists.count(Side::Out, from) => {
            take_found(lists, to, from, form);
        }
        _ => take_along(lists, from, form),
    }
}

// The same for a form that names a target, along the walk to that.
fn take_found(lists: &mut Lists, to: NodeId, from: NodeId, form: Form)
    requires whole { AreThreads lists.old }
    requires from { from.0 < length lists.old.nodes }
    requires to { to.0 < length lists.old.nodes }
    requires form { form_node form ≡ Some to.0 }
    ensures outs { lists.new.outs ≡ slice_set lists.old.outs from.0 (filter (λ step. not (is_named from.0 form step.1)) (walk_at lists.old.outs from.0)) }
    ensures nodes { lists.new.nodes ≡ lists.old.nodes }
    ensures room { lists.new.room ≡ lists.old.room }
    ensures whole { AreThreads lists.new }
{
    while let Some(key) = find_named(lists, Side::In, to, from, form) {
        lists.take(key);
    }
}

// The same along the walk from the node.
fn take_along(lists: &mut Lists, from: NodeId, form: Form)
    requires whole { AreThreads lists.old }
    requires node { from.0 < length lists.old.nodes }
    ensures outs { lists.new.outs ≡ slice_set lists.old.outs from.0 (filter (λ step. not (is_named from.0 form step.1)) (walk_at lists.old.outs from.0)) }
    ensures nodes { lists.new.nodes ≡ lists.old.nodes }
    ensures room { lists.new.room ≡ lists.old.room }
    ensures whole { AreThreads lists.new }
{
    let mut next = lists.next(Side::Out, from, None);
    for _ in 0..lists.count(Side::Out, from) {
        let Some((key, edge)) = next else {
            break;
        };
        next = lists.next(Side::Out, from, Some(key));
        if is_named(from, form, &edge) {
            lists.take(key);
        }
    }
}
