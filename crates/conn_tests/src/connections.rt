ghost use Rattle.std.specs.Prelude.{◌≡◌, ◌<◌, length, true, IfSome};
ghost use Rattle.conn_graph.specs.Edges.{form_node};

use conn_graph::{Edge, Form, Graph, Target};
use std::alloc::Global;
use std::marker::Brand;
use std::sync::ledger::{Blank, Ledger};
use std::test::Fail;
use wa_base::{Exc, Feature, NoMemory, NodeId, ParamId, ParamName, Refusal, Steps};

const GAIN: ParamId = ParamId {
    node: NodeId(2),
    name: ParamName::Gain,
};

const DELAY_TIME: ParamId = ParamId {
    node: NodeId(2),
    name: ParamName::DelayTime,
};

const AT_LIMIT: Refusal = Refusal::Exc(Exc::NotSupported(Some(Feature::ConnectionLimit)));

fn to_input(from: u32, output: u32, node: u32, input: u32) -> Edge {
    let to = Target::Input {
        node: NodeId(node),
        input,
    };
    Edge {
        from: NodeId(from),
        output,
        to,
    }
}

fn to_param(from: u32, output: u32, param: ParamId) -> Edge {
    Edge {
        from: NodeId(from),
        output,
        to: Target::Param(param),
    }
}

fn add(graph: &mut Graph, inputs: u32, outputs: u32) -> Result<(), NoMemory> {
    if graph.len() == u32::MAX {
        return Err(NoMemory);
    }
    graph.add_node(inputs, outputs, false)
}

// A graph of so many nodes with two inputs and two outputs each.
fn begin(alloc: Global, count: u32) -> Result<Graph, NoMemory> {
    let mut graph = Graph::new(alloc);
    for _ in 0..count {
        add(&mut graph, 2, 2)?;
    }
    Ok(graph)
}

// NotFound where a node is not there, which the graph itself never answers.
fn connect(graph: &mut Graph, edge: Edge) -> Result<bool, Refusal> {
    if edge.from.0 >= graph.len() || edge.to.node().0 >= graph.len() {
        return Err(Refusal::Exc(Exc::NotFound));
    }
    graph.connect(edge)
}

fn disconnect(graph: &mut Graph, from: u32, form: Form) -> Result<(), Exc> {
    if from >= graph.len() || !has_node(graph, form) {
        return Err(Exc::NotFound);
    }
    graph.disconnect(NodeId(from), form)
}

fn has_node(graph: &Graph, form: Form) -> bool
    ensures { result ≡ true → IfSome (form_node form) (λ node. node < length graph.now.value.nodes) }
{
    match form {
        Form::All | Form::Output(_) => true,
        Form::Node(node) | Form::NodeOutput(node, _) | Form::NodeOutputInput(node, _, _) => {
            node.0 < graph.len()
        }
        Form::Param(param) | Form::ParamOutput(param, _) => param.node.0 < graph.len(),
    }
}

// The connections from a node, as the walk gives them.
#[tactic(auto, using(conn_graph::proofs::WalkLaws::step_on))]
fn walk_from<L: Ledger>(
    alloc: Global,
    graph: &Graph,
    node: u32,
    blank: Blank,
) -> Result<Vec<Edge>, NoMemory>
    requires name { blank.name ≡ L.name }
    requires parts { blank.parts ≡ L.parts }
    requires some { 0 < L.parts }
{
    let mut steps: Steps<L> = Steps::new(blank);
    let mut edges = Vec::new(alloc);
    if node >= graph.len() {
        return Ok(edges);
    }
    let mut after = None;
    for _ in 0..=8_192 {
        let Some((cell, edge)) = graph.next_out(NodeId(node), after, &mut steps) else {
            break;
        };
        edges.push(edge)?;
        after = Some(cell);
    }
    Ok(edges)
}

fn from(alloc: Global, graph: &Graph, node: u32) -> Result<Vec<Edge>, NoMemory> {
    walk_from::<Brand>(alloc, graph, node, Blank::new(1))
}

// The connections to a node, as the walk gives them.
#[tactic(auto, using(conn_graph::proofs::WalkLaws::step_on))]
fn walk_to<L: Ledger>(
    alloc: Global,
    graph: &Graph,
    node: u32,
    blank: Blank,
) -> Result<Vec<Edge>, NoMemory>
    requires name { blank.name ≡ L.name }
    requires parts { blank.parts ≡ L.parts }
    requires some { 0 < L.parts }
{
    let mut steps: Steps<L> = Steps::new(blank);
    let mut edges = Vec::new(alloc);
    if node >= graph.len() {
        return Ok(edges);
    }
    let mut after = None;
    for _ in 0..=8_192 {
        let Some((cell, edge)) = graph.next_in(NodeId(node), after, &mut steps) else {
            break;
        };
        edges.push(edge)?;
        after = Some(cell);
    }
    Ok(edges)
}

fn to(alloc: Global, graph: &Graph, node: u32) -> Result<Vec<Edge>, NoMemory> {
    walk_to::<Brand>(alloc, graph, node, Blank::new(1))
}

// The connections without those at some places.
fn without(alloc: Global, edges: &[Edge], gone: &[usize]) -> Result<Vec<Edge>, NoMemory> {
    let mut kept = Vec::new(alloc);
    for (place, edge) in edges.iter().enumerate() {
        if !gone.contains(&place) {
            kept.push(*edge)?;
        }
    }
    Ok(kept)
}

// Whether the walks from and to each node give these connections: those from a node in this order,
// those to a node in any.
fn has(alloc: Global, graph: &Graph, edges: &[Edge]) -> Result<bool, NoMemory> {
    for node in 0..graph.len() {
        let mut leaving = Vec::new(alloc);
        let mut entering = Vec::new(alloc);
        for edge in edges {
            if edge.from.0 == node {
                leaving.push(*edge)?;
            }
            if edge.to.node().0 == node {
                entering.push(*edge)?;
            }
        }
        let entered = to(alloc, graph, node)?;
        if from(alloc, graph, node)? != leaving
            || entered.len() != entering.len()
            || !entering.iter().all(|edge| entered.contains(edge))
        {
            return Ok(false);
        }
    }
    Ok(true)
}

// So many nodes, with these connections.
fn joined(alloc: Global, count: u32, edges: &[Edge]) -> Result<Graph, Refusal> {
    let mut graph = begin(alloc, count)?;
    for edge in edges {
        connect(&mut graph, *edge)?;
    }
    Ok(graph)
}

fn repeats_in(alloc: Global, graph: &mut Graph) -> Result<bool, Refusal> {
    let edge = to_input(1, 0, 0, 0);
    let form = Form::Node(NodeId(0));
    Ok(
        connect(graph, edge)?
            && !connect(graph, edge)?
            && has(alloc, graph, &[edge])?
            && disconnect(graph, 1, form) == Ok(())
            && has(alloc, graph, &[])?
            && disconnect(graph, 1, form) == Err(Exc::InvalidAccess),
    )
}

fn repeats(alloc: Global) -> Result<bool, Refusal> {
    let mut graph = begin(alloc, 2)?;
    let repeats = repeats_in(alloc, &mut graph);
    drop(graph);
    repeats
}

#[test]
fn a_repeated_connection_changes_nothing(rt: HostRuntime) -> Result<(), Fail> {
    assert!(rt; repeats(rt.alloc())?);
    Ok(())
}

fn leaves(
    alloc: Global,
    graph: &mut Graph,
    edges: &[Edge],
    form: Form,
    kept: &[Edge],
) -> Result<bool, NoMemory> {
    Ok(
        has(alloc, graph, edges)?
            && disconnect(graph, 1, form) == Ok(())
            && has(alloc, graph, kept)?,
    )
}

fn takes_away(alloc: Global, edges: &[Edge], form: Form, gone: &[usize]) -> Result<bool, Refusal> {
    let kept = without(alloc, edges, gone)?;
    let mut graph = joined(alloc, 4, edges)?;
    let leaves = leaves(alloc, &mut graph, edges, form, kept.as_slice());
    drop(graph);
    Ok(leaves?)
}

#[test]
fn each_form_takes_away_what_it_names(rt: HostRuntime) -> Result<(), Fail> {
    let edges = [
        to_input(1, 0, 2, 0),
        to_input(1, 0, 2, 1),
        to_input(1, 1, 2, 0),
        to_input(1, 1, 0, 0),
        to_param(1, 0, GAIN),
        to_param(1, 1, GAIN),
        to_param(1, 1, DELAY_TIME),
        to_input(3, 0, 2, 0),
    ];
    let node = NodeId(2);
    let rows: [(Form, &[usize]); 8] = [
        (Form::All, &[0, 1, 2, 3, 4, 5, 6]),
        (Form::Output(1), &[2, 3, 5, 6]),
        (Form::Node(node), &[0, 1, 2]),
        (Form::NodeOutput(node, 0), &[0, 1]),
        (Form::NodeOutputInput(node, 0, 1), &[1]),
        (Form::NodeOutputInput(node, 1, 0), &[2]),
        (Form::Param(GAIN), &[4, 5]),
        (Form::ParamOutput(GAIN, 1), &[5]),
    ];
    for (form, gone) in rows {
        assert!(rt; takes_away(rt.alloc(), &edges, form, gone)?, "{form:?}");
    }
    Ok(())
}

// Whether each form that node 1 is disconnected by is answered so, and each connection refused.
fn refuses(
    graph: &mut Graph,
    forms: &[(Form, Result<(), Exc>)],
    edges: &[Edge],
) -> Result<bool, Refusal> {
    for (form, answer) in forms {
        if disconnect(graph, 1, *form) != *answer {
            return Ok(false);
        }
    }
    for edge in edges {
        if connect(graph, *edge) != Err(Refusal::Exc(Exc::IndexSize)) {
            return Ok(false);
        }
    }
    Ok(disconnect(graph, 2, Form::All) == Ok(()))
}

fn refuses_all(graph: &mut Graph) -> Result<bool, Refusal> {
    let forms = [
        (Form::Output(2), Err(Exc::IndexSize)),
        (Form::NodeOutput(NodeId(2), 2), Err(Exc::IndexSize)),
        (Form::NodeOutputInput(NodeId(2), 2, 0), Err(Exc::IndexSize)),
        (Form::NodeOutputInput(NodeId(2), 0, 2), Err(Exc::IndexSize)),
        (Form::NodeOutputInput(NodeId(0), 0, 2), Err(Exc::IndexSize)),
        (Form::ParamOutput(GAIN, 2), Err(Exc::IndexSize)),
        (Form::Node(NodeId(1)), Err(Exc::InvalidAccess)),
        (Form::NodeOutput(NodeId(2), 1), Err(Exc::InvalidAccess)),
        (
            Form::NodeOutputInput(NodeId(2), 0, 1),
            Err(Exc::InvalidAccess),
        ),
        (Form::Param(GAIN), Err(Exc::InvalidAccess)),
        (Form::ParamOutput(GAIN, 0), Err(Exc::InvalidAccess)),
        (Form::Output(1), Ok(())),
    ];
    let edges = [
        to_input(1, 2, 2, 0),
        to_input(1, 0, 2, 2),
        to_param(1, 2, GAIN),
    ];
    refuses(graph, &forms, &edges)
}

fn changes_nothing(alloc: Global) -> Result<bool, Refusal> {
    let edge = to_input(1, 0, 2, 0);
    let mut graph = joined(alloc, 3, &[edge])?;
    let refuses = refuses_all(&mut graph);
    let stays = has(alloc, &graph, &[edge]);
    drop(graph);
    Ok(refuses? && stays?)
}

#[test]
fn a_refused_call_changes_nothing(rt: HostRuntime) -> Result<(), Fail> {
    assert!(rt; changes_nothing(rt.alloc())?);
    Ok(())
}

fn keeps_order(alloc: Global, graph: &mut Graph, edges: &mut [Edge; 8]) -> Result<bool, Refusal> {
    let was_in_order = has(alloc, graph, edges)?;
    let is_new = disconnect(graph, 1, Form::Node(NodeId(0))) == Ok(()) && connect(graph, edges[2])?;
    let was_moved = !has(alloc, graph, edges)?;
    edges[2..].rotate_left(1);
    Ok(was_in_order && is_new && was_moved && has(alloc, graph, edges)?)
}

fn keeps_its_order(alloc: Global) -> Result<bool, Refusal> {
    let mut edges = [
        to_input(1, 1, 2, 1),
        to_input(3, 0, 2, 0),
        to_input(1, 0, 0, 0),
        to_input(2, 0, 0, 0),
        to_param(1, 0, GAIN),
        to_input(0, 0, 1, 0),
        to_input(1, 0, 2, 0),
        to_input(3, 1, 1, 0),
    ];
    let mut graph = joined(alloc, 4, &edges)?;
    let keeps_order = keeps_order(alloc, &mut graph, &mut edges);
    drop(graph);
    keeps_order
}

#[test]
fn connections_of_a_node_keep_their_order(rt: HostRuntime) -> Result<(), Fail> {
    assert!(rt; keeps_its_order(rt.alloc())?);
    Ok(())
}

// Node 1 has 32 outputs, and each of them is connected to each of 32 inputs of eight nodes.
fn full(alloc: Global) -> Result<Graph, Refusal> {
    let mut graph = begin(alloc, 1)?;
    add(&mut graph, 1, 32)?;
    for node in 2..10 {
        add(&mut graph, 32, 1)?;
        for output in 0..32 {
            for input in 0..32 {
                connect(&mut graph, to_input(1, output, node, input))?;
            }
        }
    }
    Ok(graph)
}

fn has_most(alloc: Global, graph: &Graph) -> Result<bool, NoMemory> {
    let leaving = from(alloc, graph, 1)?.len();
    let entering = to(alloc, graph, 9)?.len();
    Ok(leaving == 8_192 && entering == 1_024)
}

fn is_at_limit(graph: &mut Graph) -> Result<bool, Refusal> {
    Ok(
        connect(graph, to_input(2, 0, 0, 0)) == Err(AT_LIMIT)
            && connect(graph, to_param(1, 0, GAIN)) == Err(AT_LIMIT)
            && !connect(graph, to_input(1, 31, 9, 31))?
            && connect(graph, to_input(1, 32, 9, 31)) == Err(Refusal::Exc(Exc::IndexSize))
            && disconnect(graph, 1, Form::Output(0)) == Ok(())
            && connect(graph, to_input(2, 0, 0, 0))?,
    )
}

fn refuses_one_more(alloc: Global) -> Result<bool, Refusal> {
    let mut graph = full(alloc)?;
    let has_most = has_most(alloc, &graph);
    let is_at_limit = is_at_limit(&mut graph);
    drop(graph);
    Ok(has_most? && is_at_limit?)
}

#[test]
fn there_are_at_most_8192_connections(rt: HostRuntime) -> Result<(), Fail> {
    assert!(rt; refuses_one_more(rt.alloc())?);
    Ok(())
}

fn goes_apart(alloc: Global, first: &Graph, second: &mut Graph) -> Result<bool, Refusal> {
    let edge = to_input(1, 0, 2, 0);
    let other = to_input(2, 1, 0, 1);
    Ok(
        has(alloc, second, &[edge])?
            && second.edits() == first.edits()
            && connect(second, other)?
            && disconnect(second, 1, Form::All) == Ok(())
            && has(alloc, first, &[edge])?
            && has(alloc, second, &[other])?
            && second.edits().wrapping_sub(first.edits()) == 2,
    )
}

fn copy_goes_apart(alloc: Global, first: &Graph) -> Result<bool, Refusal> {
    let mut second = first.copy()?;
    let goes_apart = goes_apart(alloc, first, &mut second);
    drop(second);
    goes_apart
}

fn copies_apart(alloc: Global) -> Result<bool, Refusal> {
    let first = joined(alloc, 3, &[to_input(1, 0, 2, 0)])?;
    let goes_apart = copy_goes_apart(alloc, &first);
    drop(first);
    goes_apart
}

#[test]
fn a_copy_goes_on_by_itself(rt: HostRuntime) -> Result<(), Fail> {
    assert!(rt; copies_apart(rt.alloc())?);
    Ok(())
}

// Each change counts once. What was there already, and what is refused, does not count.
fn counts_in(graph: &mut Graph) -> Result<bool, Refusal> {
    let edge = to_input(1, 0, 0, 0);
    let form = Form::Node(NodeId(0));
    Ok(
        graph.edits() == 2
            && connect(graph, edge)?
            && graph.edits() == 3
            && !connect(graph, edge)?
            && graph.edits() == 3
            && disconnect(graph, 0, Form::All) == Ok(())
            && graph.edits() == 4
            && disconnect(graph, 0, form) == Err(Exc::InvalidAccess)
            && graph.edits() == 4,
    )
}

fn counts(alloc: Global) -> Result<bool, Refusal> {
    let mut graph = Graph::new(alloc);
    let begins = graph.edits() == 0;
    let first = add(&mut graph, 1, 1).is_ok() && graph.edits() == 1;
    let second = add(&mut graph, 1, 1).is_ok();
    let counts = counts_in(&mut graph);
    drop(graph);
    Ok(begins && first && second && counts?)
}

#[test]
fn edits_that_change_a_graph_are_counted(rt: HostRuntime) -> Result<(), Fail> {
    assert!(rt; counts(rt.alloc())?);
    Ok(())
}

// A node with so many inputs as there were nodes before it.
fn adds(graph: &mut Graph, is_delay: bool) -> Result<bool, NoMemory> {
    let number = graph.len();
    if number == u32::MAX {
        return Ok(false);
    }
    graph.reserve()?;
    graph.add_node(number, 1, is_delay)?;
    Ok(graph.is_delay(NodeId(number)) == is_delay)
}

fn adds_three(graph: &mut Graph) -> Result<bool, Refusal> {
    Ok(
        graph.len() == 0
            && adds(graph, false)?
            && adds(graph, true)?
            && adds(graph, false)?
            && graph.len() == 3
            && connect(graph, to_input(0, 0, 2, 1))?
            && connect(graph, to_input(0, 0, 1, 1)) == Err(Refusal::Exc(Exc::IndexSize)),
    )
}

fn adds_in_order(alloc: Global) -> Result<bool, Refusal> {
    let mut graph = Graph::new(alloc);
    let adds = adds_three(&mut graph);
    drop(graph);
    adds
}

#[test]
fn nodes_are_added_in_order(rt: HostRuntime) -> Result<(), Fail> {
    assert!(rt; adds_in_order(rt.alloc())?);
    Ok(())
}

// A node and a connection, made again where one growth is refused.
fn add_again(graph: &mut Graph) -> Result<bool, NoMemory> {
    let number = graph.len();
    if add(graph, 2, 2) == Err(NoMemory) {
        let is_as_before = graph.len() == number;
        add(graph, 2, 2)?;
        return Ok(is_as_before);
    }
    Ok(true)
}

fn connect_again(
    alloc: Global,
    graph: &mut Graph,
    edge: Edge,
    before: &[Edge],
) -> Result<bool, Refusal> {
    if connect(graph, edge) == Err(Refusal::NoMemory) {
        let is_as_before = has(alloc, graph, before)?;
        connect(graph, edge)?;
        return Ok(is_as_before);
    }
    Ok(true)
}

fn copy_again(graph: &Graph) -> Result<Graph, NoMemory> {
    match graph.copy() {
        Ok(copy) => Ok(copy),
        Err(NoMemory) => graph.copy(),
    }
}

fn has_again(alloc: Global, graph: &Graph, edges: &[Edge]) -> Result<bool, NoMemory> {
    let copy = copy_again(graph)?;
    let seen = match has(alloc, &copy, edges) {
        Err(NoMemory) => has(alloc, &copy, edges),
        seen => seen,
    };
    drop(copy);
    seen
}

fn goes_on(alloc: Global, graph: &mut Graph) -> Result<bool, Refusal> {
    for _ in 0..5 {
        if !add_again(graph)? {
            return Ok(false);
        }
    }
    let edges = [
        to_input(1, 0, 2, 0),
        to_param(1, 0, GAIN),
        to_input(2, 1, 4, 1),
        to_input(3, 0, 4, 0),
        to_input(4, 0, 0, 0),
    ];
    for (place, edge) in edges.iter().enumerate() {
        if !connect_again(alloc, graph, *edge, &edges[..place])? {
            return Ok(false);
        }
    }
    Ok(has_again(alloc, graph, &edges)?)
}

fn goes_on_after_refusals(alloc: Global) -> Result<bool, Refusal> {
    let mut graph = Graph::new(alloc);
    let goes_on = goes_on(alloc, &mut graph);
    drop(graph);
    goes_on
}

#[test]
fn what_was_refused_memory_can_be_done_again(rt: HostRuntime) -> Result<(), Fail> {
    assert!(rt; goes_on_after_refusals(rt.alloc())?);
    Ok(())
}
