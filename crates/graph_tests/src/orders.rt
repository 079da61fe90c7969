ghost use Rattle.std.specs.Prelude.{◌≡◌, ◌<◌};

use conn_graph::{Edge, Graph, Target};
use cycle_order::{Ids, Ordered, Surveyed, is_legal, order, survey};
use std::alloc::Global;
use std::marker::Brand;
use std::sync::ledger::{Blank, Ledger};
use std::test::Fail;
use wa_base::{End, NoMemory, NodeId, ParamId, ParamName, Refusal, Steps, Tie};

// From the only output of a node to the only input or to a parameter of another one.
#[derive(Clone, Copy)]
enum Wire {
    Audio(u32, u32),
    Param(u32, u32),
}

impl Wire {
    fn edge(self) -> Edge {
        let (from, to) = match self {
            Wire::Audio(from, to) => (
                from,
                Target::Input {
                    node: NodeId(to),
                    input: 0,
                },
            ),
            Wire::Param(from, to) => (
                from,
                Target::Param(ParamId {
                    node: NodeId(to),
                    name: ParamName::DelayTime,
                }),
            ),
        };
        Edge {
            from: NodeId(from),
            output: 0,
            to,
        }
    }
}

// The destination, so many other nodes, and the connections between them.
fn build(alloc: Global, nodes: u32, delays: &[u32], wires: &[Wire]) -> Result<Graph, Refusal> {
    let mut graph = Graph::new(alloc);
    for node in 0..nodes.saturating_add(1) {
        if graph.len() < u32::MAX {
            graph.add_node(1, 1, delays.contains(&node))?;
        }
    }
    for wire in wires {
        connect(&mut graph, wire.edge())?;
    }
    Ok(graph)
}

fn connect(graph: &mut Graph, edge: Edge) -> Result<bool, Refusal> {
    if edge.from.0 < graph.len() && edge.to.node().0 < graph.len() {
        return graph.connect(edge);
    }
    Ok(false)
}

#[derive(Drop)]
struct Answers {
    marks: Surveyed,
    up: Ordered,
    down: Ordered,
    are_legal: bool,
}

fn ask<L: Ledger>(alloc: Global, graph: &Graph, blank: Blank) -> Result<Answers, NoMemory>
    requires name { blank.name ≡ L.name }
    requires parts { blank.parts ≡ L.parts }
    requires some { 0 < L.parts }
{
    let mut steps: Steps<L> = Steps::new(blank);
    let marks = survey(alloc, graph, &mut steps)?;
    let up = order(alloc, graph, &marks, Tie::Up, &mut steps)?;
    let down = order(alloc, graph, &marks, Tie::Down, &mut steps)?;
    let are_legal = is_legal(graph, &marks, up.ends.as_slice(), &mut steps)
        && is_legal(graph, &marks, down.ends.as_slice(), &mut steps);
    Ok(Answers {
        marks,
        up,
        down,
        are_legal,
    })
}

// Whether readers in this order are a legal order.
fn is_legal_list<L: Ledger>(
    alloc: Global,
    graph: &Graph,
    nodes: &[u32],
    blank: Blank,
) -> Result<bool, NoMemory>
    requires name { blank.name ≡ L.name }
    requires parts { blank.parts ≡ L.parts }
    requires some { 0 < L.parts }
{
    let mut steps: Steps<L> = Steps::new(blank);
    let marks = survey(alloc, graph, &mut steps)?;
    let mut ends = Vec::new(alloc);
    for node in nodes {
        ends.push(End {
            node: NodeId(*node),
            writer: false,
        })?;
    }
    Ok(is_legal(graph, &marks, ends.as_slice(), &mut steps))
}

// What a survey and both orders say of a graph: a reader is its node's number, a writer has a `w`.
pub(crate) fn told(alloc: Global, graph: &Graph) -> Result<String, NoMemory> {
    let answers = ask::<Brand>(alloc, graph, Blank::new(1))?;
    let text = text_of(alloc, &answers);
    drop(answers);
    text
}

fn text_of(alloc: Global, answers: &Answers) -> Result<String, NoMemory> {
    let mut text = String::from_str(alloc, "cycle")?;
    put_answers(alloc, &mut text, answers)?;
    Ok(text)
}

fn put_answers(alloc: Global, text: &mut String, answers: &Answers) -> Result<(), NoMemory> {
    put_ids(alloc, text, &answers.marks.in_cycle)?;
    text.push_str("; muted")?;
    put_ends(alloc, text, answers.marks.muted.as_slice())?;
    text.push_str("; up")?;
    put_ends(alloc, text, answers.up.ends.as_slice())?;
    text.push_str("; down")?;
    put_ends(alloc, text, answers.down.ends.as_slice())?;
    if !answers.are_legal {
        text.push_str("; not legal")?;
    }
    Ok(())
}

fn put_ids(alloc: Global, text: &mut String, ids: &Ids) -> Result<(), NoMemory> {
    for id in ids.as_slice() {
        let number = id.0;
        text.push_str(format!(in alloc; " {number}")?.as_str())?;
    }
    Ok(())
}

fn put_ends(alloc: Global, text: &mut String, ends: &[End]) -> Result<(), NoMemory> {
    for end in ends {
        let number = end.node.0;
        text.push_str(format!(in alloc; " {number}")?.as_str())?;
        if end.writer {
            text.push('w')?;
        }
    }
    Ok(())
}

// Whether this is what is told of so many nodes with these delays and connections.
fn says(
    alloc: Global,
    nodes: u32,
    delays: &[u32],
    wires: &[Wire],
    want: &str,
) -> Result<bool, Refusal> {
    let graph = build(alloc, nodes, delays, wires)?;
    Ok(told(alloc, &graph)?.as_str() == want)
}

#[test]
fn ties_choose_among_ready_ends(rt: HostRuntime) -> Result<(), Fail> {
    let wires = [Wire::Audio(1, 0), Wire::Audio(2, 0)];
    let text = "cycle; muted; up 1 2 0; down 2 1 0";
    assert!(rt; says(rt.alloc(), 2, &[], &wires, text)?);

    // A parameter's connection puts its source first.
    let wires = [Wire::Audio(1, 0), Wire::Param(2, 1)];
    let text = "cycle; muted; up 2 1 0; down 2 1 0";
    assert!(rt; says(rt.alloc(), 2, &[], &wires, text)?);
    Ok(())
}

#[test]
fn ends_on_a_cycle_are_muted(rt: HostRuntime) -> Result<(), Fail> {
    // A constant beside a cycle of two gains.
    let wires = [
        Wire::Audio(1, 2),
        Wire::Audio(2, 3),
        Wire::Audio(3, 2),
        Wire::Audio(2, 0),
        Wire::Audio(1, 0),
    ];
    let text = "cycle; muted 2 3; up 1 0; down 1 0";
    assert!(rt; says(rt.alloc(), 3, &[], &wires, text)?);

    // A gain connected to itself.
    let wires = [Wire::Audio(1, 1), Wire::Audio(1, 0)];
    let text = "cycle; muted 1; up 0; down 0";
    assert!(rt; says(rt.alloc(), 1, &[], &wires, text)?);

    // Nodes behind a cycle, which are on none.
    let wires = [
        Wire::Audio(1, 2),
        Wire::Audio(2, 1),
        Wire::Audio(2, 4),
        Wire::Audio(4, 3),
        Wire::Audio(3, 0),
    ];
    let text = "cycle; muted 1 2; up 4 3 0; down 4 3 0";
    assert!(rt; says(rt.alloc(), 4, &[], &wires, text)?);
    Ok(())
}

#[test]
fn a_delay_in_a_cycle_is_split(rt: HostRuntime) -> Result<(), Fail> {
    // In a ring with a gain.
    let wires = [Wire::Audio(1, 2), Wire::Audio(2, 1), Wire::Audio(2, 0)];
    let text = "cycle 2; muted; up 2 0 1 2w; down 2 1 2w 0";
    assert!(rt; says(rt.alloc(), 2, &[2], &wires, text)?);

    // Its only cycle leads through its own delayTime.
    let wires = [Wire::Param(1, 1), Wire::Audio(1, 0)];
    let text = "cycle 1; muted 1; up 0 1w; down 1w 0";
    assert!(rt; says(rt.alloc(), 1, &[1], &wires, text)?);

    // Beside a delay that is in no cycle: that one's writer goes before its reader.
    let wires = [
        Wire::Audio(1, 1),
        Wire::Audio(3, 2),
        Wire::Audio(2, 0),
        Wire::Audio(1, 0),
    ];
    let text = "cycle 1; muted; up 1 1w 3 2w 2 0; down 3 2w 2 1 1w 0";
    assert!(rt; says(rt.alloc(), 3, &[1, 2], &wires, text)?);
    Ok(())
}

// Nodes 1 to 254, each connected to the next one and the last to the destination.
fn chain(alloc: Global) -> Result<Graph, Refusal> {
    let mut graph = build(alloc, 254, &[], &[])?;
    for node in 1..254u32 {
        connect(&mut graph, Wire::Audio(node, node + 1).edge())?;
    }
    connect(&mut graph, Wire::Audio(254, 0).edge())?;
    Ok(graph)
}

// Whether the ends are those of nodes 1 to 254, and then of the destination.
fn are_in_chain(ends: &[End]) -> bool {
    for (place, end) in ends.iter().enumerate() {
        let node = if place < 254 { place + 1 } else { 0 };
        if end.node.0 as usize != node {
            return false;
        }
    }
    ends.len() == 255
}

fn is_ordered_from_its_source(alloc: Global) -> Result<bool, Refusal> {
    let graph = chain(alloc)?;
    let answers = ask::<Brand>(alloc, &graph, Blank::new(1));
    drop(graph);
    let answers = answers?;
    let is_ordered = answers.marks.muted.is_empty()
        && are_in_chain(answers.up.ends.as_slice())
        && are_in_chain(answers.down.ends.as_slice());
    drop(answers);
    Ok(is_ordered)
}

#[test]
fn a_chain_is_ordered_from_its_source(rt: HostRuntime) -> Result<(), Fail> {
    assert!(rt; is_ordered_from_its_source(rt.alloc())?);
    Ok(())
}

fn is_tried_as(alloc: Global, graph: &Graph, nodes: &[u32], want: bool) -> Result<bool, NoMemory> {
    Ok(is_legal_list::<Brand>(alloc, graph, nodes, Blank::new(1))? == want)
}

#[test]
fn lists_are_tried(rt: HostRuntime) -> Result<(), Fail> {
    let alloc = rt.alloc();
    let wires = [
        Wire::Audio(1, 2),
        Wire::Audio(2, 3),
        Wire::Audio(3, 2),
        Wire::Audio(2, 0),
        Wire::Audio(1, 0),
    ];
    let graph = build(alloc, 4, &[], wires.as_slice())?;
    for (nodes, want) in [
        ([1, 4, 0].as_slice(), true),
        (&[4, 1, 0], true),
        (&[1, 0, 4], true),
        (&[0, 1, 4], false),
        (&[1, 0], false),
        (&[1, 4, 0, 1], false),
        (&[1, 2, 4, 0], false),
        (&[1, 4, 0, 5], false),
        (&[], false),
    ] {
        assert!(rt; is_tried_as(alloc, &graph, nodes, want)?, "{nodes:?}");
    }
    Ok(())
}
