ghost use Rattle.std.specs.Prelude.{◌≡◌, Some, IfSome, option_map};
ghost use Rattle.conn_graph.specs.Cells.{edge_form};
ghost use Rattle.conn_graph.specs.Edges as spec;

use wa_base::{NodeId, ParamId};

/// Where a connection leads: to an input of a node, or to a parameter.
#[derive(Clone, Copy, PartialEq, Eq)]
pub enum Target {
    Input { node: NodeId, input: u32 },
    Param(ParamId),
}

/// A connection: from an output of a node to a target.
#[derive(Clone, Copy, PartialEq, Eq)]
pub struct Edge {
    pub from: NodeId,
    pub output: u32,
    pub to: Target,
}

/// Which connections of a node `disconnect` takes away. The forms are those of AudioNode.
#[derive(Clone, Copy, Debug, PartialEq, Eq)]
pub enum Form {
    /// All connections, those to parameters included.
    All,
    /// Those from an output, those to parameters included.
    Output(u32),
    /// Those to any input of a node.
    Node(NodeId),
    /// Those from an output to any input of a node.
    NodeOutput(NodeId, u32),
    /// The one from an output to an input of a node.
    NodeOutputInput(NodeId, u32, u32),
    /// Those to a parameter.
    Param(ParamId),
    /// The one from an output to a parameter.
    ParamOutput(ParamId, u32),
}

/// How many inputs and outputs a node has, and whether it is a delay.
#[derive(Clone, Copy, PartialEq, Eq)]
pub struct Ports {
    pub inputs: u32,
    pub outputs: u32,
    pub is_delay: bool,
}

impl Target {
    /// The node that the target belongs to.
    pub fn node(self) -> NodeId
        ensures { result.0 ≡ spec.target_node self }
    {
        match self {
            Target::Input { node, .. } => node,
            Target::Param(param) => param.node,
        }
    }

    /// Whether the target is the same input, or the same parameter.
    pub fn is_same(self, other: Target) -> bool
        ensures { result ≡ spec.same_target self other }
    {
        match self {
            Target::Input { node, input } => is_input(other, node, input),
            Target::Param(param) => is_param(other, param),
        }
    }
}

impl Form {
    // The node to which the connections lead that the form names.
    pub(crate) fn node(self) -> Option<NodeId>
        ensures { option_map (λ n. n.0) result ≡ spec.form_node self }
    {
        match self {
            Form::All | Form::Output(_) => None,
            Form::Node(node) | Form::NodeOutput(node, _) | Form::NodeOutputInput(node, _, _) => {
                Some(node)
            }
            Form::Param(param) | Form::ParamOutput(param, _) => Some(param.node),
        }
    }

    // The node to which the connection leads that the form names, where it can name one at most.
    pub(crate) fn target_of_one(self) -> Option<NodeId>
        ensures { IfSome result (λ node. spec.form_node self ≡ Some node.0) }
    {
        match self {
            Form::NodeOutputInput(node, _, _) => Some(node),
            Form::ParamOutput(param, _) => Some(param.node),
            _ => None,
        }
    }

    // The output that the form speaks of.
    pub(crate) fn output(self) -> Option<u32>
        ensures { result ≡ spec.form_output self }
    {
        match self {
            Form::All | Form::Node(_) | Form::Param(_) => None,
            Form::Output(output)
            | Form::NodeOutput(_, output)
            | Form::NodeOutputInput(_, output, _)
            | Form::ParamOutput(_, output) => Some(output),
        }
    }

    // The input that the form speaks of, with the node that has it.
    pub(crate) fn input(self) -> Option<(NodeId, u32)>
        ensures { option_map (λ r. (r.0.0, r.1)) result ≡ spec.form_input self }
    {
        match self {
            Form::NodeOutputInput(node, _, input) => Some((node, input)),
            _ => None,
        }
    }

    // Whether the form names a target.
    pub(crate) fn names_a_target(self) -> bool
        ensures { result ≡ spec.names_a_target self }
    {
        !matches!(self, Form::All | Form::Output(_))
    }
}

impl Edge {
    // The form of disconnect that names this connection alone.
    pub(crate) fn form(self) -> Form
        ensures { result ≡ edge_form self }
    {
        match self.to {
            Target::Input { node, input } => Form::NodeOutputInput(node, self.output, input),
            Target::Param(param) => Form::ParamOutput(param, self.output),
        }
    }
}

fn is_input(target: Target, n: NodeId, i: u32) -> bool
    ensures { result ≡ spec.is_input n.0 i target }
{
    match target {
        Target::Input { node, input } => node.0 == n.0 && input == i,
        Target::Param(_) => false,
    }
}

fn is_an_input_of(target: Target, n: NodeId) -> bool
    ensures { result ≡ spec.is_an_input_of n.0 target }
{
    match target {
        Target::Input { node, .. } => node.0 == n.0,
        Target::Param(_) => false,
    }
}

fn is_param(target: Target, p: ParamId) -> bool
    ensures { result ≡ spec.is_param p target }
{
    match target {
        Target::Input { .. } => false,
        Target::Param(param) => param.node.0 == p.node.0 && param.name == p.name,
    }
}

// Whether a form of disconnect means a connection of the node that it leaves.
fn is_meant(form: Form, edge: &Edge) -> bool
    ensures { result ≡ spec.is_meant form edge.now }
{
    match form {
        Form::All => true,
        Form::Output(output) => edge.output == output,
        Form::Node(node) => is_an_input_of(edge.to, node),
        Form::NodeOutput(node, output) => edge.output == output && is_an_input_of(edge.to, node),
        Form::NodeOutputInput(node, output, input) => {
            edge.output == output && is_input(edge.to, node, input)
        }
        Form::Param(param) => is_param(edge.to, param),
        Form::ParamOutput(param, output) => edge.output == output && is_param(edge.to, param),
    }
}

// Whether a disconnect from a node names a connection.
pub(crate) fn is_named(from: NodeId, form: Form, edge: &Edge) -> bool
    ensures { result ≡ spec.is_named from.0 form edge.now }
{
    edge.from.0 == from.0 && is_meant(form, edge)
}
