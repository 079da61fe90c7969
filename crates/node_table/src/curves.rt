ghost use Rattle.std.specs.Prelude.{◌≡◌, ◌<◌, length, OnOk, OnErr};
ghost use Rattle.std.specs.Result.{result_err};
ghost use Rattle.node_table.specs.Nodes as table;

use crate::nodes::Nodes;
use wa_base::{Exc, NodeId, Samples};

/// The curve of a shaper (the attribute `curve` of WaveShaperNode).
impl Nodes {
    /// Puts another curve into force, in units of 2^-24, or none. It is refused with TypeError where the
    /// node is no shaper, and with InvalidStateError for a curve of fewer than two points and for one
    /// where a curve was set before. A refused call changes nothing, and the curve is dropped.
    pub fn set_curve(&mut self, node: NodeId, curve: Option<Samples>) -> Result<(), Exc>
        requires { node.0 < length self.old }
        ensures refusal { result_err result ≡ table.refusal_at self.old node.0 (table.curve_refusal curve) }
        ensures ok { OnOk result (self.new ≡ table.changed_at node.0 (table.node_with_curve curve) self.old) }
        ensures err { OnErr result (self.new ≡ self.old) }
    {
        if let Some(exc) = self.curve_refusal(node, &curve) {
            return Err(exc);
        }
        self.nodes[node.0 as usize].kind.set_curve(curve);
        Ok(())
    }

    /// The exception with which `set_curve` would refuse a curve now.
    pub fn curve_refusal(&self, node: NodeId, curve: &Option<Samples>) -> Option<Exc>
        requires { node.0 < length self.now }
        ensures { result ≡ table.refusal_at self.now node.0 (table.curve_refusal curve.now) }
    {
        self.node(node).kind.set_curve_refusal(curve)
    }
}
