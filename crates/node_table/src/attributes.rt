ghost use Rattle.std.specs.Prelude.{◌≡◌, ◌<◌, length, OnOk, OnErr};
ghost use Rattle.std.specs.Result.{result_err};
ghost use Rattle.node_table.specs.Nodes as table;

use crate::nodes::{Node, Nodes};
use wa_base::{Exc, Interp, Mode, NodeId};

/// How the channels of a node's inputs are mixed, set anew (the recommendation's section on the
/// attributes of AudioNode). Only the node that is named changes, and a refused call changes nothing.
impl Nodes {
    /// Sets channelCount. It is refused with NotSupportedError for 0 and for more than 32, of a
    /// node that has at most two channels for more than 2, and with InvalidStateError where another count
    /// would take the place of a fixed one.
    pub fn set_count(&mut self, node: NodeId, count: u32) -> Result<(), Exc>
        requires { node.0 < length self.old }
        ensures refusal { result_err result ≡ table.refusal_at self.old node.0 (table.count_refusal count) }
        ensures ok { OnOk result (self.new ≡ table.changed_at node.0 (table.with_count count) self.old) }
        ensures err { OnErr result (self.new ≡ self.old) }
    {
        if let Some(exc) = self.count_refusal(node, count) {
            return Err(exc);
        }
        self.nodes[node.0 as usize].attrs.count = count;
        Ok(())
    }

    /// The exception with which `set_count` would refuse a count now.
    pub fn count_refusal(&self, node: NodeId, count: u32) -> Option<Exc>
        requires { node.0 < length self.now }
        ensures { result ≡ table.refusal_at self.now node.0 (table.count_refusal count) }
    {
        let Node { kind, attrs } = self.node(node);
        let row = kind.row();
        if count == 0 || count > row.most_channels() {
            return Some(Exc::NotSupported(None));
        }
        fixed_refusal(row.fixed.count, attrs.count == count)
    }

    /// Sets channelCountMode. It is refused with NotSupportedError for `max` on a node that has at most
    /// two channels, and with InvalidStateError where another mode would take the place of a fixed one.
    pub fn set_mode(&mut self, node: NodeId, mode: Mode) -> Result<(), Exc>
        requires { node.0 < length self.old }
        ensures refusal { result_err result ≡ table.refusal_at self.old node.0 (table.mode_refusal mode) }
        ensures ok { OnOk result (self.new ≡ table.changed_at node.0 (table.with_mode mode) self.old) }
        ensures err { OnErr result (self.new ≡ self.old) }
    {
        if let Some(exc) = self.mode_refusal(node, mode) {
            return Err(exc);
        }
        self.nodes[node.0 as usize].attrs.mode = mode;
        Ok(())
    }

    /// The exception with which `set_mode` would refuse a mode now.
    pub fn mode_refusal(&self, node: NodeId, mode: Mode) -> Option<Exc>
        requires { node.0 < length self.now }
        ensures { result ≡ table.refusal_at self.now node.0 (table.mode_refusal mode) }
    {
        let Node { kind, attrs } = self.node(node);
        let row = kind.row();
        if row.at_most_stereo && mode == Mode::Max {
            return Some(Exc::NotSupported(None));
        }
        fixed_refusal(row.fixed.mode, attrs.mode == mode)
    }

    /// Sets channelInterpretation. It is refused with InvalidStateError where another interpretation
    /// would take the place of a fixed one.
    pub fn set_interp(&mut self, node: NodeId, interp: Interp) -> Result<(), Exc>
        requires { node.0 < length self.old }
        ensures refusal { result_err result ≡ table.refusal_at self.old node.0 (table.interp_refusal interp) }
        ensures ok { OnOk result (self.new ≡ table.changed_at node.0 (table.with_interp interp) self.old) }
        ensures err { OnErr result (self.new ≡ self.old) }
    {
        if let Some(exc) = self.interp_refusal(node, interp) {
            return Err(exc);
        }
        self.nodes[node.0 as usize].attrs.interp = interp;
        Ok(())
    }

    /// The exception with which `set_interp` would refuse an interpretation now.
    pub fn interp_refusal(&self, node: NodeId, interp: Interp) -> Option<Exc>
        requires { node.0 < length self.now }
        ensures { result ≡ table.refusal_at self.now node.0 (table.interp_refusal interp) }
    {
        let Node { kind, attrs } = self.node(node);
        fixed_refusal(kind.row().fixed.interp, attrs.interp == interp)
    }
}

// Why a value is refused that would take the place of another.
fn fixed_refusal(is_fixed: bool, is_same: bool) -> Option<Exc>
    ensures { result ≡ table.fixed_refusal is_fixed is_same }
{
    if is_fixed && !is_same {
        Some(Exc::InvalidState)
    } else {
        None
    }
}
