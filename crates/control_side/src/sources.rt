ghost use Rattle.std.specs.Prelude.{◌≡◌};
ghost use Rattle.script_ast.specs.Operations.{interface_of};
ghost use Rattle.meaning.specs.Sources.{IsNamedBy};
ghost use Rattle.control_side.specs.Step as spec;

use crate::control::Control;
use crate::decide::{Decided, refused};
use meaning::{Edit, LoopPart, SourceEdit};
use script_ast::{Interface, Op};
use wa_base::{Exc, Name};

// What the operations on sources come to (the AudioScheduledSourceNode and AudioBufferSourceNode
// interfaces).
impl Control {
    #[tactic(auto, unfolding(crate::specs::Step::decided))]
    pub(crate) fn decide_on_source(&self, op: &Op) -> Decided
        requires { interface_of op.now ≡ Interface.Source }
        ensures { result ≡ spec.decided self.now op.now }
    {
        match op {
            Op::Start {
                node,
                when,
                offset,
                duration,
            } => self.start_source(node, *when, *offset, *duration),
            Op::Stop { node, when } => self.stop_source(node, *when),
            Op::SetBuffer { node, buffer } => self.set_buffer(node, buffer),
            Op::SetLoop { node, value } => self.set_loop(node, LoopPart::On(*value)),
            Op::SetLoopStart { node, value } => self.set_loop(node, LoopPart::First(*value)),
            Op::SetLoopEnd { node, value } => self.set_loop(node, LoopPart::End(*value)),
            _ => unreachable!(),
        }
    }

    fn edit_source(&self, node: &Name, edit: SourceEdit) -> Decided
        requires { IsNamedBy self.now.world.store edit }
        ensures { result ≡ spec.edits_node self.now (spec.node_named self.now node.now) (λ n. Edit.Source n edit) }
    {
        match self.node_named(node) {
            Some(node) => self.edits(Edit::Source { node, edit }),
            None => refused(Exc::WrongType),
        }
    }

    fn start_source(&self, node: &Name, when: i64, offset: i64, duration: Option<i64>) -> Decided
        ensures { result ≡ spec.edits_node self.now (spec.node_named self.now node.now) (λ n. Edit.Source n (SourceEdit.Start when offset duration)) }
    {
        self.edit_source(
            node,
            SourceEdit::Start {
                when,
                offset,
                duration,
            },
        )
    }

    fn stop_source(&self, node: &Name, when: i64) -> Decided
        ensures { result ≡ spec.edits_node self.now (spec.node_named self.now node.now) (λ n. Edit.Source n (SourceEdit.Stop when)) }
    {
        self.edit_source(node, SourceEdit::Stop { when })
    }

    fn set_loop(&self, node: &Name, part: LoopPart) -> Decided
        ensures { result ≡ spec.edits_node self.now (spec.node_named self.now node.now) (λ n. Edit.Source n (SourceEdit.SetLoop part)) }
    {
        self.edit_source(node, SourceEdit::SetLoop { part })
    }

    fn set_buffer(&self, node: &Name, buffer: &Option<Name>) -> Decided
        ensures { result ≡ spec.sets_buffer self.now (spec.node_named self.now node.now) buffer.now }
    {
        let Some(node) = self.node_named(node) else {
            return refused(Exc::WrongType);
        };
        match self.given_buffer(buffer) {
            Ok(buffer) => {
                let edit = SourceEdit::SetBuffer { buffer };
                self.edits(Edit::Source { node, edit })
            }
            Err(exc) => refused(exc),
        }
    }
}
