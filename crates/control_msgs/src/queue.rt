ghost use Rattle.std.specs.Prelude.{◌≡◌, ◌<◌, ◌≤◌, ◌+◌, ◌-◌, ◌∷◌, ◌++◌, [], ℕ, take, drop, OnOk, OnErr};
ghost use Rattle.conn_graph.specs.Walks.{CountsEdits};
ghost use Rattle.meaning.specs.Validity.{IsValid};
ghost use Rattle.meaning.specs.World.{plain};
ghost use Rattle.control_msgs.specs.Messages.{after_message, after_messages, IsAcceptedBy, AreAcceptedBy};

use crate::message::Message;
use meaning::World;
use std::alloc::Global;
use std::collections::VecDeque;
use std::marker::Model;
use wa_base::NoMemory;

/// Messages that are still to be heard, in their order.
#[derive(Drop)]
pub struct Queue {
    messages: VecDeque<Message>,
}

impl Model for Queue {
    ghost use Rattle.std.specs.Prelude.{◌-◌};
    ghost use Rattle.std.specs.VecDeque.{deque_len, deque_capacity};
    ghost use Rattle.control_msgs.specs.Messages.{QueueView};

    ghost Value = { QueueView };

    ghost view = { λ q. record { messages = q.messages.items; room = deque_capacity q.messages - deque_len q.messages } };
}

impl Queue {
    /// The empty queue. It takes no memory until it grows.
    pub fn new(alloc: Global) -> Queue
        ensures { result.messages ≡ [] }
    {
        Queue {
            messages: VecDeque::new(alloc),
        }
    }

    /// Makes room for so many more messages.
    pub fn reserve(&mut self, more: usize) -> Result<(), NoMemory>
        ensures messages { self.new.messages ≡ self.old.messages }
        ensures room { OnOk result (more ≤ self.new.room) }
        ensures kept { self.old.room ≤ self.new.room }
    {
        self.messages.reserve(more)?;
        Ok(())
    }

    /// Appends a message, for which there is room. It takes no memory.
    pub fn post(&mut self, message: Message)
        requires { 0 < self.old.room }
        ensures messages { self.new.messages ≡ self.old.messages ++ message ∷ [] }
        ensures room { self.new.room + 1 ≡ self.old.room }
    {
        self.messages.push_back_reserved(message);
    }

    /// Makes the changes of all messages in a world, in their order, and empties the queue. After
    /// `NoMemory` the messages that were heard are gone, the others are kept in order, and it can be
    /// called again. Either way, where the number of the graph's edits stays, so does the graph.
    pub fn drain_into(&mut self, world: &mut World) -> Result<(), NoMemory>
        requires valid { IsValid world.old }
        requires accepted { AreAcceptedBy (plain world.old) self.old.messages }
        ensures ok { OnOk result ((self.new.messages ≡ []) × (plain world.new ≡ after_messages (plain world.old) self.old.messages)) }
        ensures valid { IsValid world.new }
        ensures graph { CountsEdits world.old.graph world.new.graph }
        ensures err { OnErr result ((heard : ℕ) × (self.new.messages ≡ drop heard self.old.messages) × (plain world.new ≡ after_messages (plain world.old) (take heard self.old.messages))) }
        ensures accepted { AreAcceptedBy (plain world.new) self.new.messages }
        ensures left { after_messages (plain world.new) self.new.messages ≡ after_messages (plain world.old) self.old.messages }
        ensures room { self.old.room ≤ self.new.room }
    {
        while let Some(message) = self.messages.pop_front() {
            self.hear(message, world)?;
        }
        Ok(())
    }

    // Makes the change of a message that was the first one. After `NoMemory` the message is the first
    // one again, and the world is as before.
    fn hear(&mut self, message: Message, world: &mut World) -> Result<(), NoMemory>
        requires valid { IsValid world.old }
        requires accepted { IsAcceptedBy (plain world.old) message }
        requires room { 0 < self.old.room }
        ensures ok { OnOk result ((self.new ≡ self.old) × (plain world.new ≡ after_message (plain world.old) message)) }
        ensures valid { IsValid world.new }
        ensures graph { CountsEdits world.old.graph world.new.graph }
        ensures err { OnErr result ((self.new.messages ≡ message ∷ self.old.messages) × (plain world.new ≡ plain world.old)) }
        ensures room { OnErr result (self.new.room + 1 ≡ self.old.room) }
    {
        if let Err(lack) = message.apply_to(world) {
            self.messages.push_front_reserved(message);
            return Err(lack);
        }
        Ok(())
    }
}
