ghost use Rattle.std.specs.Prelude.{◌≡◌, OnOk, OnErr};
ghost use Rattle.conn_graph.specs.Walks.{CountsEdits};
ghost use Rattle.meaning.specs.Validity.{IsValid};
ghost use Rattle.meaning.specs.World.{plain};
ghost use Rattle.control_msgs.specs.Messages.{after_message, IsAcceptedBy};

use crate::ends::mark_ended;
use meaning::{Change, World};
use wa_base::NoMemory;

/// What changed in the world of the control side. Frames count from the start of the context.
#[derive(Drop)]
pub enum Message {
    /// An accepted call changed it.
    Change(Change),
    /// The current value of each parameter became its intrinsic value at this frame, the first of a
    /// quantum.
    Slots(u64),
    /// The sources that end before the quantum that begins at this frame have ended.
    Ended(u64),
}

impl Message {
    /// Makes the same change in a world. After `NoMemory` the world is as before.
    pub(crate) fn apply_to(&self, world: &mut World) -> Result<(), NoMemory>
        requires valid { IsValid world.old }
        requires accepted { IsAcceptedBy (plain world.old) self.now }
        ensures ok { OnOk result (plain world.new ≡ after_message (plain world.old) self.now) }
        ensures valid { IsValid world.new }
        ensures graph { CountsEdits world.old.graph world.new.graph }
        ensures err { OnErr result (plain world.new ≡ plain world.old) }
    {
        match self {
            Message::Change(change) => world.apply(change),
            Message::Slots(first) => {
                world.set_slots(*first);
                Ok(())
            }
            Message::Ended(next) => {
                mark_ended(world, *next);
                Ok(())
            }
        }
    }
}
