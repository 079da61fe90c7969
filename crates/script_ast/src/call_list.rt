ghost use Rattle.std.specs.Prelude.{◌≡◌, ◌==◌, find, option_map};

use crate::operations::Op;
use wa_base::{ContextSpec, Items};

/// A call of a script.
#[derive(Drop)]
pub struct Call {
    /// The place of the call in document order, from 1 on.
    pub ordinal: u32,
    /// The ordinal of the call in whose `then` list this call stands; 0 in the main list.
    pub holder: u32,
    pub op: Op,
}

/// A list of calls.
pub type Calls = Items<Call>;

/// A script: the context that it asks for, and every call in order of ordinals, those of `then`
/// lists included.
#[derive(Drop)]
pub struct Script {
    pub context: ContextSpec,
    pub calls: Calls,
}

impl Script {
    /// The call with this ordinal; `None` where no call has it.
    pub fn find(&self, ordinal: u32) -> Option<&Call>
        ensures { option_map (λ call. call.now) result ≡ find (λ call. call.ordinal == ordinal) self.now.calls }
    {
        self.calls
            .as_slice()
            .iter()
            .find(|call| call.ordinal == ordinal)
    }
}
