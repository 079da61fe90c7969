ghost use Rattle.std.specs.Prelude.{◌≡◌, ◌==◌, if◌then◌else◌};

use crate::known::Known;
use crate::tape::Tape;

/// What a search looks into.
#[derive(Clone, Copy)]
pub struct Context<'a> {
    /// The number of frames in a quantum.
    pub quantum: u32,
    pub tape: &'a Tape,
    pub known: &'a Known,
}

/// How far a search came: so many groups of needs stand, and so many needs of the next group.
#[derive(Clone, Copy)]
pub struct Place {
    pub group: u64,
    pub item: u64,
}

impl Place {
    /// Before the first need.
    pub const FIRST: Place = Place { group: 0, item: 0 };

    // How many needs of the first group are known to stand, while the search is there.
    pub(crate) fn items_of_first(self) -> u64
        ensures { result ≡ if self.group == 0 then self.item else 0 }
    {
        if self.group == 0 { self.item } else { 0 }
    }
}
