ghost use Rattle.std.specs.Prelude.{◌≡◌, ◌<◌};
ghost use Rattle.load_gen.specs.Voices.{next_state, number_of};

/// A linear congruential generator of random numbers.
#[derive(Clone, Copy)]
pub struct Random {
    /// Below 2^31 once a number was drawn.
    pub state: u32,
}

impl Random {
    /// Draws a number below `most`.
    pub fn draw(&mut self, most: u32) -> u32
        requires some { 0 < most }
        ensures state { self.new.state ≡ next_state self.old.state }
        ensures number { result ≡ number_of self.new.state most }
        ensures below { result < most }
    {
        let next = (1_103_515_245 * u64::from(self.state) + 12_345) % 2_147_483_648;
        self.state = next as u32;
        self.state / 65_536 % most
    }
}
