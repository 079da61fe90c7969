ghost use Rattle.std.specs.Prelude.{◌≡◌, ◌<◌, ◌≤◌, length};

use wa_base::Fix;

// Numbers that look random: a linear congruential generator, whose upper bits are taken.
#[derive(Drop)]
pub struct Random {
    state: u64,
}

impl Random {
    pub fn new(seed: u64) -> Random {
        Random { state: seed }
    }

    pub fn below(&mut self, bound: u64) -> u64
        requires { 0 < bound }
        ensures { result < bound }
    {
        self.state = self
            .state
            .wrapping_mul(6_364_136_223_846_793_005)
            .wrapping_add(1_442_695_040_888_963_407);
        (self.state >> 33) % bound
    }

    // A sample from the whole range.
    pub fn any_sample(&mut self) -> Fix {
        (self.below(1 << 31) as i64 * 2 - 2_147_483_648) as i32
    }

    // A sample: mostly between -2.0 and 2.0, and now and then one of the ends of its range.
    pub fn sample(&mut self) -> Fix {
        match self.below(40) {
            0 => -2_147_483_648,
            1 => 2_147_483_647,
            2..=5 => 0,
            _ => self.below(67_108_865) as i32 - 33_554_432,
        }
    }

    // A coefficient: one of the ends, 0, 1.0, the negative one next to 0, a power of two, or any other.
    fn coefficient(&mut self) -> Fix {
        match self.below(12) {
            0 => -2_147_483_648,
            1 => 2_147_483_647,
            2 | 3 => 0,
            4 => 16_777_216,
            5 => -1,
            6 | 7 => 1 << self.below(31),
            _ => self.below(67_108_865) as i32 - 33_554_432,
        }
    }

    pub fn coefficients(&mut self) -> [Fix; 21] {
        let mut list = [0; 21];
        for item in &mut list {
            *item = self.coefficient();
        }
        list
    }

    // The first feedback coefficient: the one that is there, or a great one.
    pub fn divisor(&mut self, first: Fix) -> Fix {
        match self.below(4) {
            0 => 1 << 30,
            1 => -1_000_000_007,
            _ => first,
        }
    }

    pub fn samples(&mut self) -> [Fix; 32] {
        let mut list = [0; 32];
        for item in &mut list {
            *item = self.sample();
        }
        list
    }

    // How many coefficients a list has: now and then none, or one too many.
    pub fn count(&mut self) -> usize
        ensures { result ≤ 21 }
    {
        match self.below(24) {
            0 => 0,
            1 => 21,
            _ => 1 + self.below(20) as usize,
        }
    }
}
