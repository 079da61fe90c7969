ghost use Rattle.std.specs.Prelude.{ℕ, ◌<◌, ◌≤◌, ◌+◌, ◌^◌};

use param_events::{ParamErr, Timeline};
use std::alloc::Global;
use wa_base::{Fix, NoMemory};

// Numbers that look random: a linear congruential generator, whose upper bits are taken.
#[derive(Drop)]
pub struct Random {
    state: u64,
}

impl Random {
    pub fn new(seed: u64) -> Random {
        Random { state: seed }
    }

    pub fn below(&mut self, bound: u64) -> u64
        requires { 0 < bound }
        ensures { result < bound }
    {
        self.state = self
            .state
            .wrapping_mul(6_364_136_223_846_793_005)
            .wrapping_add(1_442_695_040_888_963_407);
        (self.state >> 33) % bound
    }

    // A value near 0, or one of all.
    pub fn value(&mut self) -> Fix {
        match self.below(4) {
            0 => -2_147_483_648,
            1 => 2_147_483_647,
            _ => self.below(2_001) as i32 - 1_000,
        }
    }

    // A frame, with many that are equal; now and then it is negative or far away.
    fn time(&mut self) -> i64 {
        match self.below(20) {
            0 => -1,
            1 => 1 << 40,
            _ => self.below(300) as i64,
        }
    }

    fn duration(&mut self) -> i64 {
        match self.below(20) {
            0 => 0,
            1 => 1 << 40,
            _ => self.below(90) as i64,
        }
    }
}

// Schedules something, which may be refused.
pub fn edit(line: &mut Timeline, random: &mut Random, now: u64) -> Result<(), ParamErr>
    requires { now ≤ 2 ^ 62 }
{
    let (value, time) = (random.value(), random.time());
    match random.below(9) {
        0 | 1 => line.set_value(now, value, time),
        2 | 3 => line.ramp(now, value, time),
        4 | 5 => {
            let points = [value, random.value(), 7, random.value(), value];
            let count = random.below(6) as usize;
            line.curve(now, &points[..count], time, random.duration())
        }
        6 => line.set_now(now, value),
        7 => line.cancel(now, time),
        _ => line.hold(now, time),
    }
}

// A timeline after some edits, of which some are refused, while time goes on.
pub fn timeline(alloc: Global, random: &mut Random) -> Result<Timeline, NoMemory> {
    let mut line = Timeline::new(alloc, random.value());
    let count = random.below(14);
    let pace = random.below(12);
    for i in 0..count {
        if let Err(ParamErr::NoMemory) = edit(&mut line, random, i * pace) {
            return Err(NoMemory);
        }
        if random.below(3) == 0 {
            line.mark(random.value());
        }
    }
    Ok(line)
}
