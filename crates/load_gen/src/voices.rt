ghost use Rattle.std.specs.Prelude.{◌≡◌, ◌<◌, ◌*◌, ◌+◌, IfOk};
ghost use Rattle.load_gen.specs.Voices as voices;

use crate::names::{DESTINATION, GAIN, connected, delay, feedback, gain, source, text};
use crate::random::Random;
use node_table::Kind;
use script_ast::Op;
use std::alloc::Global;
use std::marker::Model;
use wa_base::{Fix, NoMemory};

/// A voice: its place, from 0 on, and what was drawn for it.
#[derive(Drop)]
pub struct Voice {
    place: u32,
    offset: u32,
    gain: u32,
    time: u32,
    delay: u32,
}

impl Model for Voice {
    ghost use Rattle.load_gen.specs.Voices.{Voice, IsVoice};

    ghost Value = { Voice };

    ghost view = { λ v. record { place = v.place; offset = v.offset; gain = v.gain; time = v.time; delay = v.delay } };

    ghost invariant = { λ v. IsVoice (record { place = v.place; offset = v.offset; gain = v.gain; time = v.time; delay = v.delay }) };
}

impl Voice {
    /// Draws the voice at a place, from 0 to 199.
    pub fn draw(random: &mut Random, place: u32) -> Voice
        requires { place < 200 }
        ensures voice { result ≡ voices.next_voice random.old.state place }
        ensures state { random.new.state ≡ voices.state_after 4 random.old.state }
    {
        Voice {
            place,
            offset: random.draw(2048),
            gain: random.draw(32_768),
            time: random.draw(4096),
            delay: random.draw(240),
        }
    }

    /// A source through a gain, whose gain goes from 0 along a ramp.
    pub fn ramp_ops(&self, alloc: Global) -> Result<Vec<Op>, NoMemory>
        ensures { IfOk result (λ ops. ops.items ≡ voices.ramp_ops self.now) }
    {
        let place = self.place;
        Ok(vec![in alloc;
            Op::Create {
                name: source(alloc, place)?,
                kind: Kind::Constant {
                    offset: level_of(self.offset),
                },
            },
            Op::Create {
                name: gain(alloc, place)?,
                kind: Kind::Gain { gain: 0 },
            },
            Op::SetValueAtTime {
                node: gain(alloc, place)?,
                param: text(alloc, GAIN)?,
                value: 0,
                time: 0,
            },
            Op::LinearRampToValueAtTime {
                node: gain(alloc, place)?,
                param: text(alloc, GAIN)?,
                value: (self.gain * 256) as Fix,
                time: i64::from(1 + 64 * self.time),
            },
            connected(source(alloc, place)?, gain(alloc, place)?),
        ]?)
    }

    /// Each eighth voice goes through a delay, and the others go to the destination.
    pub fn way_ops(&self, alloc: Global) -> Result<Vec<Op>, NoMemory>
        ensures { IfOk result (λ ops. ops.items ≡ voices.way_ops self.now) }
    {
        if self.place % 8 == 7 {
            return self.delay_ops(alloc);
        }
        let way = connected(gain(alloc, self.place)?, text(alloc, DESTINATION)?);
        Ok(vec![in alloc; way]?)
    }

    // The gain through a delay that is fed back by half.
    fn delay_ops(&self, alloc: Global) -> Result<Vec<Op>, NoMemory>
        ensures { IfOk result (λ ops. ops.items ≡ voices.delay_ops self.now) }
    {
        let place = self.place;
        Ok(vec![in alloc;
            Op::CreateDelay {
                name: delay(alloc, place)?,
                max_delay_time: 16_777_216,
                delay_time: (self.delay * 65_536) as Fix,
            },
            Op::Create {
                name: feedback(alloc, place)?,
                kind: Kind::Gain { gain: 8_388_608 },
            },
            connected(gain(alloc, place)?, delay(alloc, place)?),
            connected(delay(alloc, place)?, feedback(alloc, place)?),
            connected(feedback(alloc, place)?, delay(alloc, place)?),
            connected(delay(alloc, place)?, text(alloc, DESTINATION)?),
        ]?)
    }

    /// When the voice starts and stops.
    pub fn time_ops(&self, alloc: Global) -> Result<Vec<Op>, NoMemory>
        ensures { IfOk result (λ ops. ops.items ≡ voices.time_ops self.now) }
    {
        let start = Op::Start {
            node: source(alloc, self.place)?,
            when: i64::from(128 * (self.place % 50)),
            offset: 0,
            duration: None,
        };
        let stop = Op::Stop {
            node: source(alloc, self.place)?,
            when: i64::from(240_000 + 128 * self.place),
        };
        Ok(vec![in alloc; start, stop]?)
    }
}

// The offset of a voice's source, around 0.
fn level_of(offset: u32) -> Fix
    requires { offset < 2048 }
    ensures { result ≡ voices.level_of offset }
{
    (offset as i32 - 1024) * 64
}
