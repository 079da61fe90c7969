ghost use Rattle.std.specs.Prelude.{◌≡◌, ◌<◌, ◌≤◌, ◌+◌, ◌^◌, ℕ, pos, length, slice_index_or, OnOk};
ghost use Rattle.wa_base.specs.Contexts.{IsQuantumSize};
ghost use Rattle.param_cursor.specs.Cursors.{place_at, within};
ghost use Rattle.automation.specs.Levels.{HasRoom, IsLevelOf};
ghost use Rattle.automation.specs.Held.{AreValues, Lasts};

use meaning::Param;
use param_cursor::{Cursor, Drawn, Ramp};
use std::alloc::Global;
use std::marker::Model;
use std::sync::ledger::Ledger;
use wa_base::{Fix, NoMemory, Rate, Steps};

/// The intrinsic values of a parameter in a render quantum (paramIntrinsicValue), in
/// units of 2^-24. At k-rate all have the value of the first frame.
#[derive(Drop)]
pub struct Level {
    rate: Rate,
    shape: Shape,
    // Room for a value for each frame: that of the level, where the shape has none.
    values: Vec<Fix>,
}

// Which values a level has: one at all frames, those of a ramp, or one that stands for each frame.
#[derive(Clone, Copy)]
enum Shape {
    Steady(Fix),
    Rising(Ramp),
    Each,
}

/// How a level holds its values: one that it has at all frames, the ramp that they lie on, or one for
/// each frame.
#[derive(Clone, Copy)]
pub enum Values<'a> {
    Steady(Fix),
    Rising(Ramp),
    Moving(&'a [Fix]),
}

// In which later quanta a level is the same.
#[derive(Clone, Copy)]
pub(crate) enum Lasting {
    // Those that end at or before a frame.
    Until(u64),
    Ever,
}

impl Model for Level {
    ghost use Rattle.std.specs.Prelude.{length};
    ghost use Rattle.automation.specs.Levels.{LevelView, GoesOn};

    ghost Value = { LevelView };

    ghost view = { λ s. record { rate = s.rate; shape = s.shape; values = s.values.items } };

    ghost invariant = { λ s. GoesOn (length s.values.items) s.shape };
}

impl Level {
    // Of no parameter. It takes no memory.
    pub(crate) fn empty(alloc: Global) -> Level {
        Level {
            rate: Rate::A,
            shape: Shape::Steady(0),
            values: Vec::new(alloc),
        }
    }

    // Takes the memory for a value for each frame.
    pub(crate) fn reserve(&mut self, frames: usize) -> Result<(), NoMemory>
        ensures { OnOk result (HasRoom frames self.new) }
    {
        if self.values.len() != frames {
            self.shape = Shape::Steady(0);
            self.values.resize(frames, 0)?;
        }
        Ok(())
    }

    // Takes the values of a parameter in the quantum of so many frames that begins at `first`. Returns
    // in which later quanta they are the same.
    pub(crate) fn take<L: Ledger>(
        &mut self,
        param: &Param,
        cursor: &mut Cursor,
        first: u64,
        frames: usize,
        steps: &mut Steps<L>,
    ) -> Lasting
        requires room { HasRoom frames self.old }
        requires quantum { IsQuantumSize frames }
        requires first { first ≤ 2 ^ 62 }
        requires stands { cursor.old ≡ place_at first param.now.line.events }
        ensures level { IsLevelOf frames param.now first self.new }
        ensures lasts { Lasts frames first self.new cursor.new param.now result }
        ensures cost { steps.new ≤ steps.old + 2 + length (within first (first + frames) param.now.line.events) }
    {
        self.rate = param.rate;
        let count = match param.rate {
            Rate::A => frames,
            Rate::K => 1,
        };
        let is_past = cursor.is_past(&param.line);
        let drawn = cursor.draw(&mut self.values[0..count], first, &param.line, steps);
        self.shape = match drawn {
            Drawn::Stays(stay) => Shape::Steady(stay.value),
            Drawn::Rises(ramp) => Shape::Rising(ramp),
            Drawn::Each if count == 1 => Shape::Steady(self.values[0]),
            Drawn::Each => Shape::Each,
        };
        match drawn {
            Drawn::Stays(_) if is_past => Lasting::Ever,
            Drawn::Stays(stay) => Lasting::Until(stay.until),
            Drawn::Rises(_) | Drawn::Each => Lasting::Until(0),
        }
    }

    /// The automation rate (AudioParam.automationRate).
    pub fn rate(&self) -> Rate
        ensures { result ≡ self.now.rate }
    {
        self.rate
    }

    /// All values of the quantum.
    pub fn values(&self) -> Values<'_>
        requires { IsQuantumSize (length self.now.values) }
        ensures { AreValues (length self.now.values) self.now result }
    {
        match self.shape {
            Shape::Steady(value) => Values::Steady(value),
            Shape::Rising(ramp) => Values::Rising(ramp),
            Shape::Each => Values::Moving(self.values.as_slice()),
        }
    }
}
