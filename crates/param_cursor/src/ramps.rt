ghost use Rattle.std.specs.Prelude.{◌≡◌, ℕ, ℤ, pos, length, ◌+◌, ◌<◌, ◌≤◌, FitsSigned, IfSome, option_copied, slice_index_or};
ghost use Rattle.std.specs.Int.{w32};
ghost use Rattle.param_events.specs.Events.{time_of};
ghost use Rattle.param_events.specs.Values as values;
ghost use Rattle.param_cursor.specs.Ramps.{LastsFor, rise_at};

use crate::drawing::{Segment, draw_steps};
use crate::levels::held_from;
use param_events::Event;
use wa_base::Fix;

/// A line that all frames of a block lie on: from one value to another in so many frames, of which
/// `begun` lie before the block.
#[derive(Clone, Copy, PartialEq, Eq, Debug)]
pub struct Ramp {
    pub from: Fix,
    pub to: Fix,
    pub parts: u64,
    pub begun: u64,
}

impl Ramp {
    /// Writes the values of the first frames of the block. It divides for the first of them and for the
    /// step alone.
    pub fn write(&self, out: &mut [Fix])
        requires { LastsFor self.now (length out.old) }
        ensures values { (m : ℕ) → m < length out.new → slice_index_or out.new m (pos 0) ≡ rise_at self.now m }
        ensures fits { (m : ℕ) → m < length out.new → FitsSigned w32 (rise_at self.now m) }
    {
        let segment = Segment {
            from: self.from,
            to: self.to,
            parts: self.parts,
        };
        let end = out.len();
        draw_steps(out, 0, end, segment, self.begun, 1);
    }
}

// The ramp that a block of more than one frame lies on, after one event and before the next: from a
// value that was set, or that a ramp led to.
pub(crate) fn ramp_between(
    here: Option<&Event>,
    next: Option<&Event>,
    first: u64,
    frames: usize,
) -> Option<Ramp>
    requires begun { IfSome (option_copied here) (λ event. time_of event ≤ first) }
    requires later { IfSome (option_copied next) (λ event. first + frames ≤ time_of event) }
    ensures value { IfSome result (λ ramp. (base : ℤ) (m : ℕ) → values.between base (option_copied here.entry) (option_copied next.entry) (first + m) ≡ rise_at ramp m) }
    ensures lasts { IfSome result (λ ramp. LastsFor ramp frames) }
    ensures long { IfSome result (λ ramp. 1 < frames) }
{
    if frames <= 1 {
        return None;
    }
    let Some(
        Event::Ramp {
            time: end,
            value: to,
        },
    ) = next
    else {
        return None;
    };
    let held = held_from(here?)?;
    Some(Ramp {
        from: held.value,
        to: *to,
        parts: *end - held.from,
        begun: first - held.from,
    })
}
