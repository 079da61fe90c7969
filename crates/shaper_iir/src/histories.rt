ghost use Rattle.std.specs.Prelude.{◌≡◌, ◌≤◌, true, unsigned_abs};
ghost use Rattle.node_table.specs.Filters.{IsFilter, next_output};
ghost use Rattle.shaper_iir.specs.Histories as histories;
ghost use Rattle.shaper_iir.specs.Histories.{in_front};
ghost use Rattle.shaper_iir.specs.Scales.{IsQuiet, IsScale, IsSmall};

use crate::quotients::quotient;
use crate::scales::{Scale, are_within};
use crate::sums::{difference, dot, small_difference, small_dot};
use wa_base::Fix;

/// How many inputs and outputs are kept: the most coefficients of a filter.
pub(crate) const KEPT: usize = 20;

// A channel of a filter: the newest inputs and outputs, the newest of all first.
#[derive(Clone, Copy)]
pub(crate) struct History {
    pub(crate) inputs: [Fix; KEPT],
    pub(crate) outputs: [Fix; KEPT],
}

impl History {
    // Hears one frame, and gives the output; in 64 bits where all that is heard and put out is small.
    pub(crate) fn hear(
        &mut self,
        forward: &[Fix],
        back: &[Fix],
        scale: &Scale,
        is_small: bool,
        x: Fix,
    ) -> Fix
        requires filter { IsFilter forward.now back.now }
        requires scale { IsScale scale.now forward.now back.now }
        requires history { is_small ≡ true → IsQuiet scale.now.reach self.old }
        requires x { is_small ≡ true → unsigned_abs x ≤ scale.now.reach }
        ensures history { self.new ≡ histories.next_history forward.now back.now self.old x }
        ensures output { result ≡ next_output forward.now back.now (in_front x self.old.inputs) self.old.outputs }
    {
        push_front(&mut self.inputs, x);
        let y = if is_small {
            small_output(forward, back, scale, &self.inputs, &self.outputs)
        } else {
            output(forward, back, &self.inputs, &self.outputs)
        };
        push_front(&mut self.outputs, y);
        y
    }

    // Whether all that is kept is so near to 0.
    pub(crate) fn is_quiet(&self, reach: u64) -> bool
        ensures { result ≡ true → IsQuiet reach self.now }
    {
        are_within(&self.inputs, reach) && are_within(&self.outputs, reach)
    }
}

// The next output, where this frame's input is there already.
fn output(forward: &[Fix], back: &[Fix], inputs: &[Fix; KEPT], outputs: &[Fix; KEPT]) -> Fix
    requires { IsFilter forward.now back.now }
    ensures { result ≡ next_output forward.now back.now inputs.now outputs.now }
{
    let ahead = dot(forward, inputs);
    let fed_back = dot(&back[1..], outputs);
    quotient(difference(ahead, fed_back), back[0])
}

// The same in 64 bits.
fn small_output(
    forward: &[Fix],
    back: &[Fix],
    scale: &Scale,
    inputs: &[Fix; KEPT],
    outputs: &[Fix; KEPT],
) -> Fix
    requires filter { IsFilter forward.now back.now }
    requires scale { IsScale scale.now forward.now back.now }
    requires small { IsSmall scale.now.reach inputs.now outputs.now }
    ensures { result ≡ next_output forward.now back.now inputs.now outputs.now }
{
    let ahead = small_dot(forward, inputs);
    let fed_back = small_dot(&back[1..], outputs);
    scale.quotient(small_difference(ahead, fed_back))
}

// Puts an item in front; the oldest one is dropped.
fn push_front(items: &mut [Fix; KEPT], x: Fix)
    ensures { items.new ≡ in_front x items.old }
{
    // In this order the compiler moves the items in registers.
    let old = *items;
    items[1..].copy_from_slice(&old[..KEPT - 1]);
    items[0] = x;
}
