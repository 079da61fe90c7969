ghost use Rattle.std.specs.Prelude.{◌≡◌, ◌↔◌, ℕ, pos, length, ◌+◌, ◌<◌, ◌≤◌, ◌^◌, option_copied, slice_index_or, slice_get, take, IsTrue};
ghost use Rattle.param_events.specs.Events.{last};
ghost use Rattle.param_events.specs.Timeline.{IsTimeline};
ghost use Rattle.param_events.specs.Values.{value_at};
ghost use Rattle.param_cursor.specs.Cursors as cursors;
ghost use Rattle.param_cursor.specs.Ramps.{IfRises, IfStays, LastsFor, rise_at};
ghost use Rattle.param_cursor.specs.declared.levels.Drawn.TheVariants.{Each};

use crate::drawing::draw_level;
use crate::levels::{Drawn, Stay, level, stay_until};
use crate::ramps::ramp_between;
use crate::spans::{Around, block_end, draw_around};
use param_events::{Event, Timeline};
use std::marker::Model;
use std::sync::ledger::Ledger;
use wa_base::{Fix, Steps};

/// A place in a timeline: how many of its events have a time before a frame. The cursor stands at that
/// frame. It keeps no event, so after an edit of the timeline it is moved by `reseek`.
///
/// A call looks at an event only through `Timeline::look`, and each look is a step.
#[derive(Clone, Copy, PartialEq, Eq)]
pub struct Cursor {
    place: usize,
}

impl Model for Cursor {
    ghost use Rattle.std.specs.Prelude.{ℕ};

    ghost Value = { ℕ };

    ghost view = { λ c. c.place };

    ghost inverse = { λ place. record { place = place } };
}

impl Cursor {
    /// A cursor that stands at frame 0, of any timeline.
    pub fn new() -> Cursor
        ensures { result ≡ 0 }
    {
        Cursor { place: 0 }
    }

    /// Moves the cursor to a frame, by a binary search: it looks at no more events than the number of
    /// events has binary digits.
    pub fn reseek<L: Ledger>(&mut self, first: u64, line: &Timeline, steps: &mut Steps<L>)
        ensures stands { self.new ≡ cursors.place_at first line.now.events }
        ensures cost { (d : ℕ) → length line.now.events < 2 ^ d → steps.new ≤ steps.old + d }
    {
        let mut low = 0;
        let mut high = line.len();
        while low < high {
            let middle = low + (high - low) / 2;
            if line.look(middle, steps).time() < first {
                low = middle + 1;
            } else {
                high = middle;
            }
        }
        self.place = low;
    }

    // The event before a place, for one look, where there is one.
    fn event_before<'a, L: Ledger>(
        place: usize,
        line: &'a Timeline,
        steps: &mut Steps<L>,
    ) -> Option<&'a Event>
        requires { place ≤ length line.now.events }
        ensures value { option_copied result ≡ last (take place line.now.events) }
        ensures cost { steps.new ≤ steps.old + 1 }
    {
        if place == 0 {
            None
        } else {
            Some(line.look(place - 1, steps))
        }
    }

    // The event at a place, for one look, where there is one.
    fn event_at<'a, L: Ledger>(
        place: usize,
        line: &'a Timeline,
        steps: &mut Steps<L>,
    ) -> Option<&'a Event>
        ensures value { option_copied result ≡ slice_get line.now.events place }
        ensures timeline { IsTimeline line.now.events }
        ensures fits { length line.now.events < 2 ^ 64 }
        ensures cost { steps.new ≤ steps.old + 1 }
    {
        if place < line.len() {
            Some(line.look(place, steps))
        } else {
            None
        }
    }

    /// Whether no event of a timeline is to come: whether each has a time before the frame at which the
    /// cursor stands.
    pub fn is_past(&self, line: &Timeline) -> bool
        ensures { IsTrue result ↔ self.now ≡ length line.now.events }
    {
        self.place == line.len()
    }

    /// Takes the intrinsic values of a block of at most 1,024 frames that begins where the cursor stands,
    /// and moves the cursor behind it. It answers the value that all frames have, and how long it stays and
    /// the cursor stands, or the ramp that all frames lie on, of which there are two at least, and writes
    /// nothing; or it writes a value for each. Where no event is to come, a value that all frames have is
    /// that of all later frames too. It looks at no more than two events, and those with a time in the block.
    ///
    /// A ramp, and a curve between two of its points, is divided out only where it begins or the block
    /// does. From there on each frame takes an addition and a comparison.
    pub fn draw<L: Ledger>(
        &mut self,
        out: &mut [Fix],
        first: u64,
        line: &Timeline,
        steps: &mut Steps<L>,
    ) -> Drawn
        requires first { first ≤ 2 ^ 62 }
        requires frames { length out.old ≤ 1024 }
        requires stands { self.old ≡ cursors.place_at first line.now.events }
        ensures level { IfStays result (λ stay. (later : ℕ) → first ≤ later → later < stay.until → value_at line.now.base line.now.events later ≡ stay.value) }
        ensures within { IfStays result (λ stay. first + length out.new ≤ stay.until) }
        ensures stays { IfStays result (λ stay. (later : ℕ) → first ≤ later → later ≤ stay.until → self.new ≡ cursors.place_at later line.now.events) }
        ensures lasts { self.old ≡ length line.now.events → IfStays result (λ stay. (later : ℕ) → first ≤ later → value_at line.now.base line.now.events later ≡ stay.value) }
        ensures rises { IfRises result (λ ramp. (m : ℕ) → m < length out.new → value_at line.now.base line.now.events (first + m) ≡ rise_at ramp m) }
        ensures lies { IfRises result (λ ramp. LastsFor ramp (length out.new)) }
        ensures long { IfRises result (λ ramp. 1 < length out.new) }
        ensures values { result ≡ Each → (m : ℕ) → m < length out.new → slice_index_or out.new m (pos 0) ≡ value_at line.now.base line.now.events (first + m) }
        ensures stands { self.new ≡ cursors.place_at (first + length out.new) line.now.events }
        ensures moved { steps.new + self.old ≤ steps.old + 2 + self.new }
        ensures cost { steps.new ≤ steps.old + 2 + length (cursors.within first (first + length out.new) line.now.events) }
    {
        let count = out.len();
        let mut place = self.place;
        let mut here = Self::event_before(place, line, steps);
        let mut next = Self::event_at(place, line, steps);
        let mut end = block_end(next, first, count);
        if end == count {
            if let Some(value) = level(line.base(), here, next, first) {
                return Drawn::Stays(Stay {
                    value,
                    until: stay_until(next),
                });
            }
            if let Some(ramp) = ramp_between(here, next, first, count) {
                return Drawn::Rises(ramp);
            }
        }
        draw_around(out, 0, end, Around { place, here, next }, line, first);
        while end < count {
            here = next;
            place += 1;
            next = Self::event_at(place, line, steps);
            let at = end;
            end = block_end(next, first, count);
            draw_around(out, at, end, Around { place, here, next }, line, first);
        }
        self.place = place;
        Drawn::Each
    }

    /// Writes the intrinsic values of a block of at most 1,024 frames that begins where the cursor
    /// stands, and moves the cursor behind it. It looks at no more than two events, and those with a
    /// time in the block.
    pub fn fill<L: Ledger>(
        &mut self,
        out: &mut [Fix],
        first: u64,
        line: &Timeline,
        steps: &mut Steps<L>,
    )
        requires first { first ≤ 2 ^ 62 }
        requires frames { length out.old ≤ 1024 }
        requires stands { self.old ≡ cursors.place_at first line.now.events }
        ensures values { (m : ℕ) → m < length out.new → slice_index_or out.new m (pos 0) ≡ value_at line.now.base line.now.events (first + m) }
        ensures stands { self.new ≡ cursors.place_at (first + length out.new) line.now.events }
        ensures moved { steps.new + self.old ≤ steps.old + 2 + self.new }
        ensures cost { steps.new ≤ steps.old + 2 + length (cursors.within first (first + length out.new) line.now.events) }
    {
        match self.draw(out, first, line, steps) {
            Drawn::Stays(stay) => {
                let end = out.len();
                draw_level(out, 0, end, stay.value);
            }
            Drawn::Rises(ramp) => ramp.write(out),
            Drawn::Each => {}
        }
    }
}
