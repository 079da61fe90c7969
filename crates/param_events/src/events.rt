ghost use Rattle.std.specs.Prelude.{◌≡◌, IfOk, Some};
ghost use Rattle.param_events.specs.Edits as edits;
ghost use Rattle.param_events.specs.Events.{time_of};

use std::alloc::Global;
use wa_base::{Fix, NoMemory, Samples};

/// An event of a timeline, as the methods of AudioParam schedule it. Times and durations are frames.
#[derive(Debug, Drop)]
pub enum Event {
    /// The value jumps at this time (setValueAtTime).
    Set {
        time: u64,
        value: Fix,
    },
    /// The value goes in a line from the event before to this one (linearRampToValueAtTime).
    Ramp {
        time: u64,
        value: Fix,
    },
    /// The value goes along the points, which lie evenly over the duration (setValueCurveAtTime). A
    /// curve that was cut ends before its duration is over.
    Curve {
        time: u64,
        duration: u64,
        end: u64,
        points: Samples,
    },
}

impl Event {
    /// The frame from which the event holds: the end of a ramp, and the first frame of a curve.
    pub fn time(&self) -> u64
        ensures { result ≡ time_of self.now }
    {
        match self {
            Event::Set { time, .. } | Event::Ramp { time, .. } | Event::Curve { time, .. } => *time,
        }
    }

    // Whether it stays where all is cancelled from a time on.
    pub(crate) fn stays(&self, at: u64) -> bool
        ensures { result ≡ edits.stays at self.now }
    {
        match self {
            Event::Curve { time, end, .. } => *time < at && *end < at,
            _ => self.time() < at,
        }
    }

    /// Whether it is a curve that ends after a frame.
    pub fn goes_past(&self, at: u64) -> bool
        ensures { result ≡ edits.goes_past at (Some self.now) }
    {
        match self {
            Event::Curve { end, .. } => at < *end,
            _ => false,
        }
    }

    /// Whether it is a ramp.
    pub fn is_ramp(&self) -> bool
        ensures { result ≡ edits.is_ramp (Some self.now) }
    {
        matches!(self, Event::Ramp { .. })
    }

    // Ends a curve at a time; its points and its duration stay.
    pub(crate) fn cut_at(&mut self, at: u64)
        ensures { self.new ≡ edits.cut_at at self.old }
    {
        if let Event::Curve { end, .. } = self {
            *end = at;
        }
    }

    /// An equal event with memory of its own.
    pub fn copy(&self) -> Result<Event, NoMemory>
        ensures { IfOk result (λ copy. copy ≡ self.now) }
    {
        match self {
            Event::Set { time, value } => Ok(Event::Set {
                time: *time,
                value: *value,
            }),
            Event::Ramp { time, value } => Ok(Event::Ramp {
                time: *time,
                value: *value,
            }),
            Event::Curve {
                time,
                duration,
                end,
                points,
            } => Ok(Event::Curve {
                time: *time,
                duration: *duration,
                end: *end,
                points: points.copy()?,
            }),
        }
    }
}

/// Equal events with memory of their own.
pub(crate) fn copy_events(alloc: Global, events: &[Event]) -> Result<Vec<Event>, NoMemory>
    ensures { IfOk result (λ copies. copies.items ≡ events.now) }
{
    let mut copies = Vec::new(alloc);
    for event in events {
        copies.push(event.copy()?)?;
    }
    Ok(copies)
}
