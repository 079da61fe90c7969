ghost use Rattle.std.specs.Prelude.{◌≡◌, ◌↔◌, ◌≤◌, ◌<◌, ◌+◌, ◌∷◌, ◌++◌, [], length, IsTrue, IsOk, OnOk, OnErr, vec_capacity, vec_len};

use std::alloc::Global;
use std::marker::Model;
use wa_base::{Exc, Fix, Name, NoMemory, NodeId, State};

/// How a session ended.
#[derive(Clone, Copy, Debug, PartialEq, Eq)]
pub enum EndWord {
    /// The context was rendered to its length.
    Completed,
    /// A suspension at this frame was not resumed.
    Stalled(u64),
    /// Rendering was not started.
    Idle,
    /// The context was refused, and no call was run.
    Refused(Exc),
}

/// The answer to a call. A promise that is settled within the call is `Resolved` or `Rejected`, and one
/// that is settled later is `Pending`.
#[derive(Clone, Copy, PartialEq, Eq)]
pub enum Answer {
    Ok,
    Throw(Exc),
    Pending,
    Resolved,
    Rejected(Exc),
    Value(Fix),
    State(State),
    /// The context's time, in frames.
    Time(u64),
}

/// A line of a transcript.
#[derive(Drop)]
pub enum Line {
    /// The call with this ordinal was answered so.
    Call(u32, Answer),
    /// The promise that the call with this ordinal gave is resolved.
    Resolved(u32),
    /// A source ended; the name is the one under which it was created.
    Ended(NodeId, Name),
    /// The complete event, with the context's length in frames.
    Complete(u64),
}

/// The lines of a transcript, in order.
#[derive(Drop)]
pub struct Lines {
    lines: Vec<Line>,
}

impl Model for Lines {
    ghost use Rattle.std.specs.Prelude.{◌-◌, vec_capacity, vec_len};
    ghost use Rattle.transcript.specs.LinesView.{LinesView};

    ghost Value = { LinesView };

    ghost view = { λ s. record { items = s.lines.items; room = vec_capacity s.lines - vec_len s.lines } };
}

impl Lines {
    /// No line. Nothing is taken until one is pushed or room is reserved.
    pub fn new(alloc: Global) -> Lines
        ensures { result.items ≡ [] }
    {
        Lines {
            lines: Vec::new(alloc),
        }
    }

    /// The number of lines.
    pub fn len(&self) -> usize
        ensures { result ≡ length self.now.items }
    {
        self.lines.len()
    }

    /// Whether there is no line.
    pub fn is_empty(&self) -> bool
        ensures { IsTrue result ↔ (self.now.items ≡ []) }
    {
        self.lines.is_empty()
    }

    /// The lines in order.
    pub fn as_slice(&self) -> &[Line]
        ensures { result.now ≡ self.now.items }
    {
        self.lines.as_slice()
    }

    /// Makes room for `count` more lines: so many pushes do not answer `NoMemory`. The lines stay,
    /// and what was reserved before stays too.
    pub fn reserve(&mut self, count: usize) -> Result<(), NoMemory>
        ensures items { self.new.items ≡ self.old.items }
        ensures room { OnOk result (count ≤ self.new.room) }
        ensures kept { self.old.room ≤ self.new.room }
        ensures err { OnErr result (self.new.room ≡ self.old.room) }
        ensures reserved { count ≤ self.old.room → IsOk result }
    {
        self.lines.reserve(count)?;
        Ok(())
    }

    /// Appends a line for which there is room.
    pub fn push_reserved(&mut self, line: Line)
        requires { 0 < self.old.room }
        ensures items { self.new.items ≡ self.old.items ++ line ∷ [] }
        ensures room { self.old.room ≤ self.new.room + 1 }
    {
        self.lines.push_reserved(line);
    }

    /// Appends lines for which there is room, in their order.
    pub fn append_reserved(&mut self, lines: Vec<Line>)
        requires { vec_len lines ≤ self.old.room }
        ensures items { self.new.items ≡ self.old.items ++ lines.items }
        ensures room { self.old.room ≤ self.new.room + vec_len lines }
    {
        append_reserved(&mut self.lines, lines);
    }

    /// Appends a line. After `NoMemory` the lines are as before, and the line is dropped.
    pub fn push(&mut self, line: Line) -> Result<(), NoMemory>
        ensures ok { OnOk result (self.new.items ≡ self.old.items ++ line ∷ []) }
        ensures room { OnOk result (self.old.room ≤ self.new.room + 1) }
        ensures reserved { 0 < self.old.room → IsOk result }
        ensures err { OnErr result (self.new.items ≡ self.old.items) }
    {
        self.lines.push(line)?;
        Ok(())
    }
}

// Appends values for which there is room.
fn append_reserved(lines: &mut Vec<Line>, more: Vec<Line>)
    requires { vec_len more + vec_len lines.old ≤ vec_capacity lines.old }
    ensures items { lines.new.items ≡ lines.old.items ++ more.items }
    ensures capacity { vec_capacity lines.new ≡ vec_capacity lines.old }
{
    for line in more {
        lines.push_reserved(line);
    }
}
