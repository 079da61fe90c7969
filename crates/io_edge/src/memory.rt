ghost use Rattle.std.specs.Prelude.{◌≡◌, ◌≤◌, ◌<◌, ◌↔◌, Some, [], length, min, IsErr, IsErrOf, IfOk, OnOk, OnErr, IsTrue};
ghost use Rattle.std.specs.Io.KnownBytes.{ReadConsumes, WriteAppends};
ghost use Rattle.io_edge.specs.Faults.{Rose};
ghost use Rattle.io_edge.specs.Plan.{Plan, no_calls, with_failing, fails_next, after_call};

use crate::errors::{EdgeErr, Failed};
use crate::sink::Sink;
use crate::source::Source;
use crate::sure::{SureSink, SureSource};
use std::alloc::Global;
use std::marker::Model;
use wa_base::{Bytes, NoMemory};

// Counts calls, and knows which of them are to fail. Both counts stop at `u64::MAX`.
#[derive(Drop)]
pub(crate) struct CallPlan {
    calls: u64,
    failing: Vec<u64>,
    faults: u64,
}

impl Model for CallPlan {
    ghost Value = { Plan };

    ghost view = { λ s. record { calls = s.calls; failing = s.failing.items; faults = s.faults } };
}

impl CallPlan {
    pub(crate) fn new(alloc: Global) -> CallPlan
        ensures { result ≡ no_calls }
    {
        CallPlan {
            calls: 0,
            failing: Vec::new(alloc),
            faults: 0,
        }
    }

    // Makes the call with this number fail.
    pub(crate) fn fail(&mut self, call: u64) -> Result<(), NoMemory>
        ensures ok { OnOk result (self.new ≡ with_failing self.old call) }
        ensures err { OnErr result (self.new ≡ self.old) }
    {
        self.failing.push(call)?;
        Ok(())
    }

    // Counts a call, and says whether it fails.
    pub(crate) fn next_fails(&mut self) -> bool
        ensures fails { result ≡ fails_next self.old }
        ensures counted { self.new ≡ after_call self.old }
        ensures later { self.old.faults ≤ self.new.faults }
    {
        self.calls = self.calls.saturating_add(1);
        let fails = self.failing.contains(&self.calls);
        if fails {
            self.faults = self.faults.saturating_add(1);
        }
        fails
    }
}

/// A source in memory whose reads give a few bytes each and fail where they were told to. Contracts see
/// it as its bytes, the greatest count of them per call, and the plan of its calls.
#[derive(Drop)]
pub struct MemSource {
    source: SureSource,
    most: u64,
    plan: CallPlan,
}

impl Model for MemSource {
    ghost use Rattle.std.specs.Prelude.{◌≤◌};
    ghost use Rattle.io_edge.specs.MemStream.{MemStream};

    ghost Value = { MemStream };

    ghost view = { λ s. record { bytes = s.source; most = s.most; plan = s.plan } };

    ghost invariant = { λ s. 1 ≤ s.most };
}

impl MemSource {
    /// A source of these bytes that gives at most `most` of them a call. No call is to fail.
    pub fn new(alloc: Global, bytes: Bytes, most: u64) -> MemSource
        requires { 1 ≤ most }
        ensures { result ≡ record { bytes = bytes; most = most; plan = no_calls } }
    {
        MemSource {
            source: SureSource::new(bytes),
            most,
            plan: CallPlan::new(alloc),
        }
    }

    /// Makes the read with this number, counted from 1, fail. After `NoMemory` nothing changed.
    pub fn fail(&mut self, call: u64) -> Result<(), NoMemory>
        ensures ok { OnOk result (self.new ≡ record self.old { plan = with_failing self.old.plan call }) }
        ensures err { OnErr result (self.new ≡ self.old) }
    {
        self.plan.fail(call)
    }
}

impl Source for MemSource {
    ghost left = { λ s. Some s.bytes };

    ghost faults = { λ s. s.plan.faults };

    fn read(&mut self, buf: &mut [u8]) -> Result<usize, Failed>
        ensures within { IfOk result (λ n. n ≤ length buf.new) }
        ensures bytes { ReadConsumes (Some self.old.bytes) (Some self.new.bytes) result buf.new }
        ensures later { self.old.plan.faults ≤ self.new.plan.faults }
        ensures cause { IsErr result → Rose self.old.plan.faults self.new.plan.faults }
        ensures failed { IsErr result ↔ IsTrue (fails_next self.old.plan) }
        ensures counted { self.new.plan ≡ after_call self.old.plan }
        ensures most { self.new.most ≡ self.old.most }
        ensures count { IfOk result (λ n. n ≡ min (min (length buf.old) self.old.most) (length self.old.bytes)) }
    {
        if self.plan.next_fails() {
            return Err(Failed);
        }
        let room = buf.len().min(self.most as usize);
        Ok(self.source.take_into(&mut buf[..room]))
    }
}

/// A sink in memory whose writes take a few bytes each and fail where they were told to. Contracts see
/// it as the bytes that were written, the greatest count of them per call, and the plan of its calls.
#[derive(Drop)]
pub struct MemSink {
    sink: SureSink,
    most: u64,
    plan: CallPlan,
}

impl Model for MemSink {
    ghost use Rattle.std.specs.Prelude.{◌≤◌};
    ghost use Rattle.io_edge.specs.MemStream.{MemStream};

    ghost Value = { MemStream };

    ghost view = { λ s. record { bytes = s.sink; most = s.most; plan = s.plan } };

    ghost invariant = { λ s. 1 ≤ s.most };
}

impl MemSink {
    /// A sink that takes at most `most` bytes a call. No call is to fail.
    pub fn new(alloc: Global, most: u64) -> MemSink
        requires { 1 ≤ most }
        ensures { result ≡ record { bytes = []; most = most; plan = no_calls } }
    {
        MemSink {
            sink: SureSink::new(alloc),
            most,
            plan: CallPlan::new(alloc),
        }
    }

    /// Makes the write with this number, counted from 1, fail. After `NoMemory` nothing changed.
    pub fn fail(&mut self, call: u64) -> Result<(), NoMemory>
        ensures ok { OnOk result (self.new ≡ record self.old { plan = with_failing self.old.plan call }) }
        ensures err { OnErr result (self.new ≡ self.old) }
    {
        self.plan.fail(call)
    }

    /// The bytes that were written.
    pub fn written(&self) -> &[u8]
        ensures { result.now ≡ self.now.bytes }
    {
        self.sink.written()
    }
}

impl Sink for MemSink {
    ghost written = { λ s. Some s.bytes };

    ghost faults = { λ s. s.plan.faults };

    fn write(&mut self, piece: &[u8]) -> Result<usize, EdgeErr>
        ensures within { IfOk result (λ n. n ≤ length piece.now) }
        ensures some { IfOk result (λ n. 0 < length piece.now → 0 < n) }
        ensures bytes { WriteAppends (Some self.old.bytes) (Some self.new.bytes) result piece.now }
        ensures later { self.old.plan.faults ≤ self.new.plan.faults }
        ensures cause { IsErrOf result EdgeErr.Failed → Rose self.old.plan.faults self.new.plan.faults }
        ensures failed { IsErrOf result EdgeErr.Failed ↔ IsTrue (fails_next self.old.plan) }
        ensures counted { self.new.plan ≡ after_call self.old.plan }
        ensures most { self.new.most ≡ self.old.most }
        ensures count { IfOk result (λ n. n ≡ min (length piece.now) self.old.most) }
    {
        if self.plan.next_fails() {
            return Err(EdgeErr::Failed);
        }
        let room = piece.len().min(self.most as usize);
        self.sink.write(&piece[..room])
    }
}
