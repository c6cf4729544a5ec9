// A sink in memory, which fails at chosen calls.
ghost use Rattle.std.specs.Prelude.{◌≡◌, ◌≤◌, ◌-◌, [], List, length, Some, IfOk, OnOk, OnErr, IsOk, is_err};
ghost use Rattle.std.specs.Io.KnownBytes.{Appends};
ghost use Rattle.cyc_port.specs.Counts.{Rose};
ghost use Rattle.cyc_port.specs.Written.{AppendsFront};
ghost use Rattle.cyc_port.specs.MemorySink.{new_sink, is_listed, let_through, write_fails, sink_after};

use crate::{Sink, SinkFailed, SinkStop};
use std::alloc::{AllocError, Global};
use std::marker::Model;

/// A sink in memory of bounded room, which tells what was written. A write takes no memory.
///
/// Contracts see its room, the bytes written, the stops, the faults and the number of calls so far.
#[derive(Drop)]
pub struct MemSink {
    room: usize,
    bytes: Vec<u8>,
    fail: Vec<SinkStop>,
    faults: u64,
    calls: u64,
}

impl Model for MemSink {
    ghost use Rattle.std.specs.Prelude.{◌≤◌, length, vec_capacity};
    ghost use Rattle.cyc_port.specs.MemorySink.{SinkState};

    ghost Value = { SinkState };

    ghost view = { λ s. record { room = s.room; written = s.bytes.items; fail = s.fail.items; faults = s.faults; calls = s.calls } };

    ghost invariant = { λ s. (length s.bytes.items ≤ s.room) × (s.room ≤ vec_capacity s.bytes) };
}

impl MemSink {
    /// An empty sink for at most `room` bytes, whose memory is reserved here. Each listed call takes its number of bytes at most and
    /// fails; so does a call that finds too little room left. `AllocError` only for want of memory.
    pub fn new(alloc: Global, room: usize, fail: Vec<SinkStop>) -> Result<MemSink, AllocError>
        ensures state { IfOk result (λ s. s ≡ new_sink room fail.items) }
        ensures written { IfOk result (λ s. (⟦<MemSink as Sink>⟧.seen s).written ≡ Some []) }
        ensures faults { IfOk result (λ s. (⟦<MemSink as Sink>⟧.seen s).faults ≡ 0) }
    {
        Ok(MemSink {
            room,
            bytes: Vec::with_capacity(alloc, room)?,
            fail,
            faults: 0,
            calls: 0,
        })
    }

    /// Lends what was written.
    pub fn bytes(&self) -> &[u8]
        ensures bytes { result.now ≡ self.now.written }
        ensures written { (⟦<MemSink as Sink>⟧.seen self.now).written ≡ Some result.now }
    {
        &self.bytes
    }

    // A write of the piece.
    fn write(&mut self, bytes: &[u8]) -> Result<(), SinkFailed>
        ensures fails { is_err result ≡ write_fails self.old bytes.now }
        ensures after { self.new ≡ sink_after self.old bytes.now }
    {
        if bytes.is_empty() {
            return Ok(());
        }
        let left = self.room - self.bytes.len();
        let fails = is_listed(&self.fail, self.calls) || left < bytes.len();
        let taken = let_through(&self.fail, self.calls, bytes.len().min(left));
        let _ = self.bytes.extend_from_slice(&bytes[..taken]);
        self.calls = self.calls.saturating_add(1);
        if fails {
            self.faults = self.faults.saturating_add(1);
            return Err(SinkFailed);
        }
        Ok(())
    }
}

// Whether the call is listed.
fn is_listed(fail: &[SinkStop], call: u64) -> bool
    ensures { result ≡ is_listed call fail.now }
{
    fail.iter().any(|stop| stop.call == call)
}

// How many of `count` bytes the listed stops of the call let through.
fn let_through(fail: &[SinkStop], call: u64, count: usize) -> usize
    ensures within { result ≤ count }
    ensures stops { result ≡ let_through call count fail.now }
{
    let mut taken = count;
    for stop in fail {
        if stop.call == call {
            taken = taken.min(stop.taken);
        }
    }
    taken
}

impl Sink for MemSink {
    ghost seen = { λ s. record { written = Some s.written; faults = s.faults } };

    fn write_all(&mut self, bytes: &[u8]) -> Result<(), SinkFailed>
        // When the call fails, and what it leaves.
        ensures fails { is_err result ≡ write_fails self.old bytes.now }
        ensures after { self.new ≡ sink_after self.old bytes.now }

        // What each sink promises.
        ensures later { self.old.faults ≤ self.new.faults }
        ensures ok { OnOk result (Appends (Some self.old.written) (Some self.new.written) bytes.now) }
        ensures failed { OnErr result (Rose self.old.faults self.new.faults) }
        ensures front { OnErr result (AppendsFront (Some self.old.written) (Some self.new.written) bytes.now) }
        ensures empty_ok { bytes.now ≡ [] → IsOk result }
        ensures empty { bytes.now ≡ [] → self.new ≡ self.old }
    {
        self.write(bytes)
    }
}
