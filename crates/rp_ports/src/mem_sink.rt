//! A sink in memory.

ghost use Rattle.std.specs.Prelude.{◌≡◌, ◌-◌, [], Some, vec_len, vec_capacity};
ghost use Rattle.rp_ports.specs.Fault.{one_more};
ghost use Rattle.rp_ports.specs.Sink.{Writes, Counts};
ghost use Rattle.rp_ports.specs.MemSink.{FailsWhereListed, faults_after};

use crate::sink::{Put, Sink};
use std::alloc::Global;

/// A sink that keeps what is written to it, and fails at the calls of a list.
#[derive(Drop)]
pub struct MemSink {
    /// The bytes that were written.
    pub bytes: Vec<u8>,
    /// The numbers of the calls that are to fail; the first call is 0.
    pub failing: Vec<u64>,
    /// How many calls there were.
    pub calls: u64,
    /// How many calls failed.
    pub faults: u64,
}

impl MemSink {
    /// An empty sink that fails at these calls.
    pub fn new(alloc: Global, failing: Vec<u64>) -> MemSink
        ensures empty { result.bytes.items ≡ [] }
        ensures listed { result.failing ≡ failing }
        ensures calls { result.calls ≡ 0 }
        ensures faults { result.faults ≡ 0 }
    {
        MemSink {
            bytes: Vec::new(alloc),
            failing,
            calls: 0,
            faults: 0,
        }
    }

    /// Counts a fault.
    fn fail(&mut self) -> Put
        ensures failed { result ≡ Put.Failed }
        ensures count { Counts self.old.faults self.new.faults result }
        ensures faults { self.new.faults ≡ one_more self.old.faults }
        ensures kept { self.new ≡ record self.old { faults = self.new.faults } }
    {
        self.faults = self.faults.saturating_add(1);
        Put::Failed
    }
}

impl Sink for MemSink {
    ghost written = { λ s. Some s.bytes.items };

    ghost faults = { λ s. s.faults };

    /// Takes the whole piece; fails exactly at the listed calls, and where the bytes find no memory. Each call is
    /// counted, and the list stays.
    fn put(&mut self, bytes: &[u8]) -> Put
        ensures content { Writes (Some self.old.bytes.items)
            (Some self.new.bytes.items) bytes.now result }
        ensures count { Counts self.old.faults self.new.faults result }
        ensures faults { self.new.faults ≡ faults_after self.old.faults result }
        ensures exact { FailsWhereListed self.old.failing.items self.old.calls
            (vec_capacity self.old.bytes - vec_len self.old.bytes) bytes.now result }
        ensures counted { self.new.calls ≡ one_more self.old.calls }
        ensures listed { self.new.failing ≡ self.old.failing }
    {
        let call = self.calls;
        self.calls = self.calls.saturating_add(1);
        if self.failing.contains(&call) {
            return self.fail();
        }
        match self.bytes.extend_from_slice(bytes) {
            Ok(()) => Put::Took(bytes.len()),
            Err(_) => self.fail(),
        }
    }
}
