//! A source in memory.

ghost use Rattle.std.specs.Prelude.{◌≡◌, ◌<◌, ◌-◌, Some, length, min, take, drop};
ghost use Rattle.rp_ports.specs.Fault.{one_more};
ghost use Rattle.rp_ports.specs.Source.{Takes, Counts};
ghost use Rattle.rp_ports.specs.MemSource.{FailsWhereListed, faults_after};

use crate::source::{Source, Taken};

/// A source that gives bytes from memory, and fails at the calls of a list.
#[derive(Drop)]
pub struct MemSource {
    /// The bytes.
    pub bytes: Vec<u8>,
    /// How many of them were taken.
    pub taken: usize,
    /// The numbers of the calls that are to fail; the first call is 0.
    pub failing: Vec<u64>,
    /// How many calls there were.
    pub calls: u64,
    /// How many calls failed.
    pub faults: u64,
}

impl MemSource {
    /// A source of these bytes that fails at these calls.
    pub fn new(bytes: Vec<u8>, failing: Vec<u64>) -> MemSource
        ensures bytes { result.bytes ≡ bytes }
        ensures taken { result.taken ≡ 0 }
        ensures listed { result.failing ≡ failing }
        ensures calls { result.calls ≡ 0 }
        ensures faults { result.faults ≡ 0 }
    {
        MemSource {
            bytes,
            taken: 0,
            failing,
            calls: 0,
            faults: 0,
        }
    }
}

/// Copies the first bytes of a piece to the front of a buffer, as many as it has room for.
fn give(piece: &[u8], buf: &mut [u8]) -> usize
    ensures count { result ≡ min (length piece.now) (length buf.old) }
    ensures kept { length buf.new ≡ length buf.old }
    ensures front { take result buf.new ≡ take result piece.now }
{
    let count = piece.len().min(buf.len());
    let (front, _) = piece.split_at(count);
    buf[..count].copy_from_slice(front);
    count
}

impl Source for MemSource {
    ghost left = { λ s. Some (drop s.taken s.bytes.items) };

    ghost faults = { λ s. s.faults };

    /// Gives as many of the next bytes as the buffer has room for; fails exactly at the listed calls. Each call is counted,
    /// and the list stays.
    fn take(&mut self, buf: &mut [u8]) -> Taken
        requires room { 0 < length buf.old }
        ensures content { Takes (Some (drop self.old.taken self.old.bytes.items))
            (Some (drop self.new.taken self.new.bytes.items)) buf.new result }
        ensures count { Counts self.old.faults self.new.faults result }
        ensures faults { self.new.faults ≡ faults_after self.old.faults result }
        ensures exact { FailsWhereListed self.old.failing.items self.old.calls
            (length self.old.bytes.items - self.old.taken) (length buf.old) result }
        ensures counted { self.new.calls ≡ one_more self.old.calls }
        ensures listed { self.new.failing ≡ self.old.failing }
    {
        let call = self.calls;
        self.calls = self.calls.saturating_add(1);
        if self.failing.contains(&call) {
            self.faults = self.faults.saturating_add(1);
            return Taken::Failed;
        }
        if self.taken >= self.bytes.len() {
            return Taken::End;
        }
        let (_, rest) = self.bytes.split_at(self.taken);
        let count = give(rest, buf);
        self.taken += count;
        Taken::Took(count)
    }
}
