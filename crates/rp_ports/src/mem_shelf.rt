//! A shelf in memory.

ghost use Rattle.std.specs.Prelude.{◌≡◌, [], Some, None, MatchOption};
ghost use Rattle.rp_ports.specs.Fault.{one_more};
ghost use Rattle.rp_ports.specs.Shelf.{Answers, failed_after};
ghost use Rattle.std.specs.Prelude.{map};
ghost use Rattle.std.specs.String.{string_bytes};
ghost use Rattle.rp_ports.specs.MemShelf.{file_in, FailsWhereListed, FailsOrRunsOut};

use crate::shelf::{Loaded, Shelf};
use std::alloc::Global;

/// A file of a shelf in memory.
#[derive(Drop)]
pub struct HeldFile {
    /// Its name.
    pub name: String,
    /// Its bytes.
    pub bytes: Vec<u8>,
}

/// A shelf that holds files in memory, and fails at the calls of a list. Of two files with one name it holds the first.
#[derive(Drop)]
pub struct MemShelf {
    /// The files.
    pub held: Vec<HeldFile>,
    /// The numbers of the calls that are to fail; the first call is 0.
    pub failing: Vec<u64>,
    /// How many calls there were.
    pub calls: u64,
    /// The names whose loads failed.
    pub failed: Vec<String>,
}

impl MemShelf {
    /// A shelf of these files that fails at these calls.
    pub fn new(alloc: Global, held: Vec<HeldFile>, failing: Vec<u64>) -> MemShelf
        ensures held { result.held ≡ held }
        ensures listed { result.failing ≡ failing }
        ensures calls { result.calls ≡ 0 }
        ensures failed { result.failed.items ≡ [] }
    {
        MemShelf {
            held,
            failing,
            calls: 0,
            failed: Vec::new(alloc),
        }
    }
}

/// The bytes of the first file of that name.
fn find<'a>(held: &'a [HeldFile], name: &str) -> Option<&'a Vec<u8>>
    ensures { MatchOption result (file_in held.now name.now ≡ None)
        (λ bytes. file_in held.now name.now ≡ Some bytes.now.items) }
{
    for file in held {
        if file.name.as_str() == name {
            return Some(&file.bytes);
        }
    }
    None
}

impl MemShelf {
    /// Adds a name to the failed ones; without memory for it the load has found no memory.
    fn fail(&mut self, name: &str) -> Loaded
        ensures answer { FailsOrRunsOut result }
        ensures failures { map string_bytes self.new.failed.items
            ≡ failed_after (map string_bytes self.old.failed.items) name.now result }
        ensures kept { self.new ≡ record self.old { failed = self.new.failed } }
    {
        let alloc = *self.failed.allocator();
        let Ok(owned) = String::from_str(alloc, name) else {
            return Loaded::Memory;
        };
        match self.failed.push(owned) {
            Ok(()) => Loaded::Failed,
            Err(_) => Loaded::Memory,
        }
    }
}

impl Shelf for MemShelf {
    ghost files = { λ s. Some (file_in s.held.items) };

    ghost failed = { λ s. map string_bytes s.failed.items };

    /// Fails exactly at the listed calls and for a name that is not held. Each call is counted, and the list stays.
    fn load(&mut self, name: &str, limit: usize, into: &mut Vec<u8>) -> Loaded
        ensures kept { self.new.held ≡ self.old.held }
        ensures content { Answers (Some (file_in self.old.held.items)) name.now limit result
            into.new.items }
        ensures failures { map string_bytes self.new.failed.items
            ≡ failed_after (map string_bytes self.old.failed.items) name.now result }
        ensures exact { FailsWhereListed self.old.failing.items self.old.calls
            (file_in self.old.held.items name.now) result }
        ensures counted { self.new.calls ≡ one_more self.old.calls }
        ensures listed { self.new.failing ≡ self.old.failing }
    {
        let call = self.calls;
        self.calls = self.calls.saturating_add(1);
        if self.failing.contains(&call) {
            return self.fail(name);
        }
        let Some(bytes) = find(&self.held, name) else {
            return self.fail(name);
        };
        let length = bytes.len();
        if length > limit {
            return Loaded::Large(length as u64);
        }
        into.clear();
        match into.extend_from_slice(bytes) {
            Ok(()) => Loaded::Done,
            Err(_) => Loaded::Memory,
        }
    }
}
