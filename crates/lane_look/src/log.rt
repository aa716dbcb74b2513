//! The questions of a run with their answers, in order, and a look that answers by them.

use crate::lane::{Ask, Look};
use std::alloc::{AllocError, Global};
use std::marker::Model;

/// How many entries a log has room for: 8 in each of 256 cycles.
pub const ROOM: usize = 2048;

/// At most 2,048 questions with their answers, which contracts see as the list of these pairs.
#[derive(Drop)]
pub struct Log {
    list: Vec<(Ask, u128)>,
}

impl Model for Log {
    ghost use Rattle.std.specs.Prelude.{List, ◌≤◌, length};
    ghost use Rattle.std.specs.Vec.{vec_capacity};
    ghost use Rattle.lane_look.specs.Replay.{Entry};

    ghost Value = { List Entry };

    ghost view = { λ log. log.list.items };

    ghost invariant = { λ log. (2048 ≤ vec_capacity log.list) × (length log.list.items ≤ 2048) };
}

impl Log {
    ghost use Rattle.std.specs.Prelude.{◌≡◌, ◌<◌, ◌≤◌, ◌++◌, ◌∷◌, [], length, take, slice_get, Some, IfOk};

    /// No entries, and room for all of them.
    pub fn new(alloc: Global) -> Result<Log, AllocError>
        ensures { IfOk result (λ log. log ≡ []) }
    {
        let list = Vec::with_capacity(alloc, ROOM)?;
        Ok(Log { list })
    }

    /// How many entries there are.
    pub fn count(&self) -> u16
        ensures value { result ≡ length self.now }
        ensures room { result ≤ 2048 }
    {
        self.list.len() as u16
    }

    /// The entry at an index.
    pub fn entry(&self, index: u16) -> (Ask, u128)
        requires { index < length self.now }
        ensures { slice_get self.now index ≡ Some result }
    {
        self.list[index as usize]
    }

    /// Adds an entry at the end.
    pub fn push(&mut self, ask: Ask, answer: u128)
        requires { length self.old < 2048 }
        ensures { self.new ≡ self.old ++ (ask, answer) ∷ [] }
    {
        self.list.push_reserved((ask, answer));
    }

    /// Keeps the first entries.
    pub fn cut(&mut self, count: u16)
        ensures { self.new ≡ take count self.old }
    {
        self.list.truncate(count as usize);
    }

    /// Takes all entries away.
    pub fn clear(&mut self)
        ensures { self.new ≡ [] }
    {
        self.list.clear();
    }
}

/// Answers each question by the next entry of a log, and by 0 past the last. Contracts see the entries that are left.
#[derive(Drop)]
pub struct LogLook<'a> {
    log: &'a Log,
    index: u16,
}

impl<'a> Model for LogLook<'a> {
    ghost use Rattle.std.specs.Prelude.{List, drop, ◌≤◌, length};
    ghost use Rattle.lane_look.specs.Replay.{Entry};

    ghost Value = { List Entry };

    ghost view = { λ look. drop look.index look.log.now };

    ghost invariant = { λ look. look.index ≤ length look.log.now };
}

impl<'a> LogLook<'a> {
    ghost use Rattle.std.specs.Prelude.{◌≡◌, ◌≤◌, drop, length};

    /// At the first entry.
    pub fn new(log: &'a Log) -> LogLook<'a>
        ensures { result ≡ log.now }
    {
        LogLook { log, index: 0 }
    }

    /// How many entries are left.
    pub fn count(&self) -> u16
        ensures { result ≡ length self.now }
    {
        self.log.count() - self.index
    }
}

impl Look for LogLook<'_> {
    ghost use Rattle.std.specs.Prelude.{◌≡◌};
    ghost use Rattle.lane_look.specs.Replay.{first_answer, others};

    ghost answers = { λ old ask answer new. (answer ≡ first_answer old) × (new ≡ others old) };

    fn ask(&mut self, _ask: Ask) -> u128 {
        if self.index < self.log.count() {
            let (_, answer) = self.log.entry(self.index);
            self.index += 1;
            answer
        } else {
            0
        }
    }
}
