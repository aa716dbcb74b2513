//! The lines of a source, one after another.

ghost use Rattle.std.specs.Prelude.{◌≡◌, ◌++◌, take};
ghost use Rattle.reverse_debug.specs.NextLine.{given_bytes};

use arrayvec::ArrayVec;
use rp_ports::source::{Source, Taken};
use source_text::find;
use std::marker::Model;
use trace_text::line::push_text;

/// So many bytes of a line are given.
pub const LINE: usize = 257;

/// So many bytes are taken at once, at most.
const PIECE: usize = 256;

/// What a reader has read.
#[derive(Clone, Copy, Debug, PartialEq, Eq)]
pub enum Next {
    /// The bytes before an LF.
    Line,
    /// The bytes before the end of the source, none or some.
    Last,
    /// The source failed; its count of faults rose. The bytes before that are an open line.
    Failed,
    /// The limit of the bytes is reached. The bytes before that are an open line.
    Full,
}

/// Gives more bytes of a line, as long as there is room for them.
#[tactic(auto, using(crate::proofs::NextLines::given_some))]
fn give(bytes: &[u8], line: &mut ArrayVec<u8, LINE>)
    ensures { line.new.items ≡ take given_bytes (line.old.items ++ bytes.now) }
{
    let count = bytes.len().min(LINE - line.len());
    push_text(&bytes[..count], line);
}

/// A reader of lines. It takes as many bytes of a source as come at once; those behind a line are kept for the next ones.
#[derive(Drop)]
pub struct LineReader {
    /// What was taken last.
    piece: [u8; PIECE],
    /// Where in it the bytes begin that stand in no line yet.
    at: usize,
    /// Where they end.
    end: usize,
    /// How many bytes were taken in all.
    taken: usize,
}

impl Model for LineReader {
    ghost use Rattle.std.specs.Prelude.{◌≤◌, drop, take};
    ghost use Rattle.reverse_debug.specs.NextLine.{Ahead};

    ghost Value = { Ahead };

    ghost view = { λ r. record { rest = drop r.at (take r.end r.piece); taken = r.taken } };

    ghost invariant = { λ r. (r.at ≤ r.end) × (r.end ≤ 256) };
}

impl LineReader {
    ghost use Rattle.std.specs.Prelude.{◌≡◌, ◌<◌, ◌≤◌, []};
    ghost use Rattle.reverse_debug.specs.NextLine.{Fills, Passes, Reads};

    /// A reader that has taken nothing yet.
    pub fn new() -> LineReader
        ensures { result ≡ record { rest = []; taken = 0 } }
    {
        LineReader {
            piece: [0; PIECE],
            at: 0,
            end: 0,
            taken: 0,
        }
    }

    /// Gives the bytes up to an LF to a line, and drops the LF; false where none is among those that were taken, and all are given.
    fn pass(&mut self, line: &mut ArrayVec<u8, LINE>) -> bool
        ensures taken { self.new.taken ≡ self.old.taken }
        ensures passes { Passes self.old.rest self.new.rest line.old.items line.new.items result }
    {
        let front = &self.piece[..self.end];
        let rest = &front[self.at..];
        match find(rest, b'\n') {
            Some(count) => {
                give(&rest[..count], line);
                self.at += count + 1;
                true
            }
            None => {
                give(rest, line);
                self.at = self.end;
                false
            }
        }
    }

    /// Takes more bytes, where all that were taken stand in lines.
    fn fill<I: Source>(&mut self, input: &mut I, limit: usize) -> Taken
        requires none { self.old.rest ≡ [] }
        requires room { self.old.taken < limit }
        ensures { Fills limit self.old self.new (I.left input.old) (I.left input.new) (I.faults input.old) (I.faults input.new) result }
    {
        self.at = 0;
        self.end = 0;
        let room = PIECE.min(limit - self.taken);
        let taken = input.take(&mut self.piece[..room]);
        if let Taken::Took(count) = taken {
            self.end = count;
            self.taken += count;
        }
        taken
    }

    /// Reads the next line of a source, of which at most so many bytes are taken in all, and gives its first bytes; a CR before its LF is
    /// one of its bytes.
    pub fn next<I: Source>(
        &mut self,
        input: &mut I,
        limit: usize,
        line: &mut ArrayVec<u8, LINE>,
    ) -> Next
        requires within { self.old.taken ≤ limit }
        ensures { Reads limit self.old self.new (I.left input.old) (I.left input.new) (I.faults input.old) (I.faults input.new) line.new.items result }
    {
        line.clear();
        if self.pass(line) {
            return Next::Line;
        }
        'pieces: while self.taken < limit {
            match self.fill(input, limit) {
                Taken::Took(_) => {
                    if self.pass(line) {
                        return Next::Line;
                    }
                    continue 'pieces;
                }
                Taken::End => return Next::Last,
                Taken::Failed => return Next::Failed,
            }
        }
        Next::Full
    }
}
