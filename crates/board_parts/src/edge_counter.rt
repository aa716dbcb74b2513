//! The counter of edges.

ghost use Rattle.std.specs.Prelude.{◌≡◌, [], ◌∷◌};
ghost use Rattle.board_parts.specs.EdgeCounter.{edge_counter};

use crate::probe::Probe;
use arrayvec::ArrayVec;
use trace_text::line::{push_number, push_text};

/// Counts the changes of a pin, and which of them were rises. A count stands still at the end of 64 bits.
#[derive(Drop)]
pub struct EdgeCounter {
    edges: u64,
    rises: u64,
}

impl EdgeCounter {
    /// A counter that has heard nothing.
    pub fn new() -> EdgeCounter
        ensures { ⟦<EdgeCounter as Probe>⟧.state result ≡ edge_counter.aimed 0 }
    {
        EdgeCounter { edges: 0, rises: 0 }
    }
}

impl Probe for EdgeCounter {
    ghost state = { λ s. s.edges ∷ s.rises ∷ [] };

    ghost meaning = { λ s. edge_counter };

    fn aim(&mut self, _pin: u8) {
        self.edges = 0;
        self.rises = 0;
    }

    fn edge(&mut self, _cycle: u64, level: bool) {
        self.edges = self.edges.saturating_add(1);
        if level {
            self.rises = self.rises.saturating_add(1);
        }
    }

    fn line(&self, out: &mut ArrayVec<u8, 120>) {
        out.clear();
        push_text(b"edges ", out);
        push_number(self.edges, out);
        push_text(b" rises ", out);
        push_number(self.rises, out);
    }
}
