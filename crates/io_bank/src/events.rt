//! The events of the pins, by the four bits that each pin has in an interrupt word.

ghost use Rattle.std.specs.Prelude.{◌≡◌, ◌<◌};
ghost use Rattle.io_bank.specs.State.{no_edges, no_events, no_interrupts};
ghost use Rattle.io_bank.specs.Edges.{joined};
ghost use Rattle.io_bank.specs.Interrupts.{kind_of, event_word, with_eight, with_word, shown, is_any, left_of, cleared};

use crate::sets::with_bit;
use rp_base::bits::has_bit;

/// The pins with an edge to low and with an edge to high.
#[derive(Clone, Copy, PartialEq, Eq)]
pub struct Edges {
    pub low: u32,
    pub high: u32,
}

/// The pins with each kind of event.
#[derive(Clone, Copy, PartialEq, Eq)]
pub struct Events {
    pub level_low: u32,
    pub level_high: u32,
    pub edge_low: u32,
    pub edge_high: u32,
}

/// What interrupts a core: the events that are enabled (INTE), and those that are forced (INTF).
#[derive(Clone, Copy, PartialEq, Eq)]
pub struct Interrupts {
    pub enable: Events,
    pub force: Events,
}

impl Edges {
    pub(crate) const NONE: Edges = Edges { low: 0, high: 0 };

    /// The edges of both.
    pub(crate) fn joined(self, other: Edges) -> Edges
        ensures { result ≡ joined self other }
    {
        Edges {
            low: self.low | other.low,
            high: self.high | other.high,
        }
    }

    /// What stays of the latched edges where this word is written to INTR of that number.
    pub(crate) fn cleared(self, number: u32, word: u32, fresh: Edges) -> Edges
        ensures { result ≡ cleared number word self fresh }
    {
        Edges {
            low: left_of(number, word, 2, self.low, fresh.low),
            high: left_of(number, word, 3, self.high, fresh.high),
        }
    }
}

impl Events {
    pub(crate) const NONE: Events = Events {
        level_low: 0,
        level_high: 0,
        edge_low: 0,
        edge_high: 0,
    };

    /// The pins of a kind of event, by its number among the four bits.
    fn kind(&self, kind: u32) -> u32
        ensures { result ≡ kind_of self.now kind }
    {
        match kind {
            0 => self.level_low,
            1 => self.level_high,
            2 => self.edge_low,
            _ => self.edge_high,
        }
    }

    /// The word of that number, of the eight pins from `8 * number` on.
    #[tactic(auto, using(crate::proofs::Bits::bits))]
    pub(crate) fn word(&self, number: u32) -> u32
        requires { number < 4 }
        ensures { result ≡ event_word self.now number }
    {
        let mut word = 0;
        for bit in 0..32 {
            let on = has_bit(self.kind(bit % 4), 8 * number + bit / 4);
            word = with_bit(word, bit, on);
        }
        word
    }

    /// The events of eight pins are those of a word.
    pub(crate) fn with_word(self, number: u32, word: u32) -> Events
        ensures { result ≡ with_word number word self }
    {
        Events {
            level_low: with_eight(number, word, 0, self.level_low),
            level_high: with_eight(number, word, 1, self.level_high),
            edge_low: with_eight(number, word, 2, self.edge_low),
            edge_high: with_eight(number, word, 3, self.edge_high),
        }
    }

    /// Some pin has some event.
    pub(crate) fn is_any(&self) -> bool
        ensures { result ≡ is_any self.now }
    {
        !(self.level_low == 0 && self.level_high == 0 && self.edge_low == 0 && self.edge_high == 0)
    }
}

impl Interrupts {
    pub(crate) const NONE: Interrupts = Interrupts {
        enable: Events::NONE,
        force: Events::NONE,
    };

    /// INTS: the events that are enabled or forced.
    pub(crate) fn shown(&self, raw: &Events) -> Events
        ensures { result ≡ shown raw.now self.now }
    {
        let (enable, force) = (&self.enable, &self.force);
        Events {
            level_low: (raw.level_low & enable.level_low) | force.level_low,
            level_high: (raw.level_high & enable.level_high) | force.level_high,
            edge_low: (raw.edge_low & enable.edge_low) | force.edge_low,
            edge_high: (raw.edge_high & enable.edge_high) | force.edge_high,
        }
    }
}

/// A set of pins, of which a word gives eight.
#[tactic(auto, using(crate::proofs::Bits::bits))]
fn with_eight(number: u32, word: u32, kind: u32, set: u32) -> u32
    requires { kind < 4 }
    ensures { result ≡ with_eight number word kind set }
{
    let mut pins = 0;
    for pin in 0..30 {
        let on = if pin / 8 == number {
            has_bit(word, 4 * (pin % 8) + kind)
        } else {
            has_bit(set, pin)
        };
        pins = with_bit(pins, pin, on);
    }
    pins
}

/// The latched edges that a word leaves: those of the same cycle, and those that it does not name.
#[tactic(auto, using(crate::proofs::Bits::bits))]
fn left_of(number: u32, word: u32, kind: u32, latched: u32, fresh: u32) -> u32
    requires { kind < 4 }
    ensures { result ≡ left_of number word kind latched fresh }
{
    let mut pins = 0;
    for pin in 0..30 {
        let named = pin / 8 == number && has_bit(word, 4 * (pin % 8) + kind);
        let on = has_bit(latched, pin) && (has_bit(fresh, pin) || !named);
        pins = with_bit(pins, pin, on);
    }
    pins
}
