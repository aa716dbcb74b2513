//! Probes that are aimed at pins.

ghost use Rattle.std.specs.Prelude.{◌≡◌, ◌∷◌, [], map};
ghost use Rattle.board_parts.specs.Hearing.{aim_of, aimed_at, after_hearing, aim_text, seen};

use crate::change::PinChange;
use crate::probe::Probe;
use arrayvec::ArrayVec;
use trace_text::line::{push_number, push_text};

/// A probe that is aimed at a pin.
#[derive(Drop)]
pub struct Aimed {
    /// Its index among the probes.
    pub index: u64,
    /// Its pin.
    pub pin: u8,
    /// The probe.
    pub probe: Box<dyn Probe>,
}

impl Aimed {
    /// Aims a probe at a pin, where `index` is its index among the probes.
    pub fn new(index: u64, pin: u8, probe: Box<dyn Probe>) -> Aimed
        ensures { record {
          index = result.index;
          pin = result.pin;
          probe = meaning result.probe;
          state = state result.probe;
        } ≡ aimed_at index pin (meaning probe) }
    {
        let mut probe = probe;
        probe.aim(pin);
        Aimed { index, pin, probe }
    }

    /// Hears a change of some pin: what is not its own it lets pass.
    #[tactic(auto, unfolding(crate::specs::Hearing::after_hearing))]
    pub fn hear(&mut self, change: &PinChange)
        ensures { aim_of self.new.index self.new.pin
            (⟦<dyn Probe as Probe>⟧ self.new.probe.vtable) self.new.probe.value
            ≡ after_hearing (change.now ∷ []) (aim_of self.old.index self.old.pin
            (⟦<dyn Probe as Probe>⟧ self.old.probe.vtable) self.old.probe.value) }
    {
        if change.pin == self.pin {
            self.probe.edge(change.cycle, change.level);
        }
    }

    /// Leaves its line in `out`, with its LF and nothing else.
    #[tactic(auto, unfolding(crate::specs::Hearing::aim_text))]
    pub fn line(&self, out: &mut ArrayVec<u8, 192>)
        ensures { out.new.items ≡ aim_text (aim_of self.now.index self.now.pin
            (⟦<dyn Probe as Probe>⟧ self.now.probe.vtable) self.now.probe.value) }
    {
        let mut text = ArrayVec::<u8, 120>::new();
        self.probe.line(&mut text);
        out.clear();
        push_text(b"probe ", out);
        push_number(self.index, out);
        push_text(b" pin ", out);
        push_number(u64::from(self.pin), out);
        push_text(b" ", out);
        push_text(&text, out);
        push_text(b"\n", out);
    }
}

/// All probes hear a change of some pin, in their order.
#[tactic(auto, using(crate::proofs::Seen::next_changed))]
pub fn hear_all(probes: &mut [Aimed], change: &PinChange)
    ensures { seen probes.new (λ a. aim_of a.index a.pin
        (⟦<dyn Probe as Probe>⟧ a.probe.vtable) a.probe.value)
        ≡ map (after_hearing (change.now ∷ [])) (seen probes.old (λ a. aim_of a.index a.pin
        (⟦<dyn Probe as Probe>⟧ a.probe.vtable) a.probe.value)) }
{
    for probe in probes.iter_mut() {
        probe.hear(change);
    }
}
