//! BUSCTRL: the words of the fabric by their offsets.

ghost use Rattle.std.specs.Prelude.{◌≡◌};
ghost use Rattle.bus_fabric.specs.Words.{word_of, is_word, effect_of};

use crate::Fabric;
use crate::registers::{BUS_PRIORITY, BUS_PRIORITY_ACK};
use rp_base::Registers;

impl Registers<()> for Fabric {
    ghost word = { λ offset _. word_of offset };

    ghost allowed = { λ offset _ _. is_word offset };

    ghost accessed = { effect_of };

    fn read(&self, _seen: &(), offset: u16) -> Option<u32> {
        match offset {
            BUS_PRIORITY => Some(self.priority()),
            BUS_PRIORITY_ACK => Some(1),
            _ => None,
        }
    }

    fn allows(&self, offset: u16, _write: Option<u32>) -> bool {
        offset == BUS_PRIORITY || offset == BUS_PRIORITY_ACK
    }

    fn effect(&mut self, offset: u16, write: Option<u32>) -> bool {
        if let Some(word) = write {
            if offset == BUS_PRIORITY {
                self.set_priority(word);
            }
        }
        offset == BUS_PRIORITY || offset == BUS_PRIORITY_ACK
    }
}
