//! What a debugger reads of the machine beside its state.

use crate::machine::Machine;
use lane_look::Device;
use outer_lane::World;
use rp_base::Master;
use rp_base::map::{Spot, place};

impl Machine {
    ghost use Rattle.std.specs.Prelude.{◌≡◌, ◌≤◌};
    ghost use Rattle.outer_lane.specs.Setting.{setting};
    ghost use Rattle.rp_machine.specs.Reads.{begins_of, peeked};

    /// The address of the instruction that core 0 or 1 begins in the cycle that is next: the one whose first halfword it fetches
    /// then. None where it begins none.
    pub fn begins(&self, core: u8) -> Option<u32>
        requires { core ≤ 1 }
        ensures { result ≡ begins_of core self.now }
    {
        if core == 0 {
            self.core0.begins()
        } else {
            self.core1.begins()
        }
    }

    /// The word that a read of core 0 would have in the cycle that is next, of a register block, of SIO, of the private bus or of
    /// the device. None exactly where there is no such word, and in SRAM. Nothing is changed by it.
    #[tactic(auto, unfolding(crate::specs::Reads::peeked))]
    pub fn peek<X: Device>(&self, world: &World<'_, X>, address: u32) -> Option<u32>
        ensures { result ≡ peeked (setting X.meaning world.now) address self.now }
    {
        let seen = self.begin_outer(world);
        let spot = place(address);
        match spot {
            Spot::Ppb { offset } => self.core0.private_at(offset),
            Spot::Ram { .. } | Spot::Reg { .. } | Spot::Sio { .. } | Spot::Outside => {
                self.word_for(world, &seen, Master::Core0, address, &spot)
            }
        }
    }
}
