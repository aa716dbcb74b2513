//! The accesses of a core to the device.

use crate::outer::Outer;
use crate::world::World;
use lane_look::Device;

impl Outer {
    ghost use Rattle.std.specs.Prelude.{◌≡◌, ◌==◌, length};
    ghost use Rattle.outer_lane.specs.Setting.{setting};
    ghost use Rattle.outer_lane.specs.Device.{owned_word, device_accessed};

    /// Whether the state holds as many words as the device has.
    pub fn has_device<X: Device>(&self, device: &X) -> bool
        ensures { result ≡ (length self.now.device == (X.meaning device.now).count) }
    {
        self.device.len() == device.words()
    }

    /// The word that a read of the device at an address gives. None where the device does not own the address. It is meant
    /// for addresses that no block of the machine covers.
    #[tactic(auto, unfolding(crate::specs::Device::owned_word))]
    pub fn owned_word<X: Device>(&self, world: &World<'_, X>, address: u32) -> Option<u32>
        ensures { result ≡ owned_word (setting X.meaning world.now) address self.now }
    {
        if self.device.len() != world.device.words() || !may_own(world, address) {
            return None;
        }
        let mut words = self.words();
        Some(world.device.read(words.as_mut_slice(), address))
    }

    /// Does what a read, or a write of this word, does to the device; nothing where the state does not hold as many words
    /// as the device has.
    #[tactic(auto, unfolding(crate::specs::Device::device_accessed))]
    pub fn device_effect<X: Device>(
        &mut self,
        world: &World<'_, X>,
        address: u32,
        write: Option<u32>,
    )
        ensures { self.new ≡ device_accessed (setting X.meaning world.now) address write self.old }
    {
        if self.device.len() != world.device.words() {
            return;
        }
        match write {
            None => {
                let _ = world.device.read(self.device.as_mut_slice(), address);
            }
            Some(value) => world
                .device
                .write(self.device.as_mut_slice(), address, value),
        }
    }
}

ghost use Rattle.std.specs.Prelude.{◌≡◌, ◌/◌, ◌^◌, ◌==◌, ◌&&◌};

/// The device owns an address that may be its own.
fn may_own<X: Device>(world: &World<'_, X>, address: u32) -> bool
    ensures { result ≡ (address / 2 ^ 28 == 4 && (X.meaning world.now.device.now).covers address) }
{
    address / 0x1000_0000 == 4 && world.device.owns(address)
}
