//! The laws of devices and of replays, each the contract of a function without arguments.

ghost use Rattle.lane_look.specs.DeviceLaws.{TheFirstDeviceDrives, NoneAddsNothing};
ghost use Rattle.lane_look.specs.Replay.{meaning};
ghost use Rattle.lane_look.specs.Quiet.{device_step};
ghost use Rattle.lane_look.specs.Times.{CyclesFollowEachOther};
ghost use Rattle.lane_look.specs.Truth.{Follows};

use crate::device::Device;
use crate::lane::Lane;

/// The level of each pad of two devices is the first device's where that one drives the pad, and else the second one's.
#[tactic(auto, using(crate::proofs::Pairs::the_first_device_drives))]
pub fn the_first_device_drives()
    ensures { TheFirstDeviceDrives }
{}

/// A device beside one that is none does what it does alone.
#[tactic(auto, using(crate::proofs::Pairs::none_adds_nothing))]
pub fn none_adds_nothing()
    ensures { NoneAddsNothing }
{}

/// A lane that is answered as a log has it, and whose accesses to SRAM are done at once, goes the way of the log's replay.
#[tactic(auto, using(crate::proofs::Driven::follows))]
pub fn follows<E, S: Lane<E>>()
    ensures { Follows (meaning S.asks S.wanted S.next S.marked) }
{}

/// A device that has passed n cycles and then m has passed n + m, as long as the pads have the same levels.
#[tactic(auto, using(crate::proofs::Times::times_add))]
pub fn cycles_follow_each_other<X: Device>(device: &X, pads: u32)
    ensures { CyclesFollowEachOther (device_step (X.meaning device.now) pads) }
{}
