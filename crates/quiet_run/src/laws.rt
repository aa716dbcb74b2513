//! The law of cycles in which nobody has anything to do, the contract of a function without arguments.

ghost use Rattle.quiet_run.specs.Parts.{QuietPartsGoTheirOwnWay};

/// Where nobody has anything to do for so many cycles, each part goes them on its own, and nothing else changes: they happen, have
/// no events and leave the pads as they are.
pub fn quiet_parts_go_their_own_way()
    ensures { QuietPartsGoTheirOwnWay }
{}
