//! The laws of arbitration, each the contract of a function without arguments.
ghost use Rattle.bus_fabric.specs.Laws.{RoundLaw, ArbitrationLaw, FairnessLaw};
ghost use Rattle.bus_fabric.specs.WaitLaws.{ApbLaw, WaitLaw};

/// The distance of a master is from 1 to 4, and so many steps in the round arrive at it.
#[tactic(auto, using(crate::proofs::Arbitration::round))]
pub fn goes_round()
    ensures { RoundLaw }
{}

/// On each port at most one master wins, it asks, it is beaten by no master that asks, and where a master asks, one wins.
/// The master that won last does not win again where another one of its priority asks.
#[tactic(auto, using(crate::proofs::Arbitration::arbitrated))]
pub fn arbitrates()
    ensures { ArbitrationLaw }
{}

/// A port that has a winner remembers it. On a port of SRAM or AHB-Lite a master whose access was done is not served in
/// the next cycle, where another one of its priority waits then.
pub fn takes_turns()
    ensures { FairnessLaw }
{}

/// An access on APB for which no other master asks at first is done in its third cycle where it reads, in its fourth where it
/// writes, and in none before.
pub fn an_apb_access_takes_its_cycles()
    ensures { ApbLaw }
{}

/// Of four wins of a port in a row, at each of which a master asks and none of another priority does, one is its own.
pub fn an_equal_waits_three_wins()
    ensures { WaitLaw }
{}
