//! The law of the near stretch, as the contract of a function without arguments.

ghost use Rattle.reverse_debug.specs.Laws.{TheNextMoveBackIsNear};

/// Where a session stands within its near stretch, as after a move back, each cycle back to the last multiple of the spacing is of that
/// stretch; so a move back to it steps fewer cycles than the near spacing.
#[tactic(auto, using(crate::proofs::NextNear::the_next_move_back_is_near))]
pub fn the_next_move_back_is_near()
    ensures { TheNextMoveBackIsNear }
{}
