//! The laws of a call, each the contract of a function without arguments.

ghost use Rattle.pico_top.specs.Causes.{AnswersAll, Causes, Completes, SaysAll};

/// Every status but that of a text and want of memory has its cause: the words, a file or an input that was refused, a sink or a
/// source that failed, or an input that is too long.
#[tactic(auto, using(crate::proofs::Causing::causes))]
pub fn a_status_has_its_cause()
    ensures { Causes }
{}

/// Words that are refused have status 2; where the shelf tells its files, the status is that of the dialogue over them.
#[tactic(auto, using(crate::proofs::Causing::completes))]
pub fn a_status_is_that_of_the_dialogue()
    ensures { Completes }
{}

/// Words and files that are accepted are answered with the whole text, where the outside does not fail, or memory runs out.
#[tactic(auto, using(crate::proofs::Causing::says_all))]
pub fn what_is_accepted_is_said_whole()
    ensures { SaysAll }
{}

/// Lines that are heard to their end are all answered, where the outside does not fail, or memory runs out.
#[tactic(auto, using(crate::proofs::Causing::answers_all))]
pub fn what_is_heard_is_answered_whole()
    ensures { AnswersAll }
{}
