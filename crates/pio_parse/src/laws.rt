//! The laws of characters and expressions, each the contract of a function without arguments.
ghost use Rattle.pio_parse.specs.Laws.{CharFaultsAtFirst, Examples, FaultsAtFirst, LexesExactly, NoneLonger, OneExpression, ReadsGrammar, ReadsOperands};

/// The tokens that are read are those of the lexemes of a file's characters, and each file of lexemes is read.
pub fn lexes_exactly()
    ensures { LexesExactly }
{}

/// A character is refused exactly where a file's characters are lexemes up to it, and none stands there.
#[tactic(auto, using(crate::proofs::Decide::char_faults_at_first))]
pub fn char_faults_at_first()
    ensures { CharFaultsAtFirst }
{}

/// What is read at the front of a line's tokens is the longest expression of the grammar there, in postfix order,
/// and each expression of the grammar is read.
#[tactic(auto, using(crate::proofs::Finds::finds_tree, crate::proofs::Finds::reads))]
pub fn reads_grammar()
    ensures { ReadsGrammar }
{}

/// The grammar gives tokens one tree at most, and one end.
#[tactic(auto, using(crate::proofs::Trees::one_expression))]
pub fn one_expression()
    ensures { OneExpression }
{}

/// No sum at the front of the tokens goes further than their expression: it is the longest.
#[tactic(auto, using(crate::proofs::Finds::none_longer))]
pub fn none_longer()
    ensures { NoneLonger }
{}

/// What is read as an operand outside brackets and directives is a number, a name or an expression in parentheses, and
/// each of these is read.
pub fn reads_operands()
    ensures { ReadsOperands }
{}

/// Where an expression has to stand, tokens that end a line are refused at the first with which no expression begins as
/// the tokens up to it do.
pub fn faults_at_first()
    ensures { FaultsAtFirst }
{}

/// Some expressions, with their trees.
#[tactic(auto, using(crate::proofs::Trees::has_tree))]
pub fn examples()
    ensures { Examples }
{}
