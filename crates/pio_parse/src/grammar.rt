//! The laws of lines and sources, each the contract of a function without arguments.
ghost use Rattle.pio_parse.specs.GrammarLaws.{Examples, LineFaultsAtFirst, OneAnswer, OneMeaning, ParsesGrammar, ReadsLines, SyntaxFaultsAtFirst};

/// A line that is read is one of the grammar, with what it says, and each line of the grammar is read as that.
#[tactic(auto, using(crate::proofs::ReadLines::reads_lines))]
pub fn reads_lines()
    ensures { ReadsLines }
{}

/// A line is refused at the first token with which no line of the grammar begins as the tokens up to it do.
pub fn line_faults_at_first()
    ensures { LineFaultsAtFirst }
{}

/// A source that is parsed is what the lines of the grammar say whose tokens are the lexemes of its characters, and
/// each file of such lines is parsed.
pub fn parses_grammar()
    ensures { ParsesGrammar }
{}

/// A Syntax fault is at the first token of a file with which no line of the grammar begins as its line does up to it.
pub fn syntax_faults_at_first()
    ensures { SyntaxFaultsAtFirst }
{}

/// The grammar gives a line one meaning at most, and a file one source.
#[tactic(auto, using(crate::proofs::Files::one_meaning))]
pub fn one_meaning()
    ensures { OneMeaning }
{}

/// The grammar has one answer for each file: a source, or its first fault, which is of a character or else of a token.
#[tactic(auto, using(crate::proofs::Readers::one_answer))]
pub fn one_answer()
    ensures { OneAnswer }
{}

/// A file of the grammar, and some with their first token that fits nothing.
pub fn examples()
    ensures { Examples }
{}
