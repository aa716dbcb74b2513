//! The laws of lines, each the contract of a function without parameters.

ghost use Rattle.thumb_parse.specs.Laws.{ReadsForms};
ghost use Rattle.thumb_parse.specs.descent.Lines.{statement_of};

/// What is read of a line is what it says by the grammar, and each line of the grammar is read so.
pub fn lines_are_read_by_their_forms()
    ensures { ReadsForms statement_of }
{}
