//! The laws of the assembler, each the contract of a function without arguments.
ghost use Rattle.pio_asm.specs.Returns.{SourcesReturn};
ghost use Rattle.pio_asm.specs.Tree.{ValuesOfTrees};

/// The source that the disassembler writes for 1 to 32 words under a side-set configuration is parsed
/// and assembled to one program of these words under this configuration, without its `pindirs` where it
/// has no bit.
#[tactic(auto, using(crate::proofs::Returning::sources_return))]
pub fn sources_return()
    ensures { SourcesReturn }
{}

/// What an expression in postfix order comes to is what its tree comes to, by recursion on the tree.
#[tactic(auto, using(crate::proofs::TreeValues::values_of_trees))]
pub fn values_of_trees()
    ensures { ValuesOfTrees }
{}
