//! What the cycles of the DMA engine come to for one of its channels, as laws of its definition, each the contract of a function without
//! arguments.
#![tactic(auto)]

ghost use Rattle.dma_laws.specs.Bytes.{TransfersCopyBytes};
ghost use Rattle.dma_laws.specs.Copies.{ACopyIsExactOnAnyChannel, AnEndIsRaisedOnce};

/// Whatever the other channels, the bus and the data requests do: a channel makes the reads of its transfers in order, each word that it
/// reads is written to the place of its transfer, in this order and once, and its sequence is over exactly where all are written.
#[tactic(auto, using(crate::proofs::Copying::a_copy_is_exact))]
pub fn a_copy_is_exact_on_any_channel()
    ensures { ACopyIsExactOnAnyChannel }
{}

/// A channel's bit of INTR is set in the cycle in which its sequence ends, and in no other; after it the channel is idle.
pub fn an_end_is_raised_once()
    ensures { AnEndIsRaisedOnce }
{}

/// The transfers of a channel that copies bytes, halfwords or words read these one after another, and write their bytes one after another.
pub fn transfers_copy_bytes()
    ensures { TransfersCopyBytes }
{}
