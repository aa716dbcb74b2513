//! The instruction words of the programmable input/output blocks (RP2040 Datasheet, 3.4): which
//! operation, side-set value and delay a word stands for, in both directions.
#![tactic(auto)]

mod decoding;
mod encoding;
mod op;
mod side;

pub use decoding::decode_word;
pub use encoding::{encode, encoded_decodes};
pub use op::{
    InSource, IrqIndex, JmpCondition, MovDestination, MovOperation, MovSource, OutDestination,
    PioOp, SetDestination, WaitSource,
};
pub use side::{SideConfig, SideDelay, decode_side};
