//! The words of the language that operands are written with.

ghost use Rattle.std.specs.Prelude.{◌≡◌};
ghost use Rattle.pio_disasm.specs.Names.{condition_name, in_source_name, mov_destination_name, mov_operation_name, mov_source_name, out_destination_name, set_destination_name};

use pio_words::{
    InSource, JmpCondition, MovDestination, MovOperation, MovSource, OutDestination, SetDestination,
};

pub(crate) fn condition_text(condition: JmpCondition) -> &'static [u8]
    ensures { result.now ≡ condition_name condition }
{
    match condition {
        JmpCondition::Always => b"",
        JmpCondition::XZero => b"!x ",
        JmpCondition::XDecrement => b"x-- ",
        JmpCondition::YZero => b"!y ",
        JmpCondition::YDecrement => b"y-- ",
        JmpCondition::XNotY => b"x!=y ",
        JmpCondition::Pin => b"pin ",
        JmpCondition::OsrNotEmpty => b"!osre ",
    }
}

pub(crate) fn in_source_text(register: InSource) -> &'static [u8]
    ensures { result.now ≡ in_source_name register }
{
    match register {
        InSource::Pins => b"pins",
        InSource::X => b"x",
        InSource::Y => b"y",
        InSource::Null => b"null",
        InSource::Isr => b"isr",
        InSource::Osr => b"osr",
    }
}

pub(crate) fn out_destination_text(register: OutDestination) -> &'static [u8]
    ensures { result.now ≡ out_destination_name register }
{
    match register {
        OutDestination::Pins => b"pins",
        OutDestination::X => b"x",
        OutDestination::Y => b"y",
        OutDestination::Null => b"null",
        OutDestination::Pindirs => b"pindirs",
        OutDestination::Pc => b"pc",
        OutDestination::Isr => b"isr",
        OutDestination::Exec => b"exec",
    }
}

pub(crate) fn mov_destination_text(register: MovDestination) -> &'static [u8]
    ensures { result.now ≡ mov_destination_name register }
{
    match register {
        MovDestination::Pins => b"pins",
        MovDestination::X => b"x",
        MovDestination::Y => b"y",
        MovDestination::Exec => b"exec",
        MovDestination::Pc => b"pc",
        MovDestination::Isr => b"isr",
        MovDestination::Osr => b"osr",
    }
}

pub(crate) fn mov_source_text(register: MovSource) -> &'static [u8]
    ensures { result.now ≡ mov_source_name register }
{
    match register {
        MovSource::Pins => b"pins",
        MovSource::X => b"x",
        MovSource::Y => b"y",
        MovSource::Null => b"null",
        MovSource::Status => b"status",
        MovSource::Isr => b"isr",
        MovSource::Osr => b"osr",
    }
}

pub(crate) fn set_destination_text(register: SetDestination) -> &'static [u8]
    ensures { result.now ≡ set_destination_name register }
{
    match register {
        SetDestination::Pins => b"pins",
        SetDestination::X => b"x",
        SetDestination::Y => b"y",
        SetDestination::Pindirs => b"pindirs",
    }
}

pub(crate) fn mov_operation_text(operation: MovOperation) -> &'static [u8]
    ensures { result.now ≡ mov_operation_name operation }
{
    match operation {
        MovOperation::Plain => b"",
        MovOperation::Invert => b"!",
        MovOperation::Reverse => b"::",
    }
}
