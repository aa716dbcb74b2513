//! From an instruction word to its operation.

ghost use Rattle.std.specs.Prelude.{◌≡◌, ◌≢◌, ◌==◌, ◌/◌, ◌%◌, ◌<◌, IfSome};
ghost use Rattle.pio_words.specs.Table.{entry};
ghost use Rattle.pio_words.specs.JmpCondition.{conditions};
ghost use Rattle.pio_words.specs.InSource.{in_sources};
ghost use Rattle.pio_words.specs.OutDestination.{out_destinations};
ghost use Rattle.pio_words.specs.MovDestination.{mov_destinations};
ghost use Rattle.pio_words.specs.MovOperation.{mov_operations};
ghost use Rattle.pio_words.specs.MovSource.{mov_sources};
ghost use Rattle.pio_words.specs.SetDestination.{set_destinations};
ghost use Rattle.pio_words.specs.Operation.{count_at, in_at, irq_at, irq_index_at, jmp_at, mov_at, named_at, HasFields, HasOperation, IsCount, IsIrqIndex, IsWaitSource, operation_of, out_at, push_pull_at, set_at, wait_at, wait_source_at};

use crate::op::{
    InSource, IrqIndex, JmpCondition, MovDestination, MovOperation, MovSource, OutDestination,
    PioOp, SetDestination, WaitSource,
};

fn condition_at(code: u8) -> Option<JmpCondition>
    ensures { result ≡ entry conditions code }
{
    match code {
        0 => Some(JmpCondition::Always),
        1 => Some(JmpCondition::XZero),
        2 => Some(JmpCondition::XDecrement),
        3 => Some(JmpCondition::YZero),
        4 => Some(JmpCondition::YDecrement),
        5 => Some(JmpCondition::XNotY),
        6 => Some(JmpCondition::Pin),
        7 => Some(JmpCondition::OsrNotEmpty),
        _ => None,
    }
}

fn in_source_at(code: u8) -> Option<InSource>
    ensures { result ≡ entry in_sources code }
{
    match code {
        0 => Some(InSource::Pins),
        1 => Some(InSource::X),
        2 => Some(InSource::Y),
        3 => Some(InSource::Null),
        6 => Some(InSource::Isr),
        7 => Some(InSource::Osr),
        _ => None,
    }
}

fn out_destination_at(code: u8) -> Option<OutDestination>
    ensures { result ≡ entry out_destinations code }
{
    match code {
        0 => Some(OutDestination::Pins),
        1 => Some(OutDestination::X),
        2 => Some(OutDestination::Y),
        3 => Some(OutDestination::Null),
        4 => Some(OutDestination::Pindirs),
        5 => Some(OutDestination::Pc),
        6 => Some(OutDestination::Isr),
        7 => Some(OutDestination::Exec),
        _ => None,
    }
}

fn mov_destination_at(code: u8) -> Option<MovDestination>
    ensures { result ≡ entry mov_destinations code }
{
    match code {
        0 => Some(MovDestination::Pins),
        1 => Some(MovDestination::X),
        2 => Some(MovDestination::Y),
        4 => Some(MovDestination::Exec),
        5 => Some(MovDestination::Pc),
        6 => Some(MovDestination::Isr),
        7 => Some(MovDestination::Osr),
        _ => None,
    }
}

fn mov_operation_at(code: u8) -> Option<MovOperation>
    ensures { result ≡ entry mov_operations code }
{
    match code {
        0 => Some(MovOperation::Plain),
        1 => Some(MovOperation::Invert),
        2 => Some(MovOperation::Reverse),
        _ => None,
    }
}

fn mov_source_at(code: u8) -> Option<MovSource>
    ensures { result ≡ entry mov_sources code }
{
    match code {
        0 => Some(MovSource::Pins),
        1 => Some(MovSource::X),
        2 => Some(MovSource::Y),
        3 => Some(MovSource::Null),
        5 => Some(MovSource::Status),
        6 => Some(MovSource::Isr),
        7 => Some(MovSource::Osr),
        _ => None,
    }
}

fn set_destination_at(code: u8) -> Option<SetDestination>
    ensures { result ≡ entry set_destinations code }
{
    match code {
        0 => Some(SetDestination::Pins),
        1 => Some(SetDestination::X),
        2 => Some(SetDestination::Y),
        4 => Some(SetDestination::Pindirs),
        _ => None,
    }
}

fn irq_index(low: u8) -> Option<IrqIndex>
    requires { low < 32 }
    ensures value { result ≡ irq_index_at low }
    ensures fields { IfSome result (λ index. IsIrqIndex index low) }
{
    if low / 8 % 2 == 0 {
        Some(IrqIndex {
            number: low % 8,
            relative: low / 16 == 1,
        })
    } else {
        None
    }
}

fn count(low: u8) -> u8
    requires { low < 32 }
    ensures value { result ≡ count_at low }
    ensures fields { IsCount result low }
{
    if low == 0 { 32 } else { low }
}

fn wait_source(code: u8, low: u8) -> Option<WaitSource>
    requires { low < 32 }
    ensures value { result ≡ wait_source_at code low }
    ensures fields { IfSome result (λ source. IsWaitSource source code low) }
{
    match code {
        0 => Some(WaitSource::Gpio(low)),
        1 => Some(WaitSource::Pin(low)),
        2 => match irq_index(low) {
            Some(index) => Some(WaitSource::Irq(index)),
            None => None,
        },
        _ => None,
    }
}

fn jmp(middle: u8, low: u8) -> Option<PioOp>
    requires middle_small { middle < 8 }
    requires low_small { low < 32 }
    ensures value { result ≡ jmp_at middle low }
    ensures fields { IfSome result (λ op. HasFields op 0 middle low) }
{
    match condition_at(middle) {
        Some(condition) => Some(PioOp::Jmp {
            condition,
            address: low,
        }),
        None => None,
    }
}

fn wait(middle: u8, low: u8) -> Option<PioOp>
    requires middle_small { middle < 8 }
    requires low_small { low < 32 }
    ensures value { result ≡ wait_at middle low }
    ensures fields { IfSome result (λ op. HasFields op 1 middle low) }
{
    match wait_source(middle % 4, low) {
        Some(source) => Some(PioOp::Wait {
            polarity: middle / 4 == 1,
            source,
        }),
        None => None,
    }
}

fn input(middle: u8, low: u8) -> Option<PioOp>
    requires middle_small { middle < 8 }
    requires low_small { low < 32 }
    ensures value { result ≡ in_at middle low }
    ensures fields { IfSome result (λ op. HasFields op 2 middle low) }
{
    match in_source_at(middle) {
        Some(source) => Some(PioOp::In {
            source,
            count: count(low),
        }),
        None => None,
    }
}

fn output(middle: u8, low: u8) -> Option<PioOp>
    requires middle_small { middle < 8 }
    requires low_small { low < 32 }
    ensures value { result ≡ out_at middle low }
    ensures fields { IfSome result (λ op. HasFields op 3 middle low) }
{
    match out_destination_at(middle) {
        Some(destination) => Some(PioOp::Out {
            destination,
            count: count(low),
        }),
        None => None,
    }
}

fn push_pull(middle: u8, low: u8) -> Option<PioOp>
    requires middle_small { middle < 8 }
    requires low_small { low < 32 }
    ensures value { result ≡ push_pull_at middle low }
    ensures fields { IfSome result (λ op. HasFields op 4 middle low) }
{
    if low != 0 {
        return None;
    }
    let conditional = middle / 2 % 2 == 1;
    let block = middle % 2 == 1;
    if middle / 4 == 0 {
        Some(PioOp::Push {
            if_full: conditional,
            block,
        })
    } else {
        Some(PioOp::Pull {
            if_empty: conditional,
            block,
        })
    }
}

fn mov(middle: u8, low: u8) -> Option<PioOp>
    requires middle_small { middle < 8 }
    requires low_small { low < 32 }
    ensures value { result ≡ mov_at middle low }
    ensures fields { IfSome result (λ op. HasFields op 5 middle low) }
{
    let destination = mov_destination_at(middle)?;
    let operation = mov_operation_at(low / 8)?;
    let source = mov_source_at(low % 8)?;
    Some(PioOp::Mov {
        destination,
        operation,
        source,
    })
}

fn irq(middle: u8, low: u8) -> Option<PioOp>
    requires middle_small { middle < 8 }
    requires low_small { low < 32 }
    ensures value { result ≡ irq_at middle low }
    ensures fields { IfSome result (λ op. HasFields op 6 middle low) }
{
    if middle / 4 != 0 {
        return None;
    }
    let index = irq_index(low)?;
    Some(PioOp::Irq {
        clear: middle / 2 % 2 == 1,
        wait: middle % 2 == 1,
        index,
    })
}

fn set(middle: u8, low: u8) -> Option<PioOp>
    requires middle_small { middle < 8 }
    requires low_small { low < 32 }
    ensures value { result ≡ set_at middle low }
    ensures fields { IfSome result (λ op. HasFields op 7 middle low) }
{
    match set_destination_at(middle) {
        Some(destination) => Some(PioOp::Set {
            destination,
            value: low,
        }),
        None => None,
    }
}

fn named(major: u16, middle: u8, low: u8) -> Option<PioOp>
    requires major_small { major < 8 }
    requires middle_small { middle < 8 }
    requires low_small { low < 32 }
    ensures value { result ≡ named_at major middle low }
    ensures fields { IfSome result (λ op. HasFields op major middle low) }
{
    match major {
        0 => jmp(middle, low),
        1 => wait(middle, low),
        2 => input(middle, low),
        3 => output(middle, low),
        4 => push_pull(middle, low),
        5 => mov(middle, low),
        6 => irq(middle, low),
        _ => set(middle, low),
    }
}

/// The operation that a word stands for, whatever its side-set and delay bits (RP2040 Datasheet,
/// 3.4.1).
pub fn decode_word(word: u16) -> PioOp
    ensures value { result ≡ operation_of word }
    ensures fields { result ≢ PioOp.Reserved → HasOperation result word }
{
    match named(word / 8192, (word / 32 % 8) as u8, (word % 32) as u8) {
        Some(op) => op,
        None => PioOp::Reserved,
    }
}
