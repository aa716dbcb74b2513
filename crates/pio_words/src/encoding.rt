//! From an operation to its instruction word.

ghost use Rattle.std.specs.Prelude.{◌≡◌, ℕ, ◌<◌, ◌≤◌, ◌+◌, ◌*◌, ◌/◌, ◌%◌, IfSome, Some};
ghost use Rattle.pio_words.specs.Table.{entry};
ghost use Rattle.pio_words.specs.JmpCondition.{conditions};
ghost use Rattle.pio_words.specs.InSource.{in_sources};
ghost use Rattle.pio_words.specs.OutDestination.{out_destinations};
ghost use Rattle.pio_words.specs.MovDestination.{mov_destinations};
ghost use Rattle.pio_words.specs.MovOperation.{mov_operations};
ghost use Rattle.pio_words.specs.MovSource.{mov_sources};
ghost use Rattle.pio_words.specs.SetDestination.{set_destinations};
ghost use Rattle.pio_words.specs.Operation.{HasFields, IsIrqIndex, IsWaitSource, IsCount, bit};
ghost use Rattle.pio_words.specs.Word.{IsWord, DecodesBack, IsOneWord, SideDecodesBack};

use crate::op::{
    InSource, IrqIndex, JmpCondition, MovDestination, MovOperation, MovSource, OutDestination,
    PioOp, SetDestination, WaitSource,
};
use crate::side::{SideConfig, side_field};

fn condition_code(named: JmpCondition) -> u8
    ensures entry { entry conditions result ≡ Some named }
    ensures small { result < 8 }
{
    match named {
        JmpCondition::Always => 0,
        JmpCondition::XZero => 1,
        JmpCondition::XDecrement => 2,
        JmpCondition::YZero => 3,
        JmpCondition::YDecrement => 4,
        JmpCondition::XNotY => 5,
        JmpCondition::Pin => 6,
        JmpCondition::OsrNotEmpty => 7,
    }
}

fn in_source_code(named: InSource) -> u8
    ensures entry { entry in_sources result ≡ Some named }
    ensures small { result < 8 }
{
    match named {
        InSource::Pins => 0,
        InSource::X => 1,
        InSource::Y => 2,
        InSource::Null => 3,
        InSource::Isr => 6,
        InSource::Osr => 7,
    }
}

fn out_destination_code(named: OutDestination) -> u8
    ensures entry { entry out_destinations result ≡ Some named }
    ensures small { result < 8 }
{
    match named {
        OutDestination::Pins => 0,
        OutDestination::X => 1,
        OutDestination::Y => 2,
        OutDestination::Null => 3,
        OutDestination::Pindirs => 4,
        OutDestination::Pc => 5,
        OutDestination::Isr => 6,
        OutDestination::Exec => 7,
    }
}

fn mov_destination_code(named: MovDestination) -> u8
    ensures entry { entry mov_destinations result ≡ Some named }
    ensures small { result < 8 }
{
    match named {
        MovDestination::Pins => 0,
        MovDestination::X => 1,
        MovDestination::Y => 2,
        MovDestination::Exec => 4,
        MovDestination::Pc => 5,
        MovDestination::Isr => 6,
        MovDestination::Osr => 7,
    }
}

fn mov_operation_code(named: MovOperation) -> u8
    ensures entry { entry mov_operations result ≡ Some named }
    ensures small { result < 3 }
{
    match named {
        MovOperation::Plain => 0,
        MovOperation::Invert => 1,
        MovOperation::Reverse => 2,
    }
}

fn mov_source_code(named: MovSource) -> u8
    ensures entry { entry mov_sources result ≡ Some named }
    ensures small { result < 8 }
{
    match named {
        MovSource::Pins => 0,
        MovSource::X => 1,
        MovSource::Y => 2,
        MovSource::Null => 3,
        MovSource::Status => 5,
        MovSource::Isr => 6,
        MovSource::Osr => 7,
    }
}

fn set_destination_code(named: SetDestination) -> u8
    ensures entry { entry set_destinations result ≡ Some named }
    ensures small { result < 8 }
{
    match named {
        SetDestination::Pins => 0,
        SetDestination::X => 1,
        SetDestination::Y => 2,
        SetDestination::Pindirs => 4,
    }
}

fn irq_index_bits(index: IrqIndex) -> Option<u8>
    ensures some { IfSome result (λ low. IsIrqIndex index low × (low < 32)) }
    ensures none { result ≡ None → (low : ℕ) → IsIrqIndex index low → ⊥ }
{
    if index.number < 8 {
        Some(if index.relative {
            16 + index.number
        } else {
            index.number
        })
    } else {
        None
    }
}

/// Three fields of a word: bits 15:13, 7:5 and 4:0.
#[derive(Clone, Copy)]
struct Fields {
    major: u8,
    middle: u8,
    low: u8,
}

fn five_bits(major: u8, middle: u8, low: u8) -> Option<Fields>
    ensures some { IfSome result (λ f. (f.major ≡ major) × (f.middle ≡ middle) × (f.low ≡ low)
        × (low < 32)) }
    ensures none { result ≡ None → 32 ≤ low }
{
    if low < 32 {
        Some(Fields { major, middle, low })
    } else {
        None
    }
}

fn count_fields(major: u8, middle: u8, count: u8) -> Option<Fields>
    ensures some { IfSome result (λ f. (f.major ≡ major) × (f.middle ≡ middle) × IsCount count f.low
        × (f.low < 32)) }
    ensures none { result ≡ None → (low : ℕ) → IsCount count low → ⊥ }
{
    if 0 < count && count <= 32 {
        Some(Fields {
            major,
            middle,
            low: count % 32,
        })
    } else {
        None
    }
}

fn wait_fields(polarity: bool, source: WaitSource) -> Option<Fields>
    ensures some { IfSome result (λ f. HasFields (PioOp.Wait polarity source) f.major f.middle f.low
        × (f.major < 8) × (f.middle < 8) × (f.low < 32)) }
    ensures none { result ≡ None → (major middle low : ℕ)
        → HasFields (PioOp.Wait polarity source) major middle low → ⊥ }
{
    let top = if polarity { 4 } else { 0 };
    match source {
        WaitSource::Gpio(number) => five_bits(1, top, number),
        WaitSource::Pin(number) => five_bits(1, top + 1, number),
        WaitSource::Irq(index) => match irq_index_bits(index) {
            Some(low) => Some(Fields {
                major: 1,
                middle: top + 2,
                low,
            }),
            None => None,
        },
    }
}

fn two_bits(high: bool, low: bool) -> u8
    ensures { result ≡ 2 * bit high + bit low }
{
    match (high, low) {
        (false, false) => 0,
        (false, true) => 1,
        (true, false) => 2,
        (true, true) => 3,
    }
}

fn octal(high: u8, low: u8) -> u8
    requires high_small { high < 4 }
    requires low_small { low < 8 }
    ensures high { result / 8 ≡ high }
    ensures low { result % 8 ≡ low }
    ensures small { result < 32 }
{
    high * 8 + low
}

fn mov_low(operation: MovOperation, source: MovSource) -> u8
    ensures operation { entry mov_operations (result / 8) ≡ Some operation }
    ensures source { entry mov_sources (result % 8) ≡ Some source }
    ensures small { result < 32 }
{
    octal(mov_operation_code(operation), mov_source_code(source))
}

fn joined(fields: Fields, side: u8) -> u16
    requires major_small { fields.major < 8 }
    requires middle_small { fields.middle < 8 }
    requires low_small { fields.low < 32 }
    requires side_small { side < 32 }
    ensures half { result < 65536 }
    ensures major { result / 8192 ≡ fields.major }
    ensures side { result / 256 % 32 ≡ side }
    ensures middle { result / 32 % 8 ≡ fields.middle }
    ensures low { result % 32 ≡ fields.low }
{
    fields.major as u16 * 8192 + side as u16 * 256 + fields.middle as u16 * 32 + fields.low as u16
}

fn fields_of(op: &PioOp) -> Option<Fields>
    ensures some { IfSome result (λ f. HasFields op.now f.major f.middle f.low × (f.major < 8)
        × (f.middle < 8) × (f.low < 32)) }
    ensures none { result ≡ None → (major middle low : ℕ) → HasFields op.now major middle low → ⊥ }
{
    match *op {
        PioOp::Jmp { condition, address } => five_bits(0, condition_code(condition), address),
        PioOp::Wait { polarity, source } => wait_fields(polarity, source),
        PioOp::In { source, count } => count_fields(2, in_source_code(source), count),
        PioOp::Out { destination, count } => count_fields(
            3,
            out_destination_code(destination),
            count,
        ),
        PioOp::Push { if_full, block } => Some(Fields {
            major: 4,
            middle: two_bits(if_full, block),
            low: 0,
        }),
        PioOp::Pull { if_empty, block } => Some(Fields {
            major: 4,
            middle: 4 + two_bits(if_empty, block),
            low: 0,
        }),
        PioOp::Mov {
            destination,
            operation,
            source,
        } => Some(Fields {
            major: 5,
            middle: mov_destination_code(destination),
            low: mov_low(operation, source),
        }),
        PioOp::Irq { clear, wait, index } => match irq_index_bits(index) {
            Some(low) => Some(Fields {
                major: 6,
                middle: two_bits(clear, wait),
                low,
            }),
            None => None,
        },
        PioOp::Set { destination, value } => five_bits(7, set_destination_code(destination), value),
        PioOp::Reserved => None,
    }
}

/// The word of an operation with a side-set value, or none, and a delay under a side-set
/// configuration (RP2040 Datasheet, 3.4.1).
///
/// `None` exactly where no word stands with these four: an operand, the side-set value or the delay
/// does not fit its field, a value is missing or has no bits, or the operation is `Reserved`.
pub fn encode(op: &PioOp, side: &SideConfig, value: Option<u8>, delay: u8) -> Option<u16>
    ensures word { IfSome result (IsWord op.now side.now value delay) }
    ensures none { result ≡ None → (word : ℕ) → IsWord op.now side.now value delay word → ⊥ }
{
    let fields = fields_of(op)?;
    let field = side_field(side, value, delay)?;
    Some(joined(fields, field))
}

/// The laws of instruction words: decoding the word of an operation gives back the operation, the
/// side-set value and the delay, and no operation has two words with one side-set value and delay.
pub fn encoded_decodes()
    ensures decodes { DecodesBack }
    ensures side_decodes { SideDecodesBack }
    ensures unique { IsOneWord }
{}
