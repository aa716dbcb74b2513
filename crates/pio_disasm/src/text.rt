//! The source of a word, line by line.

ghost use Rattle.std.specs.Prelude.{◌≡◌, ◌++◌, [], ◌<◌, ◌&&◌, if◌then◌else◌, OnOk, IfOk, codes, decimal};
ghost use Rattle.std.specs.Char.{digit_char};
ghost use Rattle.pio_disasm.specs.Text.{block_text, delay_text, hex_half, index_text, instruction_text, irq_mode_text, is_from_y, is_plain, is_to_y, is_written, line_text, mov_text, operation_text, side_set_text, side_text, source_text, wait_source_text, word_text};

use crate::names::{
    condition_text, in_source_text, mov_destination_text, mov_operation_text, mov_source_text,
    out_destination_text, set_destination_text,
};
use itoa::Buffer;
use pio_words::{
    IrqIndex, MovDestination, MovOperation, MovSource, PioOp, SideConfig, SideDelay, WaitSource,
    decode_side, decode_word,
};
use std::alloc::{AllocError, Global};

fn put(out: &mut Vec<u8>, text: &[u8]) -> Result<(), AllocError>
    ensures { OnOk result (out.new.items ≡ out.old.items ++ text.now) }
{
    out.extend_from_slice(text)
}

fn put_if(out: &mut Vec<u8>, stands: bool, text: &[u8]) -> Result<(), AllocError>
    ensures { OnOk result (out.new.items ≡ out.old.items ++ (if stands then text.now else [])) }
{
    if stands {
        put(out, text)?;
    }
    Ok(())
}

fn put_decimal(out: &mut Vec<u8>, number: u8) -> Result<(), AllocError>
    ensures { OnOk result (out.new.items ≡ out.old.items ++ decimal number) }
{
    let mut buffer = Buffer::new();
    put(out, buffer.format(number).as_bytes())
}

/// The lower-case hexadecimal digit of a number below 16.
fn digit(value: u16) -> u8
    requires { value < 16 }
    ensures { result ≡ digit_char value }
{
    let value = value as u8;
    if value < 10 {
        b'0' + value
    } else {
        b'a' - 10 + value
    }
}

/// A word in four lower-case hexadecimal digits.
pub fn hex_digits(word: u16) -> [u8; 4]
    ensures { result ≡ hex_half word }
{
    [
        digit(word / 4096 % 16),
        digit(word / 256 % 16),
        digit(word / 16 % 16),
        digit(word % 16),
    ]
}

fn put_index(out: &mut Vec<u8>, index: IrqIndex) -> Result<(), AllocError>
    ensures { OnOk result (out.new.items ≡ out.old.items ++ index_text index) }
{
    put_decimal(out, index.number)?;
    put_if(out, index.relative, b" rel")
}

fn put_wait_source(out: &mut Vec<u8>, source: WaitSource) -> Result<(), AllocError>
    ensures { OnOk result (out.new.items ≡ out.old.items ++ wait_source_text source) }
{
    match source {
        WaitSource::Gpio(number) => {
            put(out, b"gpio ")?;
            put_decimal(out, number)
        }
        WaitSource::Pin(number) => {
            put(out, b"pin ")?;
            put_decimal(out, number)
        }
        WaitSource::Irq(index) => {
            put(out, b"irq ")?;
            put_index(out, index)
        }
    }
}

/// Two words and a number, as `in pins, 8`.
fn put_counted(
    out: &mut Vec<u8>,
    word: &[u8],
    register: &[u8],
    number: u8,
) -> Result<(), AllocError>
    ensures { OnOk result (out.new.items
        ≡ out.old.items ++ (word.now ++ register.now ++ codes ", " ++ decimal number)) }
{
    put(out, word)?;
    put(out, register)?;
    put(out, b", ")?;
    put_decimal(out, number)
}

fn block_name(block: bool) -> &'static [u8]
    ensures { result.now ≡ block_text block }
{
    if block { b"block" } else { b"noblock" }
}

fn irq_mode_name(clear: bool, wait: bool) -> &'static [u8]
    ensures { result.now ≡ irq_mode_text clear wait }
{
    if clear {
        b"clear "
    } else if wait {
        b"wait "
    } else {
        b"nowait "
    }
}

fn is_nop(destination: MovDestination, operation: MovOperation, source: MovSource) -> bool
    ensures { result ≡ (is_to_y destination && is_plain operation && is_from_y source) }
{
    matches!(destination, MovDestination::Y)
        && matches!(operation, MovOperation::Plain)
        && matches!(source, MovSource::Y)
}

fn put_mov(
    out: &mut Vec<u8>,
    destination: MovDestination,
    operation: MovOperation,
    source: MovSource,
) -> Result<(), AllocError>
    ensures { OnOk result (out.new.items ≡ out.old.items ++ mov_text destination operation source) }
{
    if is_nop(destination, operation, source) {
        return put(out, b"nop");
    }
    put(out, b"mov ")?;
    put(out, mov_destination_text(destination))?;
    put(out, b", ")?;
    put(out, mov_operation_text(operation))?;
    put(out, mov_source_text(source))
}

fn put_operation(out: &mut Vec<u8>, op: PioOp) -> Result<(), AllocError>
    ensures { OnOk result (out.new.items ≡ out.old.items ++ operation_text op) }
{
    match op {
        PioOp::Jmp { condition, address } => {
            put(out, b"jmp ")?;
            put(out, condition_text(condition))?;
            put_decimal(out, address)
        }
        PioOp::Wait { polarity, source } => {
            put(out, b"wait ")?;
            put(out, if polarity { b"1 " } else { b"0 " })?;
            put_wait_source(out, source)
        }
        PioOp::In { source, count } => put_counted(out, b"in ", in_source_text(source), count),
        PioOp::Out { destination, count } => {
            put_counted(out, b"out ", out_destination_text(destination), count)
        }
        PioOp::Push { if_full, block } => {
            put(out, b"push ")?;
            put_if(out, if_full, b"iffull ")?;
            put(out, block_name(block))
        }
        PioOp::Pull { if_empty, block } => {
            put(out, b"pull ")?;
            put_if(out, if_empty, b"ifempty ")?;
            put(out, block_name(block))
        }
        PioOp::Mov {
            destination,
            operation,
            source,
        } => put_mov(out, destination, operation, source),
        PioOp::Irq { clear, wait, index } => {
            put(out, b"irq ")?;
            put(out, irq_mode_name(clear, wait))?;
            put_index(out, index)
        }
        PioOp::Set { destination, value } => {
            put_counted(out, b"set ", set_destination_text(destination), value)
        }
        PioOp::Reserved => Ok(()),
    }
}

fn has_instruction(op: &PioOp) -> bool
    ensures { result ≡ is_written op.now }
{
    match *op {
        PioOp::Irq {
            clear,
            wait,
            index: _,
        } => !(clear && wait),
        PioOp::Reserved => false,
        _ => true,
    }
}

fn put_side(out: &mut Vec<u8>, side: SideDelay) -> Result<(), AllocError>
    ensures { OnOk result (out.new.items ≡ out.old.items
        ++ (side_text side.value ++ delay_text side.delay)) }
{
    if let Some(value) = side.value {
        put(out, b" side ")?;
        put_decimal(out, value)?;
    }
    if side.delay != 0 {
        put(out, b" [")?;
        put_decimal(out, side.delay)?;
        put(out, b"]")?;
    }
    Ok(())
}

fn put_word(out: &mut Vec<u8>, word: u16) -> Result<(), AllocError>
    ensures { OnOk result (out.new.items ≡ out.old.items ++ word_text word) }
{
    put(out, b".word 0x")?;
    put(out, &hex_digits(word))
}

fn put_instruction(
    out: &mut Vec<u8>,
    op: PioOp,
    side: Option<SideDelay>,
    word: u16,
) -> Result<(), AllocError>
    ensures { OnOk result (out.new.items ≡ out.old.items ++ instruction_text op side word) }
{
    match side {
        None => put_word(out, word),
        Some(side) => {
            if has_instruction(&op) {
                put_operation(out, op)?;
                put_side(out, side)
            } else {
                put_word(out, word)
            }
        }
    }
}

fn put_line(out: &mut Vec<u8>, word: u16, side: &SideConfig) -> Result<(), AllocError>
    ensures { OnOk result (out.new.items ≡ out.old.items ++ line_text side.now word) }
{
    put_instruction(out, decode_word(word), decode_side(word, side), word)?;
    put(out, b"\n")
}

fn put_side_set(out: &mut Vec<u8>, side: &SideConfig) -> Result<(), AllocError>
    ensures { OnOk result (out.new.items ≡ out.old.items ++ side_set_text side.now) }
{
    if side.count == 0 && !side.opt {
        return Ok(());
    }
    put(out, b".side_set ")?;
    put_decimal(out, side.count)?;
    put_if(out, side.opt, b" opt")?;
    put_if(out, side.pindirs, b" pindirs")?;
    put(out, b"\n")
}

/// `.program code`, the `.side_set` line where there is a side-set, and one instruction a line.
fn put_source(out: &mut Vec<u8>, words: &[u16], side: &SideConfig) -> Result<(), AllocError>
    ensures { OnOk result (out.new.items ≡ out.old.items ++ source_text side.now words.now) }
{
    put(out, b".program code\n")?;
    put_side_set(out, side)?;
    for word in words {
        put_line(out, *word, side)?;
    }
    Ok(())
}

/// The source of a program of these words under a side-set configuration: `.program code`, the
/// `.side_set` line where there is a side-set, and one instruction a line. A word that no instruction
/// stands with is written as `.word`.
pub fn write_source(alloc: Global, words: &[u16], side: &SideConfig) -> Result<Vec<u8>, AllocError>
    ensures { IfOk result (λ text. text.items ≡ source_text side.now words.now) }
{
    let mut out = Vec::new(alloc);
    put_source(&mut out, words, side)?;
    Ok(out)
}
