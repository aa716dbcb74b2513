//! The programs of a PIO source file, and their listing.

ghost use Rattle.std.specs.Prelude.{◌≡◌, ◌++◌, IfOk, IfErr, OnOk, decimal};
ghost use Rattle.pio_asm.specs.Assembly.{Assembles, IsFaultOf};
ghost use Rattle.pio_asm.specs.Fitting.{IsFirst};
ghost use Rattle.pio_asm.specs.Listing.{plans_of, origin_text, flag_text, wrap_text, side_text, program_line, word_line, program_text, listing};

pub use crate::placing::{offset_for, with_addresses};
use crate::{Program, assemble};
use itoa::Buffer;
use pio_disasm::hex_digits;
use pio_parse::{PioFault, parse};
use pio_words::SideConfig;
use std::alloc::{AllocError, Global};

/// The programs of a file, or its first fault.
#[tactic(auto, using(crate::proofs::Sources::early_fault_of, crate::proofs::Sources::plans_of_source))]
pub fn programs_in(alloc: Global, bytes: &[u8]) -> Result<Vec<Program>, PioFault>
    ensures ok { IfOk result (λ programs. Assembles programs.items (plans_of bytes.now)) }
    ensures err { IfErr result (IsFaultOf (plans_of bytes.now)) }
{
    assemble(alloc, &parse(alloc, bytes)?)
}

/// The first program of a file; none where it has none, and its first fault where it has one.
#[tactic(auto, using(crate::proofs::First::first_is))]
pub fn first_program(alloc: Global, bytes: &[u8]) -> Result<Option<Program>, PioFault>
    ensures ok { IfOk result (λ program. IsFirst program (plans_of bytes.now)) }
    ensures err { IfErr result (IsFaultOf (plans_of bytes.now)) }
{
    let mut programs = programs_in(alloc, bytes)?;
    Ok((!programs.is_empty()).then(|| programs.remove(0)))
}

fn put(text: &[u8], out: &mut Vec<u8>) -> Result<(), AllocError>
    ensures { OnOk result (out.new.items ≡ out.old.items ++ text.now) }
{
    out.extend_from_slice(text)
}

fn put_number(number: u64, out: &mut Vec<u8>) -> Result<(), AllocError>
    ensures { OnOk result (out.new.items ≡ out.old.items ++ decimal number) }
{
    put(Buffer::new().format(number).as_bytes(), out)
}

fn put_origin(origin: Option<u8>, out: &mut Vec<u8>) -> Result<(), AllocError>
    ensures { OnOk result (out.new.items ≡ out.old.items ++ origin_text origin) }
{
    match origin {
        Some(address) => put_number(u64::from(address), out),
        None => put(b"-", out),
    }
}

fn put_flag(flag: bool, out: &mut Vec<u8>) -> Result<(), AllocError>
    ensures { OnOk result (out.new.items ≡ out.old.items ++ flag_text flag) }
{
    put(if flag { b"1" } else { b"0" }, out)
}

fn put_wrap(target: u8, wrap: u8, out: &mut Vec<u8>) -> Result<(), AllocError>
    ensures { OnOk result (out.new.items ≡ out.old.items ++ wrap_text target wrap) }
{
    put(b" wrap ", out)?;
    put_number(u64::from(target), out)?;
    put(b" ", out)?;
    put_number(u64::from(wrap), out)
}

fn put_side(side: &SideConfig, out: &mut Vec<u8>) -> Result<(), AllocError>
    ensures { OnOk result (out.new.items ≡ out.old.items ++ side_text side.now) }
{
    put(b" side ", out)?;
    put_number(u64::from(side.count), out)?;
    put(b" opt ", out)?;
    put_flag(side.opt, out)?;
    put(b" pindirs ", out)?;
    put_flag(side.pindirs, out)
}

/// Appends the line of a program.
#[tactic(auto, unfolding(crate::specs::Listing::program_line))]
fn put_line(program: &Program, out: &mut Vec<u8>) -> Result<(), AllocError>
    ensures { OnOk result (out.new.items ≡ out.old.items ++ program_line program.now) }
{
    put(b"program ", out)?;
    put(program.name.as_slice(), out)?;
    put(b" ", out)?;
    put_number(program.words.len() as u64, out)?;
    put(b" origin ", out)?;
    put_origin(program.origin, out)?;
    put_wrap(program.target, program.wrap, out)?;
    put_side(&program.side, out)?;
    put(b"\n", out)
}

/// Appends the line of a word.
fn put_word(word: u16, out: &mut Vec<u8>) -> Result<(), AllocError>
    ensures { OnOk result (out.new.items ≡ out.old.items ++ word_line word) }
{
    put(&hex_digits(word), out)?;
    put(b"\n", out)
}

/// Appends a program: its line, then its words.
fn put_program(program: &Program, out: &mut Vec<u8>) -> Result<(), AllocError>
    ensures { OnOk result (out.new.items ≡ out.old.items ++ program_text program.now) }
{
    put_line(program, out)?;
    for word in program.words.as_slice() {
        put_word(*word, out)?;
    }
    Ok(())
}

/// The listing of programs.
pub fn listing(alloc: Global, programs: &[Program]) -> Result<Vec<u8>, AllocError>
    ensures { IfOk result (λ text. text.items ≡ listing programs.now) }
{
    let mut text = Vec::new(alloc);
    for program in programs {
        put_program(program, &mut text)?;
    }
    Ok(text)
}
