//! The commands, and how a line asks for them.

ghost use Rattle.std.specs.Prelude.{◌≡◌, not, IfSome};
ghost use Rattle.std.specs.Option.{option_map};
ghost use Rattle.reverse_debug.specs.Command.{is_quit, command_of, bare_command, with_one, with_two, mem_of, word_of, pin_of, begun_at, each_of, operand_asked, next_time, peek_of, pio_of};
ghost use Rattle.reverse_debug.specs.Command.Command.{Until, Before, Last};
ghost use Rattle.reverse_debug.specs.Reading.{meant, sought, Fits, IsThere};

use crate::watch::Watched;
use crate::words::{address_of, are_words, is, number_of};
use source_text::first_part;

/// What a line asks for.
#[derive(Clone, Copy)]
pub(crate) enum Command {
    /// Move so many cycles forward.
    Step(u64),
    /// Move so many cycles back.
    Back(u64),
    /// Move to a cycle.
    Goto(u64),
    /// Move to the last cycle.
    End,
    /// Show the registers of both cores.
    Regs,
    /// Show words of SRAM.
    Mem {
        /// The address of the first, a multiple of 4.
        address: u32,
        /// How many, 1 to 16.
        count: u64,
    },
    /// Show the levels of the pads.
    Pins,
    /// Show the registers of a machine of a PIO block.
    Pio {
        /// The block, 0 or 1.
        block: u8,
        /// The machine, 0 to 3.
        machine: u8,
    },
    /// Show a word of a register block, of SIO or of the private bus.
    Peek(u32),
    /// Move forward to its n-th time.
    Until(Watched, u64),
    /// Move back to its n-th time.
    Before(Watched, u64),
    /// Name its last time.
    Last(Watched),
    /// End the session.
    Quit,
    /// The line is no command.
    Bad,
}

/// What core 0 or 1 begins is watched: the instruction at an address.
fn begun_at(address: Option<u32>, core: Option<u64>) -> Option<Watched>
    ensures meaning { option_map sought result ≡ begun_at address core }
    ensures fits { IfSome result IsThere }
{
    match (address, core) {
        (Some(address), Some(core)) if core <= 1 => Some(Watched::Begun(core as u8, Some(address))),
        _ => None,
    }
}

/// `next` with its operands.
fn next_of(count: Option<u64>, core: Option<u64>) -> Command
    ensures meaning { meant result ≡ each_of Until count core }
    ensures fits { Fits result }
{
    match (count, core) {
        (Some(count), Some(core)) if core <= 1 => Command::Until(
            Watched::Begun(core as u8, None),
            count,
        ),
        _ => Command::Bad,
    }
}

/// `prev` with its operands.
fn prev_of(count: Option<u64>, core: Option<u64>) -> Command
    ensures meaning { meant result ≡ each_of Before count core }
    ensures fits { Fits result }
{
    match (count, core) {
        (Some(count), Some(core)) if core <= 1 => Command::Before(
            Watched::Begun(core as u8, None),
            count,
        ),
        _ => Command::Bad,
    }
}

/// A move to the next time of what is watched.
fn until_of(watched: Option<Watched>) -> Command
    requires { IfSome watched IsThere }
    ensures meaning { meant result ≡ operand_asked next_time (option_map sought watched) }
    ensures fits { Fits result }
{
    match watched {
        Some(watched) => Command::Until(watched, 1),
        None => Command::Bad,
    }
}

/// `peek` with its operand.
fn peek_of(address: Option<u32>) -> Command
    ensures meaning { meant result ≡ peek_of address }
    ensures fits { Fits result }
{
    match address {
        Some(address) if address % 4 == 0 => Command::Peek(address),
        _ => Command::Bad,
    }
}

/// A command of one word.
fn bare_command(name: &[u8]) -> Command
    ensures meaning { meant result ≡ bare_command name.now }
    ensures fits { Fits result }
{
    if is(name, b"step") {
        Command::Step(1)
    } else if is(name, b"back") {
        Command::Back(1)
    } else if is(name, b"end") {
        Command::End
    } else if is(name, b"regs") {
        Command::Regs
    } else if is(name, b"pins") {
        Command::Pins
    } else if is(name, b"next") {
        next_of(Some(1), Some(0))
    } else if is(name, b"prev") {
        prev_of(Some(1), Some(0))
    } else if is(name, b"quit") {
        Command::Quit
    } else {
        Command::Bad
    }
}

/// `mem` with its operands.
fn mem_of(address: Option<u32>, count: Option<u64>) -> Command
    ensures meaning { meant result ≡ mem_of address count }
    ensures fits { Fits result }
{
    match (address, count) {
        (Some(address), Some(count)) if are_words(address, count) => Command::Mem {
            address,
            count,
        },
        _ => Command::Bad,
    }
}

/// A word of SRAM that is watched.
fn word_of(address: Option<u32>) -> Option<Watched>
    ensures meaning { option_map sought result ≡ word_of address }
    ensures fits { IfSome result IsThere }
{
    match address {
        Some(address) if are_words(address, 1) => Some(Watched::Word(address)),
        _ => None,
    }
}

/// A pin that is watched.
fn pin_of(pin: Option<u64>) -> Option<Watched>
    ensures meaning { option_map sought result ≡ pin_of pin }
    ensures fits { IfSome result IsThere }
{
    match pin {
        Some(pin) if pin <= 29 => Some(Watched::Pin(pin as u8)),
        _ => None,
    }
}

/// `pio` with its operands.
fn pio_of(block: Option<u64>, machine: Option<u64>) -> Command
    ensures meaning { meant result ≡ pio_of block machine }
    ensures fits { Fits result }
{
    match (block, machine) {
        (Some(block), Some(machine)) if block <= 1 && machine <= 3 => Command::Pio {
            block: block as u8,
            machine: machine as u8,
        },
        _ => Command::Bad,
    }
}

/// A command with one operand.
fn with_one(name: &[u8], word: &[u8]) -> Command
    ensures meaning { meant result ≡ with_one name.now word.now }
    ensures fits { Fits result }
{
    if is(name, b"step") {
        number_of(word).map_or(Command::Bad, Command::Step)
    } else if is(name, b"back") {
        number_of(word).map_or(Command::Bad, Command::Back)
    } else if is(name, b"goto") {
        number_of(word).map_or(Command::Bad, Command::Goto)
    } else if is(name, b"mem") {
        mem_of(address_of(word), Some(1))
    } else if is(name, b"peek") {
        peek_of(address_of(word))
    } else if is(name, b"next") {
        next_of(number_of(word), Some(0))
    } else if is(name, b"prev") {
        prev_of(number_of(word), Some(0))
    } else if is(name, b"until") {
        until_of(begun_at(address_of(word), Some(0)))
    } else if is(name, b"untilwrite") {
        until_of(word_of(address_of(word)))
    } else if is(name, b"untilpin") {
        until_of(pin_of(number_of(word)))
    } else if is(name, b"lastat") {
        begun_at(address_of(word), Some(0)).map_or(Command::Bad, Command::Last)
    } else if is(name, b"lastwrite") {
        word_of(address_of(word)).map_or(Command::Bad, Command::Last)
    } else if is(name, b"lastpin") {
        pin_of(number_of(word)).map_or(Command::Bad, Command::Last)
    } else {
        Command::Bad
    }
}

/// A command with two operands.
fn with_two(name: &[u8], first: &[u8], second: &[u8]) -> Command
    ensures meaning { meant result ≡ with_two name.now first.now second.now }
    ensures fits { Fits result }
{
    if is(name, b"mem") {
        mem_of(address_of(first), number_of(second))
    } else if is(name, b"pio") {
        pio_of(number_of(first), number_of(second))
    } else if is(name, b"next") {
        next_of(number_of(first), number_of(second))
    } else if is(name, b"prev") {
        prev_of(number_of(first), number_of(second))
    } else if is(name, b"until") {
        until_of(begun_at(address_of(first), number_of(second)))
    } else if is(name, b"lastat") {
        begun_at(address_of(first), number_of(second)).map_or(Command::Bad, Command::Last)
    } else {
        Command::Bad
    }
}

/// What a line asks for.
#[tactic(auto, unfolding(crate::specs::Command::command_of, crate::specs::Command::command_by))]
pub(crate) fn command_of(line: &[u8]) -> Command
    ensures meaning { meant result ≡ command_of line.now }
    ensures fits { Fits result }
{
    if line.len() > 255 {
        return Command::Bad;
    }
    let Some((name, operands)) = first_part(line, b' ') else {
        return bare_command(line);
    };
    let Some((first, rest)) = first_part(operands, b' ') else {
        return with_one(name, operands);
    };
    match first_part(rest, b' ') {
        None => with_two(name, first, rest),
        Some(_) => Command::Bad,
    }
}

/// The session goes on after this.
pub(crate) fn goes_on(command: Command) -> bool
    ensures { result ≡ not (is_quit (meant command)) }
{
    !matches!(command, Command::Quit)
}
