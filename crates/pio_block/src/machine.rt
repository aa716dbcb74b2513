//! What the system does to one machine.

ghost use Rattle.std.specs.Prelude.{◌≡◌, ◌<◌};
ghost use Rattle.pio_block.specs.State.{is_running};
ghost use Rattle.pio_block.specs.Control.{restarted_if, with_divider_restarted, controlled};
ghost use Rattle.pio_block.specs.Registers.{execctrl_of, register_of, joined, register_written};

use crate::registers::{SM_ADDR, SM_CLKDIV, SM_EXECCTRL, SM_INSTR, SM_PINCTRL, SM_SHIFTCTRL};
use pio_machine::{Machine1, Memory, Waiting};
use rp_base::bits::{bit_number, has_bit};

/// The machine is enabled, or a written word waits.
pub(crate) fn is_running(machine: &Machine1) -> bool
    ensures { result ≡ is_running machine.now }
{
    machine.enabled || machine.is_forced()
}

/// A write of CTRL, to the machine of that number.
#[tactic(auto, unfolding(crate::specs::Control::controlled))]
pub(crate) fn control(machine: &mut Machine1, number: u32, word: u32)
    requires { number < 4 }
    ensures { machine.new ≡ controlled word number machine.old }
{
    machine.enabled = has_bit(word, number);
    restart_if(machine, has_bit(word, 4 + number));
    restart_divider_if(machine, has_bit(word, 8 + number));
}

fn restart_if(machine: &mut Machine1, asked: bool)
    ensures { machine.new ≡ restarted_if asked machine.old }
{
    if asked {
        machine.restart();
    }
}

fn restart_divider_if(machine: &mut Machine1, asked: bool)
    ensures { machine.new ≡ with_divider_restarted asked machine.old }
{
    if asked {
        machine.acc = 0;
    }
}

/// EXECCTRL with EXEC_STALLED.
fn execctrl(machine: &Machine1) -> u32
    ensures { result ≡ execctrl_of machine.now }
{
    machine.execctrl | (bit_number(machine.is_forced()) * 0x8000_0000)
}

/// A register of the machine, by its offset from the first one.
#[tactic(auto, unfolding(crate::specs::Registers::register_of))]
pub(crate) fn register(machine: &Machine1, offset: u16, memory: &Memory) -> Option<u32>
    ensures { result ≡ register_of offset memory.now machine.now }
{
    match offset {
        SM_CLKDIV => Some(machine.clkdiv),
        SM_EXECCTRL => Some(execctrl(machine)),
        SM_SHIFTCTRL => Some(machine.shiftctrl),
        SM_ADDR => Some(u32::from(machine.pc)),
        SM_INSTR => Some(u32::from(memory.word(machine.pc % 32))),
        SM_PINCTRL => Some(machine.pinctrl),
        _ => None,
    }
}

/// A write of SHIFTCTRL that changes a join empties both FIFOs.
fn join(machine: &mut Machine1, word: u32)
    ensures { machine.new ≡ joined word machine.old }
{
    if machine.shiftctrl >> 30 != word >> 30 {
        machine.tx.clear();
        machine.rx.clear();
    }
}

/// A write of a register of the machine.
#[tactic(auto, unfolding(crate::specs::Registers::register_written))]
pub(crate) fn write_register(machine: &mut Machine1, offset: u16, word: u32)
    ensures { machine.new ≡ register_written offset word machine.old }
{
    match offset {
        SM_CLKDIV => machine.clkdiv = word & 0xffff_ff00,
        SM_EXECCTRL => machine.execctrl = word & 0x7f01_ff9f,
        SM_SHIFTCTRL => {
            join(machine, word);
            machine.shiftctrl = word & 0xffff_0000;
        }
        SM_INSTR => machine.waiting = Some(Waiting::forced((word & 0xffff) as u16)),
        SM_PINCTRL => machine.pinctrl = word,
        _ => {}
    }
}
