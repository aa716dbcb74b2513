//! From the words to what they ask for.

ghost use Rattle.std.specs.Prelude.{◌≡◌, ◌≤◌, map, IfOk, IfSome};
ghost use Rattle.std.specs.Option.{option_map};
ghost use Rattle.std.specs.String.{string_bytes};
ghost use Rattle.command_words.specs.Options.{settings_of};
ghost use Rattle.command_words.specs.Words.{halves, words_of, side_of, cycles_in, workers_in, run_reading, dis_reading, gen_reading, written, reading};
ghost use Rattle.command_words.specs.Read.{Reads, run_in, command_in};

use crate::line::line_in;
use crate::lists::items_in;
use crate::options::{is_given, is_normal, number_for, number_within, value_for};
use crate::reading::{DisWords, GenWords, Reading, RunWords, WordsFault};
use hex::FromHexError;
use pio_words::SideConfig;
use std::alloc::{AllocError, Global};

/// Two bytes are a word, the high one first.
fn halves_in(alloc: Global, bytes: &[u8]) -> Result<Vec<u16>, AllocError>
    ensures { IfOk result (λ words. words.items ≡ halves bytes.now) }
{
    let mut words = Vec::new(alloc);
    let mut left = bytes;
    while let [high, low, rest @ ..] = left {
        words.push(u16::from(*high) * 256 + u16::from(*low))?;
        left = rest;
    }
    Ok(words)
}

/// The words of 4 to 128 hexadecimal digits, four digits each.
#[tactic(auto, unfolding(crate::specs::Words::words_of))]
fn instruction_words(alloc: Global, text: &str) -> Result<Vec<u16>, WordsFault>
    ensures { Reads (λ words. words.items) (words_of text.now) result }
{
    let digits = text.as_bytes();
    if digits.len() < 4 || digits.len() > 128 || digits.len() % 4 != 0 {
        return Err(WordsFault::Words);
    }
    match hex::decode(alloc, digits) {
        Ok(bytes) => Ok(halves_in(alloc, &bytes)?),
        Err(FromHexError::OutOfMemory) => Err(WordsFault::Memory),
        Err(_) => Err(WordsFault::Words),
    }
}

/// The side-set configuration that the options give, of at most five bits.
#[tactic(auto, unfolding(crate::specs::Words::side_of))]
fn side_config(options: &[String]) -> Option<SideConfig>
    ensures { result ≡ side_of (settings_of (map string_bytes options.now)) }
{
    let count = number_for("--side", 5, options)?;
    let opt = number_for("--opt", 1, options)?;
    (count + opt <= 5).then_some(SideConfig {
        count: count as u8,
        opt: opt == 1,
        pindirs: false,
    })
}

/// The limit of cycles among the options of a run.
fn cycles_in(options: &[String]) -> Option<u64>
    ensures value { result ≡ cycles_in (settings_of (map string_bytes options.now)) }
    ensures within { IfSome result (λ cycles. cycles ≤ 1000000000) }
{
    number_within(1, 1_000_000_000, value_for("--cycles", options)?)
}

/// The number of workers among the options of a run, 0 where it is not given.
fn workers_in(options: &[String]) -> Option<u8>
    ensures value { result ≡ workers_in (settings_of (map string_bytes options.now)) }
    ensures within { IfSome result (λ workers. workers ≤ 8) }
{
    Some(number_for("--workers", 8, options)? as u8)
}

/// Reads `<image> --cycles N [--script FILE] [--pio LIST] [--probe LIST] [--part LIST] [--workers K] [--stats] [--table]`.
#[tactic(auto, unfolding(crate::specs::Words::run_reading), using(crate::proofs::Ids::ids))]
fn run_words(
    alloc: Global,
    probes: usize,
    parts: &[usize],
    image: &str,
    options: &[String],
) -> Result<RunWords, WordsFault>
    ensures { Reads run_in (run_reading probes parts.now image.now
        (settings_of (map string_bytes options.now))) result }
{
    let cycles = cycles_in(options).ok_or(WordsFault::Words)?;
    let pio = items_in(alloc, (), ',', value_for("--pio", options))?;
    let probes = items_in(alloc, probes, ',', value_for("--probe", options))?;
    let parts = items_in(alloc, parts, ',', value_for("--part", options))?;
    let workers = workers_in(options).ok_or(WordsFault::Words)?;
    let script = match value_for("--script", options) {
        None => None,
        Some(name) => Some(String::from_str(alloc, name)?),
    };
    Ok(RunWords {
        image: String::from_str(alloc, image)?,
        cycles,
        script,
        pio,
        probes,
        parts,
        workers,
        stats: is_given("--stats", options),
        table: is_given("--table", options),
    })
}

/// Reads `gen <number> --cycles N [--workers K] [--stats]`.
#[tactic(auto, unfolding(crate::specs::Words::gen_reading))]
fn gen_words(number: &str, options: &[String]) -> Option<GenWords>
    ensures { option_map (λ words. command_in (Reading.Gen words)) result
        ≡ gen_reading number.now (settings_of (map string_bytes options.now)) }
{
    Some(GenWords {
        number: number_within(0, u64::MAX, number)?,
        cycles: cycles_in(options)?,
        workers: workers_in(options)?,
        stats: is_given("--stats", options),
    })
}

/// Reads `dis <hex> [--side S] [--opt T]`.
#[tactic(auto, unfolding(crate::specs::Words::dis_reading))]
fn dis_words(alloc: Global, hex: &str, options: &[String]) -> Result<DisWords, WordsFault>
    ensures { Reads (λ words. command_in (Reading.Dis words))
        (dis_reading hex.now (settings_of (map string_bytes options.now))) result }
{
    let words = instruction_words(alloc, hex)?;
    let side = side_config(options).ok_or(WordsFault::Words)?;
    Ok(DisWords { words, side })
}

/// Reads a command, its argument and its options.
#[tactic(auto, unfolding(crate::specs::Words::written))]
fn read_written(
    alloc: Global,
    words: &[String],
    probes: usize,
    parts: &[usize],
) -> Result<Reading, WordsFault>
    ensures { Reads command_in (written probes parts.now (map string_bytes words.now)) result }
{
    let [command, argument, options @ ..] = words else {
        return Err(WordsFault::Words);
    };
    let argument = argument.as_str();
    match command.as_str() {
        "run" => Ok(Reading::Run(run_words(alloc, probes, parts, argument, options)?)),
        "debug" => Ok(Reading::Debug(run_words(alloc, probes, parts, argument, options)?)),
        "dis" => Ok(Reading::Dis(dis_words(alloc, argument, options)?)),
        "asm" => Ok(Reading::Asm(String::from_str(alloc, argument)?)),
        "thumb" => Ok(Reading::Thumb(String::from_str(alloc, argument)?)),
        "gen" => Ok(Reading::Gen(gen_words(argument, options).ok_or(WordsFault::Words)?)),
        _ => Err(WordsFault::Words),
    }
}

/// Reads `run <image> --cycles N [--script FILE] [--pio LIST] [--probe LIST] [--part LIST] [--workers K] [--stats] [--table]`,
/// `debug` with the same words but `--probe`, `--workers` and `--stats`, `dis <hex> [--side S] [--opt T]`, `asm <file>`,
/// `thumb <file>` or `gen <number> --cycles N [--workers K] [--stats]`, where so many `probes` are handed in, and `parts` has the number
/// of pins of each part that is handed in. Words in this form, the options in any order and each at most once, are read as they are
/// written, all others as `clap` reads them.
///
/// # Errors
///
/// `Words` where the words are none of these, `Memory` where memory ran out.
#[tactic(auto, unfolding(crate::specs::Words::reading))]
pub fn read_words(
    alloc: Global,
    words: &[String],
    probes: usize,
    parts: &[usize],
) -> Result<Reading, WordsFault>
    ensures { Reads command_in (reading probes parts.now (map string_bytes words.now)) result }
{
    if is_normal(words) {
        return read_written(alloc, words, probes, parts);
    }
    let line = line_in(alloc, words)?.ok_or(WordsFault::Words)?;
    read_written(alloc, &line, probes, parts)
}
