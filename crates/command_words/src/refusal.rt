//! What is refused: the causes, and the line and the status of each.
#![tactic(auto, unfolding(crate::specs::Refusals::refused_line), using(std::proofs::Common::append_assoc))]

ghost use Rattle.std.specs.Prelude.{◌≡◌, ◌++◌, codes, IfOk};
ghost use Rattle.command_words.specs.Refusals.{meant, then_address, refused_line, status_of};
ghost use Rattle.command_words.specs.Refusals.Refusal.{BadImage, BadScript, BadSource, BadThumb, BadStart};

use arrayvec::ArrayVec;
use pin_script::ScriptFault;
use pio_parse::PioFault;
use startup_blocks::StartFault;
use std::alloc::{AllocError, Global};
use thumb_asm::ThumbFault;
use trace_text::line::push_word;
use uf2_image::ImageFault;

/// What is refused.
#[derive(Drop)]
pub enum Refusal {
    /// The words are not a command.
    Words,
    /// The file of this name could not be loaded.
    File(String),
    /// The file of this name has this many bytes, above its limit.
    Large(String, u64),
    /// The file is no image.
    Image(ImageFault),
    /// The file is no script.
    Script(ScriptFault),
    /// The file is no PIO source, its programs have a fault, or the first one finds no room.
    Source(PioFault),
    /// The file is no Thumb source.
    Thumb(ThumbFault),
    /// The image cannot be linked with the table of routines.
    Start(StartFault),
}

/// The line of an error, by what is said of it.
fn error(alloc: Global, words: &str) -> Result<Vec<u8>, AllocError>
    ensures { IfOk result (λ line. line.items ≡ codes "error " ++ words.now ++ codes "\n") }
{
    Ok(format!(in alloc; "error {words}\n")?.into_bytes())
}

/// The line of an error at an address.
fn error_at(alloc: Global, words: &str, address: u32) -> Result<Vec<u8>, AllocError>
    ensures { IfOk result (λ line. line.items
        ≡ codes "error " ++ words.now ++ then_address address ++ codes "\n") }
{
    let mut digits = ArrayVec::<u8, 8>::new();
    push_word(address, &mut digits);
    let mut line = format!(in alloc; "error {words} ")?.into_bytes();
    line.extend_from_slice(&digits)?;
    line.extend_from_slice(b"\n")?;
    Ok(line)
}

/// The line of an image's fault.
fn image_line(alloc: Global, fault: &ImageFault) -> Result<Vec<u8>, AllocError>
    ensures { IfOk result (λ line. line.items ≡ refused_line (BadImage fault.now)) }
{
    match *fault {
        ImageFault::Empty => error(alloc, "image 1 Empty"),
        ImageFault::Ragged(length) => error(alloc, &format!(in alloc; "image 2 Ragged {length}")?),
        ImageFault::Magic(block) => error(alloc, &format!(in alloc; "image 3 Magic {block}")?),
        ImageFault::Payload(block, size) => {
            error(alloc, &format!(in alloc; "image 4 Payload {block} {size}")?)
        }
        ImageFault::Count(block) => error(alloc, &format!(in alloc; "image 5 Count {block}")?),
        ImageFault::Number(block) => error(alloc, &format!(in alloc; "image 6 Number {block}")?),
        ImageFault::Repeat(block) => error(alloc, &format!(in alloc; "image 7 Repeat {block}")?),
        ImageFault::Flash(block, at) => {
            error_at(alloc, &format!(in alloc; "image 8 Flash {block}")?, at)
        }
        ImageFault::Address(block, at) => {
            error_at(alloc, &format!(in alloc; "image 9 Address {block}")?, at)
        }
        ImageFault::Overlap(block) => error(alloc, &format!(in alloc; "image 10 Overlap {block}")?),
        ImageFault::Missing(block) => error(alloc, &format!(in alloc; "image 11 Missing {block}")?),
        ImageFault::Nothing => error(alloc, "image 12 Nothing"),
        ImageFault::Memory => error(alloc, "image 13 Memory"),
    }
}

/// The line of a script's fault.
fn script_line(alloc: Global, fault: &ScriptFault) -> Result<Vec<u8>, AllocError>
    ensures { IfOk result (λ line. line.items ≡ refused_line (BadScript fault.now)) }
{
    match *fault {
        ScriptFault::Form(line) => error(alloc, &format!(in alloc; "script 1 Form {line}")?),
        ScriptFault::Number(line) => error(alloc, &format!(in alloc; "script 2 Number {line}")?),
        ScriptFault::Pin(line) => error(alloc, &format!(in alloc; "script 3 Pin {line}")?),
        ScriptFault::Order(line) => error(alloc, &format!(in alloc; "script 4 Order {line}")?),
        ScriptFault::TooMany(line) => error(alloc, &format!(in alloc; "script 5 TooMany {line}")?),
        ScriptFault::Memory => error(alloc, "script 6 Memory"),
        ScriptFault::Version(line) => error(alloc, &format!(in alloc; "script 7 Version {line}")?),
        ScriptFault::Divisor(line) => error(alloc, &format!(in alloc; "script 8 Divisor {line}")?),
        ScriptFault::Bytes(line) => error(alloc, &format!(in alloc; "script 9 Bytes {line}")?),
    }
}

/// The line of a PIO fault.
fn pio_line(alloc: Global, fault: &PioFault) -> Result<Vec<u8>, AllocError>
    ensures { IfOk result (λ line. line.items ≡ refused_line (BadSource fault.now)) }
{
    match *fault {
        PioFault::Char(line, at) => error(alloc, &format!(in alloc; "pio 1 Char {line} {at}")?),
        PioFault::Syntax(line, at) => error(alloc, &format!(in alloc; "pio 2 Syntax {line} {at}")?),
        PioFault::Memory => error(alloc, "pio 3 Memory"),
        PioFault::Unknown(line) => error(alloc, &format!(in alloc; "pio 4 Unknown {line}")?),
        PioFault::Twice(line) => error(alloc, &format!(in alloc; "pio 5 Twice {line}")?),
        PioFault::Range(line) => error(alloc, &format!(in alloc; "pio 6 Range {line}")?),
        PioFault::Delay(line) => error(alloc, &format!(in alloc; "pio 7 Delay {line}")?),
        PioFault::Side(line) => error(alloc, &format!(in alloc; "pio 8 Side {line}")?),
        PioFault::TooLong(line) => error(alloc, &format!(in alloc; "pio 9 TooLong {line}")?),
        PioFault::Wrap(line) => error(alloc, &format!(in alloc; "pio 10 Wrap {line}")?),
        PioFault::Origin(line) => error(alloc, &format!(in alloc; "pio 11 Origin {line}")?),
        PioFault::NoRoom(count) => error(alloc, &format!(in alloc; "pio 12 NoRoom {count}")?),
    }
}

/// The line of a Thumb source's fault.
fn thumb_line(alloc: Global, fault: &ThumbFault) -> Result<Vec<u8>, AllocError>
    ensures { IfOk result (λ line. line.items ≡ refused_line (BadThumb fault.now)) }
{
    match *fault {
        ThumbFault::Char(line) => error(alloc, &format!(in alloc; "thumb 1 Char {line}")?),
        ThumbFault::Syntax(line) => error(alloc, &format!(in alloc; "thumb 2 Syntax {line}")?),
        ThumbFault::Memory => error(alloc, "thumb 3 Memory"),
        ThumbFault::Unknown(line) => error(alloc, &format!(in alloc; "thumb 4 Unknown {line}")?),
        ThumbFault::Twice(line) => error(alloc, &format!(in alloc; "thumb 5 Twice {line}")?),
        ThumbFault::Range(line) => error(alloc, &format!(in alloc; "thumb 6 Range {line}")?),
        ThumbFault::Register(line) => error(alloc, &format!(in alloc; "thumb 7 Register {line}")?),
        ThumbFault::Align(line) => error(alloc, &format!(in alloc; "thumb 8 Align {line}")?),
        ThumbFault::TooLong(line) => error(alloc, &format!(in alloc; "thumb 9 TooLong {line}")?),
        ThumbFault::Nothing(line) => error(alloc, &format!(in alloc; "thumb 10 Nothing {line}")?),
    }
}

/// The line of an image that cannot be linked.
fn start_line(alloc: Global, fault: &StartFault) -> Result<Vec<u8>, AllocError>
    ensures { IfOk result (λ line. line.items ≡ refused_line (BadStart fault.now)) }
{
    match *fault {
        StartFault::Taken(address) => error_at(alloc, "start 1 Taken", address),
        StartFault::Memory => error(alloc, "start 2 Memory"),
    }
}

/// The line of a refusal.
pub fn refusal_line(alloc: Global, refusal: &Refusal) -> Result<Vec<u8>, AllocError>
    ensures { IfOk result (λ line. line.items ≡ refused_line (meant refusal.now)) }
{
    match refusal {
        Refusal::Words => error(alloc, "words"),
        Refusal::File(name) => error(alloc, &format!(in alloc; "file {name}")?),
        Refusal::Large(name, length) => error(alloc, &format!(in alloc; "large {name} {length}")?),
        Refusal::Image(fault) => image_line(alloc, fault),
        Refusal::Script(fault) => script_line(alloc, fault),
        Refusal::Source(fault) => pio_line(alloc, fault),
        Refusal::Thumb(fault) => thumb_line(alloc, fault),
        Refusal::Start(fault) => start_line(alloc, fault),
    }
}

/// The status of a refusal.
pub fn status(refusal: &Refusal) -> u8
    ensures { result ≡ status_of (meant refusal.now) }
{
    match refusal {
        Refusal::Words => 2,
        Refusal::File(_) | Refusal::Large(_, _) => 3,
        Refusal::Image(_) => 4,
        Refusal::Source(_) => 5,
        Refusal::Script(_) => 6,
        Refusal::Thumb(_) => 11,
        Refusal::Start(_) => 12,
    }
}
