//! From the words to a machine that can run, or to what is refused.

ghost use Rattle.std.specs.Prelude.{◌≡◌, ◌≤◌, ℕ, List, Option, length, IfOk, IfErr, [], map};
ghost use Rattle.std.specs.Option.{option_map};
ghost use Rattle.std.specs.String.{string_bytes};
ghost use Rattle.lane_look.specs.Device.{DeviceMeaning};
ghost use Rattle.rp_ports.specs.Shelf.{Files};
ghost use Rattle.uf2_image.specs.Uf2.{FitsSram};
ghost use Rattle.pin_script.specs.Script.{script_of};
ghost use Rattle.startup_blocks.specs.Table.{HaveBytes};
ghost use Rattle.rp_machine.specs.Boot.{AreLoads, start};
ghost use Rattle.board_parts.specs.Hearing.{Aim};
ghost use Rattle.command_words.specs.Refusals.Refusal.{BadScript};
ghost use Rattle.command_words.specs.Words.Subcommand.{Assemble, AssembleThumb, Disassemble, Generate};
ghost use Rattle.command_words.specs.Read.{run_in, command_in, entry_in};
ghost use Rattle.pico_top.specs.Dialogue.{Dialogue, with_image, with_linked, with_run, with_script, with_program, with_programs, Placed};
ghost use Rattle.pico_top.specs.Dialogue.Dialogue.{Load};
ghost use Rattle.pico_top.specs.declared.outcome.Unopened.TheVariants.{Memory};
ghost use Rattle.pico_top.specs.Opening.{Leads, OpensFor, Passes, Judges, Boots, opened_dialogue, use_for, taken_by, ArePlaced, Places};

use crate::outcome::{Debugging, Opened, Pieces, Purpose, Started, Unopened};
use command_words::refusal::Refusal;
use command_words::{DisWords, GenWords, PioEntry, Reading, RunWords};
use lane_look::Device;
use pin_script::{Script, ScriptFault, read_script};
use pio_asm::listing::{first_program, listing, offset_for, programs_in, with_addresses};
use pio_disasm::write_source;
use pio_parse::PioFault;
use reverse_debug::Session;
use rp_machine::{Machine, PioLoad, World};
use rp_ports::shelf::{Loaded, Shelf};
use startup_blocks::{StartFault, link};
use std::alloc::Global;
use thumb_asm::{ThumbFault, assemble_thumb};
use uf2_image::numbered::generated;
use uf2_image::{Image, ImageFault, read_image, write_image};

/// An image file has at most 16 MiB.
const IMAGE_LIMIT: usize = 16_777_216;

/// A script file has at most 4 MiB.
const SCRIPT_LIMIT: usize = 4_194_304;

/// A source file has at most 1 MiB.
const SOURCE_LIMIT: usize = 1_048_576;

/// Loads a file of at most so many bytes.
fn load<F: Shelf>(
    alloc: Global,
    name: &str,
    limit: usize,
    files: &mut F,
) -> Result<Vec<u8>, Unopened>
    ensures kept { F.files files.new ≡ F.files files.old }
    ensures answer { (next : List ℕ → Dialogue) → Leads (F.files files.old) (F.failed files.old)
        (F.failed files.new) (λ bytes. next bytes.items) (Load name.now limit next) result }
    ensures within { IfOk result (λ bytes. length bytes.items ≤ limit) }
{
    let mut bytes = Vec::new(alloc);
    match files.load(name, limit, &mut bytes) {
        Loaded::Done => Ok(bytes),
        Loaded::Large(length) => match String::from_str(alloc, name) {
            Ok(name) => Err(Unopened::Refusing(Refusal::Large(name, length))),
            Err(_) => Err(Unopened::Memory),
        },
        Loaded::Failed => match String::from_str(alloc, name) {
            Ok(name) => Err(Unopened::Refusing(Refusal::File(name))),
            Err(_) => Err(Unopened::Memory),
        },
        Loaded::Memory => Err(Unopened::Memory),
    }
}

/// Loads an image file and reads it.
#[tactic(auto, using(crate::proofs::Walking::leads_cut, crate::proofs::Walking::read_has_bytes))]
fn open_image<F: Shelf>(alloc: Global, name: &str, files: &mut F) -> Result<Image, Unopened>
    ensures kept { F.files files.new ≡ F.files files.old }
    ensures answer { Passes (F.files files.old) (F.failed files.old) (F.failed files.new)
        (with_image name.now) result }
    ensures fits { IfOk result FitsSram }
    ensures have { IfOk result (λ image. HaveBytes image.parts) }
{
    let bytes = load(alloc, name, IMAGE_LIMIT, files)?;
    match read_image(alloc, &bytes) {
        Ok(image) => Ok(image),
        Err(ImageFault::Memory) => Err(Unopened::Memory),
        Err(fault) => Err(Unopened::Refusing(Refusal::Image(fault))),
    }
}

/// An image as a run boots it: linked with the table of routines, where that is asked for.
fn linked_image(alloc: Global, table: bool, image: Image) -> Result<Image, Unopened>
    requires fits { FitsSram image }
    requires have { HaveBytes image.parts }
    ensures answer { (files : Option Files) (failed : List (List ℕ))
        → Passes files failed failed (λ next. with_linked table next image) result }
    ensures fits { IfOk result FitsSram }
{
    if !table {
        return Ok(image);
    }
    match link(alloc, &image) {
        Ok(linked) => Ok(linked),
        Err(StartFault::Memory) => Err(Unopened::Memory),
        Err(fault) => Err(Unopened::Refusing(Refusal::Start(fault))),
    }
}

/// The script of a file's bytes.
fn script_in(alloc: Global, bytes: &[u8]) -> Result<Script, Unopened>
    requires { length bytes.now ≤ SCRIPT_LIMIT }
    ensures { Judges (script_of bytes.now) BadScript result }
{
    match read_script(alloc, bytes) {
        Ok(script) => Ok(script),
        Err(ScriptFault::Memory) => Err(Unopened::Memory),
        Err(fault) => Err(Unopened::Refusing(Refusal::Script(fault))),
    }
}

/// Loads the script file of a run and reads it; without one the script is that of an empty file.
#[tactic(auto, using(crate::proofs::Walking::leads_cut))]
fn open_script<F: Shelf>(alloc: Global, run: &RunWords, files: &mut F) -> Result<Script, Unopened>
    ensures kept { F.files files.new ≡ F.files files.old }
    ensures answer { Passes (F.files files.old) (F.failed files.old) (F.failed files.new)
        (with_script (option_map string_bytes run.now.script)) result }
{
    match &run.script {
        None => script_in(alloc, &[]),
        Some(name) => {
            let bytes = load(alloc, name.as_str(), SCRIPT_LIMIT, files)?;
            script_in(alloc, &bytes)
        }
    }
}

/// Boots the machine of a run for a purpose.
#[tactic(auto, using(crate::proofs::Walking::start_cycle))]
fn boot<X: Device>(
    alloc: Global,
    purpose: Purpose,
    image: &Image,
    script: Script,
    loads: &[PioLoad],
    limit: u64,
    device: &X,
) -> Result<Opened, Unopened>
    requires image { FitsSram image.now }
    requires loads { AreLoads loads.now }
    requires limit { limit ≤ 1000000000 }
    ensures ok { IfOk result (Boots purpose (start (X.meaning device.now) image.now loads.now) script limit) }
    ensures err { IfErr result (λ unopened. unopened ≡ Memory) }
{
    let world = World {
        script: &script,
        device,
        limit,
    };
    let machine = Machine::boot(alloc, image, loads, &world)?;
    match purpose {
        Purpose::Run(stats) => Ok(Opened::Machine(Started {
            machine,
            script,
            limit,
            stats,
        })),
        Purpose::Debug => Ok(Opened::Session(Debugging {
            session: Session::open(alloc, &machine, limit)?,
            script,
            limit,
        })),
    }
}

/// Loads the image of a run, which is linked where that is asked for, its script and its programs, and boots the machine.
#[tactic(auto, using(crate::proofs::Walking::leads_cut))]
fn open_run<F: Shelf, X: Device>(
    alloc: Global,
    purpose: Purpose,
    run: &RunWords,
    files: &mut F,
    device: &X,
) -> Result<Opened, Unopened>
    ensures kept { F.files files.new ≡ F.files files.old }
    ensures answer { (aims : List Aim) → Leads (F.files files.old) (F.failed files.old) (F.failed files.new)
        (opened_dialogue (X.meaning device.now) aims)
        (with_run (use_for aims purpose) (X.meaning device.now) (run_in run.now)) result }
{
    let image = open_image(alloc, run.image.as_str(), files)?;
    let image = linked_image(alloc, run.table, image)?;
    let script = open_script(alloc, run, files)?;
    let loads = open_programs(alloc, &run.pio, files)?;
    boot(alloc, purpose, &image, script, &loads, run.cycles, device)
}

/// Loads a source and lists its programs.
#[tactic(auto, using(crate::proofs::Walking::leads_cut))]
fn open_source<F: Shelf>(alloc: Global, name: &str, files: &mut F) -> Result<Opened, Unopened>
    ensures kept { F.files files.new ≡ F.files files.old }
    ensures answer { (device : DeviceMeaning) → OpensFor (F.files files.old) (F.failed files.old)
        (F.failed files.new) device (Assemble name.now) result }
{
    let bytes = load(alloc, name, SOURCE_LIMIT, files)?;
    match programs_in(alloc, &bytes) {
        Ok(programs) => Ok(Opened::Text(listing(alloc, &programs)?, Pieces::Lines)),
        Err(PioFault::Memory) => Err(Unopened::Memory),
        Err(fault) => Err(Unopened::Refusing(Refusal::Source(fault))),
    }
}

/// Loads a Thumb source and makes the file of its image.
#[tactic(auto, using(crate::proofs::Walking::leads_cut))]
fn open_thumb<F: Shelf>(alloc: Global, name: &str, files: &mut F) -> Result<Opened, Unopened>
    ensures kept { F.files files.new ≡ F.files files.old }
    ensures answer { (device : DeviceMeaning) → OpensFor (F.files files.old) (F.failed files.old)
        (F.failed files.new) device (AssembleThumb name.now) result }
{
    let bytes = load(alloc, name, SOURCE_LIMIT, files)?;
    match assemble_thumb(alloc, &bytes) {
        Ok(image) => Ok(Opened::Text(write_image(alloc, &image)?, Pieces::Blocks)),
        Err(ThumbFault::Memory) => Err(Unopened::Memory),
        Err(fault) => Err(Unopened::Refusing(Refusal::Thumb(fault))),
    }
}

/// The source text of instruction words.
fn open_text(alloc: Global, asked: &DisWords) -> Result<Opened, Unopened>
    ensures { (files : Option Files) (failed : List (List ℕ)) (device : DeviceMeaning)
        → OpensFor files failed failed device (Disassemble asked.now.words.items asked.now.side)
        result }
{
    let text = write_source(alloc, &asked.words, &asked.side)?;
    Ok(Opened::Text(text, Pieces::Lines))
}

/// Generates the image of a number, and boots the machine of its run.
fn open_generated<X: Device>(
    alloc: Global,
    asked: &GenWords,
    device: &X,
) -> Result<Opened, Unopened>
    ensures { (files : Option Files) (failed : List (List ℕ))
        → OpensFor files failed failed (X.meaning device.now)
        (Generate asked.now.number asked.now.cycles asked.now.workers asked.now.stats) result }
{
    let image = generated(alloc, asked.number)?;
    let script = Script::new(alloc);
    let purpose = Purpose::Run(asked.stats);
    boot(alloc, purpose, &image, script, &[], asked.cycles, device)
}

/// Loads the files that a reading names, and boots the machine or makes the text.
pub fn open_reading<F: Shelf, X: Device>(
    alloc: Global,
    reading: &Reading,
    files: &mut F,
    device: &X,
) -> Result<Opened, Unopened>
    ensures kept { F.files files.new ≡ F.files files.old }
    ensures answer { OpensFor (F.files files.old) (F.failed files.old) (F.failed files.new)
        (X.meaning device.now) (command_in reading.now) result }
{
    match reading {
        Reading::Run(run) => open_run(alloc, Purpose::Run(run.stats), run, files, device),
        Reading::Debug(run) => open_run(alloc, Purpose::Debug, run, files, device),
        Reading::Dis(asked) => open_text(alloc, asked),
        Reading::Asm(name) => open_source(alloc, name.as_str(), files),
        Reading::Thumb(name) => open_thumb(alloc, name.as_str(), files),
        Reading::Gen(asked) => open_generated(alloc, asked, device),
    }
}

/// The addresses of a block that are taken, one bit each.
#[tactic(auto, using(crate::proofs::Walking::room_at))]
fn taken(block: u8, loads: &[PioLoad]) -> u32
    requires { AreLoads loads.now }
    ensures { result ≡ taken_by 0 block loads.now }
{
    let mut used = 0;
    for load in loads {
        if load.block == block {
            used = with_addresses(used, load.offset, load.program.words.len());
        }
    }
    used
}

/// Loads the source of an entry, and adds its first program, if it has one, at its offset behind others.
#[tactic(auto, using(crate::proofs::Walking::first_some, crate::proofs::Walking::loads_push))]
fn open_program<F: Shelf>(
    alloc: Global,
    entry: &PioEntry,
    loads: &mut Vec<PioLoad>,
    files: &mut F,
) -> Result<(), Unopened>
    requires { AreLoads loads.old.items }
    ensures kept { F.files files.new ≡ F.files files.old }
    ensures loads { IfOk result (λ done. AreLoads loads.new.items) }
    ensures answer { (before : List Placed) → ArePlaced before loads.old.items
        → Places (F.files files.old) (F.failed files.old) (F.failed files.new)
        (with_program (entry_in entry.now) before) [] (λ done. loads.new.items) result }
{
    let bytes = load(alloc, entry.file.as_str(), SOURCE_LIMIT, files)?;
    match first_program(alloc, &bytes) {
        Ok(Some(program)) => match offset_for(taken(entry.block, loads), &program) {
            Ok(offset) => match loads.push(PioLoad {
                block: entry.block,
                machine: entry.machine,
                offset,
                program,
            }) {
                Ok(()) => Ok(()),
                Err(_) => Err(Unopened::Memory),
            },
            Err(fault) => Err(Unopened::Refusing(Refusal::Source(fault))),
        },
        Ok(None) => Ok(()),
        Err(PioFault::Memory) => Err(Unopened::Memory),
        Err(fault) => Err(Unopened::Refusing(Refusal::Source(fault))),
    }
}

/// Loads the programs of all entries, each behind those before it.
fn open_programs<F: Shelf>(
    alloc: Global,
    entries: &[PioEntry],
    files: &mut F,
) -> Result<Vec<PioLoad>, Unopened>
    ensures kept { F.files files.new ≡ F.files files.old }
    ensures loads { IfOk result (λ loads. AreLoads loads.items) }
    ensures answer { Places (F.files files.old) (F.failed files.old) (F.failed files.new)
        (with_programs (map entry_in entries.now) []) [] (λ loads. loads.items) result }
{
    let mut loads = Vec::new(alloc);
    for entry in entries {
        open_program(alloc, entry, &mut loads, files)?;
    }
    Ok(loads)
}
