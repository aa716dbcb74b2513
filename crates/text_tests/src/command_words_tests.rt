//! Lines in other forms, what they are read as, how many workers are asked for, and whether a run is to end with the line of its
//! windows.

use command_words::line::line_in;
use command_words::{Reading, WordsFault, read_words};
use std::alloc::{AllocError, Global};
use std::test::Fail;

/// The words of a text, between its spaces.
fn split(alloc: Global, text: &str) -> Result<Vec<String>, AllocError> {
    let mut words = Vec::new(alloc);
    if !text.is_empty() {
        for word in text.split(' ') {
            words.push(String::from_str(alloc, word)?)?;
        }
    }
    Ok(words)
}

/// Whether the words of a text are read as this line, or as `none`.
fn reads(alloc: Global, text: &str, want: &str) -> Result<bool, AllocError> {
    match line_in(alloc, &split(alloc, text)?)? {
        None => Ok(want == "none"),
        Some(line) => Ok(line == split(alloc, want)?),
    }
}

/// Whether the words of a text ask for a run, `with` the line of its windows or `without` it, or for `none`.
fn asks(alloc: Global, text: &str, want: &str) -> Result<bool, AllocError> {
    let stats = match read_words(alloc, &split(alloc, text)?, 0, &[]) {
        Ok(Reading::Run(run)) => run.stats,
        Ok(Reading::Gen(run)) => run.stats,
        Err(WordsFault::Memory) => return Err(AllocError),
        _ => return Ok(want == "none"),
    };
    Ok(want == if stats { "with" } else { "without" })
}

#[test]
fn lines_in_other_forms(rt: HostRuntime) -> Result<(), Fail> {
    let alloc = rt.alloc();
    for (text, want) in [
        ("run --cycles=10 a.uf2", "run a.uf2 --cycles 10"),
        ("run --cycles 10 a.uf2", "run a.uf2 --cycles 10"),
        ("run --cycles=10 -- -b", "run -b --cycles 10"),
        ("dis --opt=1 --side=2 e081", "dis e081 --side 2 --opt 1"),
        ("asm -", "asm -"),
        ("debug --cycles=10 a.uf2", "debug a.uf2 --cycles 10"),
        (
            "run --probe=0=3 --cycles=10 a.uf2",
            "run a.uf2 --cycles 10 --probe 0=3",
        ),
        ("gen --cycles=10 1", "gen 1 --cycles 10"),
        (
            "run --stats a.uf2 --cycles=10",
            "run a.uf2 --cycles 10 --stats",
        ),
        (
            "run --stats --workers=3 a.uf2 --cycles=10",
            "run a.uf2 --cycles 10 --workers 3 --stats",
        ),
        (
            "gen --workers 3 --cycles=10 1",
            "gen 1 --cycles 10 --workers 3",
        ),
        ("gen --stats --cycles=10 1", "gen 1 --cycles 10 --stats"),
        (
            "run a.uf2 --cycles=10 --script=--stats",
            "run a.uf2 --cycles 10 --script --stats",
        ),
    ] {
        assert!(rt; reads(alloc, text, want)?);
    }
    Ok(())
}

#[test]
fn lines_that_are_refused(rt: HostRuntime) -> Result<(), Fail> {
    let alloc = rt.alloc();
    for text in [
        "",
        "run a.uf2",
        "run a.uf2 --cycles 10 --cycles 11",
        "run a.uf2 --cycles",
        "run a.uf2 --cycles=10 --side=1",
        "run a.uf2 --cycles=10 --stats=true",
        "run a.uf2 --cycles=10 --stats --stats",
        "run a.uf2 --cycles=10 --stats b.uf2",
        "gen 1",
        "debug a.uf2 --cycles=10 --probe=0=3",
        "debug a.uf2 --cycles=10 --stats",
        "debug a.uf2 --cycles=10 --workers=1",
        "run a.uf2 --cycles=10 --workers=1 --workers=1",
        "run a.uf2 --cycles=10 --workers",
        "run a.uf2 --cycles=10 --workers -1",
        "--help",
        "help",
        "run -h",
    ] {
        assert!(rt; reads(alloc, text, "none")?);
    }
    Ok(())
}

#[test]
fn words_that_ask_for_windows(rt: HostRuntime) -> Result<(), Fail> {
    let alloc = rt.alloc();
    for (text, want) in [
        ("run a --cycles 10", "without"),
        ("run a --cycles 10 --stats", "with"),
        ("run a --stats --cycles 10", "with"),
        ("run --stats a --cycles 10", "with"),
        ("run a --cycles 10 --script=--stats", "without"),
        ("gen 1 --cycles 10", "without"),
        ("gen 1 --stats --cycles 10", "with"),
        ("run a --stats", "none"),
        ("run a --stats 10 --cycles 10", "none"),
        ("run a --cycles --stats", "none"),
        ("gen 1 --stats --cycles 10 --stats", "none"),
        ("debug a --cycles 10 --stats", "none"),
        ("asm a --stats", "none"),
    ] {
        assert!(rt; asks(alloc, text, want)?);
    }
    Ok(())
}

/// The number of workers that the words of a text ask for; none where they are refused or their command has no such number.
fn workers(alloc: Global, text: &str) -> Result<Option<u8>, AllocError> {
    match read_words(alloc, &split(alloc, text)?, 0, &[]) {
        Ok(Reading::Run(run)) => Ok(Some(run.workers)),
        Ok(Reading::Gen(run)) => Ok(Some(run.workers)),
        Err(WordsFault::Memory) => Err(AllocError),
        _ => Ok(None),
    }
}

#[test]
fn words_that_ask_for_workers(rt: HostRuntime) -> Result<(), Fail> {
    let alloc = rt.alloc();
    for (text, want) in [
        ("run a --cycles 10", Some(0)),
        ("run a --cycles 10 --workers 0", Some(0)),
        ("run a --workers 8 --cycles 10", Some(8)),
        ("run --workers=8 a --cycles=10", Some(8)),
        ("gen 1 --cycles 10", Some(0)),
        ("gen 1 --workers 1 --cycles 10 --stats", Some(1)),
        ("run a --cycles 10 --workers 9", None),
        ("run a --cycles 10 --workers 08", None),
        ("run a --cycles 10 --workers=+1", None),
        ("run a --cycles 10 --workers=-1", None),
        ("run a --cycles 10 --workers", None),
        ("run a --cycles 10 --workers 1 --workers 1", None),
        ("gen 1 --cycles 10 --workers 256", None),
        ("debug a --cycles 10 --workers 1", None),
        ("asm a --workers 1", None),
        ("dis a042 --workers 1", None),
    ] {
        assert!(rt; workers(alloc, text)? == want);
    }
    Ok(())
}

/// How many parts the words of a text attach, where parts with 1, 3 and 2 pins are handed in, and whether they ask for the table of
/// routines; none where they are refused.
fn attached(alloc: Global, text: &str) -> Result<Option<(usize, bool)>, AllocError> {
    match read_words(alloc, &split(alloc, text)?, 2, &[1, 3, 2]) {
        Ok(Reading::Run(run) | Reading::Debug(run)) => Ok(Some((run.parts.len(), run.table))),
        Err(WordsFault::Memory) => Err(AllocError),
        _ => Ok(None),
    }
}

#[test]
fn words_that_attach_parts(rt: HostRuntime) -> Result<(), Fail> {
    let alloc = rt.alloc();
    for (text, want) in [
        ("run a --cycles 1", Some((0, false))),
        ("run a --cycles 1 --part 0=2", Some((1, false))),
        (
            "run a --cycles 1 --part 2=3+4,0=3,1=29+0+7",
            Some((3, false)),
        ),
        ("run a --cycles 1 --table --part 1=1+2+3", Some((1, true))),
        ("run a --part=0=2 --table --cycles=1", Some((1, true))),
        ("debug a --cycles 1 --part 0=2 --table", Some((1, true))),
        ("debug --table a --cycles=1", Some((0, true))),
        ("run a --cycles 1 --part 3=1", None),
        ("run a --cycles 1 --part 0=2,0=3", None),
        ("run a --cycles 1 --part 0=30", None),
        ("run a --cycles 1 --part 2=3+3", None),
        ("run a --cycles 1 --part 0=2+3", None),
        ("run a --cycles 1 --part 2=3", None),
        ("run a --cycles 1 --part ", None),
        ("run a --cycles 1 --part 0=", None),
        ("run a --cycles 1 --part 0=1,", None),
        ("run a --cycles 1 --part 0=01", None),
        ("run a --cycles 1 --part 2=3+", None),
        ("run a --cycles 1 --part 0", None),
        ("run a --cycles 1 --part", None),
        ("run a --cycles 1 --part 0=1 --part 0=1", None),
        ("run a --cycles 1 --table --table", None),
        ("run a --cycles 1 --table=1", None),
        ("gen 1 --cycles 5 --table", None),
        ("gen 1 --cycles 5 --part 0=1", None),
        ("thumb a --table", None),
    ] {
        assert!(rt; attached(alloc, text)? == want);
    }
    Ok(())
}

#[test]
fn words_of_a_thumb_source(rt: HostRuntime) -> Result<(), Fail> {
    let alloc = rt.alloc();
    for (text, want) in [
        ("thumb a.s", "a.s"),
        ("thumb -- a.s", "a.s"),
        ("thumb", "none"),
        ("thumb a.s b.s", "none"),
    ] {
        let name = match read_words(alloc, &split(alloc, text)?, 0, &[]) {
            Ok(Reading::Thumb(name)) => name,
            Ok(_reading) => String::from_str(alloc, "another")?,
            Err(WordsFault::Words) => String::from_str(alloc, "none")?,
            Err(WordsFault::Memory) => return Err(Fail::from(AllocError)),
        };
        assert!(rt; name.as_str() == want);
    }
    Ok(())
}
