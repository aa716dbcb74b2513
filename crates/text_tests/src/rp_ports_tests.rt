//! A shelf, a source and a sink in memory, each with a call that fails.

use rp_ports::mem_shelf::{HeldFile, MemShelf};
use rp_ports::mem_sink::MemSink;
use rp_ports::mem_source::MemSource;
use rp_ports::shelf::{Loaded, Shelf};
use rp_ports::sink::{Put, Sink};
use rp_ports::source::{Source, Taken};
use std::alloc::{AllocError, Global};
use std::test::Fail;

/// A shelf of two files, whose third load fails.
fn shelf(alloc: Global) -> Result<MemShelf, AllocError> {
    let mut files = Vec::new(alloc);
    for (name, bytes) in [("a", b"abc".as_slice()), ("b", b"")] {
        files.push(HeldFile {
            name: String::from_str(alloc, name)?,
            bytes: Vec::from_slice(alloc, bytes)?,
        })?;
    }
    Ok(MemShelf::new(alloc, files, vec![in alloc; 2]?))
}

/// Names, limits, what is answered, and the bytes that are loaded.
const LOADS: [(&str, usize, Loaded, &[u8]); 5] = [
    ("a", 3, Loaded::Done, b"abc"),
    ("a", 2, Loaded::Large(3), b""),
    ("a", 3, Loaded::Failed, b""),
    ("b", 0, Loaded::Done, b""),
    ("c", 9, Loaded::Failed, b""),
];

/// The first load that is answered otherwise, and how many have failed.
fn wrong_load(alloc: Global, shelf: &mut MemShelf) -> (Option<usize>, usize) {
    let mut into = Vec::new(alloc);
    for (index, (name, limit, loaded, bytes)) in LOADS.iter().enumerate() {
        let answer = shelf.load(name, *limit, &mut into);
        if answer != *loaded || answer == Loaded::Done && into.as_slice() != *bytes {
            return (Some(index), 0);
        }
    }
    (None, shelf.failed.len())
}

#[test]
fn a_shelf_answers_each_load(rt: HostRuntime) -> Result<(), Fail> {
    let mut shelf = shelf(rt.alloc())?;
    let (wrong, failed) = wrong_load(rt.alloc(), &mut shelf);
    assert!(rt; wrong.is_none() && failed == 2, "{wrong:?} {failed}");
    Ok(())
}

/// What is put into a sink whose second put fails, and what it answers.
const PUTS: [(&[u8], Put); 4] = [
    (b"one\n", Put::Took(4)),
    (b"two\n", Put::Failed),
    (b"", Put::Took(0)),
    (b"three\n", Put::Took(6)),
];

/// The first put that is answered otherwise.
fn wrong_put(sink: &mut MemSink) -> Option<usize> {
    for (index, (bytes, answer)) in PUTS.iter().enumerate() {
        if sink.put(bytes) != *answer {
            return Some(index);
        }
    }
    None
}

#[test]
fn a_sink_answers_each_put(rt: HostRuntime) -> Result<(), Fail> {
    let mut sink = MemSink::new(rt.alloc(), vec![in rt.alloc(); 1]?);
    let wrong = wrong_put(&mut sink);
    let kept = sink.bytes.as_slice() == b"one\nthree\n".as_slice() && sink.faults == 1;
    assert!(rt; wrong.is_none() && kept, "{wrong:?} {kept}");
    Ok(())
}

/// What is taken from a source whose second take fails into a buffer of three bytes, and the buffer after.
const TAKES: [(Taken, [u8; 3]); 4] = [
    (Taken::Took(3), *b"abc"),
    (Taken::Failed, *b"abc"),
    (Taken::Took(2), *b"dec"),
    (Taken::End, *b"dec"),
];

/// The first take that is answered otherwise.
fn wrong_take(source: &mut MemSource) -> Option<usize> {
    let mut buf = [0u8; 3];
    for (index, (answer, bytes)) in TAKES.iter().enumerate() {
        if source.take(&mut buf) != *answer || buf != *bytes {
            return Some(index);
        }
    }
    None
}

#[test]
fn a_source_answers_each_take(rt: HostRuntime) -> Result<(), Fail> {
    let alloc = rt.alloc();
    let mut source = MemSource::new(Vec::from_slice(alloc, b"abcde")?, vec![in alloc; 1]?);
    let wrong = wrong_take(&mut source);
    assert!(rt; wrong.is_none() && source.faults == 1, "{wrong:?}");
    Ok(())
}
