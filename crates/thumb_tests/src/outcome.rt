//! What a source gives.

ghost use Rattle.std.specs.Prelude.{IfOk};
ghost use Rattle.uf2_image.specs.Writing.{IsWritable};

use crate::halves::push_half;
use std::alloc::{AllocError, Global};
use thumb_asm::{ThumbFault, assemble_thumb};
use uf2_image::Image;

/// What a source gives.
pub enum Wanted {
    /// These halfwords, from so many bytes behind its start on.
    Words(usize, &'static [u16]),
    /// This fault.
    Fault(ThumbFault),
}

/// A source, and what it gives.
pub type Row = (&'static str, Wanted);

/// The image of a source, where it is short enough to be asked.
pub fn assembled(alloc: Global, text: &[u8]) -> Result<Image, ThumbFault>
    ensures { IfOk result IsWritable }
{
    if text.len() > 1_048_576 {
        return Err(ThumbFault::Memory);
    }
    assemble_thumb(alloc, text)
}

/// The bytes of an image, part by part.
pub fn bytes_of(alloc: Global, image: &Image) -> Result<Vec<u8>, AllocError> {
    let mut bytes = Vec::new(alloc);
    for part in image.parts.as_slice() {
        bytes.extend_from_slice(part.bytes.as_slice())?;
    }
    Ok(bytes)
}

/// The bytes of some halfwords.
pub fn bytes_in(alloc: Global, words: &[u16]) -> Result<Vec<u8>, AllocError> {
    let mut bytes = Vec::new(alloc);
    for word in words {
        push_half(&mut bytes, *word)?;
    }
    Ok(bytes)
}

/// Whether an image has these halfwords at a place.
pub fn has_words(
    alloc: Global,
    image: &Image,
    at: usize,
    words: &[u16],
) -> Result<bool, AllocError> {
    let bytes = bytes_of(alloc, image)?;
    let wanted = bytes_in(alloc, words)?;
    let (_, rest) = bytes.split_at(at.min(bytes.len()));
    Ok(rest.starts_with(&wanted))
}

/// Whether a source gives what it is to give.
fn is_right(alloc: Global, row: &Row) -> Result<bool, AllocError> {
    match assembled(alloc, row.0.as_bytes()) {
        Ok(image) => match &row.1 {
            Wanted::Words(at, words) => has_words(alloc, &image, *at, words),
            Wanted::Fault(_) => Ok(false),
        },
        Err(found) => match &row.1 {
            Wanted::Words(..) => Ok(false),
            Wanted::Fault(fault) => Ok(found == *fault),
        },
    }
}

/// The halfwords that a text names, each by its hexadecimal digits.
fn words_named(alloc: Global, text: &str) -> Result<Option<Vec<u16>>, AllocError> {
    let mut words = Vec::new(alloc);
    for word in text.split(' ') {
        match u16::from_str_radix(word, 16) {
            Ok(word) => words.push(word)?,
            Err(_) => return Ok(None),
        }
    }
    Ok(Some(words))
}

/// Whether the first line has the fault of that name.
fn is_named(fault: ThumbFault, name: &str) -> bool {
    match fault {
        ThumbFault::Range(1) => name == "Range",
        ThumbFault::Register(1) => name == "Register",
        ThumbFault::Syntax(1) => name == "Syntax",
        _ => false,
    }
}

/// Whether a line of a table, a source, ` = `, and its halfwords or the name of its fault, is right.
fn is_right_line(alloc: Global, line: &str) -> Result<bool, AllocError> {
    let Some((source, wanted)) = line.split_once(" = ") else {
        return Ok(false);
    };
    match assembled(alloc, source.as_bytes()) {
        Ok(image) => match words_named(alloc, wanted)? {
            Some(words) => has_words(alloc, &image, 0, words.as_slice()),
            None => Ok(false),
        },
        Err(found) => Ok(is_named(found, wanted)),
    }
}

/// The first line of a table that is not right.
pub fn first_wrong_line(
    alloc: Global,
    table: &'static str,
) -> Result<Option<&'static str>, AllocError> {
    for line in table.split('\n') {
        if !is_right_line(alloc, line)? {
            return Ok(Some(line));
        }
    }
    Ok(None)
}

/// Whether a source gives these halfwords at a place.
pub fn gives(alloc: Global, text: &[u8], at: usize, words: &[u16]) -> Result<bool, AllocError> {
    match assembled(alloc, text) {
        Ok(image) => has_words(alloc, &image, at, words),
        Err(_) => Ok(false),
    }
}

/// The first source that gives something else.
pub fn first_wrong(alloc: Global, rows: &[Row]) -> Result<Option<&'static str>, AllocError> {
    for row in rows {
        if !is_right(alloc, row)? {
            return Ok(Some(row.0));
        }
    }
    Ok(None)
}
