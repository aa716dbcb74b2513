//! The names and the bytes of a source.

ghost use Rattle.std.specs.Prelude.{◌≡◌, ◌≢◌, ◌≤◌, ◌<◌, ◌^◌, ◌*◌, ◌+◌, ◌++◌, Ok, Err, Some, None, [], length, IfErr, IfNone, IfOk, OnOk, MatchResult, true, false, ⊤};
ghost use Rattle.std.specs.Str.Lines.{lines};
ghost use Rattle.thumb_parse.specs.Tokens.{code_part};
ghost use Rattle.source_text.specs.Lines.{first_that};
ghost use Rattle.thumb_asm.specs.Lines.{is_misfit, statement_at, statement_of};
ghost use Rattle.thumb_asm.specs.Placed.{size_at};
ghost use Rattle.thumb_asm.specs.Source.{IsMisfitAt, address_after, bytes_from, bytes_of, fault_at, is_twice, is_unknown, item_fault, line_bytes, names_of, place_in, target_of, with_label};

use crate::fault::ThumbFault;
use crate::placed::{
    is_misaligned, is_out_of_range, is_wrong_register, name_of, push_item, size_at,
};
use source_text::{Symbols, first_line};
use std::alloc::{AllocError, Global};
use thumb_parse::{Item, Span, Statement, Token, code_part, name_text, read_statement};

/// Names with the line, counted from 1, and the address at which they are defined first.
pub(crate) type Names<'a> = Symbols<'a, (u32, u64)>;

/// Where code begins.
const START: u64 = 0x2000_0000;

/// The end of SRAM.
const END: u64 = 0x2004_2000;

/// Adds the label of line `number`, if it has one.
fn add_label<'a>(
    number: u32,
    address: u64,
    code: &'a [u8],
    label: Option<Span>,
    names: &mut Names<'a>,
) -> Result<(), AllocError>
    ensures { OnOk result (names.new ≡ with_label number address code.now label names.old) }
{
    match label {
        Some(label) => names.define(name_text(code, label), (number, address)),
        None => Ok(()),
    }
}

/// Adds the label of a line, which has to have a form, and gives the address after it.
#[tactic(auto, unfolding(crate::specs::Lines::is_misfit, crate::specs::Lines::statement_at, crate::specs::Source::address_after))]
fn name_line<'a>(
    number: u32,
    address: u64,
    line: &'a [u8],
    tokens: &mut Vec<Token>,
    names: &mut Names<'a>,
) -> Result<u64, ThumbFault>
    requires { address < 2 ^ 40 }
    ensures fits { IfOk result (λ next. is_misfit line.now ≡ false) }
    ensures names { IfOk result (λ next. names.new
        ≡ with_label number address (code_part line.now) (statement_at (code_part line.now)).label names.old) }
    ensures next { IfOk result (λ next. next ≡ address_after address (code_part line.now)) }
    ensures near { IfOk result (λ next. next ≤ address + 65535) }
    ensures fault { IfErr result (λ fault. fault ≢ ThumbFault.Memory → fault ≡ ThumbFault.Syntax number) }
    ensures misfit { IfErr result (λ fault. fault ≢ ThumbFault.Memory → is_misfit line.now ≡ true) }
{
    let code = code_part(line);
    let Some(statement) = read_statement(code, tokens)? else {
        return Err(ThumbFault::Syntax(number));
    };
    add_label(number, address, code, statement.label, names)?;
    Ok(address + size_at(address, statement.item))
}

/// The names of a source, each line of which has to have a form.
pub(crate) fn find_names(alloc: Global, text: &[u8]) -> Result<Names<'_>, ThumbFault>
    requires { length text.now ≤ 1048576 }
    ensures names { IfOk result (λ names. names ≡ names_of text.now) }
    ensures fits { IfOk result (λ names. first_that is_misfit 1 (lines text.now) ≡ None) }
    ensures fault { IfErr result (λ fault. fault ≢ ThumbFault.Memory
        → IsMisfitAt fault (first_that is_misfit 1 (lines text.now))) }
{
    let mut names = Symbols::new(alloc);
    let mut tokens = Vec::new(alloc);
    let mut rest = text;
    let mut number: u32 = 0;
    let mut address = START;
    while !rest.is_empty() {
        let (line, after) = first_line(rest);
        number += 1;
        address = name_line(number, address, line, &mut tokens, &mut names)?;
        rest = after;
    }
    Ok(names)
}

/// The line and the address at which a name of a line is defined first, if the name is written and defined.
fn place_in(names: &Names, code: &[u8], name: Option<Span>) -> Option<(u32, u64)>
    ensures { result ≡ place_in names.now code.now name }
{
    match name {
        Some(name) => names.get(name_text(code, name)),
        None => None,
    }
}

/// The address of what a line names.
fn target_of(names: &Names, code: &[u8], item: Item) -> u64
    ensures { result ≡ target_of names.now code.now item }
{
    match place_in(names, code, name_of(item)) {
        Some((_, address)) => address,
        None => 0,
    }
}

/// Whether a name is written and not defined.
fn is_unknown(names: &Names, code: &[u8], name: Option<Span>) -> bool
    ensures { result ≡ is_unknown names.now code.now name }
{
    match name {
        Some(name) => names.get(name_text(code, name)).is_none(),
        None => false,
    }
}

/// Whether the label of line `number` is defined before.
fn is_twice(names: &Names, number: u32, code: &[u8], label: Option<Span>) -> bool
    ensures { result ≡ is_twice names.now number code.now label }
{
    match place_in(names, code, label) {
        Some((line, _)) => line != number,
        None => false,
    }
}

/// The fault of an item whose names are fine.
fn item_fault(number: u32, address: u64, target: u64, item: Item) -> Option<ThumbFault>
    requires { address < 2 ^ 40 }
    ensures fault { result ≡ item_fault number address target item }
    ensures fits { IfNone result (address + size_at address item ≤ 0x2004_2000) }
{
    if is_out_of_range(address, target, item) {
        Some(ThumbFault::Range(number))
    } else if is_wrong_register(address, target, item) {
        Some(ThumbFault::Register(number))
    } else if is_misaligned(address, target, item) {
        Some(ThumbFault::Align(number))
    } else if address + size_at(address, item) > END {
        Some(ThumbFault::TooLong(number))
    } else {
        None
    }
}

/// The fault of a line at an address.
#[tactic(auto, unfolding(crate::specs::Source::fault_at))]
fn fault_at(
    names: &Names,
    number: u32,
    address: u64,
    code: &[u8],
    statement: Statement,
) -> Option<ThumbFault>
    requires { address < 2 ^ 40 }
    ensures fault { result ≡ fault_at names.now number address code.now statement }
    ensures fits { IfNone result (address + size_at address statement.item ≤ 0x2004_2000) }
{
    if is_unknown(names, code, name_of(statement.item)) {
        return Some(ThumbFault::Unknown(number));
    }
    if is_twice(names, number, code, statement.label) {
        return Some(ThumbFault::Twice(number));
    }
    let target = target_of(names, code, statement.item);
    item_fault(number, address, target, statement.item)
}

/// The statement of a line that has a form.
#[tactic(auto, unfolding(crate::specs::Lines::statement_at))]
fn statement_at(code: &[u8], tokens: &mut Vec<Token>) -> Result<Statement, AllocError>
    ensures { MatchResult result (λ statement. statement ≡ statement_at code.now) (λ _. ⊤) }
{
    match read_statement(code, tokens)? {
        Some(statement) => Ok(statement),
        None => Ok(Statement {
            label: None,
            item: Item::Empty,
        }),
    }
}

/// Appends the bytes of a line at an address, and gives the address after it.
#[tactic(auto, unfolding(crate::specs::Source::line_bytes, crate::specs::Source::address_after))]
fn push_line(
    names: &Names,
    number: u32,
    address: u64,
    line: &[u8],
    tokens: &mut Vec<Token>,
    bytes: &mut Vec<u8>,
) -> Result<u64, ThumbFault>
    requires { address < 2 ^ 40 }
    ensures fine { IfOk result (λ next. fault_at names.now number address (code_part line.now)
        (statement_at (code_part line.now)) ≡ None) }
    ensures bytes { IfOk result (λ next. bytes.new.items
        ≡ bytes.old.items ++ line_bytes names.now address (code_part line.now)) }
    ensures next { IfOk result (λ next. next ≡ address_after address (code_part line.now)) }
    ensures low { IfOk result (λ next. next ≤ 0x2004_2000) }
    ensures fault { IfErr result (λ fault. fault ≢ ThumbFault.Memory
        → fault_at names.now number address (code_part line.now) (statement_at (code_part line.now)) ≡ Some fault) }
{
    let code = code_part(line);
    let statement = statement_at(code, tokens)?;
    if let Some(fault) = fault_at(names, number, address, code, statement) {
        return Err(fault);
    }
    push_item(
        address,
        target_of(names, code, statement.item),
        statement.item,
        bytes,
    )?;
    Ok(address + size_at(address, statement.item))
}

/// The bytes of a source whose lines have forms and whose names are these.
pub(crate) fn read_bytes(alloc: Global, names: &Names, text: &[u8]) -> Result<Vec<u8>, ThumbFault>
    requires { length text.now ≤ 1048576 }
    ensures bytes { IfOk result (λ bytes. bytes_from names.now 1 0x2000_0000 [] (lines text.now)
        ≡ Ok bytes.items) }
    ensures short { IfOk result (λ bytes. length bytes.items ≤ 0x42000) }
    ensures fault { IfErr result (λ fault. fault ≢ ThumbFault.Memory
        → bytes_from names.now 1 0x2000_0000 [] (lines text.now) ≡ Err fault) }
{
    let mut bytes = Vec::new(alloc);
    let mut tokens = Vec::new(alloc);
    let mut rest = text;
    let mut number: u32 = 0;
    let mut address = START;
    while !rest.is_empty() {
        let (line, after) = first_line(rest);
        number += 1;
        address = push_line(names, number, address, line, &mut tokens, &mut bytes)?;
        rest = after;
    }
    Ok(bytes)
}
