//! The names that a source defines, and what a name stands for.

ghost use Rattle.std.specs.Prelude.{◌≡◌, OnOk};
ghost use Rattle.pio_asm.specs.Step.{definition_value, is_label_twice, is_member, is_seen, label_value, with_definition, with_label, with_line_names, with_name};

use crate::symbols::{Symbols, Value};
use crate::value::{Evaluated, evaluate, value_of};
use pio_parse::{Line, Name, Statement};
use std::alloc::{AllocError, Global};

pub(crate) fn has_name(seen: &Symbols, globals: &Symbols, name: &[u8]) -> bool
    ensures { result ≡ is_seen seen.now globals.now name.now }
{
    value_of(seen, globals, name).is_some()
}

/// Defines a name, unless it is defined.
pub(crate) fn add_name<'a>(
    globals: &Symbols<'a>,
    seen: &mut Symbols<'a>,
    name: &'a [u8],
    value: Value,
) -> Result<(), AllocError>
    ensures { OnOk result (seen.new ≡ with_name globals.now seen.old name.now value) }
{
    if has_name(seen, globals, name) {
        Ok(())
    } else {
        seen.put(name, value)
    }
}

fn value_of_label(count: usize) -> Value
    ensures { result ≡ label_value count }
{
    (count <= 4294967295).then(|| count as i64)
}

pub(crate) fn add_label<'a>(
    globals: &Symbols<'a>,
    count: usize,
    label: &'a Option<Name>,
    seen: &mut Symbols<'a>,
) -> Result<(), AllocError>
    ensures { OnOk result (seen.new ≡ with_label globals.now count label.now seen.old) }
{
    match label {
        None => Ok(()),
        Some(label) => add_name(globals, seen, label.as_slice(), value_of_label(count)),
    }
}

pub(crate) fn is_twice(globals: &Symbols, label: &Option<Name>, seen: &Symbols) -> bool
    ensures { result ≡ is_label_twice globals.now label.now seen.now }
{
    match label {
        None => false,
        Some(label) => has_name(seen, globals, label.as_slice()),
    }
}

pub(crate) fn value_of_definition(evaluated: Evaluated) -> Value
    ensures { result ≡ definition_value evaluated }
{
    if evaluated.unknown || evaluated.outside {
        None
    } else {
        evaluated.value
    }
}

fn add_definition<'a>(
    alloc: Global,
    globals: &Symbols<'a>,
    statement: &'a Option<Statement>,
    seen: &mut Symbols<'a>,
) -> Result<(), AllocError>
    ensures { OnOk result (seen.new ≡ with_definition globals.now statement.now seen.old) }
{
    match statement {
        Some(Statement::Define { name, value }) => {
            let found = evaluate(alloc, seen, &*globals, value)?;
            add_name(globals, seen, name.as_slice(), value_of_definition(found))
        }
        _ => Ok(()),
    }
}

/// Adds the names of a line, before which `count` instructions stand.
pub(crate) fn add_line_names<'a>(
    alloc: Global,
    globals: &Symbols<'a>,
    count: usize,
    line: &'a Line,
    seen: &mut Symbols<'a>,
) -> Result<(), AllocError>
    ensures { OnOk result (seen.new ≡ with_line_names globals.now count line.now seen.old) }
{
    add_label(globals, count, &line.label, seen)?;
    add_definition(alloc, globals, &line.statement, seen)
}

/// Whether a statement is an instruction or a `.word`.
pub(crate) fn makes_member(statement: &Option<Statement>) -> bool
    ensures { result ≡ is_member statement.now }
{
    matches!(
        statement,
        Some(Statement::Word(_)) | Some(Statement::Instruction(_))
    )
}
