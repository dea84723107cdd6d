//! What becomes of modules, as text.
use asn1_notation_printing::{list_types, print_type};
use asn1_notation_syntax::{Syntax, line_and_column, read_syntax};
use asn1_notation_types::{Additions, NamedBits, OpenTypes, Table, TableOptions, Times, table_of};
use asn1_table_extending::{ExtendingError, check_extends};
use asn1_table_names::Names;
use std::alloc::{AllocError, Global};
use std::fmt::Display;

/// What comes before the types of a normal form, and after them.
const AROUND: (&str, &str) = ("Printed DEFINITIONS ::= BEGIN\n\n", "\n\nEND\n");

/// Why modules have no other answer.
#[derive(Drop)]
pub enum Stop {
    /// They are wrong: the line, the column and what is said there.
    Said(String),
    /// Memory ran out.
    OutOfMemory,
}

impl From<AllocError> for Stop {
    fn from(_refused: AllocError) -> Self {
        Stop::OutOfMemory
    }
}

/// What is said at an octet of a text.
fn said_at(alloc: Global, text: &str, offset: usize, said: &impl Display) -> Stop {
    let at = line_and_column(text.as_bytes(), offset);
    match format!(in alloc; "{}:{} {said}", at.line, at.column) {
        Ok(said) => Stop::Said(said),
        Err(refused) => Stop::from(refused),
    }
}

/// The syntax of a text.
fn syntax_of(alloc: Global, text: &str) -> Result<Syntax, Stop> {
    match read_syntax(alloc, text.as_bytes()) {
        Ok(syntax) => Ok(syntax),
        Err(error) => Err(said_at(alloc, text, error.offset, &error)),
    }
}

/// The table of a type of a text.
fn table_in(alloc: Global, text: &str, name: &str, options: TableOptions) -> Result<Table, Stop> {
    let files = [syntax_of(alloc, text)?];
    match table_of(alloc, &files, None, name, options) {
        Ok(table) => Ok(table),
        Err(error) => {
            let offset = files[0].offset(error.place);
            Err(said_at(alloc, text, offset, &error.explained(&files)))
        }
    }
}

/// What is said of a type of a text, whose additions may not be absent: nothing, if it has a table.
pub fn fault_of(alloc: Global, text: &str, name: &str) -> Result<String, Stop> {
    let _table = table_in(alloc, text, name, Additions::AreRequired.into())?;
    Ok(String::from_str(alloc, "nothing")?)
}

/// The normal form of a type of a text, whose additions may be absent, if it is read as the same type again.
pub fn normal_form(alloc: Global, text: &str, name: &str) -> Result<String, Stop> {
    form_of(alloc, text, name, Additions::MayBeAbsent.into())
}

/// The same, where times and zeros at the end of named bits without a fixed size are kept as they are sent.
pub fn as_sent_form(alloc: Global, text: &str, name: &str) -> Result<String, Stop> {
    let options = TableOptions {
        additions: Additions::MayBeAbsent,
        open_types: OpenTypes::AreRefused,
        named_bits: NamedBits::AreAsSent,
        times: Times::AreAsSent,
    };
    form_of(alloc, text, name, options)
}

/// The normal form of a type of a text that is understood so, if it is read as the same type again.
fn form_of(alloc: Global, text: &str, name: &str, options: TableOptions) -> Result<String, Stop> {
    let table = table_in(alloc, text, name, options)?;
    let text = print_type(alloc, &table.types, &table.names, table.place)?;
    check_again(alloc, &table, text.as_str())?;
    Ok(String::from_str(alloc, body(text.as_str()))?)
}

/// The types of a normal form, without what is around them.
fn body(text: &str) -> &str {
    let (before, after) = AROUND;
    let types = text.strip_prefix(before).unwrap_or(text);
    types.strip_suffix(after).unwrap_or(types)
}

/// Refuses a normal form that is not read as its type again: each extends the other, and its text is the same.
fn check_again(alloc: Global, table: &Table, text: &str) -> Result<(), Stop> {
    let name = match body(text).split_once(' ') {
        Some((name, _)) => name,
        None => "",
    };
    let again = table_in(alloc, text, name, Additions::AreRequired.into())?;
    let other = print_type(alloc, &again.types, &again.names, again.place)?;
    if text != other.as_str() {
        return Err(Stop::Said(format!(in alloc; "printed again {other}")?));
    }
    match extension(alloc, table, &again).and(extension(alloc, &again, table)) {
        Ok(()) => Ok(()),
        Err(error) => Err(Stop::Said(format!(in alloc; "read again, {error}")?)),
    }
}

/// The normal form of a type of a text without names.
pub fn unnamed_form(alloc: Global, text: &str, name: &str) -> Result<String, Stop> {
    let table = table_in(alloc, text, name, Additions::MayBeAbsent.into())?;
    let text = print_type(alloc, &table.types, &Names::new(alloc), table.place)?;
    Ok(String::from_str(alloc, body(text.as_str()))?)
}

/// Whether a type of a newer text extends that of an older one, or why not.
pub fn newer_of(alloc: Global, older: &str, newer: &str, name: &str) -> Result<String, Stop> {
    let older = table_in(alloc, older, name, Additions::MayBeAbsent.into())?;
    let newer = table_in(alloc, newer, name, Additions::MayBeAbsent.into())?;
    match extension(alloc, &older, &newer) {
        Ok(()) => Ok(String::from_str(alloc, "extends")?),
        Err(error) => Ok(format!(in alloc; "{error}")?),
    }
}

/// Why a newer type does not extend an older one, if it does not.
fn extension(alloc: Global, older: &Table, newer: &Table) -> Result<(), ExtendingError> {
    check_extends(alloc, &newer.types, newer.place, &older.types, older.place)
}

/// The names of the types of a text, each on a line.
pub fn names_of(alloc: Global, text: &str) -> Result<String, Stop> {
    let files = [syntax_of(alloc, text)?];
    let names = list_types(alloc, &files)?;
    Ok(String::from_str(alloc, names.as_str().trim_end())?)
}
