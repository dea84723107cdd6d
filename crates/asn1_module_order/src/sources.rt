//! The files of modules, and the table of a type.
ghost use Rattle.std.specs.Prelude.{IfErr, IfOk};
ghost use Rattle.asn1_module_order.specs.Errors.{AreOf, IsInFile, IsInText};

use crate::errors::ModuleError;
use asn1_notation_syntax::{Syntax, read_syntax};
use asn1_notation_types::{Problem, Table, TableOptions, table_of};
use std::alloc::Global;

/// A file of modules.
#[derive(Drop)]
pub struct Source {
    /// Its name.
    pub name: String,
    /// Its text.
    pub text: Vec<u8>,
}

/// The syntax trees of the modules of some files.
///
/// # Errors
///
/// The first octet of a text at which something is wrong.
pub fn read_files(alloc: Global, sources: &[Source]) -> Result<Vec<Syntax>, ModuleError>
    ensures files { IfOk result (λ files. AreOf sources.now files.items) }
    ensures text { IfErr result (IsInText sources.now) }
{
    let mut files = Vec::new(alloc);
    for file in 0..sources.len() {
        match read_syntax(alloc, sources[file].text.as_slice()) {
            Ok(syntax) => files.push(syntax)?,
            Err(error) => {
                return Err(ModuleError::Text {
                    file,
                    offset: error.offset,
                    problem: error.to_string(alloc)?,
                });
            }
        }
    }
    Ok(files)
}

/// The table of a type of some modules, by its name, or by that of its module, a dot and its own.
///
/// # Errors
///
/// The first octet of a text at which something is wrong or not supported, or that no module has the type.
pub fn table_named(
    alloc: Global,
    files: &[Syntax],
    name: &str,
    options: TableOptions,
) -> Result<Table, ModuleError>
    ensures { IfErr result (IsInFile files.now) }
{
    let (module, type_name) = match name.split_once('.') {
        Some((module, type_name)) => (Some(module), type_name),
        None => (None, name),
    };
    let error = match table_of(alloc, files, module, type_name, options) {
        Ok(table) => return Ok(table),
        Err(error) => error,
    };
    if error.problem == Problem::OutOfMemory {
        return Err(ModuleError::OutOfMemory);
    }
    let problem = error.explained(files).to_string(alloc)?;
    match files.get(error.file) {
        // The first lexical item of the first file stands for a type that no module has.
        Some(syntax) if error.place > 0 || error.file > 0 => Err(ModuleError::Text {
            file: error.file,
            offset: syntax.offset(error.place),
            problem,
        }),
        _ => Err(ModuleError::NoType { problem }),
    }
}

/// The table of the older version of a type, whose modules follow in a list of all files those of the newer version, of
/// which there are `count`.
///
/// # Errors
///
/// As for `table_named`.
pub fn older_table(
    alloc: Global,
    files: &[Syntax],
    count: usize,
    name: &str,
    options: TableOptions,
) -> Result<Table, ModuleError>
    ensures { IfErr result (IsInFile files.now) }
{
    let count = count.min(files.len());
    match table_named(alloc, &files[count..], name, options) {
        Ok(table) => Ok(table),
        Err(
            ModuleError::Text {
                file,
                offset,
                problem,
            },
        ) => Err(ModuleError::Text {
            file: file + count,
            offset,
            problem,
        }),
        Err(ModuleError::NoType { problem }) => Err(ModuleError::NoType {
            problem: format!(in alloc; "the older modules: {problem}")?,
        }),
        Err(error) => Err(error),
    }
}
