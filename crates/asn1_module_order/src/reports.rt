//! What is said of wrong modules.
use crate::errors::ModuleError;
use crate::sources::Source;
use asn1_notation_syntax::line_and_column;
use asn1_relay_core::write_octets;
use std::io::{self, Write};

/// Writes what is wrong with a module: the file, line and column and the problem, then the line and a mark under the
/// column.
///
/// # Errors
///
/// Those of the writer.
pub fn write_module_error<E: Write>(
    sources: &[Source],
    error: &ModuleError,
    errors: &mut E,
) -> io::Result<()> {
    match error {
        ModuleError::OutOfMemory => write_octets(b"asn1_relay: out of memory\n", errors),
        ModuleError::NoType { problem } | ModuleError::NotExtended { problem } => {
            writeln!(errors, "asn1_relay: {problem}")
        }
        ModuleError::Text {
            file,
            offset,
            problem,
        } => match sources.get(*file) {
            Some(source) => write_text_error(source, *offset, problem.as_str(), errors),
            None => writeln!(errors, "asn1_relay: {problem}"),
        },
    }
}

/// Writes what is wrong at an octet of a file.
fn write_text_error<E: Write>(
    source: &Source,
    offset: usize,
    problem: &str,
    errors: &mut E,
) -> io::Result<()> {
    let text = source.text.as_slice();
    let at = line_and_column(text, offset);
    let name = source.name.as_str();
    writeln!(errors, "{name}:{}:{}: {problem}", at.line, at.column)?;
    let (line, before) = line_at(text, offset.min(text.len()));
    write_octets(line, errors)?;
    write_octets(b"\n", errors)?;
    for octet in before {
        // A tab stays one, and the later octets of a character take no column.
        match *octet {
            b'\t' => write_octets(b"\t", errors)?,
            0x80..=0xBF => {}
            _ => write_octets(b" ", errors)?,
        }
    }
    write_octets(b"^\n", errors)
}

/// The line around an octet of a text, and what of it is before the octet.
fn line_at(text: &[u8], offset: usize) -> (&[u8], &[u8]) {
    if offset > text.len() {
        return (&[], &[]);
    }
    let (before, after) = text.split_at(offset);
    let begins = match before.iter().rposition(|octet| *octet == b'\n') {
        Some(index) if index < before.len() => index + 1,
        _ => 0,
    };
    let ends = match after
        .iter()
        .position(|octet| *octet == b'\n' || *octet == b'\r')
    {
        Some(index) => index,
        None => after.len(),
    };
    let of_line = before.get(begins..).unwrap_or(&[]);
    let line = text
        .get(begins..before.len().saturating_add(ends))
        .unwrap_or(&[]);
    (line, of_line)
}
