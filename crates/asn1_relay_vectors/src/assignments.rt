//! The types of lines, as type assignments give them.
use crate::of_table::OfTable;
use asn1_notation_syntax::{Position, Syntax, line_and_column, read_syntax};
use asn1_notation_types::{Additions, table_of};
use asn1_relay_vectors_lines::line::{LineError, Verdict};
use std::alloc::{AllocError, Global};

/// The beginning of the module.
const HEADING: &str = "Vectors DEFINITIONS AUTOMATIC TAGS ::= BEGIN";

/// Type assignments (X.680 16), which are those of a module.
#[derive(Drop)]
pub struct Assignments {
    alloc: Global,
    /// What is written between the beginning and the end of the module.
    text: String,
    /// The module as it was read, if no assignment was added since.
    files: Vec<Syntax>,
}

impl Assignments {
    /// No assignments.
    pub fn new(alloc: Global) -> Assignments {
        Assignments {
            alloc,
            text: String::new(alloc),
            files: Vec::new(alloc),
        }
    }

    /// Adds a line of an assignment.
    pub fn add(&mut self, line: &str) -> Result<(), AllocError> {
        self.files.clear();
        self.text.push_str(line)?;
        self.text.push('\n')
    }

    /// Reads the module, unless it was read before.
    ///
    /// # Errors
    ///
    /// `Otherwise` if the assignments are wrong, and `Memory` if memory runs out.
    pub fn read(&mut self) -> Verdict {
        if !self.files.is_empty() {
            return Ok(());
        }
        let text = format!(in self.alloc; "{HEADING} {}END", self.text)?;
        self.read_file(text.as_str())
    }

    /// Reads a text of modules.
    fn read_file(&mut self, text: &str) -> Verdict {
        match read_syntax(self.alloc, text.as_bytes()) {
            Ok(syntax) => Ok(self.files.push(syntax).map_err(AllocError::from)?),
            Err(error) => {
                let Position { line, column } = line_and_column(text.as_bytes(), error.offset);
                let found = format!(in self.alloc; "types, line {line}, column {column}: {error}")?;
                Err(LineError::Otherwise(found))
            }
        }
    }

    /// The table of the type with this name, which in ASN.1 begins with a capital letter, under constraints as they are
    /// written, if there are any.
    ///
    /// # Errors
    ///
    /// `NoType` if there is no such type, `Otherwise` if it has no table, and `Memory` if memory runs out.
    pub fn table(&mut self, kind: &str, constraints: &str) -> Result<OfTable, LineError> {
        let name = with_capital(self.alloc, kind)?;
        if !self.has_type(name.as_str()) {
            return Err(LineError::NoType);
        }
        if constraints.is_empty() {
            return self.table_in("Vectors", name.as_str());
        }
        let text = format!(in self.alloc;
            "Under DEFINITIONS ::= BEGIN Under ::= Vectors.{name}{constraints} END"
        )?;
        self.read_file(text.as_str())?;
        let table = self.table_in("Under", "Under");
        self.files.pop();
        table
    }

    /// Whether there is a type with this name.
    fn has_type(&self, name: &str) -> bool {
        self.files.iter().any(|file| has_name(file, name))
    }

    /// The table of a type of a module.
    fn table_in(&self, module: &str, name: &str) -> Result<OfTable, LineError> {
        let files = self.files.as_slice();
        match table_of(
            self.alloc,
            files,
            Some(module),
            name,
            Additions::AreRequired.into(),
        ) {
            Ok(table) => Ok(OfTable(table)),
            Err(error) => {
                let error = error.explained(files);
                let found = format!(in self.alloc; "its type has no table: {error}")?;
                Err(LineError::Otherwise(found))
            }
        }
    }
}

/// Whether a text has an assignment of this name.
fn has_name(file: &Syntax, name: &str) -> bool {
    file.modules.iter().any(|module| {
        module
            .assignments
            .iter()
            .any(|assignment| assignment.name.text.as_str() == name)
    })
}

/// A name with a capital letter.
fn with_capital(alloc: Global, kind: &str) -> Result<String, LineError> {
    let mut name = String::new(alloc);
    for (place, letter) in kind.chars().enumerate() {
        name.push(if place == 0 {
            letter.to_ascii_uppercase()
        } else {
            letter
        })?;
    }
    Ok(name)
}
