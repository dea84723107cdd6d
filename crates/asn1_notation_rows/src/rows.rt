//! Rows: what is asked for, modules, and what is to come.
use crate::answers::{Stop, as_sent_form, fault_of, names_of, newer_of, normal_form, unnamed_form};
use std::alloc::{AllocError, Global};

/// The line between two texts of a row.
const BETWEEN: &str = "=>";

/// The type of which a row asks that names none.
const TYPE: &str = "T";

/// A row.
#[derive(Drop)]
pub struct Row {
    /// What is asked for, and an answer of one line.
    pub asked: String,
    first: String,
    second: String,
    /// Whether the line between the texts was there.
    has_second: bool,
}

impl Row {
    /// A row without modules.
    pub fn new(alloc: Global, asked: &str) -> Result<Row, AllocError> {
        Ok(Row {
            asked: String::from_str(alloc, asked)?,
            first: String::new(alloc),
            second: String::new(alloc),
            has_second: false,
        })
    }

    /// Adds a line.
    pub fn add(&mut self, line: &str) -> Result<(), AllocError> {
        if !self.has_second && line == BETWEEN {
            self.has_second = true;
            return Ok(());
        }
        if self.has_second {
            add_line(&mut self.second, line)
        } else {
            add_line(&mut self.first, line)
        }
    }

    /// The modules, or the older ones.
    pub fn modules(&self) -> &str {
        self.first.as_str().trim_end()
    }

    /// What is asked for, and the answer of one line after it.
    fn question(&self) -> (&str, &str) {
        let asked = self.asked.as_str();
        match asked.split_once(' ') {
            Some((word, _)) if word.contains(':') => ("", asked),
            Some((word, rest)) => (word, rest),
            None => (asked, ""),
        }
    }

    /// What is to come.
    pub fn wanted(&self) -> &str {
        match self.question() {
            (_, "") => self.second.as_str().trim_end(),
            (_, answer) => answer,
        }
    }

    /// What comes, also if it is what is said of wrong modules.
    pub fn answer(&self, alloc: Global) -> Result<String, AllocError> {
        match self.asked_of(alloc) {
            Ok(answer) | Err(Stop::Said(answer)) => Ok(answer),
            Err(Stop::OutOfMemory) => Err(AllocError),
        }
    }

    /// What is asked for.
    fn asked_of(&self, alloc: Global) -> Result<String, Stop> {
        let modules = self.modules();
        match self.question() {
            ("", _) => fault_of(alloc, modules, TYPE),
            ("newer", _) => newer_of(alloc, modules, self.second.as_str().trim_end(), TYPE),
            ("names", _) => names_of(alloc, modules),
            ("unnamed", _) => unnamed_form(alloc, modules, TYPE),
            ("as-sent", _) => as_sent_form(alloc, modules, TYPE),
            (name, "") => normal_form(alloc, modules, name),
            (name, _) => fault_of(alloc, modules, name),
        }
    }
}

/// Adds a line to a text.
fn add_line(text: &mut String, line: &str) -> Result<(), AllocError> {
    text.push_str(line)?;
    text.push('\n')
}
