//! Judges vectors: lines on standard input that say which value the octets of a type encode, by six sets of ASN.1
//! encoding rules, and how streams of them are translated. Each is judged over the Rust type of that name, over the
//! table of the ASN.1 type of that name, which an earlier line assigns, or over both. It reports each wrong line, the
//! number of lines, and what was tried with truncated octets. Its status is 1 if a line is wrong. docs/VECTORS.md
//! describes the form of a line.
#![tactic(auto)]

mod assignments;
mod foretold;
mod named;
mod of;
mod of_table;
mod pairs;
mod relays;
mod table_pairs;
mod under;

use crate::assignments::Assignments;
use crate::named::judge_named;
use crate::of_table::judge_table;
use crate::pairs::judge_pair;
use crate::table_pairs::judge_table_pair;
use asn1_relay_vectors_judging::cuts::Inputs;
use asn1_relay_vectors_judging::routes::read_routes;
use asn1_relay_vectors_lines::line::{Line, LineError, Verdict};
use std::alloc::Global;
use std::io::{self, BufRead, BufReader};
use std::process::ExitCode;

/// What was judged over some types.
#[derive(Drop)]
struct Judge {
    /// What the types are.
    types: &'static str,
    /// The number of lines.
    lines: u64,
    inputs: Inputs,
}

impl Judge {
    /// Nothing.
    fn new(alloc: Global, types: &'static str) -> Judge {
        Judge {
            types,
            lines: 0,
            inputs: Inputs::new(alloc),
        }
    }

    /// Counts a line that was judged, unless there is no type of its name, and returns whether there is one.
    fn count(&mut self, verdict: Verdict) -> Result<bool, LineError> {
        match verdict {
            Ok(()) => {
                self.lines = self.lines.saturating_add(1);
                Ok(true)
            }
            Err(LineError::NoType) => Ok(false),
            Err(error) => {
                let found = format!(in self.inputs.alloc(); "over {}: {error}", self.types)?;
                Err(LineError::Otherwise(found))
            }
        }
    }

    /// Prints the counts.
    fn print(&self, rt: &impl Print) -> io::Result<()> {
        let tries = self.inputs.tries();
        println!(rt;
            "over {}: {} lines, {} inputs, {} cuts, {} answers",
            self.types, self.lines, tries.inputs, tries.cuts, tries.answers
        )
    }
}

/// The lines that were read.
#[derive(Drop)]
struct Vectors {
    alloc: Global,
    types: Assignments,
    rust: Judge,
    tables: Judge,
    lines: u64,
    wrong: u64,
}

fn main(rt: HostRuntime) -> io::Result<ExitCode> {
    let alloc = rt.alloc();
    let mut vectors = Vectors::new(alloc);
    let input = BufReader::new(alloc, rt.reader())?;
    for text in input.lines(alloc) {
        let text = text?;
        vectors.take_line(&rt, text.as_str())?;
    }
    let is_right = vectors.print(&rt)?;
    Ok(ExitCode::from(if is_right { 0 } else { 1 }))
}

impl Vectors {
    /// No lines.
    fn new(alloc: Global) -> Vectors {
        Vectors {
            alloc,
            types: Assignments::new(alloc),
            rust: Judge::new(alloc, "Rust types"),
            tables: Judge::new(alloc, "tables"),
            lines: 0,
            wrong: 0,
        }
    }

    /// Takes a line, and prints it if it is wrong.
    fn take_line(&mut self, rt: &impl Print, text: &str) -> io::Result<()> {
        let said = match text.split_once('#') {
            Some((said, _remark)) => said.trim_end(),
            None => text.trim_end(),
        };
        match self.take(said) {
            Ok(()) => Ok(()),
            Err(error) => {
                self.wrong = self.wrong.saturating_add(1);
                println!(rt; "{said}: {error}")
            }
        }
    }

    /// Prints an input in which the Rust type and the table do not find the same, if there is one, and the counts.
    /// Returns whether all lines are right.
    fn print(&self, rt: &impl Print) -> io::Result<bool> {
        let unlike = self.rust.inputs.first_unlike(&self.tables.inputs);
        if let Some(name) = unlike {
            println!(rt; "{name}: the Rust type and the table are not alike")?;
        }
        println!(rt; "{} lines, {} wrong", self.lines, self.wrong)?;
        self.rust.print(rt)?;
        self.tables.print(rt)?;
        Ok(self.wrong == 0 && unlike.is_none())
    }

    /// Takes a line without its remark. A line of a type assignment begins with a capital letter, or with a space.
    fn take(&mut self, said: &str) -> Verdict {
        match said.chars().next() {
            None => Ok(()),
            Some(first) if first == ' ' || first.is_ascii_uppercase() => Ok(self.types.add(said)?),
            Some(_) => {
                self.lines = self.lines.saturating_add(1);
                self.types.read()?;
                self.judge(said)
            }
        }
    }

    /// Judges a line that says something, over each type of its name.
    fn judge(&mut self, said: &str) -> Verdict {
        let (rust, table) = match read_routes(self.alloc, said)? {
            Some((pair, claim)) => (
                judge_pair(&mut self.rust.inputs, pair, &claim),
                judge_table_pair(&mut self.tables.inputs, &mut self.types, pair, &claim),
            ),
            None => {
                let line = Line::read(self.alloc, said)?;
                (
                    judge_named(&mut self.rust.inputs, &line),
                    judge_table(&mut self.tables.inputs, &mut self.types, &line),
                )
            }
        };
        let is_rust = self.rust.count(rust)?;
        let is_table = self.tables.count(table)?;
        if is_rust || is_table {
            Ok(())
        } else {
            Err(LineError::NoType)
        }
    }
}
