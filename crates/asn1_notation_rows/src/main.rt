//! Judges what becomes of modules in the notation of X.680, which are on standard input. A line that begins with `== `
//! begins a row, and has what is asked for; the lines after it, up to the next one, are modules:
//!
//! - `== LINE:COLUMN TEXT`: the modules are wrong. What is said of their type T, and where. With the name of another
//!   type before it, what is said of that.
//! - `== NAME`: after a line `=>`, the normal form of the type with this name: its text, which is read as the same type
//!   again. `== unnamed` is that of the type T without the names of types, parts and items, `== as-sent` that in which
//!   times, and zeros at the end of named bits without a fixed size, are kept as they are sent.
//! - `== newer ANSWER`: after a line `=>`, newer modules. Whether their type T `extends` that of the first ones, or why
//!   it does not.
//! - `== names`: after a line `=>`, the names of all types of the modules.
//!
//! Lines that begin with `##` are headings. It prints each row of which something else comes, and how many there are.
//! Its status is 1 if there is one.
#![tactic(auto)]

mod answers;
mod rows;

use crate::rows::Row;
use std::alloc::Global;
use std::io::{self, BufRead, BufReader};
use std::process::ExitCode;

/// What begins the line before a module.
const MARK: &str = "== ";

/// How many rows were judged, and of how many something else came.
#[derive(Clone, Copy)]
struct Count {
    rows: u64,
    wrong: u64,
}

fn main(rt: HostRuntime) -> io::Result<ExitCode> {
    let alloc = rt.alloc();
    let mut count = Count { rows: 0, wrong: 0 };
    let mut row = Row::new(alloc, "")?;
    let input = BufReader::new(alloc, rt.reader())?;
    for line in input.lines(alloc) {
        let line = line?;
        if let Some(asked) = line.as_str().strip_prefix(MARK) {
            judge(&rt, alloc, &row, &mut count)?;
            row = Row::new(alloc, asked)?;
        } else if !line.as_str().starts_with("##") {
            row.add(line.as_str())?;
        }
    }
    judge(&rt, alloc, &row, &mut count)?;
    println!(rt; "{} rows, {} wrong", count.rows, count.wrong)?;
    Ok(ExitCode::from(if count.wrong == 0 { 0 } else { 1 }))
}

/// Judges a row, if one has begun.
fn judge(rt: &impl Print, alloc: Global, row: &Row, count: &mut Count) -> io::Result<()> {
    if row.asked.is_empty() {
        return Ok(());
    }
    count.rows = count.rows.saturating_add(1);
    let found = row.answer(alloc)?;
    let wanted = row.wanted();
    if found.as_str() == wanted {
        return Ok(());
    }
    count.wrong = count.wrong.saturating_add(1);
    println!(rt; "{}", row.modules())?;
    println!(rt; "wanted {wanted}")?;
    println!(rt; "found  {found}\n")
}
