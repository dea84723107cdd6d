//! Helpers of the tests.
use asn1_module_command::obey;
use asn1_module_order::{Source, read_order};
use std::alloc::Global;

/// A module whose type `Awareness` the tests translate.
pub const VEHICLE: &str = "Vehicle DEFINITIONS AUTOMATIC TAGS ::= BEGIN \
    Awareness ::= SEQUENCE { station INTEGER (0..4294967295), \
    kind ENUMERATED { unknown, car, truck, bus, ..., tram }, position Position, motion Motion OPTIONAL, \
    lights BIT STRING { low(0), high(1), left(2), right(3) } (SIZE (4)), \
    path SEQUENCE (SIZE (0..20)) OF Position, ..., note VisibleString (SIZE (0..32)) OPTIONAL } \
    Position ::= SEQUENCE { latitude Microdegrees (-90000000..90000000), \
    longitude Microdegrees (-180000000..180000000), \
    altitude INTEGER { unknown(8191) } (-1000..8191) DEFAULT unknown } \
    Microdegrees ::= INTEGER \
    Motion ::= SEQUENCE { speed INTEGER (0..16383), heading INTEGER (0..3599), \
    turning CHOICE { straight NULL, rate INTEGER (-32767..32767) } } \
    END";

/// A module of a small type.
pub const SMALL: &str = "M DEFINITIONS ::= BEGIN Small ::= INTEGER (-5..5) END";

/// What the command did.
#[derive(Drop)]
struct Outcome {
    status: u8,
    output: Vec<u8>,
    errors: Vec<u8>,
}

/// A file of modules.
fn source(alloc: Global, name: &str, module: &str) -> Option<Source> {
    let mut text = Vec::new(alloc);
    text.extend_from_slice(module.as_bytes()).ok()?;
    let name = String::from_str(alloc, name).ok()?;
    Some(Source { name, text })
}

/// What the command does with these files of modules, each a name and a text, if the words are understood.
fn run(alloc: Global, words: &[&str], files: &[(&str, &str)], input: &[u8]) -> Option<Outcome> {
    let order = read_order(alloc, words).ok()?;
    let mut sources = Vec::new(alloc);
    for (name, module) in files {
        sources.push(source(alloc, name, module)?).ok()?;
    }
    let (mut output, mut errors) = (Vec::new(alloc), Vec::new(alloc));
    let mut input = input;
    let status = obey(
        alloc,
        &order,
        sources.as_slice(),
        &mut input,
        &mut output,
        &mut errors,
    );
    Some(Outcome {
        status,
        output,
        errors,
    })
}

/// Words, the module, the input, and what is written for it.
pub type Row = (
    &'static [&'static str],
    &'static str,
    &'static [u8],
    &'static [u8],
);

/// Whether the input of a row is translated, and nothing is said of errors.
fn is_translated(alloc: Global, row: &Row) -> bool {
    let (words, module, input, expected) = *row;
    match run(alloc, words, &[("m.asn", module)], input) {
        Some(found) => {
            found.status == 0 && found.output.as_slice() == expected && found.errors.is_empty()
        }
        None => false,
    }
}

/// The index of the first row whose input is not translated.
pub fn first_wrong(alloc: Global, rows: &[Row]) -> Option<usize> {
    for index in 0..rows.len() {
        if !is_translated(alloc, &rows[index]) {
            return Some(index);
        }
    }
    None
}

/// Whether the command fails with this output and this text of errors.
pub fn is_refused(
    alloc: Global,
    words: &[&str],
    module: &str,
    input: &[u8],
    written: &[u8],
    said: &str,
) -> bool {
    match run(alloc, words, &[("m.asn", module)], input) {
        Some(found) => {
            found.status == 1
                && found.output.as_slice() == written
                && found.errors.as_slice() == said.as_bytes()
        }
        None => false,
    }
}

/// Words, the module with the newer version, that with the older one, the input, what is written, and the error.
pub type Routed = (
    &'static [&'static str],
    &'static str,
    &'static str,
    &'static [u8],
    &'static [u8],
    &'static str,
);

/// Whether the message of a row arrives as it says, or fails with its error.
fn is_routed(alloc: Global, row: &Routed) -> bool {
    let (words, newer, older, input, written, said) = *row;
    match run(
        alloc,
        words,
        &[("new.asn", newer), ("old.asn", older)],
        input,
    ) {
        Some(found) => {
            (found.status == 0) == said.is_empty()
                && found.output.as_slice() == written
                && found.errors.as_slice() == said.as_bytes()
        }
        None => false,
    }
}

/// The index of the first row that is not so.
pub fn first_astray(alloc: Global, rows: &[Routed]) -> Option<usize> {
    for index in 0..rows.len() {
        if !is_routed(alloc, &rows[index]) {
            return Some(index);
        }
    }
    None
}
