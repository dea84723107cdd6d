//! Claims, as they hold.
use crate::steps::built;
use crate::values::{encoded, read, text_of, written};
use crate::words::event_of;
use asn1_notation_types::Table;
use asn1_table_building::build;
use asn1_table_json_writing::Style;
use asn1_table_tape::Event;
use std::alloc::{AllocError, Global};

/// ` OUTCOME <- TEXT`: what is read from a text. ` OCTETS -> TEXT`: what is written of octets. ` OCTETS = TEXT`: both.
pub fn text_claim(alloc: Global, table: &Table, claim: &str) -> Result<String, AllocError> {
    if let Some((_outcome, text)) = claim.split_once(" <-") {
        let outcome = read(alloc, table, text)?;
        return format!(in alloc; "{outcome} <-{text}");
    }
    if let Some((octets, text)) = claim.split_once(" ->") {
        let text = laid_out(alloc, table, octets, text)?;
        return format!(in alloc; "{octets} ->{text}");
    }
    match claim.split_once(" =") {
        None => String::from_str(alloc, " no claim"),
        Some((octets, text)) => {
            let outcome = read(alloc, table, text)?;
            let text = laid_out(alloc, table, octets, text)?;
            format!(in alloc; "{outcome} ={text}")
        }
    }
}

/// The text that is written of octets, after a space, or on lines of its own if a text is.
fn laid_out(alloc: Global, table: &Table, octets: &str, text: &str) -> Result<String, AllocError> {
    if text.starts_with('\n') {
        let text = written(alloc, table, octets, Style::Pretty)?;
        return format!(in alloc; "\n{text}");
    }
    let text = written(alloc, table, octets, Style::Compact)?;
    format!(in alloc; " {text}")
}

/// ` STEPS -> OUTCOME`: what a builder makes of steps.
pub fn steps_claim(alloc: Global, table: &Table, claim: &str) -> Result<String, AllocError> {
    let Some((steps, _outcome)) = claim.split_once(" ->") else {
        return String::from_str(alloc, " no claim");
    };
    let outcome = built(alloc, table, steps)?;
    format!(in alloc; "{steps} ->{outcome}")
}

/// ` EVENTS -> OUTCOME; TEXT`: what `build` makes of events, and the text that is written of them.
pub fn events_claim(alloc: Global, table: &Table, claim: &str) -> Result<String, AllocError> {
    let Some((words, _outcome)) = claim.split_once(" ->") else {
        return String::from_str(alloc, " no claim");
    };
    let Some(events) = events_of(alloc, table, words)? else {
        return String::from_str(alloc, " no such event");
    };
    let outcome = rebuilt(alloc, table, events.as_slice())?;
    let text = text_of(alloc, table, events.as_slice(), Style::Compact)?;
    format!(in alloc; "{words} ->{outcome}; {text}")
}

/// The events of a tape, in words that are separated by semicolons.
fn events_of(alloc: Global, table: &Table, words: &str) -> Result<Option<Vec<Event>>, AllocError> {
    let mut events = Vec::new(alloc);
    for word in words.split(';') {
        let word = word.trim();
        if !word.is_empty() {
            let Some(event) = event_of(alloc, table.place, word)? else {
                return Ok(None);
            };
            events.push(event)?;
        }
    }
    Ok(Some(events))
}

/// What `build` makes of events.
fn rebuilt(alloc: Global, table: &Table, events: &[Event]) -> Result<String, AllocError> {
    match build(alloc, &table.types, table.place, events) {
        Ok(tape) => encoded(alloc, table, tape.as_slice()),
        Err(error) => format!(in alloc; " {error:?}"),
    }
}
