//! Messages of a type of a table are translated from one form to another.
ghost use Rattle.std.specs.Prelude.{◌≤◌, MatchResult, OnOk, true};
ghost use Rattle.asn1_module_order.specs.Orders.{IsBounded};
ghost use Rattle.asn1_module_command.specs.Digits.{StopsDigits, StopsFromReading, StopsOnOctets, TakesDigits};
ghost use Rattle.asn1_module_command.specs.Digits.{WritesDigits};
ghost use Rattle.asn1_module_command.specs.Runs.{Does, DoesIn, Encodes, HasTranslated, LeavesDigits, StopsBy, StopsIn};
ghost use Rattle.asn1_module_command.specs.Runs.{StopsLeaving, StopsTranslating, WritesEncoding, schema_in};

use crate::errors::CommandError;
use crate::hexadecimal::{read_message, write_digits};
use crate::joined::translate_joined;
use crate::values::Typed;
use asn1_module_order::{Extent, Form, Translation};
use asn1_notation_types::Table;
use asn1_relay_command::{Fault, read_all, translate_message, translate_stream, write_all};
use asn1_relay_core::Codec;
use asn1_table_relay::TableType;
use std::alloc::Global;
use std::io::{Read, Write};

/// Translates what was requested, with octets as hexadecimal digits if that was.
pub fn translate<R: Read, W: Write>(
    alloc: Global,
    table: &Table,
    translation: Translation,
    input: &mut R,
    output: &mut W,
) -> Result<(), CommandError>
    requires { IsBounded translation.extent }
    ensures { MatchResult result
        (λ _. HasTranslated translation (schema_in table.now)
        (R.remaining input.old) (R.remaining input.new) (W.contents output.old) (W.contents output.new))
        (StopsTranslating translation (schema_in table.now)
        (R.remaining input.old) (R.remaining input.new) (W.contents output.old) (W.contents output.new)) }
{
    let typed = Typed { alloc, table };
    if !translation.is_hexadecimal {
        return translate_input(typed, translation, input, output);
    }
    match translation.from {
        Form::Json => translate_to_digits(typed, translation, input, output),
        Form::Rules(_) => translate_digits(typed, translation, input, output),
    }
}

/// Translates what was requested of octets that are read and written as hexadecimal digits.
fn translate_digits<R: Read, W: Write>(
    typed: Typed<'_>,
    translation: Translation,
    input: &mut R,
    output: &mut W,
) -> Result<(), CommandError>
    requires { IsBounded translation.extent }
    ensures { MatchResult result
        (λ _. TakesDigits
        (LeavesDigits translation.extent (schema_in typed.entry.table.now) translation.to translation.from)
        (R.remaining input.old) (R.remaining input.new) (W.contents output.old) (W.contents output.new))
        (StopsFromReading true (StopsOnOctets
        (StopsLeaving translation.extent (schema_in typed.entry.table.now) translation.to translation.from))
        (R.remaining input.old) (R.remaining input.new) (W.contents output.old) (W.contents output.new)) }
{
    let octets = read_message(typed.alloc, true, input)?;
    translate_to_digits(typed, translation, &mut octets.as_slice(), output)
}

/// Translates what was requested, and writes octets as hexadecimal digits, also those of messages before an error.
fn translate_to_digits<R: Read, W: Write>(
    typed: Typed<'_>,
    translation: Translation,
    input: &mut R,
    output: &mut W,
) -> Result<(), CommandError>
    requires { IsBounded translation.extent }
    ensures { MatchResult result
        (λ _. LeavesDigits translation.extent (schema_in typed.entry.table.now) translation.to translation.from
        (R.remaining input.old) (R.remaining input.new) (W.contents output.old) (W.contents output.new))
        (StopsLeaving translation.extent (schema_in typed.entry.table.now) translation.to translation.from
        (R.remaining input.old) (R.remaining input.new) (W.contents output.old) (W.contents output.new)) }
{
    match translation.to {
        Form::Json => translate_input(typed, translation, input, output),
        Form::Rules(_) => encode_to_digits(typed, translation, input, output),
    }
}

/// Translates to octets, and writes them as hexadecimal digits, also those of messages before an error.
fn encode_to_digits<R: Read, W: Write>(
    typed: Typed<'_>,
    translation: Translation,
    input: &mut R,
    output: &mut W,
) -> Result<(), CommandError>
    requires { IsBounded translation.extent }
    ensures { MatchResult result
        (λ _. WritesDigits
        (DoesIn translation.extent (schema_in typed.entry.table.now) translation.to translation.from)
        (R.remaining input.old) (R.remaining input.new) (W.contents output.old) (W.contents output.new))
        (StopsDigits
        (DoesIn translation.extent (schema_in typed.entry.table.now) translation.to translation.from)
        (StopsIn translation.extent (schema_in typed.entry.table.now) translation.to translation.from)
        (R.remaining input.old) (R.remaining input.new) (W.contents output.old) (W.contents output.new)) }
{
    let mut octets = Vec::new(typed.alloc);
    match translate_input(typed, translation, input, &mut octets) {
        Ok(()) => write_digits(typed.alloc, octets.as_slice(), output),
        Err(error) => {
            if octets.is_empty() {
                return Err(error);
            }
            write_digits(typed.alloc, octets.as_slice(), output)?;
            Err(error)
        }
    }
}

/// Translates what was requested.
fn translate_input<R: Read, W: Write>(
    typed: Typed<'_>,
    translation: Translation,
    input: &mut R,
    output: &mut W,
) -> Result<(), CommandError>
    requires { IsBounded translation.extent }
    ensures { MatchResult result
        (λ _. DoesIn translation.extent (schema_in typed.entry.table.now) translation.to translation.from
        (R.remaining input.old) (R.remaining input.new) (W.contents output.old) (W.contents output.new))
        (StopsIn translation.extent (schema_in typed.entry.table.now) translation.to translation.from
        (R.remaining input.old) (R.remaining input.new) (W.contents output.old) (W.contents output.new)) }
{
    match translation.to {
        Form::Json => write_texts(typed, translation, input, output),
        Form::Rules(to) => match translation.from {
            Form::Rules(from) => recode_all(typed, translation.extent, from, to, input, output),
            Form::Json => encode_all(typed, translation, to, input, output),
        },
    }
}

/// Translates encodings to encodings.
fn recode_all<R: Read, W: Write>(
    typed: Typed<'_>,
    extent: Extent,
    from: Codec,
    to: Codec,
    input: &mut R,
    output: &mut W,
) -> Result<(), CommandError>
    requires { IsBounded extent }
    ensures { MatchResult result
        (λ _. Does extent (schema_in typed.entry.table.now) from to
        (R.remaining input.old) (R.remaining input.new) (W.contents output.old) (W.contents output.new))
        (StopsBy extent (schema_in typed.entry.table.now) from to
        (R.remaining input.old) (R.remaining input.new) (W.contents output.old) (W.contents output.new)) }
{
    match extent {
        Extent::Message => recode_message(typed, from, to, input, output),
        Extent::Stream { limit } => recode_stream(typed, from, to, limit, input, output),
    }
}

/// Translates a stream of encodings.
fn recode_stream<R: Read, W: Write>(
    typed: Typed<'_>,
    from: Codec,
    to: Codec,
    limit: u32,
    input: &mut R,
    output: &mut W,
) -> Result<(), CommandError>
    requires { 1 ≤ limit }
    ensures { MatchResult result
        (λ _. Does (Extent.Stream limit) (schema_in typed.entry.table.now) from to
        (R.remaining input.old) (R.remaining input.new) (W.contents output.old) (W.contents output.new))
        (StopsBy (Extent.Stream limit) (schema_in typed.entry.table.now) from to
        (R.remaining input.old) (R.remaining input.new) (W.contents output.old) (W.contents output.new)) }
{
    let table = typed.table;
    let message_type = TableType {
        types: &table.types,
        place: table.place,
    };
    match translate_stream(typed.alloc, message_type, from, to, limit, input, output) {
        Ok(()) => Ok(()),
        Err(fault) => Err(CommandError::Fault(Fault::from(fault))),
    }
}

/// Translates one encoding, the whole input.
fn recode_message<R: Read, W: Write>(
    typed: Typed<'_>,
    from: Codec,
    to: Codec,
    input: &mut R,
    output: &mut W,
) -> Result<(), CommandError>
    ensures { MatchResult result
        (λ _. Does Extent.Message (schema_in typed.entry.table.now) from to
        (R.remaining input.old) (R.remaining input.new) (W.contents output.old) (W.contents output.new))
        (StopsBy Extent.Message (schema_in typed.entry.table.now) from to
        (R.remaining input.old) (R.remaining input.new) (W.contents output.old) (W.contents output.new)) }
{
    let table = typed.table;
    let message_type = TableType {
        types: &table.types,
        place: table.place,
    };
    let mut message = Vec::new(typed.alloc);
    match translate_message(
        typed.alloc,
        &message_type,
        from,
        to,
        input,
        &mut message,
        output,
    ) {
        Ok(()) => Ok(()),
        Err(fault) => Err(typed.explained(from, message.as_slice(), fault)),
    }
}

/// Translates to JSON.
fn write_texts<R: Read, W: Write>(
    typed: Typed<'_>,
    translation: Translation,
    input: &mut R,
    output: &mut W,
) -> Result<(), CommandError> {
    match translation.extent {
        Extent::Message => write_text(typed, translation, input, output),
        Extent::Stream { limit } => {
            translate_joined(typed, translation, limit as usize, input, output)
        }
    }
}

/// Translates JSON to canonical encodings by these rules.
fn encode_all<R: Read, W: Write>(
    typed: Typed<'_>,
    translation: Translation,
    to: Codec,
    input: &mut R,
    output: &mut W,
) -> Result<(), CommandError>
    ensures { OnOk result (Encodes translation.extent (schema_in typed.entry.table.now) to
        (W.contents output.old) (W.contents output.new)) }
{
    match translation.extent {
        Extent::Message => encode_message(typed, to, input, output),
        Extent::Stream { limit } => {
            translate_joined(typed, translation, limit as usize, input, output)
        }
    }
}

/// Translates one message in JSON, the whole input, to its canonical encoding.
fn encode_message<R: Read, W: Write>(
    typed: Typed<'_>,
    to: Codec,
    input: &mut R,
    output: &mut W,
) -> Result<(), CommandError>
    ensures { OnOk result (WritesEncoding (schema_in typed.entry.table.now) to
        (W.contents output.old) (W.contents output.new)) }
{
    let message = read_all(typed.alloc, input)?;
    let octets = typed.encode_text(to, message.as_slice())?;
    write_all(octets.as_slice(), output)?;
    Ok(())
}

/// Translates one message, the whole input, to JSON. Nothing is written before all of it is translated.
fn write_text<R: Read, W: Write>(
    typed: Typed<'_>,
    translation: Translation,
    input: &mut R,
    output: &mut W,
) -> Result<(), CommandError> {
    let message = read_all(typed.alloc, input)?;
    let tape = typed.read(translation.from, message.as_slice())?;
    let text = typed.write_text(translation.style, tape.as_slice())?;
    write_all(text.as_slice(), output)?;
    Ok(())
}
