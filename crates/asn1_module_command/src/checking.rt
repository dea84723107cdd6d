//! Whether a message is canonical.
ghost use Rattle.std.specs.Prelude.{◌≡◌, MatchResult, Some, false};
ghost use Rattle.asn1_module_command.specs.Checks.{HasChecked, IsCanonical, IsNotCanonical, IsSaid, StopsChecking};
ghost use Rattle.asn1_module_command.specs.Checks.{StopsSaying, difference_in};
ghost use Rattle.asn1_module_command.specs.Runs.{schema_in};

use crate::errors::CommandError;
use crate::hexadecimal::read_message;
use crate::values::Typed;
use asn1_module_order::Check;
use asn1_notation_types::Table;
use asn1_relay_command::{translate_octets, write_all};
use asn1_relay_core::Codec;
use asn1_table_locating::{Located, first_difference};
use asn1_table_relay::TableType;
use std::alloc::Global;
use std::io::{Read, Write};

/// Says that a message of the type of a table, the whole input, is canonical.
///
/// # Errors
///
/// Those of `check_canonical`, and of reading and writing.
pub fn check_message<R: Read, W: Write>(
    alloc: Global,
    table: &Table,
    check: Check,
    input: &mut R,
    output: &mut W,
) -> Result<(), CommandError>
    ensures { MatchResult result
        (λ _. HasChecked check (schema_in table.now)
        (R.remaining input.old) (R.remaining input.new) (W.contents output.old) (W.contents output.new))
        (StopsChecking check (schema_in table.now)
        (R.remaining input.old) (R.remaining input.new) (W.contents output.old) (W.contents output.new)) }
{
    let typed = Typed { alloc, table };
    let message = read_message(alloc, check.is_hexadecimal, input)?;
    say_canonical(typed, check.rules, message.as_slice(), output)
}

/// Says that a message is canonical.
fn say_canonical<W: Write>(
    typed: Typed<'_>,
    rules: Codec,
    message: &[u8],
    output: &mut W,
) -> Result<(), CommandError>
    ensures { MatchResult result
        (λ _. IsSaid (schema_in typed.entry.table.now) rules message.now
        (W.contents output.old) (W.contents output.new))
        (StopsSaying (schema_in typed.entry.table.now) rules message.now
        (W.contents output.old) (W.contents output.new)) }
{
    check_canonical(typed, rules, message)?;
    write_all(b"canonical\n", output)?;
    Ok(())
}

/// The rules that accept of these only what encoders write, but for the freedoms that strict readers have.
fn strict_rules(rules: Codec) -> Codec {
    match rules {
        Codec::Uper => Codec::UperStrict,
        Codec::Aper => Codec::AperStrict,
        Codec::Oer => Codec::Coer,
        strict => strict,
    }
}

/// Checks that a message is the canonical encoding of a value of the type: the one that it becomes in its own rules.
///
/// # Errors
///
/// `Located` if it is no encoding; `NotCanonical` or `NotStrict` with the first octet at which it differs from the
/// canonical encoding of its value, which has no unknown additions; `OutOfMemory`.
fn check_canonical(typed: Typed<'_>, rules: Codec, message: &[u8]) -> Result<(), CommandError>
    ensures { MatchResult result
        (λ _. IsCanonical (schema_in typed.entry.table.now) rules message.now)
        (IsNotCanonical (schema_in typed.entry.table.now) rules message.now) }
{
    let table = typed.table;
    let message_type = TableType {
        types: &table.types,
        place: table.place,
    };
    let canonical = match translate_octets(typed.alloc, &message_type, rules, rules, message) {
        Ok(octets) => octets,
        Err(fault) => return Err(typed.explained(rules, message, fault)),
    };
    match first_difference(message, canonical.as_slice()) {
        None => Ok(()),
        Some(octet) => Err(typed.differing(rules, message, octet)),
    }
}

impl Typed<'_> {
    /// The error of an encoding that differs from the canonical one from this octet on.
    fn differing(self, rules: Codec, message: &[u8], octet: usize) -> CommandError
        ensures { difference_in result ≡ Some octet }
    {
        match self.locate(strict_rules(rules), message) {
            Ok(Located::Refused(refused)) => CommandError::NotStrict(octet, refused),
            _ => CommandError::NotCanonical(octet),
        }
    }
}
