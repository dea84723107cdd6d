//! A message passes from hop to hop, each with the older or the newer version of its type.
ghost use Rattle.std.specs.Prelude.{◌≡◌, ◌≢◌, [], IfErr, IfOk, MatchResult, true};
ghost use Rattle.asn1_relay_command.specs.Runs.{ComesAs, DoesRouteAs, IsTurnedBackAs, StopsRouteAs};
ghost use Rattle.asn1_relay_core.specs.Routing.{arrived};
ghost use Rattle.asn1_table_relay.specs.Schemas.{IsNewer, newer_of, older_of};
ghost use Rattle.asn1_module_command.specs.Runs.{HasRouted, PassesIn, StopsPassing, StopsRouting, StopsSending};
ghost use Rattle.asn1_module_command.specs.Runs.{schema_in};
ghost use Rattle.asn1_module_order.specs.Errors.{IsOfVersions};

use crate::errors::{CommandError, Stop};
use crate::hexadecimal::{read_message, write_digits};
use asn1_module_order::{ModuleError, Route, not_extended};
use asn1_notation_types::Table;
use asn1_relay_command::{Fault, read_all, write_all};
use asn1_relay_core::{Codec, Hop};
use asn1_table_relay::{Versions, route_by};
use std::alloc::Global;
use std::io::{Read, Write};

/// Sends a message, the whole input, from hop to hop, where each hop knows the type of one of two tables, with octets
/// as hexadecimal digits if that was requested.
///
/// # Errors
///
/// `Module` if the newer type does not extend the older one (X.680 52), before anything is read.
pub fn send<R: Read, W: Write>(
    alloc: Global,
    older: &Table,
    newer: &Table,
    route: &Route,
    input: &mut R,
    output: &mut W,
) -> Result<(), Stop>
    requires { route.now.hops.items ≢ [] }
    ensures { MatchResult result
        (λ _. HasRouted route.now (schema_in older.now) (schema_in newer.now)
        (R.remaining input.old) (R.remaining input.new) (W.contents output.old) (W.contents output.new))
        (StopsSending route.now (schema_in older.now) (schema_in newer.now)
        (R.remaining input.old) (R.remaining input.new) (W.contents output.old) (W.contents output.new)) }
{
    let versions = match versions_of(alloc, older, newer) {
        Ok(versions) => versions,
        Err(error) => return Err(Stop::Module(error)),
    };
    match send_between(alloc, &versions, route, input, output) {
        Ok(()) => Ok(()),
        Err(error) => Err(Stop::Command(error)),
    }
}

/// The types of two tables, if the newer one extends the older one.
fn versions_of<'a>(
    alloc: Global,
    older: &'a Table,
    newer: &'a Table,
) -> Result<Versions<'a>, ModuleError>
    ensures is_newer { IfOk result IsNewer }
    ensures older { IfOk result (λ v. older_of v 128 ≡ schema_in older.now) }
    ensures newer { IfOk result (λ v. newer_of v 128 ≡ schema_in newer.now) }
    ensures refused { IfErr result IsOfVersions }
{
    match Versions::new(alloc, &older.types, older.place, &newer.types, newer.place) {
        Ok(versions) => Ok(versions),
        Err(error) => Err(not_extended(alloc, older, newer, error)),
    }
}

/// Sends a message, the whole input, from hop to hop, with octets as hexadecimal digits if that was requested.
fn send_between<R: Read, W: Write>(
    alloc: Global,
    versions: &Versions<'_>,
    route: &Route,
    input: &mut R,
    output: &mut W,
) -> Result<(), CommandError>
    requires some { route.now.hops.items ≢ [] }
    requires newer { IsNewer versions.now }
    ensures { MatchResult result
        (λ _. HasRouted route.now (older_of versions.now 128) (newer_of versions.now 128)
        (R.remaining input.old) (R.remaining input.new) (W.contents output.old) (W.contents output.new))
        (StopsRouting route.now (older_of versions.now 128) (newer_of versions.now 128)
        (R.remaining input.old) (R.remaining input.new) (W.contents output.old) (W.contents output.new)) }
{
    let hops = route.hops.as_slice();
    if route.is_hexadecimal {
        return send_digits(alloc, versions, route.from, hops, input, output);
    }
    match send_octets(alloc, versions, route.from, hops, input, output) {
        Ok(()) => Ok(()),
        Err(fault) => Err(CommandError::Fault(fault)),
    }
}

/// Sends a message of hexadecimal digits, and writes what arrives as such.
fn send_digits<R: Read, W: Write>(
    alloc: Global,
    versions: &Versions<'_>,
    from: Codec,
    hops: &[Hop],
    input: &mut R,
    output: &mut W,
) -> Result<(), CommandError>
    requires some { hops.now ≢ [] }
    requires newer { IsNewer versions.now }
    ensures { MatchResult result
        (λ _. PassesIn true (older_of versions.now 128) (newer_of versions.now 128) from hops.now
        (R.remaining input.old) (R.remaining input.new) (W.contents output.old) (W.contents output.new))
        (StopsPassing true (older_of versions.now 128) (newer_of versions.now 128) from hops.now
        (R.remaining input.old) (R.remaining input.new) (W.contents output.old) (W.contents output.new)) }
{
    let message = read_message(alloc, true, input)?;
    let answer = sent(alloc, versions, from, hops, message.as_slice())?;
    write_digits(alloc, answer.as_slice(), output)
}

/// Sends a message of octets. Nothing is written before it has arrived.
fn send_octets<R: Read, W: Write>(
    alloc: Global,
    versions: &Versions<'_>,
    from: Codec,
    hops: &[Hop],
    input: &mut R,
    output: &mut W,
) -> Result<(), Fault>
    requires some { hops.now ≢ [] }
    requires newer { IsNewer versions.now }
    ensures { MatchResult result
        (λ _. DoesRouteAs (older_of versions.now 128) (newer_of versions.now 128) from hops.now
        (R.remaining input.old) (R.remaining input.new) (W.contents output.old) (W.contents output.new))
        (StopsRouteAs (older_of versions.now 128) (newer_of versions.now 128) from hops.now
        (R.remaining input.old) (R.remaining input.new) (W.contents output.old) (W.contents output.new)) }
{
    let message = read_all(alloc, input)?;
    let answer = sent(alloc, versions, from, hops, message.as_slice())?;
    write_all(answer.as_slice(), output)
}

/// What arrives of a message.
fn sent(
    alloc: Global,
    versions: &Versions<'_>,
    from: Codec,
    hops: &[Hop],
    message: &[u8],
) -> Result<Vec<u8>, Fault>
    requires some { hops.now ≢ [] }
    requires newer { IsNewer versions.now }
    ensures { MatchResult result
        (λ v. ComesAs (older_of versions.now 128) (newer_of versions.now 128) from hops.now message.now
        (arrived v.items))
        (IsTurnedBackAs (older_of versions.now 128) (newer_of versions.now 128) from hops.now message.now) }
{
    let octets = route_by(alloc, versions, hops, from, message)?;
    Ok(octets)
}
