//! The command of the program.
ghost use Rattle.std.specs.Prelude.{◌≡◌, ◌≢◌, ◌⊎◌, ◌≤◌, [], IfErr, IfOk, MatchResult, OnOk, map};
ghost use Rattle.std.specs.Io.KnownBytes.{Appends, Keeps};
ghost use Rattle.std.specs.IoError.{error_kind};
ghost use Rattle.clap.specs.Words.{kind_of};
ghost use Rattle.asn1_relay_core.specs.Recoding.{answered};
ghost use Rattle.asn1_relay_core.specs.Ends.{BeginsToAppend};
ghost use Rattle.asn1_relay_command.specs.Lines.{line_of, not_text_line};
ghost use Rattle.asn1_relay_core.specs.Routing.{arrived};
ghost use Rattle.asn1_relay_command.specs.Orders.{CanBeDone, asked_by, task_of};
ghost use Rattle.asn1_relay_command.specs.Runs.{Becomes, BecomesAs, ComesAs, ComesBy, Does, DoesOnce, DoesRoute};
ghost use Rattle.asn1_relay_command.specs.Runs.{DoesStream, DoesStreamAs, HasDone, HasFailed, HasRefused, IsAllRead};
ghost use Rattle.asn1_relay_command.specs.Runs.{IsRefusedAs, IsRefusedBy, IsTurnedBackAs, IsTurnedBackBy, StopsBy};
ghost use Rattle.asn1_relay_command.specs.Runs.{StopsOnceBy, StopsRouteBy, StopsStreamAs, StopsStreamBy};

use crate::fault::Fault;
use crate::messages::{read_all, translate_octets, translate_stream, write_all};
use crate::order::{Kind, Order, Pair, Translation, read_order};
use asn1_relay_core::{Codec, Extends, Hop, RunFault, RustType, route, write_octets};
use asn1_relay_types::{
    self as types, Bag, Group, Nest, New, NewColour, NewDefault, NewRequired, Octets, Old,
    OldColour, OldDefault, Set, Small,
};
use asn1_schema_decode::Decode;
use asn1_schema_encode::Encode;
use asn1_values_bit_strings::BitString;
use asn1_values_integers::Integer;
use asn1_values_strings::VisibleString;
use clap::error::ErrorKind as ParseErrorKind;
use std::alloc::Global;
use std::convert::AsStr;
use std::io::{self, ErrorKind, Read, Write};

/// Runs the program on a command line, whose first word is the program's name, and returns its exit status:
///
/// * 0: everything was read, and the result was written and flushed.
/// * 1: the input could not be read or translated, the result could not be written, or memory ran out, even for
///   reading the command line. One line with the error is written to `errors`.
/// * 2: the command line is not valid. A text is written to `errors`.
pub fn command<S: AsStr, R: Read, W: Write, E: Write>(
    alloc: Global,
    words: &[S],
    input: &mut R,
    output: &mut W,
    errors: &mut E,
) -> u8
    ensures status { result ≤ 2 }
    ensures done { result ≡ 0 → HasDone (asked_by (map S.text words.now))
        (R.remaining input.old) (R.remaining input.new) (W.contents output.old) (W.contents output.new) }
    ensures quiet { result ≡ 0 → Keeps (E.contents errors.old) (E.contents errors.new) }
    ensures failed { result ≡ 1 → HasFailed (asked_by (map S.text words.now))
        (R.remaining input.old) (R.remaining input.new) (W.contents output.old) (W.contents output.new)
        (E.contents errors.old) (E.contents errors.new) }
    ensures bad { result ≡ 2 → HasRefused (asked_by (map S.text words.now))
        (R.remaining input.old) (R.remaining input.new) (W.contents output.old) (W.contents output.new) }
{
    let order = match read_order(alloc, words) {
        Ok(order) => order,
        Err(error) => return refuse(&error, errors),
    };
    match follow(alloc, order, input, output) {
        Ok(()) => 0,
        Err(fault) => report(fault, errors),
    }
}

/// Does what was requested.
fn follow<R: Read, W: Write>(
    alloc: Global,
    order: Order,
    input: &mut R,
    output: &mut W,
) -> Result<(), Fault>
    requires { CanBeDone (task_of order) }
    ensures { MatchResult result
        (λ _. Does (task_of order)
        (R.remaining input.old) (R.remaining input.new) (W.contents output.old) (W.contents output.new))
        (StopsBy (task_of order)
        (R.remaining input.old) (R.remaining input.new) (W.contents output.old) (W.contents output.new)) }
{
    match order {
        Order::Once(translation) => once(alloc, translation, input, output),
        Order::Stream { translation, limit } => {
            stream(alloc, translation, limit, input, output)?;
            Ok(())
        }
        Order::Route { from, pair, hops } => {
            send(alloc, from, pair, hops.as_slice(), input, output)
        }
    }
}

/// Reports that the program's arguments are not available, and returns the exit status: 1 if memory ran out, and 2 if
/// one of them is not text.
pub fn refuse_arguments<E: Write>(error: &io::Error, errors: &mut E) -> u8
    ensures memory { error_kind error.now ≡ ErrorKind.OutOfMemory → (result ≡ 1)
        × BeginsToAppend (E.contents errors.old) (E.contents errors.new) (line_of Fault.OutOfMemory) }
    ensures text { error_kind error.now ≢ ErrorKind.OutOfMemory → (result ≡ 2)
        × BeginsToAppend (E.contents errors.old) (E.contents errors.new) not_text_line }
{
    if error.kind() == ErrorKind::OutOfMemory {
        return report(Fault::OutOfMemory, errors);
    }
    let _ = write_octets("error: an argument is not text\n".as_bytes(), errors);
    2
}

/// Reports what is wrong with a command line, and returns the exit status.
fn refuse<E: Write>(error: &clap::Error, errors: &mut E) -> u8
    ensures memory { kind_of error.now ≡ ParseErrorKind.OutOfMemory → (result ≡ 1)
        × BeginsToAppend (E.contents errors.old) (E.contents errors.new) (line_of Fault.OutOfMemory) }
    ensures mistake { kind_of error.now ≢ ParseErrorKind.OutOfMemory → result ≡ 2 }
{
    if error.kind() == ParseErrorKind::OutOfMemory {
        return report(Fault::OutOfMemory, errors);
    }
    let _ = write!(errors, "{error}");
    2
}

/// Reports an error in one line, and returns the exit status, 1. It ignores a line that cannot be written.
pub fn report<E: Write>(fault: Fault, errors: &mut E) -> u8
    ensures status { result ≡ 1 }
    ensures says { BeginsToAppend (E.contents errors.old) (E.contents errors.new) (line_of fault) }
{
    let _ = fault.write_line(errors);
    1
}

/// Translates one message, the whole input. Nothing is written before all of it is translated.
fn once<R: Read, W: Write>(
    alloc: Global,
    translation: Translation,
    input: &mut R,
    output: &mut W,
) -> Result<(), Fault>
    ensures { MatchResult result
        (λ _. DoesOnce translation
        (R.remaining input.old) (R.remaining input.new) (W.contents output.old) (W.contents output.new))
        (StopsOnceBy translation
        (R.remaining input.old) (R.remaining input.new) (W.contents output.old) (W.contents output.new)) }
{
    let message = read_all(alloc, input)?;
    let answer = translate_all(alloc, translation, message.as_slice())?;
    write_all(answer.as_slice(), output)
}

/// A call with the message type of a `Kind`.
macro_rules! at_kind {
    ($kind:expr, $call:ident::<T $(, $other:ty)*>($($argument:expr),*)) => {
        match $kind {
            Kind::Bool => $call::<bool $(, $other)*>($($argument),*),
            Kind::Small => $call::<Small $(, $other)*>($($argument),*),
            Kind::Pair => $call::<types::Pair $(, $other)*>($($argument),*),
            Kind::Integer => $call::<Integer $(, $other)*>($($argument),*),
            Kind::Bits => $call::<BitString $(, $other)*>($($argument),*),
            Kind::Octets => $call::<Octets $(, $other)*>($($argument),*),
            Kind::Visible => $call::<VisibleString $(, $other)*>($($argument),*),
            Kind::Null => $call::<() $(, $other)*>($($argument),*),
            Kind::Nulls => $call::<Vec<()> $(, $other)*>($($argument),*),
            Kind::Set => $call::<Set $(, $other)*>($($argument),*),
            Kind::Bag => $call::<Bag $(, $other)*>($($argument),*),
            Kind::Nest => $call::<Nest $(, $other)*>($($argument),*),
            Kind::New => $call::<New $(, $other)*>($($argument),*),
            Kind::Old => $call::<Old $(, $other)*>($($argument),*),
            Kind::Group => $call::<Group $(, $other)*>($($argument),*),
        }
    };
}

/// Translates one message of the type `T`.
fn translate<T: Encode + Decode>(
    alloc: Global,
    translation: Translation,
    message: &[u8],
) -> Result<Vec<u8>, Fault>
    ensures { MatchResult result
        (λ v. BecomesAs (T.schema 128) translation.from translation.to message.now (answered v.items))
        (IsRefusedAs (T.schema 128) translation.from translation.to message.now) }
{
    let message_type = RustType::<T>::new();
    translate_octets(
        alloc,
        &message_type,
        translation.from,
        translation.to,
        message,
    )
}

/// Translates one message.
///
/// # Errors
///
/// Those of `recode` for the type and both sets of rules.
pub fn translate_all(
    alloc: Global,
    translation: Translation,
    message: &[u8],
) -> Result<Vec<u8>, Fault>
    ensures { MatchResult result (λ v. Becomes translation message.now (answered v.items))
        (IsRefusedBy translation message.now) }
{
    at_kind!(
        translation.kind,
        translate::<T>(alloc, translation, message)
    )
}

/// Translates a stream of messages of the type `T`, and writes each once it is complete.
fn stream_of<T: Encode + Decode, R: Read, W: Write>(
    alloc: Global,
    translation: Translation,
    limit: u32,
    input: &mut R,
    output: &mut W,
) -> Result<(), RunFault>
    requires { 1 ≤ limit }
    ensures { MatchResult result
        (λ _. DoesStreamAs (T.schema 128) translation.from translation.to limit
        (R.remaining input.old) (R.remaining input.new) (W.contents output.old) (W.contents output.new))
        (StopsStreamAs (T.schema 128) translation.from translation.to limit
        (R.remaining input.old) (R.remaining input.new) (W.contents output.old) (W.contents output.new)) }
{
    translate_stream(
        alloc,
        RustType::<T>::new(),
        translation.from,
        translation.to,
        limit,
        input,
        output,
    )
}

/// Translates a stream of messages, and writes each once it is complete.
fn stream<R: Read, W: Write>(
    alloc: Global,
    translation: Translation,
    limit: u32,
    input: &mut R,
    output: &mut W,
) -> Result<(), RunFault>
    requires { 1 ≤ limit }
    ensures { MatchResult result
        (λ _. DoesStream translation limit
        (R.remaining input.old) (R.remaining input.new) (W.contents output.old) (W.contents output.new))
        (StopsStreamBy translation limit
        (R.remaining input.old) (R.remaining input.new) (W.contents output.old) (W.contents output.new)) }
{
    at_kind!(
        translation.kind,
        stream_of::<T, R, W>(alloc, translation, limit, input, output)
    )
}

/// Sends a message from hop to hop; each hop knows the older or the newer version of its type.
fn send_as<Older: Encode + Decode, Newer: Encode + Decode + Extends<Older>>(
    alloc: Global,
    from: Codec,
    hops: &[Hop],
    message: &[u8],
) -> Result<Vec<u8>, Fault>
    requires { hops.now ≢ [] }
    ensures { MatchResult result
        (λ v. ComesAs (Older.schema 128) (Newer.schema 128) from hops.now message.now (arrived v.items))
        (IsTurnedBackAs (Older.schema 128) (Newer.schema 128) from hops.now message.now) }
{
    let octets = route::<Older, Newer>(alloc, hops, from, message)?;
    Ok(octets)
}

/// Sends a message from hop to hop, with the type of a pair of versions.
fn send_all(
    alloc: Global,
    from: Codec,
    pair: Pair,
    hops: &[Hop],
    message: &[u8],
) -> Result<Vec<u8>, Fault>
    requires { hops.now ≢ [] }
    ensures { MatchResult result
        (λ v. ComesBy (record { from = from; pair = pair; hops = hops.now }) message.now (arrived v.items))
        (IsTurnedBackBy (record { from = from; pair = pair; hops = hops.now }) message.now) }
{
    match pair {
        Pair::Plain => send_as::<Old, New>(alloc, from, hops, message),
        Pair::Default => send_as::<OldDefault, NewDefault>(alloc, from, hops, message),
        Pair::Required => send_as::<Old, NewRequired>(alloc, from, hops, message),
        Pair::Colour => send_as::<OldColour, NewColour>(alloc, from, hops, message),
    }
}

/// Sends one message, the whole input, from hop to hop. Nothing is written before it has arrived.
fn send<R: Read, W: Write>(
    alloc: Global,
    from: Codec,
    pair: Pair,
    hops: &[Hop],
    input: &mut R,
    output: &mut W,
) -> Result<(), Fault>
    requires { hops.now ≢ [] }
    ensures { MatchResult result
        (λ _. DoesRoute (record { from = from; pair = pair; hops = hops.now })
        (R.remaining input.old) (R.remaining input.new) (W.contents output.old) (W.contents output.new))
        (StopsRouteBy (record { from = from; pair = pair; hops = hops.now })
        (R.remaining input.old) (R.remaining input.new) (W.contents output.old) (W.contents output.new)) }
{
    let message = read_all(alloc, input)?;
    let answer = send_all(alloc, from, pair, hops, message.as_slice())?;
    write_all(answer.as_slice(), output)
}
