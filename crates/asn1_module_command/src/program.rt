//! The command over modules.
ghost use Rattle.std.specs.Prelude.{◌≡◌, ◌≢◌, ◌≤◌, ◌⊎◌, [], MatchResult, map};
ghost use Rattle.clap.specs.Words.{kind_of};
ghost use Rattle.asn1_module_command.specs.Checks.{HasChecked, StopsChecking};
ghost use Rattle.asn1_module_command.specs.Runs.{HasDone, HasFailed, HasRefused, HasRouted, HasStopped, HasTranslated};
ghost use Rattle.asn1_module_command.specs.Runs.{IsObeyed, OfType, OfTypes, StopsAt, StopsOnRoute, StopsTranslating};
ghost use Rattle.asn1_module_command.specs.Runs.{Through, Via};
ghost use Rattle.asn1_module_order.specs.Orders.{CanBeDone, IsBounded, asked_by};
ghost use Rattle.asn1_relay_command.specs.Runs.{IsUntouched};

use crate::checking::check_message;
use crate::errors::{CommandError, Stop};
use crate::routing::send;
use crate::translating::translate;
use asn1_module_order::{
    Action, Check, Order, Route, Source, Translation, older_table, read_files, read_order,
    table_named, write_module_error,
};
use asn1_notation_printing::{list_types, print_type};
use asn1_notation_syntax::Syntax;
use asn1_notation_types::Table;
use asn1_relay_command::{Fault, report, write_all};
use clap::error::ErrorKind as ParseErrorKind;
use std::alloc::Global;
use std::convert::AsStr;
use std::fs;
use std::io::{self, Read, Write};
use std::rt::Files;

/// Runs the program on a command line that names modules, whose first word is the program's name, and returns its exit
/// status:
///
/// * 0: everything was read, and the result was written and flushed.
/// * 1: a file, a module or the input could not be read or translated, the result could not be written, or memory ran
///   out. What is wrong is written to `errors`.
/// * 2: the command line is not valid. A text is written to `errors`.
///
/// A file that the command line names is read in the place of `input`, or written in that of `output`, which then stays
/// as it was.
pub fn module_command<F: Files + AllocGlobal, S: AsStr, R: Read, W: Write, E: Write>(
    rt: &F,
    words: &[S],
    input: &mut R,
    output: &mut W,
    errors: &mut E,
) -> u8
    ensures status { result ≤ 2 }
    ensures done { result ≡ 0 → IsObeyed (asked_by (map S.text words.now))
        (R.remaining input.old) (R.remaining input.new) (W.contents output.old) (W.contents output.new) }
    ensures failed { result ≡ 1 → HasStopped (asked_by (map S.text words.now))
        (R.remaining input.old) (R.remaining input.new) (W.contents output.old) (W.contents output.new) }
    ensures bad { result ≡ 2 → HasRefused (asked_by (map S.text words.now))
        (R.remaining input.old) (R.remaining input.new) (W.contents output.old) (W.contents output.new) }
{
    let order = match read_order(rt.alloc(), words) {
        Ok(order) => order,
        Err(error) => return refuse(&error, errors),
    };
    let sources = match read_sources(rt, &order) {
        Ok(sources) => sources,
        Err(unread) => return refuse_file(unread.name.as_str(), &unread.error, errors),
    };
    obey_from(rt, &order, sources.as_slice(), input, output, errors)
}

/// Does what was requested, with the file of the input in the place of `input` if there is one.
fn obey_from<F: Files + AllocGlobal, R: Read, W: Write, E: Write>(
    rt: &F,
    order: &Order,
    sources: &[Source],
    input: &mut R,
    output: &mut W,
    errors: &mut E,
) -> u8
    requires { CanBeDone order.now.action }
    ensures status { result ≤ 1 }
    ensures done { result ≡ 0 → Through order.now (HasDone order.now)
        (R.remaining input.old) (R.remaining input.new) (W.contents output.old) (W.contents output.new) }
    ensures failed { result ≡ 1 → IsUntouched
        (R.remaining input.old) (R.remaining input.new) (W.contents output.old) (W.contents output.new)
        ⊎ Through order.now (HasFailed order.now)
        (R.remaining input.old) (R.remaining input.new) (W.contents output.old) (W.contents output.new) }
{
    let Some(name) = &order.input else {
        return obey_to(rt, order, sources, input, output, errors);
    };
    match fs::open(rt, name.as_str()) {
        Ok(mut file) => obey_to(rt, order, sources, &mut file, output, errors),
        Err(error) => refuse_file(name.as_str(), &error, errors),
    }
}

/// Does what was requested, with the file of the output in the place of `output` if there is one.
fn obey_to<F: Files + AllocGlobal, R: Read, W: Write, E: Write>(
    rt: &F,
    order: &Order,
    sources: &[Source],
    input: &mut R,
    output: &mut W,
    errors: &mut E,
) -> u8
    requires { CanBeDone order.now.action }
    ensures status { result ≤ 1 }
    ensures done { result ≡ 0 → Via order.now.output
        (HasDone order.now (R.remaining input.old) (R.remaining input.new))
        (W.contents output.old) (W.contents output.new) }
    ensures failed { result ≡ 1 → IsUntouched
        (R.remaining input.old) (R.remaining input.new) (W.contents output.old) (W.contents output.new)
        ⊎ Via order.now.output (HasFailed order.now (R.remaining input.old) (R.remaining input.new))
        (W.contents output.old) (W.contents output.new) }
{
    let Some(name) = &order.output else {
        return obey(rt.alloc(), order, sources, input, output, errors);
    };
    match fs::create(rt, name.as_str()) {
        Ok(mut file) => obey(rt.alloc(), order, sources, input, &mut file, errors),
        Err(error) => refuse_file(name.as_str(), &error, errors),
    }
}

/// Does what was requested with the modules of these files, first those of `modules` and then those of `older`, from
/// `input` to `output`, and returns the exit status, as `module_command` does.
pub fn obey<R: Read, W: Write, E: Write>(
    alloc: Global,
    order: &Order,
    sources: &[Source],
    input: &mut R,
    output: &mut W,
    errors: &mut E,
) -> u8
    requires { CanBeDone order.now.action }
    ensures status { result ≤ 1 }
    ensures done { result ≡ 0 → HasDone order.now
        (R.remaining input.old) (R.remaining input.new) (W.contents output.old) (W.contents output.new) }
    ensures failed { result ≡ 1 → HasFailed order.now
        (R.remaining input.old) (R.remaining input.new) (W.contents output.old) (W.contents output.new) }
{
    match attempt(alloc, order, sources, input, output) {
        Ok(()) => 0,
        Err(stop) => refuse_stop(sources, stop, errors),
    }
}

/// Does what was requested with the modules of these files.
fn attempt<R: Read, W: Write>(
    alloc: Global,
    order: &Order,
    sources: &[Source],
    input: &mut R,
    output: &mut W,
) -> Result<(), Stop>
    requires { CanBeDone order.now.action }
    ensures { MatchResult result
        (λ _. HasDone order.now
        (R.remaining input.old) (R.remaining input.new) (W.contents output.old) (W.contents output.new))
        (StopsAt order.now
        (R.remaining input.old) (R.remaining input.new) (W.contents output.old) (W.contents output.new)) }
{
    let files = read_files(alloc, sources)?;
    match &order.type_name {
        None => {
            list(alloc, files.as_slice(), output)?;
            Ok(())
        }
        Some(name) => act(alloc, order, files.as_slice(), name.as_str(), input, output),
    }
}

/// Reports why nothing more is done, and returns the exit status.
fn refuse_stop<E: Write>(sources: &[Source], stop: Stop, errors: &mut E) -> u8
    ensures { result ≡ 1 }
{
    match stop {
        Stop::Module(error) => {
            let _ = write_module_error(sources, &error, errors);
            1
        }
        Stop::Command(CommandError::Fault(fault)) => report(fault, errors),
        Stop::Command(error) => {
            let _ = writeln!(errors, "asn1_relay: {error}");
            1
        }
    }
}

/// Lists the names of all types.
fn list<W: Write>(alloc: Global, files: &[Syntax], output: &mut W) -> Result<(), CommandError> {
    let names = list_types(alloc, files)?;
    write_all(names.as_bytes(), output)?;
    Ok(())
}

/// Does what was requested with the type of a name, in the modules of these files.
fn act<R: Read, W: Write>(
    alloc: Global,
    order: &Order,
    files: &[Syntax],
    name: &str,
    input: &mut R,
    output: &mut W,
) -> Result<(), Stop>
    requires { CanBeDone order.now.action }
    ensures { MatchResult result
        (λ _. HasDone order.now
        (R.remaining input.old) (R.remaining input.new) (W.contents output.old) (W.contents output.new))
        (StopsAt order.now
        (R.remaining input.old) (R.remaining input.new) (W.contents output.old) (W.contents output.new)) }
{
    let count = order.modules.len().min(files.len());
    let table = table_named(alloc, &files[..count], name, order.options)?;
    match &order.action {
        Action::Translate(translation) => {
            translate_as(alloc, &table, *translation, input, output)?;
            Ok(())
        }
        Action::Check(check) => {
            check_as(alloc, &table, *check, input, output)?;
            Ok(())
        }
        Action::Route(route) => {
            let older = older_table(alloc, files, count, name, order.options)?;
            send_as(alloc, &older, &table, route, input, output)?;
            Ok(())
        }
        Action::Print => {
            print(alloc, &table, output)?;
            Ok(())
        }
    }
}

/// Translates what was requested, as messages of the type of a table.
fn translate_as<R: Read, W: Write>(
    alloc: Global,
    table: &Table,
    translation: Translation,
    input: &mut R,
    output: &mut W,
) -> Result<(), CommandError>
    requires { IsBounded translation.extent }
    ensures { MatchResult result
        (λ _. OfType (λ s. HasTranslated translation s
        (R.remaining input.old) (R.remaining input.new) (W.contents output.old) (W.contents output.new)))
        (λ e. OfType (λ s. StopsTranslating translation s
        (R.remaining input.old) (R.remaining input.new) (W.contents output.old) (W.contents output.new) e)) }
{
    translate(alloc, table, translation, input, output)
}

/// Says that a message of the type of a table, the whole input, is canonical.
fn check_as<R: Read, W: Write>(
    alloc: Global,
    table: &Table,
    check: Check,
    input: &mut R,
    output: &mut W,
) -> Result<(), CommandError>
    ensures { MatchResult result
        (λ _. OfType (λ s. HasChecked check s
        (R.remaining input.old) (R.remaining input.new) (W.contents output.old) (W.contents output.new)))
        (λ e. OfType (λ s. StopsChecking check s
        (R.remaining input.old) (R.remaining input.new) (W.contents output.old) (W.contents output.new) e)) }
{
    check_message(alloc, table, check, input, output)
}

/// Sends a message, the whole input, from hop to hop, where each hop knows the type of one of two tables.
fn send_as<R: Read, W: Write>(
    alloc: Global,
    older: &Table,
    newer: &Table,
    route: &Route,
    input: &mut R,
    output: &mut W,
) -> Result<(), Stop>
    requires { route.now.hops.items ≢ [] }
    ensures { MatchResult result
        (λ _. OfTypes (λ old new. HasRouted route.now old new
        (R.remaining input.old) (R.remaining input.new) (W.contents output.old) (W.contents output.new)))
        (StopsOnRoute route.now
        (R.remaining input.old) (R.remaining input.new) (W.contents output.old) (W.contents output.new)) }
{
    send(alloc, older, newer, route, input, output)
}

/// Prints a type.
fn print<W: Write>(alloc: Global, table: &Table, output: &mut W) -> Result<(), CommandError> {
    let text = print_type(alloc, &table.types, &table.names, table.place)?;
    write_all(text.as_bytes(), output)?;
    Ok(())
}

/// Why a file is not read.
#[derive(Drop)]
struct UnreadFile {
    name: String,
    error: io::Error,
}

/// Reads the files of modules, first those of `modules` and then those of `older`.
fn read_sources<F: Files + AllocGlobal>(rt: &F, order: &Order) -> Result<Vec<Source>, UnreadFile> {
    let mut sources = Vec::new(rt.alloc());
    for name in order.modules.iter().chain(order.older.iter()) {
        let read = match fs::read(rt, name.as_str()) {
            Ok(text) => source_of(rt.alloc(), name.as_str(), text),
            Err(error) => Err(error),
        };
        let added = match read {
            Ok(source) => sources.push(source).map_err(|error| io::Error::from(error)),
            Err(error) => Err(error),
        };
        if let Err(error) = added {
            let name = String::from_str(rt.alloc(), name.as_str());
            return Err(UnreadFile {
                name: name.unwrap_or(String::new(rt.alloc())),
                error,
            });
        }
    }
    Ok(sources)
}

/// A file of modules.
fn source_of(alloc: Global, name: &str, text: Vec<u8>) -> io::Result<Source> {
    Ok(Source {
        name: String::from_str(alloc, name)?,
        text,
    })
}

/// Reports a file that is not read or written, and returns the exit status.
fn refuse_file<E: Write>(name: &str, error: &io::Error, errors: &mut E) -> u8
    ensures { result ≡ 1 }
{
    let _ = writeln!(errors, "asn1_relay: {name}: {error}");
    1
}

/// Reports what is wrong with a command line, and returns the exit status.
fn refuse<E: Write>(error: &clap::Error, errors: &mut E) -> u8
    ensures status { result ≤ 2 }
    ensures memory { kind_of error.now ≡ ParseErrorKind.OutOfMemory → result ≡ 1 }
    ensures mistake { kind_of error.now ≢ ParseErrorKind.OutOfMemory → result ≡ 2 }
{
    if error.kind() == ParseErrorKind::OutOfMemory {
        return report(Fault::OutOfMemory, errors);
    }
    let _ = write!(errors, "{error}");
    2
}
