//! The words of a command line become an order.
ghost use Rattle.std.specs.Prelude.{◌≡◌, ◌⊎◌, None, Some, IfErr, IfOk, IfSome, false, map, option_map, slice_get};
ghost use Rattle.std.specs.Prelude.{string_bytes};
ghost use Rattle.std.specs.Option.{option_map_or};
ghost use Rattle.std.specs.List.{list_any};
ghost use Rattle.clap.specs.Words.{first_of, found_of, kind_of, rows_of, subcommand_rows_of};
ghost use Rattle.asn1_module_order.specs.Orders.{CanBeDone, IsBounded, all_in_rows, asked_by, check_in_rows};
ghost use Rattle.asn1_module_order.specs.Orders.{codec_in_rows, form_by_name, form_in_rows, is_given_in, is_option};
ghost use Rattle.asn1_module_order.specs.Orders.{is_of_modules};
ghost use Rattle.asn1_module_order.specs.Orders.{names_file_in, named_bits_by_word, open_types_by_word};
ghost use Rattle.asn1_module_order.specs.Orders.{options_in_rows, times_by_word};
ghost use Rattle.asn1_module_order.specs.Orders.{request_in_command, request_in_rows, request_of, request_with};
ghost use Rattle.asn1_module_order.specs.Orders.{route_in_rows, route_with, stream_in_rows, task_in_rows, task_of};
ghost use Rattle.asn1_module_order.specs.Orders.{translation_in_rows};

use crate::grammar::grammar;
use crate::order::{Action, Check, Extent, Form, Order, Route, Translation};
use asn1_notation_types::{Additions, NamedBits, OpenTypes, TableOptions, Times};
use asn1_relay_command::{codec_named, hops_in, limit_in};
use asn1_relay_core::{Codec, Hop};
use asn1_table_json_writing::Style;
use clap::error::ErrorKind;
use clap::{ArgMatches, Error};
use std::alloc::{AllocError, Global};
use std::convert::AsStr;

/// Whether a word is this option, perhaps with a value after an equals sign.
fn is_option(name: &str, word: &str) -> bool
    ensures { result ≡ is_option name.now word.now }
{
    let (name, word) = (name.as_bytes(), word.as_bytes());
    word.starts_with(name) && (word.len() == name.len() || word[name.len()] == b'=')
}

/// Whether a word is an option with a file of modules.
fn names_file(word: &str) -> bool
    ensures { result ≡ names_file_in word.now }
{
    is_option("--module", word) || is_option("--old", word) || is_option("--new", word)
}

/// Whether a command line names files of modules, so that `read_order` reads it.
pub fn names_modules<S: AsStr>(words: &[S]) -> bool
    ensures { result ≡ list_any names_file_in (map S.text words.now) }
{
    for word in words {
        if names_file(word.as_str()) {
            return true;
        }
    }
    false
}

/// Whether a command is one that only lines with modules have.
fn is_of_modules(name: &str) -> bool
    ensures { result ≡ is_of_modules name.now }
{
    matches!(name, "check" | "types")
}

/// Whether the command of a line, after the name of the program, is one that only lines with modules have, so that
/// `read_order` reads it also if it names none.
pub fn has_module_command<S: AsStr>(words: &[S]) -> bool
    ensures { result ≡ option_map_or (λ word. is_of_modules (S.text word)) (slice_get words.now 1) false }
{
    match words.get(1) {
        Some(word) => is_of_modules(word.as_str()),
        None => false,
    }
}

/// The value of an option, if it has one.
fn value_in<'a>(options: &ArgMatches<'a>, name: &str) -> Option<&'a str>
    ensures { option_map (λ s. s.now) result ≡ first_of name.now (rows_of (found_of options.now)) }
{
    options.get_str(name)
}

/// Whether an option without a value is there.
fn is_given(options: &ArgMatches<'_>, name: &str) -> bool
    ensures { result ≡ is_given_in name.now (rows_of (found_of options.now)) }
{
    match value_in(options, name) {
        Some(value) => value == "true",
        None => false,
    }
}

/// The form with this name.
fn form_named(name: &str) -> Option<Form>
    ensures { result ≡ form_by_name name.now }
{
    if name == "json" {
        return Some(Form::Json);
    }
    let rules = codec_named(name)?;
    Some(Form::Rules(rules))
}

/// The form that an option names.
fn form_in(options: &ArgMatches<'_>, name: &str) -> Option<Form>
    ensures { result ≡ form_in_rows name.now (rows_of (found_of options.now)) }
{
    let value = value_in(options, name)?;
    form_named(value)
}

/// The rules of the input.
fn codec_in(options: &ArgMatches<'_>) -> Option<Codec>
    ensures { result ≡ codec_in_rows (rows_of (found_of options.now)) }
{
    let value = value_in(options, "from")?;
    codec_named(value)
}

/// How messages are translated, if each option names something.
fn translation_in(extent: Extent, options: &ArgMatches<'_>) -> Option<Action>
    requires { IsBounded extent }
    ensures task { option_map task_of result ≡ translation_in_rows (rows_of (found_of options.now)) extent }
    ensures sound { IfSome result CanBeDone }
{
    let from = form_in(options, "from")?;
    let to = form_in(options, "to")?;
    let is_hexadecimal = is_given(options, "hex");
    let style = if is_given(options, "pretty") {
        Style::Pretty
    } else {
        Style::Compact
    };
    Some(Action::Translate(Translation {
        extent,
        from,
        to,
        is_hexadecimal,
        style,
    }))
}

/// How a stream is translated, if each option names something.
fn stream_in(options: &ArgMatches<'_>) -> Option<Action>
    ensures task { option_map task_of result ≡ stream_in_rows (rows_of (found_of options.now)) }
    ensures sound { IfSome result CanBeDone }
{
    let limit = limit_in(options)?;
    translation_in(Extent::Stream { limit }, options)
}

/// The check of a message, if the option names rules.
fn check_in(options: &ArgMatches<'_>) -> Option<Action>
    ensures task { option_map task_of result ≡ check_in_rows (rows_of (found_of options.now)) }
    ensures sound { IfSome result CanBeDone }
{
    let rules = codec_in(options)?;
    let is_hexadecimal = is_given(options, "hex");
    Some(Action::Check(Check {
        rules,
        is_hexadecimal,
    }))
}

/// The route over these hops, if they are known, and there is one.
fn route_over(from: Codec, is_hexadecimal: bool, hops: Option<Vec<Hop>>) -> Option<Action>
    ensures task { option_map task_of result ≡ route_with from is_hexadecimal (option_map (λ v. v.items) hops) }
    ensures sound { IfSome result CanBeDone }
{
    let hops = hops?;
    if hops.is_empty() {
        return None;
    }
    Some(Action::Route(Route {
        from,
        hops,
        is_hexadecimal,
    }))
}

/// The route of a message, if each option names something, and there is a hop.
fn route_in(alloc: Global, options: &ArgMatches<'_>) -> Result<Option<Action>, AllocError>
    ensures task { IfOk result
        (λ action. option_map task_of action ≡ route_in_rows (rows_of (found_of options.now))) }
    ensures sound { IfOk result (λ action. IfSome action CanBeDone) }
{
    let Some(from) = codec_in(options) else {
        return Ok(None);
    };
    let hops = hops_in(alloc, options)?;
    Ok(route_over(from, is_given(options, "hex"), hops))
}

/// What is done with the type, by the name of the command, if each option names something.
fn action_in(
    alloc: Global,
    name: &str,
    options: &ArgMatches<'_>,
) -> Result<Option<Action>, AllocError>
    ensures task { IfOk result
        (λ action. option_map task_of action ≡ task_in_rows name.now (rows_of (found_of options.now))) }
    ensures sound { IfOk result (λ action. IfSome action CanBeDone) }
{
    match name {
        "once" => Ok(translation_in(Extent::Message, options)),
        "stream" => Ok(stream_in(options)),
        "check" => Ok(check_in(options)),
        "route" => route_in(alloc, options),
        "types" => Ok(Some(Action::Print)),
        _ => Ok(None),
    }
}

/// What becomes of open types, if the option names something.
fn open_types_named(word: Option<&str>) -> Option<OpenTypes>
    ensures { result ≡ open_types_by_word (option_map (λ s. s.now) word.entry) }
{
    match word {
        None => Some(OpenTypes::AreRefused),
        Some("octets") => Some(OpenTypes::AreOctets),
        Some(_) => None,
    }
}

/// What becomes of named bits without a fixed size, if the option names something.
fn named_bits_named(word: Option<&str>) -> Option<NamedBits>
    ensures { result ≡ named_bits_by_word (option_map (λ s. s.now) word.entry) }
{
    match word {
        None => Some(NamedBits::AreRefused),
        Some("as-sent") => Some(NamedBits::AreAsSent),
        Some(_) => None,
    }
}

/// What becomes of times, if the option names something.
fn times_named(word: Option<&str>) -> Option<Times>
    ensures { result ≡ times_by_word (option_map (λ s. s.now) word.entry) }
{
    match word {
        None => Some(Times::AreRefused),
        Some("as-sent") => Some(Times::AreAsSent),
        Some(_) => None,
    }
}

/// How modules are understood, if each option names something.
fn options_in(options: &ArgMatches<'_>) -> Option<TableOptions>
    ensures { result ≡ options_in_rows (rows_of (found_of options.now)) }
{
    let open_types = open_types_named(value_in(options, "open-types"))?;
    let named_bits = named_bits_named(value_in(options, "named-bits"))?;
    let times = times_named(value_in(options, "times"))?;
    let additions = if is_given(options, "required-additions") {
        Additions::AreRequired
    } else {
        Additions::MayBeAbsent
    };
    Some(TableOptions {
        additions,
        open_types,
        named_bits,
        times,
    })
}

/// Copies of texts.
fn strings_of(alloc: Global, texts: &[&str]) -> Result<Vec<String>, AllocError>
    ensures { IfOk result (λ strings. map string_bytes strings.items ≡ map (λ s. s.now) texts.now) }
{
    let mut strings = Vec::new(alloc);
    for text in texts {
        let string = String::from_str(alloc, text)?;
        strings.push(string)?;
    }
    Ok(strings)
}

/// Copies of the values of an option.
fn strings_in(
    alloc: Global,
    options: &ArgMatches<'_>,
    name: &str,
) -> Result<Vec<String>, AllocError>
    ensures { IfOk result
        (λ strings. map string_bytes strings.items ≡ all_in_rows name.now (rows_of (found_of options.now))) }
{
    match options.get_strs(name) {
        Some(values) => strings_of(alloc, values),
        None => Ok(Vec::new(alloc)),
    }
}

/// A copy of the value of an option, if it has one.
fn string_in(
    alloc: Global,
    options: &ArgMatches<'_>,
    name: &str,
) -> Result<Option<String>, AllocError>
    ensures { IfOk result
        (λ string. option_map string_bytes string ≡ first_of name.now (rows_of (found_of options.now))) }
{
    match value_in(options, name) {
        Some(value) => {
            let string = String::from_str(alloc, value)?;
            Ok(Some(string))
        }
        None => Ok(None),
    }
}

/// The order to do this with the files and the type that options name.
fn order_with(
    alloc: Global,
    name: &str,
    options: &ArgMatches<'_>,
    action: Action,
    table_options: TableOptions,
) -> Result<Order, AllocError>
    ensures request { IfOk result (λ order. request_of order
        ≡ request_with name.now (rows_of (found_of options.now)) (task_of action) table_options) }
    ensures action { IfOk result (λ order. order.action ≡ action) }
{
    let files = if name == "route" { "new" } else { "module" };
    let modules = strings_in(alloc, options, files)?;
    let older = strings_in(alloc, options, "old")?;
    let type_name = string_in(alloc, options, "type")?;
    let input = string_in(alloc, options, "input")?;
    let output = string_in(alloc, options, "output")?;
    Ok(Order {
        modules,
        older,
        type_name,
        options: table_options,
        action,
        input,
        output,
    })
}

/// What the options of a command request, if each of them names something.
fn order_in(
    alloc: Global,
    name: &str,
    options: &ArgMatches<'_>,
) -> Result<Option<Order>, AllocError>
    ensures request { IfOk result
        (λ order. option_map request_of order ≡ request_in_rows name.now (rows_of (found_of options.now))) }
    ensures sound { IfOk result (λ order. IfSome order (λ o. CanBeDone o.action)) }
{
    let Some(action) = action_in(alloc, name, options)? else {
        return Ok(None);
    };
    let Some(table_options) = options_in(options) else {
        return Ok(None);
    };
    let order = order_with(alloc, name, options, action, table_options)?;
    Ok(Some(order))
}

/// What words that match the grammar request, if each option names something.
fn order_of(alloc: Global, matches: &ArgMatches<'_>) -> Result<Option<Order>, AllocError>
    ensures request { IfOk result
        (λ order. option_map request_of order ≡ request_in_command (subcommand_rows_of matches.now)) }
    ensures sound { IfOk result (λ order. IfSome order (λ o. CanBeDone o.action)) }
{
    match matches.subcommand() {
        Some((name, options)) => order_in(alloc, name, options),
        None => Ok(None),
    }
}

/// Reads a command line, whose first word is the name of the program. The `Display` of an error is the text for the
/// user.
///
/// # Errors
///
/// If the line requests nothing that the program can do, or requests the help text. The kind is `OutOfMemory` if
/// memory ran out.
pub fn read_order<S: AsStr>(alloc: Global, words: &[S]) -> Result<Order, Error>
    ensures ok { IfOk result (λ order. asked_by (map S.text words.now) ≡ Some (request_of order)) }
    ensures sound { IfOk result (λ order. CanBeDone order.action) }
    ensures bad { IfErr result (λ e. (asked_by (map S.text words.now) ≡ None) ⊎ (kind_of e ≡ ErrorKind.OutOfMemory)) }
{
    let mut grammar = grammar(alloc)?;
    let matches = grammar.try_get_matches_from_mut(words)?;
    let order = order_of(alloc, &matches)?;
    match order {
        Some(order) => Ok(order),
        None => Err(grammar.error(
            ErrorKind::InvalidValue,
            "--from and --to are the names of rules, or json in once and stream; --hop is old or new, a colon and \
             rules; --open-types is octets; --named-bits and --times are as-sent",
        )?),
    }
}
