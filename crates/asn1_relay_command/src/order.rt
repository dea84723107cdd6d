//! What a command line requests.
ghost use Rattle.std.specs.Prelude.{◌≡◌, ◌≢◌, ◌⊎◌, ◌≤◌, [], None, Some, IfErr, IfOk, IfSome, codes, false, map};
ghost use Rattle.std.specs.Prelude.{option_and_then, option_map};
ghost use Rattle.clap.specs.Words.{app_of, first_value, found_of, kind_of, one_text, rows_of, rule_of};
ghost use Rattle.clap.specs.Words.{subcommand_rows_of};
ghost use Rattle.asn1_relay_command.specs.Orders.{CanBeDone, asked_by, codec_by_name, hop_by_name, hop_rule};
ghost use Rattle.asn1_relay_command.specs.Orders.{hops_by_names, hops_in_rows, kind_by_name, limit_by_text};
ghost use Rattle.asn1_relay_command.specs.Orders.{limit_rule, once_in_rows, option_rule, pair_by_name, program_app};
ghost use Rattle.asn1_relay_command.specs.Orders.{route_app, route_by_names, route_in_rows, stream_in_rows};
ghost use Rattle.asn1_relay_command.specs.Orders.{task_in_command, task_of, translating_app, translation_by_names};

use asn1_relay_core::{Codec, Hop, Version};
use clap::error::ErrorKind;
use clap::{Arg, ArgAction, ArgMatches, Command, Error, value_parser};
use std::alloc::{AllocError, Global};
use std::convert::AsStr;

/// A type of message.
#[derive(Clone, Copy, Debug, PartialEq, Eq)]
pub enum Kind {
    /// BOOLEAN.
    Bool,
    /// INTEGER (-5..5).
    Small,
    /// SEQUENCE {a BOOLEAN, b INTEGER (-5..5)}.
    Pair,
    /// INTEGER.
    Integer,
    /// BIT STRING.
    Bits,
    /// OCTET STRING (SIZE (1..3, ...)).
    Octets,
    /// VisibleString.
    Visible,
    /// NULL.
    Null,
    /// SEQUENCE OF NULL.
    Nulls,
    /// SET {a [444] INTEGER OPTIONAL, b [5] INTEGER OPTIONAL, c [APPLICATION 9] INTEGER OPTIONAL}.
    Set,
    /// SET OF INTEGER (0..255).
    Bag,
    /// Nest ::= CHOICE {leaf [0] NULL, more [1] Nest}.
    Nest,
    /// SEQUENCE {a BOOLEAN, ..., b INTEGER (0..255) OPTIONAL}.
    New,
    /// SEQUENCE {a BOOLEAN, ...}.
    Old,
    /// SEQUENCE {a BOOLEAN, ..., [[x INTEGER (0..255) OPTIONAL]]}.
    Group,
}

/// A type of message in two versions.
#[derive(Clone, Copy, Debug, PartialEq, Eq)]
pub enum Pair {
    /// `old` and `new` of the types of message.
    Plain,
    /// SEQUENCE {s S DEFAULT {a TRUE}}, where S is `old` or `new`.
    Default,
    /// SEQUENCE {a BOOLEAN, ...}, and the same with an addition that is not optional: r [1] BOOLEAN.
    Required,
    /// ENUMERATED {red, ...} and ENUMERATED {red, ..., blue}.
    Colour,
}

/// How messages of a type are translated from one set of rules to another.
#[derive(Clone, Copy, Debug, PartialEq, Eq)]
pub struct Translation {
    /// The rules of the input.
    pub from: Codec,
    /// The rules of the output.
    pub to: Codec,
    /// The type of the messages.
    pub kind: Kind,
}

/// What to do.
#[derive(Debug, Drop, PartialEq, Eq)]
pub enum Order {
    /// Translate one message, the whole input.
    Once(Translation),
    /// Translate a stream of messages.
    Stream {
        /// How each message is translated.
        translation: Translation,
        /// The maximum length of a message in octets, 1 or more.
        limit: u32,
    },
    /// Send one message, the whole input, along a route.
    Route {
        /// The rules of the input.
        from: Codec,
        /// The versions of its type.
        pair: Pair,
        /// The hops, one or more.
        hops: Vec<Hop>,
    },
}

/// The rules with this name, as `uper`.
pub fn codec_named(name: &str) -> Option<Codec>
    ensures { result ≡ codec_by_name name.now }
{
    match name {
        "uper" => Some(Codec::Uper),
        "aper" => Some(Codec::Aper),
        "uper-strict" => Some(Codec::UperStrict),
        "aper-strict" => Some(Codec::AperStrict),
        "oer" => Some(Codec::Oer),
        "coer" => Some(Codec::Coer),
        _ => None,
    }
}

/// The type with this name.
fn kind_named(name: &str) -> Option<Kind>
    ensures { result ≡ kind_by_name name.now }
{
    match name {
        "bool" => Some(Kind::Bool),
        "small" => Some(Kind::Small),
        "pair" => Some(Kind::Pair),
        "integer" => Some(Kind::Integer),
        "bits" => Some(Kind::Bits),
        "octets" => Some(Kind::Octets),
        "visible" => Some(Kind::Visible),
        "null" => Some(Kind::Null),
        "nulls" => Some(Kind::Nulls),
        "set" => Some(Kind::Set),
        "bag" => Some(Kind::Bag),
        "nest" => Some(Kind::Nest),
        "new" => Some(Kind::New),
        "old" => Some(Kind::Old),
        "group" => Some(Kind::Group),
        _ => None,
    }
}

/// The pair of versions with this name.
fn pair_named(name: &str) -> Option<Pair>
    ensures { result ≡ pair_by_name name.now }
{
    match name {
        "plain" => Some(Pair::Plain),
        "default" => Some(Pair::Default),
        "required" => Some(Pair::Required),
        "colour" => Some(Pair::Colour),
        _ => None,
    }
}

/// A hop of this version that encodes by these rules.
fn hop(version: Version, to: Codec) -> Option<Hop>
    ensures { result ≡ Some (record { version = version; to = to }) }
{
    Some(Hop { version, to })
}

/// The hop with this name: a version, and the rules by which it encodes.
fn hop_named(name: &str) -> Option<Hop>
    ensures { result ≡ hop_by_name name.now }
{
    match name {
        "old:uper" => hop(Version::Old, Codec::Uper),
        "old:aper" => hop(Version::Old, Codec::Aper),
        "old:uper-strict" => hop(Version::Old, Codec::UperStrict),
        "old:aper-strict" => hop(Version::Old, Codec::AperStrict),
        "old:oer" => hop(Version::Old, Codec::Oer),
        "old:coer" => hop(Version::Old, Codec::Coer),
        "new:uper" => hop(Version::New, Codec::Uper),
        "new:aper" => hop(Version::New, Codec::Aper),
        "new:uper-strict" => hop(Version::New, Codec::UperStrict),
        "new:aper-strict" => hop(Version::New, Codec::AperStrict),
        "new:oer" => hop(Version::New, Codec::Oer),
        "new:coer" => hop(Version::New, Codec::Coer),
        _ => None,
    }
}

/// The hops with these names, in order, if each names one.
fn hops_named(alloc: Global, names: &[&str]) -> Result<Option<Vec<Hop>>, AllocError>
    ensures { IfOk result (λ hops. option_map (λ v. v.items) hops ≡ hops_by_names (map (λ s. s.now) names.now)) }
{
    let mut hops = Vec::new(alloc);
    for name in names {
        match hop_named(name) {
            Some(hop) => hops.push(hop)?,
            None => return Ok(None),
        }
    }
    Ok(Some(hops))
}

/// A required option with one value.
fn option<'a>(alloc: Global, name: &'a str, help: &'a str) -> Arg<'a>
    ensures rule { rule_of result ≡ option_rule name.entry.now }
    ensures local { result.global ≡ false }
{
    Arg::new(alloc, name).long(name).required(true).help(help)
}

/// A command that translates: its options name both sets of rules, and the type.
fn translating<'a>(alloc: Global, name: &'a str, about: &'a str) -> Result<Command<'a>, AllocError>
    ensures { IfOk result (λ c. app_of c ≡ translating_app name.entry.now) }
{
    Command::new(alloc, name)
        .about(about)
        .arg(option(
            alloc,
            "from",
            "the rules of the input: uper, aper, uper-strict, aper-strict, oer or coer",
        ))?
        .arg(option(
            alloc,
            "to",
            "the rules of the output: uper, aper, uper-strict, aper-strict, oer or coer",
        ))?
        .arg(option(
            alloc,
            "type",
            "the type of a message: bool, small, pair, integer, bits, octets, visible, null, nulls, set, \
             bag, nest, new, old or group",
        ))
}

/// The `--limit` option.
fn limit_option<'a>(alloc: Global) -> Arg<'a>
    ensures rule { rule_of result ≡ limit_rule }
    ensures local { result.global ≡ false }
{
    option(
        alloc,
        "limit",
        "the maximum length of a message in octets, from 1 to 4294967295",
    )
    .value_parser(value_parser!(u32).range(1..))
}

/// The `--hop` option, given once or more.
fn hop_option<'a>(alloc: Global) -> Arg<'a>
    ensures rule { rule_of result ≡ hop_rule }
    ensures local { result.global ≡ false }
{
    option(
        alloc,
        "hop",
        "VERSION:RULES of a hop: VERSION is old or new, RULES are those in which it writes, uper, aper, \
         uper-strict, aper-strict, oer or coer; may be repeated",
    )
    .action(ArgAction::Append)
}

/// The command that sends a message along a route.
fn routing<'a>(alloc: Global) -> Result<Command<'a>, AllocError>
    ensures { IfOk result (λ c. app_of c ≡ route_app) }
{
    Command::new(alloc, "route")
        .about(
            "Sends one message, all of standard input, from hop to hop; each hop knows one version of its \
             type",
        )
        .arg(option(
            alloc,
            "from",
            "the rules of the input: uper, aper, uper-strict, aper-strict, oer or coer",
        ))?
        .arg(option(
            alloc,
            "pair",
            "the versions of the type: plain, default, required or colour",
        ))?
        .arg(hop_option(alloc))
}

/// The grammar of the command line.
fn grammar<'a>(alloc: Global) -> Result<Command<'a>, AllocError>
    ensures { IfOk result (λ g. app_of g ≡ program_app) }
{
    let once = translating(
        alloc,
        "once",
        "Translates one message, all of standard input",
    )?;
    let stream = translating(
        alloc,
        "stream",
        "Translates a stream of messages from standard input",
    )?
    .arg(limit_option(alloc))?;
    let route = routing(alloc)?;
    Command::new(alloc, "asn1_relay")
        .about("Translates messages between encoding rules of ASN.1")
        .after_help(
            "Types of your own: add --module FILE, as in asn1_relay once --module FILE --help. With it come json, \
             check and types. Versions of your own: asn1_relay route --old FILE --help.",
        )
        .subcommand_required(true)
        .subcommand(once)?
        .subcommand(stream)?
        .subcommand(route)
}

/// The translation that the options request, if each of them names something.
fn translation_in(options: &ArgMatches<'_>) -> Option<Translation>
    ensures { result ≡ translation_by_names (first_value (found_of options.now) (codes "from"))
        (first_value (found_of options.now) (codes "to")) (first_value (found_of options.now) (codes "type")) }
{
    Some(Translation {
        from: codec_named(options.get_str("from")?)?,
        to: codec_named(options.get_str("to")?)?,
        kind: kind_named(options.get_str("type")?)?,
    })
}

/// The limit that the options request, if there is one.
pub fn limit_in(options: &ArgMatches<'_>) -> Option<u32>
    ensures limit { result ≡ option_and_then limit_by_text (one_text (found_of options.now) (codes "limit")) }
    ensures some { IfSome result (λ n. 1 ≤ n) }
{
    let limit = options.get_one::<u32>("limit")?;
    if limit >= 1 { Some(limit) } else { None }
}

/// What the options of `once` request, if each of them names something.
fn once_in(options: &ArgMatches<'_>) -> Option<Order>
    ensures task { option_map task_of result ≡ once_in_rows (rows_of (found_of options.now)) }
    ensures sound { IfSome result (λ order. CanBeDone (task_of order)) }
{
    let translation = translation_in(options)?;
    Some(Order::Once(translation))
}

/// What the options of `stream` request, if each of them names something.
fn stream_in(options: &ArgMatches<'_>) -> Option<Order>
    ensures task { option_map task_of result ≡ stream_in_rows (rows_of (found_of options.now)) }
    ensures sound { IfSome result (λ order. CanBeDone (task_of order)) }
{
    let translation = translation_in(options)?;
    let limit = limit_in(options)?;
    Some(Order::Stream { translation, limit })
}

/// The hops that the options request, if each of them names one.
pub fn hops_in(alloc: Global, options: &ArgMatches<'_>) -> Result<Option<Vec<Hop>>, AllocError>
    ensures { IfOk result (λ hops. option_map (λ v. v.items) hops ≡ hops_in_rows (rows_of (found_of options.now))) }
{
    match options.get_strs("hop") {
        Some(names) => hops_named(alloc, names),
        None => Ok(None),
    }
}

/// What the options of `route` request besides these hops, if each of them names something, and there is a hop.
fn route_by(options: &ArgMatches<'_>, hops: Option<Vec<Hop>>) -> Option<Order>
    ensures task { option_map task_of result ≡ route_by_names (first_value (found_of options.now) (codes "from"))
        (first_value (found_of options.now) (codes "pair")) (option_map (λ v. v.items) hops) }
    ensures sound { IfSome result (λ order. CanBeDone (task_of order)) }
{
    let from = codec_named(options.get_str("from")?)?;
    let pair = pair_named(options.get_str("pair")?)?;
    let hops = hops?;
    if hops.is_empty() {
        return None;
    }
    Some(Order::Route { from, pair, hops })
}

/// What the options of `route` request, if each of them names something.
fn route_in(alloc: Global, options: &ArgMatches<'_>) -> Result<Option<Order>, AllocError>
    ensures task { IfOk result (λ order. option_map task_of order ≡ route_in_rows (rows_of (found_of options.now))) }
    ensures sound { IfOk result (λ order. IfSome order (λ o. CanBeDone (task_of o))) }
{
    let hops = hops_in(alloc, options)?;
    Ok(route_by(options, hops))
}

/// What words that match the grammar request, if each option names something.
fn order_in(alloc: Global, matches: &ArgMatches<'_>) -> Result<Option<Order>, AllocError>
    ensures task { IfOk result (λ order. option_map task_of order ≡ task_in_command (subcommand_rows_of matches.now)) }
    ensures sound { IfOk result (λ order. IfSome order (λ o. CanBeDone (task_of o))) }
{
    match matches.subcommand() {
        Some((name, options)) => match name {
            "once" => Ok(once_in(options)),
            "stream" => Ok(stream_in(options)),
            "route" => route_in(alloc, options),
            _ => Ok(None),
        },
        None => Ok(None),
    }
}

/// Reads a command line, whose first word is the name of the program. The `Display` of an error is the text for the
/// user.
///
/// # Errors
///
/// If the line requests nothing that the program can do, or requests the help text. The kind is `OutOfMemory` if memory
/// ran out.
pub fn read_order<S: AsStr>(alloc: Global, words: &[S]) -> Result<Order, Error>
    ensures ok { IfOk result (λ order. asked_by (map S.text words.now) ≡ Some (task_of order)) }
    ensures sound { IfOk result (λ order. CanBeDone (task_of order)) }
    ensures bad { IfErr result (λ e. (asked_by (map S.text words.now) ≡ None) ⊎ (kind_of e ≡ ErrorKind.OutOfMemory)) }
{
    let mut grammar = grammar(alloc)?;
    let matches = grammar.try_get_matches_from_mut(words)?;
    let order = order_in(alloc, &matches)?;
    match order {
        Some(order) => Ok(order),
        None => Err(grammar.error(
            ErrorKind::InvalidValue,
            "rules are uper, aper, uper-strict, aper-strict, oer or coer, types bool, small, pair, integer, \
             bits, octets, visible, null, nulls, set, bag, nest, new, old or group, pairs plain, default, \
             required or colour, and hops old or new, a colon and rules",
        )?),
    }
}
