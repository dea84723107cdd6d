//! The grammar of command lines with modules.
ghost use Rattle.std.specs.Prelude.{◌≡◌, IfOk, codes, false};
ghost use Rattle.clap.specs.Words.{app_of, rule_of};
ghost use Rattle.asn1_relay_command.specs.Orders.{limit_rule, option_rule};
ghost use Rattle.asn1_module_order.specs.Orders.{check_app, flag_rule, module_rules, optional_rule, program_app};
ghost use Rattle.asn1_module_order.specs.Orders.{repeated_rule, route_app, stream_app, table_rules, translating_app};
ghost use Rattle.asn1_module_order.specs.Orders.{type_rules, types_app, version_rules, with_rules};

use clap::{Arg, ArgAction, Command, value_parser};
use std::alloc::{AllocError, Global};

/// An option with one value, which may be left out.
fn optional<'a>(alloc: Global, name: &'a str, help: &'a str) -> Arg<'a>
    ensures rule { rule_of result ≡ optional_rule name.entry.now }
    ensures local { result.global ≡ false }
{
    Arg::new(alloc, name).long(name).help(help)
}

/// A required option with one value.
fn option<'a>(alloc: Global, name: &'a str, help: &'a str) -> Arg<'a>
    ensures rule { rule_of result ≡ option_rule name.entry.now }
    ensures local { result.global ≡ false }
{
    optional(alloc, name, help).required(true)
}

/// A required option that may be repeated.
fn repeated<'a>(alloc: Global, name: &'a str, help: &'a str) -> Arg<'a>
    ensures rule { rule_of result ≡ repeated_rule name.entry.now }
    ensures local { result.global ≡ false }
{
    option(alloc, name, help).action(ArgAction::Append)
}

/// An option without a value.
fn flag<'a>(alloc: Global, name: &'a str, help: &'a str) -> Arg<'a>
    ensures rule { rule_of result ≡ flag_rule name.entry.now }
    ensures local { result.global ≡ false }
{
    Arg::new(alloc, name)
        .long(name)
        .action(ArgAction::SetTrue)
        .help(help)
}

/// The options that say which modules are read.
fn with_modules<'a>(alloc: Global, command: Command<'a>) -> Result<Command<'a>, AllocError>
    ensures { IfOk result (λ c. app_of c ≡ with_rules (app_of command.entry) module_rules) }
{
    let help = "a file of ASN.1 modules (X.680); may be repeated";
    command.arg(repeated(alloc, "module", help))
}

/// The options that say which modules are read for either version of a type.
fn with_versions<'a>(alloc: Global, command: Command<'a>) -> Result<Command<'a>, AllocError>
    ensures { IfOk result (λ c. app_of c ≡ with_rules (app_of command.entry) version_rules) }
{
    command
        .arg(repeated(
            alloc,
            "old",
            "a file of the ASN.1 modules (X.680) with the older version of the type; may be repeated",
        ))?
        .arg(repeated(
            alloc,
            "new",
            "a file of those with the newer version, which adds only after extension markers; may be repeated",
        ))
}

/// The options that say how modules are understood.
fn with_options<'a>(alloc: Global, command: Command<'a>) -> Result<Command<'a>, AllocError>
    ensures { IfOk result (λ c. app_of c ≡ with_rules (app_of command.entry) table_rules) }
{
    command
        .arg(optional(
            alloc,
            "open-types",
            "octets: what an open type holds is kept as it is encoded; else such messages are refused",
        ))?
        .arg(optional(
            alloc,
            "named-bits",
            "as-sent: zeros at the end of named bits without a fixed size are kept; else such types are refused",
        ))?
        .arg(optional(
            alloc,
            "times",
            "as-sent: UTCTime and GeneralizedTime are kept as they are sent; else such messages are refused",
        ))?
        .arg(flag(
            alloc,
            "required-additions",
            "additions that are not OPTIONAL must be there, also in messages of earlier senders",
        ))
}

/// The options that say which type is meant, and what the input is.
fn with_type<'a>(
    alloc: Global,
    command: Command<'a>,
    from: &'a str,
) -> Result<Command<'a>, AllocError>
    ensures { IfOk result (λ c. app_of c ≡ with_rules (app_of command.entry) type_rules) }
{
    with_options(alloc, command)?
        .arg(option(alloc, "type", "the type of a message: NAME, or MODULE.NAME"))?
        .arg(option(alloc, "from", from))?
        .arg(optional(
            alloc,
            "input",
            "the file of the input; standard input if left out",
        ))?
        .arg(flag(
            alloc,
            "hex",
            "octets are read and written as hexadecimal digits",
        ))
}

/// The option that says where the output goes.
fn output_option<'a>(alloc: Global) -> Arg<'a>
    ensures rule { rule_of result ≡ optional_rule (codes "output") }
    ensures local { result.global ≡ false }
{
    optional(
        alloc,
        "output",
        "the file of the output, made anew; standard output if left out",
    )
}

/// A command that translates.
fn translating<'a>(alloc: Global, name: &'a str, about: &'a str) -> Result<Command<'a>, AllocError>
    ensures { IfOk result (λ c. app_of c ≡ translating_app name.entry.now) }
{
    let command = Command::new(alloc, name).about(about);
    let from = "what the input is: uper, aper, uper-strict, aper-strict, oer, coer or json";
    with_type(alloc, with_modules(alloc, command)?, from)?
        .arg(option(
            alloc,
            "to",
            "what the output is: uper, aper, uper-strict, aper-strict, oer, coer or json",
        ))?
        .arg(output_option(alloc))?
        .arg(flag(alloc, "pretty", "JSON is laid out in lines"))
}

/// The rules of an input that is not JSON.
const RULES: &str = "the rules of the input: uper, aper, uper-strict, aper-strict, oer or coer";

/// The command that says whether a message is canonical.
fn checking<'a>(alloc: Global) -> Result<Command<'a>, AllocError>
    ensures { IfOk result (λ c. app_of c ≡ check_app) }
{
    let command = Command::new(alloc, "check").about(
        "Says whether a message, the whole input, is canonical, and if not, from which octet on",
    );
    with_type(alloc, with_modules(alloc, command)?, RULES)
}

/// The command that sends a message along a route.
fn routing<'a>(alloc: Global) -> Result<Command<'a>, AllocError>
    ensures { IfOk result (λ c. app_of c ≡ route_app) }
{
    let command = Command::new(alloc, "route").about(
        "Sends one message, the whole input, from hop to hop; each knows the older or the newer version of its type",
    );
    let routing = with_type(alloc, with_versions(alloc, command)?, RULES)?
        .arg(repeated(
            alloc,
            "hop",
            "VERSION:RULES of a hop: VERSION is old or new, RULES are those in which it writes; may be repeated",
        ))?
        .arg(output_option(alloc))?;
    Ok(routing.after_help(
        "Example: asn1_relay route --old cam-1.asn --new cam.asn --type CAM --from uper --hop old:uper --hop new:coer",
    ))
}

/// The command that lists types, or prints one.
fn listing<'a>(alloc: Global) -> Result<Command<'a>, AllocError>
    ensures { IfOk result (λ c. app_of c ≡ types_app) }
{
    let command = Command::new(alloc, "types").about(
        "Lists the types of ASN.1 modules, or prints one as it is understood",
    );
    with_options(alloc, with_modules(alloc, command)?)?.arg(optional(
        alloc,
        "type",
        "the type to be printed: NAME, or MODULE.NAME",
    ))
}

/// The option of a stream: how long a message may be.
fn limit_option<'a>(alloc: Global) -> Arg<'a>
    ensures rule { rule_of result ≡ limit_rule }
    ensures local { result.global ≡ false }
{
    option(
        alloc,
        "limit",
        "the maximum length of a message in octets, from 1 to 4294967295",
    )
    .value_parser(value_parser!(u32).range(1..))
}

/// The grammar of a command line with modules.
pub fn grammar<'a>(alloc: Global) -> Result<Command<'a>, AllocError>
    ensures { IfOk result (λ g. app_of g ≡ program_app) }
{
    let once = translating(
        alloc,
        "once",
        "Translates one message of a type of ASN.1 modules, the whole input",
    )?
    .after_help(
        "Example: asn1_relay once --module cam.asn --type CAM --from uper --to json --pretty --input message",
    );
    let stream = translating(
        alloc,
        "stream",
        "Translates a stream of messages of a type of ASN.1 modules; of JSON, one in each line",
    )?
    .arg(limit_option(alloc))?;
    Command::new(alloc, "asn1_relay")
        .about(
            "Translates messages of types of ASN.1 modules between encoding rules, and from and to JSON",
        )
        .subcommand_required(true)
        .subcommand(once)?
        .subcommand(stream)?
        .subcommand(checking(alloc)?)?
        .subcommand(routing(alloc)?)?
        .subcommand(listing(alloc)?)
}
