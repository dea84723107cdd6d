//! Modules in which something is wrong, and command lines.
use crate::common::{Row, SMALL, first_wrong, is_refused};
use asn1_module_order::{Action, Extent, Form, has_module_command, names_modules, read_order};
use asn1_notation_types::{Additions, NamedBits, OpenTypes, Times};
use asn1_relay_core::Codec;
use clap::error::ErrorKind;
use std::alloc::Global;

const WORDS: [&str; 10] = [
    "asn1_relay",
    "once",
    "--module",
    "m.asn",
    "--type",
    "T",
    "--from",
    "coer",
    "--to",
    "uper",
];

/// The text of a module, and what is said of it.
const MODULES: [(&str, &str); 6] = [
    (
        "M DEFINITIONS ::= BEGIN Tt ::= NULL END",
        "asn1_relay: no such type\n",
    ),
    (
        "M DEFINITIONS ::= BEGIN\nT ::= SEQUENCE { a Abcde } Abcdf ::= NULL END",
        "m.asn:2:20: no such type; did you mean `Abcdf`?\n\
         T ::= SEQUENCE { a Abcde } Abcdf ::= NULL END\n                   ^\n",
    ),
    (
        "M DEFINITIONS ::= BEGIN\n\tT ::= SEQUENCE { a A }\nEND\n",
        "m.asn:2:21: no such type\n\tT ::= SEQUENCE { a A }\n\t                   ^\n",
    ),
    (
        "M DEFINITIONS ::= BEGIN T ::= END",
        "m.asn:1:31: expected a type, found END\nM DEFINITIONS ::= BEGIN T ::= END\n                              ^\n",
    ),
    (
        "M DEFINITIONS ::= BEGIN -- \u{E9} -- T ::= 5a END",
        "m.asn:1:39: expected a type, found 5\nM DEFINITIONS ::= BEGIN -- \u{E9} -- T ::= 5a END\n\
         \u{20}                                     ^\n",
    ),
    (
        "",
        "m.asn:1:1: expected a module, found the end of the text\n\n^\n",
    ),
];

/// The index of the first row of whose module something else is said.
fn first_unlike(alloc: Global, rows: &[(&str, &str)]) -> Option<usize> {
    for index in 0..rows.len() {
        let (module, said) = rows[index];
        if !is_refused(alloc, &WORDS, module, b"", b"", said) {
            return Some(index);
        }
    }
    None
}

#[test]
fn wrong_modules(rt: HostRuntime) {
    assert!(rt; first_unlike(rt.alloc(), &MODULES).is_none());
}

/// Whether a command line is not understood.
fn is_bad(alloc: Global, words: &[&str]) -> bool {
    match read_order(alloc, words) {
        Ok(_) => false,
        Err(error) => error.kind() != ErrorKind::OutOfMemory,
    }
}

/// A line with each option of a stream.
const STREAM: [&str; 26] = [
    "asn1_relay",
    "stream",
    "--module",
    "a",
    "--module",
    "b",
    "--type",
    "M.T",
    "--from",
    "json",
    "--to",
    "aper-strict",
    "--limit",
    "9",
    "--required-additions",
    "--open-types",
    "octets",
    "--named-bits",
    "as-sent",
    "--times",
    "as-sent",
    "--hex",
    "--input",
    "in",
    "--output",
    "out",
];

/// Whether an option has this value.
fn has(option: &Option<String>, value: &str) -> bool {
    match option {
        Some(text) => text.as_str() == value,
        None => false,
    }
}

/// Whether a line with each option is understood.
fn takes_options(alloc: Global) -> bool {
    let Ok(order) = read_order(alloc, &STREAM) else {
        return false;
    };
    let is_right = match &order.action {
        Action::Translate(translation) => {
            translation.extent == Extent::Stream { limit: 9 }
                && translation.from == Form::Json
                && translation.to == Form::Rules(Codec::AperStrict)
                && translation.is_hexadecimal
        }
        _ => false,
    };
    is_right
        && order.modules.len() == 2
        && order.options.additions == Additions::AreRequired
        && order.options.open_types == OpenTypes::AreOctets
        && order.options.named_bits == NamedBits::AreAsSent
        && order.options.times == Times::AreAsSent
        && has(&order.input, "in")
        && has(&order.output, "out")
}

const LISTED: [Row; 1] = [(
    &["asn1_relay", "types", "--module", "m.asn"],
    SMALL,
    b"",
    b"M.Small\n",
)];

#[test]
fn lists(rt: HostRuntime) {
    assert!(rt; first_wrong(rt.alloc(), &LISTED).is_none());
}

#[test]
fn command_lines(rt: HostRuntime) {
    assert!(rt; names_modules(&WORDS) && names_modules(&["p", "--module=m"]));
    assert!(rt; names_modules(&["p", "route", "--old", "m"]) && names_modules(&["p", "--new=m"]));
    assert!(rt; !names_modules(&["p", "once", "--type", "small"]));
    assert!(rt;
        has_module_command(&["p", "types", "--help"]) && has_module_command(&["p", "check"])
    );
    assert!(rt; !has_module_command(&["p", "once", "types"]) && !has_module_command(&["p"]));
    assert!(rt; takes_options(rt.alloc()));
    assert!(rt;
        is_bad(
            rt.alloc(),
            &[
                "p", "once", "--module", "m", "--type", "T", "--from", "coer", "--to", "xer"
            ]
        )
    );
    assert!(rt;
        is_bad(
            rt.alloc(),
            &[
                "p", "once", "--module", "m", "--from", "coer", "--to", "uper"
            ]
        )
    );
    assert!(rt;
        is_bad(
            rt.alloc(),
            &[
                "p", "stream", "--module", "m", "--type", "T", "--from", "coer", "--to", "oer"
            ]
        )
    );
    assert!(rt;
        is_bad(
            rt.alloc(),
            &[
                "p", "route", "--old", "m", "--new", "n", "--type", "T", "--from", "coer", "--hop",
                "coer"
            ]
        )
    );
}
