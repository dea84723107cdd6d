//! A message over hops with two versions of a type. All octets were worked out by hand.
use crate::common::{Routed, first_astray};

/// The words of a route.
macro_rules! route {
    ($from:literal, [$($hop:literal),*] $(, $more:literal)*) => {
        &[
            "asn1_relay", "route", "--old", "old.asn", "--new=new.asn", "--type", "M.T", "--from", $from
            $(, "--hop", $hop)* $(, $more)*
        ]
    };
}

/// A module with automatic tags and these assignments.
macro_rules! module {
    ($assignments:literal) => {
        concat!("M DEFINITIONS AUTOMATIC TAGS ::= BEGIN ", $assignments, " END")
    };
}

const OLD: &str = module!("T ::= SEQUENCE { a BOOLEAN, ... }");

const NEW: &str = module!("T ::= SEQUENCE { a BOOLEAN, ..., b INTEGER (0..255) OPTIONAL }");

/// The value {a TRUE, b 5} has in UPER the bits 1 1 0000000 1 00000001 00000101: an extension, `a`, one addition,
/// which is there, its length and itself.
const SENT: [Routed; 8] = [
    (
        route!("uper", ["new:coer"]),
        NEW,
        OLD,
        b"\xC0\x40\x41\x40",
        b"\x80\xFF\x02\x07\x80\x01\x05",
        "",
    ),
    (
        route!("uper", ["old:uper", "new:coer"]),
        NEW,
        OLD,
        b"\xC0\x40\x41\x40",
        b"\x00\xFF",
        "",
    ),
    (
        route!("coer", ["new:uper", "old:oer"], "--hex"),
        NEW,
        OLD,
        b"80 FF 02 07 80 01 05",
        b"00FF\n",
        "",
    ),
    (
        route!("uper", ["old:uper"]),
        NEW,
        OLD,
        b"",
        b"",
        "asn1_relay: hop 0: not an encoding\n",
    ),
    (
        route!("uper", ["old:uper"]),
        NEW,
        OLD,
        b"\x40\x00",
        b"",
        "asn1_relay: hop 0: surplus octets\n",
    ),
    (
        route!("uper", ["old:uper", "new:coer"], "--required-additions"),
        module!("T ::= SEQUENCE { a BOOLEAN, ..., r BOOLEAN }"),
        OLD,
        b"\x40",
        b"",
        "asn1_relay: hop 1: not an encoding\n",
    ),
    (
        route!("uper", ["old:uper", "new:coer"]),
        module!("T ::= SEQUENCE { a BOOLEAN, ..., r BOOLEAN }"),
        OLD,
        b"\x40",
        b"\x00\xFF",
        "",
    ),
    (
        route!("uper", ["old:uper"], "--hex"),
        NEW,
        OLD,
        b"4",
        b"",
        "asn1_relay: the input is not hexadecimal\n",
    ),
];

#[test]
fn messages(rt: HostRuntime) {
    assert!(rt; first_astray(rt.alloc(), &SENT).is_none());
}

/// The words of a route of one hop.
const WORDS: &[&str] = route!("uper", ["old:uper"]);

/// Types of which one does not extend the other.
const OTHERS: [Routed; 7] = [
    (
        WORDS,
        module!("T ::= NULL"),
        OLD,
        b"",
        b"",
        "asn1_relay: T does not extend the older T: the kinds differ\n",
    ),
    (
        WORDS,
        module!("T ::= SEQUENCE { p P } P ::= SEQUENCE { x INTEGER (0..9) }"),
        module!("T ::= SEQUENCE { q P } P ::= SEQUENCE { x INTEGER (0..8) }"),
        b"",
        b"",
        "asn1_relay: T.p.x does not extend the older T.q.x: the value constraints differ\n",
    ),
    (
        WORDS,
        module!("T ::= SEQUENCE { p P } P ::= SEQUENCE { x NULL, y NULL }"),
        module!("T ::= SEQUENCE { p P } P ::= SEQUENCE { x NULL }"),
        b"",
        b"",
        "asn1_relay: T.p (P) does not extend the older T.p (P): \
         a component is added elsewhere than after an extension marker\n",
    ),
    (
        WORDS,
        module!("T ::= SEQUENCE OF CHOICE { a NULL, ..., b SEQUENCE { ..., [[ c BOOLEAN ]] } }"),
        module!("T ::= SEQUENCE OF CHOICE { a NULL, ..., b SEQUENCE { ..., [[ c NULL ]] } }"),
        b"",
        b"",
        "asn1_relay: T[0].b.c does not extend the older T[0].b.c: the kinds differ\n",
    ),
    (
        WORDS,
        module!("T ::= SEQUENCE { x REAL, y REAL }"),
        module!("T ::= SEQUENCE { x REAL, y NULL }"),
        b"",
        b"",
        "asn1_relay: a type without values does not extend the older T.y: one of the types is not there\n",
    ),
    (
        WORDS,
        NEW,
        "M DEFINITIONS ::= BEGIN Tt ::= NULL END",
        b"",
        b"",
        "asn1_relay: the older modules: no such type\n",
    ),
    (
        WORDS,
        NEW,
        "M DEFINITIONS ::= BEGIN T ::= SEQUENCE { a A } END",
        b"",
        b"",
        "old.asn:1:44: no such type\nM DEFINITIONS ::= BEGIN T ::= SEQUENCE { a A } END\n\
         \u{20}                                          ^\n",
    ),
];

#[test]
fn other_types(rt: HostRuntime) {
    assert!(rt; first_astray(rt.alloc(), &OTHERS).is_none());
}
