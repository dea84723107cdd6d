//! One message of a type of a module. The octets in UPER are those of asn1c 0.9.28, those in COER were worked out by
//! hand.
use crate::common::{Row, SMALL, VEHICLE, first_wrong, is_refused};
use std::alloc::Global;

const JSON: &[u8] = b"{\"station\":1234567,\"kind\":\"bus\",\
    \"position\":{\"latitude\":48777077,\"longitude\":9179430,\"altitude\":243},\
    \"motion\":{\"speed\":1389,\"heading\":2703,\"turning\":{\"rate\":-12}},\"lights\":\"90\",\
    \"path\":[{\"latitude\":48777000,\"longitude\":9179000}],\"note\":\"Line 42\"}\n";

const UPER: &[u8] = b"\
    C004B5A1DE11647D568D4C4C26D8ADB51F7FF390A11646A168D48F0020E3CCD3BB2A068C80\n";

const COER: &[u8] = b"\
    C00012D687038002E84775008C112600F3056D0A8F81FFF49001010002E84728008C0F7802078008074C696E65203432\n";

/// The words of a translation of an `Awareness`, its octets as hexadecimal digits.
macro_rules! hexadecimal {
    ($from:literal, $to:literal) => {
        &[
            "asn1_relay", "once", "--module", "m.asn", "--type", "Vehicle.Awareness", "--from", $from, "--to", $to,
            "--hex",
        ]
    };
}

const VEHICLES: [Row; 6] = [
    (hexadecimal!("uper", "json"), VEHICLE, UPER, JSON),
    (hexadecimal!("coer", "json"), VEHICLE, COER, JSON),
    (hexadecimal!("json", "uper"), VEHICLE, JSON, UPER),
    (hexadecimal!("json", "coer"), VEHICLE, JSON, COER),
    (hexadecimal!("uper", "coer"), VEHICLE, UPER, COER),
    (hexadecimal!("coer", "uper-strict"), VEHICLE, COER, UPER),
];

#[test]
fn vehicles(rt: HostRuntime) {
    assert!(rt; first_wrong(rt.alloc(), &VEHICLES).is_none());
}

/// The words of a translation of a `Small`.
macro_rules! small {
    ($from:literal, $to:literal $(, $more:literal)*) => {
        &["asn1_relay", "once", "--module=m.asn", "--type", "Small", "--from", $from, "--to", $to $(, $more)*]
    };
}

const SMALLS: [Row; 6] = [
    (small!("coer", "uper"), SMALL, b"\xFC", b"\x10"),
    (small!("uper", "json"), SMALL, b"\x10", b"-4\n"),
    (small!("json", "oer"), SMALL, b" -4 ", b"\xFC"),
    (small!("json", "json", "--pretty"), SMALL, b"5", b"5\n"),
    (
        small!("coer", "aper", "--hex"),
        SMALL,
        b" f\nC\r\n",
        b"10\n",
    ),
    (small!("json", "uper", "--hex"), SMALL, b"-4", b"10\n"),
];

/// An extensible SEQUENCE with a group of additions.
const ADDED: &str = "M DEFINITIONS AUTOMATIC TAGS ::= BEGIN Small ::= SEQUENCE {a INTEGER (0..7), \
    b BOOLEAN DEFAULT TRUE, ..., [[c OCTET STRING OPTIONAL]]} END";

/// A SET, whose components are in the order of their tags.
const ORDERED: &str = "M DEFINITIONS ::= BEGIN Small ::= SET {b [1] BOOLEAN, a INTEGER (-5..5), \
    c [APPLICATION 0] NULL} END";

/// A CHOICE that contains itself.
const NESTED: &str = "M DEFINITIONS ::= BEGIN Small ::= CHOICE {b [1] Small, \
    a [0] IA5String (FROM (\"a\"..\"d\")) (SIZE (1..4))} END";

/// A SEQUENCE whose first component has a default with components.
const DEFAULTED: &str =
    "M DEFINITIONS AUTOMATIC TAGS ::= BEGIN Small ::= SEQUENCE {a SET {n INTEGER (0..3), \
    f BOOLEAN DEFAULT TRUE} DEFAULT {f TRUE, n 2}, b BOOLEAN} END";

/// Messages of these, all by hand.
const CONSTRUCTED: [Row; 4] = [
    (
        small!("coer", "uper"),
        ADDED,
        b"\xC0\x05\x00\x02\x07\x80\x03\x80\x01\xAA",
        b"\xE8\x04\x0E\x03\x54\x00",
    ),
    (small!("coer", "uper"), ORDERED, b"\xFC\xFF", b"\x18"),
    (
        small!("coer", "uper"),
        NESTED,
        b"\x81\x80\x02\x61\x64",
        b"\x93",
    ),
    (small!("coer", "uper"), DEFAULTED, b"\x00\xFF", b"\x40"),
];

/// Two characters that take four octets: their number has no effect on the encoding (X.696 27).
const TEXT: &str = "M DEFINITIONS ::= BEGIN Small ::= UTF8String (SIZE (2)) END";

const TEXTS: [Row; 2] = [
    (
        small!("coer", "json"),
        TEXT,
        b"\x04\xC3\xA4\xC3\xB6",
        b"\"\xC3\xA4\xC3\xB6\"\n",
    ),
    (
        small!("json", "uper"),
        TEXT,
        b"\"\xC3\xA4\xC3\xB6\"",
        b"\x04\xC3\xA4\xC3\xB6",
    ),
];

#[test]
fn texts(rt: HostRuntime) {
    assert!(rt; first_wrong(rt.alloc(), &TEXTS).is_none());
}

#[test]
fn small_messages(rt: HostRuntime) {
    assert!(rt; first_wrong(rt.alloc(), &SMALLS).is_none());
    assert!(rt; first_wrong(rt.alloc(), &CONSTRUCTED).is_none());
}

/// A list of fields, each of which holds a value of the type that its number stands for (X.681, X.683).
const CONTAINER: &str = "M DEFINITIONS AUTOMATIC TAGS ::= BEGIN
    FIELDS ::= CLASS { &id Number UNIQUE, &Value } WITH SYNTAX { ID &id TYPE &Value }
    Number ::= INTEGER (0..65535)
    Known FIELDS ::= { { ID 1 TYPE BOOLEAN }, ... }
    Message ::= SEQUENCE { fields Container {{Known}}, ... }
    Container {FIELDS : Set} ::= SEQUENCE (SIZE (0..3)) OF Field {{Set}}
    Field {FIELDS : Set} ::= SEQUENCE { id FIELDS.&id ({Set}), value FIELDS.&Value ({Set}{@id}) }
    END";

/// The words of a translation of a `Message`, its octets as hexadecimal digits.
macro_rules! container {
    ($from:literal, $to:literal $(, $more:literal)*) => {
        &[
            "asn1_relay", "once", "--module=m.asn", "--type", "Message", "--from", $from, "--to", $to, "--hex"
            $(, $more)*
        ]
    };
}

/// An open type holds 80, TRUE in UPER and APER; in APER `id` and it begin at octets.
const CONTAINERS: [Row; 4] = [
    (
        container!("aper", "uper", "--open-types", "octets"),
        CONTAINER,
        b"2000010180",
        b"2000203000\n",
    ),
    (
        container!("uper", "coer", "--open-types=octets"),
        CONTAINER,
        b"2000203000",
        b"00010100010180\n",
    ),
    (
        container!("coer", "json", "--open-types=octets"),
        CONTAINER,
        b"00010100010180",
        b"{\"fields\":[{\"id\":1,\"value\":\"80\"}]}\n",
    ),
    (container!("aper", "coer"), CONTAINER, b"00", b"000100\n"),
];

#[test]
fn open_types(rt: HostRuntime) {
    assert!(rt; first_wrong(rt.alloc(), &CONTAINERS).is_none());
    assert!(rt;
        is_refused(
            rt.alloc(),
            container!("aper", "coer"),
            CONTAINER,
            b"2000010180",
            b"",
            "asn1_relay: not an encoding: octet 3, bit 0, in fields[0].value: the type is not supported\n"
        )
    );
}

/// Words, the module, the input, and the error.
type Refused = (
    &'static [&'static str],
    &'static str,
    &'static [u8],
    &'static str,
);

const REFUSED: [Refused; 10] = [
    (
        small!("coer", "uper"),
        SMALL,
        b"",
        "asn1_relay: not an encoding: octet 0: the input ends early\n",
    ),
    (
        small!("coer", "uper"),
        SMALL,
        b"\xFC\x00",
        "asn1_relay: surplus octets: from octet 1 on\n",
    ),
    (
        small!("coer", "json"),
        SMALL,
        b"\x06",
        "asn1_relay: not an encoding: octet 0: a number is outside its value constraint\n",
    ),
    (
        small!("uper", "coer"),
        SMALL,
        b"\xB0",
        "asn1_relay: not an encoding: octet 0, bit 0: a number is outside its value constraint\n",
    ),
    (
        small!("coer", "json"),
        SMALL,
        b"\x05\x00",
        "asn1_relay: surplus octets: from octet 1 on\n",
    ),
    // Of the UPER octets above: the station takes bits 2 to 33, the kind 3 more, and `altitude` is there.
    (
        hexadecimal!("uper", "json"),
        VEHICLE,
        b"C004B5A1",
        "asn1_relay: not an encoding: octet 0, bit 2, in station: the input ends early\n",
    ),
    (
        hexadecimal!("uper", "coer"),
        VEHICLE,
        b"C004B5A1DE",
        "asn1_relay: not an encoding: octet 4, bit 6, in position.latitude: the input ends early\n",
    ),
    (
        small!("json", "uper"),
        SMALL,
        b"6",
        "asn1_relay: octet 0: the value is outside a constraint\n",
    ),
    (
        small!("json", "uper"),
        SMALL,
        b"\xFF",
        "asn1_relay: octet 0: the text is not JSON\n",
    ),
    (
        small!("uper", "json", "--hex"),
        SMALL,
        b"1",
        "asn1_relay: the input is not hexadecimal\n",
    ),
];

/// The index of the first row whose input is not refused with its error.
fn first_accepted(alloc: Global, rows: &[Refused]) -> Option<usize> {
    for index in 0..rows.len() {
        let (words, module, input, said) = rows[index];
        if !is_refused(alloc, words, module, input, b"", said) {
            return Some(index);
        }
    }
    None
}

#[test]
fn refused_messages(rt: HostRuntime) {
    assert!(rt; first_accepted(rt.alloc(), &REFUSED).is_none());
}

/// The words of a check of a `Small`.
macro_rules! check {
    ($from:literal $(, $more:literal)*) => {
        &["asn1_relay", "check", "--module", "m.asn", "--type", "M.Small", "--from", $from $(, $more)*]
    };
}

const CANONICAL: [Row; 3] = [
    (check!("coer"), SMALL, b"\xFC", b"canonical\n"),
    (check!("aper"), SMALL, b"\x10", b"canonical\n"),
    (check!("uper", "--hex"), SMALL, b"10", b"canonical\n"),
];

#[test]
fn canonical_messages(rt: HostRuntime) {
    assert!(rt; first_wrong(rt.alloc(), &CANONICAL).is_none());
}

const NOT_CANONICAL: [Refused; 2] = [
    (
        check!("uper"),
        SMALL,
        b"\x11",
        "asn1_relay: not canonical from octet 0 on: octet 0, bit 4: padding bits are not zero\n",
    ),
    (
        check!("uper"),
        SMALL,
        b"\xB0",
        "asn1_relay: not an encoding: octet 0, bit 0: a number is outside its value constraint\n",
    ),
];

#[test]
fn other_messages(rt: HostRuntime) {
    assert!(rt; first_accepted(rt.alloc(), &NOT_CANONICAL).is_none());
}
