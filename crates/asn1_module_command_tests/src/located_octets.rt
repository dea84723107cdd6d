//! Where messages in OER and COER (X.696) are refused, by hand.
use crate::located::{PlaceRow, Rules, first_wrong_place};
use asn1_table_locating::first_difference;
use oer_codec_reading::EncodingRules;

const OER: Rules = Rules::Octets(EncodingRules::Oer);

const COER: Rules = Rules::Octets(EncodingRules::Coer);

/// A message of Cam; its value in parts: header, preamble and speed, two items, bitmap, group, more.
const CAM: [PlaceRow; 10] = [
    PlaceRow {
        name: "Cam",
        rules: OER,
        message: b"\x05\xFF\xC0\x0A\x01\x02\x80\x01\x41\x81\x03\x02\x06\xC0\x04\xC0\x01\xAA\x01\x02\x81\x02\x00",
        said: "read to 22",
    },
    PlaceRow {
        name: "Cam",
        rules: OER,
        message: b"\x05\xFF\xC0\x65\x01\x02\x80\x01\x41\x81\x03\x02\x06\xC0\x04\xC0\x01\xAA\x01\x02\x81\x02",
        said: "octet 3, in parameters.speed: a number is outside its value constraint",
    },
    PlaceRow {
        name: "Cam",
        rules: OER,
        message: b"\x05\xFF\xC0\x0A\x01\x02\x80\x01\x41\x81\x0B\x02\x06\xC0\x04\xC0\x01\xAA\x01\x02\x81\x02",
        said: "octet 10, in parameters.items[1].size: a number is outside its value constraint",
    },
    PlaceRow {
        name: "Cam",
        rules: OER,
        message: b"\x05\xFF\xC0\x0A\x01\x02\x80\x01\x41\x85\x03\x02\x06\xC0\x04\xC0\x01\xAA\x01\x02\x81\x02",
        said: "octet 9, in parameters.items[1]: the choice has no such alternative",
    },
    PlaceRow {
        name: "Cam",
        rules: OER,
        message: b"\x05\xFF\xC0\x0A\x01\x02\x80\x01\x41\x81\x03\x02\x06\xC0\x04\xC0\x01\xAA\x05\x02\x81\x02",
        said: "octet 18, in parameters.mode: the enumeration has no such item",
    },
    PlaceRow {
        name: "Cam",
        rules: OER,
        message: b"\x05\xFF\xC0\x0A\x01\x02\x80\x01\x41\x81\x03\x02\x06\xC0\x04\xC0\x01\xAA\x01\x03\x82\x01\x07",
        said: "octet 22, in parameters.more.extra: a number is outside its value constraint",
    },
    PlaceRow {
        name: "Cam",
        rules: OER,
        message: b"\x05\xFF\xC0\x0A\x01\x02\x80\x01\x41\x81\x03\x02\x06\xC0\x04\xC0\x01\xAA\x01\x02",
        said: "octet 19, in parameters.more: the input ends early",
    },
    PlaceRow {
        name: "Cam",
        rules: OER,
        message: b"\x05\xFF\xC0\x0A\x01\x02\x80\x01\x41\x81",
        said: "octet 10, in parameters.items[1].size: the input ends early",
    },
    PlaceRow {
        name: "Cam",
        rules: COER,
        message: b"\x05\xFF\xC0\x0A\x01\x02\x80\x01\x41\x81\x03\x02\x06\xC0\x04\xC0\x01\xAA\x01\x03\x81\x02\x00",
        said: "octet 22, in parameters.more: octets follow the value in an open type",
    },
    PlaceRow {
        name: "Cam",
        rules: OER,
        message: b"",
        said: "octet 0, in header.version: the input ends early",
    },
];

/// A default that is written (X.696 16), and an addition that is not there.
const OTHERS: [PlaceRow; 3] = [
    PlaceRow {
        name: "Usual",
        rules: OER,
        message: b"\x80\x07\xFF",
        said: "read to 3",
    },
    PlaceRow {
        name: "Usual",
        rules: COER,
        message: b"\x80\x07\xFF",
        said: "octet 1, in level: the encoding is not canonical",
    },
    PlaceRow {
        name: "Later",
        rules: OER,
        message: b"\x00\xFF",
        said: "octet 2, in next: a required addition is absent",
    },
];

#[test]
fn components(rt: HostRuntime) {
    assert_eq!(rt; first_wrong_place(rt.alloc(), &CAM), None);
}

#[test]
fn defaults_and_additions(rt: HostRuntime) {
    assert_eq!(rt; first_wrong_place(rt.alloc(), &OTHERS), None);
}

#[test]
fn differences(rt: HostRuntime) {
    assert_eq!(rt; first_difference(b"\x05\xFF", b"\x05\xFF"), None);
    assert_eq!(rt; first_difference(b"\x05\xFF", b"\x05\xFE\x00"), Some(1));
    assert_eq!(rt; first_difference(b"\x05\xFF\x00", b"\x05\xFF"), Some(2));
}
