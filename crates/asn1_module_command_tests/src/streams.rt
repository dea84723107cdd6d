//! Streams of messages of a type of a module.
use crate::common::{Row, SMALL, first_wrong, is_refused};
use std::alloc::Global;

/// The words of a stream of messages of one octet.
macro_rules! words {
    ($from:literal, $to:literal $(, $more:literal)*) => {
        &[
            "asn1_relay", "stream", "--module", "m.asn", "--type", "Small", "--from", $from, "--to", $to, "--limit",
            "1" $(, $more)*
        ]
    };
}

const STREAMS: [Row; 7] = [
    (words!("coer", "uper"), SMALL, b"\xFC\x05", b"\x10\xA0"),
    (words!("coer", "json"), SMALL, b"\xFC\x05", b"-4\n5\n"),
    (words!("uper", "json"), SMALL, b"", b""),
    (words!("json", "uper"), SMALL, b"5\n\n \n4", b"\xA0\x90"),
    (words!("json", "coer", "--hex"), SMALL, b"5\n4\n", b"0504\n"),
    (words!("coer", "uper", "--hex"), SMALL, b"FC 05", b"10A0\n"),
    (words!("json", "json"), SMALL, b"5\r\n0\n", b"5\n0\n"),
];

#[test]
fn streams(rt: HostRuntime) {
    assert!(rt; first_wrong(rt.alloc(), &STREAMS).is_none());
}

/// Words, the input, what is written before the error, and the error.
type Stopped = (
    &'static [&'static str],
    &'static [u8],
    &'static [u8],
    &'static str,
);

const STOPPED: [Stopped; 4] = [
    (
        words!("coer", "uper", "--hex"),
        b"FC06",
        b"10\n",
        "asn1_relay: message 1: no form\n",
    ),
    (
        words!("coer", "json"),
        b"\xFC\x06",
        b"-4\n",
        "asn1_relay: message 1: no form: octet 0: a number is outside its value constraint\n",
    ),
    (
        words!("json", "coer"),
        b"5\n\"\n4\n",
        b"\x05",
        "asn1_relay: message 1: octet 0: the text is not JSON\n",
    ),
    (
        words!("json", "coer"),
        b"5\n44\n",
        b"\x05",
        "asn1_relay: message 1: none within the limit\n",
    ),
];

/// The index of the first row whose stream does not stop so.
fn first_unstopped(alloc: Global, rows: &[Stopped]) -> Option<usize> {
    for index in 0..rows.len() {
        let (words, input, written, said) = rows[index];
        if !is_refused(alloc, words, SMALL, input, written, said) {
            return Some(index);
        }
    }
    None
}

#[test]
fn stopped_streams(rt: HostRuntime) {
    assert!(rt; first_unstopped(rt.alloc(), &STOPPED).is_none());
}
