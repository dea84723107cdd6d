//! Calls of the command's parts: its arguments, its lines, and what it was requested to do.
use crate::assertions::assert_same;
use crate::fakes::{FakeReader, FakeWriter};
use asn1_relay_command::{
    Fault, HopFault, Kind, Order, Translation, command, read_order, refuse_arguments, translate_all,
};
use asn1_relay_core::{
    Codec, DecodeError, EncodeError, RecodeFault, RelayFault, RelayFaultKind, RunFault,
};
use std::alloc::Global;
use std::io::{Error, ErrorKind, Write};
use std::str;

/// Whether an error ends the program with this status and this text; without a `line`, any text that is not empty.
fn is_refused(kind: ErrorKind, status: u8, line: Option<&str>) -> bool {
    let mut errors = FakeWriter::new();
    let found = refuse_arguments(&Error::from(kind), &mut errors);
    let is_written = match line {
        Some(line) => errors.holds(line.as_bytes()),
        None => !errors.holds(&[]),
    };
    found == status && is_written
}

#[test]
fn arguments_that_cannot_be_had(rt: HostRuntime) {
    let no_memory = Some("asn1_relay: out of memory\n");
    assert!(rt;
        is_refused(ErrorKind::OutOfMemory, 1, no_memory)
            && is_refused(ErrorKind::InvalidData, 2, None)
    );
}

/// Whether a text contains a word.
fn names(text: &[u8], word: &str) -> bool {
    for place in 0..text.len() {
        if text[place..].starts_with(word.as_bytes()) {
            return true;
        }
    }
    false
}

/// Whether octets are text that names each command.
fn names_commands(text: &[u8]) -> bool {
    str::from_utf8(text).is_ok()
        && names(text, "once")
        && names(text, "stream")
        && names(text, "route")
}

/// Whether the help text of the program names each command.
fn help_is_whole(alloc: Global) -> bool {
    let mut input = FakeReader::new("");
    let mut output = FakeWriter::new();
    let mut errors = Vec::new(alloc);
    let words = ["asn1_relay", "--help"];
    let status = command(alloc, &words, &mut input, &mut output, &mut errors);
    names_commands(errors.as_slice()) && status == 2
}

#[test]
fn help(rt: HostRuntime) {
    // at most one request is refused
    assert!(rt; help_is_whole(rt.alloc()) || help_is_whole(rt.alloc()));
}

/// An error of a stream at a message.
macro_rules! at_message {
    ($number:expr, $kind:ident) => {
        Fault::AtMessage(RelayFault {
            number: $number,
            kind: RelayFaultKind::$kind,
        })
    };
}

/// An error at hop 10 of a route.
macro_rules! at_hop_10 {
    ($kind:ident) => {
        Fault::AtHop(10, HopFault::$kind)
    };
}

/// Errors and their lines, after the program's name.
const LINES: [(Fault, &'static str); 16] = [
    (Fault::NotAnEncoding, "not an encoding"),
    (Fault::SurplusOctets, "surplus octets"),
    (Fault::NoTargetEncoding, "no target encoding"),
    (Fault::OutOfMemory, "out of memory"),
    (Fault::ReadFailed, "read failed"),
    (Fault::WriteFailed, "write failed"),
    (
        at_message!(u64::MAX, NoneWithinLimit),
        "message 18446744073709551615: none within the limit",
    ),
    (at_message!(0, EmptyMessage), "message 0: empty message"),
    (at_message!(10, NoTarget), "message 10: no target encoding"),
    (at_message!(1, Memory), "message 1: out of memory"),
    (at_message!(2, NoForm), "message 2: no form"),
    (at_message!(3, AlreadyFailed), "message 3: stopped before"),
    (at_hop_10!(NotAnEncoding), "hop 10: not an encoding"),
    (at_hop_10!(SurplusOctets), "hop 10: surplus octets"),
    (at_hop_10!(NoTargetEncoding), "hop 10: no target encoding"),
    (at_hop_10!(OutOfMemory), "hop 10: out of memory"),
];

/// Whether the line of an error is the program's name and this text.
fn is_said(fault: Fault, text: &str) -> bool {
    let mut written = FakeWriter::new();
    let mut shown = FakeWriter::new();
    let mut wanted = FakeWriter::new();
    fault.write_line(&mut written).is_ok()
        && writeln!(shown, "asn1_relay: {fault}").is_ok()
        && writeln!(wanted, "asn1_relay: {text}").is_ok()
        && written.holds(wanted.octets())
        && shown.holds(wanted.octets())
}

/// The first error whose line is wrong.
fn wrong_line() -> Option<&'static str> {
    for (fault, text) in LINES {
        if !is_said(fault, text) {
            return Some(text);
        }
    }
    None
}

#[test]
fn lines(rt: HostRuntime) {
    assert_same(&rt, &wrong_line(), &None);
}

/// The program's error for each error of a translation and of a run.
fn made_of_faults(at: RelayFault) -> [Fault; 8] {
    [
        Fault::from(RecodeFault::NotAnEncoding(DecodeError::Incomplete)),
        Fault::from(RecodeFault::Surplus),
        Fault::from(RecodeFault::NoTarget(EncodeError::TooLongValue)),
        Fault::from(RecodeFault::Memory),
        Fault::from(RunFault::Read),
        Fault::from(RunFault::Write),
        Fault::from(RunFault::Relay(at)),
        Fault::from(RunFault::Memory),
    ]
}

#[test]
fn faults_of_translations_and_runs(rt: HostRuntime) {
    let at = RelayFault {
        number: 1,
        kind: RelayFaultKind::NoForm,
    };
    let wanted = [
        Fault::NotAnEncoding,
        Fault::SurplusOctets,
        Fault::NoTargetEncoding,
        Fault::OutOfMemory,
        Fault::ReadFailed,
        Fault::WriteFailed,
        Fault::AtMessage(at),
        Fault::OutOfMemory,
    ];
    assert_same(&rt, &made_of_faults(at), &wanted);
}

/// From UPER to COER, for booleans.
const TRUTHS: Translation = Translation {
    from: Codec::Uper,
    to: Codec::Coer,
    kind: Kind::Bool,
};

/// Whether words request this.
fn asks(alloc: Global, words: &[&str], wanted: &Order) -> bool {
    match read_order(alloc, words) {
        Ok(order) => order == *wanted,
        Err(_) => false,
    }
}

/// Whether words request this, at the second try at the latest: at most one request for memory is refused.
fn asks_for(alloc: Global, words: &[&str], wanted: &Order) -> bool {
    asks(alloc, words, wanted) || asks(alloc, words, wanted)
}

/// Whether words request a message and a stream.
fn are_asked_for(alloc: Global) -> bool {
    let (rules, limit) = (["--to=coer", "--from=uper"], "--limit=4294967295");
    let once = ["relay", "once", "--type=bool", rules[0], rules[1]];
    let stream = ["relay", "stream", "--type=bool", rules[0], rules[1], limit];
    let of_truths = Order::Stream {
        translation: TRUTHS,
        limit: u32::MAX,
    };
    asks_for(alloc, &once, &Order::Once(TRUTHS)) && asks_for(alloc, &stream, &of_truths)
}

/// Whether TRUE is translated.
fn is_true_translated(alloc: Global) -> Result<bool, Fault> {
    let octets = translate_all(alloc, TRUTHS, &[0x80])?;
    Ok(octets.as_slice() == [0xFF].as_slice())
}

#[test]
fn orders(rt: HostRuntime) {
    assert!(rt; are_asked_for(rt.alloc()));
    let mut answer = is_true_translated(rt.alloc());
    // at most one request is refused
    if answer == Err(Fault::OutOfMemory) {
        answer = is_true_translated(rt.alloc());
    }
    assert_same(&rt, &answer, &Ok(true));
}
