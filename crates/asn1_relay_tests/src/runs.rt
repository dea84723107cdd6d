//! Runs of the command, one per row.
use crate::assertions::assert_same;
use crate::fakes::{FakeReader, FakeWriter, Octets};
use asn1_relay_command::command;
use std::alloc::{AllocError, Global};
use std::io::Write;

/// A run of the command. A row gives its parts, separated by bars; the last ones may be absent.
#[derive(Clone, Copy)]
struct Run<'a> {
    /// The words after the program's name, `''` for an empty one; `-` is a command line without that name.
    words: &'a str,
    /// What each read does.
    reads: &'a str,
    /// The octets that are written.
    output: &'a str,
    /// The error line after the program's name; empty if nothing is wrong, and `usage` if the words request nothing
    /// that the program can do.
    line: &'a str,
    /// The number of octets of the output that can be written, one at a time, and `unflushed` if they cannot be
    /// flushed. If empty, all can be written at once.
    writes: &'a str,
    /// The number of octets of the error that can be written, one at a time; all if absent.
    errors: &'a str,
}

impl<'a> Run<'a> {
    /// The run of a row.
    fn of(row: &'a str) -> Run<'a> {
        let mut parts = row.split('|');
        Run {
            words: parts.next().unwrap_or("").trim(),
            reads: parts.next().unwrap_or("").trim(),
            output: parts.next().unwrap_or("").trim(),
            line: parts.next().unwrap_or("").trim(),
            writes: parts.next().unwrap_or("").trim(),
            errors: parts.next().unwrap_or("4294967295").trim(),
        }
    }

    /// The exit status.
    fn status(&self) -> u8 {
        match self.line {
            "" => 0,
            "usage" => 2,
            _ => 1,
        }
    }

    /// Whether an error is this line, or as much of it as can be written.
    fn holds_line(&self, errors: &FakeWriter, line: &str) -> bool {
        let mut wanted = FakeWriter::failing(self.errors);
        let _ = writeln!(wanted, "asn1_relay: {line}");
        errors.holds(wanted.octets())
    }

    /// Whether an error is an out-of-memory line of the program or of a hop of a route, or as much of it as can be
    /// written.
    fn lacks_memory(&self, errors: &FakeWriter) -> bool {
        self.holds_line(errors, "out of memory")
            || self.holds_line(errors, "hop 0: out of memory")
            || self.holds_line(errors, "hop 1: out of memory")
            || self.holds_line(errors, "hop 2: out of memory")
    }

    /// Whether the error text is as the row says. The usage of the program may be any text.
    fn errors_are_right(&self, errors: &FakeWriter) -> bool {
        match self.line {
            "" => errors.holds(&[]),
            "usage" => self.errors == "0" || !errors.holds(&[]),
            line => self.holds_line(errors, line),
        }
    }

    /// Whether an allocation failed, and no more was written than may be: in a stream, the messages before.
    fn is_refused(&self, status: u8, output: &FakeWriter, errors: &FakeWriter) -> bool {
        let is_begun = self.words.starts_with("stream");
        status == 1
            && self.lacks_memory(errors)
            && (output.holds(&[])
                || is_begun && Octets::of(self.output).all().starts_with(output.octets()))
    }

    /// Whether everything is as the row says.
    fn is_right(
        &self,
        status: u8,
        input: &FakeReader<'_>,
        output: &FakeWriter,
        errors: &FakeWriter,
    ) -> bool {
        status == self.status()
            && output.holds(Octets::of(self.output).all())
            && self.errors_are_right(errors)
            && (status != 0 || output.is_flushed)
            && (status != 2 || input.is_unread())
    }
}

/// A word; `''` is an empty one.
fn word_of(word: &str) -> &str {
    if word == "''" { "" } else { word }
}

/// Adds the program's name, and the words after it.
fn push_words<'a>(words: &mut Vec<&'a str>, text: &'a str) -> Result<(), AllocError> {
    words.push("asn1_relay")?;
    for word in text.split_whitespace() {
        words.push(word_of(word))?;
    }
    Ok(())
}

/// The words of a command line.
fn words_of(alloc: Global, text: &str) -> Result<Vec<&str>, AllocError> {
    let mut words = Vec::new(alloc);
    if text != "-" {
        push_words(&mut words, text)?;
    }
    Ok(words)
}

/// The exit status of a run.
fn status_of(
    alloc: Global,
    text: &str,
    input: &mut FakeReader<'_>,
    output: &mut FakeWriter,
    errors: &mut FakeWriter,
) -> Result<u8, AllocError> {
    let words = words_of(alloc, text)?;
    Ok(command(alloc, words.as_slice(), input, output, errors))
}

/// The outcome of a run.
#[derive(Clone, Copy, PartialEq, Eq)]
enum Outcome {
    Right,
    Wrong,
    /// An allocation failed.
    Refused,
}

/// Does a run.
fn outcome_of(alloc: Global, run: &Run<'_>) -> Outcome {
    let mut input = FakeReader::new(run.reads);
    let mut output = FakeWriter::failing(run.writes);
    let mut errors = FakeWriter::failing(run.errors);
    match status_of(alloc, run.words, &mut input, &mut output, &mut errors) {
        Err(AllocError) => Outcome::Refused,
        Ok(status) if run.is_right(status, &input, &output, &errors) => Outcome::Right,
        Ok(status) if run.is_refused(status, &output, &errors) => Outcome::Refused,
        Ok(_) => Outcome::Wrong,
    }
}

/// The first row whose run is not right. After a failed allocation the run is repeated: at most one request is
/// refused.
fn first_wrong<'a>(alloc: Global, rows: &'a str) -> Option<&'a str> {
    for row in rows.lines() {
        let run = Run::of(row);
        let first = outcome_of(alloc, &run);
        let is_right = first == Outcome::Right
            || first == Outcome::Refused && outcome_of(alloc, &run) == Outcome::Right;
        if !is_right {
            return Some(row);
        }
    }
    None
}

/// A message of each type, from and to each set of rules.
const MESSAGES: &str = "\
once --from oer --to coer --type bool | 05 | FF
once --from uper --to coer --type small | 17 | FC
once --from coer --to uper --type pair | FF FC | 88
once --from oer --to uper --type integer | 02 00 00 | 01 00
once --from coer --to uper --type bits | 03 02 FF 40 | 0E FF 40
once --from uper --to aper --type octets | 00 20 | 00 01
once --from aper --to oer --type visible | 01 4A | 01 4A
once --from uper --to oer --type null | 00 |
once --from oer --to uper --type nulls | 03 01 00 00 | C4 00
once --from coer --to uper --type set | 00 | 00
once --from oer --to coer --type bag | 01 03 03 01 02 | 01 03 01 02 03
once --from coer --to uper --type nest | 81 80 | 80
once --from uper --to aper --type new | C0 40 41 C0 | C0 40 01 07
once --from uper --to uper --type old | C0 E0 20 E0 35 40 | 40
once --from uper --to coer --type group | C0 40 40 00 | 00 FF
once --from uper --to uper --type new | C0 40 81 EA 80 | C0 40 41 C0
once --from uper-strict --to uper --type new | C0 E0 20 E0 35 40 | C0 40 41 C0
once --from uper-strict --to uper --type old | C0 E0 20 E0 35 40 | 40
once --from coer --to uper-strict --type small | FC | 10
once --from coer --to aper-strict --type new | 80 FF 02 07 80 01 07 | C0 40 01 07
once --from aper-strict --to uper-strict --type octets | 00 01 | 00 20";

/// Each error of a message, of a reader and of a writer. The input is read to its end before it is translated. Lines
/// with strict rules have other octets than a writer's. The last two lines allow no octet and 14 octets of the error to
/// be written.
const FAULTS: &str = "\
once --from coer --to uper --type bool | 05 | | not an encoding
once --from coer --to uper --type bool | | | not an encoding
once --from uper --to coer --type small | B0 | | not an encoding
once --from coer --to uper --type bool | FF FF | | surplus octets
once --from uper-strict --to coer --type small | 17 | | not an encoding
once --from uper-strict --to uper --type integer | 02 00 07 | | not an encoding
once --from uper-strict --to uper --type octets | 80 80 80 | | not an encoding
once --from aper-strict --to aper --type octets | 80 01 01 | | not an encoding
once --from uper-strict --to uper --type new | C0 00 | | not an encoding
once --from uper-strict --to uper --type new | C0 40 81 EA 80 | | not an encoding
once --from uper-strict --to uper --type group | C0 40 40 00 | | not an encoding
once --from aper-strict --to aper --type old | 40 00 | | surplus octets
once --from uper --to coer --type pair | fails | | read failed
once --from uper --to coer --type pair | 88, fails | | read failed
once --from uper --to coer --type pair | D8, fails | | read failed
once --from uper --to coer --type pair | 88, 00 | | surplus octets
once --from uper --to coer --type pair | interrupted, 88 | FF FC | | 9
once --from uper --to coer --type pair | 57 | 00 05 | | 9
once --from uper --to coer --type pair | 88 | | write failed | 0
once --from uper --to coer --type pair | 88 | FF | write failed | 1
once --from uper --to coer --type pair | 88 | FF FC | write failed | 2 unflushed
once --from coer --to uper --type pair | 01 FC | | not an encoding | | 0
once --from uper --to coer --type pair | fails | | read failed | | 14";

/// Streams to their end, and each error of a message, of a reader and of a writer: the greatest limit, one octet at a
/// time, and an interruption; an error that is found before the reader fails; a line of which only a prefix can be
/// written; a leading plus, which is part of a number; two messages of one octet each; and strict rules.
const STREAMS: &str = "\
stream --from oer --to uper --type integer --limit 2 | 01 07 02 | 01 07 | message 1: no form
stream --from oer --to uper --type integer --limit 2 | |
stream --from coer --to uper --type small --limit 1 | FC 05 | 10 A0
stream --from uper --to aper --type new --limit 4294967295 | C0, 40, interrupted, 41, C0, 40 | C0 40 01 07 40
stream --from coer --to uper --type bool --limit 1 | FF, 00 05 | 80 00 | message 2: no form
stream --from oer --to uper --type integer --limit 2 | 01 07 03 01 02 03 | 01 07 | message 1: none within the limit
stream --from coer --to uper --type bool --limit 1 | 05 FF, fails | | message 0: none within the limit
stream --from uper --to oer --type null --limit 1 | 00 | | message 0: empty message
stream --from oer --to uper --type integer --limit 2 | fails | | read failed
stream --from oer --to uper --type integer --limit 2 | 01 07 01, fails | 01 07 | read failed
stream --from oer --to uper --type integer --limit 2 | 01 07, 01 08 | | write failed | 0
stream --from oer --to uper --type integer --limit 2 | 01 07, 01 08 | 01 | write failed | 1
stream --from oer --to uper --type integer --limit 2 | 01 07, 01 08 | 01 07 01 | write failed | 3
stream --from oer --to uper --type integer --limit 2 | 01 07, 01 08 | 01 07 01 08 | write failed | 4 unflushed
stream --from oer --to uper --type integer --limit 2 | fails | | read failed | | 0
stream --from oer --to uper --type integer --limit 2 | 01 07 02 | 01 07 | message 1: no form | | 21
stream --from oer --to uper --type integer --limit +2 | 01 07 | 01 07
stream --from uper --to uper --type null --limit 1 | 00 00 | 00 00
stream --from uper-strict --to aper-strict --type new --limit 4 | C0, 40, 41, C0, 40 | C0 40 01 07 40
stream --from uper-strict --to coer --type small --limit 1 | 10 17 A0 | FC | message 1: none within the limit
stream --from uper-strict --to coer --type small --limit 1 | 10 17 | FC | message 1: no form";

/// Messages of each pair that arrive, and that a hop rejects; readers and writers that fail. Also: what the older
/// version does not know was all that distinguished a component from its default; a line of which only a prefix can
/// be written; an input that is read to its end before a hop can reject it.
const ROUTES: &str = "\
route --from uper --pair plain --hop new:coer | C0 40 41 C0 | 80 FF 02 07 80 01 07
route --from uper --pair plain --hop new:coer --hop old:uper | C0 40 41 C0 | 40
route --from uper --pair plain --hop new:coer --hop old:uper --hop new:coer | C0 40 41 C0 | 00 FF
route --from uper --pair plain --hop old:aper --hop new:oer | C0 40 41 C0 | 00 FF
route --from uper --pair default --hop old:coer | E0 20 20 E0 | 00
route --from uper --pair required --hop old:uper | C0 40 60 00 | 40
route --from uper --pair colour --hop new:coer | 80 | 01
route --from coer --pair default --hop old:coer | 80 80 FF 02 07 80 01 07 | | hop 0: not an encoding
route --from uper --pair required --hop old:uper --hop new:coer | C0 40 60 00 | | hop 1: not an encoding
route --from uper --pair colour --hop old:uper | 80 | | hop 0: not an encoding
route --from uper --pair plain --hop new:uper | 40 00 | | hop 0: surplus octets
route --from uper-strict --pair default --hop old:coer | E0 20 20 E0 | | hop 0: not an encoding
route --from coer --pair default --hop old:uper-strict --hop new:coer | 80 80 FF 02 07 80 01 07 | | hop 0: not an \
encoding
route --from oer --pair default --hop old:uper-strict | 80 80 FF 02 07 80 01 07 | 00
route --from oer --pair default --hop new:uper-strict --hop old:oer | 80 80 FF 02 07 80 01 07 | | hop 1: not an encoding
route --from uper-strict --pair plain --hop old:uper-strict --hop new:coer | C0 40 41 C0 | 00 FF
route --from uper --pair plain --hop new:aper-strict | C0 40 81 EA 80 | C0 40 01 07
route --from uper-strict --pair required --hop old:aper-strict --hop new:coer | C0 40 60 00 | | hop 1: not an encoding
route --from uper --pair colour --hop old:uper | 80 | | hop 0: not an encoding | | 21
route --from uper --pair plain --hop new:coer --hop old:uper --hop new:coer | C0 40 41 C0, fails | | read failed | 9
route --from uper --pair plain --hop new:coer --hop old:uper --hop new:coer | FF, fails | | read failed | 9
route --from uper --pair plain --hop new:coer --hop old:uper --hop new:coer | C0 40 41 C0 | | write failed | 0
route --from uper --pair plain --hop new:coer --hop old:uper --hop new:coer | C0 40 41 C0 | 00 | write failed | 1
route --from uper --pair plain --hop new:coer --hop old:uper --hop new:coer | C0 40 41 C0 | 00 FF | write failed \
| 2 unflushed";

/// Words that request nothing that the program can do. No input is read.
const ORDERS: &str = "\
- | fails | | usage
 | fails | | usage
--help | fails | | usage
help | fails | | usage
once --help | fails | | usage
ONCE --from coer --to uper --type bool | fails | | usage
stream --from coer --to uper --type bool | fails | | usage
route --from coer --pair plain | fails | | usage
once --from der --to uper --type bool | fails | | usage
once --from coer --to per --type bool | fails | | usage
once --from oer-strict --to uper --type bool | fails | | usage
once --from coer --to coer-strict --type bool | fails | | usage
once --from uper_strict --to uper --type bool | fails | | usage
once --from coer --to uper --type INTEGER | fails | | usage
once --from Coer --to uper --type bool | fails | | usage
once --from coer --to uper --type Bool | fails | | usage
once --to uper --type bool | fails | | usage
once --from coer --type bool | fails | | usage
once --from coer --to uper | fails | | usage
once --from coer --from coer --to uper --type bool | fails | | usage
once --from coer --to uper --type bool surplus | fails | | usage
twice | fails | | usage | | 0
stream --help | fails | | usage
stream --from oer-strict --to uper --type bool --limit 1 | fails | | usage
stream --from coer --to uper --type bool --limit 0 | fails | | usage
stream --from coer --to uper --type bool --limit 4294967296 | fails | | usage
stream --from coer --to uper --type bool --limit -1 | fails | | usage
stream --from coer --to uper --type bool --limit x | fails | | usage
stream --from coer --to uper --type bool --limit '' | fails | | usage
route --from uper --pair plain | fails | | usage
route --from uper --pair plain --hop old: | fails | | usage
route --from uper --pair plain --hop old:ber | fails | | usage
route --from uper --pair plain --hop old:oer-strict | fails | | usage
route --from uper --pair plain --hop older:uper | fails | | usage
route --from uper --pair plain --hop new:uper: | fails | | usage
route --from uper --pair plain --hop New:uper | fails | | usage
route --from uper --pair plain --hop new:uper --hop uper | fails | | usage
route --from uper --pair colours --hop new:uper | fails | | usage
route --from ber --pair plain --hop new:uper | fails | | usage
route --from oer-strict --pair plain --hop new:uper | fails | | usage
route --pair plain --hop new:uper | fails | | usage
route --from uper --hop new:uper | fails | | usage
route --help | fails | | usage";

#[test]
fn runs(rt: HostRuntime) {
    for rows in [MESSAGES, FAULTS, STREAMS, ROUTES, ORDERS] {
        assert_same(&rt, &first_wrong(rt.alloc(), rows), &None);
    }
}
