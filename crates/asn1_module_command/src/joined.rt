//! Streams of messages where one side is JSON: one message in each line.
use crate::errors::CommandError;
use crate::values::Typed;
use asn1_module_order::{Form, Translation};
use asn1_relay_command::{Fault, write_all};
use asn1_relay_core::{Codec, DecodeError, MessageType, RelayFault, RelayFaultKind};
use asn1_table_tape::Event;
use std::alloc::{AllocError, Global};
use std::io::{ErrorKind, Read, Write};

/// Translates a stream of messages of at most `limit` octets each, and writes each once it is complete.
///
/// # Errors
///
/// `AtMessage` or `JsonAtMessage` with the number of the message, from 0, `ReadFailed`, `WriteFailed`, and those of a
/// value that is not written.
pub(crate) fn translate_joined<R: Read, W: Write>(
    typed: Typed<'_>,
    translation: Translation,
    limit: usize,
    input: &mut R,
    output: &mut W,
) -> Result<(), CommandError> {
    let mut messages = Messages::new(typed, translation.from, limit);
    // No machine lasts for 2^64 messages, but a loop needs a bound.
    for _ in 0..u64::MAX {
        let Some(tape) = messages.next(input)? else {
            break;
        };
        let octets = typed.write(translation.to, translation.style, &tape)?;
        write_all(octets.as_slice(), output)?;
    }
    Ok(())
}

/// What octets begin with.
enum Front {
    /// A message: its value, and how many octets it takes.
    Message(Vec<Event>, usize),
    /// An empty line, of this many octets.
    Nothing(usize),
    /// Less than a message, which needs this many octets more at least.
    Part(usize),
}

/// The messages of a stream.
#[derive(Drop)]
struct Messages<'a> {
    typed: Typed<'a>,
    from: Form,
    limit: usize,
    number: u64,
    unread: Vec<u8>,
    /// How many of the octets are those of earlier messages.
    taken: usize,
    has_ended: bool,
}

impl<'a> Messages<'a> {
    /// The messages of a stream of which nothing is read.
    fn new(typed: Typed<'a>, from: Form, limit: usize) -> Self {
        Messages {
            typed,
            from,
            limit,
            number: 0,
            unread: Vec::new(typed.alloc),
            taken: 0,
            has_ended: false,
        }
    }

    /// A fault at the next message.
    fn fault(&self, kind: RelayFaultKind) -> Fault {
        let number = self.number;
        Fault::AtMessage(RelayFault { number, kind })
    }

    /// An error at the next message.
    fn error(&self, kind: RelayFaultKind) -> CommandError {
        CommandError::Fault(self.fault(kind))
    }

    /// An error at the next message, and where in the message it is, if that is known.
    fn refused(&self, kind: RelayFaultKind) -> CommandError {
        let fault = self.fault(kind);
        match self.from {
            Form::Rules(rules) => self.typed.located(rules, self.within(), fault),
            Form::Json => CommandError::Fault(fault),
        }
    }

    /// The next message, if there is one.
    fn next<R: Read>(&mut self, input: &mut R) -> Result<Option<Vec<Event>>, CommandError> {
        for _ in 0..u64::MAX {
            if self.rest().is_empty() && self.has_ended {
                return Ok(None);
            }
            match self.front()? {
                Front::Message(tape, count) => {
                    self.taken = self.taken.saturating_add(count);
                    self.number = self.number.saturating_add(1);
                    return Ok(Some(tape));
                }
                Front::Nothing(count) => self.taken = self.taken.saturating_add(count),
                Front::Part(needed) => {
                    if self.has_ended {
                        return Err(self.refused(RelayFaultKind::NoForm));
                    }
                    self.read_more(input, needed)?;
                }
            }
        }
        Ok(None)
    }

    /// The octets of no earlier message.
    fn rest(&self) -> &[u8] {
        self.unread.get(self.taken..).unwrap_or(&[])
    }

    /// Those of them that a message may have.
    fn within(&self) -> &[u8] {
        let rest = self.rest();
        rest.get(..self.limit).unwrap_or(rest)
    }

    /// What these octets begin with.
    fn front(&self) -> Result<Front, CommandError> {
        match self.from {
            Form::Rules(rules) => self.encoding(rules),
            Form::Json => self.line(),
        }
    }

    /// What these octets begin with, in some rules.
    fn encoding(&self, rules: Codec) -> Result<Front, CommandError> {
        let within = self.within();
        if within.is_empty() {
            return Ok(Front::Part(1));
        }
        let read = self
            .typed
            .message_type()
            .read_front(self.typed.alloc, rules, within);
        match read {
            Ok((tape, after)) => {
                let count = within.len().saturating_sub(after.len());
                if count == 0 {
                    return Err(self.error(RelayFaultKind::EmptyMessage));
                }
                Ok(Front::Message(tape, count))
            }
            Err(refusal) => {
                if refusal.error == DecodeError::OutOfMemory {
                    return Err(self.error(RelayFaultKind::Memory));
                }
                if self.rest().len() > self.limit {
                    return Err(self.refused(RelayFaultKind::NoneWithinLimit));
                }
                Ok(Front::Part(refusal.needed))
            }
        }
    }

    /// The first line of these octets, if it is whole.
    fn line(&self) -> Result<Front, CommandError> {
        let rest = self.rest();
        let (line, count) = match rest.iter().position(|octet| *octet == b'\n') {
            Some(index) => (rest.get(..index).unwrap_or(rest), index.saturating_add(1)),
            None if self.has_ended => (rest, rest.len()),
            None if rest.len() > self.limit => {
                return Err(self.error(RelayFaultKind::NoneWithinLimit));
            }
            None => return Ok(Front::Part(1)),
        };
        let line = line.strip_suffix(b"\r").unwrap_or(line);
        if line.iter().all(|octet| octet.is_ascii_whitespace()) {
            return Ok(Front::Nothing(count));
        }
        if line.len() > self.limit {
            return Err(self.error(RelayFaultKind::NoneWithinLimit));
        }
        match self.typed.read_text(line) {
            Ok(tape) => Ok(Front::Message(tape, count)),
            Err(error) => Err(CommandError::JsonAtMessage(self.number, error)),
        }
    }

    /// Reads at least one octet, and up to as many as are needed or a block, or finds the end of the stream.
    fn read_more<R: Read>(&mut self, input: &mut R, needed: usize) -> Result<(), CommandError> {
        if self.taken > 0 {
            let rest = copy_of(self.typed.alloc, self.rest())?;
            self.unread = rest;
            self.taken = 0;
        }
        let wanted = self.unread.len().saturating_add(needed.min(self.limit));
        let mut block = [0u8; 4096];
        for _ in 0..u64::MAX {
            match input.read(&mut block) {
                Ok(0) => {
                    self.has_ended = true;
                    return Ok(());
                }
                Ok(count) => {
                    self.unread.extend_from_slice(&block[..count])?;
                    if self.unread.len() >= wanted {
                        return Ok(());
                    }
                }
                Err(error) if error.kind() == ErrorKind::Interrupted => {}
                Err(_) => return Err(CommandError::Fault(Fault::ReadFailed)),
            }
        }
        Err(CommandError::Fault(Fault::ReadFailed))
    }
}

/// A copy of octets.
fn copy_of(alloc: Global, octets: &[u8]) -> Result<Vec<u8>, AllocError> {
    let mut copy = Vec::new(alloc);
    copy.extend_from_slice(octets)?;
    Ok(copy)
}
