//! Why the program stops, and its message.
ghost use Rattle.std.specs.Prelude.{◌≡◌, OnOk};
ghost use Rattle.std.specs.Io.KnownBytes.{Appends};
ghost use Rattle.asn1_relay_core.specs.Ends.{BeginsToAppend};
ghost use Rattle.asn1_relay_command.specs.Lines.{joined, line_of, place_of, text_at_hop, text_at_message, text_of};

use asn1_relay_core::{
    RecodeFault, RelayFault, RelayFaultKind, RouteFault, RouteFaultKind, RunFault, write_octets,
};
use itoa::Buffer;
use std::alloc::AllocError;
use std::io::{self, Write};
use thiserror::Error;

/// Why a hop of a route rejects a message. Its text is the program's message.
#[derive(Clone, Copy, Debug, PartialEq, Eq, Error)]
pub enum HopFault {
    /// The hop's input does not begin with an encoding of a value of its type.
    #[error("not an encoding")]
    NotAnEncoding,
    /// Octets follow an encoding.
    #[error("surplus octets")]
    SurplusOctets,
    /// The value has no encoding in the hop's output rules.
    #[error("no target encoding")]
    NoTargetEncoding,
    /// Memory ran out.
    #[error("out of memory")]
    OutOfMemory,
}

/// Why the input was not translated, or the result not written. Its text is the program's message.
#[derive(Clone, Copy, Debug, PartialEq, Eq, Error)]
pub enum Fault {
    /// The input does not begin with an encoding of a value of the type.
    #[error("not an encoding")]
    NotAnEncoding,
    /// Octets follow an encoding.
    #[error("surplus octets")]
    SurplusOctets,
    /// The value has no encoding in the target rules.
    #[error("no target encoding")]
    NoTargetEncoding,
    /// Memory ran out.
    #[error("out of memory")]
    OutOfMemory,
    /// The input could not be read to the end.
    #[error("read failed")]
    ReadFailed,
    /// The result could not be written or flushed.
    #[error("write failed")]
    WriteFailed,
    /// A stream stopped at a message.
    #[error("{0}")]
    AtMessage(RelayFault),
    /// A hop of a route rejected the message; hops are counted from 0.
    #[error("hop {0}: {1}")]
    AtHop(usize, HopFault),
}

/// Where an error occurred: at a message of a stream, or at a hop of a route.
#[derive(Clone, Copy, Debug, PartialEq, Eq)]
enum Place {
    /// The message with this number.
    Message(u64),
    /// The hop with this index.
    Hop(usize),
}

impl Fault {
    /// Writes the line of the error: the program's name, the message or hop if there is one, and what is wrong.
    ///
    /// # Errors
    ///
    /// Those of the writer. It has then accepted a prefix of the line.
    pub fn write_line<E: Write>(self, errors: &mut E) -> io::Result<()>
        ensures all { OnOk result (Appends (E.contents errors.old) (E.contents errors.new) (line_of self)) }
        ensures begins { BeginsToAppend (E.contents errors.old) (E.contents errors.new) (line_of self) }
    {
        match self.place() {
            Some(Place::Message(number)) => {
                let mut digits = Buffer::new();
                let parts = [
                    "asn1_relay: ",
                    "message ",
                    digits.format(number),
                    ": ",
                    self.text(),
                    "\n",
                ];
                write_parts(parts.as_slice(), errors)
            }
            Some(Place::Hop(number)) => {
                let mut digits = Buffer::new();
                let parts = [
                    "asn1_relay: ",
                    "hop ",
                    digits.format(number),
                    ": ",
                    self.text(),
                    "\n",
                ];
                write_parts(parts.as_slice(), errors)
            }
            None => write_parts(["asn1_relay: ", self.text(), "\n"].as_slice(), errors),
        }
    }

    /// The message or hop at which the error occurred, if there is one.
    fn place(self) -> Option<Place>
        ensures { result ≡ place_of self }
    {
        match self {
            Fault::AtMessage(at) => Some(Place::Message(at.number)),
            Fault::AtHop(hop, _) => Some(Place::Hop(hop)),
            _ => None,
        }
    }

    /// What is wrong.
    fn text(self) -> &'static str
        ensures { result.now ≡ text_of self }
    {
        match self {
            Fault::NotAnEncoding => "not an encoding",
            Fault::SurplusOctets => "surplus octets",
            Fault::NoTargetEncoding => "no target encoding",
            Fault::OutOfMemory => "out of memory",
            Fault::ReadFailed => "read failed",
            Fault::WriteFailed => "write failed",
            Fault::AtMessage(at) => text_at_message(at.kind),
            Fault::AtHop(_, fault) => text_at_hop(fault),
        }
    }
}

/// What is wrong at a message of a stream.
fn text_at_message(kind: RelayFaultKind) -> &'static str
    ensures { result.now ≡ text_at_message kind }
{
    match kind {
        RelayFaultKind::NoneWithinLimit => "none within the limit",
        RelayFaultKind::EmptyMessage => "empty message",
        RelayFaultKind::NoTarget => "no target encoding",
        RelayFaultKind::Memory => "out of memory",
        RelayFaultKind::NoForm => "no form",
        RelayFaultKind::AlreadyFailed => "stopped before",
    }
}

/// What is wrong at a hop of a route.
fn text_at_hop(fault: HopFault) -> &'static str
    ensures { result.now ≡ text_at_hop fault }
{
    match fault {
        HopFault::NotAnEncoding => "not an encoding",
        HopFault::SurplusOctets => "surplus octets",
        HopFault::NoTargetEncoding => "no target encoding",
        HopFault::OutOfMemory => "out of memory",
    }
}

/// Writes texts in sequence. After an error the writer has accepted a prefix of them.
fn write_parts<W: Write>(parts: &[&str], writer: &mut W) -> io::Result<()>
    ensures all { OnOk result (Appends (W.contents writer.old) (W.contents writer.new) (joined parts.now)) }
    ensures begins { BeginsToAppend (W.contents writer.old) (W.contents writer.new) (joined parts.now) }
{
    for part in parts {
        write_octets(part.as_bytes(), writer)?;
    }
    Ok(())
}

impl From<RecodeFault> for Fault {
    ghost use Rattle.asn1_relay_command.specs.Runs.{fault_named};

    ghost from_gives = { λ r f. f ≡ fault_named r };

    fn from(fault: RecodeFault) -> Fault {
        match fault {
            RecodeFault::NotAnEncoding(_) => Fault::NotAnEncoding,
            RecodeFault::Surplus => Fault::SurplusOctets,
            RecodeFault::NoTarget(_) => Fault::NoTargetEncoding,
            RecodeFault::Memory => Fault::OutOfMemory,
        }
    }
}

impl From<RunFault> for Fault {
    ghost use Rattle.asn1_relay_command.specs.Runs.{run_fault_named};

    ghost from_gives = { λ r f. f ≡ run_fault_named r };

    fn from(fault: RunFault) -> Fault {
        match fault {
            RunFault::Read => Fault::ReadFailed,
            RunFault::Write => Fault::WriteFailed,
            RunFault::Relay(at) => Fault::AtMessage(at),
            RunFault::Memory => Fault::OutOfMemory,
        }
    }
}

impl From<RouteFaultKind> for HopFault {
    ghost use Rattle.asn1_relay_command.specs.Runs.{hop_fault_named};

    ghost from_gives = { λ k f. f ≡ hop_fault_named k };

    fn from(kind: RouteFaultKind) -> HopFault {
        match kind {
            RouteFaultKind::Read(_) => HopFault::NotAnEncoding,
            RouteFaultKind::Surplus => HopFault::SurplusOctets,
            RouteFaultKind::NoTarget(_) => HopFault::NoTargetEncoding,
            RouteFaultKind::Memory => HopFault::OutOfMemory,
        }
    }
}

impl From<RouteFault> for Fault {
    ghost use Rattle.asn1_relay_command.specs.Runs.{route_fault_named};

    ghost from_gives = { λ r f. f ≡ route_fault_named r };

    fn from(fault: RouteFault) -> Fault {
        Fault::AtHop(fault.hop, HopFault::from(fault.kind))
    }
}

impl From<AllocError> for Fault {
    ghost use Rattle.asn1_relay_command.specs.declared.fault.Fault.TheVariants.{OutOfMemory};

    ghost from_gives = { λ _ f. f ≡ OutOfMemory };

    fn from(_refused: AllocError) -> Fault {
        Fault::OutOfMemory
    }
}
