//! Translation from a reader to a writer.
ghost use Rattle.std.specs.Prelude.{◌≡◌, ◌<◌, ◌≤◌, IfErr, OnOk, false};
ghost use Rattle.asn1_relay_core.specs.Coding.{rules_of};
ghost use Rattle.asn1_relay_core.specs.Running.{BlockFaultOf, IsDone, RelaysBlock, RunFaultOf, ends, run_fault_of};

use crate::Codec;
use crate::ends::{Sink, Source};
use crate::fault::{RelayFault, RelayFaultKind};
use crate::message_type::MessageType;
use crate::relay::RelayOf;
use crate::rust_type::RustType;
use asn1_schema_decode::Decode;
use asn1_schema_encode::Encode;
use std::alloc::Global;
use thiserror::Error;

/// Why a run ended early.
#[derive(Clone, Copy, Debug, PartialEq, Eq, Error)]
pub enum RunFault {
    /// The reader failed.
    #[error("read failed")]
    Read,
    /// The writer failed.
    #[error("write failed")]
    Write,
    /// The relay stopped at a message, or octets were left unread at the end.
    #[error("{0}")]
    Relay(RelayFault),
    /// Memory ran out.
    #[error("out of memory")]
    Memory,
}

/// Reads a stream of messages of the type `T` to its end, at most 4096 octets at a time, and writes the translation of
/// each message once it is complete. At the end it flushes the writer.
///
/// # Errors
///
/// * `Read`: the reader failed.
/// * `Write`: the writer failed.
/// * `Relay`: the relay stopped, or octets are left unread at the end.
/// * `Memory`: memory ran out.
///
/// The translations of all whole messages before the error are written first. If that fails, the error is `Write`.
#[inline(always)]
pub fn run<T: Encode + Decode, R: Source, W: Sink>(
    alloc: Global,
    reader: &mut R,
    writer: &mut W,
    from: Codec,
    to: Codec,
    limit: usize,
) -> Result<(), RunFault>
    requires some { 1 ≤ limit }
    requires reads { R.failures reader.old < 18446744073709551615 }
    requires writes { W.failures writer.old < 18446744073709551615 }
    ensures done { OnOk result (IsDone (rules_of from) (rules_of to) (T.schema 128) limit
        (ends (R.coming reader.old) (W.taken writer.old) (R.failures reader.old) (W.failures writer.old))
        (ends (R.coming reader.new) (W.taken writer.new) (R.failures reader.new) (W.failures writer.new))) }
    ensures only { IfErr result (RunFaultOf (rules_of from) (rules_of to) (T.schema 128) limit
        (ends (R.coming reader.old) (W.taken writer.old) (R.failures reader.old) (W.failures writer.old))
        (ends (R.coming reader.new) (W.taken writer.new) (R.failures reader.new) (W.failures writer.new))) }
    ensures reader_stays { R.lender reader.new ≡ R.lender reader.old }
    ensures writer_stays { W.lender writer.new ≡ W.lender writer.old }
{
    run_of(alloc, RustType::<T>::new(), reader, writer, from, to, limit)
}

/// As `run`, for messages of a type that is passed.
///
/// # Errors
///
/// As for `run`.
pub fn run_of<M: MessageType, R: Source, W: Sink>(
    alloc: Global,
    message_type: M,
    reader: &mut R,
    writer: &mut W,
    from: Codec,
    to: Codec,
    limit: usize,
) -> Result<(), RunFault>
    requires some { 1 ≤ limit }
    requires reads { R.failures reader.old < 18446744073709551615 }
    requires writes { W.failures writer.old < 18446744073709551615 }
    ensures done { OnOk result (IsDone (rules_of from) (rules_of to) (M.schema message_type 128) limit
        (ends (R.coming reader.old) (W.taken writer.old) (R.failures reader.old) (W.failures writer.old))
        (ends (R.coming reader.new) (W.taken writer.new) (R.failures reader.new) (W.failures writer.new))) }
    ensures only { IfErr result (RunFaultOf (rules_of from) (rules_of to) (M.schema message_type 128) limit
        (ends (R.coming reader.old) (W.taken writer.old) (R.failures reader.old) (W.failures writer.old))
        (ends (R.coming reader.new) (W.taken writer.new) (R.failures reader.new) (W.failures writer.new))) }
    ensures reader_stays { R.lender reader.new ≡ R.lender reader.old }
    ensures writer_stays { W.lender writer.new ≡ W.lender writer.old }
{
    let mut relay = RelayOf::new(alloc, message_type, from, to, limit);
    let mut out = Vec::new(alloc);
    let mut block = [0u8; 4096];
    loop {
        match reader.read(&mut block) {
            Ok(0) => break,
            Ok(count) => relay_block(&mut relay, &block[..count], &mut out, writer)?,
            Err(_) => return Err(RunFault::Read),
        }
    }
    if let Err(fault) = relay.finish() {
        return Err(RunFault::Relay(fault));
    }
    match writer.flush() {
        Ok(()) => Ok(()),
        Err(_) => Err(RunFault::Write),
    }
}

/// Feeds a block of octets to a relay, and writes all its output.
fn relay_block<M: MessageType, W: Sink>(
    relay: &mut RelayOf<M>,
    octets: &[u8],
    out: &mut Vec<u8>,
    writer: &mut W,
) -> Result<(), RunFault>
    requires goes_on { relay.old.relaying.failed ≡ false }
    requires countable { W.failures writer.old < 18446744073709551615 }
    ensures ok { OnOk result (RelaysBlock (M.schema relay.old.message_type 128) relay.old.relaying relay.new.relaying
        octets.now (W.taken writer.old) (W.taken writer.new)) }
    ensures counts { OnOk result (W.failures writer.new ≡ W.failures writer.old) }
    ensures only { IfErr result (BlockFaultOf (M.schema relay.old.message_type 128) relay.old.relaying octets.now
        (W.taken writer.old) (W.taken writer.new) (W.failures writer.old) (W.failures writer.new)) }
    ensures same { relay.new.message_type ≡ relay.old.message_type }
    ensures stays { W.lender writer.new ≡ W.lender writer.old }
{
    out.clear();
    let fed = relay.feed(octets, out);
    if writer.write(out.as_slice()).is_err() {
        return Err(RunFault::Write);
    }
    match fed {
        Ok(()) => Ok(()),
        Err(fault) => Err(run_fault(fault)),
    }
}

/// The error of a run whose relay stops.
fn run_fault(fault: RelayFault) -> RunFault
    ensures { result ≡ run_fault_of fault.kind fault }
{
    match fault.kind {
        RelayFaultKind::Memory => RunFault::Memory,
        _ => RunFault::Relay(fault),
    }
}
