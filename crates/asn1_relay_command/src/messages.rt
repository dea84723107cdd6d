//! Messages of any type from a reader to a writer.
ghost use Rattle.std.specs.Prelude.{◌≡◌, ◌⊎◌, ◌≤◌, IfErr, IfOk, MatchResult, OnOk};
ghost use Rattle.std.specs.Io.KnownBytes.{Appends};
ghost use Rattle.asn1_relay_core.specs.Ends.{BeginsToAppend};
ghost use Rattle.asn1_relay_core.specs.Recoding.{answered};
ghost use Rattle.asn1_relay_command.specs.Runs.{BecomesAs, DoesOnceAs, DoesStreamAs, IsAllRead, IsRefusedAs};
ghost use Rattle.asn1_relay_command.specs.Runs.{StopsOnceAs, StopsStreamAs};

use crate::fault::Fault;
use asn1_relay_core::{
    Codec, MessageType, RunFault, StdSink, StdSource, recode_of, run_of, write_octets,
};
use std::alloc::Global;
use std::io::{ErrorKind, Read, Write};

/// Translates one message of a type, the whole input. Nothing is written before all of it is translated. The octets
/// that were read are then in `message`.
///
/// # Errors
///
/// Those of `translate_octets`, `read_all` and `write_all`.
pub fn translate_message<M: MessageType, R: Read, W: Write>(
    alloc: Global,
    message_type: &M,
    from: Codec,
    to: Codec,
    input: &mut R,
    message: &mut Vec<u8>,
    output: &mut W,
) -> Result<(), Fault>
    ensures { MatchResult result
        (λ _. DoesOnceAs (M.schema message_type.now 128) from to
        (R.remaining input.old) (R.remaining input.new) (W.contents output.old) (W.contents output.new))
        (StopsOnceAs (M.schema message_type.now 128) from to
        (R.remaining input.old) (R.remaining input.new) (W.contents output.old) (W.contents output.new)) }
{
    *message = read_all(alloc, input)?;
    let answer = translate_octets(alloc, message_type, from, to, message.as_slice())?;
    write_all(answer.as_slice(), output)
}

/// Translates one message of a type.
///
/// # Errors
///
/// Those of `recode_of`.
pub fn translate_octets<M: MessageType>(
    alloc: Global,
    message_type: &M,
    from: Codec,
    to: Codec,
    message: &[u8],
) -> Result<Vec<u8>, Fault>
    ensures { MatchResult result
        (λ v. BecomesAs (M.schema message_type.now 128) from to message.now (answered v.items))
        (IsRefusedAs (M.schema message_type.now 128) from to message.now) }
{
    let octets = recode_of(alloc, message_type, from, to, message)?;
    Ok(octets)
}

/// Translates a stream of messages of a type, and writes each once it is complete.
///
/// # Errors
///
/// Those of `run_of`.
pub fn translate_stream<M: MessageType, R: Read, W: Write>(
    alloc: Global,
    message_type: M,
    from: Codec,
    to: Codec,
    limit: u32,
    input: &mut R,
    output: &mut W,
) -> Result<(), RunFault>
    requires { 1 ≤ limit }
    ensures { MatchResult result
        (λ _. DoesStreamAs (M.schema message_type 128) from to limit
        (R.remaining input.old) (R.remaining input.new) (W.contents output.old) (W.contents output.new))
        (StopsStreamAs (M.schema message_type 128) from to limit
        (R.remaining input.old) (R.remaining input.new) (W.contents output.old) (W.contents output.new)) }
{
    let mut source = StdSource::new(input, u64::MAX);
    let mut sink = StdSink::new(output);
    run_of(
        alloc,
        message_type,
        &mut source,
        &mut sink,
        from,
        to,
        limit as usize,
    )
}

/// Reads the whole input.
///
/// # Errors
///
/// `ReadFailed` if the reader fails, and `OutOfMemory`.
pub fn read_all<R: Read>(alloc: Global, input: &mut R) -> Result<Vec<u8>, Fault>
    ensures ok { IfOk result (λ v. IsAllRead (R.remaining input.old) (R.remaining input.new) v.items) }
    ensures err { IfErr result (λ f. (f ≡ Fault.ReadFailed) ⊎ (f ≡ Fault.OutOfMemory)) }
{
    let mut octets = Vec::new(alloc);
    let mut block = [0u8; 4096];
    // Each turn adds an octet, of which memory holds fewer than 2^64, or is an interruption; 2^64 interruptions count
    // as a failure.
    for _ in 0..u64::MAX {
        match input.read(&mut block) {
            Ok(0) => return Ok(octets),
            Ok(count) => octets.extend_from_slice(&block[..count])?,
            Err(error) if error.kind() == ErrorKind::Interrupted => {}
            Err(_) => return Err(Fault::ReadFailed),
        }
    }
    Err(Fault::ReadFailed)
}

/// Writes all octets, and flushes.
///
/// # Errors
///
/// `WriteFailed` if the writer fails. It has then accepted a prefix of the octets.
pub fn write_all<W: Write>(octets: &[u8], output: &mut W) -> Result<(), Fault>
    ensures ok { OnOk result (Appends (W.contents output.old) (W.contents output.new) octets.now) }
    ensures err { IfErr result (λ f. f ≡ Fault.WriteFailed) }
    ensures begins { BeginsToAppend (W.contents output.old) (W.contents output.new) octets.now }
{
    match write_octets(octets, output) {
        Ok(()) => {}
        Err(_) => return Err(Fault::WriteFailed),
    }
    match output.flush() {
        Ok(()) => Ok(()),
        Err(_) => Err(Fault::WriteFailed),
    }
}
