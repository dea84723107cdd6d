//! Translation of streams of messages of a type of a table.
#![tactic(auto, using(std::proofs::lemmas::Grind::common_steps))]

ghost use Rattle.std.specs.Prelude.{◌≡◌, ◌<◌, ◌≤◌, IfErr, OnOk};
ghost use Rattle.asn1_relay_core.specs.Coding.{rules_of};
ghost use Rattle.asn1_relay_core.specs.Running.{IsDone, RunFaultOf, ends};
ghost use Rattle.asn1_table_nodes.specs.Meaning.{type_at};

use crate::table_type::TableType;
use asn1_relay_core::{Codec, RunFault, Sink, Source, run_of};
use asn1_table_types::Types;
use std::alloc::Global;

/// Reads a stream of messages of the type at this index of a table to its end, at most 4096 octets at a time, and
/// writes the translation of each message once it is complete. At the end it flushes the writer.
///
/// # Errors
///
/// * `Read`: the reader failed.
/// * `Write`: the writer failed.
/// * `Relay`: the relay stopped, or octets are left unread at the end.
/// * `Memory`: memory ran out.
///
/// The translations of all whole messages before the error are written first. If that fails, the error is `Write`.
pub fn run_by<R: Source, W: Sink>(
    alloc: Global,
    types: &Types,
    place: usize,
    reader: &mut R,
    writer: &mut W,
    from: Codec,
    to: Codec,
    limit: usize,
) -> Result<(), RunFault>
    requires some { 1 ≤ limit }
    requires reads { R.failures reader.old < 18446744073709551615 }
    requires writes { W.failures writer.old < 18446744073709551615 }
    ensures done { OnOk result (IsDone (rules_of from) (rules_of to)
        (type_at types.now.nodes.items 128 place) limit
        (ends (R.coming reader.old) (W.taken writer.old) (R.failures reader.old) (W.failures writer.old))
        (ends (R.coming reader.new) (W.taken writer.new) (R.failures reader.new) (W.failures writer.new))) }
    ensures only { IfErr result (RunFaultOf (rules_of from) (rules_of to)
        (type_at types.now.nodes.items 128 place) limit
        (ends (R.coming reader.old) (W.taken writer.old) (R.failures reader.old) (W.failures writer.old))
        (ends (R.coming reader.new) (W.taken writer.new) (R.failures reader.new) (W.failures writer.new))) }
    ensures reader_stays { R.lender reader.new ≡ R.lender reader.old }
    ensures writer_stays { W.lender writer.new ≡ W.lender writer.old }
{
    run_of(
        alloc,
        TableType { types, place },
        reader,
        writer,
        from,
        to,
        limit,
    )
}
