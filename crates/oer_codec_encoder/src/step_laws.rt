//! Laws of the writer of OER (X.696): its state after each record, and that the records of a value add exactly its
//! canonical octets. A record is one call of an encoder, with its value. The functions do nothing: each contract is a
//! law.

ghost use Rattle.asn1_schema_laws.specs.Records.{Record};
ghost use Rattle.oer_codec_encoder.specs.Steps.{State};
ghost use Rattle.oer_codec_encoder.specs.Ties.{ChainsAddTheOctets, EveryTypeBridges};
ghost use Rattle.oer_codec_encoder.specs.Written.{IsWriter, RefusedByRecords, RefusesOnlyNone, WrittenByRecords};
ghost use Rattle.oer_codec_encoder.specs.Written.{WritesTheOctets};

/// The records of each value of each type append the value's octets. They are refused if it has none.
pub fn every_type_bridges()
    ensures { EveryTypeBridges }
{}

/// The records of a value lead from a state exactly to the state with the value's octets appended.
pub fn chains_add_the_octets()
    ensures { ChainsAddTheOctets }
{}

/// From the empty state, the records of a value lead exactly to its octets, at whatever depth its type is unfolded.
pub fn written_by_records()
    ensures { WrittenByRecords }
{}

/// The records of a value are refused, other than for memory, exactly if it has no octets.
pub fn refused_by_records()
    ensures { RefusedByRecords }
{}

/// Something that takes records, and has the state of a writer.
pub trait Writer {
    /// The steps: how a record relates what is before and after it.
    ghost step: { Self → Record → Self → Type 0 };

    /// Its state.
    ghost held: { Self → State };

    /// No record was refused.
    ghost ready: { Self → Type 0 };

    /// The steps are exactly those of a writer.
    ghost is_writer: { IsWriter step held ready };
}

/// From the empty state, a writer has the canonical octets of a value after its records.
pub fn writes_the_octets<W: Writer>()
    ensures { WritesTheOctets W.step W.held }
{}

/// A writer refuses a value, other than for memory, only if that has no canonical octets.
pub fn refuses_only_none<W: Writer>()
    ensures { RefusesOnlyNone W.step W.held W.ready }
{}
