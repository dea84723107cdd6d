//! Laws of the writer of PER (X.691), aligned or not: its state after each record, and that the records of a value
//! add exactly its canonical bits. A record is one call of an encoder, with its value. The functions do nothing: each
//! contract is a law.

ghost use Rattle.std.specs.Prelude.{Bool};
ghost use Rattle.asn1_schema_laws.specs.Records.{Record};
ghost use Rattle.per_codec_encoder.specs.Rows.{OctetRows, StateRows};
ghost use Rattle.per_codec_encoder.specs.Steps.{State};
ghost use Rattle.per_codec_encoder.specs.Ties.{ChainsAddTheFieldLists, EveryTypeBridges};
ghost use Rattle.per_codec_encoder.specs.Ties.{MessagesAreTheirs, FieldListsAreWritten};
ghost use Rattle.per_codec_encoder.specs.Written.{IsWriter, RefusedByRecords, RefusesOnlyNone, WritesTheOctets};
ghost use Rattle.per_codec_encoder.specs.Written.{WrittenByRecords};

/// The records of each value of each type append the value's field-list. They are refused if it has none.
pub fn every_type_bridges()
    ensures { EveryTypeBridges }
{}

/// A field-list at a known position is the bits that are written there; one at an unknown position determines those at
/// each position.
pub fn field_lists_are_written()
    ensures { FieldListsAreWritten }
{}

/// The records of a value lead from a state exactly to the state with the value's field-list appended.
pub fn chains_add_the_field_lists()
    ensures { ChainsAddTheFieldLists }
{}

/// The records of a value, from the empty state and padded to octets, are its message. They are refused if it has
/// none (X.691 11.1).
pub fn messages_are_theirs()
    ensures { MessagesAreTheirs }
{}

/// From the empty state, the records of a value lead exactly to its bits, at whatever depth its type is unfolded.
pub fn written_by_records()
    ensures { WrittenByRecords }
{}

/// The records of a value are refused, other than for memory, exactly if it has no bits.
pub fn refused_by_records()
    ensures { RefusedByRecords }
{}

/// Something that takes records, and has the state of a writer.
pub trait Writer {
    /// The steps: how a record relates what is before and after it.
    ghost step: { Self → Record → Self → Type 0 };

    /// Whether it writes the aligned variant.
    ghost aligned: { Self → Bool };

    /// Its state.
    ghost held: { Self → State };

    /// No record was refused.
    ghost ready: { Self → Type 0 };

    /// The steps are exactly those of a writer.
    ghost is_writer: { IsWriter step aligned held ready };
}

/// From the empty state, a writer has the canonical encoding of a value after its records, once it is padded to
/// octets (X.691 11.1).
pub fn writes_the_octets<W: Writer>()
    ensures { WritesTheOctets W.step W.aligned W.held }
{}

/// A writer refuses a value, other than for memory, only if that has no canonical encoding.
pub fn refuses_only_none<W: Writer>()
    ensures { RefusesOnlyNone W.step W.aligned W.held W.ready }
{}

/// The octets of some records, unaligned and aligned.
pub fn octet_rows()
    ensures { OctetRows }
{}

/// The states after some records: counts, length determinants of fragments, padding, and refusals.
pub fn state_rows()
    ensures { StateRows }
{}
