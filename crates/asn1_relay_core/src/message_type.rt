//! Types of messages.
ghost use Rattle.std.specs.Prelude.{◌≡◌, ◌++◌, List, ℕ, IfOk, IfErr, OnErr, OnOk};
ghost use Rattle.asn1_model.specs.Lawful.{IsLawful};
ghost use Rattle.asn1_model.specs.Schema.{Schema};
ghost use Rattle.asn1_model.specs.Value.{Value as ModelValue};
ghost use Rattle.asn1_schema_decode.specs.Messages.{NeedsMore, NoMessage};
ghost use Rattle.asn1_schema_encode.specs.Written.{IsOfValue};
ghost use Rattle.asn1_schema_laws.specs.Tables.{IsValue};
ghost use Rattle.asn1_relay_core.specs.Coding.{rules_of};
ghost use Rattle.asn1_relay_core.specs.MessageTypes.{NotWrittenAs, TellsAs, WrittenAs};

use crate::Codec;
use asn1_schema_decode::Refusal;
use asn1_schema_errors::{DecodeError, EncodeError};
use std::alloc::Global;

/// What stands for a type: a Rust type (`RustType`), or one that is known only at run time.
pub trait MessageSchema: Drop {
    /// The type, unfolded to a given number of nested levels.
    ghost schema: { Self → ℕ → Schema };
}

/// A type whose messages are read and written.
pub trait MessageType: MessageSchema {
    /// What is kept of a message between reading and writing.
    type Value: Drop;

    /// What is kept means this ASN.1 value.
    ghost means: { Self → Self.Value → ModelValue → Type 0 };

    /// Reads the value with whose encoding by these rules the input begins, and borrows the octets after that encoding.
    ///
    /// # Errors
    ///
    /// `OutOfMemory` if memory runs out. Otherwise it fails only if no prefix of the input, of fewer than 2^60 octets,
    /// is an encoding of a value with at most 128 nested levels. The error also says how many more octets are needed at
    /// least.
    fn read_front<'input>(
        &self,
        alloc: Global,
        from: Codec,
        input: &'input [u8],
    ) -> Result<(Self::Value, &'input [u8]), Refusal>
        ensures ok { IfOk result
            (λ x. TellsAs (rules_of from) (Self.schema self.now) (means self.now x.0) input.now x.1.now) }
        ensures only { IfErr result (λ r. NoMessage (rules_of from) (Self.schema self.now) input.now r.error) }
        ensures needed { IfErr result (λ r. NeedsMore (rules_of from) (Self.schema self.now) input.now r.needed
            r.error) }
        ensures fresh { IfErr result (λ r. r.error ≡ DecodeError.AlreadyFailed → ⊥) };

    /// Encodes a value canonically by these rules.
    ///
    /// # Errors
    ///
    /// `OutOfMemory` if memory runs out, and `TooLongValue` for an encoding of 2^60 octets or more. Otherwise it fails
    /// only if the value has no encoding, for example because it violates a constraint.
    fn write(&self, alloc: Global, to: Codec, value: &Self::Value) -> Result<Vec<u8>, EncodeError>
        ensures ok { IfOk result
            (λ octets. WrittenAs (rules_of to) (Self.schema self.now) (means self.now value.now) octets.items) }
        ensures only { IfErr result (NotWrittenAs (rules_of to) (Self.schema self.now) (means self.now value.now)) }
        ensures kinds { IfErr result IsOfValue };

    /// Appends the canonical encoding of a value by these rules to the octets in `out`. It may first be written in
    /// `room`, whose contents it then replaces.
    ///
    /// # Errors
    ///
    /// As for `write`; `out` then has its previous contents, and `room` may have lost its capacity.
    fn write_into(
        &self,
        alloc: Global,
        to: Codec,
        value: &Self::Value,
        room: &mut Vec<u8>,
        out: &mut Vec<u8>,
    ) -> Result<(), EncodeError>
        ensures ok { OnOk result ((octets : List ℕ)
            × WrittenAs (rules_of to) (Self.schema self.now) (means self.now value.now) octets
            × (out.new.items ≡ out.old.items ++ octets)) }
        ensures only { IfErr result (NotWrittenAs (rules_of to) (Self.schema self.now) (means self.now value.now)) }
        ensures kinds { IfErr result IsOfValue }
        ensures same { OnErr result (out.new.items ≡ out.old.items) }
    {
        *room = self.write(alloc, to, value)?;
        out.extend_from_slice(room.as_slice())?;
        Ok(())
    }

    /// The type is well-formed (`is_lawful`).
    ghost lawful: { (m : Self) → IsLawful (Self.schema m 128) };

    /// What is kept means values of the type.
    ghost valued: { (m : Self) (x : Self.Value) (v : ModelValue) → means m x v → IsValue (Self.schema m) v };
}
