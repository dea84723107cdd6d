//! Messages of a Rust type.
ghost use Rattle.std.specs.Prelude.{◌≡◌};
ghost use Rattle.std.proofs.Common.{subst};
ghost use Rattle.asn1_schema_laws.specs.Tables.{IsValue};

use crate::Codec;
use crate::message_type::{MessageSchema, MessageType};
use asn1_schema_decode::{Decode, Refusal};
use asn1_schema_encode::Encode;
use asn1_schema_errors::EncodeError;
use asn1_schema_types::Described;
use std::alloc::Global;
use std::marker::PhantomData;

/// The messages of the type `T`.
#[derive(Drop)]
pub struct RustType<T> {
    values: PhantomData<T>,
}

impl<T> RustType<T> {
    /// The messages of the type `T`.
    #[inline(always)]
    pub fn new() -> RustType<T> {
        RustType {
            values: PhantomData,
        }
    }
}

impl<T: Described> MessageSchema for RustType<T> {
    ghost schema = { λ _. T.schema };
}

impl<T: Encode + Decode> MessageType for RustType<T> {
    type Value = T;

    ghost means = { λ _ x v. T.meaning x ≡ v };

    #[inline(always)]
    fn read_front<'input>(
        &self,
        alloc: Global,
        from: Codec,
        input: &'input [u8],
    ) -> Result<(T, &'input [u8]), Refusal> {
        from.decode_or_need(alloc, input)
    }

    #[inline(always)]
    fn write(&self, alloc: Global, to: Codec, value: &T) -> Result<Vec<u8>, EncodeError> {
        to.encode(alloc, value)
    }

    #[inline(always)]
    fn write_into(
        &self,
        alloc: Global,
        to: Codec,
        value: &T,
        room: &mut Vec<u8>,
        out: &mut Vec<u8>,
    ) -> Result<(), EncodeError> {
        to.encode_into(alloc, value, room, out)
    }

    ghost lawful = { λ _. T.typed.lawful 128 };

    ghost valued = { λ _ x v e. subst (IsValue T.schema) e (T.valued x) };
}
