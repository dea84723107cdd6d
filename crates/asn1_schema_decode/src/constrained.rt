//! How an INTEGER within a range that the type fixes is decoded (X.680 19 and 51.4).
ghost use Rattle.std.specs.Prelude.{◌≡◌, true};
ghost use Rattle.asn1_model.specs.Numbers.{is_within};
ghost use Rattle.asn1_values_integers.specs.Constrained.{between, constrained_number};

use crate::decode::{Decode, Decoder};
use asn1_schema_constraints::Constraints;
use asn1_schema_errors::DecodeError;
use asn1_schema_tags::Tag;
use asn1_schema_types::constrained::{no_number, within_range};
use asn1_values_integers::{Ends, RangedInteger};
use std::alloc::Global;

impl<R: Ends> Decode for RangedInteger<R> {
    fn decode_with_tag_and_constraints<D: Decoder>(
        alloc: Global,
        decoder: &mut D,
        tag: Tag,
        constraints: &Constraints,
    ) -> Result<Self, DecodeError> {
        if R::START > R::END {
            let _octet: u8 = decoder.decode_integer(alloc, tag, &no_number())?;
            unreachable!()
        }
        let range = within_range(constraints, R::START, R::END);
        let number: i128 = decoder.decode_integer(alloc, tag, &range)?;
        let value = ranged_integer(number);
        Ok(value)
    }
}

// The decoded number, which is within the range.
fn ranged_integer<R: Ends>(number: i128) -> RangedInteger<R>
    requires within { is_within (between R.START R.END) number ≡ true }
    ensures { constrained_number result ≡ number }
{
    match RangedInteger::try_from(number) {
        Ok(value) => value,
        Err(_) => unreachable!(),
    }
}
