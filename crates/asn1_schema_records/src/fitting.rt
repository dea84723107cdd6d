//! Whether a kept item fits the requested record, and its value in a Rust type.
ghost use Rattle.std.specs.Prelude.{◌≡◌, ◌<◌, ◌↔◌, true, cond, length, IsTrue, OnOk, IfErr, IfOk};
ghost use Rattle.asn1_model.specs.Numbers.{is_within, is_count_within};
ghost use Rattle.asn1_schema_constraints.specs.Bounds.{counts_of};
ghost use Rattle.asn1_schema_constraints.specs.Terms.{admits_whole, sizes_of};
ghost use Rattle.asn1_schema_records.specs.Kept.{sizes_in};
ghost use Rattle.asn1_schema_records.specs.Taken.{IsUntaken, IsUnspelled};
ghost use Rattle.asn1_values_alphabets.specs.Permitted.{permits_all};

use crate::Sizes;
use asn1_schema_constraints::{Bounded, Constraints};
use asn1_schema_errors::DecodeError;
use asn1_schema_tags::{Chosen, TagTables};
use asn1_values_alphabets::StaticPermittedAlphabet;
use asn1_values_integers::{Integer, IntegerError, IntegerType};
use std::alloc::Global;

/// Whether the constraints have just these sizes, and the Rust type holds `count` units.
pub(crate) fn are_sizes(
    sizes: Sizes,
    constraints: &Constraints,
    held: Bounded<usize>,
    count: usize,
) -> bool
    ensures { IsTrue result ↔ ((sizes_in sizes ≡ sizes_of constraints.now.size)
        × (is_count_within (counts_of held) count ≡ true)) }
{
    sizes.are_among(constraints) && held.contains(&count)
}

/// Whether a choice of these alternatives has this one.
pub(crate) fn is_alternative(tables: &TagTables<'_>, chosen: Chosen) -> bool
    ensures { IsTrue result ↔ (chosen.place < length (cond chosen.added tables.now.additions tables.now.roots)) }
{
    let tags = if chosen.added {
        tables.additions()
    } else {
        tables.roots()
    };
    chosen.place < tags.len()
}

/// Whether a number is one of 128 bits and within bounds that have no extension marker, where there is a value
/// constraint.
fn is_admitted(constraints: &Constraints, number: &Integer) -> bool
    ensures { result ≡ admits_whole constraints.now.value number.now }
{
    match constraints.value {
        None => true,
        Some(constraint) => {
            Bounded::const_new(i128::MIN, i128::MAX).in_bound(number)
                && (constraint.extensible.is_some() || constraint.constraint.value.in_bound(number))
        }
    }
}

/// The number in a type of the program, if that holds it and the constraints admit it.
pub(crate) fn number_within<I: IntegerType>(
    alloc: Global,
    number: &Integer,
    constraints: &Constraints,
) -> Result<I, DecodeError>
    ensures value { IfOk result (λ x. I.value x ≡ number.now) }
    ensures held { OnOk result (is_within I.held number.now ≡ true) }
    ensures admitted { OnOk result (admits_whole constraints.now.value number.now ≡ true) }
    ensures refused { IfErr result (IsUntaken constraints.now.value I.held number.now) }
{
    if !is_admitted(constraints, number) {
        return Err(DecodeError::ValueConstraintNotSatisfied);
    }
    match I::try_from_signed_bytes(alloc, number.to_signed_bytes_be().as_slice()) {
        Ok(value) => Ok(value),
        Err(IntegerError::Memory) => Err(DecodeError::OutOfMemory),
        Err(IntegerError::Overflow) => Err(DecodeError::IntegerOverflow),
        Err(IntegerError::Empty) => Err(DecodeError::IntegerOverflow),
    }
}

/// Whether a string of the type may hold these characters.
fn are_permitted<S: StaticPermittedAlphabet>(characters: &[u32]) -> bool
    ensures { result ≡ permits_all S.kind characters.now }
{
    for character in characters {
        if !S::contains_char(*character) {
            return false;
        }
    }
    true
}

/// The string of these characters.
pub(crate) fn string_of<S: StaticPermittedAlphabet>(
    alloc: Global,
    characters: &[u32],
) -> Result<S, DecodeError>
    ensures value { IfOk result (λ s. S.characters s ≡ characters.now) }
    ensures permitted { OnOk result (permits_all S.kind characters.now ≡ true) }
    ensures refused { IfErr result (IsUnspelled S.kind characters.now) }
{
    if !are_permitted::<S>(characters) {
        return Err(DecodeError::PermittedAlphabet);
    }
    let Ok(mut string) = S::with_capacity(alloc, characters.len()) else {
        return Err(DecodeError::OutOfMemory);
    };
    for character in characters {
        let Ok(()) = string.push_char(*character) else {
            return Err(DecodeError::OutOfMemory);
        };
    }
    Ok(string)
}
