//! Character strings (X.691 30).
ghost use Rattle.std.specs.Prelude.{◌≡◌, ℕ, true, false, MatchResult};
ghost use Rattle.asn1_model.specs.Per.{characters, counted_octets, form, sized};
ghost use Rattle.asn1_model.specs.Schema.{character_string, StringKind};
ghost use Rattle.asn1_model.specs.Strings.{characters_of, is_of_octets as holds_octets, permitted};
ghost use Rattle.std.specs.List.{list_all};
ghost use Rattle.asn1_model.specs.Schema.{any_count};
ghost use Rattle.asn1_model.specs.Value.{text};
ghost use Rattle.asn1_schema_constraints.specs.Terms.{sizes_of, size_of, alphabet_of};
ghost use Rattle.asn1_values_alphabets.specs.Permitted.{permits_all};
ghost use Rattle.per_codec_alphabets.specs.Codes.{SameCharacters, has_code, text_of};
ghost use Rattle.per_codec_packing.specs.FieldLists.{field_list_at};
ghost use Rattle.per_codec_writing.specs.Characters.{low_bits, field_lists_of};
ghost use Rattle.per_codec_writing.specs.Units.{unit_forms};
ghost use Rattle.per_codec_writing.specs.Writing.{Adds, Refuses, place};
ghost use Rattle.per_codec_rules.specs.Variants.{is_aligned};

use crate::character_units::CharacterUnits;
use crate::number_units::NumberUnits;
use crate::{push_counted, push_counted_octets, push_sized};
use asn1_schema_constraints::{Bounded, Constraints, Extensible, PermittedAlphabet, Sizes};
use asn1_schema_errors::EncodeError;
use asn1_values_alphabets::StaticPermittedAlphabet;
use per_codec_alphabets::{EffectiveAlphabet, is_encoded_as_octets, is_of_octets};
use per_codec_packing::Packing;
use per_codec_rules::{Variant, characters_have_padding};
use std::alloc::Global;

/// Adds the octets of a string whose characters have no fixed width, after a length determinant (X.691 30).
fn push_octets<S: StaticPermittedAlphabet>(
    output: &mut Packing,
    variant: Variant,
    alloc: Global,
    value: &S,
) -> Result<(), EncodeError>
    requires kind { holds_octets S.kind ≡ true }
    requires permitted { permits_all S.kind (S.characters value.now) ≡ true }
    ensures { MatchResult result (λ _. Adds
        (field_list_at (counted_octets (is_aligned variant) (S.characters value.now)) (place output.old)) output.old
        output.new)
        (λ e. e ≡ EncodeError.OutOfMemory) }
{
    let alphabet = EffectiveAlphabet::new::<S>(alloc, variant, None)?;
    let units = CharacterUnits {
        alphabet: &alphabet,
        string: value,
    };
    push_counted(output, variant, &units)?;
    Ok(())
}

/// Whether a permitted alphabet can exclude characters of a type: one with an extension marker does not count.
#[inline(always)]
fn is_narrowed(alphabet: Option<Extensible<PermittedAlphabet>>) -> bool
    ensures { result ≡ false → (k : StringKind) → permitted k (alphabet_of alphabet.entry) ≡ characters_of k }
{
    match alphabet {
        Some(narrower) => narrower.extensible.is_none(),
        None => false,
    }
}

/// Whether each character is in the effective permitted alphabet. If it excludes none, all characters of a string
/// are.
#[inline(always)]
fn have_codes<S: StaticPermittedAlphabet>(
    alphabet: Option<Extensible<PermittedAlphabet>>,
    units: &CharacterUnits<S>,
) -> bool
    requires { SameCharacters units.now.alphabet.now.runs (permitted S.kind (alphabet_of alphabet)) }
    ensures { result ≡ list_all (has_code units.now.alphabet.now) (S.characters units.now.string.now) }
{
    // For the proof: all characters of a string are in its type.
    let _count = units.string.char_count();
    if is_narrowed(alphabet) {
        return units.has_codes();
    }
    true
}

/// Adds characters whose codes are their numbers minus `base`, under a size. If the string stores them as octets,
/// several are added at a time.
#[inline(always)]
fn push_based<S: StaticPermittedAlphabet>(
    output: &mut Packing,
    variant: Variant,
    sizes: Sizes,
    has_padding: bool,
    units: &CharacterUnits<S>,
    base: u8,
) -> Result<(), EncodeError>
    requires coded { list_all (has_code units.now.alphabet.now) (S.characters units.now.string.now) ≡ true }
    requires codes { (c : ℕ) → has_code units.now.alphabet.now c ≡ true
        → text_of units.now.alphabet.now c ≡ low_bits base units.now.alphabet.now.code_bits c }
    ensures { MatchResult result (λ _. Adds
        (field_list_at (sized (is_aligned variant) (size_of sizes) any_count (λ _. has_padding)
        (unit_forms (field_lists_of units.now.alphabet.now (S.characters units.now.string.now))))
        (place output.old)) output.old output.new)
        (Refuses (field_list_at (sized (is_aligned variant) (size_of sizes) any_count (λ _. has_padding)
        (unit_forms (field_lists_of units.now.alphabet.now (S.characters units.now.string.now))))
        (place output.old))) }
{
    if let Some(octets) = units.octets() {
        let width = units.alphabet.width();
        let numbers = NumberUnits {
            octets,
            width,
            base,
        };
        return push_sized(output, variant, sizes, Bounded::None, has_padding, &numbers);
    }
    push_sized(output, variant, sizes, Bounded::None, has_padding, units)
}

/// Adds characters by their codes, under a size. If the string stores them as octets, several are added at a time.
#[inline(always)]
fn push_coded<S: StaticPermittedAlphabet>(
    output: &mut Packing,
    variant: Variant,
    sizes: Sizes,
    has_padding: bool,
    units: &CharacterUnits<S>,
) -> Result<(), EncodeError>
    requires { list_all (has_code units.now.alphabet.now) (S.characters units.now.string.now) ≡ true }
    ensures { MatchResult result (λ _. Adds
        (field_list_at (sized (is_aligned variant) (size_of sizes) any_count (λ _. has_padding)
        (unit_forms (field_lists_of units.now.alphabet.now (S.characters units.now.string.now))))
        (place output.old)) output.old output.new)
        (Refuses (field_list_at (sized (is_aligned variant) (size_of sizes) any_count (λ _. has_padding)
        (unit_forms (field_lists_of units.now.alphabet.now (S.characters units.now.string.now))))
        (place output.old))) }
{
    if let Some(base) = units.base() {
        return push_based(output, variant, sizes, has_padding, units, base);
    }
    push_sized(output, variant, sizes, Bounded::None, has_padding, units)
}

/// Adds the characters of a string by their codes, after a length determinant (X.691 30.5).
#[inline(always)]
fn push_codes<S: StaticPermittedAlphabet>(
    output: &mut Packing,
    variant: Variant,
    alloc: Global,
    constraints: &Constraints,
    value: &S,
) -> Result<(), EncodeError>
    ensures { MatchResult result (λ _. Adds
        (field_list_at (characters (is_aligned variant) (sizes_of constraints.now.size) any_count
        (permitted S.kind (alphabet_of constraints.now.permitted_alphabet)) (S.characters value.now))
        (place output.old)) output.old output.new)
        (Refuses (field_list_at (characters (is_aligned variant) (sizes_of constraints.now.size) any_count
        (permitted S.kind (alphabet_of constraints.now.permitted_alphabet)) (S.characters value.now))
        (place output.old))) }
{
    let permitted = constraints.permitted_alphabet;
    let alphabet = EffectiveAlphabet::new::<S>(alloc, variant, permitted)?;
    let units = CharacterUnits {
        alphabet: &alphabet,
        string: value,
    };
    if !have_codes(permitted, &units) {
        return Err(EncodeError::AlphabetConstraintNotSatisfied);
    }
    let sizes = constraints.sizes();
    let has_padding = characters_have_padding(sizes.root, alphabet.width(), value.char_count());
    push_coded(output, variant, sizes, has_padding, &units)?;
    Ok(())
}

/// Adds a restricted character string other than UTF8String (X.691 30).
///
/// # Errors
///
/// `AlphabetConstraintNotSatisfied` if the constraint does not permit one of the characters,
/// `SizeConstraintNotSatisfied` if the size does not admit their number, and `OutOfMemory`.
#[inline(always)]
pub fn push_characters<S: StaticPermittedAlphabet>(
    output: &mut Packing,
    variant: Variant,
    alloc: Global,
    constraints: &Constraints,
    value: &S,
) -> Result<(), EncodeError>
    ensures { MatchResult result (λ _. Adds
        (field_list_at (form (is_aligned variant) (character_string S.kind (sizes_of constraints.now.size)
        (alphabet_of constraints.now.permitted_alphabet) any_count) (text (S.characters value.now)))
        (place output.old)) output.old output.new)
        (Refuses (field_list_at (form (is_aligned variant)
        (character_string S.kind (sizes_of constraints.now.size)
        (alphabet_of constraints.now.permitted_alphabet) any_count) (text (S.characters value.now)))
        (place output.old))) }
{
    // For the proof: all characters of a string are in its type.
    let _count = value.char_count();
    if is_of_octets::<S>() {
        push_octets(output, variant, alloc, value)?;
        return Ok(());
    }
    if is_encoded_as_octets::<S>(variant, constraints) {
        if let Some(octets) = value.char_octets() {
            push_counted_octets(output, variant, octets)?;
            return Ok(());
        }
    }
    push_codes(output, variant, alloc, constraints, value)?;
    Ok(())
}
