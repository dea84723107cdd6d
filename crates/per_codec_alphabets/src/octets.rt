//! Strings that are encoded as the octets of their characters.
ghost use Rattle.std.specs.Prelude.{◌≡◌};
ghost use Rattle.per_codec_alphabets.specs.Octets.{have_octet_codes as are_own_codes, alphabet_counts as counts};
ghost use Rattle.per_codec_alphabets.specs.Octets.{is_encoded_as_octets as as_octets};
ghost use Rattle.per_codec_rules.specs.Variants.{is_aligned};

use asn1_schema_constraints::{Constraints, Extensible, PermittedAlphabet};
use asn1_values_alphabets::StaticPermittedAlphabet;
use per_codec_rules::Variant;

/// Whether each character of a string type has one octet as its code in the aligned variant, its number, if no
/// constraint is PER-visible (X.691 30.5.2 and 30.5.4).
#[inline(always)]
fn have_octet_codes<S: StaticPermittedAlphabet>() -> bool
    ensures { result ≡ are_own_codes S.kind }
{
    S::contains_char(65) && !S::contains_char(0x80)
}

/// Whether a permitted alphabet is PER-visible: one with an extension marker is not.
#[inline(always)]
fn alphabet_counts(alphabet: Option<Extensible<PermittedAlphabet>>) -> bool
    ensures { result ≡ counts alphabet.entry }
{
    match alphabet {
        Some(narrower) => narrower.extensible.is_none(),
        None => false,
    }
}

/// Whether the variant is the aligned one, each character of the type `S` has its number as a code of one octet,
/// there is no size constraint, and no permitted alphabet is PER-visible. A string is then encoded as the octets of
/// its characters after a general length determinant (X.691 30.5). Some other strings are encoded so too, as
/// VisibleString (FROM ("A".."Z" | "a".."z")); this function does not recognize them.
#[inline(always)]
pub fn is_encoded_as_octets<S: StaticPermittedAlphabet>(
    variant: Variant,
    constraints: &Constraints,
) -> bool
    ensures { result ≡ as_octets (is_aligned variant) S.kind constraints.now.size
        constraints.now.permitted_alphabet }
{
    variant.is_aligned()
        && have_octet_codes::<S>()
        && constraints.size.is_none()
        && !alphabet_counts(constraints.permitted_alphabet)
}
