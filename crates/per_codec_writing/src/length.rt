//! General length determinants, octet-aligned in the aligned variant (X.691 11.9.3.5 to 11.9.3.8).
ghost use Rattle.std.specs.Prelude.{◌≡◌, ◌∷◌, ◌<◌, ◌≤◌, true, IfOk, MatchResult};
ghost use Rattle.asn1_model.specs.Form.{exactly};
ghost use Rattle.asn1_model.specs.Numbers.{binary};
ghost use Rattle.asn1_model.specs.Per.{at_octet, short_length};
ghost use Rattle.per_codec_packing.specs.FieldLists.{field_list_at};
ghost use Rattle.per_codec_writing.specs.Headings.{general, Heads, IsDue};
ghost use Rattle.per_codec_writing.specs.Writing.{Adds, place};
ghost use Rattle.per_codec_rules.specs.Variants.{is_aligned};

use crate::padding::push_padding;
use asn1_schema_errors::EncodeError;
use per_codec_packing::Packing;
use per_codec_rules::{FRAGMENT, Variant};

/// The units still to come after a length determinant.
#[derive(Clone, Copy)]
pub struct Due {
    /// The number of units before the next length determinant or the end.
    pub units: usize,
    /// The number of units after the next length determinant, if there is one.
    pub behind: Option<usize>,
}

/// Adds the length determinant of `count` units, fewer than 16384: one octet below 128, else two (X.691 11.9.3.5 to
/// 11.9.3.7).
///
/// # Errors
///
/// Only `OutOfMemory`.
#[inline(always)]
pub fn push_short_length(
    output: &mut Packing,
    variant: Variant,
    count: usize,
) -> Result<(), EncodeError>
    requires { count < 16384 }
    ensures { MatchResult result (λ _. Adds
        (field_list_at (short_length (is_aligned variant) count) (place output.old)) output.old output.new)
        (λ e. e ≡ EncodeError.OutOfMemory) }
{
    push_padding(output, variant)?;
    if count < 0x80 {
        output.push_bits(count as u128, 8)?;
    } else {
        output.push_bits(0x8000 + count as u128, 16)?;
    }
    Ok(())
}

/// Adds the length determinant of a fragment of `multiple` times 16384 units, 1 to 4 times (X.691 11.9.3.8).
///
/// # Errors
///
/// Only `OutOfMemory`.
pub fn push_fragment_length(
    output: &mut Packing,
    variant: Variant,
    multiple: usize,
) -> Result<(), EncodeError>
    requires { multiple ≤ 4 }
    ensures { MatchResult result (λ _. Adds
        (field_list_at (at_octet (is_aligned variant) (exactly (true ∷ true ∷ binary 6 multiple))) (place output.old))
        output.old output.new) (λ e. e ≡ EncodeError.OutOfMemory) }
{
    push_padding(output, variant)?;
    output.push_bits(0xC0 + multiple as u128, 8)?;
    Ok(())
}

/// Adds the length determinant of the largest fragment of `count` units (X.691 11.9.3.8). The only error is
/// `OutOfMemory`.
#[cold]
fn push_largest_fragment(
    output: &mut Packing,
    variant: Variant,
    count: usize,
) -> Result<Due, EncodeError>
    requires { 16384 ≤ count }
    ensures heads { MatchResult result
        (λ due. Heads (general (is_aligned variant) count (place output.old)) output.old due output.new)
        (λ e. e ≡ EncodeError.OutOfMemory) }
    ensures due { IfOk result (λ due. IsDue count due) }
{
    let multiple = (count / FRAGMENT).min(4);
    push_fragment_length(output, variant, multiple)?;
    let units = multiple * FRAGMENT;
    Ok(Due {
        units,
        behind: Some(count - units),
    })
}

/// Adds the next length determinant of `count` units: that of the largest fragment or, if there are fewer than 16384,
/// that of all (X.691 11.9.3.5 to 11.9.3.8).
///
/// # Errors
///
/// Only `OutOfMemory`.
#[inline(always)]
pub fn push_length_determinant(
    output: &mut Packing,
    variant: Variant,
    count: usize,
) -> Result<Due, EncodeError>
    ensures heads { MatchResult result
        (λ due. Heads (general (is_aligned variant) count (place output.old)) output.old due output.new)
        (λ e. e ≡ EncodeError.OutOfMemory) }
    ensures due { IfOk result (λ due. IsDue count due) }
{
    if count < FRAGMENT {
        push_short_length(output, variant, count)?;
        return Ok(Due {
            units: count,
            behind: None,
        });
    }
    push_largest_fragment(output, variant, count)
}
