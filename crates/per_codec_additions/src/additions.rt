//! Extension additions of sequences and sets (X.691 19.7 to 19.9).
ghost use Rattle.std.specs.Prelude.{◌≡◌, ◌≤◌, length, map, MatchResult};
ghost use Rattle.asn1_model.specs.Form.{joined, present_ones};
ghost use Rattle.asn1_model.specs.Numbers.{binary};
ghost use Rattle.asn1_model.specs.Per.{additions, normally_few, bit_units};
ghost use Rattle.per_codec_packing.specs.FieldLists.{as_field_list, field_list_at};
ghost use Rattle.per_codec_writing.specs.Writing.{Adds, place, plus};
ghost use Rattle.per_codec_additions.specs.Additions.{as_open_types};
ghost use Rattle.per_codec_additions.specs.Slots.{all_bits, is_there, EachIsSlotOf};
ghost use Rattle.per_codec_rules.specs.Variants.{is_aligned};

use crate::slots::{Slot, Slots};
use asn1_schema_errors::EncodeError;
use per_codec_packing::Packing;
use per_codec_rules::Variant;
use per_codec_writing::{Units, push_counted};

/// Adds units after a normally small length: for up to 64 units a zero bit and six bits, else a one bit and a length
/// determinant (X.691 11.9.3.4).
///
/// # Errors
///
/// Only `OutOfMemory`.
pub fn push_normally_few<U: Units>(
    output: &mut Packing,
    variant: Variant,
    units: &U,
) -> Result<(), EncodeError>
    ensures { MatchResult result (λ _. Adds
        (field_list_at (normally_few (is_aligned variant) (U.forms units.now)) (place output.old))
        output.old output.new)
        (λ e. e ≡ EncodeError.OutOfMemory) }
{
    let count = units.count();
    if 1 <= count && count <= 64 {
        output.push_bits(count as u128 - 1, 7)?;
        units.push_range(output, 0, count)?;
        return Ok(());
    }
    output.push(true)?;
    push_counted(output, variant, units)?;
    Ok(())
}

/// The number whose binary digits are the presence bits of the additions, the first one most significant (X.691
/// 19.8).
fn presence_number(slots: &[Slot]) -> u128
    requires { length slots.now ≤ 64 }
    ensures { binary (length slots.now) result ≡ map is_there slots.now }
{
    let mut number = 0u128;
    for slot in slots {
        number = number * 2 + u128::from(slot.is_present());
    }
    number
}

/// Adds the presence bits of the additions, 64 at a time (X.691 19.8). The only error is `OutOfMemory`.
fn push_presence_bits(output: &mut Packing, slots: &[Slot]) -> Result<(), EncodeError>
    ensures { MatchResult result
        (λ _. output.new ≡ plus output.old (as_field_list (map is_there slots.now)))
        (λ e. e ≡ EncodeError.OutOfMemory) }
{
    let mut rest = slots;
    while rest.len() > 0 {
        let few = rest.len().min(64);
        output.push_bits(presence_number(&rest[..few]), few as u32)?;
        rest = &rest[few..];
    }
    Ok(())
}

/// Additions as units: their presence bits (X.691 19.8).
#[derive(Drop)]
struct PresenceBits<'a> {
    slots: &'a [Slot],
}

impl Units for PresenceBits<'_> {
    ghost forms = { λ units. bit_units (map is_there units.slots.now) };

    fn count(&self) -> usize {
        self.slots.len()
    }

    fn push_range(&self, output: &mut Packing, from: usize, to: usize) -> Result<(), EncodeError> {
        push_presence_bits(output, &self.slots[from..to])?;
        Ok(())
    }
}

/// Adds the presence bits of the additions after a normally small length (X.691 19.7 and 19.8), without a buffer for
/// them. The only error is `OutOfMemory`.
fn push_presence(output: &mut Packing, variant: Variant, slots: &[Slot]) -> Result<(), EncodeError>
    ensures { MatchResult result (λ _. Adds
        (field_list_at (normally_few (is_aligned variant) (bit_units (map is_there slots.now))) (place output.old))
        output.old output.new) (λ e. e ≡ EncodeError.OutOfMemory) }
{
    let units = PresenceBits { slots };
    push_normally_few(output, variant, &units)?;
    Ok(())
}

/// Adds each addition that is present as an open type (X.691 19.9). The only error is `OutOfMemory`.
fn push_present(
    output: &mut Packing,
    variant: Variant,
    slots: &[Slot],
    shared: &[u8],
) -> Result<(), EncodeError>
    requires { EachIsSlotOf shared.now slots.now }
    ensures { MatchResult result (λ _. Adds
        (field_list_at (joined (present_ones (as_open_types (is_aligned variant) (all_bits shared.now slots.now))))
        (place output.old))
        output.old output.new)
        (λ e. e ≡ EncodeError.OutOfMemory) }
{
    for slot in slots {
        slot.push(output, variant, shared)?;
    }
    Ok(())
}

/// Adds the extension additions of a sequence or set: their number, their presence bits, and those that are present
/// as open types (X.691 19.7 to 19.9).
///
/// # Errors
///
/// Only `OutOfMemory`.
pub fn push_additions(
    output: &mut Packing,
    variant: Variant,
    slots: &Slots,
) -> Result<(), EncodeError>
    ensures { MatchResult result (λ _. Adds
        (field_list_at (additions (is_aligned variant) (as_open_types (is_aligned variant) slots.now))
        (place output.old))
        output.old output.new)
        (λ e. e ≡ EncodeError.OutOfMemory) }
{
    let places = slots.slots.as_slice();
    push_presence(output, variant, places)?;
    push_present(output, variant, places, slots.shared.as_slice())?;
    Ok(())
}
