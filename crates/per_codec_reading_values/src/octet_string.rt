//! OCTET STRING (X.691 17).
ghost use Rattle.std.specs.Prelude.{◌≡◌, ◌≤◌, ◌+◌, ◌%◌, length, drop, Some, None, IfOk, IfErr};
ghost use Rattle.asn1_model.specs.Per as Per;
ghost use Rattle.asn1_model.specs.Schema as Asn1;
ghost use Rattle.asn1_model.specs.Value as Asn1Value;
ghost use Rattle.asn1_schema_constraints.specs.Bounds.{counts_of};
ghost use Rattle.asn1_schema_constraints.specs.Terms.{size_of};
ghost use Rattle.asn1_values_bits.specs.BitStr.{bits_of, offset_of};
ghost use Rattle.per_codec_laws.specs.Takes.{Front};
ghost use Rattle.per_codec_reading.specs.Fronts.{freedoms, Misses};
ghost use Rattle.per_codec_reading.specs.Fronts as fronts;
ghost use Rattle.per_codec_reading.specs.Runs.{bits_in, EndsAtOctet, InOneRun, storage_of};
ghost use Rattle.per_codec_reading.specs.Headings.{told_in_front};
ghost use Rattle.per_codec_reading.specs.Octets.{octets_of, AreLent};
ghost use Rattle.per_codec_reading_values.specs.Fields.{EndsAt};

use asn1_schema_constraints::{Bounded, Sizes};
use asn1_schema_errors::DecodeError;
use asn1_values_bits::{BitBuffer, BitStr};
use per_codec_reading::lending::lent_by;
use per_codec_reading::{Contents, Cursor, InputOctets, PackedRules, Run, RunBits, read_sized};
use std::alloc::Global;

/// Reads an OCTET STRING (X.691 17) under a size constraint, for a Rust type that holds `held`, at a position of
/// these bits. Returns it with the position after it. Octets in one run that begins at an octet of the storage, as
/// they do if they end at one, are borrowed, without an allocation.
///
/// # Errors
///
/// `SizeConstraintNotSatisfied` if the size or the Rust type does not admit their number, `Incomplete` if the bits
/// end early, `NotValidCanonicalEncoding` if another form is canonical, in strict rules, the errors of a constrained
/// whole number and of a length determinant, and `OutOfMemory`.
#[inline(always)]
fn read_octet_string<'input>(
    alloc: Global,
    bits: BitStr<'input>,
    position: usize,
    rules: PackedRules,
    sizes: Sizes,
    held: Bounded<usize>,
) -> Result<(InputOctets<'input>, usize), DecodeError>
    requires { position ≤ length (bits_of bits) }
    ensures ok { IfOk result (λ read. EndsAt (freedoms rules)
        (Per.form (fronts.is_aligned rules) (Asn1.octet_string (size_of sizes) (counts_of held))
        (Asn1Value.octet_list (octets_of read.0))) (position, drop position (bits_of bits.entry)) read.1) }
    ensures lent { IfOk result (λ read. InOneRun
        (told_in_front (size_of sizes) (drop position (bits_of bits.entry))) (length (octets_of read.0))
        → EndsAtOctet (Some (offset_of bits.entry)) read.1 → AreLent read.0) }
    ensures only { IfErr result (Misses (freedoms rules)
        (Per.form (fronts.is_aligned rules) (Asn1.octet_string (size_of sizes) (counts_of held)))
        (position, drop position (bits_of bits.entry))) }
{
    let mut cursor = Cursor::at(bits, position);
    let units = read_sized(alloc, &mut cursor, rules, sizes, held, 8, Contents::Strings)?;
    let end = cursor.position();
    let run = Run {
        count: units.count,
        bits: lent_by(bits, end, units.bits),
    };
    let octets = run.into_octets(alloc)?;
    Ok((octets, end))
}

/// The same from owned bits, from which nothing is borrowed.
fn read_held_octets(
    alloc: Global,
    bits: &BitBuffer,
    position: usize,
    rules: PackedRules,
    sizes: Sizes,
    held: Bounded<usize>,
) -> Result<(Vec<u8>, usize), DecodeError>
    requires { position ≤ length bits.now }
    ensures ok { IfOk result (λ read. EndsAt (freedoms rules)
        (Per.form (fronts.is_aligned rules) (Asn1.octet_string (size_of sizes) (counts_of held))
        (Asn1Value.octet_list read.0.items)) (position, drop position bits.now) read.1) }
    ensures only { IfErr result (Misses (freedoms rules)
        (Per.form (fronts.is_aligned rules) (Asn1.octet_string (size_of sizes) (counts_of held)))
        (position, drop position bits.now)) }
{
    let (octets, end) = read_octet_string(alloc, bits.as_bitslice(), position, rules, sizes, held)?;
    let octets = octets.into_vec(alloc)?;
    Ok((octets, end))
}

/// Takes an OCTET STRING (X.691 17) at a position of the bits. Returns it with the position after it. It is borrowed
/// if the bits are and the octets are in one run of them that ends, and so begins, at an octet.
///
/// # Errors
///
/// Those of [`read_octet_string`].
#[inline(always)]
pub(crate) fn take_octet_string<'input>(
    alloc: Global,
    bits: &RunBits<'input>,
    position: usize,
    rules: PackedRules,
    sizes: Sizes,
    held: Bounded<usize>,
) -> Result<(InputOctets<'input>, usize), DecodeError>
    requires { position ≤ length (bits_in bits.now) }
    ensures ok { IfOk result (λ taken. EndsAt (freedoms rules)
        (Per.form (fronts.is_aligned rules) (Asn1.octet_string (size_of sizes) (counts_of held))
        (Asn1Value.octet_list (octets_of taken.0))) (position, drop position (bits_in bits.now)) taken.1) }
    ensures lent { IfOk result (λ taken. InOneRun
        (told_in_front (size_of sizes) (drop position (bits_in bits.now))) (length (octets_of taken.0))
        → EndsAtOctet (storage_of bits.now) taken.1 → AreLent taken.0) }
    ensures only { IfErr result (Misses (freedoms rules)
        (Per.form (fronts.is_aligned rules) (Asn1.octet_string (size_of sizes) (counts_of held)))
        (position, drop position (bits_in bits.now))) }
{
    match bits {
        RunBits::Lent(bits) => read_octet_string(alloc, *bits, position, rules, sizes, held),
        RunBits::Joined(bits) => {
            let (octets, end) = read_held_octets(alloc, bits, position, rules, sizes, held)?;
            Ok((InputOctets::Owned(octets), end))
        }
    }
}
