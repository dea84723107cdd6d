//! Numbers as digits, octets and bits (X.691 11.3 and 11.4, X.696 10): positional sums, and the fewest digits that
//! hold a number. Object identifiers and character strings by their octets.

ghost use Rattle.asn1_laws_numbers.specs.Laws.{DigitsAreASum, FewestDigits, ComplementIsASum, FewestOctets};
ghost use Rattle.asn1_laws_numbers.specs.Laws.{BitsAreDigits, OctetsAndBits, IdentifiersAreTold};
ghost use Rattle.asn1_laws_numbers.specs.Laws.{OctetsStandAsBits, Utf8IsText};
ghost use Rattle.asn1_laws_numbers.specs.Padded.{OerNumbersAreSums, PerNumbersAreSums, PerRangesAreSums};

/// A number that fits a given count of digits is the positional sum of that many digits, each below the base.
pub fn digits_are_a_sum()
    ensures { DigitsAreASum }
{}

/// The fewest digits that hold a number are as many as it has; no fewer do.
pub fn fewest_digits()
    ensures { FewestDigits }
{}

/// Octets in two's complement are a positional sum: of the number, or of the number plus the power of 256 that they
/// leave out.
pub fn complement_is_a_sum()
    ensures { ComplementIsASum }
{}

/// The octets of a number, unsigned or in two's complement, are the fewest that hold it, and at least one.
pub fn fewest_octets()
    ensures { FewestOctets }
{}

/// The bits of a number are its digits to base 2.
pub fn bits_are_digits()
    ensures { BitsAreDigits }
{}

/// Bits determine their octets, and octets determine their bits.
pub fn octets_and_bits()
    ensures { OctetsAndBits }
{}

/// The octets of an object identifier determine it.
pub fn identifiers_are_told()
    ensures { IdentifiersAreTold }
{}

/// A UTF8String may hold exactly what a `str` of std may: the octets of some characters.
pub fn utf8_is_text()
    ensures { Utf8IsText }
{}

/// In OER, a reader that accepts more octets than needed accepts exactly the octets whose positional sum is the
/// number, in two's complement if it is signed (X.696 10).
pub fn oer_numbers_are_sums()
    ensures { OerNumbersAreSums }
{}

/// The same holds in PER, aligned or not (X.691 11.7 and 11.8).
pub fn per_numbers_are_sums()
    ensures { PerNumbersAreSums }
{}

/// The same holds in the aligned variant for a range of more than 65536 numbers, after the length, which is a
/// constrained whole number (X.691 11.5.7.4 and 13.2.6).
pub fn per_ranges_are_sums()
    ensures { PerRangesAreSums }
{}

/// Octets have the same order as their bits, so in PER the elements of a SET OF are in the order of their octets.
pub fn octets_stand_as_bits()
    ensures { OctetsStandAsBits }
{}
