//! Laws of two's complement.
ghost use Rattle.std.specs.Prelude.{◌≡◌, ℕ, ◌<◌, ◌≤◌, ◌^◌, ℤ, List, length, false};
ghost use Rattle.std.specs.List.{AllByRecursion};
ghost use Rattle.asn1_model.specs.Numbers.{complement, digits, signed_octets};
ghost use Rattle.asn1_values_natives.specs.Octets.{signed_number, unsigned_number, signed_octets_of, is_padded};
ghost use Rattle.std.specs.Int.Digits.{number_from_digits};

/// Encoding and decoding in two's complement are inverses (X.690 8.3.3): the octets of a number decode to that number,
/// and octets are the encoding, of their length, of the number they decode to.
pub fn octets_stand_for_their_number()
    ensures number { (z : ℤ) → signed_number (signed_octets_of z) ≡ z }
    ensures octets { (os : List ℕ) → AllByRecursion (λ o. o < 256) os → 0 < length os
        → complement (length os) (signed_number os) ≡ os }
{}

/// No octets are shorter than the fewest octets of the number they encode, and octets are these exactly if their first
/// nine bits are not all equal (X.690 8.3.2).
pub fn octets_are_fewest()
    ensures fewest { (os : List ℕ) → AllByRecursion (λ o. o < 256) os → 0 < length os
        → length (signed_octets_of (signed_number os)) ≤ length os }
    ensures count { (z : ℤ) → length (signed_octets_of z) ≡ signed_octets z }
    ensures kept { (os : List ℕ) → AllByRecursion (λ o. o < 256) os → 0 < length os → is_padded os ≡ false
        → signed_octets_of (signed_number os) ≡ os }
    ensures bare { (z : ℤ) → is_padded (signed_octets_of z) ≡ false }
{}

/// The positional sum of octets is the number whose base-256 digits, as the model defines them, are the octets.
pub fn octets_are_digits()
    ensures sum { (os : List ℕ) → unsigned_number os ≡ number_from_digits 256 os }
    ensures digits { (os : List ℕ) → AllByRecursion (λ o. o < 256) os → digits 256 (length os) (unsigned_number os)
        ≡ os }
    ensures number { (k n : ℕ) → n < 256 ^ k → unsigned_number (digits 256 k n) ≡ n }
{}
