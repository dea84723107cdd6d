//! Plain types: all rules encode the same values of them.

ghost use Rattle.asn1_laws_values.specs.PlainLaws.{PlainEncoded};

/// In all rules exactly the values of a plain type have an encoding, apart from the limit on its length.
pub fn plain_encoded()
    ensures { PlainEncoded }
{}
