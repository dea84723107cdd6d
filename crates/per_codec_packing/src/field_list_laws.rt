//! Laws of the field-lists of PER (X.691): bits, and padding to octet boundaries that is open while the position is
//! unknown. The functions do nothing: each contract is a law.

ghost use Rattle.per_codec_packing.specs.Laws.{KnownFieldLists, OwnFieldLists};

/// At a known position the field-list of a form is the bits written there.
pub fn known_field_lists()
    ensures { KnownFieldLists }
{}

/// A field-list, taken as a form, is that field-list again at an unknown position.
pub fn own_field_lists()
    ensures { OwnFieldLists }
{}
