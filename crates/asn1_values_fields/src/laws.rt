//! Laws of writing and reading fields.
ghost use Rattle.std.specs.Prelude.{◌≡◌, ◌++◌, Bool, List, map, Some, ℕ};
ghost use Rattle.asn1_values_fields.specs.declared.field_bits.FieldBits.{FieldBits};
ghost use Rattle.asn1_values_fields.specs.declared.field_shape.FieldValue.{FieldValue};
ghost use Rattle.asn1_values_fields.specs.declared.fault.FieldFaultKind.{FieldFaultKind};
ghost use Rattle.asn1_values_fields.specs.Written.{bits_of_fields};
ghost use Rattle.asn1_values_fields.specs.Read.{AreValuesOf, IsFirstUnread};
ghost use Rattle.asn1_values_fields.specs.ReadBack.{shape_of, AreSame, AreFields, AreValues};

/// What `write_fields` wrote reads back: given the shapes of the fields, `read_fields` takes exactly these fields off
/// the start of their bits and leaves what follows. It fails only if memory runs out.
pub fn written_fields_are_read()
    ensures same { (fs : List FieldBits) (vs : List FieldValue) (bits behind left : List Bool) → AreFields fs
        → AreValues vs → bits_of_fields fs ≡ Some bits → AreValuesOf (map shape_of fs) vs (bits ++ behind) left
        → AreSame fs vs }
    ensures left { (fs : List FieldBits) (vs : List FieldValue) (bits behind left : List Bool) → AreFields fs
        → AreValues vs → bits_of_fields fs ≡ Some bits → AreValuesOf (map shape_of fs) vs (bits ++ behind) left → left
        ≡ behind }
    ensures taken { (fs : List FieldBits) (bits behind : List Bool) (place : ℕ) (kind : FieldFaultKind) → AreFields fs
        → bits_of_fields fs ≡ Some bits → IsFirstUnread (map shape_of fs) (bits ++ behind) place kind → kind
        ≡ FieldFaultKind.Memory }
{}
