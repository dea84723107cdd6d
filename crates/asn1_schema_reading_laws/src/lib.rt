//! What the readers of all rules have in common: the bits of a preamble and of a presence bitmap, the types without a
//! SET OF, and the law that the records found by a reader are those of a value that has the form of its type.
#![tactic(auto)]

ghost use Rattle.asn1_schema_laws.specs.Records.{Record, mismatch};
ghost use Rattle.asn1_schema_reading_laws.specs.Fitting.{RecordsFit};

/// The states of a reader.
pub trait Finder {
    /// The state before a record, the record, and the state after it.
    ghost step: { Self → Record → Self → Type 0 };

    /// The record of a value that does not match its type is never found.
    ghost no_mismatch: { (a : Self) (b : Self) → step a mismatch b → ⊥ };
}

/// The records found by such a reader are those of a value that has the form of its type.
pub fn records_fit<S: Finder>()
    ensures { RecordsFit S.step }
{}
