//! Laws of the reader of OER (X.696): its state after each record, and that it finds the records of a value exactly
//! if the octets begin with an encoding. A record is one call of a decoder, with its result. A freedom is a departure
//! from the canonical encoding that a reader accepts. The functions do nothing: each contract is a law.
#![tactic(auto)]

ghost use Rattle.oer_codec_laws.specs.Laws.{CountHeld, EachBridges, FindsEncodings, FormsShow, OneTaken, RecordsFit};
ghost use Rattle.oer_codec_laws.specs.Laws.{RecordsRead};

/// Among the records that answer the same question at most one is next, and one state follows it, whatever the
/// reader's freedoms are.
pub fn one_record_is_next()
    ensures { OneTaken }
{}

/// A list begins with a number of elements that the Rust type holds.
pub fn counts_are_held()
    ensures { CountHeld }
{}

/// If the records of a value are next, the octets begin with its form (X.696 9 to 27).
pub fn records_are_read()
    ensures { RecordsRead }
{}

/// If the octets begin with the form of a value, then the records are next of a value that is equal up to the order
/// of the elements of SET OF.
pub fn forms_are_found()
    ensures { FormsShow }
{}

/// The records of a value are next exactly if the octets begin with its form, for each well-formed type without SET OF.
pub fn records_are_the_form()
    ensures { EachBridges }
{}

/// The records that a reader finds belong to a value that has the form of its type.
pub fn records_fit()
    ensures { RecordsFit }
{}

/// The records of a value are all that octets hold exactly if these are an encoding of it, in OER and in COER.
pub fn encodings_are_found()
    ensures { FindsEncodings }
{}
