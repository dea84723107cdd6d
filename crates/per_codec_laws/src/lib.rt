//! Laws of the reader of PER (X.691): its state after each record, and that it finds the records of a value exactly
//! if the bits begin with its form. A record is one call of a decoder, with its result. A freedom is a departure from
//! the canonical encoding that a reader accepts. The functions do nothing: each contract is a law.
#![tactic(auto)]

ghost use Rattle.per_codec_laws.specs.Laws.{CountHeld, EachBridges, MessagesEndAtOctets, FindsEncodings, FormsShow};
ghost use Rattle.per_codec_laws.specs.Laws.{PaddedMessages};
ghost use Rattle.per_codec_laws.specs.Laws.{OneTaken, RecordsFit, RecordsRead};

/// Among the records that answer the same question at most one is next, and one state follows it, whatever the
/// reader's freedoms are.
pub fn one_record_is_next()
    ensures { OneTaken }
{}

/// A list begins with a number of elements that the Rust type holds.
pub fn counts_are_held()
    ensures { CountHeld }
{}

/// If the records of a value of any type are next, the bits begin with its form (X.691 11 to 30) at their position.
pub fn records_are_read()
    ensures { RecordsRead }
{}

/// If the bits begin with the form of a value at their position, then the records are next of a value that is equal
/// up to the order of the elements of SET OF.
pub fn forms_are_found()
    ensures { FormsShow }
{}

/// The records of a value are next exactly if the bits begin with its form at their position, for each well-formed type
/// without SET OF.
pub fn records_are_the_form()
    ensures { EachBridges }
{}

/// The records that a reader finds belong to a value that has the form of its type.
pub fn records_fit()
    ensures { RecordsFit }
{}

/// The padding of a message after the records of a value ends at an octet boundary.
pub fn messages_end_at_octets()
    ensures { MessagesEndAtOctets }
{}

/// If the octets begin with a message of a well-formed type, it is padded after the records of whichever value is
/// found.
pub fn messages_are_padded()
    ensures { PaddedMessages }
{}

/// The records of a value, and the padding of a message after them, are found at the start of octets only if these
/// begin with an encoding of it, in UPER and APER, for a lenient and for a strict reader. In each encoding of a value
/// of a well-formed type they are found, up to the order of the elements of SET OF.
pub fn encodings_are_found()
    ensures { FindsEncodings }
{}
