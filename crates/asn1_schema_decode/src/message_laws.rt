//! The message with which an input begins, and the value that it encodes: the calls that read a value are specified by
//! these definitions, whatever the encoding rules. The function does nothing: its contract is a law.

ghost use Rattle.asn1_model.specs.Rules.{Rules};
ghost use Rattle.asn1_laws_fronts.specs.Laws.{OneFrontIn};
ghost use Rattle.asn1_schema_decode.specs.Messages.{OneMessageIn};

/// If at most one prefix of any octets is an encoding of a well-formed type, an input begins with a message of at most
/// one value of the type, up to the order of the elements of each SET OF, and the rest after it is unique.
pub fn one_message_is_told()
    ensures { (rules : Rules) → OneFrontIn rules → OneMessageIn rules }
{}
