//! The decoded value is unique, in COER and in OER. The functions do nothing; their contracts are laws.
ghost use Rattle.oer_codec.specs.Messages.{NothingElseIsToldLeniently, OneMessage, StrictIsRefusedForMemory};
ghost use Rattle.oer_codec.specs.Messages.{StrictIsToldLeniently};

/// The decoding calls return the same whenever they return a value of a well-formed type: an input begins with a
/// message of at most one value, up to the order of the elements of each SET OF, and the rest after the message is
/// unique.
pub fn one_message_is_told()
    ensures { OneMessage }
{}

/// A message that COER reads, OER reads as the same value, and the same octets are left after it.
pub fn strict_is_told_leniently()
    ensures { StrictIsToldLeniently }
{}

/// Where COER reads a value of a well-formed type, OER reads no other, up to the order of the elements of each SET OF,
/// and the same octets are left after the message.
pub fn nothing_else_is_told_leniently()
    ensures { NothingElseIsToldLeniently }
{}

/// Where COER reads a value, OER refuses the octets only when out of memory.
pub fn strict_is_refused_for_memory()
    ensures { StrictIsRefusedForMemory }
{}
