//! The decoded value is unique, for strict readers and for lenient ones. The functions do nothing; their contracts are
//! laws.
ghost use Rattle.per_codec.specs.Messages.{NothingElseIsToldLeniently, OneMessage, StrictIsRefusedForMemory};
ghost use Rattle.per_codec.specs.Messages.{StrictIsToldLeniently};

/// The decoding calls return the same whenever they return a value of a well-formed type: an input begins with a
/// message of at most one value, up to the order of the elements of each SET OF, and the rest after the message is
/// unique.
pub fn one_message_is_told()
    ensures { OneMessage }
{}

/// A message that a strict reader of UPER or APER reads, the lenient one reads as the same value, and the same octets
/// are left after it.
pub fn strict_is_told_leniently()
    ensures { StrictIsToldLeniently }
{}

/// Where a strict reader reads a value of a well-formed type, the lenient one reads no other, up to the order of the
/// elements of each SET OF, and the same octets are left after the message.
pub fn nothing_else_is_told_leniently()
    ensures { NothingElseIsToldLeniently }
{}

/// Where a strict reader reads a value, the lenient one refuses the octets only when out of memory.
pub fn strict_is_refused_for_memory()
    ensures { StrictIsRefusedForMemory }
{}
