//! What is kept of a value.
#![tactic(auto, using(std::proofs::lemmas::Grind::common_steps))]

ghost use Rattle.std.specs.Prelude.{◌≡◌, ◌+◌, ◌++◌, [], ◌∷◌, OnOk, OnErr, IfErr, vec_len, slice_set as set};

use crate::octets::TapeOctets;
use crate::strings::CharacterString;
use asn1_schema_decode::Decoder;
use asn1_schema_errors::DecodeError;
use asn1_schema_tags::Chosen;
use asn1_values_bit_strings::BitString;
use asn1_values_identifiers::ObjectIdentifier;
use asn1_values_integers::Integer;

/// A record of a value.
#[derive(Drop)]
pub enum Event {
    /// BOOLEAN.
    Flag(bool),
    /// NULL.
    Nil,
    /// INTEGER: the index of its type in the table, and the number.
    Number(usize, Integer),
    /// ENUMERATED: the index of its type in the table, and the number of the item.
    Item(usize, isize),
    /// BIT STRING: the index of its type in the table, and the bits.
    Bits(usize, BitString),
    /// OCTET STRING: the index of its type in the table, and the octets.
    Octets(usize, TapeOctets),
    /// A restricted character string: the index of its type in the table, and the string.
    Text(usize, CharacterString),
    /// OBJECT IDENTIFIER: the arcs.
    Arcs(ObjectIdentifier),
    /// SEQUENCE OF or SET OF begins: the index of its type in the table, and how many elements it has.
    ListBegins(usize, usize),
    /// Whether another element follows.
    Further(bool),
    /// SEQUENCE begins: whether it has an extension marker, and how many root components may be absent.
    SequenceBegins(bool, usize),
    /// SET begins: the same.
    SetBegins(bool, usize),
    /// A group of additions begins: how many of its components may be absent.
    GroupBegins(usize),
    /// CHOICE begins: the index of its type in the table, and the chosen alternative.
    ChoiceBegins(usize, Chosen),
    /// Whether a root component is there.
    PresenceBit(bool),
    /// The additions begin: how many there are.
    AdditionsBegin(usize),
    /// Whether an addition is there.
    Addition(bool),
    /// The end of an addition.
    AdditionEnds,
    /// The end of a list, sequence, set, group or choice.
    Ends,
}

/// Appends a record. If memory runs out, the decoder fails.
#[inline(always)]
pub fn keep<D: Decoder>(
    decoder: &mut D,
    tape: &mut Vec<Event>,
    event: Event,
) -> Result<(), DecodeError>
    ensures kept { OnOk result (tape.new.items ≡ tape.old.items ++ event ∷ []) }
    ensures count { OnOk result (vec_len tape.new ≡ vec_len tape.old + 1) }
    ensures same { OnOk result (decoder.new ≡ decoder.old) }
    ensures memory { IfErr result (λ e. e ≡ DecodeError.OutOfMemory) }
    ensures failed { OnErr result (D.has_failed decoder.new) }
{
    let Ok(()) = tape.reserve(1) else {
        return Err(decoder.refuse(DecodeError::OutOfMemory));
    };
    tape.push_reserved(event);
    Ok(())
}

/// Sets the number of elements in the record at an index, the beginning of a list. Past the end of the tape nothing
/// changes.
pub fn set_count(tape: &mut Vec<Event>, begins: usize, list: usize, count: usize)
    ensures set { tape.new.items ≡ set tape.old.items begins (Event.ListBegins list count) }
    ensures count { vec_len tape.new ≡ vec_len tape.old }
{
    if begins < tape.len() {
        tape[begins] = Event::ListBegins(list, count);
    }
}
