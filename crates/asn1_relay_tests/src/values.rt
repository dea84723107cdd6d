//! Values of user-defined types, encoded in each set of rules and decoded again.
use crate::rows::{CODECS, octets_by};
use asn1_relay_core::{Codec, DecodeError, EncodeError, RecodeFault, recode};
use asn1_relay_types::{
    Bag, Extra, ExtraFields, Group, GroupFields, New, NewFields, Set, SetFields,
};
use asn1_schema_decode::Decode;
use asn1_schema_encode::Encode;
use asn1_schema_example::control::Control;
use asn1_schema_example::measure::Measure;
use asn1_schema_example::message::Message;
use asn1_schema_example::power::Power;
use asn1_schema_wrapped::Implicit;
use asn1_values_integers::Integer;
use std::alloc::{AllocError, Global};
use std::test::Fail;

/// Whether a value is written as these octets.
fn is_written<T: Encode>(
    alloc: Global,
    codec: Codec,
    value: &T,
    row: &str,
) -> Result<bool, EncodeError> {
    let octets = codec.encode(alloc, value)?;
    Ok(octets.as_slice() == octets_by(row, codec).all())
}

/// What these rules read from the octets of a row.
fn read<T: Decode>(alloc: Global, codec: Codec, row: &str) -> Result<T, DecodeError> {
    codec.decode(alloc, octets_by(row, codec).all())
}

/// {a 5, b 6, c 7}, in the order of tags (X.691 21, X.696 18).
const SET: &str = "E0 20 E0 20 C0 20 A0 | E0 01 07 01 06 01 05 | E0 01 07 01 06 01 05";

/// Whether these rules write a set as its row says.
fn set_is_written(alloc: Global, codec: Codec) -> Result<bool, EncodeError> {
    let set = Set::new(SetFields {
        a: Some(Implicit::new(Integer::from(5))),
        b: Some(Implicit::new(Integer::from(6))),
        c: Some(Implicit::new(Integer::from(7))),
    });
    is_written(alloc, codec, &set, SET)
}

/// Whether these rules read a set as its row says.
fn set_is_read(alloc: Global, codec: Codec) -> Result<bool, DecodeError> {
    let set: Set = read(alloc, codec, SET)?;
    Ok(
        set.value.a == Some(Implicit::new(Integer::from(5)))
            && set.value.b == Some(Implicit::new(Integer::from(6)))
            && set.value.c == Some(Implicit::new(Integer::from(7))),
    )
}

/// {power on: TRUE, level 9}, with a choice in a set (X.691 23, X.696 20).
const CONTROL: &str = "C2 40 | C0 09 | 87 FF 09";

/// Whether these rules write a set with a choice as its row says.
fn control_is_written(alloc: Global, codec: Codec) -> Result<bool, EncodeError> {
    let control = Control {
        power: Power::On(true),
        level: Implicit::new(9),
    };
    is_written(alloc, codec, &control, CONTROL)
}

/// Whether these rules read a set with a choice as its row says.
fn control_is_read(alloc: Global, codec: Codec) -> Result<bool, DecodeError> {
    let control: Control = read(alloc, codec, CONTROL)?;
    Ok(matches!(&control.power, Power::On(true)) && control.level.value == 9)
}

/// {a TRUE, b 7}, with an addition (X.691 19.7, X.696 16.4).
const NEW: &str = "C0 40 41 C0 | C0 40 01 07 | 80 FF 02 07 80 01 07";

/// Whether these rules write a value with an addition as its row says.
fn new_is_written(alloc: Global, codec: Codec) -> Result<bool, EncodeError> {
    let new = New::new(NewFields {
        a: true,
        b: Some(7),
    });
    is_written(alloc, codec, &new, NEW)
}

/// Whether these rules read a value with an addition as its row says.
fn new_is_read(alloc: Global, codec: Codec) -> Result<bool, DecodeError> {
    let new: New = read(alloc, codec, NEW)?;
    Ok(new.value.a && new.value.b == Some(7))
}

/// {a TRUE, x 7}, with a group of additions (X.691 19.9, X.696 16.4).
const GROUP: &str = "C0 40 A0 E0 00 | C0 40 02 80 07 | 80 FF 02 07 80 02 80 07";

/// Whether these rules write a value with a group as its row says.
fn group_is_written(alloc: Global, codec: Codec) -> Result<bool, EncodeError> {
    let extra = Extra::new(ExtraFields { x: Some(7) });
    let group = Group::new(GroupFields {
        a: true,
        extra: Some(extra),
    });
    is_written(alloc, codec, &group, GROUP)
}

/// Whether these rules read a value with a group as its row says.
fn group_is_read(alloc: Global, codec: Codec) -> Result<bool, DecodeError> {
    let group: Group = read(alloc, codec, GROUP)?;
    let Some(extra) = &group.value.extra else {
        return Ok(false);
    };
    Ok(group.value.a && extra.value.x == Some(7))
}

/// name: "Jo", an added alternative, which is an open type (X.691 23.8, X.696 20.2).
const MESSAGE: &str = "80 03 02 4A 6F | 80 03 02 4A 6F | 82 03 02 4A 6F";

/// Whether these rules write an added alternative as its row says.
fn message_is_written(alloc: Global, codec: Codec) -> Result<bool, Fail> {
    let message = Message::Name(String::from_str(alloc, "Jo")?);
    Ok(is_written(alloc, codec, &message, MESSAGE)?)
}

/// Whether these rules read an added alternative as its row says.
fn message_is_read(alloc: Global, codec: Codec) -> Result<bool, DecodeError> {
    let message: Message = read(alloc, codec, MESSAGE)?;
    match &message {
        Message::Name(name) => Ok(name.as_str() == "Jo"),
        _ => Ok(false),
    }
}

/// {offset 0}, a default, which is absent (X.691 19.5, X.696 16.2).
const MEASURE: &str = "00 | 00 | 00";

/// Whether these rules write a default as its row says.
fn measure_is_written(alloc: Global, codec: Codec) -> Result<bool, EncodeError> {
    let measure = Measure {
        offset: Integer::from(0),
        exact: None,
    };
    is_written(alloc, codec, &measure, MEASURE)
}

/// Whether these rules read a default as its row says.
fn measure_is_read(alloc: Global, codec: Codec) -> Result<bool, DecodeError> {
    let measure: Measure = read(alloc, codec, MEASURE)?;
    Ok(measure.offset == Integer::from(0) && measure.exact.is_none())
}

/// Whether these rules write each value as its row says.
fn are_written(alloc: Global, codec: Codec) -> Result<bool, Fail> {
    Ok(
        set_is_written(alloc, codec)?
            && control_is_written(alloc, codec)?
            && new_is_written(alloc, codec)?
            && group_is_written(alloc, codec)?
            && message_is_written(alloc, codec)?
            && measure_is_written(alloc, codec)?,
    )
}

#[test]
fn values_are_written(rt: HostRuntime) -> Result<(), Fail> {
    for codec in CODECS {
        assert!(rt; are_written(rt.alloc(), codec)?, "{codec:?}");
    }
    Ok(())
}

/// Whether these rules read each value as its row says.
fn are_read(alloc: Global, codec: Codec) -> Result<bool, DecodeError> {
    Ok(
        set_is_read(alloc, codec)?
            && control_is_read(alloc, codec)?
            && new_is_read(alloc, codec)?
            && group_is_read(alloc, codec)?
            && message_is_read(alloc, codec)?
            && measure_is_read(alloc, codec)?,
    )
}

#[test]
fn values_are_read(rt: HostRuntime) -> Result<(), Fail> {
    for codec in CODECS {
        assert!(rt; are_read(rt.alloc(), codec)?, "{codec:?}");
    }
    Ok(())
}

/// {1, 2, 3}.
const BAG: &str = "03 01 02 03 | 03 01 02 03 | 01 03 01 02 03";

/// The SET OF value with these numbers.
fn bag_of(alloc: Global, numbers: &[u8]) -> Result<Bag, AllocError> {
    Ok(Bag::from_vec(Vec::from_slice(alloc, numbers)?))
}

/// Whether each set of rules encodes a SET OF value as {1, 2, 3}.
fn is_written_in_order(alloc: Global, bag: &Bag) -> Result<bool, EncodeError> {
    for codec in CODECS {
        if !is_written(alloc, codec, bag, BAG)? {
            return Ok(false);
        }
    }
    Ok(true)
}

/// Whether a SET OF value with these numbers equals {1, 2, 3}, and each set of rules encodes it so.
fn is_bag(alloc: Global, numbers: &[u8]) -> Result<bool, Fail> {
    let bag = bag_of(alloc, numbers)?;
    let is_same = bag == bag_of(alloc, &[1, 2, 3])?;
    Ok(is_written_in_order(alloc, &bag)? && is_same)
}

/// Elements are given in any order, and encoded in the order of their encodings.
#[test]
fn members_are_handed_in_any_order(rt: HostRuntime) -> Result<(), Fail> {
    for numbers in [[3, 1, 2], [2, 3, 1]] {
        assert!(rt; is_bag(rt.alloc(), &numbers)?, "{numbers:?}");
    }
    Ok(())
}

/// The numbers 0 to 249, over and over, 100000 in all.
fn in_turn(alloc: Global) -> Result<Vec<u8>, AllocError> {
    let mut members = Vec::new(alloc);
    for _ in 0..400 {
        for number in 0..250u8 {
            members.push(number)?;
        }
    }
    Ok(members)
}

/// The same numbers in ascending order.
fn in_order(alloc: Global) -> Result<Vec<u8>, AllocError> {
    let mut members = Vec::new(alloc);
    for number in 0..250u8 {
        for _ in 0..400 {
            members.push(number)?;
        }
    }
    Ok(members)
}

/// A SET OF value with 100000 elements in OER: the length of its count, its count, and the elements.
fn with_its_count(alloc: Global, members: &[u8]) -> Result<Vec<u8>, AllocError> {
    let mut octets = vec![in alloc; 0x03u8, 0x01, 0x86, 0xA0]?;
    octets.extend_from_slice(members)?;
    Ok(octets)
}

/// The same in PER: 65536, 32768 and 1696 elements, each group after its length determinant.
fn in_fragments(alloc: Global, members: &[u8]) -> Result<Vec<u8>, AllocError> {
    let mut octets = Vec::new(alloc);
    for (place, member) in members.iter().enumerate() {
        match place {
            0 => octets.push(0xC4)?,
            65536 => octets.push(0xC2)?,
            98304 => octets.extend_from_slice(&[0x86, 0xA0])?,
            _ => {}
        }
        octets.push(*member)?;
    }
    Ok(octets)
}

/// Whether octets of a SET OF value are translated to these.
fn becomes(
    alloc: Global,
    from: Codec,
    input: &[u8],
    to: Codec,
    output: &[u8],
) -> Result<bool, RecodeFault> {
    let translated = recode::<Bag>(alloc, from, to, input)?;
    Ok(translated.as_slice() == output)
}

/// Whether each set of rules puts a SET OF value in order, and translates it from each to each other.
fn are_put_in_order(
    alloc: Global,
    input: &[u8],
    octets: &[u8],
    packed: &[u8],
) -> Result<bool, RecodeFault> {
    Ok(
        becomes(alloc, Codec::Oer, input, Codec::Uper, packed)?
            && becomes(alloc, Codec::Oer, input, Codec::Aper, packed)?
            && becomes(alloc, Codec::Oer, input, Codec::Oer, octets)?
            && becomes(alloc, Codec::Oer, input, Codec::Coer, octets)?
            && becomes(alloc, Codec::Coer, octets, Codec::Uper, packed)?
            && becomes(alloc, Codec::Uper, packed, Codec::Aper, packed)?
            && becomes(alloc, Codec::Aper, packed, Codec::Oer, octets)?,
    )
}

/// Whether a SET OF value with 100000 elements is put in order.
fn is_put_in_order(alloc: Global) -> Result<bool, Fail> {
    let ordered = in_order(alloc)?;
    let input = with_its_count(alloc, &in_turn(alloc)?)?;
    let octets = with_its_count(alloc, &ordered)?;
    let packed = in_fragments(alloc, &ordered)?;
    Ok(are_put_in_order(alloc, &input, &octets, &packed)?)
}

#[test]
fn a_bag_of_100000_members(rt: HostRuntime) -> Result<(), Fail> {
    assert!(rt; is_put_in_order(rt.alloc())?);
    Ok(())
}
