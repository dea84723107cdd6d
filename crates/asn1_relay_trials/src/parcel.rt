//! SEQUENCE {fragile BOOLEAN, label UTF8String, owner OBJECT IDENTIFIER, marks SET OF INTEGER (0..255), ..., weight
//! INTEGER OPTIONAL}: a type whose encoding and decoding request memory several times, in each set of rules.
ghost use Rattle.std.specs.Prelude.{◌≤◌};
ghost use Rattle.asn1_schema.proofs.Author.{refl, sequence_of, sequence_tag};

use asn1_relay_core::Codec;
use asn1_schema::{
    AddedOptional, AddedOptionalComponent, Components, ComponentsOf, DecodeComponents, DecodeError,
    Decoder, EncodeComponents, EncodeError, Encoder, ExtensibleComponents, ExtensionMarker,
    Heading, NoMore, OneAddition, Required, RequiredComponent, Sequence, SetOf, Tag,
};
use asn1_values::{Integer, ObjectIdentifier};
use std::alloc::{AllocError, Global};
use std::borrow::CowSlice;

/// A parcel.
pub type Parcel = Sequence<ParcelFields>;

/// Its components.
#[derive(Drop)]
pub struct ParcelFields {
    /// Whether it is fragile.
    pub fragile: bool,
    /// The text on it.
    pub label: String,
    /// The identifier of its owner.
    pub owner: ObjectIdentifier,
    /// The marks on it.
    pub marks: SetOf<u8>,
    /// Its weight, an extension addition.
    pub weight: Option<Integer>,
}

type Additions = AddedOptionalComponent<Integer, NoMore>;

type Marks = RequiredComponent<SetOf<u8>, ExtensibleComponents<OneAddition, Additions>>;

type Form = RequiredComponent<
    bool,
    RequiredComponent<String, RequiredComponent<ObjectIdentifier, Marks>>,
>;

impl Components for ParcelFields {
    const TAG: Tag = Tag::SEQUENCE;

    ghost TAG = { sequence_tag };

    ghost shape = { sequence_of ⟦<Form as ComponentsOf>⟧ tt refl (λ x. record {
      0 = x.fragile;
      1 = record {
        0 = x.label;
        1 = record {
          0 = x.owner;
          1 = record { 0 = x.marks; 1 = record { 0 = record { 0 = x.weight; 1 = record {} }; 1 = record {} } };
        };
      };
    }) };

    fn heading() -> Heading {
        Heading::sequence(0).extensible()
    }

    fn write_components<E: Encoder>(&self, encoder: &mut E) -> Result<(), EncodeError> {
        let additions = AddedOptional(&self.weight, NoMore);
        let marks = Required(&self.marks, ExtensionMarker { additions });
        let owner = Required(&self.owner, marks);
        Required(&self.fragile, Required(&self.label, owner)).encode_components(encoder)
    }

    fn read_components<D: Decoder>(alloc: Global, decoder: &mut D) -> Result<Self, DecodeError> {
        let form = Form::decode_components(alloc, decoder)?;
        let RequiredComponent(fragile, RequiredComponent(label, RequiredComponent(owner, marks))) =
            form;
        let RequiredComponent(marks, ExtensibleComponents(additions, _)) = marks;
        let AddedOptionalComponent(weight, NoMore) = additions;
        Ok(ParcelFields {
            fragile,
            label,
            owner,
            marks,
            weight,
        })
    }
}

/// {fragile TRUE, label "ab", owner {2 999}, marks {3, 1}, weight 300}.
pub fn parcel(alloc: Global) -> Result<Parcel, AllocError> {
    let label = String::from_str(alloc, "ab")?;
    let marks = SetOf::from_vec(Vec::from_slice(alloc, &[3, 1])?);
    Ok(Parcel::new(ParcelFields {
        fragile: true,
        label,
        owner: ObjectIdentifier::new_unchecked(CowSlice::Borrowed(&[2, 999])),
        marks,
        weight: Some(Integer::from(300)),
    }))
}

/// Whether this is that parcel, with its marks in ascending order.
pub fn is_parcel(parcel: &Parcel) -> bool {
    let parcel = &parcel.value;
    parcel.fragile
        && parcel.label.as_str() == "ab"
        && parcel.owner.as_slice() == [2, 999].as_slice()
        && parcel.marks.as_slice() == [1, 3].as_slice()
        && parcel.weight == Some(Integer::from(300))
}

/// That parcel, twice: two bits (extension bit and BOOLEAN), and everything else after them (X.691 11.9, 19, 22, 24).
const UPER: [u8; 30] = [
    0xC0, 0x98, 0x58, 0x80, 0xA2, 0x0D, 0xC0, 0x80, 0x40, 0xC0, 0x40, 0xC0, 0x80, 0x4B, 0x00, 0xC0,
    0x98, 0x58, 0x80, 0xA2, 0x0D, 0xC0, 0x80, 0x40, 0xC0, 0x40, 0xC0, 0x80, 0x4B, 0x00,
];

/// The same, with padding after the two bits (X.691 11.9.3.3).
const APER: [u8; 30] = [
    0xC0, 0x02, 0x61, 0x62, 0x02, 0x88, 0x37, 0x02, 0x01, 0x03, 0x01, 0x03, 0x02, 0x01, 0x2C, 0xC0,
    0x02, 0x61, 0x62, 0x02, 0x88, 0x37, 0x02, 0x01, 0x03, 0x01, 0x03, 0x02, 0x01, 0x2C,
];

/// The same in OER: a preamble, four components, a presence bitmap for one addition, and the addition (X.696 16, 17).
const OER: [u8; 38] = [
    0x80, 0xFF, 0x02, 0x61, 0x62, 0x02, 0x88, 0x37, 0x01, 0x02, 0x01, 0x03, 0x02, 0x07, 0x80, 0x03,
    0x02, 0x01, 0x2C, 0x80, 0xFF, 0x02, 0x61, 0x62, 0x02, 0x88, 0x37, 0x01, 0x02, 0x01, 0x03, 0x02,
    0x07, 0x80, 0x03, 0x02, 0x01, 0x2C,
];

/// The length of that parcel by these rules, in octets.
pub fn parcel_len(codec: Codec) -> usize
    ensures { result ≤ 19 }
{
    match codec {
        Codec::Uper | Codec::Aper | Codec::UperStrict | Codec::AperStrict => 15,
        Codec::Oer | Codec::Coer => 19,
    }
}

/// The octets of this many of that parcel, at most two, one after the other, by these rules.
pub fn parcels(codec: Codec, count: usize) -> &'static [u8] {
    let both: &'static [u8] = match codec {
        Codec::Uper | Codec::UperStrict => &UPER,
        Codec::Aper | Codec::AperStrict => &APER,
        Codec::Oer | Codec::Coer => &OER,
    };
    let len = parcel_len(codec) * count.min(2);
    both.get(..len).unwrap_or(both)
}
