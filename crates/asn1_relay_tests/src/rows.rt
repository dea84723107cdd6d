//! The encodings of a value in each set of rules.
use crate::fakes::Octets;
use asn1_relay_core::Codec;

/// The six sets of rules.
pub const CODECS: [Codec; 6] = [
    Codec::Uper,
    Codec::Aper,
    Codec::UperStrict,
    Codec::AperStrict,
    Codec::Oer,
    Codec::Coer,
];

/// The octets in these rules, from a row with the canonical encodings of one value: UPER, APER (X.691), and both OER
/// and COER (X.696), which have the same one, separated by bars.
pub fn octets_by(row: &str, codec: Codec) -> Octets {
    let (uper, others) = row.split_once('|').unwrap_or(("", ""));
    let (aper, octets) = others.split_once('|').unwrap_or(("", ""));
    Octets::of(match codec {
        Codec::Uper | Codec::UperStrict => uper,
        Codec::Aper | Codec::AperStrict => aper,
        Codec::Oer | Codec::Coer => octets,
    })
}
