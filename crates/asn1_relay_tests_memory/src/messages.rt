//! Calls on one message, in each set of rules.
use crate::common::is_right;
use asn1_relay_core::Codec;
use asn1_relay_trials::{Decodes, Encodes, EncodesInto, Recodes, RecodesInto, is_ample};

#[test]
fn ample_uper_encode(rt: HostRuntime) {
    assert!(rt; is_ample::<Encodes>(rt.alloc(), Codec::Uper));
}

#[test]
fn refused_uper_encode(rt: HostRuntime) {
    assert!(rt; is_right::<Encodes>(rt.alloc(), Codec::Uper));
}

#[test]
fn ample_aper_encode(rt: HostRuntime) {
    assert!(rt; is_ample::<Encodes>(rt.alloc(), Codec::Aper));
}

#[test]
fn refused_aper_encode(rt: HostRuntime) {
    assert!(rt; is_right::<Encodes>(rt.alloc(), Codec::Aper));
}

#[test]
fn ample_oer_encode(rt: HostRuntime) {
    assert!(rt; is_ample::<Encodes>(rt.alloc(), Codec::Oer));
}

#[test]
fn refused_oer_encode(rt: HostRuntime) {
    assert!(rt; is_right::<Encodes>(rt.alloc(), Codec::Oer));
}

#[test]
fn ample_coer_encode(rt: HostRuntime) {
    assert!(rt; is_ample::<Encodes>(rt.alloc(), Codec::Coer));
}

#[test]
fn refused_coer_encode(rt: HostRuntime) {
    assert!(rt; is_right::<Encodes>(rt.alloc(), Codec::Coer));
}

#[test]
fn ample_uper_encode_buf(rt: HostRuntime) {
    assert!(rt; is_ample::<EncodesInto>(rt.alloc(), Codec::Uper));
}

#[test]
fn refused_uper_encode_buf(rt: HostRuntime) {
    assert!(rt; is_right::<EncodesInto>(rt.alloc(), Codec::Uper));
}

#[test]
fn ample_aper_encode_buf(rt: HostRuntime) {
    assert!(rt; is_ample::<EncodesInto>(rt.alloc(), Codec::Aper));
}

#[test]
fn refused_aper_encode_buf(rt: HostRuntime) {
    assert!(rt; is_right::<EncodesInto>(rt.alloc(), Codec::Aper));
}

#[test]
fn ample_oer_encode_buf(rt: HostRuntime) {
    assert!(rt; is_ample::<EncodesInto>(rt.alloc(), Codec::Oer));
}

#[test]
fn refused_oer_encode_buf(rt: HostRuntime) {
    assert!(rt; is_right::<EncodesInto>(rt.alloc(), Codec::Oer));
}

#[test]
fn ample_coer_encode_buf(rt: HostRuntime) {
    assert!(rt; is_ample::<EncodesInto>(rt.alloc(), Codec::Coer));
}

#[test]
fn refused_coer_encode_buf(rt: HostRuntime) {
    assert!(rt; is_right::<EncodesInto>(rt.alloc(), Codec::Coer));
}

#[test]
fn ample_uper_decode(rt: HostRuntime) {
    assert!(rt; is_ample::<Decodes>(rt.alloc(), Codec::Uper));
}

#[test]
fn refused_uper_decode(rt: HostRuntime) {
    assert!(rt; is_right::<Decodes>(rt.alloc(), Codec::Uper));
}

#[test]
fn ample_aper_decode(rt: HostRuntime) {
    assert!(rt; is_ample::<Decodes>(rt.alloc(), Codec::Aper));
}

#[test]
fn refused_aper_decode(rt: HostRuntime) {
    assert!(rt; is_right::<Decodes>(rt.alloc(), Codec::Aper));
}

#[test]
fn ample_uper_strict_decode(rt: HostRuntime) {
    assert!(rt; is_ample::<Decodes>(rt.alloc(), Codec::UperStrict));
}

#[test]
fn refused_uper_strict_decode(rt: HostRuntime) {
    assert!(rt; is_right::<Decodes>(rt.alloc(), Codec::UperStrict));
}

#[test]
fn ample_aper_strict_decode(rt: HostRuntime) {
    assert!(rt; is_ample::<Decodes>(rt.alloc(), Codec::AperStrict));
}

#[test]
fn refused_aper_strict_decode(rt: HostRuntime) {
    assert!(rt; is_right::<Decodes>(rt.alloc(), Codec::AperStrict));
}

#[test]
fn ample_oer_decode(rt: HostRuntime) {
    assert!(rt; is_ample::<Decodes>(rt.alloc(), Codec::Oer));
}

#[test]
fn refused_oer_decode(rt: HostRuntime) {
    assert!(rt; is_right::<Decodes>(rt.alloc(), Codec::Oer));
}

#[test]
fn ample_coer_decode(rt: HostRuntime) {
    assert!(rt; is_ample::<Decodes>(rt.alloc(), Codec::Coer));
}

#[test]
fn refused_coer_decode(rt: HostRuntime) {
    assert!(rt; is_right::<Decodes>(rt.alloc(), Codec::Coer));
}

#[test]
fn ample_recode_uper_to_coer(rt: HostRuntime) {
    assert!(rt; is_ample::<Recodes>(rt.alloc(), Codec::Uper));
}

#[test]
fn refused_recode_uper_to_coer(rt: HostRuntime) {
    assert!(rt; is_right::<Recodes>(rt.alloc(), Codec::Uper));
}

#[test]
fn ample_recode_aper_to_oer(rt: HostRuntime) {
    assert!(rt; is_ample::<Recodes>(rt.alloc(), Codec::Aper));
}

#[test]
fn refused_recode_aper_to_oer(rt: HostRuntime) {
    assert!(rt; is_right::<Recodes>(rt.alloc(), Codec::Aper));
}

#[test]
fn ample_recode_oer_to_aper(rt: HostRuntime) {
    assert!(rt; is_ample::<Recodes>(rt.alloc(), Codec::Oer));
}

#[test]
fn refused_recode_oer_to_aper(rt: HostRuntime) {
    assert!(rt; is_right::<Recodes>(rt.alloc(), Codec::Oer));
}

#[test]
fn ample_recode_coer_to_uper(rt: HostRuntime) {
    assert!(rt; is_ample::<Recodes>(rt.alloc(), Codec::Coer));
}

#[test]
fn refused_recode_coer_to_uper(rt: HostRuntime) {
    assert!(rt; is_right::<Recodes>(rt.alloc(), Codec::Coer));
}

#[test]
fn ample_uper_recode_into(rt: HostRuntime) {
    assert!(rt; is_ample::<RecodesInto>(rt.alloc(), Codec::Uper));
}

#[test]
fn refused_uper_recode_into(rt: HostRuntime) {
    assert!(rt; is_right::<RecodesInto>(rt.alloc(), Codec::Uper));
}

#[test]
fn ample_coer_recode_into(rt: HostRuntime) {
    assert!(rt; is_ample::<RecodesInto>(rt.alloc(), Codec::Coer));
}

#[test]
fn refused_coer_recode_into(rt: HostRuntime) {
    assert!(rt; is_right::<RecodesInto>(rt.alloc(), Codec::Coer));
}
