//! Calls of relays, of `Iter`, and of routes.
use crate::common::is_right;
use asn1_relay_core::Codec;
use asn1_relay_trials::{Appends, Feeds, Nexts, Routes, Runs, is_ample};
use oer_codec::{CoerFront, OerFront};
use per_codec::{AperFront, UperFront};

#[test]
fn ample_feed_uper_to_coer(rt: HostRuntime) {
    assert!(rt; is_ample::<Feeds>(rt.alloc(), Codec::Uper));
}

#[test]
fn refused_feed_uper_to_coer(rt: HostRuntime) {
    assert!(rt; is_right::<Feeds>(rt.alloc(), Codec::Uper));
}

#[test]
fn ample_feed_aper_to_oer(rt: HostRuntime) {
    assert!(rt; is_ample::<Feeds>(rt.alloc(), Codec::Aper));
}

#[test]
fn refused_feed_aper_to_oer(rt: HostRuntime) {
    assert!(rt; is_right::<Feeds>(rt.alloc(), Codec::Aper));
}

#[test]
fn ample_feed_oer_to_aper(rt: HostRuntime) {
    assert!(rt; is_ample::<Feeds>(rt.alloc(), Codec::Oer));
}

#[test]
fn refused_feed_oer_to_aper(rt: HostRuntime) {
    assert!(rt; is_right::<Feeds>(rt.alloc(), Codec::Oer));
}

#[test]
fn ample_feed_coer_to_uper(rt: HostRuntime) {
    assert!(rt; is_ample::<Feeds>(rt.alloc(), Codec::Coer));
}

#[test]
fn refused_feed_coer_to_uper(rt: HostRuntime) {
    assert!(rt; is_right::<Feeds>(rt.alloc(), Codec::Coer));
}

#[test]
fn ample_next_uper(rt: HostRuntime) {
    assert!(rt; is_ample::<Nexts<UperFront>>(rt.alloc(), ()));
}

#[test]
fn refused_next_uper(rt: HostRuntime) {
    assert!(rt; is_right::<Nexts<UperFront>>(rt.alloc(), ()));
}

#[test]
fn ample_next_aper(rt: HostRuntime) {
    assert!(rt; is_ample::<Nexts<AperFront>>(rt.alloc(), ()));
}

#[test]
fn refused_next_aper(rt: HostRuntime) {
    assert!(rt; is_right::<Nexts<AperFront>>(rt.alloc(), ()));
}

#[test]
fn ample_next_oer(rt: HostRuntime) {
    assert!(rt; is_ample::<Nexts<OerFront>>(rt.alloc(), ()));
}

#[test]
fn refused_next_oer(rt: HostRuntime) {
    assert!(rt; is_right::<Nexts<OerFront>>(rt.alloc(), ()));
}

#[test]
fn ample_next_coer(rt: HostRuntime) {
    assert!(rt; is_ample::<Nexts<CoerFront>>(rt.alloc(), ()));
}

#[test]
fn refused_next_coer(rt: HostRuntime) {
    assert!(rt; is_right::<Nexts<CoerFront>>(rt.alloc(), ()));
}

#[test]
fn ample_append_bytes(rt: HostRuntime) {
    assert!(rt; is_ample::<Appends>(rt.alloc(), ()));
}

#[test]
fn refused_append_bytes(rt: HostRuntime) {
    assert!(rt; is_right::<Appends>(rt.alloc(), ()));
}

#[test]
fn ample_route(rt: HostRuntime) {
    assert!(rt; is_ample::<Routes>(rt.alloc(), ()));
}

#[test]
fn refused_route(rt: HostRuntime) {
    assert!(rt; is_right::<Routes>(rt.alloc(), ()));
}

#[test]
fn ample_run(rt: HostRuntime) {
    assert!(rt; is_ample::<Runs>(rt.alloc(), ()));
}

#[test]
fn refused_run(rt: HostRuntime) {
    assert!(rt; is_right::<Runs>(rt.alloc(), ()));
}
