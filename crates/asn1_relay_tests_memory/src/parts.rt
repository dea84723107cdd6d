//! Calls on parts of values.
use crate::common::is_right;
use asn1_relay_trials::{Inserts, ReadsFields, WritesFields, WritesIdentifier, is_ample};

#[test]
fn ample_write_fields(rt: HostRuntime) {
    assert!(rt; is_ample::<WritesFields>(rt.alloc(), ()));
}

#[test]
fn refused_write_fields(rt: HostRuntime) {
    assert!(rt; is_right::<WritesFields>(rt.alloc(), ()));
}

#[test]
fn ample_read_fields(rt: HostRuntime) {
    assert!(rt; is_ample::<ReadsFields>(rt.alloc(), ()));
}

#[test]
fn refused_read_fields(rt: HostRuntime) {
    assert!(rt; is_right::<ReadsFields>(rt.alloc(), ()));
}

#[test]
fn ample_set_of_insert(rt: HostRuntime) {
    assert!(rt; is_ample::<Inserts>(rt.alloc(), ()));
}

#[test]
fn refused_set_of_insert(rt: HostRuntime) {
    assert!(rt; is_right::<Inserts>(rt.alloc(), ()));
}

#[test]
fn ample_oid_octets(rt: HostRuntime) {
    assert!(rt; is_ample::<WritesIdentifier>(rt.alloc(), ()));
}

#[test]
fn refused_oid_octets(rt: HostRuntime) {
    assert!(rt; is_right::<WritesIdentifier>(rt.alloc(), ()));
}
