//! Allocations, each of which may fail: the results, and the state afterwards.
use crate::{bits, fields, octets};
use std::alloc::Global;
use std::process::Abort;

/// Makes values of each kind, and grows them. Returns whether no allocation failed.
fn requests(rt: &impl Abort, alloc: Global) -> bool {
    let bits = bits::requests(rt, alloc);
    let fields = fields::requests(rt, alloc);
    let octets = octets::requests(rt, alloc);
    bits && fields && octets
}

#[test]
fn refused_requests(rt: HostRuntime) {
    let _granted = requests(&rt, rt.alloc());
}

#[test]
fn ample_requests(rt: HostRuntime) {
    assert!(rt; requests(&rt, rt.alloc()));
}
