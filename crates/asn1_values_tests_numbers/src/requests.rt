//! Allocations, each of which may fail: the results, and the state afterwards.
use crate::{identifiers, numbers};
use std::alloc::Global;
use std::process::Abort;

/// Makes values of each kind. Returns whether no allocation failed.
fn requests(rt: &impl Abort, alloc: Global) -> bool {
    let numbers = numbers::requests(rt, alloc);
    let identifiers = identifiers::requests(rt, alloc);
    numbers && identifiers
}

#[test]
fn refused_requests(rt: HostRuntime) {
    let _granted = requests(&rt, rt.alloc());
}

#[test]
fn ample_requests(rt: HostRuntime) {
    assert!(rt; requests(&rt, rt.alloc()));
}
