//! Calls during which at most one request for memory is refused.
use asn1_relay_trials::{Trial, is_right_at_last};
use std::alloc::Global;

/// Whether a call returns the same result as with enough memory, or runs out of memory, leaves the promised state, and
/// is then right once repeated. If the refused request comes before the call, the call is made anyway.
pub fn is_right<T: Trial>(alloc: Global, plan: T::Plan) -> bool {
    match T::begin(alloc, plan) {
        Ok(mut trial) => is_right_at_last(&mut trial),
        Err(_) => is_right_behind::<T>(alloc, plan),
    }
}

/// The same after a request was refused.
fn is_right_behind<T: Trial>(alloc: Global, plan: T::Plan) -> bool {
    match T::begin(alloc, plan) {
        Ok(mut trial) => is_right_at_last(&mut trial),
        Err(_) => false,
    }
}
