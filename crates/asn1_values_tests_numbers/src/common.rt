//! Helpers of the tests.
use std::alloc::{AllocError, Global};
use std::cmp::Ordering;
use std::convert::AsSlice;
use std::fmt::{Debug, Display};
use std::hash::{DefaultHasher, Hash, Hasher};
use std::process::Abort;

/// Ends the test with `wrong` in its message, if there is one. A function, so that this is proved once and not at each
/// call.
pub fn assert_none<T: Debug>(rt: &impl Abort, wrong: &Option<T>) {
    assert!(rt; wrong.is_none(), "{wrong:?}");
}

/// The hash of a value.
pub fn hash_of<T: Hash>(value: &T) -> u64 {
    let mut state = DefaultHasher::new();
    value.hash(&mut state);
    state.finish()
}

/// Whether a value has these items, by the trait alone.
pub fn has<T: PartialEq, S: AsSlice<T>>(value: &S, items: &[T]) -> bool {
    value.as_slice() == items
}

/// Whether a call has succeeded with a value of these items.
pub fn is_of<T: PartialEq, S: AsSlice<T> + Drop, E: Drop>(
    answer: Result<S, E>,
    items: &[T],
) -> bool {
    match answer {
        Ok(value) => has(&value, items),
        Err(_) => false,
    }
}

/// Whether a call has failed with this error.
pub fn is_refused<T: Drop, E: PartialEq + Drop>(answer: Result<T, E>, wanted: &E) -> bool {
    match answer {
        Ok(_) => false,
        Err(error) => error == *wanted,
    }
}

/// Whether the first of two values is less than the second, by each comparison.
pub fn is_before<T: Ord>(first: &T, second: &T) -> bool {
    first < second
        && first != second
        && first.cmp(second) == Ordering::Less
        && first.partial_cmp(second) == Some(Ordering::Less)
}

/// Whether a clone of a value is equal to it.
pub fn is_copied<T: Clone + PartialEq + Drop>(value: &T) -> Result<bool, AllocError> {
    let copy = value.clone()?;
    Ok(copy == *value)
}

/// Whether a value is cloned without an error, and the clone is equal to it and has the same hash.
pub fn has_copy<T: Clone + Hash + PartialEq + Drop>(value: &T) -> bool {
    match value.clone() {
        Ok(copy) => copy == *value && hash_of(&copy) == hash_of(value),
        Err(AllocError) => false,
    }
}

/// Whether a value is printed as this text by `Debug`.
pub fn is_shown<T: Debug>(alloc: Global, value: &T, text: &str) -> bool {
    match format!(in alloc; "{value:?}") {
        Ok(shown) => shown.as_str() == text,
        Err(AllocError) => false,
    }
}

/// Whether a value is printed as this text by `Display`.
pub fn is_told<T: Display>(alloc: Global, value: &T, text: &str) -> bool {
    match format!(in alloc; "{value}") {
        Ok(told) => told.as_str() == text,
        Err(AllocError) => false,
    }
}

/// Up to twenty octets.
#[derive(Clone, Copy)]
pub struct Octets {
    octets: [u8; 20],
    len: usize,
}

impl Octets {
    /// Octets from two hexadecimal digits each.
    pub fn of(digits: &str) -> Octets {
        let mut found = Octets {
            octets: [0; 20],
            len: 0,
        };
        let mut high: Option<u8> = None;
        for digit in digits.chars() {
            let value = u8::try_from(digit.to_digit(16).unwrap_or(0)).unwrap_or(0);
            match high {
                None => high = Some(value),
                Some(first) => {
                    if found.len < 20 {
                        found.octets[found.len] = first.wrapping_mul(16) | value;
                        found.len += 1;
                    }
                    high = None;
                }
            }
        }
        found
    }

    /// All of these octets.
    pub fn all(&self) -> &[u8] {
        if self.len <= 20 {
            &self.octets[..self.len]
        } else {
            &[]
        }
    }
}
