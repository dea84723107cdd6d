//! Bounds of the native integer types as value constraints (X.680 51.4).
ghost use Rattle.std.specs.Prelude.{◌≡◌, true, pos, option_map};
ghost use Rattle.std.specs.Result.{OkIff};
ghost use Rattle.asn1_schema_constraints.specs.Conversions.{of_naturals, is_held, IsOfNaturals};

use crate::{Bounded, Value};
use std::num::TryFromIntError;

impl From<Bounded<u8>> for Value {
    ghost from_gives = { λ bounds v. v.value ≡ of_naturals bounds };

    fn from(bounds: Bounded<u8>) -> Self {
        Value::new(match bounds {
            Bounded::None => Bounded::None,
            Bounded::Single(value) => Bounded::Single(i128::from(value)),
            Bounded::Range { start, end } => Bounded::Range {
                start: start.map(|low| i128::from(low)),
                end: end.map(|high| i128::from(high)),
            },
        })
    }
}

impl From<Bounded<u16>> for Value {
    ghost from_gives = { λ bounds v. v.value ≡ of_naturals bounds };

    fn from(bounds: Bounded<u16>) -> Self {
        Value::new(match bounds {
            Bounded::None => Bounded::None,
            Bounded::Single(value) => Bounded::Single(i128::from(value)),
            Bounded::Range { start, end } => Bounded::Range {
                start: start.map(|low| i128::from(low)),
                end: end.map(|high| i128::from(high)),
            },
        })
    }
}

impl From<Bounded<u32>> for Value {
    ghost from_gives = { λ bounds v. v.value ≡ of_naturals bounds };

    fn from(bounds: Bounded<u32>) -> Self {
        Value::new(match bounds {
            Bounded::None => Bounded::None,
            Bounded::Single(value) => Bounded::Single(i128::from(value)),
            Bounded::Range { start, end } => Bounded::Range {
                start: start.map(|low| i128::from(low)),
                end: end.map(|high| i128::from(high)),
            },
        })
    }
}

impl From<Bounded<u64>> for Value {
    ghost from_gives = { λ bounds v. v.value ≡ of_naturals bounds };

    fn from(bounds: Bounded<u64>) -> Self {
        Value::new(match bounds {
            Bounded::None => Bounded::None,
            Bounded::Single(value) => Bounded::Single(i128::from(value)),
            Bounded::Range { start, end } => Bounded::Range {
                start: start.map(|low| i128::from(low)),
                end: end.map(|high| i128::from(high)),
            },
        })
    }
}

impl From<Bounded<i8>> for Value {
    ghost from_gives = { λ bounds v. v.value ≡ bounds };

    fn from(bounds: Bounded<i8>) -> Self {
        Value::new(match bounds {
            Bounded::None => Bounded::None,
            Bounded::Single(value) => Bounded::Single(i128::from(value)),
            Bounded::Range { start, end } => Bounded::Range {
                start: start.map(|low| i128::from(low)),
                end: end.map(|high| i128::from(high)),
            },
        })
    }
}

impl From<Bounded<i16>> for Value {
    ghost from_gives = { λ bounds v. v.value ≡ bounds };

    fn from(bounds: Bounded<i16>) -> Self {
        Value::new(match bounds {
            Bounded::None => Bounded::None,
            Bounded::Single(value) => Bounded::Single(i128::from(value)),
            Bounded::Range { start, end } => Bounded::Range {
                start: start.map(|low| i128::from(low)),
                end: end.map(|high| i128::from(high)),
            },
        })
    }
}

impl From<Bounded<i32>> for Value {
    ghost from_gives = { λ bounds v. v.value ≡ bounds };

    fn from(bounds: Bounded<i32>) -> Self {
        Value::new(match bounds {
            Bounded::None => Bounded::None,
            Bounded::Single(value) => Bounded::Single(i128::from(value)),
            Bounded::Range { start, end } => Bounded::Range {
                start: start.map(|low| i128::from(low)),
                end: end.map(|high| i128::from(high)),
            },
        })
    }
}

impl From<Bounded<i64>> for Value {
    ghost from_gives = { λ bounds v. v.value ≡ bounds };

    fn from(bounds: Bounded<i64>) -> Self {
        Value::new(match bounds {
            Bounded::None => Bounded::None,
            Bounded::Single(value) => Bounded::Single(i128::from(value)),
            Bounded::Range { start, end } => Bounded::Range {
                start: start.map(|low| i128::from(low)),
                end: end.map(|high| i128::from(high)),
            },
        })
    }
}

impl From<Bounded<isize>> for Value {
    ghost from_gives = { λ bounds v. v.value ≡ bounds };

    fn from(bounds: Bounded<isize>) -> Self {
        Value::new(match bounds {
            Bounded::None => Bounded::None,
            Bounded::Single(value) => Bounded::Single(value as i128),
            Bounded::Range { start, end } => Bounded::Range {
                start: start.map(|low| low as i128),
                end: end.map(|high| high as i128),
            },
        })
    }
}

impl From<Bounded<i128>> for Value {
    ghost from_gives = { λ bounds v. v.value ≡ bounds };

    fn from(bounds: Bounded<i128>) -> Self {
        Value::new(bounds)
    }
}

// An end of bounds, if an `i128` holds it.
fn held_end(end: Option<u128>) -> Result<Option<i128>, TryFromIntError>
    ensures { OkIff result (is_held end ≡ true) (option_map pos end) }
{
    match end {
        Some(value) => Ok(Some(i128::try_from(value)?)),
        None => Ok(None),
    }
}

impl TryFrom<Bounded<u128>> for Value {
    type Error = TryFromIntError;

    ghost try_from_gives = { IsOfNaturals };

    fn try_from(bounds: Bounded<u128>) -> Result<Self, TryFromIntError> {
        let value = match bounds {
            Bounded::None => Bounded::None,
            Bounded::Single(value) => Bounded::Single(i128::try_from(value)?),
            Bounded::Range { start, end } => Bounded::Range {
                start: held_end(start)?,
                end: held_end(end)?,
            },
        };
        Ok(Value::new(value))
    }
}

impl TryFrom<Bounded<usize>> for Value {
    type Error = TryFromIntError;

    ghost try_from_gives = { IsOfNaturals };

    fn try_from(bounds: Bounded<usize>) -> Result<Self, TryFromIntError> {
        Value::try_from(match bounds {
            Bounded::None => Bounded::None,
            Bounded::Single(value) => Bounded::Single(value as u128),
            Bounded::Range { start, end } => Bounded::Range {
                start: start.map(|low| low as u128),
                end: end.map(|high| high as u128),
            },
        })
    }
}
