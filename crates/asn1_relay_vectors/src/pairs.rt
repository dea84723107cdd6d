//! Routes between pairs of versions, by their names.
use crate::foretold::{Grown, Known, Sent};
use crate::of::Of;
use asn1_relay_core::DecodeError;
use asn1_relay_types::{
    New, NewColour, NewDefault, NewDefaultFields, NewFields, NewRequired, NewRequiredFields, Old,
    OldColour, OldDefault, OldDefaultFields, OldFields,
};
use asn1_relay_vectors_judging::cuts::Inputs;
use asn1_relay_vectors_judging::routes::{Claim, judge, judge_claim};
use asn1_relay_vectors_lines::line::{LineError, Verdict};
use asn1_relay_vectors_types::{
    Nested, NewBag, NewBracket, NewHolder, NewList, Newest, OldBag, OldBracket, OldGrown,
    OldHolder, OldList, OldVersioned, Versioned,
};
use asn1_schema_example::grown;
use asn1_schema_wrapped::Implicit;
use std::marker::PhantomData;

/// Judges a line of two Rust types, an older and a newer version, and tries its octets as of each when truncated.
macro_rules! judge_types {
    ($inputs:expr, $versions:ident, $old:ty, $new:ty, $name:expr, $claim:expr) => {
        judge(
            $inputs,
            &$versions::<$old, $new>(PhantomData),
            &Of::<$old>(PhantomData),
            &Of::<$new>(PhantomData),
            $name,
            $claim,
        )
    };
}

/// Judges a line of two Rust types whose octets are tried as of the tables of the types.
macro_rules! judge_sent {
    ($inputs:expr, $old:ty, $new:ty, $claim:expr) => {
        judge_claim(
            $inputs.alloc(),
            &Sent::<$old, $new>(PhantomData),
            $claim,
        )
    };
}

/// Judges a line of the pair of Rust types with this name.
///
/// # Errors
///
/// `NoType` if there is no such pair, and those of `judge`.
pub fn judge_pair(inputs: &mut Inputs, name: &str, claim: &Claim) -> Verdict {
    match name {
        "plain" => judge_types!(inputs, Known, Old, New, name, claim),
        "default" => judge_types!(inputs, Known, OldDefault, NewDefault, name, claim),
        "required" => judge_types!(inputs, Known, Old, NewRequired, name, claim),
        "colour" => judge_types!(inputs, Known, OldColour, NewColour, name, claim),
        "group" => judge_types!(inputs, Sent, OldBracket, NewBracket, name, claim),
        _ => judge_sent(inputs, name, claim),
    }
}

/// Judges a line of a pair without samples, whose types have tables.
fn judge_sent(inputs: &mut Inputs, name: &str, claim: &Claim) -> Verdict {
    match name {
        "list" => judge_sent!(inputs, OldList, NewList, claim),
        "bag" => judge_sent!(inputs, OldBag, NewBag, claim),
        "within" => judge_sent!(inputs, OldHolder, NewHolder, claim),
        "nested" => judge_sent!(inputs, Old, Nested, claim),
        "choice" => judge_sent!(inputs, OldVersioned, Versioned, claim),
        "set" => judge_sent!(inputs, OldGrown, grown::Grown, claim),
        "later" => judge_sent!(inputs, New, Newest, claim),
        "leap" => judge_sent!(inputs, Old, Newest, claim),
        _ => Err(LineError::NoType),
    }
}

/// A value of the newer version.
fn newer(a: bool, b: Option<u8>) -> New {
    New::new(NewFields { a, b })
}

impl Grown<Old> for New {
    fn sample(place: usize) -> Option<New> {
        match place {
            0 => Some(newer(true, Some(7))),
            1 => Some(newer(false, None)),
            2 => Some(newer(false, Some(255))),
            _ => None,
        }
    }

    fn lessened(&self) -> Result<Old, DecodeError> {
        Ok(Old::new(OldFields { a: self.value.a }))
    }

    fn grown(older: &Old) -> Result<New, DecodeError> {
        Ok(newer(older.value.a, None))
    }

    fn clashes(&self) -> bool {
        false
    }
}

impl Grown<OldDefault> for NewDefault {
    fn sample(place: usize) -> Option<NewDefault> {
        let (a, b) = match place {
            0 => (true, Some(7)),
            1 => (true, None),
            2 => (false, Some(7)),
            3 => (false, None),
            _ => return None,
        };
        Some(NewDefault::new(NewDefaultFields { s: newer(a, b) }))
    }

    fn lessened(&self) -> Result<OldDefault, DecodeError> {
        let s = self.value.s.lessened()?;
        Ok(OldDefault::new(OldDefaultFields { s }))
    }

    fn grown(older: &OldDefault) -> Result<NewDefault, DecodeError> {
        let s = New::grown(&older.value.s)?;
        Ok(NewDefault::new(NewDefaultFields { s }))
    }

    fn clashes(&self) -> bool {
        self.value.s.value.a && self.value.s.value.b.is_some()
    }
}

impl Grown<Old> for NewRequired {
    fn sample(place: usize) -> Option<NewRequired> {
        let (a, r) = match place {
            0 => (true, false),
            1 => (false, true),
            _ => return None,
        };
        let r = Implicit::new(r);
        Some(NewRequired::new(NewRequiredFields { a, r }))
    }

    fn lessened(&self) -> Result<Old, DecodeError> {
        Ok(Old::new(OldFields { a: self.value.a }))
    }

    fn grown(_older: &Old) -> Result<NewRequired, DecodeError> {
        Err(DecodeError::RequiredExtensionNotPresent)
    }

    fn clashes(&self) -> bool {
        false
    }
}

impl Grown<OldColour> for NewColour {
    fn sample(place: usize) -> Option<NewColour> {
        match place {
            0 => Some(NewColour::Red),
            1 => Some(NewColour::Blue),
            _ => None,
        }
    }

    fn lessened(&self) -> Result<OldColour, DecodeError> {
        match self {
            NewColour::Red => Ok(OldColour::Red),
            NewColour::Blue => Err(DecodeError::DiscriminantValueNotFound),
        }
    }

    fn grown(_older: &OldColour) -> Result<NewColour, DecodeError> {
        Ok(NewColour::Red)
    }

    fn clashes(&self) -> bool {
        false
    }
}
