//! A number's octets, borrowed or inline.
ghost use Rattle.std.specs.Prelude.{◌≡◌, ℕ, ◌-◌, ◌≤◌, List, length, drop, map};
ghost use Rattle.asn1_model.specs.Numbers.{digits};
ghost use Rattle.asn1_values_natives.specs.Octets.{signed_octets_of, unsigned_octets_of, signed_by, sign_free};

use crate::octets::{bit_count, last_octets};
use crate::wide::Wide;
use std::convert::AsSlice;
use std::marker::Model;
use std::ops::DerefSlice;

/// The octets of a number, the most significant first: up to seventeen inline, or borrowed from the number.
#[derive(Drop)]
pub struct IntegerBytes<'a> {
    form: Form<'a>,
}

#[derive(Drop)]
enum Form<'a> {
    Inline { octets: [u8; 17], start: usize },
    Lent(&'a [u8]),
}

impl<'a> Model for IntegerBytes<'a> {
    ghost use Rattle.std.specs.Prelude.{List, ℕ};

    ghost Value = { List ℕ };

    ghost use Rattle.asn1_values_natives.specs.Forms.{shown_octets, IsForm};

    ghost view = { λ a. shown_octets a.form };

    ghost invariant = { λ a. IsForm a.form };
}

impl<'a> IntegerBytes<'a> {
    /// Borrowed octets.
    pub fn lent(octets: &'a [u8]) -> IntegerBytes<'a>
        ensures { result ≡ octets.entry.now }
    {
        IntegerBytes {
            form: Form::Lent(octets),
        }
    }

    // The last `count` octets of a number, complemented if it is negative.
    fn last(negative: bool, number: u128, count: usize) -> IntegerBytes<'a>
        requires { count ≤ 17 }
        ensures { result ≡ map (sign_free negative) (digits 256 count number) }
    {
        IntegerBytes {
            form: Form::Inline {
                octets: last_octets(negative, number, count),
                start: 17 - count,
            },
        }
    }

    /// The octets.
    pub fn as_slice(&self) -> &[u8]
        ensures { result.now ≡ self.now }
    {
        match &self.form {
            Form::Inline { octets, start } => &octets[*start..],
            Form::Lent(octets) => octets,
        }
    }

    /// How many octets there are.
    pub fn len(&self) -> usize
        ensures { result ≡ length self.now }
    {
        self.as_slice().len()
    }

    /// The fewest octets of the number in two's complement (X.690 8.3).
    pub fn signed(wide: Wide) -> IntegerBytes<'a>
        ensures { result ≡ signed_octets_of (signed_by wide.negative wide.magnitude) }
    {
        let count = bit_count(wide.magnitude) / 8 + 1;
        IntegerBytes::last(wide.negative, wide.magnitude, count)
    }

    /// The fewest octets of the number without a sign, at least one; for a negative number, those of two's complement.
    pub fn unsigned(wide: Wide) -> IntegerBytes<'a>
        ensures { result ≡ unsigned_octets_of (signed_by wide.negative wide.magnitude) }
    {
        if wide.negative {
            return IntegerBytes::signed(wide);
        }
        let count = ((bit_count(wide.magnitude) + 7) / 8).max(1);
        IntegerBytes::last(false, wide.magnitude, count)
    }
}

impl AsSlice<u8> for IntegerBytes<'_> {
    ghost items = { λ octets. octets };

    fn as_slice(&self) -> &[u8] {
        IntegerBytes::as_slice(self)
    }
}

impl DerefSlice for IntegerBytes<'_> {
    type Elem = u8;

    ghost deref_gives = { λ octets slice. slice ≡ octets };

    fn deref(&self) -> &[u8] {
        IntegerBytes::as_slice(self)
    }
}
