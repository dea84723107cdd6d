//! Intervals of whole numbers.
ghost use Rattle.std.specs.Prelude.{◌≡◌};
ghost use Rattle.asn1_notation_intervals.specs.Ends.{earlier_high, ends_first, has_number, is_before};
ghost use Rattle.asn1_notation_intervals.specs.Ends.{later_high, later_low, meet_of, reach_of};

/// The whole numbers from one to another, both included; without a lower or an upper end, all below or above
/// (X.680 51.4).
#[derive(Clone, Copy, Debug, PartialEq, Eq, PartialOrd, Ord)]
pub struct Interval {
    /// The lower end, if there is one.
    pub low: Option<i128>,
    /// The upper end, if there is one.
    pub high: Option<i128>,
}

impl Interval {
    /// All whole numbers.
    pub const ALL: Interval = Interval {
        low: None,
        high: None,
    };

    /// Whether there is a number in the interval.
    pub fn has_number(self) -> bool
        ensures { result ≡ has_number self }
    {
        match (self.low, self.high) {
            (Some(low), Some(high)) => low <= high,
            _ => true,
        }
    }

    // What two intervals have in common.
    pub fn meet(self, other: Interval) -> Interval
        ensures { result ≡ meet_of self other }
    {
        Interval {
            low: greater_low(self.low, other.low),
            high: lesser_high(self.high, other.high),
        }
    }

    // The interval, up to the end of another too.
    pub fn reaching(self, other: Interval) -> Interval
        ensures { result ≡ reach_of self other }
    {
        Interval {
            low: self.low,
            high: greater_high(self.high, other.high),
        }
    }

    // Whether the interval ends before another begins.
    pub fn ends_before(self, other: Interval) -> bool
        ensures { result ≡ is_before self.high other.low }
    {
        match (self.high, other.low) {
            (Some(high), Some(low)) => high < low,
            _ => false,
        }
    }

    // Whether the interval ends before another ends.
    pub fn ends_first(self, other: Interval) -> bool
        ensures { result ≡ ends_first self.high other.high }
    {
        match (self.high, other.high) {
            (Some(high), Some(end)) => high < end,
            (Some(_), None) => true,
            (None, _) => false,
        }
    }
}

/// The greater of two lower ends, if there are any.
fn greater_low(one: Option<i128>, other: Option<i128>) -> Option<i128>
    ensures { result ≡ later_low one other }
{
    match (one, other) {
        (Some(a), Some(b)) => Some(if a <= b { b } else { a }),
        (Some(a), None) => Some(a),
        (None, end) => end,
    }
}

/// The lesser of two upper ends, if there are any.
fn lesser_high(one: Option<i128>, other: Option<i128>) -> Option<i128>
    ensures { result ≡ earlier_high one other }
{
    match (one, other) {
        (Some(a), Some(b)) => Some(if a <= b { a } else { b }),
        (Some(a), None) => Some(a),
        (None, end) => end,
    }
}

/// The greater of two upper ends, if there are both.
fn greater_high(one: Option<i128>, other: Option<i128>) -> Option<i128>
    ensures { result ≡ later_high one other }
{
    match (one, other) {
        (Some(a), Some(b)) => Some(if a <= b { b } else { a }),
        _ => None,
    }
}
