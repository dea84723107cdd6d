//! The number of elements of a SEQUENCE OF or SET OF (X.691 20 and 22), in one length determinant or in fragments.
ghost use Rattle.std.specs.Prelude.{◌≡◌, ◌∷◌, true, false, None, IsTrue, ◌↔◌, IfOk, IfErr};
ghost use Rattle.asn1_schema_constraints.specs.Bounds.{members_of};
ghost use Rattle.asn1_schema_constraints.specs.Terms.{size_of};
ghost use Rattle.per_codec_laws.specs.Takes.{MemberDue, NextMember, members};
ghost use Rattle.per_codec_reading.specs.Fronts.{freedoms, is_aligned, IsFresh};
ghost use Rattle.per_codec_reading.specs.Lengths.{IsLength};
ghost use Rattle.per_codec_decoder.specs.Members.{AreBehind, NoneAreBehind};
ghost use Rattle.per_codec_decoder.specs.Members.{HasMembers, NoFurther, NoMembers};

use asn1_schema_constraints::{Bounded, Sizes};
use asn1_schema_errors::DecodeError;
use per_codec_reading::length::{Length, read_length};
use per_codec_reading::{
    Cursor, LengthDeterminant, PackedRules, is_accepted_outside, is_admitted, read_heading,
};
use std::alloc::Global;
use std::marker::Model;

/// What is known of a list in fragments (X.691 11.9.3.8): how many elements it may have, whether the extension bit says
/// that their number is outside the root, how many elements the fragments so far have, and how many times 16384 the
/// last of them has. Before the first one that is 4: any fragment may be the first, as after one of 65536 elements.
#[derive(Drop)]
pub(crate) struct Tally {
    sizes: Sizes,
    held: Bounded<usize>,
    is_outside: bool,
    counted: usize,
    last: usize,
}

impl Model for Tally {
    ghost use Rattle.asn1_schema_constraints.specs.Bounds.{members_of};
    ghost use Rattle.asn1_schema_constraints.specs.Terms.{size_of};
    ghost use Rattle.per_codec_laws.specs.Takes.{Tally as TallyTerm};

    ghost Value = { TallyTerm };

    ghost view = { λ t. record {
      size = size_of t.sizes;
      held = members_of t.held;
      outside = t.is_outside;
      counted = t.counted;
      last = t.last;
    } };
}

/// The elements after one length determinant: how many are due, and what is known of the list if another length
/// determinant follows them. That is held by a pointer, since few lists come in fragments and every scope moves this
/// struct.
#[derive(Drop)]
pub struct DueMembers {
    due: usize,
    tally: Option<Box<Tally>>,
}

impl Model for DueMembers {
    ghost use Rattle.per_codec_decoder.specs.Members.{Due, tally_in};

    ghost Value = { Due };

    ghost view = { λ members. record { due = members.due; tally = tally_in members.tally } };
}

impl Tally {
    /// The elements after a length determinant that was read: those of a fragment, or the last ones, with which the
    /// number of all elements is checked.
    ///
    /// # Errors
    ///
    /// `NotValidCanonicalEncoding` if strict rules do not accept a fragment after the last one, or the number of
    /// elements in the root encoded as outside it, `SizeConstraintNotSatisfied` if their number is not allowed, and
    /// `OutOfMemory`, also above 64 bits.
    fn behind(
        mut self,
        alloc: Global,
        rules: PackedRules,
        length: Length,
    ) -> Result<DueMembers, DecodeError>
        requires { IsLength length }
        ensures ok { IfOk result (λ members. AreBehind rules self length members.due members.tally) }
        ensures only { IfErr result (NoneAreBehind rules self length) }
        ensures fresh { IfErr result IsFresh }
    {
        if !length.may_follow(rules, self.last) {
            return Err(DecodeError::NotValidCanonicalEncoding);
        }
        let due = length.count();
        let Some(counted) = self.counted.checked_add(due) else {
            return Err(DecodeError::OutOfMemory);
        };
        match length {
            Length::Fragment(multiple) => {
                self.counted = counted;
                self.last = multiple;
                let boxed = Box::new(alloc, self)?;
                let tally = Some(boxed);
                Ok(DueMembers { due, tally })
            }
            Length::Short(_) => {
                if !is_admitted(self.sizes.root, self.held, self.is_outside, counted) {
                    return Err(DecodeError::SizeConstraintNotSatisfied);
                }
                if !is_accepted_outside(rules, self.sizes.root, self.is_outside, counted) {
                    return Err(DecodeError::NotValidCanonicalEncoding);
                }
                Ok(DueMembers { due, tally: None })
            }
        }
    }
}

impl DueMembers {
    /// How many elements are due before any other length determinant.
    pub(crate) fn due(&self) -> usize
        ensures { result ≡ self.now.due }
    {
        self.due
    }

    /// Whether no element is due, and no length determinant follows.
    #[inline(always)]
    pub(crate) fn is_last(&self) -> bool
        ensures { IsTrue result ↔ ((self.now.due ≡ 0) × (self.now.tally ≡ None)) }
    {
        self.due == 0 && self.tally.is_none()
    }

    /// Whether another element follows, after the next length determinant if none is due before it.
    ///
    /// # Errors
    ///
    /// Those of a length determinant, `SizeConstraintNotSatisfied` if the number of elements is not allowed, and
    /// `NotValidCanonicalEncoding` if strict rules do not accept it.
    #[inline(always)]
    pub(crate) fn next(
        &mut self,
        cursor: &mut Cursor<'_>,
        rules: PackedRules,
    ) -> Result<bool, DecodeError>
        ensures ok { IfOk result (λ more. (k : _)
            → NextMember (is_aligned rules) (freedoms rules) more cursor.old
            (members self.old.due self.old.tally ∷ k) (cursor.new, members self.new.due self.new.tally ∷ k)) }
        ensures only { IfErr result (λ e. (k : _)
            → NoFurther (is_aligned rules) (freedoms rules) cursor.old
            (members self.old.due self.old.tally ∷ k) e) }
        ensures fresh { IfErr result IsFresh }
    {
        if self.due > 0 {
            self.due -= 1;
            return Ok(true);
        }
        match self.tally.take() {
            Some(boxed) => {
                let alloc = *Box::allocator(&boxed);
                let tally = Box::into_inner(boxed);
                let length = read_length(cursor, rules)?;
                *self = tally.behind(alloc, rules, length)?;
                Ok(self.take_member())
            }
            None => Ok(false),
        }
    }

    /// Takes an element that is due before any other length determinant, if there is one.
    #[inline(always)]
    pub(crate) fn take_due(&mut self) -> bool
        ensures there { result ≡ true → (al : _) (free : _) (p : _) (k : _) → NextMember al free true p
            (members self.old.due self.old.tally ∷ k) (p, members self.new.due self.new.tally ∷ k) }
        ensures none { result ≡ false → self.new ≡ self.old }
    {
        if self.due == 0 {
            return false;
        }
        self.due -= 1;
        true
    }

    /// Takes one of the elements that are due, if there is one.
    #[inline(always)]
    fn take_member(&mut self) -> bool
        requires { self.old.due ≡ 0 → self.old.tally ≡ None }
        ensures { (p : _) (k : _) → MemberDue result self.old.due self.old.tally p k
            (p, members self.new.due self.new.tally ∷ k) }
    {
        if self.due == 0 {
            return false;
        }
        self.due -= 1;
        true
    }
}

/// Reads what precedes the elements of a SEQUENCE OF or SET OF under a size constraint (X.691 20 and 22).
///
/// # Errors
///
/// `SizeConstraintNotSatisfied` if the number of elements is not allowed, `NotValidCanonicalEncoding` if strict rules
/// do not accept it, the errors of a constrained whole number and of a length determinant, and `OutOfMemory`.
pub fn read_members(
    alloc: Global,
    cursor: &mut Cursor<'_>,
    rules: PackedRules,
    sizes: Sizes,
    held: Bounded<usize>,
) -> Result<DueMembers, DecodeError>
    ensures ok { IfOk result (λ members. HasMembers (is_aligned rules) (freedoms rules)
        (size_of sizes) (members_of held) members.due members.tally cursor.old cursor.new) }
    ensures only { IfErr result (NoMembers (is_aligned rules) (freedoms rules) (size_of sizes)
        (members_of held) cursor.old) }
    ensures fresh { IfErr result IsFresh }
{
    let heading = read_heading(cursor, rules, sizes)?;
    match heading.determinant {
        LengthDeterminant::Constrained(due) => {
            if !is_admitted(sizes.root, held, heading.is_outside, due) {
                return Err(DecodeError::SizeConstraintNotSatisfied);
            }
            Ok(DueMembers { due, tally: None })
        }
        LengthDeterminant::General(length) => {
            let tally = Tally {
                sizes,
                held,
                is_outside: heading.is_outside,
                counted: 0,
                last: 4,
            };
            tally.behind(alloc, rules, length)
        }
    }
}
