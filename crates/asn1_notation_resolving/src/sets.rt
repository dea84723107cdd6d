//! Which numbers, sizes and characters the constraints of a type allow, as far as PER and OER see them (X.691 10.3,
//! X.696 8.2).
ghost use Rattle.std.specs.Prelude.{◌≡◌};

use crate::bases::{Base, ConstraintUse, base_of};
use crate::characters::characters_of;
use asn1_notation_constraints::{ConstraintTerm, Visible, effective};
use asn1_notation_intervals::{Interval, NumberSet};
use asn1_notation_names::{Files, NotationError, Problem, Scope, TypeUse, ValueUse, integer_of};
use asn1_notation_tree::{
    ConstraintIndex, ConstraintKind, Limit, NamedNumber, RangeEnd, TypeKind, ValueIndex,
};
use std::alloc::Global;

/// How many levels of constraints are followed.
const MOST_LEVELS: u32 = 64;

/// How many contained subtypes are followed in the constraints of a type, which may name one type again and again.
const MOST_CONTAINED: u32 = 4096;

/// What is looked for in a constraint.
#[derive(Clone, Copy, PartialEq, Eq)]
pub enum Aspect {
    /// The numbers of an INTEGER, or those in SIZE (X.680 51.2 and 51.4).
    Numbers,
    /// The sizes (X.680 51.5).
    Sizes,
    /// The permitted alphabet (X.680 51.7).
    Alphabet,
    /// The characters in FROM.
    Characters,
}

/// What PER and OER see of the constraints of a type, applied one after the other (X.680 50.8); none if they see none.
/// Constraints of another aspect do not count.
///
/// # Errors
///
/// `TooDeep` at a constraint in 64 others, `TooManyContained` at a contained subtype after 4,096 others;
/// `ValueOfOtherType` at a value that is no text or no single character. Those of `integer_of`, `settled` and
/// `base_of`.
pub fn visible(
    alloc: Global,
    files: &mut Files<'_, '_>,
    base: &Base<'_>,
    aspect: Aspect,
) -> Result<Option<Visible>, NotationError> {
    let mut terms = Terms::new(alloc, base);
    let roots = terms.add_all(files, base.constraints.as_slice(), Sought::of(aspect))?;
    match effective(alloc, terms.terms.as_slice(), roots.as_slice()) {
        Ok(visible) if visible.is_visible => Ok(Some(visible)),
        Ok(_) => Ok(None),
        Err(_) => Err(NotationError::new(Problem::OutOfMemory)),
    }
}

/// Refuses a constraint with a value that the type before it does not have (X.680 51.2 and 51.4), and one after which
/// no value is left. The numbers, sizes or characters of the type without constraints are given. A type whose last
/// constraint has an extension marker may have all of them.
///
/// # Errors
///
/// `OutsideParent` or `SizeOutOfRange` at the value, `EmptyConstraint` at the constraint. Those of `visible`.
pub fn check_values(
    alloc: Global,
    files: &mut Files<'_, '_>,
    base: &Base<'_>,
    aspect: Aspect,
    own: NumberSet,
) -> Result<(), NotationError> {
    let mut parent = own;
    let mut is_extensible = false;
    let count = base.constraints.len();
    for back in 0..count {
        let ConstraintUse { scope, index } = base.constraints[count - 1 - back];
        let mut terms = Terms::new(alloc, base);
        let Some(root) = terms.add_constraint(files, scope, index, Sought::of(aspect))? else {
            continue;
        };
        if !is_extensible {
            terms.check_written(files, aspect, &parent)?;
        }
        let Ok(seen) = effective(alloc, terms.terms.as_slice(), &[root]) else {
            return Err(NotationError::new(Problem::OutOfMemory));
        };
        parent = parent.intersection(alloc, &seen.numbers)?;
        is_extensible = seen.is_extensible;
        if parent.hull().is_none() {
            let place = files.constraint_term(scope, index)?.place;
            return Err(scope.error(place, Problem::EmptyConstraint));
        }
    }
    Ok(())
}

/// Whether a number is in a set.
pub fn has_number(set: &NumberSet, number: i128) -> bool {
    let one = Interval {
        low: Some(number),
        high: Some(number),
    };
    set.intervals()
        .iter()
        .any(|interval| interval.meet(one).has_number())
}

/// What is looked for in a constraint.
#[derive(Clone, Copy)]
struct Sought {
    aspect: Aspect,
    /// In how many levels of constraints.
    levels: u32,
    /// Whether in a contained subtype, whose extension markers do not count (X.680 50.9).
    is_contained: bool,
}

impl Sought {
    /// The aspect of a whole constraint.
    fn of(aspect: Aspect) -> Self {
        Sought {
            aspect,
            levels: MOST_LEVELS,
            is_contained: false,
        }
    }

    /// Another aspect at the same level.
    fn with(self, aspect: Aspect) -> Self
        ensures { result.levels ≡ self.levels }
    {
        Sought { aspect, ..self }
    }
}

/// A number or character that is written in a constraint.
#[derive(Clone, Copy)]
struct Written {
    number: i128,
    value: ValueUse,
}

/// The constraints of a type as a table of parts.
#[derive(Drop)]
struct Terms<'a> {
    alloc: Global,
    /// The module of the type.
    scope: Scope,
    /// The named numbers of the type.
    numbers: &'a [NamedNumber],
    terms: Vec<ConstraintTerm>,
    /// The values in them, without those of contained types.
    written: Vec<Written>,
    /// How many contained subtypes were followed.
    contained: u32,
}

impl<'a> Terms<'a> {
    /// No parts.
    fn new(alloc: Global, base: &Base<'a>) -> Self {
        let numbers: &[NamedNumber] = match &base.term.kind {
            TypeKind::Integer(numbers) => numbers.as_slice(),
            _ => &[],
        };
        Terms {
            alloc,
            scope: base.at.scope,
            numbers,
            terms: Vec::new(alloc),
            written: Vec::new(alloc),
            contained: 0,
        }
    }

    /// Refuses a written value that a type does not have, by the numbers, sizes or characters that it has.
    fn check_written(
        &self,
        files: &Files<'_, '_>,
        aspect: Aspect,
        parent: &NumberSet,
    ) -> Result<(), NotationError> {
        for written in &self.written {
            if aspect == Aspect::Sizes && written.number > i128::from(u64::MAX) {
                return Err(written.value.error(files, Problem::SizeOutOfRange));
            }
            if !has_number(parent, written.number) {
                return Err(written.value.error(files, Problem::OutsideParent));
            }
        }
        Ok(())
    }

    /// Adds a part, and returns its index.
    fn add(&mut self, term: ConstraintTerm) -> Result<usize, NotationError> {
        let index = self.terms.len();
        self.terms.push(term)?;
        Ok(index)
    }

    /// Adds constraints that are applied one after the other, and returns their indices, that of the parent type first.
    #[cycle(constraints)]
    fn add_all(
        &mut self,
        files: &mut Files<'_, '_>,
        constraints: &[ConstraintUse],
        sought: Sought,
    ) -> Result<Vec<usize>, NotationError> {
        let mut roots = Vec::new(self.alloc);
        for back in 0..constraints.len() {
            let ConstraintUse { scope, index } = constraints[constraints.len() - 1 - back];
            if let Some(root) = self.add_constraint(files, scope, index, sought)? {
                roots.push(root)?;
            }
        }
        Ok(roots)
    }

    /// Adds a constraint, and returns its index, if it is of the aspect.
    #[cycle(constraints)]
    fn add_constraint(
        &mut self,
        files: &mut Files<'_, '_>,
        scope: Scope,
        index: ConstraintIndex,
        sought: Sought,
    ) -> Result<Option<usize>, NotationError> {
        let term = files.constraint_term(scope, index)?;
        let aspect = sought.aspect;
        if sought.levels == 0 {
            return Err(scope.error(term.place, Problem::TooDeep));
        }
        let below = Sought {
            levels: sought.levels - 1,
            ..sought
        };
        match &term.kind {
            ConstraintKind::Extensible(root, _) => self.add_extensible(files, scope, *root, below),
            ConstraintKind::Single(value) => self.add_single(files, scope, *value, aspect),
            ConstraintKind::Range(low, high) => self.add_range(files, scope, *low, *high, aspect),
            ConstraintKind::Size(inner) if aspect == Aspect::Sizes => {
                self.add_constraint(files, scope, *inner, below.with(Aspect::Numbers))
            }
            ConstraintKind::From(inner)
                if aspect == Aspect::Alphabet || aspect == Aspect::Characters => {
                self.add_constraint(files, scope, *inner, below.with(Aspect::Characters))
            }
            ConstraintKind::Contained(inner) => self.add_contained(files, scope, *inner, below),
            ConstraintKind::Union(parts) => self.add_union(files, scope, parts.as_slice(), below),
            ConstraintKind::Intersection(parts) => {
                self.add_intersection(files, scope, parts.as_slice(), below)
            }
            ConstraintKind::Except(first, _) => self.add_constraint(files, scope, *first, below),
            ConstraintKind::Size(_) | ConstraintKind::From(_) => Ok(None),
            ConstraintKind::AllExcept(_) | ConstraintKind::Unseen(_) => Ok(None),
        }
    }

    /// Adds a root before an extension marker, with the marker unless it does not count.
    #[cycle(constraints)]
    fn add_extensible(
        &mut self,
        files: &mut Files<'_, '_>,
        scope: Scope,
        root: ConstraintIndex,
        sought: Sought,
    ) -> Result<Option<usize>, NotationError> {
        match self.add_constraint(files, scope, root, sought)? {
            Some(root) if !sought.is_contained => {
                let extensible = ConstraintTerm::Extensible {
                    root,
                    additions: None,
                };
                Ok(Some(self.add(extensible)?))
            }
            root => Ok(root),
        }
    }

    /// Adds the values of a contained subtype (X.680 51.3), of those with an extension marker the root: in FROM, their
    /// characters (X.680 51.7).
    #[cycle(constraints)]
    fn add_contained(
        &mut self,
        files: &mut Files<'_, '_>,
        scope: Scope,
        index: usize,
        sought: Sought,
    ) -> Result<Option<usize>, NotationError> {
        let at = TypeUse { scope, index };
        if self.contained >= MOST_CONTAINED {
            return Err(at.error(files, Problem::TooManyContained));
        }
        self.contained += 1;
        let base = base_of(self.alloc, files, at)?;
        let count = self.written.len();
        let inside = Sought {
            is_contained: true,
            ..sought
        };
        let roots = self.add_all(files, base.constraints.as_slice(), inside)?;
        self.written.truncate(count);
        self.add_meet(roots)
    }

    /// Adds a union. If one of its parts is of another aspect, it admits all.
    #[cycle(constraints)]
    fn add_union(
        &mut self,
        files: &mut Files<'_, '_>,
        scope: Scope,
        parts: &[ConstraintIndex],
        sought: Sought,
    ) -> Result<Option<usize>, NotationError> {
        let mut all = Vec::new(self.alloc);
        for part in parts {
            match self.add_constraint(files, scope, *part, sought)? {
                None => return Ok(None),
                Some(part) => all.push(part)?,
            }
        }
        Ok(Some(self.add(ConstraintTerm::Union(all))?))
    }

    /// Adds an intersection of those of its parts that are of the aspect.
    #[cycle(constraints)]
    fn add_intersection(
        &mut self,
        files: &mut Files<'_, '_>,
        scope: Scope,
        parts: &[ConstraintIndex],
        sought: Sought,
    ) -> Result<Option<usize>, NotationError> {
        let mut all = Vec::new(self.alloc);
        for part in parts {
            if let Some(part) = self.add_constraint(files, scope, *part, sought)? {
                all.push(part)?;
            }
        }
        self.add_meet(all)
    }

    /// Adds the intersection of parts, if there are any.
    fn add_meet(&mut self, parts: Vec<usize>) -> Result<Option<usize>, NotationError> {
        if parts.is_empty() {
            return Ok(None);
        }
        Ok(Some(self.add(ConstraintTerm::Intersection(parts))?))
    }

    /// Adds a single value: a number, or the characters of a string in FROM.
    fn add_single(
        &mut self,
        files: &Files<'_, '_>,
        scope: Scope,
        index: ValueIndex,
        aspect: Aspect,
    ) -> Result<Option<usize>, NotationError> {
        let value = ValueUse { scope, index };
        match aspect {
            Aspect::Numbers => {
                let number = self.number(files, value)?;
                self.written.push(Written { number, value })?;
                Ok(Some(self.add_interval(Some(number), Some(number))?))
            }
            Aspect::Characters => Ok(Some(self.add_characters(files, value)?)),
            Aspect::Sizes | Aspect::Alphabet => Ok(None),
        }
    }

    /// Adds an interval.
    fn add_interval(
        &mut self,
        low: Option<i128>,
        high: Option<i128>,
    ) -> Result<usize, NotationError> {
        self.add(ConstraintTerm::Range(Interval { low, high }))
    }

    /// Adds a range of numbers or characters.
    fn add_range(
        &mut self,
        files: &Files<'_, '_>,
        scope: Scope,
        low: RangeEnd,
        high: RangeEnd,
        aspect: Aspect,
    ) -> Result<Option<usize>, NotationError> {
        match aspect {
            Aspect::Sizes | Aspect::Alphabet => Ok(None),
            Aspect::Numbers | Aspect::Characters => {
                let low = self.end(files, scope, low, 1, aspect)?;
                let high = self.end(files, scope, high, -1, aspect)?;
                Ok(Some(self.add_interval(low, high)?))
            }
        }
    }

    /// An end of a range, which is `inside` further in if it is open.
    fn end(
        &mut self,
        files: &Files<'_, '_>,
        scope: Scope,
        end: RangeEnd,
        inside: i128,
        aspect: Aspect,
    ) -> Result<Option<i128>, NotationError> {
        let Limit::Value(index) = end.limit else {
            return Ok(None);
        };
        let value = ValueUse { scope, index };
        let number = match aspect {
            Aspect::Characters => character_of(self.alloc, files, value)?,
            _ => self.number(files, value)?,
        };
        if !end.is_open {
            self.written.push(Written { number, value })?;
            return Ok(Some(number));
        }
        match number.checked_add(inside) {
            Some(next) => Ok(Some(next)),
            None => Err(value.error(files, Problem::UnsupportedConstraint)),
        }
    }

    /// A number in a constraint.
    fn number(&self, files: &Files<'_, '_>, value: ValueUse) -> Result<i128, NotationError> {
        integer_of(files, self.scope, self.numbers, value)
    }

    /// Adds the characters of a string in FROM.
    fn add_characters(
        &mut self,
        files: &Files<'_, '_>,
        value: ValueUse,
    ) -> Result<usize, NotationError> {
        let mut all = Vec::new(self.alloc);
        for character in characters_of(self.alloc, files, value)? {
            let number = i128::from(character);
            self.written.push(Written { number, value })?;
            all.push(self.add_interval(Some(number), Some(number))?)?;
        }
        self.add(ConstraintTerm::Union(all))
    }
}

/// The single character of a string at an end of a range.
fn character_of(
    alloc: Global,
    files: &Files<'_, '_>,
    value: ValueUse,
) -> Result<i128, NotationError> {
    match characters_of(alloc, files, value)?.as_slice() {
        [character] => Ok(i128::from(*character)),
        _ => Err(value.error(files, Problem::ValueOfOtherType)),
    }
}
