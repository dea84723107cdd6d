//! Which constraints types of a kind may have (X.680 51.1).
use crate::bases::{Base, ConstraintUse};
use crate::items::{Numbers, item_of, numbers_of};
use asn1_notation_names::{Files, NotationError, Problem, Scope, ValueUse, may_be, settled};
use asn1_notation_tree::{
    ConstraintKind, ConstraintTerm, TypeKind, UnseenConstraint, ValueIndex, ValueKind,
};
use std::alloc::{AllocError, Global};

/// What a constraint is applied to.
#[derive(Clone, Copy, PartialEq, Eq)]
enum Subject {
    /// The type.
    Type,
    /// Its sizes, in SIZE.
    Sizes,
    /// Its characters, in FROM.
    Characters,
}

/// Refuses constraints that types of this kind cannot have (X.680 51.1), and single values of other types. Those of
/// INTEGER, of SIZE and of FROM are looked at where their limits are.
///
/// # Errors
///
/// `ConstraintOfOther` at the constraint, `ValueOfOtherType` at the value. Those of `numbers_of`, `item_of` and
/// `settled`.
pub fn check_kinds(
    alloc: Global,
    files: &Files<'_, '_>,
    base: &Base<'_>,
) -> Result<(), NotationError> {
    let kind = &base.term.kind;
    let items = match kind {
        TypeKind::Enumerated(items) => Some(numbers_of(alloc, files, base.at.scope, items)?),
        _ => None,
    };
    let mut left = Vec::new(alloc);
    for constraint in &base.constraints {
        left.push((*constraint, Subject::Type))?;
    }
    for _ in 0..usize::MAX {
        let Some((at, subject)) = left.pop() else {
            break;
        };
        let term = files.constraint_term(at.scope, at.index)?;
        if add_parts(at.scope, term, subject, &mut left)? {
            continue;
        }
        match &term.kind {
            ConstraintKind::Single(value) if subject == Subject::Type => {
                check_value(files, kind, items.as_ref(), at.scope, *value)?;
            }
            part if may_have(kind, subject, part) => {}
            _ => return Err(at.scope.error(term.place, Problem::ConstraintOfOther)),
        }
        match &term.kind {
            ConstraintKind::Size(inner) => left.push((use_of(at.scope, *inner), Subject::Sizes))?,
            ConstraintKind::From(inner) => {
                left.push((use_of(at.scope, *inner), Subject::Characters))?;
            }
            _ => {}
        }
    }
    Ok(())
}

/// A constraint of a module.
fn use_of(scope: Scope, index: usize) -> ConstraintUse {
    ConstraintUse { scope, index }
}

/// Adds the parts of a constraint, the last one first, if it has some (X.680 50.1), and answers whether it has.
fn add_parts(
    scope: Scope,
    term: &ConstraintTerm,
    subject: Subject,
    left: &mut Vec<(ConstraintUse, Subject)>,
) -> Result<bool, AllocError> {
    match &term.kind {
        ConstraintKind::Extensible(root, additions) => {
            if let Some(additions) = additions {
                left.push((use_of(scope, *additions), subject))?;
            }
            left.push((use_of(scope, *root), subject))?;
        }
        ConstraintKind::Union(parts) | ConstraintKind::Intersection(parts) => {
            for part in parts.iter().rev() {
                left.push((use_of(scope, *part), subject))?;
            }
        }
        ConstraintKind::Except(included, excluded) => {
            left.push((use_of(scope, *excluded), subject))?;
            left.push((use_of(scope, *included), subject))?;
        }
        ConstraintKind::AllExcept(excluded) => left.push((use_of(scope, *excluded), subject))?,
        _ => return Ok(false),
    }
    Ok(true)
}

/// Whether a type of a kind, its sizes or its characters may have an element of a constraint (X.680 51.1).
fn may_have(kind: &TypeKind, subject: Subject, element: &ConstraintKind) -> bool {
    match element {
        ConstraintKind::Single(_) | ConstraintKind::Contained(_) => true,
        ConstraintKind::Range(..) => {
            subject != Subject::Type || matches!(kind, TypeKind::Integer(_))
        }
        _ if subject != Subject::Type => false,
        ConstraintKind::Size(_) => has_sizes(kind),
        ConstraintKind::From(_) => matches!(kind, TypeKind::CharacterString(_)),
        ConstraintKind::Unseen(unseen) => may_have_unseen(kind, unseen),
        _ => true,
    }
}

/// Whether values of a kind have sizes (X.680 51.5).
fn has_sizes(kind: &TypeKind) -> bool {
    match kind {
        TypeKind::BitString(_) | TypeKind::OctetString | TypeKind::CharacterString(_) => true,
        TypeKind::SequenceOf(_) | TypeKind::SetOf(_) => true,
        _ => false,
    }
}

/// Whether a type of a kind may have a constraint that neither PER nor OER sees (X.680 51.8 to 51.10, X.682).
fn may_have_unseen(kind: &TypeKind, unseen: &UnseenConstraint) -> bool {
    match unseen {
        UnseenConstraint::WithComponent(_) => {
            matches!(kind, TypeKind::SequenceOf(_) | TypeKind::SetOf(_))
        }
        UnseenConstraint::WithComponents(_) => matches!(
            kind,
            TypeKind::Sequence(_) | TypeKind::Set(_) | TypeKind::Choice(_)
        ),
        UnseenConstraint::Pattern(_) => matches!(kind, TypeKind::CharacterString(_)),
        UnseenConstraint::Settings(_) => false,
        UnseenConstraint::Contents => {
            matches!(kind, TypeKind::BitString(_) | TypeKind::OctetString)
        }
        UnseenConstraint::UserDefined | UnseenConstraint::Table => true,
    }
}

/// Refuses a single value of another type than one of a kind; an ENUMERATED has items with their numbers.
fn check_value(
    files: &Files<'_, '_>,
    kind: &TypeKind,
    items: Option<&Numbers<'_>>,
    scope: Scope,
    index: ValueIndex,
) -> Result<(), NotationError> {
    let value = ValueUse { scope, index };
    if matches!(kind, TypeKind::Integer(_)) {
        return Ok(());
    }
    if let Some(items) = items {
        item_of(files, items, value)?;
        return Ok(());
    }
    let at = settled(files, value)?;
    let written: &ValueKind = &files.value_term(at.scope, at.index)?.kind;
    if may_be(kind, written) {
        return Ok(());
    }
    Err(value.error(files, Problem::ValueOfOtherType))
}
