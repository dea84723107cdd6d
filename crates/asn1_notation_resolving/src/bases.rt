//! What a type is after its references and tags.
ghost use Rattle.std.specs.Prelude.{◌≡◌};

use asn1_notation_names::{
    Files, MOST_STEPS, NotationError, Problem, Scope, Symbol, TypeUse, referenced, type_of_field,
};
use asn1_notation_tree::{
    Addition, AssignmentKind, Component, Components, ConstraintIndex, Name, Tagging, TaggingMode,
    TypeIndex, TypeKind, TypeTerm, UnsupportedType,
};
use std::alloc::Global;
use std::slice;

/// In how many levels actual parameters are followed.
const MOST_LEVELS: u32 = 64;

/// A constraint, and the module in which it is written.
#[derive(Clone, Copy)]
pub struct ConstraintUse {
    /// The module.
    pub scope: Scope,
    /// The index of its term.
    pub index: ConstraintIndex,
}

/// A type without its references, selections and tags.
#[derive(Drop)]
pub struct Base<'a> {
    /// Where its kind is written.
    pub at: TypeUse,
    /// Its term.
    pub term: &'a TypeTerm,
    /// The assignment of the type, if it is the whole of one.
    pub symbol: Option<Symbol>,
    /// The outermost tag, if there is one, and the module in which it is written.
    pub tag: Option<(Scope, &'a Tagging)>,
    /// All constraints, the last one that applies first (X.680 50.8).
    pub constraints: Vec<ConstraintUse>,
    /// How many of them are written elsewhere than at the kind itself.
    pub outer: usize,
}

impl Base<'_> {
    /// An error where the kind is written.
    pub fn error(&self, problem: Problem) -> NotationError
        ensures file { result.file ≡ self.now.at.scope.file }
        ensures place { result.place ≡ self.now.term.now.place }
        ensures problem { result.problem ≡ problem }
    {
        self.at.scope.error(self.term.place, problem)
    }
}

/// Adds the constraints of a term, the last one first.
fn add_constraints(
    all: &mut Vec<ConstraintUse>,
    scope: Scope,
    term: &TypeTerm,
) -> Result<(), NotationError> {
    let count = term.constraints.len();
    for back in 0..count {
        all.push(ConstraintUse {
            scope,
            index: term.constraints[count - 1 - back],
        })?;
    }
    Ok(())
}

/// Adds the constraint that a set of values is, if the assignment of a type is one (X.680 16.6).
fn add_value_set(
    all: &mut Vec<ConstraintUse>,
    files: &Files<'_, '_>,
    symbol: Option<Symbol>,
    scope: Scope,
) -> Result<(), NotationError> {
    let Some(symbol) = symbol else {
        return Ok(());
    };
    if let Some(assignment) = files.assignment(symbol) {
        if let AssignmentKind::ValueSet(_, index) = &assignment.kind {
            all.push(ConstraintUse {
                scope,
                index: *index,
            })?;
        }
    }
    Ok(())
}

/// The error of a tag at an item before an untagged CHOICE, if it is IMPLICIT.
fn implicit_error(scope: Scope, place: usize, tagging: &Tagging) -> Option<NotationError> {
    match tagging.mode {
        Some(TaggingMode::Implicit) => Some(scope.error(place, Problem::ImplicitChoice)),
        _ => None,
    }
}

/// Refuses a CHOICE after a tag with this error.
fn check_implicit(kind: &TypeKind, error: Option<NotationError>) -> Result<(), NotationError> {
    match (kind, error) {
        (TypeKind::Choice(_), Some(error)) => Err(error),
        _ => Ok(()),
    }
}

/// The type for which a kind stands: that of an alternative (X.680 30), or of the values of a field of a class
/// (X.681 14) unless it is an open type.
fn type_for(
    files: &mut Files<'_, '_>,
    scope: Scope,
    kind: &TypeKind,
) -> Result<Option<TypeUse>, NotationError> {
    match kind {
        TypeKind::Selection(name, index) => {
            let index = *index;
            Ok(Some(selected(files, TypeUse { scope, index }, name)?))
        }
        TypeKind::Unsupported(UnsupportedType::Field(class, names)) => {
            type_of_field(files, scope, class, names.as_slice())
        }
        _ => Ok(None),
    }
}

/// The type of the alternative with a name of a CHOICE (X.680 30).
fn selected(
    files: &mut Files<'_, '_>,
    start: TypeUse,
    name: &Name,
) -> Result<TypeUse, NotationError> {
    let mut at = start;
    for _ in 0..MOST_STEPS {
        match &files.type_term(at)?.kind {
            TypeKind::Tagged(_, inner) => at.index = *inner,
            TypeKind::Reference(reference) => {
                let (_, next) = referenced(files, at.scope, reference, MOST_LEVELS)?;
                at = next;
            }
            TypeKind::Choice(components) => match alternative(components, name.text.as_str()) {
                Some(index) => {
                    at.index = index;
                    return Ok(at);
                }
                None => break,
            },
            _ => break,
        }
    }
    Err(start.scope.error(name.place, Problem::UnknownAlternative))
}

/// The type of the alternative with a name, if there is one.
fn alternative(components: &Components, name: &str) -> Option<TypeIndex> {
    let root = named_type(components.root.as_slice(), name);
    if root.is_some() {
        return root;
    }
    for addition in &components.additions {
        let added = match addition {
            Addition::Single(component) => slice::from_ref(component),
            Addition::Group(group) => group.components.as_slice(),
        };
        let found = named_type(added, name);
        if found.is_some() {
            return found;
        }
    }
    None
}

/// The type of the component with a name, if there is one.
fn named_type(components: &[Component], name: &str) -> Option<TypeIndex> {
    for component in components {
        match component {
            Component::Named(known, index, _) if known.text.as_str() == name => return Some(*index),
            _ => {}
        }
    }
    None
}

/// A type without its references, selections and tags (X.680 14.1, 30 and 31, X.681 14). The last tag may not be
/// IMPLICIT before a CHOICE (X.680 31.2.9).
///
/// # Errors
///
/// Those of a reference to a type (`referenced`) and of a field of a class (`type_of_field`); `UnknownAlternative` at
/// the name in a selection. `ImplicitChoice` at such a tag, and `Circular` at the type after 64 references and tags.
pub fn base_of<'a>(
    alloc: Global,
    files: &mut Files<'a, '_>,
    start: TypeUse,
) -> Result<Base<'a>, NotationError> {
    let mut base = Base {
        at: start,
        term: files.type_term(start)?,
        symbol: None,
        tag: None,
        constraints: Vec::new(alloc),
        outer: 0,
    };
    let mut implicit = None;
    for _ in 0..MOST_STEPS {
        let at = base.at;
        let term = files.type_term(at)?;
        base.term = term;
        base.outer = base.constraints.len();
        add_constraints(&mut base.constraints, at.scope, term)?;
        match &term.kind {
            TypeKind::Tagged(tagging, inner) => {
                base.tag = base.tag.or(Some((at.scope, tagging)));
                implicit = implicit_error(at.scope, term.place, tagging);
                base.symbol = None;
                base.at.index = *inner;
            }
            TypeKind::Reference(reference) => {
                let (symbol, next) = referenced(files, at.scope, reference, MOST_LEVELS)?;
                add_value_set(&mut base.constraints, files, symbol, next.scope)?;
                (base.symbol, base.at) = (symbol, next);
            }
            kind => match type_for(files, at.scope, kind)? {
                Some(next) => (base.symbol, base.at) = (None, next),
                None => {
                    check_implicit(kind, implicit)?;
                    return Ok(base);
                }
            },
        }
    }
    Err(start.error(files, Problem::Circular))
}
