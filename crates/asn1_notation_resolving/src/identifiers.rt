//! Object identifiers (X.680 32).
use asn1_notation_names::{Files, NotationError, Problem, Scope, ValueUse, settled, value_named};
use asn1_notation_tree::{Arc, ListElement, Name, ValueKind};
use std::alloc::Global;

/// How many object identifiers are followed, each the beginning of the one before.
const MOST_LEVELS: u32 = 64;

/// The names of first arcs (X.680 32.7).
const FIRST_ARCS: [(&str, u32); 5] = [
    ("itu-t", 0),
    ("ccitt", 0),
    ("iso", 1),
    ("joint-iso-itu-t", 2),
    ("joint-iso-ccitt", 2),
];

/// The names of arcs after 0 (X.680 32.9).
const ITU_ARCS: [(&str, u32); 5] = [
    ("recommendation", 0),
    ("question", 1),
    ("administration", 2),
    ("network-operator", 3),
    ("identified-organization", 4),
];

/// The names of arcs after 1 (X.680 32.8).
const ISO_ARCS: [(&str, u32); 4] = [
    ("standard", 0),
    ("registration-authority", 1),
    ("member-body", 2),
    ("identified-organization", 3),
];

/// The number of a name in a list.
fn number_in(list: &[(&'static str, u32)], name: &str) -> Option<u32> {
    for (known, number) in list {
        if *known == name {
            return Some(*number);
        }
    }
    None
}

/// The number that X.680 32.7 to 32.9 give a name after some arcs, if they give it one.
fn known_arc(before: &[u32], name: &str) -> Option<u32> {
    match before {
        [] => number_in(&FIRST_ARCS, name),
        [0] => number_in(&ITU_ARCS, name),
        [1] => number_in(&ISO_ARCS, name),
        _ => None,
    }
}

/// Arcs that grow.
#[derive(Drop)]
struct Arcs<'a, 'i, 'f> {
    files: &'f Files<'a, 'i>,
    arcs: Vec<u32>,
}

/// The arcs of an object identifier (X.680 32.3).
///
/// # Errors
///
/// Those of `settled`. `ArcOutOfRange` at a number that is no arc, `ValueOfOtherType` at a value that is no object
/// identifier and no arc, and `Circular` at a name after 64 object identifiers, each the beginning of the one before.
pub fn arcs_of(
    alloc: Global,
    files: &Files<'_, '_>,
    value: ValueUse,
) -> Result<Vec<u32>, NotationError> {
    let mut arcs = Arcs {
        files,
        arcs: Vec::new(alloc),
    };
    arcs.add_all(value, MOST_LEVELS)?;
    Ok(arcs.arcs)
}

impl Arcs<'_, '_, '_> {
    /// Adds the arcs of an object identifier.
    #[cycle(arcs)]
    fn add_all(&mut self, value: ValueUse, levels: u32) -> Result<(), NotationError> {
        let at = settled(self.files, value)?;
        match &self.files.value_term(at.scope, at.index)?.kind {
            ValueKind::Arcs(parts) => self.add_parts(at.scope, parts.as_slice(), levels),
            ValueKind::List(elements) => self.add_elements(at.scope, elements.as_slice(), levels),
            _ => Err(value.error(self.files, Problem::ValueOfOtherType)),
        }
    }

    /// Adds parts.
    #[cycle(arcs)]
    fn add_parts(&mut self, scope: Scope, parts: &[Arc], levels: u32) -> Result<(), NotationError> {
        for part in parts {
            let index = part.number;
            self.add_part(ValueUse { scope, index }, levels)?;
        }
        Ok(())
    }

    /// Adds parts that have the form of a list: a name and a part, or a part.
    #[cycle(arcs)]
    fn add_elements(
        &mut self,
        scope: Scope,
        elements: &[ListElement],
        levels: u32,
    ) -> Result<(), NotationError> {
        for element in elements {
            if let Some(name) = &element.name {
                self.add_named(scope, None, name, levels)?;
            }
            let index = element.value;
            self.add_part(ValueUse { scope, index }, levels)?;
        }
        Ok(())
    }

    /// Adds a part: a number or a name.
    #[cycle(arcs)]
    fn add_part(&mut self, value: ValueUse, levels: u32) -> Result<(), NotationError> {
        match &self.files.value_term(value.scope, value.index)?.kind {
            ValueKind::Number(number) => self.add_arc(value, *number),
            ValueKind::Reference(reference) => {
                let module = reference.module.as_ref();
                self.add_named(value.scope, module, &reference.name, levels)
            }
            _ => Err(value.error(self.files, Problem::ValueOfOtherType)),
        }
    }

    /// Adds an arc.
    fn add_arc(&mut self, value: ValueUse, number: i128) -> Result<(), NotationError> {
        match u32::try_from(number) {
            Ok(arc) => Ok(self.arcs.push(arc)?),
            Err(_) => Err(value.error(self.files, Problem::ArcOutOfRange)),
        }
    }

    /// Adds what a name means: a known arc, a number, or in the first place the arcs of an object identifier.
    #[cycle(arcs)]
    fn add_named(
        &mut self,
        scope: Scope,
        module: Option<&Name>,
        name: &Name,
        levels: u32,
    ) -> Result<(), NotationError> {
        if module.is_none() {
            if let Some(arc) = known_arc(self.arcs.as_slice(), name.text.as_str()) {
                return Ok(self.arcs.push(arc)?);
            }
        }
        if levels == 0 {
            return Err(scope.error(name.place, Problem::Circular));
        }
        let at = settled(self.files, value_named(self.files, scope, module, name)?)?;
        match &self.files.value_term(at.scope, at.index)?.kind {
            ValueKind::Number(number) => self.add_arc(at, *number),
            _ if self.arcs.is_empty() => self.add_all(at, levels - 1),
            _ => Err(scope.error(name.place, Problem::ValueOfOtherType)),
        }
    }
}
