//! Defaults in normal form (X.680 25.9, X.691 19.5 and 19.9): a component with its own default as its value is absent,
//! and so is a group of additions without components.
use crate::events::{event_of, has_size};
use crate::given::{Given, given_parts};
use crate::parts::{is_last_of_group, root_order};
use crate::tables::Additions;
use asn1_notation_components::{Part, Parts, alternatives_of, parts_of};
use asn1_notation_resolving::{
    Base, Files, NotationError, Problem, TypeUse, ValueUse, base_of, settled,
};
use asn1_notation_tree::{Components, Element, Presence, TypeKind, ValueKind};
use asn1_table_types::{DefaultValue, is_same_value};
use std::alloc::Global;
use std::mem;

/// In how many levels a default is read.
const MOST_LEVELS: u32 = 128;

/// How many values are read for the defaults of a table at most: a reference to a value counts as all of its values.
const MOST_VALUES: usize = 65_536;

/// Reads the defaults of a table.
#[derive(Drop)]
pub(crate) struct Defaults {
    alloc: Global,
    additions: Additions,
    /// How many values may still be read.
    left: usize,
}

impl Defaults {
    /// No defaults yet.
    pub(crate) fn new(alloc: Global, additions: Additions) -> Self {
        Defaults {
            alloc,
            additions,
            left: MOST_VALUES,
        }
    }

    /// The default of a component of a type.
    pub(crate) fn read<'a>(
        &mut self,
        files: &mut Files<'a, '_>,
        base: &Base<'a>,
        value: ValueUse,
    ) -> Result<DefaultValue, NotationError> {
        self.value_of(files, base, value, MOST_LEVELS)
    }

    /// A value of a type, nested at most this deep.
    #[cycle(values)]
    fn value_of<'a>(
        &mut self,
        files: &mut Files<'a, '_>,
        base: &Base<'a>,
        value: ValueUse,
        levels: u32,
    ) -> Result<DefaultValue, NotationError> {
        if levels == 0 {
            return Err(value.error(files, Problem::TooDeep));
        }
        if self.left == 0 {
            return Err(value.error(files, Problem::UnsupportedDefault));
        }
        self.left -= 1;
        let below = levels - 1;
        match &base.term.kind {
            TypeKind::SequenceOf(element) => {
                let elements = self.elements_of(files, base, element, value, below)?;
                Ok(DefaultValue::SequenceOf(elements))
            }
            TypeKind::SetOf(element) => {
                let elements = self.elements_of(files, base, element, value, below)?;
                Ok(DefaultValue::SetOf(elements))
            }
            TypeKind::Choice(components) => {
                self.chosen_of(files, base, components, value, below)
            }
            TypeKind::Sequence(components) => {
                let parts = parts_of(self.alloc, files, base.at.scope, components, false)?;
                self.components_of(files, &parts, false, value, below)
            }
            TypeKind::Set(components) => {
                let parts = parts_of(self.alloc, files, base.at.scope, components, true)?;
                self.components_of(files, &parts, true, value, below)
            }
            _ => Ok(DefaultValue::Simple(event_of(self.alloc, files, base, value)?)),
        }
    }

    /// The elements of a list (X.680 26.3 and 28.3).
    #[cycle(values)]
    fn elements_of<'a>(
        &mut self,
        files: &mut Files<'a, '_>,
        base: &Base<'a>,
        element: &Element,
        value: ValueUse,
        levels: u32,
    ) -> Result<Vec<DefaultValue>, NotationError> {
        let at = settled(files, value)?;
        let ValueKind::List(elements) = &files.value_term(at.scope, at.index)?.kind else {
            return Err(value.error(files, Problem::ValueOfOtherType));
        };
        let of = TypeUse {
            scope: base.at.scope,
            index: element.element,
        };
        let element = base_of(self.alloc, files, of)?;
        let mut values = Vec::new(self.alloc);
        for one in elements {
            let one = ValueUse {
                scope: at.scope,
                index: one.value,
            };
            values.push(self.value_of(files, &element, one, levels)?)?;
        }
        if has_size(self.alloc, files, base, values.len())? {
            return Ok(values);
        }
        Err(value.error(files, Problem::DefaultOutside))
    }

    /// The chosen alternative of a CHOICE and its value (X.680 29.11).
    #[cycle(values)]
    fn chosen_of<'a>(
        &mut self,
        files: &mut Files<'a, '_>,
        base: &Base<'a>,
        components: &'a Components,
        value: ValueUse,
        levels: u32,
    ) -> Result<DefaultValue, NotationError> {
        let at = settled(files, value)?;
        let ValueKind::Choice(name, index) = &files.value_term(at.scope, at.index)?.kind else {
            return Err(value.error(files, Problem::ValueOfOtherType));
        };
        let alternatives = alternatives_of(self.alloc, files, base.at.scope, components)?;
        let Some((chosen, part)) = alternatives.find(name.text.as_str()) else {
            return Err(at.scope.error(name.place, Problem::UnknownValue));
        };
        let base = base_of(self.alloc, files, part.at)?;
        let inner = ValueUse {
            scope: at.scope,
            index: *index,
        };
        let inner = self.value_of(files, &base, inner, levels)?;
        Ok(DefaultValue::Choice(chosen, Box::new(self.alloc, inner)?))
    }

    /// The components of a SEQUENCE or SET (X.680 25.18 and 27).
    #[cycle(values)]
    fn components_of<'a>(
        &mut self,
        files: &mut Files<'a, '_>,
        parts: &Parts<'a>,
        is_set: bool,
        value: ValueUse,
        levels: u32,
    ) -> Result<DefaultValue, NotationError> {
        let given = given_parts(self.alloc, files, parts, is_set, value)?;
        if given.lacks_required(parts, self.additions) {
            return Err(value.error(files, Problem::ValueOfOtherType));
        }
        let mut root = Vec::new(self.alloc);
        for index in root_order(self.alloc, files, parts, is_set)? {
            if let Some(part) = parts.root.get(index).copied() {
                root.push(self.part_of(files, part, given.root(index), levels)?)?;
            }
        }
        let additions = self.additions_of(files, parts, &given, levels)?;
        Ok(DefaultValue::Components(root, additions))
    }

    /// The additions of a SEQUENCE or SET. Those in the same version brackets are a group.
    #[cycle(values)]
    fn additions_of<'a>(
        &mut self,
        files: &mut Files<'a, '_>,
        parts: &Parts<'a>,
        given: &Given,
        levels: u32,
    ) -> Result<Vec<Option<DefaultValue>>, NotationError> {
        let mut additions = Vec::new(self.alloc);
        let mut group = Vec::new(self.alloc);
        for index in 0..parts.additions.len() {
            let part = parts.additions[index];
            let value = self.part_of(files, part, given.addition(index), levels)?;
            if part.group.is_none() {
                additions.push(value)?;
                continue;
            }
            group.push(value)?;
            if is_last_of_group(parts, index) {
                let done = mem::replace(&mut group, Vec::new(self.alloc));
                additions.push(self.group_of(done))?;
            }
        }
        Ok(additions)
    }

    /// A group of additions, if one of its components is there.
    fn group_of(&self, components: Vec<Option<DefaultValue>>) -> Option<DefaultValue> {
        if components.iter().any(|component| component.is_some()) {
            return Some(DefaultValue::Components(components, Vec::new(self.alloc)));
        }
        None
    }

    /// The value of a component, if one is given that is not the component's own default.
    #[cycle(values)]
    fn part_of<'a>(
        &mut self,
        files: &mut Files<'a, '_>,
        part: Part<'a>,
        given: Option<ValueUse>,
        levels: u32,
    ) -> Result<Option<DefaultValue>, NotationError> {
        let Some(given) = given else {
            return Ok(None);
        };
        let base = base_of(self.alloc, files, part.at)?;
        let value = self.value_of(files, &base, given, levels)?;
        if let Presence::Default(index) = part.presence {
            let own = ValueUse {
                scope: part.at.scope,
                index,
            };
            let own = self.value_of(files, &base, own, levels)?;
            if is_same_value(&value, &own) {
                return Ok(None);
            }
        }
        Ok(Some(value))
    }
}
