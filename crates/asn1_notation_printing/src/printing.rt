//! A type and all types to which it leads, as a module.
use crate::constraints::write_sizes;
use crate::labels::{Labels, is_item};
use crate::scalars::{write_scalar, write_tag};
use crate::uses::count_uses;
use crate::values::write_default;
use asn1_notation_tokens::ItemKind;
use asn1_schema_constraints::Sizes;
use asn1_schema_tags::Chosen;
use asn1_table_names::{Names, Part};
use asn1_table_types::{
    Alternative, AlternativeTable, Component, ComponentTable, Presence, TypeNode, Types,
};
use std::alloc::{AllocError, Global};

/// How many levels of types are in line; a type that is nested deeper has an assignment.
const MOST_LEVELS: usize = 32;

/// The type at an index of a table as a module in the notation of X.680, whose first assignment is the type. Names may
/// be missing. A type outside the table, which has no values, is written as REAL.
pub fn print_type(
    alloc: Global,
    types: &Types,
    names: &Names,
    place: usize,
) -> Result<String, AllocError> {
    let mut printer = Printer {
        labels: Labels {
            alloc,
            types,
            names,
        },
        uses: count_uses(alloc, types, place)?,
        assigned: Vec::new(alloc),
        text: String::from_str(alloc, "Printed DEFINITIONS ::= BEGIN\n")?,
    };
    printer.assign(place)?;
    for next in 0..usize::MAX {
        if next >= printer.assigned.len() {
            break;
        }
        printer.write_assignment(next)?;
    }
    printer.text.push_str("\nEND\n")?;
    Ok(printer.text)
}

/// A type that has an assignment.
#[derive(Drop)]
struct Assigned {
    /// Its index in the table.
    place: usize,
    /// Its name.
    name: String,
}

/// A text that grows.
#[derive(Drop)]
struct Printer<'a> {
    labels: Labels<'a>,
    /// How often each type is used.
    uses: Vec<usize>,
    /// The types that have assignments.
    assigned: Vec<Assigned>,
    text: String,
}

impl<'a> Printer<'a> {
    /// The index of a type's assignment, which is new if the type has none yet.
    fn assign(&mut self, place: usize) -> Result<usize, AllocError> {
        if let Some(index) = self
            .assigned
            .iter()
            .position(|assigned| assigned.place == place)
        {
            return Ok(index);
        }
        let name = self.new_name(place)?;
        let index = self.assigned.len();
        self.assigned.push(Assigned { place, name })?;
        Ok(index)
    }

    /// A name for a type that no other one has: its own (X.680 12.2), or one that is made up.
    fn new_name(&self, place: usize) -> Result<String, AllocError> {
        let alloc = self.labels.alloc;
        if let Some(name) = self.labels.names.type_name(place) {
            if !self.is_taken(name) && is_item(alloc, name, ItemKind::Reference)? {
                return String::from_str(alloc, name);
            }
        }
        let mut name = match self.labels.types.node(place) {
            Some(_) => format!(in alloc; "Type-{place}")?,
            None => String::from_str(alloc, "Type")?,
        };
        for count in 0..self.assigned.len() {
            if !self.is_taken(name.as_str()) {
                break;
            }
            name = format!(in alloc; "Type-{place}-{count}")?;
        }
        Ok(name)
    }

    /// Whether a type has a name.
    fn is_taken(&self, name: &str) -> bool {
        self.assigned
            .iter()
            .any(|assigned| assigned.name.as_str() == name)
    }

    /// The assignment at an index, after an empty line.
    fn write_assignment(&mut self, index: usize) -> Result<(), AllocError> {
        let Some(assigned) = self.assigned.get(index) else {
            return Ok(());
        };
        let place = assigned.place;
        self.text.push('\n')?;
        self.text.push_str(assigned.name.as_str())?;
        self.text.push_str(" ::= ")?;
        self.write_content(place, MOST_LEVELS)?;
        self.text.push('\n')
    }

    /// A type as a part of another one: its name, if it has an assignment, or else the type itself.
    #[cycle(types)]
    fn write_type(&mut self, place: usize, levels: usize) -> Result<(), AllocError> {
        let is_shared = match self.uses.get(place) {
            Some(count) => *count > 1,
            None => false,
        };
        let is_first = match self.assigned.first() {
            Some(first) => first.place == place,
            None => false,
        };
        if levels == 0 || is_shared || is_first {
            let index = self.assign(place)?;
            if let Some(assigned) = self.assigned.get(index) {
                self.text.push_str(assigned.name.as_str())?;
            }
            return Ok(());
        }
        self.write_content(place, levels - 1)
    }

    /// A type itself.
    #[cycle(types)]
    fn write_content(&mut self, place: usize, levels: usize) -> Result<(), AllocError> {
        let types = self.labels.types;
        match types.node(place) {
            None => self
                .text
                .push_str("REAL /* or another type without values */"),
            Some(TypeNode::SequenceOf(sizes, element)) => {
                self.write_list("SEQUENCE", *sizes, *element, levels)
            }
            Some(TypeNode::SetOf(sizes, element)) => {
                self.write_list("SET", *sizes, *element, levels)
            }
            Some(TypeNode::Sequence(table)) => {
                self.text.push_str("SEQUENCE {")?;
                self.write_components(place, table, levels)
            }
            Some(TypeNode::Set(table)) => {
                self.text.push_str("SET {")?;
                self.write_components(place, table, levels)
            }
            Some(TypeNode::Group(components)) => {
                self.text.push_str("SEQUENCE {")?;
                for index in 0..components.len() {
                    self.begin_entry(index == 0, levels)?;
                    let part = Part::Root(index);
                    self.write_component(place, part, &components[index], levels)?;
                }
                self.end_entries(components.is_empty(), levels)
            }
            Some(TypeNode::Choice(table)) => self.write_choice(place, table, levels),
            Some(node) => write_scalar(&mut self.text, self.labels, node, place),
        }
    }

    /// A SEQUENCE OF or SET OF (X.680 26 and 28).
    #[cycle(types)]
    fn write_list(
        &mut self,
        kind: &str,
        sizes: Sizes,
        element: usize,
        levels: usize,
    ) -> Result<(), AllocError> {
        self.text.push_str(kind)?;
        write_sizes(&mut self.text, sizes)?;
        self.text.push_str(" OF ")?;
        self.write_type(element, levels)
    }

    /// The components of the SEQUENCE or SET at an index, and the brace after them (X.680 25.1 and 27.1).
    #[cycle(types)]
    fn write_components(
        &mut self,
        place: usize,
        table: &ComponentTable,
        levels: usize,
    ) -> Result<(), AllocError> {
        for index in 0..table.root.len() {
            self.begin_entry(index == 0, levels)?;
            self.write_component(place, Part::Root(index), &table.root[index], levels)?;
        }
        if table.is_extensible {
            self.begin_entry(table.root.is_empty(), levels)?;
            self.text.push_str("...")?;
        }
        for index in 0..table.additions.len() {
            self.begin_entry(false, levels)?;
            self.write_addition(place, index, &table.additions[index], levels)?;
        }
        self.end_entries(table.root.is_empty() && !table.is_extensible, levels)
    }

    /// The addition at an index, which may be a group in version brackets (X.680 25.1).
    #[cycle(types)]
    fn write_addition(
        &mut self,
        place: usize,
        addition: usize,
        component: &Component,
        levels: usize,
    ) -> Result<(), AllocError> {
        let types = self.labels.types;
        let Some(TypeNode::Group(components)) = types.node(component.place) else {
            return self.write_component(place, Part::Addition(addition), component, levels);
        };
        self.text.push_str("[[")?;
        let inner = if levels == 0 { 0 } else { levels - 1 };
        for index in 0..components.len() {
            self.begin_entry(index == 0, inner)?;
            let part = Part::Grouped {
                addition,
                component: index,
            };
            self.write_component(place, part, &components[index], inner)?;
        }
        self.begin_line(MOST_LEVELS.saturating_sub(inner))?;
        self.text.push_str("]]")
    }

    /// A component: its identifier, its tag, its type, and whether it may be absent (X.680 25.1).
    #[cycle(types)]
    fn write_component(
        &mut self,
        place: usize,
        part: Part,
        component: &Component,
        levels: usize,
    ) -> Result<(), AllocError> {
        let labels = self.labels;
        labels.write_part(&mut self.text, place, part)?;
        self.text.push(' ')?;
        let node = labels.types.node(component.place);
        write_tag(&mut self.text, component.tags.as_slice(), node)?;
        self.write_type(component.place, levels)?;
        match &component.presence {
            Presence::Required => Ok(()),
            Presence::Optional => self.text.push_str(" OPTIONAL"),
            Presence::Default(value) => {
                self.text.push_str(" DEFAULT ")?;
                write_default(&mut self.text, labels, component.place, value)
            }
        }
    }

    /// The CHOICE at an index (X.680 29.1).
    #[cycle(types)]
    fn write_choice(
        &mut self,
        place: usize,
        table: &AlternativeTable,
        levels: usize,
    ) -> Result<(), AllocError> {
        self.text.push_str("CHOICE {")?;
        for index in 0..table.root.len() {
            self.begin_entry(index == 0, levels)?;
            self.write_alternative(place, Chosen::root(index), table.root[index], levels)?;
        }
        if table.is_extensible {
            self.begin_entry(table.root.is_empty(), levels)?;
            self.text.push_str("...")?;
        }
        for index in 0..table.additions.len() {
            self.begin_entry(false, levels)?;
            let chosen = Chosen::addition(index);
            self.write_alternative(place, chosen, table.additions[index], levels)?;
        }
        self.end_entries(table.root.is_empty() && !table.is_extensible, levels)
    }

    /// An alternative: its identifier, its tag and its type.
    #[cycle(types)]
    fn write_alternative(
        &mut self,
        place: usize,
        chosen: Chosen,
        alternative: Alternative,
        levels: usize,
    ) -> Result<(), AllocError> {
        let labels = self.labels;
        labels.write_alternative(&mut self.text, place, chosen)?;
        self.text.push(' ')?;
        let node = labels.types.node(alternative.place);
        write_tag(&mut self.text, &[alternative.tag], node)?;
        self.write_type(alternative.place, levels)
    }

    /// The line of an entry in braces begins, after a comma unless it is the first.
    fn begin_entry(&mut self, is_first: bool, levels: usize) -> Result<(), AllocError> {
        if !is_first {
            self.text.push(',')?;
        }
        self.begin_line(MOST_LEVELS.saturating_sub(levels).saturating_add(1))
    }

    /// The brace after the entries, on a line of its own unless there are none.
    fn end_entries(&mut self, is_empty: bool, levels: usize) -> Result<(), AllocError> {
        if !is_empty {
            self.begin_line(MOST_LEVELS.saturating_sub(levels))?;
        }
        self.text.push('}')
    }

    /// A line begins, with two spaces for each level.
    fn begin_line(&mut self, levels: usize) -> Result<(), AllocError> {
        self.text.push('\n')?;
        for _ in 0..levels {
            self.text.push_str("  ")?;
        }
        Ok(())
    }
}
