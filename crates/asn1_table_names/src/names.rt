//! The names that an ASN.1 module gives.
#![tactic(auto, using(std::proofs::lemmas::Grind::common_steps))]

ghost use Rattle.std.specs.Prelude.{◌≡◌, Some, IfSome};
ghost use Rattle.std.specs.Option.{option_copied};
ghost use Rattle.asn1_table_names.specs.Names.{alternative_text, part_text, type_text};
ghost use Rattle.asn1_table_names.specs.Names.{NamesItem};

use crate::parts::{Part, group_at, items_at};
use crate::texts::{index_of, name_at};
use asn1_schema_tags::{Chosen, EnumerationItems};
use asn1_table_tape::lists_at;
use asn1_table_types::Types;
use asn1_values_integers::Integer;
use std::alloc::Global;

/// Names beside a table of types; no contract of a codec needs them. Each look-up is `None` where a name is missing.
#[derive(Drop)]
pub struct Names {
    /// The names of each type and its parts, in the order of the table.
    pub types: Vec<TypeNames>,
}

/// The names of a type and of its parts.
#[derive(Drop)]
pub struct TypeNames {
    /// The type's name; empty if it has none.
    pub name: String,
    /// The identifiers of its root components, root alternatives or root items, in the order of the table; also those
    /// of a group's components.
    pub root: Vec<String>,
    /// The identifiers of its added components, alternatives or items; empty for a group of additions, which has none.
    pub additions: Vec<String>,
    /// The named numbers of an INTEGER (X.680 19.5), or the named bits of a BIT STRING (X.680 22.4).
    pub numbers: Vec<NamedNumber>,
}

/// A named number (X.680 19.5).
#[derive(Drop)]
pub struct NamedNumber {
    /// Its identifier.
    pub name: String,
    /// The number.
    pub number: Integer,
}

impl TypeNames {
    /// The names of a type that has none.
    pub fn new(alloc: Global) -> Self {
        TypeNames {
            name: String::new(alloc),
            root: Vec::new(alloc),
            additions: Vec::new(alloc),
            numbers: Vec::new(alloc),
        }
    }
}

impl Names {
    /// No names.
    pub fn new(alloc: Global) -> Self {
        Names {
            types: Vec::new(alloc),
        }
    }

    /// The name of the type at an index.
    pub fn type_name(&self, place: usize) -> Option<&str>
        ensures { option_copied result ≡ type_text self.now.types.items place }
    {
        Some(self.types.get(place)?.name.as_str())
    }

    /// The index of the type with a name.
    pub fn find_type(&self, name: &str) -> Option<usize>
        ensures { IfSome result (λ i. type_text self.now.types.items i ≡ Some name.now) }
    {
        for place in 0..self.types.len() {
            if let Some(other) = self.type_name(place) {
                if other == name {
                    return Some(place);
                }
            }
        }
        None
    }

    /// The identifier of a component of the SEQUENCE or SET at an index.
    pub fn part_name(&self, types: &Types, place: usize, part: Part) -> Option<&str>
        ensures { option_copied result ≡ part_text types.now.nodes.items self.now.types.items place part }
    {
        match part {
            Part::Root(index) => name_at(self.types.get(place)?.root.as_slice(), index),
            Part::Addition(index) => name_at(self.types.get(place)?.additions.as_slice(), index),
            Part::Grouped {
                addition,
                component,
            } => {
                let group = group_at(types, place, addition)?;
                name_at(self.types.get(group)?.root.as_slice(), component)
            }
        }
    }

    /// The component with an identifier of the SEQUENCE or SET at an index, also if it is in a group of additions.
    pub fn find_part(&self, types: &Types, place: usize, name: &str) -> Option<Part>
        ensures { IfSome result
            (λ p. part_text types.now.nodes.items self.now.types.items place p ≡ Some name.now) }
    {
        let names = self.types.get(place)?;
        if let Some(index) = index_of(names.root.as_slice(), name) {
            return Some(Part::Root(index));
        }
        if let Some(index) = index_of(names.additions.as_slice(), name) {
            return Some(Part::Addition(index));
        }
        self.find_grouped(types, place, name)
    }

    // The component with an identifier in a group of additions.
    fn find_grouped(&self, types: &Types, place: usize, name: &str) -> Option<Part>
        ensures { IfSome result
            (λ p. part_text types.now.nodes.items self.now.types.items place p ≡ Some name.now) }
    {
        let count = lists_at(types, place)?.additions().len();
        for addition in 0..count {
            if let Some(component) = self.find_in_group(types, place, addition, name) {
                return Some(Part::Grouped {
                    addition,
                    component,
                });
            }
        }
        None
    }

    // The index of the component with an identifier in the group at an index among the additions.
    fn find_in_group(
        &self,
        types: &Types,
        place: usize,
        addition: usize,
        name: &str,
    ) -> Option<usize>
        ensures { IfSome result (λ k. part_text types.now.nodes.items self.now.types.items place
            (Part.Grouped addition k) ≡ Some name.now) }
    {
        let group = group_at(types, place, addition)?;
        index_of(self.types.get(group)?.root.as_slice(), name)
    }

    /// The identifier of an alternative of the CHOICE at an index.
    pub fn alternative_name(&self, place: usize, chosen: Chosen) -> Option<&str>
        ensures { option_copied result ≡ alternative_text self.now.types.items place chosen }
    {
        let names = self.types.get(place)?;
        if chosen.added {
            return name_at(names.additions.as_slice(), chosen.place);
        }
        name_at(names.root.as_slice(), chosen.place)
    }

    /// The alternative with an identifier of the CHOICE at an index.
    pub fn find_alternative(&self, place: usize, name: &str) -> Option<Chosen>
        ensures { IfSome result (λ c. alternative_text self.now.types.items place c ≡ Some name.now) }
    {
        let names = self.types.get(place)?;
        match index_of(names.root.as_slice(), name) {
            Some(index) => Some(Chosen::root(index)),
            None => Some(Chosen::addition(index_of(names.additions.as_slice(), name)?)),
        }
    }

    /// The identifier of an item of the ENUMERATED at an index, by its number.
    pub fn item_name(&self, types: &Types, place: usize, item: isize) -> Option<&str>
        ensures { IfSome result
            (λ s. NamesItem types.now.nodes.items self.now.types.items place item s.now) }
    {
        let chosen = items_at(types, place)?.place(&item)?;
        self.alternative_name(place, chosen)
    }

    /// The number of the item with an identifier of the ENUMERATED at an index.
    pub fn find_item(&self, types: &Types, place: usize, name: &str) -> Option<isize>
        ensures { IfSome result
            (λ v. NamesItem types.now.nodes.items self.now.types.items place v name.now) }
    {
        let chosen = self.find_alternative(place, name)?;
        items_at(types, place)?.item_at(chosen)
    }

    /// The name of a number of the INTEGER at an index.
    pub fn number_name(&self, place: usize, number: &Integer) -> Option<&str> {
        for named in self.types.get(place)?.numbers.iter() {
            if named.number == *number {
                return Some(named.name.as_str());
            }
        }
        None
    }

    /// The number with a name of the INTEGER at an index.
    pub fn find_number(&self, place: usize, name: &str) -> Option<&Integer> {
        for named in self.types.get(place)?.numbers.iter() {
            if named.name.as_str() == name {
                return Some(&named.number);
            }
        }
        None
    }
}
