//! The nodes of a table (X.680 18 to 41).
use crate::defaults::Defaults;
use crate::events::fixed_size;
use crate::parts::{is_last_of_group, is_required, root_order};
use crate::tables::{NamedBits, OpenTypes, TableOptions, Times};
use asn1_notation_components::{
    Part, Parts, TaggedPart, alternatives_of, check_sequence, check_set, parts_of, tags_of_part,
};
use asn1_notation_resolving::{
    Base, Files, NameSet, NotationError, Numbered, Problem, Scope, Symbol, TypeUse, ValueUse,
    alphabet, base_of, check_kinds, has_known_multiplier, number_limits, number_of, numbers_of,
    sizes, string_kind, tagged_base,
};
use asn1_notation_tree::{
    Components, Element, Enumeration, NamedNumber, Presence as WrittenPresence, StringName,
    TypeKind, UnsupportedType,
};
use asn1_schema_constraints::{Bounded, Sizes};
use asn1_schema_tags::Tag;
use asn1_table_names::{NamedNumber as NumberName, TypeNames};
use asn1_table_types::{
    Alternative, AlternativeTable, Component, ComponentTable, ItemTable, Presence, StringKind,
    StringTable, TypeNode,
};
use asn1_values_integers::Integer;
use std::alloc::Global;
use std::collections::{BTreeMap, BTreeSet};
use std::mem;

/// All sizes.
const ANY_SIZE: Sizes = Sizes {
    root: Bounded::None,
    is_extensible: false,
};

/// An index outside each table, where a type without values is.
const NO_TYPE: usize = usize::MAX;

/// Where a type of the table is written.
#[derive(Clone, Copy)]
pub(crate) enum Origin {
    /// A type of the notation.
    Type(TypeUse),
    /// A group of additions: its module, and the lexical item of its last component's name.
    Group(Scope, usize),
}

impl Origin {
    /// An error where the type is written: of a reference, where the type is for which it stands.
    pub(crate) fn error(
        self,
        alloc: Global,
        files: &mut Files<'_, '_>,
        problem: Problem,
    ) -> NotationError {
        match self {
            Origin::Group(scope, place) => scope.error(place, problem),
            Origin::Type(at) => match base_of(alloc, files, at) {
                Ok(base) => base.error(problem),
                Err(error) => error,
            },
        }
    }
}

/// A table that grows: its types, the names beside them, and where each is written.
#[derive(Drop)]
pub(crate) struct Building<'a, 'i> {
    alloc: Global,
    pub(crate) files: Files<'a, 'i>,
    options: TableOptions,
    defaults: Defaults,
    pub(crate) nodes: Vec<TypeNode>,
    pub(crate) names: Vec<TypeNames>,
    pub(crate) origins: Vec<Origin>,
    /// The index of each type that has one.
    places: BTreeMap<TypeUse, usize>,
}

impl<'a, 'i> Building<'a, 'i> {
    /// No types yet.
    pub(crate) fn new(
        alloc: Global,
        files: Files<'a, 'i>,
        options: TableOptions,
    ) -> Building<'a, 'i> {
        Building {
            alloc,
            files,
            options,
            defaults: Defaults::new(alloc, options.additions),
            nodes: Vec::new(alloc),
            names: Vec::new(alloc),
            origins: Vec::new(alloc),
            places: BTreeMap::new(alloc),
        }
    }

    /// The index of a type, which is new if the type is met for the first time. A type that tables do not hold is
    /// outside the table.
    pub(crate) fn place_of(&mut self, at: TypeUse) -> Result<usize, NotationError> {
        let base = base_of(self.alloc, &mut self.files, at)?;
        if !self.has_values(&base.term.kind) {
            return Ok(NO_TYPE);
        }
        let key = if base.outer == 0 { base.at } else { at };
        if let Some(place) = self.places.get(&key) {
            return Ok(*place);
        }
        let place = self.add(TypeNode::Null, self.names_of(&base)?, Origin::Type(at))?;
        self.places.insert(key, place)?;
        Ok(place)
    }

    /// Whether tables hold a type of this kind.
    fn has_values(&self, kind: &TypeKind) -> bool {
        match kind {
            TypeKind::Unsupported(UnsupportedType::Field(..)) => {
                self.options.open_types == OpenTypes::AreOctets
            }
            TypeKind::Unsupported(UnsupportedType::UtcTime | UnsupportedType::GeneralizedTime) => {
                self.options.times == Times::AreAsSent
            }
            TypeKind::Unsupported(UnsupportedType::ObjectDescriptor) => true,
            TypeKind::Unsupported(_) => false,
            _ => true,
        }
    }

    /// The names of a type, as far as its reference gives them.
    fn names_of(&self, base: &Base<'_>) -> Result<TypeNames, NotationError> {
        let mut names = TypeNames::new(self.alloc);
        if let Some(symbol) = base.symbol {
            if let Some(assignment) = self.files.assignment(symbol) {
                names.name.push_str(assignment.name.text.as_str())?;
            }
        }
        Ok(names)
    }

    /// Names a type after its assignment.
    pub(crate) fn set_name(&mut self, place: usize, symbol: Symbol) -> Result<(), NotationError> {
        if let (Some(names), Some(assignment)) = (
            self.names.get_mut(place),
            self.files.assignment(symbol),
        ) {
            names.name = String::from_str(self.alloc, assignment.name.text.as_str())?;
        }
        Ok(())
    }

    /// Adds a type.
    fn add(
        &mut self,
        node: TypeNode,
        names: TypeNames,
        origin: Origin,
    ) -> Result<usize, NotationError> {
        let place = self.nodes.len();
        self.nodes.push(node)?;
        self.names.push(names)?;
        self.origins.push(origin)?;
        Ok(place)
    }

    /// Builds all types, also those that are met meanwhile.
    pub(crate) fn build_all(&mut self) -> Result<(), NotationError> {
        for next in 0..usize::MAX {
            if next >= self.nodes.len() {
                break;
            }
            self.build(next)?;
        }
        Ok(())
    }

    /// Builds the type at an index.
    fn build(&mut self, place: usize) -> Result<(), NotationError> {
        let Some(Origin::Type(at)) = self.origins.get(place).copied() else {
            return Ok(());
        };
        let (base, _) = tagged_base(self.alloc, &mut self.files, at)?;
        check_kinds(self.alloc, &self.files, &base)?;
        let mut names = self.names_of(&base)?;
        let node = self.node_of(&base, &mut names)?;
        if let (Some(known), Some(known_names)) = (
            self.nodes.get_mut(place),
            self.names.get_mut(place),
        ) {
            *known = node;
            *known_names = names;
        }
        Ok(())
    }

    /// A type.
    fn node_of(
        &mut self,
        base: &Base<'a>,
        names: &mut TypeNames,
    ) -> Result<TypeNode, NotationError> {
        match &base.term.kind {
            TypeKind::Boolean => Ok(TypeNode::Boolean),
            TypeKind::Null => Ok(TypeNode::Null),
            TypeKind::Integer(numbers) => self.integer(base, numbers.as_slice(), names),
            TypeKind::Enumerated(items) => self.enumerated(base, items, names),
            TypeKind::BitString(bits) => self.bit_string(base, bits.as_slice(), names),
            TypeKind::OctetString => Ok(TypeNode::OctetString(self.sizes(base)?)),
            TypeKind::CharacterString(name) => self.character_string(base, *name),
            TypeKind::ObjectIdentifier => Ok(TypeNode::ObjectIdentifier),
            TypeKind::SequenceOf(element) => {
                let (sizes, place) = self.list(base, element)?;
                Ok(TypeNode::SequenceOf(sizes, place))
            }
            TypeKind::SetOf(element) => {
                let (sizes, place) = self.list(base, element)?;
                Ok(TypeNode::SetOf(sizes, place))
            }
            TypeKind::Sequence(components) => {
                Ok(TypeNode::Sequence(self.components(base, components, false, names)?))
            }
            TypeKind::Set(components) => {
                Ok(TypeNode::Set(self.components(base, components, true, names)?))
            }
            TypeKind::Choice(components) => self.choice(base, components, names),
            // An open type, whose constraints say nothing of its octets.
            TypeKind::Unsupported(UnsupportedType::Field(..)) => {
                Ok(TypeNode::OctetString(ANY_SIZE))
            }
            TypeKind::Unsupported(UnsupportedType::UtcTime | UnsupportedType::GeneralizedTime) => {
                Ok(any_string(StringKind::Visible))
            }
            TypeKind::Unsupported(UnsupportedType::ObjectDescriptor) => {
                Ok(any_string(StringKind::Graphic))
            }
            TypeKind::Tagged(..) | TypeKind::Reference(_) | TypeKind::Selection(..) => {
                Err(base.error(Problem::UnsupportedType))
            }
            TypeKind::Unsupported(_) => Err(base.error(Problem::UnsupportedType)),
        }
    }

    /// The sizes of a type.
    fn sizes(&mut self, base: &Base<'_>) -> Result<Sizes, NotationError> {
        sizes(self.alloc, &mut self.files, base)
    }

    /// The names of numbers, no two of which have one name or one number (X.680 19.4, 19.5 and 22.3).
    fn number_names(
        &self,
        base: &Base<'_>,
        numbers: &[NamedNumber],
        names: &mut TypeNames,
    ) -> Result<(), NotationError> {
        let scope = base.at.scope;
        let mut known = NameSet::new(self.alloc);
        let mut values = BTreeSet::new(self.alloc);
        for number in numbers {
            known.add(scope, number.name.place, &number.name)?;
            let index = number.number;
            let written = ValueUse { scope, index };
            let value = number_of(&self.files, written)?;
            if !values.insert(value)? {
                return Err(written.error(&self.files, Problem::NumberTwice));
            }
            names.numbers.push(NumberName {
                name: String::from_str(self.alloc, number.name.text.as_str())?,
                number: Integer::from_i128(value),
            })?;
        }
        Ok(())
    }

    /// Refuses named bits with negative numbers (X.680 22.1).
    fn check_bits(&self, base: &Base<'_>, bits: &[NamedNumber]) -> Result<(), NotationError> {
        for bit in bits {
            let value = ValueUse {
                scope: base.at.scope,
                index: bit.number,
            };
            if number_of(&self.files, value)? < 0 {
                return Err(value.error(&self.files, Problem::NegativeBit));
            }
        }
        Ok(())
    }

    /// INTEGER (X.680 19).
    fn integer(
        &mut self,
        base: &Base<'_>,
        numbers: &[NamedNumber],
        names: &mut TypeNames,
    ) -> Result<TypeNode, NotationError> {
        self.number_names(base, numbers, names)?;
        let limits = number_limits(self.alloc, &mut self.files, base)?;
        Ok(TypeNode::Integer(limits))
    }

    /// ENUMERATED (X.680 20).
    fn enumerated(
        &mut self,
        base: &Base<'_>,
        items: &Enumeration,
        names: &mut TypeNames,
    ) -> Result<TypeNode, NotationError> {
        let numbers = numbers_of(self.alloc, &self.files, base.at.scope, items)?;
        let mut table = ItemTable {
            root: Vec::new(self.alloc),
            is_extensible: items.is_extensible || self.files.implies_extension(base.at.scope),
            additions: Vec::new(self.alloc),
        };
        add_items(
            self.alloc,
            numbers.root.as_slice(),
            &mut table.root,
            &mut names.root,
        )?;
        let added = numbers.additions.as_slice();
        add_items(
            self.alloc,
            added,
            &mut table.additions,
            &mut names.additions,
        )?;
        Ok(TypeNode::Enumerated(table))
    }

    /// BIT STRING (X.680 22). With named bits its size must be fixed, unless zeros at the end are kept (X.680 22.7).
    fn bit_string(
        &mut self,
        base: &Base<'_>,
        bits: &[NamedNumber],
        names: &mut TypeNames,
    ) -> Result<TypeNode, NotationError> {
        self.number_names(base, bits, names)?;
        self.check_bits(base, bits)?;
        let sizes = self.sizes(base)?;
        let is_fixed = bits.is_empty() || fixed_size(&sizes).is_some();
        if !is_fixed && self.options.named_bits == NamedBits::AreRefused {
            return Err(base.error(Problem::NamedBits));
        }
        Ok(TypeNode::BitString(sizes))
    }

    /// A restricted character string (X.680 41). Encodings depend on the size of known-multiplier types alone (X.691
    /// 30.1, X.696 27).
    fn character_string(
        &mut self,
        base: &Base<'_>,
        name: StringName,
    ) -> Result<TypeNode, NotationError> {
        let Some(kind) = string_kind(name) else {
            return Err(base.error(Problem::UnsupportedType));
        };
        let sizes = self.sizes(base)?;
        Ok(TypeNode::CharacterString(StringTable {
            kind,
            sizes: if has_known_multiplier(kind) {
                sizes
            } else {
                ANY_SIZE
            },
            alphabet: alphabet(self.alloc, &mut self.files, base, kind)?,
        }))
    }

    /// The sizes and the element of a SEQUENCE OF or SET OF (X.680 26 and 28).
    fn list(
        &mut self,
        base: &Base<'_>,
        element: &Element,
    ) -> Result<(Sizes, usize), NotationError> {
        let at = TypeUse {
            scope: base.at.scope,
            index: element.element,
        };
        Ok((self.sizes(base)?, self.place_of(at)?))
    }

    /// A component with these tags.
    fn component(
        &mut self,
        part: Part<'_>,
        tags: Vec<Tag>,
        is_added: bool,
    ) -> Result<Component, NotationError> {
        let presence = match part.presence {
            WrittenPresence::Default(index) => {
                let value = ValueUse {
                    scope: part.at.scope,
                    index,
                };
                let base = base_of(self.alloc, &mut self.files, part.at)?;
                Presence::Default(self.defaults.read(&mut self.files, &base, value)?)
            }
            written if is_required(written, self.options.additions, is_added) => Presence::Required,
            _ => Presence::Optional,
        };
        Ok(Component {
            tags,
            presence,
            place: self.place_of(part.at)?,
        })
    }

    /// A copy of a part's name.
    fn name_of(&self, part: Part<'_>) -> Result<String, NotationError> {
        Ok(String::from_str(self.alloc, part.name.text.as_str())?)
    }

    /// The components of a SEQUENCE, tagged by position, or of a SET in the order of their tags (X.680 8.6), and their
    /// names.
    fn components(
        &mut self,
        base: &Base<'a>,
        components: &'a Components,
        is_set: bool,
        names: &mut TypeNames,
    ) -> Result<ComponentTable, NotationError> {
        let parts = parts_of(
            self.alloc,
            &mut self.files,
            base.at.scope,
            components,
            is_set,
        )?;
        if is_set {
            check_set(self.alloc, &mut self.files, &parts)?;
        } else {
            check_sequence(self.alloc, &mut self.files, &parts)?;
        }
        let mut table = ComponentTable {
            root: Vec::new(self.alloc),
            is_extensible: parts.is_extensible,
            additions: Vec::new(self.alloc),
        };
        for index in root_order(self.alloc, &mut self.files, &parts, is_set)? {
            if let Some(part) = parts.root.get(index).copied() {
                let automatic = if is_set {
                    parts.root_tag(index)
                } else {
                    position_tag(index)
                };
                let tags = tags_of_part(self.alloc, &mut self.files, part, automatic)?;
                names.root.push(self.name_of(part)?)?;
                table.root.push(self.component(part, tags, false)?)?;
            }
        }
        self.add_additions(&parts, is_set, &mut table.additions, names)?;
        Ok(table)
    }

    /// Adds the additions of a SEQUENCE or SET, and their names. Those in the same version brackets are a group.
    fn add_additions(
        &mut self,
        parts: &Parts<'a>,
        is_set: bool,
        additions: &mut Vec<Component>,
        names: &mut TypeNames,
    ) -> Result<(), NotationError> {
        let mut group = Grouped::new(self.alloc);
        for index in 0..parts.additions.len() {
            let part = parts.additions[index];
            let position = parts.root.len().checked_add(index);
            let automatic = if is_set {
                parts.added_tag(index)
            } else {
                position.and_then(position_tag)
            };
            let tags = tags_of_part(self.alloc, &mut self.files, part, automatic)?;
            if part.group.is_none() {
                names.additions.push(self.name_of(part)?)?;
                additions.push(self.component(part, tags, true)?)?;
                continue;
            }
            group.tags.extend_from_slice(tags.as_slice())?;
            group.names.root.push(self.name_of(part)?)?;
            group.components.push(self.component(part, tags, false)?)?;
            if is_last_of_group(parts, index) {
                let done = mem::replace(&mut group, Grouped::new(self.alloc));
                names.additions.push(String::new(self.alloc))?;
                let origin = Origin::Group(part.at.scope, part.name.place);
                additions.push(self.group(done, origin)?)?;
            }
        }
        Ok(())
    }

    /// A group of additions (X.680 25.1), which is a type of its own in the table.
    fn group(&mut self, group: Grouped, origin: Origin) -> Result<Component, NotationError> {
        let Grouped {
            tags,
            names,
            components,
        } = group;
        let place = self.add(TypeNode::Group(components), names, origin)?;
        Ok(Component {
            tags,
            presence: Presence::Optional,
            place,
        })
    }

    /// CHOICE (X.680 29).
    fn choice(
        &mut self,
        base: &Base<'a>,
        components: &'a Components,
        names: &mut TypeNames,
    ) -> Result<TypeNode, NotationError> {
        let alternatives = alternatives_of(self.alloc, &mut self.files, base.at.scope, components)?;
        let root = alternatives.root.as_slice();
        let root = self.alternatives(root, &mut names.root)?;
        let additions = alternatives.additions.as_slice();
        let additions = self.alternatives(additions, &mut names.additions)?;
        Ok(TypeNode::Choice(AlternativeTable {
            root,
            is_extensible: alternatives.is_extensible,
            additions,
        }))
    }

    /// Alternatives, and their names.
    fn alternatives(
        &mut self,
        parts: &[TaggedPart<'a>],
        names: &mut Vec<String>,
    ) -> Result<Vec<Alternative>, NotationError> {
        let mut alternatives = Vec::new(self.alloc);
        for tagged in parts {
            names.push(self.name_of(tagged.part)?)?;
            alternatives.push(Alternative {
                tag: tagged.tag,
                place: self.place_of(tagged.part.at)?,
            })?;
        }
        Ok(alternatives)
    }
}

/// A group of additions that grows: the tags of all its components, their names, and the components.
#[derive(Drop)]
struct Grouped {
    tags: Vec<Tag>,
    names: TypeNames,
    components: Vec<Component>,
}

impl Grouped {
    /// A group without components.
    fn new(alloc: Global) -> Self {
        Grouped {
            tags: Vec::new(alloc),
            names: TypeNames::new(alloc),
            components: Vec::new(alloc),
        }
    }
}

/// A character string of any size.
fn any_string(kind: StringKind) -> TypeNode {
    TypeNode::CharacterString(StringTable {
        kind,
        sizes: ANY_SIZE,
        alphabet: None,
    })
}

/// The tag of a component of a SEQUENCE by its position. Neither PER nor OER encodes these tags, which may be equal
/// (X.680 25.6) and in a table are not.
fn position_tag(position: usize) -> Option<Tag> {
    let number = u32::try_from(position).ok()?;
    Some(Tag::new_context(number))
}

/// Adds the numbers and the names of items.
fn add_items(
    alloc: Global,
    items: &[Numbered<'_>],
    numbers: &mut Vec<isize>,
    names: &mut Vec<String>,
) -> Result<(), NotationError> {
    for item in items {
        numbers.push(item.number)?;
        names.push(String::from_str(alloc, item.name.text.as_str())?)?;
    }
    Ok(())
}
