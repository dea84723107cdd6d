//! The components of SEQUENCE and SET and the alternatives of CHOICE, with their tags (X.680 25, 27 and 29).
ghost use Rattle.std.specs.Prelude.{IfOk, length};
ghost use Rattle.asn1_notation_rules.specs.Ordering.{AreInOrder};

use crate::distinct::TagSet;
use asn1_notation_resolving::{
    Files, NameSet, NotationError, Problem, Scope, TypeUse, ValueUse, base_of, is_written_tagged,
    number_of, tagged_base,
};
use asn1_notation_rules::{
    Extension, OrderError, TagDefault, TaggingError, Written, automatic_tags, canonical_order,
    insert_extensions, is_automatic, misplaced_tag,
};
use asn1_notation_tree::{
    Addition, Component, Components, Name, Presence, TagDefault as WrittenTagDefault, TypeKind,
};
use asn1_schema_tags::{Chosen, Tag};
use std::alloc::Global;
use std::slice;

/// How many levels of COMPONENTS OF are followed.
const MOST_LEVELS: u32 = 16;

/// A component or an alternative.
#[derive(Clone, Copy)]
pub struct Part<'a> {
    /// Its name.
    pub name: &'a Name,
    /// Its type.
    pub at: TypeUse,
    /// Whether it may be absent.
    pub presence: Presence,
    /// The index among the additions of the version brackets around it, if it is in some.
    pub group: Option<usize>,
    /// The lexical item at which the type around it has it: its name, or the type after COMPONENTS OF.
    pub place: usize,
}

/// The parts of a type: those of the root, then those of the additions, group by group (X.680 25.1).
#[derive(Drop)]
pub struct Parts<'a> {
    /// The module of the type.
    pub scope: Scope,
    /// The root components or alternatives.
    pub root: Vec<Part<'a>>,
    /// How many of them are before the additions.
    pub first: usize,
    /// Whether there is an extension marker, also where only its module implies one.
    pub is_extensible: bool,
    /// The added ones.
    pub additions: Vec<Part<'a>>,
    /// The tags of all parts, if they get automatic ones (X.680 25.9, 27.1 and 29.3).
    automatic: Option<Vec<Tag>>,
}

impl Parts<'_> {
    /// Whether the parts get automatic tags, which are distinct.
    pub fn is_automatic(&self) -> bool {
        self.automatic.is_some()
    }

    /// The automatic tag of a root component, if it gets one.
    pub fn root_tag(&self, index: usize) -> Option<Tag> {
        self.automatic.as_ref()?.get(index).copied()
    }

    /// The automatic tag of an addition, if it gets one.
    pub fn added_tag(&self, index: usize) -> Option<Tag> {
        let index = self.root.len().checked_add(index)?;
        self.root_tag(index)
    }
}

/// A list of parts that grows.
#[derive(Drop)]
struct Gathering<'a> {
    alloc: Global,
    is_set: bool,
    parts: Vec<Part<'a>>,
    /// Whether each component that is written here has a tag of its own.
    are_tagged: Vec<bool>,
    /// The lexical items of their names.
    places: Vec<usize>,
    /// The lexical item of the type after COMPONENTS OF, while its components are added.
    included: Option<usize>,
}

impl<'a> Gathering<'a> {
    /// No parts.
    fn new(alloc: Global, is_set: bool) -> Self {
        Gathering {
            alloc,
            is_set,
            parts: Vec::new(alloc),
            are_tagged: Vec::new(alloc),
            places: Vec::new(alloc),
            included: None,
        }
    }

    /// Adds components, with those of a type in place of COMPONENTS OF (X.680 25.5).
    #[cycle(components)]
    fn add(
        &mut self,
        files: &mut Files<'a, '_>,
        scope: Scope,
        components: &'a [Component],
        group: Option<usize>,
        levels: u32,
    ) -> Result<(), NotationError> {
        for component in components {
            match component {
                Component::Named(name, index, presence) => {
                    let at = TypeUse {
                        scope,
                        index: *index,
                    };
                    if levels == MOST_LEVELS {
                        self.are_tagged.push(is_written_tagged(files, at)?)?;
                        self.places.push(name.place)?;
                    }
                    self.parts.push(Part {
                        name,
                        at,
                        presence: *presence,
                        group,
                        place: self.included.unwrap_or(name.place),
                    })?;
                }
                Component::ComponentsOf(index) => {
                    let at = TypeUse {
                        scope,
                        index: *index,
                    };
                    self.add_included(files, at, group, levels)?;
                }
            }
        }
        Ok(())
    }

    /// Adds the components of a type after COMPONENTS OF, which is where they are if it is written in the type itself.
    #[cycle(components)]
    fn add_included(
        &mut self,
        files: &mut Files<'a, '_>,
        at: TypeUse,
        group: Option<usize>,
        levels: u32,
    ) -> Result<(), NotationError> {
        if levels < MOST_LEVELS {
            return self.add_components_of(files, at, group, levels);
        }
        self.included = Some(files.type_term(at)?.place);
        self.add_components_of(files, at, group, levels)?;
        self.included = None;
        Ok(())
    }

    /// Adds the root components of a SEQUENCE, or for a SET of a SET (X.680 25.5 and 27.2).
    #[cycle(components)]
    fn add_components_of(
        &mut self,
        files: &mut Files<'a, '_>,
        at: TypeUse,
        group: Option<usize>,
        levels: u32,
    ) -> Result<(), NotationError> {
        if levels == 0 {
            return Err(at.error(files, Problem::TooDeep));
        }
        let base = base_of(self.alloc, files, at)?;
        let components = match &base.term.kind {
            TypeKind::Sequence(components) if !self.is_set => components,
            TypeKind::Set(components) if self.is_set => components,
            _ => return Err(at.error(files, Problem::ComponentsOfOther)),
        };
        let scope = base.at.scope;
        let below = levels - 1;
        self.add(files, scope, components.root.as_slice(), group, below)?;
        self.add(
            files,
            scope,
            components.second_root.as_slice(),
            group,
            below,
        )
    }

    /// Adds additions; each in version brackets has their index.
    fn add_additions(
        &mut self,
        files: &mut Files<'a, '_>,
        scope: Scope,
        additions: &'a [Addition],
    ) -> Result<(), NotationError> {
        for index in 0..additions.len() {
            let (components, group) = match &additions[index] {
                Addition::Single(component) => (slice::from_ref(component), None),
                Addition::Group(group) => (group.components.as_slice(), Some(index)),
            };
            self.add(files, scope, components, group, MOST_LEVELS)?;
        }
        Ok(())
    }
}

/// The parts between the braces of a type, and which of those that are written there have a tag of their own.
#[derive(Drop)]
struct Braces<'a> {
    written: Written<Part<'a>>,
    are_root_tagged: Vec<bool>,
    are_added_tagged: Vec<bool>,
    /// The lexical items of the names of the additions.
    added_places: Vec<usize>,
}

/// The parts between the braces of a type that is written in a module.
fn written_parts<'a>(
    alloc: Global,
    files: &mut Files<'a, '_>,
    scope: Scope,
    components: &'a Components,
    is_set: bool,
) -> Result<Braces<'a>, NotationError> {
    let mut first = Gathering::new(alloc, is_set);
    first.add(files, scope, components.root.as_slice(), None, MOST_LEVELS)?;
    let second_root = components.second_root.as_slice();
    let mut later = Gathering::new(alloc, is_set);
    later.add(files, scope, second_root, None, MOST_LEVELS)?;
    let mut added = Gathering::new(alloc, is_set);
    added.add_additions(files, scope, components.additions.as_slice())?;
    check_versions(files, scope, components.additions.as_slice())?;
    let mut are_root_tagged = first.are_tagged;
    are_root_tagged.extend_from_slice(later.are_tagged.as_slice())?;
    let extension = Extension {
        additions: added.parts,
        later: later.parts,
    };
    let written = Written {
        first: first.parts,
        extension: if components.is_extensible {
            Some(extension)
        } else {
            None
        },
    };
    Ok(Braces {
        written,
        are_root_tagged,
        are_added_tagged: added.are_tagged,
        added_places: added.places,
    })
}

/// Refuses version numbers that only some groups have, that are below 2, or that do not ascend (X.680 25.1).
fn check_versions(
    files: &Files<'_, '_>,
    scope: Scope,
    additions: &[Addition],
) -> Result<(), NotationError> {
    let mut first = None;
    let mut last = 1;
    for addition in additions {
        let Addition::Group(group) = addition else {
            continue;
        };
        let is_numbered = group.version.is_some();
        match first {
            None => first = Some(is_numbered),
            Some(are_numbered) if are_numbered != is_numbered => {
                return Err(scope.error(group.place, Problem::VersionNumber));
            }
            Some(_) => {}
        }
        if let Some(index) = group.version {
            let value = ValueUse { scope, index };
            let number = number_of(files, value)?;
            if number <= last {
                return Err(value.error(files, Problem::VersionNumber));
            }
            last = number;
        }
    }
    Ok(())
}

/// Refuses parts of which two have one name (X.680 25.12, 27.4 and 29.5).
fn check_names(
    alloc: Global,
    scope: Scope,
    written: &Written<Part<'_>>,
) -> Result<(), NotationError> {
    let mut names = NameSet::new(alloc);
    for part in &written.first {
        names.add(scope, part.place, part.name)?;
    }
    if let Some(extension) = &written.extension {
        for part in extension.additions.iter().chain(&extension.later) {
            names.add(scope, part.place, part.name)?;
        }
    }
    Ok(())
}

/// The parts of a type that is written in a module.
///
/// # Errors
///
/// At a part, `NameTwice` and `MisplacedTag`. `VersionNumber` at the version of a group, or at its brackets. After
/// COMPONENTS OF, `ComponentsOfOther` and `TooDeep` at the type. Those of `base_of` and `number_of`.
pub fn parts_of<'a>(
    alloc: Global,
    files: &mut Files<'a, '_>,
    scope: Scope,
    components: &'a Components,
    is_set: bool,
) -> Result<Parts<'a>, NotationError> {
    let Braces {
        written,
        are_root_tagged,
        are_added_tagged,
        added_places,
    } = written_parts(alloc, files, scope, components, is_set)?;
    check_names(alloc, scope, &written)?;
    let module = files.module(scope);
    let environment = module.map_or(TagDefault::Explicit, |module| environment_of(module.tags));
    let is_implied = files.implies_extension(scope);
    let are_added_tagged = are_added_tagged.as_slice();
    let mut are_tagged = are_root_tagged;
    if let Some(index) = misplaced_tag(environment, are_tagged.as_slice(), are_added_tagged) {
        let place = added_places.get(index).copied().unwrap_or(0);
        return Err(scope.error(place, Problem::MisplacedTag));
    }
    are_tagged.extend_from_slice(are_added_tagged)?;
    let first = written.first.len();
    let inserted = insert_extensions(alloc, written, is_implied)?;
    let automatic = if is_automatic(environment, are_tagged.as_slice()) {
        Some(tags_from_zero(alloc, scope, inserted.root.len(), inserted.additions.len())?)
    } else {
        None
    };
    Ok(Parts {
        scope,
        root: inserted.root,
        first,
        is_extensible: inserted.is_extensible,
        additions: inserted.additions,
        automatic,
    })
}

/// The tagging environment of a module (X.680 13.2).
fn environment_of(tags: WrittenTagDefault) -> TagDefault {
    match tags {
        WrittenTagDefault::Explicit => TagDefault::Explicit,
        WrittenTagDefault::Implicit => TagDefault::Implicit,
        WrittenTagDefault::Automatic => TagDefault::Automatic,
    }
}

/// The automatic tags of the parts of a root, and then of additions (X.680 25.9).
fn tags_from_zero(
    alloc: Global,
    scope: Scope,
    root: usize,
    added: usize,
) -> Result<Vec<Tag>, NotationError> {
    let mut are_added = Vec::new(alloc);
    are_added.resize(root, false)?;
    for _ in 0..added {
        are_added.push(true)?;
    }
    automatic_tags(alloc, are_added.as_slice()).map_err(|error| match error {
        TaggingError::OutOfMemory => NotationError::new(Problem::OutOfMemory),
        TaggingError::TooManyComponents => scope.error(0, Problem::TagOutOfRange),
    })
}

/// The indices of parts in the order of their tags (X.680 8.6).
///
/// # Errors
///
/// `TagTwice` at the second part of two with one tag.
pub fn ordered(
    alloc: Global,
    scope: Scope,
    parts: &[Part<'_>],
    tags: &[Tag],
) -> Result<Vec<usize>, NotationError>
    ensures { IfOk result (λ order. AreInOrder tags.now (length tags.now) order.items) }
{
    match canonical_order(alloc, tags) {
        Ok(order) => Ok(order),
        Err(OrderError::OutOfMemory) => Err(NotationError::new(Problem::OutOfMemory)),
        Err(OrderError::TagTwice { first: _, second }) => {
            let place = parts.get(second).map_or(0, |part| part.place);
            Err(scope.error(place, Problem::TagTwice))
        }
    }
}

/// An alternative, and its tag.
#[derive(Clone, Copy)]
pub struct TaggedPart<'a> {
    /// The alternative.
    pub part: Part<'a>,
    /// Its tag.
    pub tag: Tag,
}

/// The alternatives of a CHOICE: the root ones in the order of their tags (X.680 8.6), and the added ones.
#[derive(Drop)]
pub struct Alternatives<'a> {
    /// The root ones, their tags ascending.
    pub root: Vec<TaggedPart<'a>>,
    /// Whether there is an extension marker.
    pub is_extensible: bool,
    /// The added ones, in the order of the text.
    pub additions: Vec<TaggedPart<'a>>,
}

impl<'a> Alternatives<'a> {
    /// The alternative with a name.
    pub fn find(&self, name: &str) -> Option<(Chosen, Part<'a>)> {
        for place in 0..self.root.len() {
            let part = self.root[place].part;
            if part.name.text.as_str() == name {
                return Some((Chosen::root(place), part));
            }
        }
        for place in 0..self.additions.len() {
            let part = self.additions[place].part;
            if part.name.text.as_str() == name {
                return Some((Chosen::addition(place), part));
            }
        }
        None
    }
}

/// An alternative with its tag: an automatic one, or its own.
fn tagged_alternative<'a>(
    alloc: Global,
    files: &mut Files<'a, '_>,
    part: Part<'a>,
    automatic: Option<Tag>,
) -> Result<TaggedPart<'a>, NotationError> {
    if let Some(tag) = automatic {
        return Ok(TaggedPart { part, tag });
    }
    let (base, tag) = tagged_base(alloc, files, part.at)?;
    let problem = match (tag, &base.term.kind) {
        (Some(tag), _) => return Ok(TaggedPart { part, tag }),
        (None, TypeKind::Choice(_)) => Problem::UntaggedAlternative,
        (None, _) => Problem::UnsupportedType,
    };
    Err(part.at.scope.error(part.name.place, problem))
}

/// The alternatives of a CHOICE that is written in a module.
///
/// # Errors
///
/// At an alternative, `TagTwice` where another one has its tag, `UntaggedAlternative` where it is a CHOICE without a
/// tag, and `UnsupportedType` where it has no tag. Those of `parts_of` and `tagged_base`.
pub fn alternatives_of<'a>(
    alloc: Global,
    files: &mut Files<'a, '_>,
    scope: Scope,
    components: &'a Components,
) -> Result<Alternatives<'a>, NotationError> {
    let parts = parts_of(alloc, files, scope, components, false)?;
    let (written, additions) = tagged_alternatives(alloc, files, &parts)?;
    let mut tags = Vec::new(alloc);
    for tagged in &written {
        tags.push(tagged.tag)?;
    }
    let mut root = Vec::new(alloc);
    for index in ordered(alloc, scope, parts.root.as_slice(), tags.as_slice())? {
        if let Some(tagged) = written.get(index) {
            root.push(*tagged)?;
        }
    }
    Ok(Alternatives {
        root,
        is_extensible: parts.is_extensible,
        additions,
    })
}

/// The root alternatives of a CHOICE and the added ones, as they are written. No two have one tag (X.680 29.4).
fn tagged_alternatives<'a>(
    alloc: Global,
    files: &mut Files<'a, '_>,
    parts: &Parts<'a>,
) -> Result<(Vec<TaggedPart<'a>>, Vec<TaggedPart<'a>>), NotationError> {
    let mut taken = TagSet::new(alloc);
    let mut root = Vec::new(alloc);
    for index in 0..parts.root.len() {
        let part = parts.root[index];
        let tagged = tagged_alternative(alloc, files, part, parts.root_tag(index))?;
        taken.add(parts.scope, part, &[tagged.tag])?;
        root.push(tagged)?;
    }
    let mut additions = Vec::new(alloc);
    for index in 0..parts.additions.len() {
        let part = parts.additions[index];
        let tagged = tagged_alternative(alloc, files, part, parts.added_tag(index))?;
        taken.add(parts.scope, part, &[tagged.tag])?;
        additions.push(tagged)?;
    }
    Ok((root, additions))
}

/// The tags with which a component may begin: an automatic one, its own, or those of all alternatives of an untagged
/// CHOICE, those of the root in order.
///
/// # Errors
///
/// `UnsupportedType` at the component, if it has no tag. Those of `tagged_base` and `alternatives_of`.
pub fn tags_of_part(
    alloc: Global,
    files: &mut Files<'_, '_>,
    part: Part<'_>,
    automatic: Option<Tag>,
) -> Result<Vec<Tag>, NotationError> {
    let mut tags = Vec::new(alloc);
    if let Some(tag) = automatic {
        tags.push(tag)?;
        return Ok(tags);
    }
    let (base, tag) = tagged_base(alloc, files, part.at)?;
    if let Some(tag) = tag {
        tags.push(tag)?;
        return Ok(tags);
    }
    let TypeKind::Choice(components) = &base.term.kind else {
        return Err(
            part.at
                .scope
                .error(part.name.place, Problem::UnsupportedType),
        );
    };
    let alternatives = alternatives_of(alloc, files, base.at.scope, components)?;
    for alternative in alternatives.root.iter().chain(&alternatives.additions) {
        tags.push(alternative.tag)?;
    }
    Ok(tags)
}

/// The tags with which a component may begin, if it gets no automatic one, in any order; none where these are not
/// known, as for an open type.
///
/// # Errors
///
/// Those of `tagged_base` and `alternatives_of`.
pub fn possible_tags(
    alloc: Global,
    files: &mut Files<'_, '_>,
    part: Part<'_>,
) -> Result<Vec<Tag>, NotationError> {
    let mut tags = Vec::new(alloc);
    let (base, tag) = tagged_base(alloc, files, part.at)?;
    if let Some(tag) = tag {
        tags.push(tag)?;
        return Ok(tags);
    }
    if let TypeKind::Choice(components) = &base.term.kind {
        let parts = parts_of(alloc, files, base.at.scope, components, false)?;
        let (root, additions) = tagged_alternatives(alloc, files, &parts)?;
        for alternative in root.iter().chain(&additions) {
            tags.push(alternative.tag)?;
        }
    }
    Ok(tags)
}
