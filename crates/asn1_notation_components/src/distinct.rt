//! Components and alternatives that need distinct tags (X.680 25.6, 27.3 and 29.4).
use crate::parts::{Part, Parts, possible_tags};
use asn1_notation_resolving::{Files, NotationError, Problem, Scope};
use asn1_notation_tree::Presence;
use asn1_schema_tags::Tag;
use std::alloc::Global;
use std::collections::BTreeSet;

/// Tags that the next component may not have.
#[derive(Drop)]
pub struct TagSet {
    tags: BTreeSet<Tag>,
}

impl TagSet {
    /// No tags.
    pub fn new(alloc: Global) -> Self {
        TagSet {
            tags: BTreeSet::new(alloc),
        }
    }

    /// Adds tags of a part.
    ///
    /// # Errors
    ///
    /// `TagTwice` at the part, if one is there already.
    pub fn add(&mut self, scope: Scope, part: Part<'_>, tags: &[Tag]) -> Result<(), NotationError> {
        for tag in tags {
            if !self.tags.insert(*tag)? {
                return Err(scope.error(part.place, Problem::TagTwice));
            }
        }
        Ok(())
    }

    /// Adds the tags with which a part may begin, which are given back.
    fn add_possible(
        &mut self,
        alloc: Global,
        files: &mut Files<'_, '_>,
        scope: Scope,
        part: Part<'_>,
    ) -> Result<Vec<Tag>, NotationError> {
        let tags = possible_tags(alloc, files, part)?;
        self.add(scope, part, tags.as_slice())?;
        Ok(tags)
    }

    /// Adds tags that may be there already.
    fn note(&mut self, tags: &[Tag]) -> Result<(), NotationError> {
        for tag in tags {
            self.tags.insert(*tag)?;
        }
        Ok(())
    }
}

/// Refuses a component of a SET that has the tag of another one (X.680 27.3).
///
/// # Errors
///
/// `TagTwice` at the second of them. Those of `tagged_base` and `parts_of`.
pub fn check_set(
    alloc: Global,
    files: &mut Files<'_, '_>,
    parts: &Parts<'_>,
) -> Result<(), NotationError> {
    if parts.is_automatic() {
        return Ok(());
    }
    let mut taken = TagSet::new(alloc);
    for part in parts.root.iter().chain(&parts.additions) {
        taken.add_possible(alloc, files, parts.scope, *part)?;
    }
    Ok(())
}

/// Refuses a component of a SEQUENCE that has the tag of one before it, if all between may be absent (X.680 25.6).
/// For the root components after additions all of these may be absent.
///
/// # Errors
///
/// `TagTwice` at the second of them. Those of `tagged_base` and `parts_of`.
pub fn check_sequence(
    alloc: Global,
    files: &mut Files<'_, '_>,
    parts: &Parts<'_>,
) -> Result<(), NotationError> {
    if parts.is_automatic() {
        return Ok(());
    }
    let mut run = Run::new(alloc, parts.scope);
    for part in parts.root.iter().take(parts.first) {
        run.add(files, *part)?;
    }
    let mut later = Run::new(alloc, parts.scope);
    if parts.first < parts.root.len() {
        later.note_all(run.tags.as_slice())?;
        for part in &parts.additions {
            later.note(files, *part)?;
        }
    }
    for part in &parts.additions {
        run.add(files, *part)?;
    }
    for part in parts.root.iter().skip(parts.first) {
        later.add(files, *part)?;
    }
    Ok(())
}

/// Components of a SEQUENCE that may be absent, one after the other.
#[derive(Drop)]
struct Run {
    alloc: Global,
    scope: Scope,
    taken: TagSet,
    /// Their tags.
    tags: Vec<Tag>,
}

impl Run {
    /// No components.
    fn new(alloc: Global, scope: Scope) -> Self {
        Run {
            alloc,
            scope,
            taken: TagSet::new(alloc),
            tags: Vec::new(alloc),
        }
    }

    /// Adds a component, or refuses it where one of the others has its tag. One that is always there ends the run.
    fn add(&mut self, files: &mut Files<'_, '_>, part: Part<'_>) -> Result<(), NotationError> {
        let is_required = matches!(part.presence, Presence::Required);
        if is_required && self.tags.is_empty() {
            return Ok(());
        }
        let tags = self
            .taken
            .add_possible(self.alloc, files, self.scope, part)?;
        self.tags.extend_from_slice(tags.as_slice())?;
        if is_required {
            self.taken = TagSet::new(self.alloc);
            self.tags = Vec::new(self.alloc);
        }
        Ok(())
    }

    /// Adds a component that may have a tag of another one.
    fn note(&mut self, files: &mut Files<'_, '_>, part: Part<'_>) -> Result<(), NotationError> {
        let tags = possible_tags(self.alloc, files, part)?;
        self.note_all(tags.as_slice())
    }

    /// Adds tags that others may have.
    fn note_all(&mut self, tags: &[Tag]) -> Result<(), NotationError> {
        self.taken.note(tags)?;
        self.tags.extend_from_slice(tags)?;
        Ok(())
    }
}
