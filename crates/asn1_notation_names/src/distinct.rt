//! Names that may occur once in one place.
ghost use Rattle.std.specs.Prelude.{IfErr};
ghost use Rattle.asn1_notation_names.specs.Errors.{IsErrorOf, error_at};

use crate::errors::{NotationError, Problem};
use crate::scopes::Scope;
use asn1_notation_tree::Name;
use std::alloc::Global;
use std::collections::BTreeSet;

/// Names of components, items or numbers of one type.
#[derive(Drop)]
pub struct NameSet<'a> {
    names: BTreeSet<&'a str>,
}

impl<'a> NameSet<'a> {
    /// No names.
    pub fn new(alloc: Global) -> Self {
        NameSet {
            names: BTreeSet::new(alloc),
        }
    }

    /// Adds a name that is written in a module.
    ///
    /// # Errors
    ///
    /// `NameTwice` at a lexical item of the module, if the name is there already.
    pub fn add(&mut self, scope: Scope, place: usize, name: &'a Name) -> Result<(), NotationError>
        ensures { IfErr result (IsErrorOf (error_at scope.file place Problem.NameTwice)) }
    {
        if self.names.insert(name.text.as_str())? {
            return Ok(());
        }
        Err(scope.error(place, Problem::NameTwice))
    }
}
