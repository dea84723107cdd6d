//! Modules, and what their names stand for (X.680 13).
ghost use Rattle.std.specs.Prelude.{◌≡◌, IfErr, None};
ghost use Rattle.asn1_notation_names.specs.Errors.{error_at};

use crate::errors::{NotationError, Problem};
use crate::instances::{Instance, Key};
use crate::suggestions::{
    unknown_first_module, unknown_first_type, unknown_module, unknown_symbol,
};
use asn1_notation_tree::{
    Assignment, ConstraintIndex, ConstraintTerm, Exports, Import, Module, Name, Syntax, TypeIndex,
    TypeTerm, ValueIndex, ValueTerm,
};
use std::alloc::{AllocError, Global};
use std::collections::BTreeMap;

/// A module: the index of its file, and its index in that file; and in a parameterised assignment, with which actual
/// parameters.
#[derive(Clone, Copy, Debug, PartialEq, Eq, PartialOrd, Ord)]
pub struct Scope {
    /// The index of the file.
    pub file: usize,
    /// The index of the module in it.
    pub module: usize,
    /// The index of the parameterised assignment with its actual parameters.
    pub instance: Option<usize>,
}

/// How many references and tags are followed from a type, value, class or actual parameter to what it is.
pub const MOST_STEPS: usize = 64;

/// Through how many modules a name is followed.
const MOST_MODULES: usize = 64;

/// The first module of the first file.
const FIRST: Scope = Scope {
    file: 0,
    module: 0,
    instance: None,
};

impl Scope {
    /// A module, outside parameterised assignments.
    pub fn of(file: usize, module: usize) -> Self
        ensures { result ≡ record { file = file; «module» = «module»; instance = None } }
    {
        Scope {
            file,
            module,
            instance: None,
        }
    }

    /// The module, outside parameterised assignments.
    fn outside(self) -> Self {
        Scope::of(self.file, self.module)
    }

    /// An error at a lexical item of the module's file.
    pub fn error(self, place: usize, problem: Problem) -> NotationError
        ensures { result ≡ error_at self.file place problem }
    {
        NotationError {
            file: self.file,
            place,
            problem,
            near: None,
        }
    }
}

/// An assignment: its module, and its index there.
#[derive(Clone, Copy, PartialEq, Eq, PartialOrd, Ord)]
pub struct Symbol {
    /// The module.
    pub scope: Scope,
    /// The index in `Module::assignments`.
    pub index: usize,
}

/// A type as it is written in a module.
#[derive(Clone, Copy, PartialEq, Eq, PartialOrd, Ord)]
pub struct TypeUse {
    /// The module.
    pub scope: Scope,
    /// The index of its term.
    pub index: TypeIndex,
}

impl TypeUse {
    /// An error at the type; at the first lexical item of its file, if there is no such type.
    pub fn error(self, files: &Files<'_, '_>, problem: Problem) -> NotationError
        ensures file { result.file ≡ self.scope.file }
        ensures problem { result.problem ≡ problem }
    {
        let place = match files.type_term(self) {
            Ok(term) => term.place,
            Err(_) => 0,
        };
        self.scope.error(place, problem)
    }
}

/// A name, the module in which it is, and what it stands for there.
#[derive(Clone, Copy)]
struct Entry<'a> {
    name: &'a str,
    scope: Scope,
    index: usize,
}

/// All names of some files, in ascending order.
#[derive(Drop)]
pub struct Index<'a> {
    /// Those of the modules.
    modules: Vec<Entry<'a>>,
    /// Those that modules define, each with the index of its assignment.
    defined: Vec<Entry<'a>>,
    /// Those that modules import, each with the index of its import.
    imported: Vec<Entry<'a>>,
    /// Those that modules with a list of them export.
    exported: Vec<Entry<'a>>,
}

impl<'a> Index<'a> {
    /// The names of files. Time is that of sorting them.
    ///
    /// # Errors
    ///
    /// Memory ran out.
    pub fn new(alloc: Global, files: &'a [Syntax]) -> Result<Index<'a>, AllocError> {
        let mut all = Index {
            modules: Vec::new(alloc),
            defined: Vec::new(alloc),
            imported: Vec::new(alloc),
            exported: Vec::new(alloc),
        };
        for file in 0..files.len() {
            let modules = files[file].modules.as_slice();
            for module in 0..modules.len() {
                all.add(Scope::of(file, module), &modules[module])?;
            }
        }
        all.modules.sort_by_key(|entry| (entry.name, entry.scope))?;
        all.defined.sort_by_key(|entry| (entry.name, entry.scope))?;
        all.imported.sort_by_key(|entry| (entry.name, entry.scope))?;
        all.exported.sort_by_key(|entry| (entry.name, entry.scope))?;
        Ok(all)
    }

    /// Adds the names of a module.
    fn add(&mut self, scope: Scope, module: &'a Module) -> Result<(), AllocError> {
        self.modules.push(Entry {
            name: module.name.text.as_str(),
            scope,
            index: 0,
        })?;
        for index in 0..module.assignments.len() {
            self.defined.push(Entry {
                name: module.assignments[index].name.text.as_str(),
                scope,
                index,
            })?;
        }
        for index in 0..module.imports.len() {
            for symbol in &module.imports[index].symbols {
                self.imported.push(Entry {
                    name: symbol.text.as_str(),
                    scope,
                    index,
                })?;
            }
        }
        if let Exports::Symbols(symbols) = &module.exports {
            for symbol in symbols {
                self.exported.push(Entry {
                    name: symbol.text.as_str(),
                    scope,
                    index: 0,
                })?;
            }
        }
        Ok(())
    }

    /// Refuses a name that two assignments of a module have, and one that two modules have of which one has no object
    /// identifier (X.680 13.3 and 13.4).
    ///
    /// # Errors
    ///
    /// `NameTwice` at the second of them.
    pub fn check_names(&self, files: &[Syntax]) -> Result<(), NotationError> {
        for pair in self.modules.windows(2) {
            let [first, second] = pair else {
                continue;
            };
            if first.name != second.name {
                continue;
            }
            if let (Some(one), Some(other)) = (
                module_in(files, first.scope),
                module_in(files, second.scope),
            ) {
                if one.identifier.is_none() || other.identifier.is_none() {
                    return Err(second.scope.error(other.name.place, Problem::NameTwice));
                }
            }
        }
        for pair in self.defined.windows(2) {
            let [first, second] = pair else {
                continue;
            };
            if first.name == second.name && first.scope == second.scope {
                return Err(repeated(files, *second));
            }
        }
        Ok(())
    }
}

/// A module of some files.
fn module_in(files: &[Syntax], scope: Scope) -> Option<&Module> {
    files.get(scope.file)?.modules.get(scope.module)
}

/// An error at the name of an assignment.
fn repeated(files: &[Syntax], entry: Entry<'_>) -> NotationError {
    let place = match module_in(files, entry.scope) {
        Some(module) => match module.assignments.get(entry.index) {
            Some(assignment) => assignment.name.place,
            None => 0,
        },
        None => 0,
    };
    entry.scope.error(place, Problem::NameTwice)
}

/// The first entry with a name, in a module or a later one.
fn first_from<'a>(entries: &[Entry<'a>], name: &str, scope: Scope) -> Option<Entry<'a>> {
    let place = entries.partition_point(|entry| (entry.name, entry.scope) < (name, scope));
    let entry = *entries.get(place)?;
    if entry.name == name {
        Some(entry)
    } else {
        None
    }
}

/// The entry with a name in a module.
fn entry_in<'a>(entries: &[Entry<'a>], name: &str, scope: Scope) -> Option<Entry<'a>> {
    let entry = first_from(entries, name, scope)?;
    if entry.scope == scope {
        Some(entry)
    } else {
        None
    }
}

/// Why a name stands for nothing, after the module and the lexical item at which that is said.
#[derive(Clone, Copy)]
enum Lost<'a> {
    /// Another module, the last one that was searched, neither defines nor imports it.
    Missing(Scope, usize, Scope),
    /// A module from which it is imported is not among the files.
    NoModule(Scope, &'a Name),
    /// A module from which it is imported does not export it.
    NotExported(Scope, usize),
    /// It is imported through more than 64 modules.
    Circular(Scope, usize),
}

/// The files of a table, their names, and the parameterised assignments that are used.
#[derive(Drop)]
pub struct Files<'a, 'i> {
    /// Where memory is taken.
    pub alloc: Global,
    /// The files.
    pub files: &'a [Syntax],
    index: &'i Index<'a>,
    pub(crate) instances: Vec<Instance>,
    /// The index of each, by what identifies it.
    pub(crate) known_instances: BTreeMap<Vec<Key>, usize>,
}

impl<'a, 'i> Files<'a, 'i> {
    /// Files and the index of their names.
    pub fn new(alloc: Global, files: &'a [Syntax], index: &'i Index<'a>) -> Self {
        Files {
            alloc,
            files,
            index,
            instances: Vec::new(alloc),
            known_instances: BTreeMap::new(alloc),
        }
    }

    /// A module, if the files have it.
    pub fn module(&self, scope: Scope) -> Option<&'a Module> {
        module_in(self.files, scope)
    }

    /// Whether a module implies an extension marker in each type that may have one and has none (X.680 13.4).
    pub fn implies_extension(&self, scope: Scope) -> bool {
        match self.module(scope) {
            Some(module) => module.is_extensibility_implied,
            None => false,
        }
    }

    /// An assignment, if the files have it.
    pub fn assignment(&self, symbol: Symbol) -> Option<&'a Assignment> {
        self.module(symbol.scope)?.assignments.get(symbol.index)
    }

    /// The term of a type.
    ///
    /// # Errors
    ///
    /// `UnknownType` at the first lexical item of the file, if there is no such term.
    pub fn type_term(&self, at: TypeUse) -> Result<&'a TypeTerm, NotationError>
        ensures { IfErr result (λ e. e ≡ error_at at.scope.file 0 Problem.UnknownType) }
    {
        let found = match self.files.get(at.scope.file) {
            Some(file) => file.types.get(at.index),
            None => None,
        };
        found.ok_or(at.scope.error(0, Problem::UnknownType))
    }

    /// The term of a value of a module.
    ///
    /// # Errors
    ///
    /// `UnknownValue` at the first lexical item of the file, if there is no such term.
    pub fn value_term(
        &self,
        scope: Scope,
        index: ValueIndex,
    ) -> Result<&'a ValueTerm, NotationError>
        ensures { IfErr result (λ e. e ≡ error_at scope.file 0 Problem.UnknownValue) }
    {
        let found = match self.files.get(scope.file) {
            Some(file) => file.values.get(index),
            None => None,
        };
        found.ok_or(scope.error(0, Problem::UnknownValue))
    }

    /// The term of a constraint of a module.
    ///
    /// # Errors
    ///
    /// `UnsupportedConstraint` at the first lexical item of the file, if there is no such term.
    pub fn constraint_term(
        &self,
        scope: Scope,
        index: ConstraintIndex,
    ) -> Result<&'a ConstraintTerm, NotationError>
        ensures { IfErr result (λ e. e ≡ error_at scope.file 0 Problem.UnsupportedConstraint) }
    {
        let found = match self.files.get(scope.file) {
            Some(file) => file.constraints.get(index),
            None => None,
        };
        found.ok_or(scope.error(0, Problem::UnsupportedConstraint))
    }

    /// The first module with a name.
    pub(crate) fn find_module(&self, name: &str) -> Option<Scope> {
        let entry = first_from(self.index.modules.as_slice(), name, FIRST)?;
        Some(entry.scope)
    }

    /// The assignment in a module that defines a name.
    pub(crate) fn find_in(&self, scope: Scope, name: &str) -> Option<Symbol> {
        let scope = scope.outside();
        let entry = entry_in(self.index.defined.as_slice(), name, scope)?;
        Some(Symbol {
            scope,
            index: entry.index,
        })
    }

    /// The import by which a module has a name, and the name there.
    fn import_of(&self, scope: Scope, name: &str) -> Option<(&'a Import, &'a Name)> {
        let entry = entry_in(self.index.imported.as_slice(), name, scope.outside())?;
        let import = self.module(scope)?.imports.get(entry.index)?;
        for symbol in &import.symbols {
            if symbol.text.as_str() == name {
                return Some((import, symbol));
            }
        }
        None
    }

    /// Whether a module exports a name (X.680 13.1).
    fn exports(&self, scope: Scope, name: &str) -> bool {
        let lists = match self.module(scope) {
            Some(module) => matches!(module.exports, Exports::Symbols(_)),
            None => false,
        };
        !lists || entry_in(self.index.exported.as_slice(), name, scope.outside()).is_some()
    }

    /// Whether a module defines or imports a name, and does not export it.
    fn keeps(&self, scope: Scope, name: &str) -> bool {
        let has = self.find_in(scope, name).is_some() || self.import_of(scope, name).is_some();
        has && !self.exports(scope, name)
    }

    /// What a name at a lexical item of a module stands for: an assignment of the module itself, or of one from which
    /// it imports the name, through at most 64 modules.
    fn follow(&self, scope: Scope, name: &str, place: usize) -> Result<Symbol, Lost<'a>> {
        let mut searched = scope;
        let mut scope = scope;
        let mut place = place;
        let mut first = None;
        for _ in 0..MOST_MODULES {
            if let Some(found) = self.find_in(searched, name) {
                return Ok(found);
            }
            let Some((import, symbol)) = self.import_of(searched, name) else {
                return Err(Lost::Missing(scope, place, searched));
            };
            scope = searched;
            place = symbol.place;
            first = first.or(Some(Lost::Circular(scope, place)));
            match self.find_module(import.module.text.as_str()) {
                Some(exporter) if self.keeps(exporter, name) => {
                    return Err(Lost::NotExported(scope, place));
                }
                Some(exporter) => searched = exporter,
                None => return Err(Lost::NoModule(scope, &import.module)),
            }
        }
        Err(first.unwrap_or(Lost::Circular(scope, place)))
    }

    /// What a name in a module stands for, if it stands for something.
    pub(crate) fn find_symbol(&self, scope: Scope, name: &str) -> Option<Symbol> {
        self.follow(scope, name, 0).ok()
    }

    /// What a name in a module stands for, after the name of a module if that is given, which may import it.
    ///
    /// # Errors
    ///
    /// `UnknownModule` at the name of a module that is not among the files, there or in an IMPORTS. `NotExported`, or
    /// the problem that is given if nothing has the name: at it, or where it is imported.
    pub fn find(
        &self,
        scope: Scope,
        module: Option<&Name>,
        name: &Name,
        missing: Problem,
    ) -> Result<Symbol, NotationError> {
        let text = name.text.as_str();
        if let Some(module) = module {
            let Some(searched) = self.find_module(module.text.as_str()) else {
                return Err(unknown_module(self, scope, module));
            };
            if searched != scope.outside() && self.keeps(searched, text) {
                return Err(scope.error(name.place, Problem::NotExported));
            }
            return match self.follow(searched, text, name.place) {
                Ok(found) => Ok(found),
                Err(_) => Err(unknown_symbol(self, scope, searched, text, name.place, missing)),
            };
        }
        match self.follow(scope, text, name.place) {
            Ok(found) => Ok(found),
            Err(lost) => Err(self.explained(lost, text, missing)),
        }
    }

    /// An error where a name stands for nothing, with the problem that is given if no module has it.
    fn explained(&self, lost: Lost<'_>, name: &str, missing: Problem) -> NotationError {
        match lost {
            Lost::Missing(scope, place, searched) => {
                unknown_symbol(self, scope, searched, name, place, missing)
            }
            Lost::NoModule(scope, module) => unknown_module(self, scope, module),
            Lost::NotExported(scope, place) => scope.error(place, Problem::NotExported),
            Lost::Circular(scope, place) => scope.error(place, Problem::Circular),
        }
    }

    /// The first assignment with a name, of all modules or of the one that is named.
    ///
    /// # Errors
    ///
    /// `UnknownModule` or `UnknownType` at the first lexical item.
    pub fn find_type(&self, module: Option<&str>, name: &str) -> Result<Symbol, NotationError> {
        if let Some(module) = module {
            let Some(scope) = self.find_module(module) else {
                return Err(unknown_first_module(self, module));
            };
            return match self.find_in(scope, name) {
                Some(found) => Ok(found),
                None => Err(unknown_first_type(self, Some(scope), name)),
            };
        }
        match first_from(self.index.defined.as_slice(), name, FIRST) {
            Some(entry) => Ok(Symbol {
                scope: entry.scope,
                index: entry.index,
            }),
            None => Err(unknown_first_type(self, None, name)),
        }
    }
}
