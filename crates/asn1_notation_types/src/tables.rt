//! Tables of the types that a type leads to.
ghost use Rattle.std.specs.Prelude.{◌<◌, ◌≤◌, IfErr, IfSome, length, slice_get};

use crate::building::{Building, Origin};
use crate::endless::endless_type;
use asn1_notation_resolving::{
    Files, Index, NotationError, Problem, Symbol, TypeUse, type_of_symbol,
};
use asn1_notation_tree::{AssignmentKind, Syntax};
use asn1_table_names::Names;
use asn1_table_types::{TableError, Types};
use std::alloc::Global;

/// Whether an addition that is neither OPTIONAL nor has a DEFAULT may be absent.
#[derive(Clone, Copy, Debug, PartialEq, Eq)]
pub enum Additions {
    /// It may: senders of an earlier version do not know it.
    MayBeAbsent,
    /// It may not (X.680 25.16).
    AreRequired,
}

/// What becomes of an open type (X.681 14.2).
#[derive(Clone, Copy, Debug, PartialEq, Eq)]
pub enum OpenTypes {
    /// It has no values: only messages in which it is absent are translated.
    AreRefused,
    /// Its value is the octets of the encoding in it, which no translation changes: an OCTET STRING, which has the same
    /// encoding in all rules (X.691 11.2, X.696 30).
    AreOctets,
}

/// What becomes of a BIT STRING with named bits and without a fixed size, of whose values zeros at the end are no part
/// (X.680 22.7).
#[derive(Clone, Copy, Debug, PartialEq, Eq)]
pub enum NamedBits {
    /// It is refused.
    AreRefused,
    /// It is understood as one without names: zeros at the end are kept as they are sent.
    AreAsSent,
}

/// What becomes of UTCTime and GeneralizedTime (X.680 46 and 47).
#[derive(Clone, Copy, Debug, PartialEq, Eq)]
pub enum Times {
    /// They have no values: only messages in which they are absent are translated.
    AreRefused,
    /// A time is kept as it is sent: a VisibleString, under the tag of its type.
    AreAsSent,
}

/// How modules are understood.
#[derive(Clone, Copy, Debug, PartialEq, Eq)]
pub struct TableOptions {
    /// Whether additions may be absent.
    pub additions: Additions,
    /// What becomes of open types.
    pub open_types: OpenTypes,
    /// What becomes of named bits without a fixed size.
    pub named_bits: NamedBits,
    /// What becomes of times.
    pub times: Times,
}

impl From<Additions> for TableOptions {
    /// Open types, named bits without a fixed size, and times are refused.
    fn from(additions: Additions) -> Self {
        TableOptions {
            additions,
            open_types: OpenTypes::AreRefused,
            named_bits: NamedBits::AreRefused,
            times: Times::AreRefused,
        }
    }
}

/// A type and all types that it leads to.
#[derive(Drop)]
pub struct Table {
    /// The types, each of them lawful.
    pub types: Types,
    /// Their names. That of the type is that of its assignment, also if this is a reference to another type.
    pub names: Names,
    /// The index of the type.
    pub place: usize,
}

/// The table of a type in the modules of some files, by its name, and by that of its module if it is given.
///
/// # Errors
///
/// The lexical item at which something is wrong or not supported: where a type is not lawful, the one at which it is
/// written; where the name is missing or memory ran out, the first one of the first file.
pub fn table_of(
    alloc: Global,
    files: &[Syntax],
    module: Option<&str>,
    name: &str,
    options: TableOptions,
) -> Result<Table, NotationError>
    ensures file { IfErr result (λ e. 0 < length files.now → e.file < length files.now) }
    ensures place { IfErr result (λ e. IfSome (slice_get files.now e.file)
        (λ f. e.place ≤ length f.items.list.items)) }
{
    match built(alloc, files, module, name, options) {
        Ok(table) => Ok(table),
        Err(error) => Err(located(files, error)),
    }
}

/// An error at an item of some files, or at the end of one.
fn located(files: &[Syntax], error: NotationError) -> NotationError
    ensures file { 0 < length files.now → result.file < length files.now }
    ensures place { IfSome (slice_get files.now result.file)
        (λ f. result.place ≤ length f.items.list.items) }
{
    match files.get(error.file) {
        Some(file) => NotationError {
            place: error.place.min(file.items.list.len()),
            ..error
        },
        None => NotationError {
            file: 0,
            place: 0,
            ..error
        },
    }
}

/// The type that is asked for. A set of values (X.680 16.6) is a type for references only.
fn root_of(files: &Files<'_, '_>, symbol: Symbol) -> Result<TypeUse, NotationError> {
    let at = type_of_symbol(files, symbol)?;
    if let Some(assignment) = files.assignment(symbol) {
        if let AssignmentKind::ValueSet(..) = &assignment.kind {
            return Err(
                symbol
                    .scope
                    .error(assignment.name.place, Problem::UnsupportedType),
            );
        }
    }
    Ok(at)
}

/// The table of a type.
fn built(
    alloc: Global,
    files: &[Syntax],
    module: Option<&str>,
    name: &str,
    options: TableOptions,
) -> Result<Table, NotationError> {
    let index = Index::new(alloc, files)?;
    index.check_names(files)?;
    let files = Files::new(alloc, files, &index);
    let symbol = files.find_type(module, name)?;
    let at = root_of(&files, symbol)?;
    let mut building = Building::new(alloc, files, options);
    let place = building.place_of(at)?;
    building.build_all()?;
    building.set_name(place, symbol)?;
    let Building {
        mut files,
        nodes,
        names,
        origins,
        ..
    } = building;
    let types = match Types::new(alloc, nodes) {
        Ok(types) => types,
        Err(error) => return Err(refused(alloc, &mut files, origins.as_slice(), error)),
    };
    if let Some(endless) = endless_type(alloc, types.nodes())? {
        let origins = origins.as_slice();
        return Err(problem_at(alloc, &mut files, origins, endless, Problem::Endless));
    }
    Ok(Table {
        types,
        names: Names { types: names },
        place,
    })
}

/// A problem of the type at an index.
fn problem_at(
    alloc: Global,
    files: &mut Files<'_, '_>,
    origins: &[Origin],
    place: usize,
    problem: Problem,
) -> NotationError {
    match origins.get(place) {
        Some(origin) => origin.error(alloc, files, problem),
        None => NotationError::new(problem),
    }
}

/// Why a table is refused, at the type that is not lawful.
fn refused(
    alloc: Global,
    files: &mut Files<'_, '_>,
    origins: &[Origin],
    error: TableError,
) -> NotationError {
    match error {
        TableError::OutOfMemory => NotationError::new(Problem::OutOfMemory),
        TableError::Unlawful { place, flaw } => {
            problem_at(alloc, files, origins, place, Problem::Unlawful(flaw))
        }
        TableError::DefaultNotNormal { place } => {
            problem_at(alloc, files, origins, place, Problem::UnsupportedDefault)
        }
    }
}
