//! Why a text has no table.
ghost use Rattle.std.specs.Prelude.{◌≡◌};
ghost use Rattle.asn1_notation_names.specs.Errors.{error_at, out_of_memory};

use asn1_notation_tree::Syntax;
use asn1_table_types::Flaw;
use std::alloc::{AllocError, AllocFailed};
use std::fmt;
use thiserror::Error;

/// What is wrong, or not supported.
#[derive(Clone, Copy, Debug, PartialEq, Eq, Hash, Drop, Error)]
pub enum Problem {
    /// No type has this name.
    #[error("no such type")]
    UnknownType,
    /// No value has this name.
    #[error("no such value")]
    UnknownValue,
    /// No module has this name.
    #[error("no such module among the files")]
    UnknownModule,
    /// A module does not export a name (X.680 13.1).
    #[error("its module does not export this name")]
    NotExported,
    /// A name is that of another definition, component, item or number of the same place.
    #[error("this name occurs twice")]
    NameTwice,
    /// A name leads to itself, or to another one more than 64 times.
    #[error("the definition leads back to itself")]
    Circular,
    /// The type is, or contains, more levels than are followed.
    #[error("nested too deep")]
    TooDeep,
    /// A parameterised value (X.683).
    #[error("parameterised values are not supported")]
    Parameterised,
    /// Other actual parameters than those of the definition, or none of them (X.683 9.5).
    #[error("the actual parameters are not those of the definition")]
    Parameters,
    /// A set of values, or a value in braces, as a parameter (X.683 9.5).
    #[error("a set of values or a value in braces as a parameter is not supported")]
    ParameterKind,
    /// No information object class has this name (X.681 9.2).
    #[error("no such information object class")]
    UnknownClass,
    /// The class has no field of this name (X.681 9.4).
    #[error("the class has no such field")]
    UnknownField,
    /// A selection type of a type that is no CHOICE, or whose name none of its alternatives has (X.680 30).
    #[error("the type is no CHOICE with this alternative")]
    UnknownAlternative,
    /// More parameterised types with their actual parameters than are followed.
    #[error("there are more than 4096 parameterised types with other actual parameters")]
    TooManyInstances,
    /// More contained subtypes in the constraints of a type than are followed (X.680 51.3).
    #[error("the constraints of a type have more than 4096 contained subtypes")]
    TooManyContained,
    /// A type that tables do not hold.
    #[error("this type is not supported")]
    UnsupportedType,
    /// Named bits without a fixed size (X.680 22.7).
    #[error("named bits without a fixed size are not supported, unless kept as sent (--named-bits as-sent)")]
    NamedBits,
    /// A CHOICE without a tag as an alternative of a CHOICE.
    #[error("an untagged CHOICE as an alternative is not supported")]
    UntaggedAlternative,
    /// COMPONENTS OF a type that is no SEQUENCE in a SEQUENCE, or no SET in a SET (X.680 25.5 and 27.2).
    #[error("COMPONENTS OF a type that is not of this kind")]
    ComponentsOfOther,
    /// Version brackets whose numbers are not given for all, are below 2 or do not ascend (X.680 25.1).
    #[error("version numbers must ascend from 2 on, and be given in all version brackets or in none")]
    VersionNumber,
    /// A type that contains itself, so that each of its values has no end.
    #[error("the type contains itself in each of its values")]
    Endless,
    /// The value of a field of an information object (X.681 15).
    #[error("a value of a field of an object is not supported")]
    ValueOfObject,
    /// A value of another type.
    #[error("a value of another type")]
    ValueOfOtherType,
    /// A default that the constraints of its type do not allow.
    #[error("the constraints of its type do not allow this default")]
    DefaultOutside,
    /// A default that tables do not hold.
    #[error("a default of this type is not supported")]
    UnsupportedDefault,
    /// A tag's number is negative, or above 2^32 - 1.
    #[error("the number of a tag is out of range")]
    TagOutOfRange,
    /// An arc of an object identifier is negative, or above 2^32 - 1.
    #[error("an arc of an object identifier is out of range")]
    ArcOutOfRange,
    /// Two components or alternatives have one tag (X.680 25.6, 27.3 and 29.4).
    #[error("another component or alternative has this tag")]
    TagTwice,
    /// IMPLICIT before a CHOICE without a tag (X.680 31.2.9).
    #[error("IMPLICIT before an untagged CHOICE")]
    ImplicitChoice,
    /// A tag before an addition, where the root gets automatic tags (X.680 25.7 and 29.3).
    #[error("an addition may have no tag where the root has automatic ones")]
    MisplacedTag,
    /// A constraint that types of this kind cannot have (X.680 51.1).
    #[error("a type of this kind cannot have this constraint")]
    ConstraintOfOther,
    /// A value in a constraint that is none of the type before the constraint (X.680 51.2 and 51.4).
    #[error("the type that is constrained does not have this value")]
    OutsideParent,
    /// A constraint allows no value.
    #[error("the constraint allows no value")]
    EmptyConstraint,
    /// A size is above 2^64 - 1.
    #[error("the size is out of range")]
    SizeOutOfRange,
    /// The number of an item is out of range.
    #[error("the number of an item is out of range")]
    ItemNumber,
    /// The number of an added item is not above that of the added one before it (X.680 20.6).
    #[error("the number of an added item is not above that of the one before it")]
    ItemOrder,
    /// The number of a bit is negative (X.680 22.1).
    #[error("the number of a bit is negative")]
    NegativeBit,
    /// Two items, named numbers or bits have one number (X.680 19.4, 20.3 and 22.3).
    #[error("this number occurs twice")]
    NumberTwice,
    /// A constraint in a form that is not supported.
    #[error("this constraint is not supported")]
    UnsupportedConstraint,
    /// A type that is not lawful: what is wrong with it.
    #[error("{0}")]
    Unlawful(Flaw),
    /// Memory ran out.
    #[error("out of memory")]
    OutOfMemory,
}

/// A module, or an assignment of one.
#[derive(Clone, Copy, Debug, PartialEq, Eq, Hash)]
pub struct Near {
    /// The index of the file.
    pub file: usize,
    /// The index of the module in it.
    pub module: usize,
    /// The index of the assignment in that, if it is one.
    pub assignment: Option<usize>,
}

impl Near {
    /// Its name.
    pub fn name(self, files: &[Syntax]) -> Option<&str> {
        let module = files.get(self.file)?.modules.get(self.module)?;
        match self.assignment {
            None => Some(module.name.text.as_str()),
            Some(index) => Some(module.assignments.get(index)?.name.text.as_str()),
        }
    }
}

/// What is wrong with a text, and where.
#[derive(Clone, Copy, Debug, PartialEq, Eq, Hash)]
pub struct NotationError {
    /// The index of the file.
    pub file: usize,
    /// The index of the lexical item in it.
    pub place: usize,
    /// What is wrong.
    pub problem: Problem,
    /// What has nearly the name that is unknown, if something has.
    pub near: Option<Near>,
}

impl NotationError {
    /// An error at the first lexical item of the first file.
    pub fn new(problem: Problem) -> Self
        ensures { result ≡ error_at 0 0 problem }
    {
        NotationError {
            file: 0,
            place: 0,
            problem,
            near: None,
        }
    }

    /// The text of the error, with the name that may have been meant.
    pub fn explained(self, files: &[Syntax]) -> Explained<'_>
        ensures { result.problem ≡ self.problem }
    {
        Explained {
            problem: self.problem,
            suggestion: match self.near {
                Some(near) => near.name(files),
                None => None,
            },
        }
    }
}

/// What is wrong with a text, such as «no such type; did you mean `Message`?».
#[derive(Clone, Copy, Debug, PartialEq, Eq)]
pub struct Explained<'a> {
    /// What is wrong.
    pub problem: Problem,
    /// The name that may have been meant.
    pub suggestion: Option<&'a str>,
}

impl fmt::Display for Explained<'_> {
    fn fmt<W: fmt::Write>(&self, f: &mut fmt::Formatter<W>) -> fmt::Result {
        let problem = self.problem;
        write!(f, "{problem}")?;
        match self.suggestion {
            Some(name) => write!(f, "; did you mean `{name}`?"),
            None => Ok(()),
        }
    }
}

impl From<AllocError> for NotationError {
    ghost from_gives = { λ _ e. e ≡ out_of_memory };

    fn from(_refused: AllocError) -> Self {
        NotationError::new(Problem::OutOfMemory)
    }
}

impl<T: Drop> From<AllocFailed<T>> for NotationError {
    ghost from_gives = { λ _ e. e ≡ out_of_memory };

    fn from(_refused: AllocFailed<T>) -> Self {
        NotationError::new(Problem::OutOfMemory)
    }
}
