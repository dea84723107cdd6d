//! Why a text is no text of modules.
use asn1_notation_tokens::{ItemKind, LexicalFault, Symbol, Word};
use std::fmt;
use thiserror::Error;

/// What the notation asks for where something else was found.
#[derive(Clone, Copy, Debug, PartialEq, Eq)]
pub enum Expected {
    /// A module.
    Module,
    /// An assignment, or END.
    Assignment,
    /// A type.
    Type,
    /// A value.
    Value,
    /// A number, or the name of one.
    Number,
    /// A name with a small letter.
    Identifier,
    /// A name with a capital letter.
    Reference,
    /// A name.
    Symbolic,
    /// A component or an alternative.
    Component,
    /// The name of a field of an information object class.
    Field,
    /// The end of a range: MIN, MAX or a value.
    RangeEnd,
    /// A constraint.
    Constraint,
    /// A character string in UTF-8.
    Text,
    /// This reserved word.
    Word(Word),
    /// This symbol.
    Symbol(Symbol),
    /// A comma, or this symbol, which ends a list.
    CommaOr(Symbol),
}

impl fmt::Display for Expected {
    fn fmt<W: fmt::Write>(&self, f: &mut fmt::Formatter<W>) -> fmt::Result {
        match self {
            Expected::Module => write!(f, "a module"),
            Expected::Assignment => write!(f, "an assignment or END"),
            Expected::Type => write!(f, "a type"),
            Expected::Value => write!(f, "a value"),
            Expected::Number => write!(f, "a number or the name of one"),
            Expected::Identifier => write!(f, "a name with a small letter"),
            Expected::Reference => write!(f, "a name with a capital letter"),
            Expected::Symbolic => write!(f, "a name"),
            Expected::Component => write!(f, "a component"),
            Expected::Field => write!(f, "the name of a field"),
            Expected::RangeEnd => write!(f, "MIN, MAX or a value"),
            Expected::Constraint => write!(f, "a constraint"),
            Expected::Text => write!(f, "a character string in UTF-8"),
            Expected::Word(word) => write!(f, "{}", word.text()),
            Expected::Symbol(symbol) => write!(f, "`{}`", symbol.text()),
            Expected::CommaOr(symbol) => write!(f, "`,` or `{}`", symbol.text()),
        }
    }
}

/// What is wrong with a text of modules.
#[derive(Clone, Copy, Debug, PartialEq, Eq, Error)]
pub enum SyntaxFault {
    /// A lexical item is wrong.
    #[error("{0}")]
    Lexical(LexicalFault),
    /// Another lexical item is found than the notation asks for.
    #[error("expected {expected}, found {found}")]
    Unexpected {
        /// What the notation asks for.
        expected: Expected,
        /// What is found.
        found: ItemKind,
    },
    /// Types, constraints or values are nested in more than 128 levels.
    #[error("the nesting is deeper than 128 levels")]
    TooDeep,
    /// Memory ran out.
    #[error("out of memory")]
    OutOfMemory,
}

/// What is wrong with a text of modules, and where.
#[derive(Clone, Copy, Debug, PartialEq, Eq, Error)]
#[error("{fault}")]
pub struct SyntaxError {
    /// The index of the first octet of the lexical item at fault; the length of the text, if that is its end.
    pub offset: usize,
    /// What is wrong.
    pub fault: SyntaxFault,
}
