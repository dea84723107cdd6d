//! Lexical items and their places in a text.
ghost use Rattle.std.specs.Prelude.{◌≡◌, ◌≤◌, ◌<◌, IsTrue, IfSome, length, slice_get};
ghost use Rattle.std.specs.Option.{option_copied};
ghost use Rattle.std.specs.List.{list_all};
ghost use Rattle.asn1_notation_tokens.specs.Spans.{is_inside};

use crate::symbols::Symbol;
use crate::words::Word;
use std::fmt;

/// What a lexical item is (X.680 12).
#[derive(Clone, Copy, Debug, PartialEq, Eq)]
pub enum ItemKind {
    /// A name that begins with a capital letter and is no reserved word: a typereference, a modulereference, an
    /// objectclassreference or an objectsetreference (X.680 12.2, 12.5, X.681 7).
    Reference,
    /// A name that begins with a small letter: an identifier, a valuereference or an objectreference (X.680 12.3,
    /// 12.4).
    Identifier,
    /// `&` and a name: a field of an information object class (X.681 7).
    Field,
    /// A reserved word (X.680 12.38).
    Word(Word),
    /// A number in decimal digits (X.680 12.8).
    Number(i128),
    /// A number with a decimal point or an exponent (X.680 12.9).
    RealNumber,
    /// A bstring: binary digits in apostrophes, and B (X.680 12.10).
    BinaryString,
    /// An hstring: hexadecimal digits in apostrophes, and H (X.680 12.12).
    HexadecimalString,
    /// A cstring: characters in quotation marks (X.680 12.14).
    CharacterString,
    /// One to three characters.
    Symbol(Symbol),
    /// No item: the end of the text.
    End,
}

impl fmt::Display for ItemKind {
    fn fmt<W: fmt::Write>(&self, f: &mut fmt::Formatter<W>) -> fmt::Result {
        match self {
            ItemKind::Reference => write!(f, "a name with a capital letter"),
            ItemKind::Identifier => write!(f, "a name with a small letter"),
            ItemKind::Field => write!(f, "the name of a field"),
            ItemKind::Word(word) => write!(f, "{}", word.text()),
            ItemKind::Number(number) => write!(f, "{number}"),
            ItemKind::RealNumber => write!(f, "a real number"),
            ItemKind::BinaryString => write!(f, "a binary string"),
            ItemKind::HexadecimalString => write!(f, "a hexadecimal string"),
            ItemKind::CharacterString => write!(f, "a character string"),
            ItemKind::Symbol(symbol) => write!(f, "`{}`", symbol.text()),
            ItemKind::End => write!(f, "the end of the text"),
        }
    }
}

/// A lexical item of a text: what it is, and where.
#[derive(Clone, Copy, Debug, PartialEq, Eq)]
pub struct Item {
    /// What it is.
    pub kind: ItemKind,
    /// The index of its first octet in the text.
    pub start: usize,
    /// The index after its last octet.
    pub end: usize,
}

/// The lexical items of a text, each inside it.
#[derive(Drop)]
pub struct Items {
    /// The items, in the order of the text.
    pub list: Vec<Item>,
    /// The number of octets of the text.
    pub text_length: usize,
    pub ghost inside: { IsTrue (list_all (is_inside text_length) list.items) },
}

impl Items {
    /// The item at an index, if there is one.
    pub fn get(&self, index: usize) -> Option<Item>
        ensures found { result ≡ slice_get self.now.list.items index }
        ensures inside { IfSome result (λ i. IsTrue (is_inside self.now.text_length i)) }
    {
        self.list.get(index).copied()
    }

    /// The index of the octet at which an item begins; the length of the text, if there is no such item.
    pub fn offset(&self, index: usize) -> usize
        ensures found { IfSome (slice_get self.now.list.items index) (λ i. result ≡ i.start) }
        ensures inside { result ≤ self.now.text_length }
    {
        match self.get(index) {
            Some(item) => item.start,
            None => self.text_length,
        }
    }
}
