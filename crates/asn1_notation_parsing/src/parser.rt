//! The lexical items that are still to be read, and the terms that have been.
ghost use Rattle.std.specs.Prelude.{◌≡◌, ◌++◌, ◌∷◌, [], IfErr, IfOk, OnOk, length};

use crate::refusals::{Parsed, Refusal};
use crate::strings::copied_name;
use asn1_notation_tokens::{ItemKind, Items, Symbol, Word};
use asn1_notation_tree::{
    ConstraintIndex, ConstraintKind, ConstraintTerm, Expected, Name, TypeIndex, TypeTerm,
    ValueIndex, ValueKind, ValueTerm,
};
use std::alloc::Global;

/// The greatest depth of types, constraints or values in each other.
pub const MAXIMUM_DEPTH: usize = 128;

/// The state of a parser.
#[derive(Drop)]
pub struct Parser<'a> {
    /// The text.
    pub text: &'a [u8],
    /// Its lexical items.
    pub items: &'a Items,
    /// The index of the next one.
    pub next: usize,
    /// Where memory is taken.
    pub alloc: Global,
    /// The types that have been read.
    pub types: Vec<TypeTerm>,
    /// The constraints that have been read.
    pub constraints: Vec<ConstraintTerm>,
    /// The values that have been read.
    pub values: Vec<ValueTerm>,
}

impl<'a> Parser<'a> {
    /// A parser before the first item of a text.
    pub fn new(alloc: Global, text: &'a [u8], items: &'a Items) -> Parser<'a>
        ensures { result.next ≡ 0 }
    {
        Parser {
            text,
            items,
            next: 0,
            alloc,
            types: Vec::new(alloc),
            constraints: Vec::new(alloc),
            values: Vec::new(alloc),
        }
    }

    /// The kind of the item that comes this many items after the next one.
    pub fn peek_after(&self, count: usize) -> ItemKind {
        match self.items.get(self.next.saturating_add(count)) {
            Some(item) => item.kind,
            None => ItemKind::End,
        }
    }

    /// The kind of the next item.
    pub fn peek(&self) -> ItemKind {
        self.peek_after(0)
    }

    /// The number of items that are left, and one for the end of the text.
    pub fn left(&self) -> usize {
        let left = self.items.list.len().saturating_sub(self.next);
        left.saturating_add(1)
    }

    /// Goes past the next item.
    pub fn advance(&mut self) {
        self.next = self.next.saturating_add(1);
    }

    /// The refusal of the next item, in place of what is expected.
    pub fn expected(&self, expected: Expected) -> Refusal
        ensures { result ≡ Refusal.Unexpected expected self.now.next }
    {
        Refusal::Unexpected(expected, self.next)
    }

    /// Whether the next item is a symbol.
    pub fn sees(&self, symbol: Symbol) -> bool {
        self.peek() == ItemKind::Symbol(symbol)
    }

    /// Whether the next item is a reserved word.
    pub fn sees_word(&self, word: Word) -> bool {
        self.peek() == ItemKind::Word(word)
    }

    /// Goes past the next item if it is a symbol, and answers whether it is.
    pub fn eat(&mut self, symbol: Symbol) -> bool {
        let found = self.sees(symbol);
        if found {
            self.advance();
        }
        found
    }

    /// Goes past the next item if it is a reserved word, and answers whether it is.
    pub fn eat_word(&mut self, word: Word) -> bool {
        let found = self.sees_word(word);
        if found {
            self.advance();
        }
        found
    }

    /// Goes past a symbol.
    ///
    /// # Errors
    ///
    /// The next item is another one.
    pub fn expect(&mut self, symbol: Symbol) -> Parsed<()>
        ensures { IfErr result (λ r. r ≡ Refusal.Unexpected (Expected.Symbol symbol) self.new.next) }
    {
        if self.eat(symbol) {
            return Ok(());
        }
        Err(self.expected(Expected::Symbol(symbol)))
    }

    /// Goes past a reserved word.
    ///
    /// # Errors
    ///
    /// The next item is another one.
    pub fn expect_word(&mut self, word: Word) -> Parsed<()>
        ensures { IfErr result (λ r. r ≡ Refusal.Unexpected (Expected.Word word) self.new.next) }
    {
        if self.eat_word(word) {
            return Ok(());
        }
        Err(self.expected(Expected::Word(word)))
    }

    /// Goes past the symbol that ends a list, after its last element.
    ///
    /// # Errors
    ///
    /// The next item is another one.
    pub fn end_list(&mut self, symbol: Symbol) -> Parsed<()>
        ensures { IfErr result (λ r. r ≡ Refusal.Unexpected (Expected.CommaOr symbol) self.new.next) }
    {
        if self.eat(symbol) {
            return Ok(());
        }
        Err(self.expected(Expected::CommaOr(symbol)))
    }

    /// The octets of the next item.
    pub fn octets(&self) -> &'a [u8] {
        let text = self.text;
        match self.items.get(self.next) {
            Some(item) => match text.get(item.start..item.end) {
                Some(octets) => octets,
                None => &[],
            },
            None => &[],
        }
    }

    /// Goes past the next item, which is a name.
    pub fn take_name(&mut self) -> Parsed<Name> {
        let name = Name {
            text: copied_name(self.alloc, self.octets())?,
            place: self.next,
        };
        self.advance();
        Ok(name)
    }

    /// Goes past an identifier.
    pub fn identifier(&mut self) -> Parsed<Name> {
        match self.peek() {
            ItemKind::Identifier => self.take_name(),
            _ => Err(self.expected(Expected::Identifier)),
        }
    }

    /// Goes past a reference.
    pub fn reference(&mut self) -> Parsed<Name> {
        match self.peek() {
            ItemKind::Reference => self.take_name(),
            _ => Err(self.expected(Expected::Reference)),
        }
    }

    /// Adds a type, and answers its index.
    pub fn add_type(&mut self, term: TypeTerm) -> Parsed<TypeIndex>
        ensures index { IfOk result (λ index. index ≡ length self.old.types.items) }
        ensures added { OnOk result (self.new.types.items ≡ self.old.types.items ++ term ∷ []) }
    {
        let index = self.types.len();
        self.types.push(term)?;
        Ok(index)
    }

    /// Adds a constraint that begins at an item, and answers its index.
    pub fn add_constraint(&mut self, place: usize, kind: ConstraintKind) -> Parsed<ConstraintIndex>
        ensures index { IfOk result (λ index. index ≡ length self.old.constraints.items) }
        ensures added { OnOk result (self.new.constraints.items
            ≡ self.old.constraints.items ++ record { place = place; kind = kind } ∷ []) }
    {
        let index = self.constraints.len();
        self.constraints.push(ConstraintTerm { place, kind })?;
        Ok(index)
    }

    /// Adds a value that begins at an item, and answers its index.
    pub fn add_value(&mut self, place: usize, kind: ValueKind) -> Parsed<ValueIndex>
        ensures index { IfOk result (λ index. index ≡ length self.old.values.items) }
        ensures added { OnOk result (self.new.values.items
            ≡ self.old.values.items ++ record { place = place; kind = kind } ∷ []) }
    {
        let index = self.values.len();
        self.values.push(ValueTerm { place, kind })?;
        Ok(index)
    }

    /// Goes past a pair of braces and what is in it.
    pub fn skip_braces(&mut self) -> Parsed<()> {
        self.expect(Symbol::LeftBrace)?;
        let mut open: usize = 1;
        for _ in 0..self.left() {
            match self.peek() {
                ItemKind::Symbol(Symbol::LeftBrace) => open = open.saturating_add(1),
                ItemKind::Symbol(Symbol::RightBrace) => open = open.saturating_sub(1),
                _ => {}
            }
            self.advance();
            if open == 0 {
                return Ok(());
            }
        }
        Err(self.expected(Expected::Symbol(Symbol::RightBrace)))
    }

    /// Goes past items up to a closing parenthesis whose opening one is before them.
    pub fn skip_to_parenthesis(&mut self) {
        let mut open: usize = 0;
        for _ in 0..self.left() {
            match self.peek() {
                ItemKind::Symbol(Symbol::LeftParenthesis) => open = open.saturating_add(1),
                ItemKind::Symbol(Symbol::RightParenthesis) if open == 0 => return,
                ItemKind::Symbol(Symbol::RightParenthesis) => open = open.saturating_sub(1),
                _ => {}
            }
            self.advance();
        }
    }
}
