//! JSON text that is written token by token.
#![tactic(auto, using(std::proofs::lemmas::Grind::common_steps))]

ghost use Rattle.std.specs.Prelude.{◌≡◌, [], string_bytes};
ghost use Rattle.json.specs.Print.{IsPrintable};
ghost use Rattle.json.specs.Reads.{token_of};
ghost use Rattle.asn1_table_json_writing.specs.Styles.{IsLaidOut};

use json::{Pretty, Token, Writer, is_number};
use std::alloc::{AllocError, Global};

/// How JSON is laid out.
#[derive(Clone, Copy, Debug, PartialEq, Eq)]
pub enum Style {
    /// Without spaces.
    Compact,
    /// A line for each member and element, indented by two spaces a level.
    Pretty,
}

/// What JSON is written to.
pub trait JsonOutput {
    /// Appends a token.
    fn put(&mut self, token: Token<'_>) -> Result<(), AllocError>
        requires { IsPrintable (token_of token) };
}

/// JSON without spaces.
#[derive(Drop)]
pub struct CompactText {
    writer: Writer,
    ghost alone: { writer.before ≡ [] },
}

impl CompactText {
    /// No text yet.
    pub fn new(alloc: Global) -> Self {
        CompactText {
            writer: Writer::new(Vec::new(alloc)),
        }
    }

    /// The text.
    pub fn finish(self) -> String
        ensures { IsLaidOut Style.Compact (string_bytes result) }
    {
        let CompactText { writer } = self;
        String::from_utf8(writer.into_inner()).unwrap()
    }
}

impl JsonOutput for CompactText {
    fn put(&mut self, token: Token<'_>) -> Result<(), AllocError> {
        self.writer.token(token)
    }
}

impl JsonOutput for Pretty {
    fn put(&mut self, token: Token<'_>) -> Result<(), AllocError> {
        self.token(token)
    }
}

/// The text of what was written with a line for each member and element.
pub fn pretty_text(writer: Pretty) -> String
    ensures { IsLaidOut Style.Pretty (string_bytes result) }
{
    String::from_utf8(writer.into_inner()).unwrap()
}

/// A number; digits that are none would be a string.
pub fn put_number<W: JsonOutput>(output: &mut W, digits: &str) -> Result<(), AllocError> {
    if is_number(digits) {
        return output.put(Token::Number(digits));
    }
    output.put(Token::String(digits))
}
