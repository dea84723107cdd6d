//! Lexical items of one to three characters.
ghost use Rattle.std.specs.Prelude.{◌≡◌, ◌≤◌, length, IfSome};
ghost use Rattle.asn1_notation_tokens.specs.Lexical.{symbol_text, BeginsWithSymbol};

/// A lexical item of one to three characters (X.680 12.20 to 12.24, 12.37).
#[derive(Clone, Copy, Debug, PartialEq, Eq)]
pub enum Symbol {
    /// `::=`.
    Assignment,
    /// `..`.
    Range,
    /// `...`.
    Ellipsis,
    /// `[[`.
    LeftVersionBrackets,
    /// `]]`.
    RightVersionBrackets,
    /// `{`.
    LeftBrace,
    /// `}`.
    RightBrace,
    /// `(`.
    LeftParenthesis,
    /// `)`.
    RightParenthesis,
    /// `[`.
    LeftBracket,
    /// `]`.
    RightBracket,
    /// `,`.
    Comma,
    /// `;`.
    Semicolon,
    /// `:`.
    Colon,
    /// `.`.
    Dot,
    /// `|`.
    Bar,
    /// `^`.
    Caret,
    /// `<`.
    Less,
    /// `>`.
    Greater,
    /// `@`.
    At,
    /// `!`.
    Exclamation,
    /// `-`.
    Minus,
    /// `/`.
    Slash,
    /// `=`.
    Equals,
}

impl Symbol {
    /// Its characters.
    pub fn text(self) -> &'static str
        ensures { result.now ≡ symbol_text self }
    {
        match self {
            Symbol::Assignment => "::=",
            Symbol::Range => "..",
            Symbol::Ellipsis => "...",
            Symbol::LeftVersionBrackets => "[[",
            Symbol::RightVersionBrackets => "]]",
            Symbol::LeftBrace => "{",
            Symbol::RightBrace => "}",
            Symbol::LeftParenthesis => "(",
            Symbol::RightParenthesis => ")",
            Symbol::LeftBracket => "[",
            Symbol::RightBracket => "]",
            Symbol::Comma => ",",
            Symbol::Semicolon => ";",
            Symbol::Colon => ":",
            Symbol::Dot => ".",
            Symbol::Bar => "|",
            Symbol::Caret => "^",
            Symbol::Less => "<",
            Symbol::Greater => ">",
            Symbol::At => "@",
            Symbol::Exclamation => "!",
            Symbol::Minus => "-",
            Symbol::Slash => "/",
            Symbol::Equals => "=",
        }
    }
}

/// All of them, the longer ones first.
const SYMBOLS: [Symbol; 24] = [
    Symbol::Assignment,
    Symbol::Ellipsis,
    Symbol::Range,
    Symbol::LeftVersionBrackets,
    Symbol::RightVersionBrackets,
    Symbol::LeftBrace,
    Symbol::RightBrace,
    Symbol::LeftParenthesis,
    Symbol::RightParenthesis,
    Symbol::LeftBracket,
    Symbol::RightBracket,
    Symbol::Comma,
    Symbol::Semicolon,
    Symbol::Colon,
    Symbol::Dot,
    Symbol::Bar,
    Symbol::Caret,
    Symbol::Less,
    Symbol::Greater,
    Symbol::At,
    Symbol::Exclamation,
    Symbol::Minus,
    Symbol::Slash,
    Symbol::Equals,
];

/// The longest symbol at the beginning of a text, if one is there.
pub fn symbol_of(rest: &[u8]) -> Option<Symbol>
    ensures within { IfSome result (λ s. length (symbol_text s) ≤ length rest.now) }
    ensures found { IfSome result (BeginsWithSymbol rest.now) }
{
    for symbol in SYMBOLS.iter() {
        let text = symbol.text().as_bytes();
        if text.len() <= rest.len() && &rest[..text.len()] == text {
            return Some(*symbol);
        }
    }
    None
}
