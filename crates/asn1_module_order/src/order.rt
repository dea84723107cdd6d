//! What is done with types of modules.
use asn1_notation_types::TableOptions;
use asn1_relay_core::{Codec, Hop};
use asn1_table_json_writing::Style;

/// What stands for the values of a type.
#[derive(Clone, Copy, Debug, PartialEq, Eq)]
pub enum Form {
    /// Encodings by these rules.
    Rules(Codec),
    /// JSON (X.697).
    Json,
}

/// How many messages the input has.
#[derive(Clone, Copy, Debug, PartialEq, Eq)]
pub enum Extent {
    /// One message, the whole input.
    Message,
    /// A stream of messages of at most `limit` octets each, which is 1 or more.
    Stream {
        /// The limit.
        limit: u32,
    },
}

/// How messages are translated.
#[derive(Clone, Copy, Debug, PartialEq, Eq)]
pub struct Translation {
    /// How many messages the input has.
    pub extent: Extent,
    /// What the input is.
    pub from: Form,
    /// What the output is.
    pub to: Form,
    /// Whether octets are read and written as hexadecimal digits.
    pub is_hexadecimal: bool,
    /// How JSON is laid out.
    pub style: Style,
}

/// How it is checked that a message is canonical.
#[derive(Clone, Copy, Debug, PartialEq, Eq)]
pub struct Check {
    /// The rules of the message.
    pub rules: Codec,
    /// Whether it is given as hexadecimal digits.
    pub is_hexadecimal: bool,
}

/// How a message passes from hop to hop, of which each knows the older or the newer version of its type.
#[derive(Debug, Drop, PartialEq, Eq)]
pub struct Route {
    /// The rules of the input.
    pub from: Codec,
    /// The hops, one or more.
    pub hops: Vec<Hop>,
    /// Whether octets are read and written as hexadecimal digits.
    pub is_hexadecimal: bool,
}

/// What is done with a type.
#[derive(Debug, Drop, PartialEq, Eq)]
pub enum Action {
    /// Its messages are translated.
    Translate(Translation),
    /// Whether a message is canonical is said.
    Check(Check),
    /// A message is sent along a route, with an older and a newer version of the type.
    Route(Route),
    /// The type is printed in the notation of X.680.
    Print,
}

/// What to do.
#[derive(Debug, Drop)]
pub struct Order {
    /// The files of the modules; of a route, of those with the newer version.
    pub modules: Vec<String>,
    /// The files of the modules with the older version, if there is one.
    pub older: Vec<String>,
    /// The type's name, or its module's name, a dot and its name; if there is none, the names of all types are listed.
    pub type_name: Option<String>,
    /// How the modules are understood.
    pub options: TableOptions,
    /// What is done with the type.
    pub action: Action,
    /// The file of the input, if it is not standard input.
    pub input: Option<String>,
    /// The file of the output, if it is not standard output.
    pub output: Option<String>,
}
