//! Rust types by their names, one group after another.
use crate::of::Of;
use crate::under::Under;
use asn1_relay_types::{
    Bag, Group, Nest, New, NewColour, NewRequired, Octets, Old, Pair, Set, Small,
};
use asn1_relay_vectors_judging::cuts::Inputs;
use asn1_relay_vectors_judging::judging::judge;
use asn1_relay_vectors_lines::line::{Line, LineError, Verdict};
use asn1_relay_vectors_types::{ExtensibleOctet, Versioned};
use asn1_schema_example::answer::Answer;
use asn1_schema_example::colour::Colour;
use asn1_schema_example::control::Control;
use asn1_schema_example::gauge::Gauge;
use asn1_schema_example::grown::Grown;
use asn1_schema_example::message::Message;
use asn1_schema_example::tree::Tree;
use asn1_schema_wrapped::SetOf;
use asn1_values_bit_strings::BitString;
use asn1_values_integers::Integer;
use asn1_values_octets::OctetString;
use asn1_values_strings::{
    BmpString, GeneralString, Ia5String, NumericString, PrintableString, VisibleString,
};
use std::marker::PhantomData;

/// Judges a line over its Rust type, if that is named here or in one of the groups below.
///
/// # Errors
///
/// `NoType` if no type has that name, and those of `judge`.
pub fn judge_named(inputs: &mut Inputs, line: &Line<'_>) -> Verdict {
    if !line.constraints.is_empty() {
        return judge_under(inputs, line);
    }
    match line.kind {
        "bool" => judge(inputs, &Of::<bool>(PhantomData), line),
        "null" => judge(inputs, &Of::<()>(PhantomData), line),
        "integer" => judge(inputs, &Of::<Integer>(PhantomData), line),
        "small" => judge(inputs, &Of::<Small>(PhantomData), line),
        "bits" => judge(inputs, &Of::<BitString>(PhantomData), line),
        "octets" => judge(inputs, &Of::<Octets>(PhantomData), line),
        "visible" => judge(inputs, &Of::<VisibleString>(PhantomData), line),
        "nulls" => judge(inputs, &Of::<Vec<()>>(PhantomData), line),
        "bag" => judge(inputs, &Of::<Bag>(PhantomData), line),
        "nest" => judge(inputs, &Of::<Nest>(PhantomData), line),
        "pair" => judge(inputs, &Of::<Pair>(PhantomData), line),
        "set" => judge(inputs, &Of::<Set>(PhantomData), line),
        "new" => judge(inputs, &Of::<New>(PhantomData), line),
        "old" => judge(inputs, &Of::<Old>(PhantomData), line),
        "group" => judge(inputs, &Of::<Group>(PhantomData), line),
        "demand" => judge(inputs, &Of::<NewRequired>(PhantomData), line),
        "tint" => judge(inputs, &Of::<NewColour>(PhantomData), line),
        _ => judge_built_in(inputs, line),
    }
}

/// Judges a line of a string, or of a list of a built-in type.
fn judge_built_in(inputs: &mut Inputs, line: &Line<'_>) -> Verdict {
    match line.kind {
        "octet-string" => judge(inputs, &Of::<OctetString>(PhantomData), line),
        "utf8" => judge(inputs, &Of::<String>(PhantomData), line),
        "numeric" => judge(inputs, &Of::<NumericString>(PhantomData), line),
        "printable" => judge(inputs, &Of::<PrintableString>(PhantomData), line),
        "ia5" => judge(inputs, &Of::<Ia5String>(PhantomData), line),
        "general" => judge(inputs, &Of::<GeneralString>(PhantomData), line),
        "bmp" => judge(inputs, &Of::<BmpString>(PhantomData), line),
        "bools" => judge(inputs, &Of::<Vec<bool>>(PhantomData), line),
        "integers" => judge(inputs, &Of::<Vec<Integer>>(PhantomData), line),
        "smalls" => judge(inputs, &Of::<SetOf<Small>>(PhantomData), line),
        "integer-bag" => judge(inputs, &Of::<SetOf<Integer>>(PhantomData), line),
        _ => judge_example(inputs, line),
    }
}

/// Judges a line of a type of `asn1_schema_example`.
fn judge_example(inputs: &mut Inputs, line: &Line<'_>) -> Verdict {
    match line.kind {
        "answer" => judge(inputs, &Of::<Answer>(PhantomData), line),
        "colour" => judge(inputs, &Of::<Colour>(PhantomData), line),
        "message" => judge(inputs, &Of::<Message>(PhantomData), line),
        "tree" => judge(inputs, &Of::<Tree>(PhantomData), line),
        "control" => judge(inputs, &Of::<Control>(PhantomData), line),
        "gauge" => judge(inputs, &Of::<Gauge>(PhantomData), line),
        "grown" => judge(inputs, &Of::<Grown>(PhantomData), line),
        _ => judge_rust(inputs, line),
    }
}

/// Judges a line of a type that only Rust has, or only the vectors.
fn judge_rust(inputs: &mut Inputs, line: &Line<'_>) -> Verdict {
    match line.kind {
        "u16" => judge(inputs, &Of::<u16>(PhantomData), line),
        "u32" => judge(inputs, &Of::<u32>(PhantomData), line),
        "u128" => judge(inputs, &Of::<u128>(PhantomData), line),
        "i8" => judge(inputs, &Of::<i8>(PhantomData), line),
        "i16" => judge(inputs, &Of::<i16>(PhantomData), line),
        "i32" => judge(inputs, &Of::<i32>(PhantomData), line),
        "bool-pair" => judge(inputs, &Of::<[bool; 2]>(PhantomData), line),
        "octet-or-more" => judge(inputs, &Of::<ExtensibleOctet>(PhantomData), line),
        "versioned" => judge(inputs, &Of::<Versioned>(PhantomData), line),
        _ => Err(LineError::NoType),
    }
}

/// Judges a line of the type `T` under the constraints of the line.
macro_rules! judge_under {
    ($inputs:expr, $type:ty, $line:expr) => {{
        let under = Under::<$type>::read($inputs.alloc(), $line.constraints)?;
        judge($inputs, &under, $line)
    }};
}

/// Judges a line of a type under constraints.
fn judge_under(inputs: &mut Inputs, line: &Line<'_>) -> Verdict {
    match line.kind {
        "integer" => judge_under!(inputs, Integer, line),
        "bits" => judge_under!(inputs, BitString, line),
        "octet-string" => judge_under!(inputs, OctetString, line),
        "numeric" => judge_under!(inputs, NumericString, line),
        "visible" => judge_under!(inputs, VisibleString, line),
        "sized-utf8" => judge_under!(inputs, String, line),
        "bools" => judge_under!(inputs, Vec<bool>, line),
        "bag" => judge_under!(inputs, Bag, line),
        _ => judge_native(inputs, line),
    }
}

/// Judges a line of a native integer under constraints.
fn judge_native(inputs: &mut Inputs, line: &Line<'_>) -> Verdict {
    match line.kind {
        "u8" => judge_under!(inputs, u8, line),
        "u16" => judge_under!(inputs, u16, line),
        "u32" => judge_under!(inputs, u32, line),
        "u64" => judge_under!(inputs, u64, line),
        "i8" => judge_under!(inputs, i8, line),
        "i32" => judge_under!(inputs, i32, line),
        "i64" => judge_under!(inputs, i64, line),
        "i128" => judge_under!(inputs, i128, line),
        _ => Err(LineError::NoType),
    }
}
