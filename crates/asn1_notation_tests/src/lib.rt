//! Tests of the notation of X.680 that no row of `asn1_notation_rows` says: lexical items, lines and columns, and calls
//! of the rules.
#![tactic(auto)]

#[cfg(test)]
mod calls;
#[cfg(test)]
mod lexical;
