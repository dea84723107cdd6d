//! Readers of the message with which octets begin.
ghost use Rattle.std.specs.Prelude.{◌≡◌, ◌≤◌, ℕ, List, IfErr, IfOk, drop, length};
ghost use Rattle.asn1_model.specs.Rules.{Rules};
ghost use Rattle.asn1_schema_decode.specs.Messages.{NoMessage, Tells};
ghost use Rattle.asn1_schema_errors.specs.declared.DecodeError.{DecodeError};

use crate::Decode;
use asn1_schema_errors::DecodeError;
use std::alloc::Global;

/// Why octets do not begin with an encoding, and how many more octets are needed at least.
#[derive(Clone, Copy, Debug, PartialEq, Eq)]
pub struct Refusal {
    /// Why the octets do not begin with an encoding.
    pub error: DecodeError,
    /// If fewer octets than this are appended, the octets still do not begin with an encoding, unless the error was
    /// `OutOfMemory`. Never zero.
    pub needed: usize,
}

/// Reads the value with whose encoding octets begin, by one set of encoding rules.
pub trait FrontReader<T: Decode> {
    /// The encoding rules.
    ghost rules: { Rules };

    /// The errors with which it refuses octets.
    ghost refuses: { List ℕ → DecodeError → Type 0 };

    /// The value with whose encoding the input begins, and the length of the encoding in octets.
    ///
    /// # Errors
    ///
    /// `OutOfMemory` if memory runs out. Any other error only if no prefix of the input that is shorter than 2^60
    /// octets is an encoding of a value with at most 128 nested levels. Each call starts anew, and none returns
    /// `AlreadyFailed`.
    fn read_front(&self, alloc: Global, input: &[u8]) -> Result<(T, usize), DecodeError>
        ensures within { IfOk result (λ x. x.1 ≤ length input.now) }
        ensures ok { IfOk result (λ x. Tells rules T.schema (T.meaning x.0) input.now (drop x.1 input.now)) }
        ensures refused { IfErr result (refuses input.now) }
        ensures only { IfErr result (NoMessage rules T.schema input.now) }
        ensures fresh { IfErr result (λ e. e ≡ DecodeError.AlreadyFailed → ⊥) };
}
