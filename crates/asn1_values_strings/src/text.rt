//! Strings of ISO 646 characters as `str`.
ghost use Rattle.std.specs.Prelude.{◌≡◌, Some, string_bytes, IsTrue, IfOk, IfErr, OnOk, MatchResult};
ghost use Rattle.std.specs.Fmt.{styled_text};
ghost use Rattle.asn1_values_alphabets.specs.Permitted.{permits_all, IsRefusalOf};

use crate::kinds::TextKind;
use crate::restricted::RestrictedString;
use asn1_values_alphabets::PermittedAlphabetError;
use asn1_values_octets::OctetString;
use std::alloc::{AllocFailed, Global};
use std::fmt;

impl<K: TextKind> RestrictedString<K> {
    /// The string of these characters of ISO 646.
    ///
    /// # Errors
    ///
    /// The error for the first character that the type does not permit, or `Memory` if memory runs out.
    pub fn from_iso646_bytes(alloc: Global, bytes: &[u8]) -> Result<Self, PermittedAlphabetError>
        ensures characters { IfOk result (λ s. s ≡ bytes.now) }
        ensures permitted { OnOk result (IsTrue (permits_all K.kind bytes.now)) }
        ensures refused { IfErr result (IsRefusalOf K.kind K.refused bytes.now) }
    {
        RestrictedString::from_bytes(alloc, bytes)
    }

    /// The characters in ISO 646.
    pub fn as_iso646_bytes(&self) -> &[u8]
        ensures characters { result.now ≡ self.now }
        ensures permitted { IsTrue (permits_all K.kind self.now) }
    {
        self.as_bytes()
    }

    /// The characters as a text.
    pub fn as_str(&self) -> &str
        ensures { result.now ≡ self.now }
    {
        std::str::from_utf8(self.as_bytes()).unwrap()
    }
}

/// Prints the characters, truncated and padded as a `str`.
impl<K: TextKind> fmt::Display for RestrictedString<K> {
    ghost output = { λ s. Some s };

    ghost styled_output = { λ s spec. Some (styled_text spec s) };

    fn fmt<W: fmt::Write>(&self, f: &mut fmt::Formatter<W>) -> fmt::Result {
        f.pad(self.as_str())
    }
}

impl<K: TextKind> From<RestrictedString<K>> for String {
    ghost from_gives = { λ s text. string_bytes text ≡ s };

    fn from(string: RestrictedString<K>) -> String {
        String::from_utf8(string.into_vec()).unwrap()
    }
}

/// If memory runs out, the error returns the characters.
impl<K: TextKind> TryFrom<RestrictedString<K>> for OctetString {
    type Error = AllocFailed<Vec<u8>>;

    ghost try_from_gives = { λ s r. MatchResult r (λ octets. octets ≡ s) (λ e. e.value.items ≡ s) };

    fn try_from(string: RestrictedString<K>) -> Result<OctetString, AllocFailed<Vec<u8>>> {
        OctetString::from_vec(string.into_vec())
    }
}
