//! Octets as the text of a UTF8String (ISO/IEC 10646 annex D).

ghost use Rattle.std.specs.Prelude.{◌≡◌, is_some, IfSome};
ghost use Rattle.asn1_model.specs.Schema.{utf8};
ghost use Rattle.asn1_model.specs.Strings.{may_hold};

/// The octets as text, if they are well-formed UTF-8.
pub fn text_of(octets: &[u8]) -> Option<&str>
    ensures text { IfSome result (λ text. text.now ≡ octets.now) }
    ensures utf8 { is_some result ≡ may_hold utf8 octets.now }
{
    match std::str::from_utf8(octets) {
        Ok(text) => Some(text),
        Err(_) => None,
    }
}
