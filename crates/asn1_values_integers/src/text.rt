//! How integers are printed.
ghost use Rattle.std.specs.Prelude.{Some};
ghost use Rattle.std.specs.List.{flat_map};
ghost use Rattle.asn1_values_integers.specs.Texts.{number_text, octet_text};

use crate::integer::Integer;
use std::fmt;

// An octet, printed as two hexadecimal digits.
#[derive(Drop)]
struct OctetDigits {
    octet: u8,
}

impl fmt::Display for OctetDigits {
    ghost output = { λ d. Some (octet_text d.octet) };

    #[tactic(auto, using(std::proofs::lemmas::Fmt::hex_byte))]
    fn fmt<W: fmt::Write>(&self, f: &mut fmt::Formatter<W>) -> fmt::Result {
        let octet = self.octet;
        write!(f, "{octet:02x}")
    }
}

// Octets, each printed as two hexadecimal digits.
#[derive(Drop)]
struct Hexadecimal<'a> {
    octets: &'a [u8],
}

impl fmt::Display for Hexadecimal<'_> {
    ghost output = { λ h. Some (flat_map octet_text h.octets.now) };

    fn fmt<W: fmt::Write>(&self, f: &mut fmt::Formatter<W>) -> fmt::Result {
        for octet in self.octets {
            let digits = OctetDigits { octet: *octet };
            write!(f, "{digits}")?;
        }
        Ok(())
    }
}

impl fmt::Display for Integer {
    ghost output = { λ z. Some (number_text z) };

    fn fmt<W: fmt::Write>(&self, f: &mut fmt::Formatter<W>) -> fmt::Result {
        match self.to_i128() {
            Some(number) => write!(f, "{number}"),
            None => {
                let octets = self.to_signed_bytes_be();
                let digits = Hexadecimal {
                    octets: octets.as_slice(),
                };
                write!(f, "0x{digits}")
            }
        }
    }
}
