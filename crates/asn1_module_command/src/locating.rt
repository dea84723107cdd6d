//! Where a message is refused.
ghost use Rattle.std.specs.Prelude.{◌≡◌, Some};
ghost use Rattle.asn1_module_command.specs.Runs.{fault_in};

use crate::errors::{CommandError, Place};
use crate::values::Typed;
use asn1_relay_command::Fault;
use asn1_relay_core::Codec;
use asn1_table_locating::{Located, locate_oer, locate_per};
use oer_codec_reading::EncodingRules;
use per_codec_reading::PackedRules;
use std::alloc::AllocError;

impl Typed<'_> {
    /// Where a message ends or is refused.
    pub(crate) fn locate(self, from: Codec, message: &[u8]) -> Result<Located, AllocError> {
        match from {
            Codec::Uper => self.locate_bits(PackedRules::Uper, message),
            Codec::Aper => self.locate_bits(PackedRules::Aper, message),
            Codec::UperStrict => self.locate_bits(PackedRules::UperStrict, message),
            Codec::AperStrict => self.locate_bits(PackedRules::AperStrict, message),
            Codec::Oer => self.locate_octets(EncodingRules::Oer, message),
            Codec::Coer => self.locate_octets(EncodingRules::Coer, message),
        }
    }

    /// The same in PER.
    fn locate_bits(self, rules: PackedRules, message: &[u8]) -> Result<Located, AllocError> {
        let table = self.table;
        locate_per(
            self.alloc,
            &table.types,
            &table.names,
            table.place,
            message,
            rules,
        )
    }

    /// The same in OER.
    fn locate_octets(self, rules: EncodingRules, message: &[u8]) -> Result<Located, AllocError> {
        let table = self.table;
        locate_oer(
            self.alloc,
            &table.types,
            &table.names,
            table.place,
            message,
            rules,
        )
    }

    /// The error of a message, with the place at which it is refused if that is known.
    pub(crate) fn explained(self, from: Codec, message: &[u8], fault: Fault) -> CommandError
        ensures { fault_in result ≡ Some fault }
    {
        match fault {
            Fault::NotAnEncoding | Fault::SurplusOctets => self.located(from, message, fault),
            _ => CommandError::Fault(fault),
        }
    }

    /// The error of a message that is refused, with the place if memory suffices to find it.
    pub(crate) fn located(self, from: Codec, message: &[u8], fault: Fault) -> CommandError
        ensures { fault_in result ≡ Some fault }
    {
        match self.locate(from, message) {
            Ok(Located::Refused(refused)) => CommandError::Located(fault, Place::Refused(refused)),
            Ok(Located::Read(octet)) => CommandError::Located(fault, Place::Surplus(octet)),
            Err(_) => CommandError::Fault(fault),
        }
    }
}
